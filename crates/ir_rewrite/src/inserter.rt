//! A point that is carried along.

ghost use Rattle.std.specs.Prelude.{◌≡◌, OnErr, OnOk};
ghost use Rattle.ir_checked_core.specs.Answers.{own_value};
ghost use Rattle.ir_core_context.specs.Calls.{KeepsAll, SameButForest};
ghost use Rattle.ir_core_context.specs.State.{bare, forest_of};
ghost use Rattle.ir_rewrite.specs.Answers.{InsertAnswers};
ghost use Rattle.ir_rewrite.specs.Points.{next_point, put_at};

use crate::checked::insert_at;
use crate::point::InsertionPoint;
use ir_base_dialects::{Dialects, Ptr};
use ir_checked_core::CheckedErr;
use ir_core_queries::{Context, Operation};

/// A point at which operations are put in, one behind the other. It stands for pliron's `IRInserter`.
#[derive_where(Clone, Copy)]
#[derive(Drop)]
pub struct Inserter<D: Dialects> {
    /// Where the next operation is put in.
    pub point: InsertionPoint<D>,
}

impl<D: Dialects> Inserter<D> {
    /// An inserter at this point.
    pub fn new(point: InsertionPoint<D>) -> Self
        ensures { result.point ≡ point }
    {
        Inserter { point }
    }

    /// Moves the point on, where it has to move so that the next operation comes behind this one, which was put in at the point.
    pub fn advance(&mut self, op: Ptr<Operation<D>>)
        ensures { self.new.point ≡ next_point self.old.point op }
    {
        match self.point {
            InsertionPoint::AtBlockStart(_) => self.point = InsertionPoint::AfterOperation(op),
            InsertionPoint::AtBlockEnd(_) => {}
            InsertionPoint::BeforeOperation(_) => {}
            InsertionPoint::AfterOperation(_) => self.point = InsertionPoint::AfterOperation(op),
        }
    }

    /// Puts the operation in at the point, and moves the point on.
    ///
    /// # Errors
    /// As those of `checked::insert_at`. Then the point is as it was, too.
    pub fn insert(&mut self, op: Ptr<Operation<D>>, ctx: &mut Context<D>) -> Result<(), CheckedErr>
        ensures conditions { InsertAnswers (forest_of ctx.old) self.old.point op.index own_value result }
        ensures forest { OnOk result (forest_of ctx.new ≡ put_at (forest_of ctx.old) self.old.point op.index) }
        ensures point { OnOk result (self.new.point ≡ next_point self.old.point op) }
        ensures rest { OnOk result (SameButForest (bare ctx.old) (bare ctx.new)) }
        ensures keeps { OnOk result (KeepsAll ctx.old ctx.new) }
        ensures err { OnErr result (ctx.new ≡ ctx.old) }
        ensures stays { OnErr result (self.new ≡ self.old) }
    {
        insert_at(op, ctx, self.point)?;
        self.advance(op);
        Ok(())
    }
}
