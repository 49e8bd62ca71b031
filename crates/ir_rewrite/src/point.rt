//! Points at which operations are put in.

ghost use Rattle.std.specs.Prelude.{◌≡◌, ◌↔◌, IsTrue};
ghost use Rattle.ir_core_context.specs.Calls.{KeepsAll, SameButForest};
ghost use Rattle.ir_core_context.specs.State.{bare, forest_of};
ghost use Rattle.ir_rewrite.specs.Points.{MayGoAt, put_at};

use crate::checks::check_insert;
use ir_base_dialects::{Dialects, Ptr};
use ir_core_queries::{BasicBlock, Context, Operation, OperationList};

/// Where an operation is put in. It stands for pliron's `OpInsertionPoint`.
#[derive_where(Clone, Copy)]
#[derive(Drop)]
pub enum InsertionPoint<D: Dialects> {
    /// At the front of the block.
    AtBlockStart(Ptr<BasicBlock<D>>),
    /// At the back of the block.
    AtBlockEnd(Ptr<BasicBlock<D>>),
    /// Right before the operation.
    BeforeOperation(Ptr<Operation<D>>),
    /// Right after the operation.
    AfterOperation(Ptr<Operation<D>>),
}

/// Whether the operation may be put in at the point: it is live and stands in no list, what the point names is live, the operation that it names stands in a block, and the block isn't inside the operation that is put in.
pub fn may_go_at<D: Dialects>(
    ctx: &Context<D>,
    op: Ptr<Operation<D>>,
    point: InsertionPoint<D>,
) -> bool
    ensures { IsTrue result ↔ MayGoAt (forest_of ctx.now) point op.index }
{
    check_insert(ctx, op, point).is_ok()
}

/// Puts the operation in at the point.
pub fn insert_at<D: Dialects>(op: Ptr<Operation<D>>, ctx: &mut Context<D>, point: InsertionPoint<D>)
    requires { MayGoAt (forest_of ctx.old) point op.index }
    ensures forest { forest_of ctx.new ≡ put_at (forest_of ctx.old) point op.index }
    ensures rest { SameButForest (bare ctx.old) (bare ctx.new) }
    ensures keeps { KeepsAll ctx.old ctx.new }
{
    match point {
        InsertionPoint::AtBlockStart(block) => op.insert_at_front(block, ctx),
        InsertionPoint::AtBlockEnd(block) => op.insert_at_back(block, ctx),
        InsertionPoint::BeforeOperation(mark) => op.insert_before(ctx, mark),
        InsertionPoint::AfterOperation(mark) => op.insert_after(ctx, mark),
    }
}
