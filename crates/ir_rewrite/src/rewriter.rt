//! What a pattern edits by.

ghost use Rattle.std.specs.Prelude.{◌≡◌, ◌++◌, ◌∷◌, [], IfErr, IsOk, OnErr, OnOk};
ghost use Rattle.ir_checked_core.specs.Answers.{Made, OnRefused, OnUnmet, out_of_memory, own_answer};
ghost use Rattle.ir_checked_core.specs.declared.error.Call.TheVariants.{OperationInsertAfter, OperationInsertBefore};
ghost use Rattle.ir_model.specs.Changes.{Removes, in_blocks, put_after, put_before, without};
ghost use Rattle.ir_model.specs.ContextIds.{same_id};
ghost use Rattle.ir_model.specs.Forest.{an_op};
ghost use Rattle.ir_model.specs.Nesting.{IsLive};
ghost use Rattle.ir_model_passes.specs.Merging.{redirect_each};
ghost use Rattle.ir_core_context.specs.Calls.{KeepsAll, SameButForest};
ghost use Rattle.ir_core_context.specs.State.{bare, forest_of};
ghost use Rattle.ir_rewrite.specs.Answers.{EraseAnswers, InsertAnswers, MoveAnswers, ReplaceAnswers};
ghost use Rattle.ir_rewrite.specs.Notes.{AddsTouched};
ghost use Rattle.ir_rewrite.specs.Points.{next_point, put_at};
ghost use Rattle.ir_rewrite.specs.Replacing.{RedirectsSome, results_beside};

use crate::checks::{check_erase, check_insert, check_move, check_replace};
use crate::inserter::Inserter;
use crate::operation;
use crate::point::InsertionPoint;
use ir_base_dialects::{CoreError, Dialects, Ptr};
use ir_checked_core::{Call, CheckedErr};
use ir_core_queries::{Context, Erase, Operation, OperationPtr, ResultUses, Value};
use std::alloc::Global;

/// A change that a rewriter notes, of an operation.
#[derive_where(Clone, Copy)]
#[derive(Drop)]
pub enum Change<D: Dialects> {
    /// It was put in.
    Inserted(Ptr<Operation<D>>),
    /// It was moved, or what it says of itself was changed.
    Modified(Ptr<Operation<D>>),
    /// It names what was replaced or modified, or defines an operand of an operation that was to go.
    Touched(Ptr<Operation<D>>),
    /// It went, with all that stood inside it.
    Erased(Ptr<Operation<D>>),
}

// Notes that the operation was touched, if there is one.
fn note_touched<D: Dialects>(
    changes: &mut Vec<Change<D>>,
    touched: Option<Ptr<Operation<D>>>,
) -> Result<(), CoreError>
    ensures noted { AddsTouched changes.old.items changes.new.items }
    ensures memory { IfErr result (λ e. e ≡ CoreError.OutOfMemory) }
{
    match touched {
        Some(op) => {
            changes.push(Change::Touched(op))?;
            Ok(())
        }
        None => Ok(()),
    }
}

// Notes what defines the operands of a live operation.
fn note_definers<D: Dialects>(
    changes: &mut Vec<Change<D>>,
    ctx: &Context<D>,
    op: Ptr<Operation<D>>,
) -> Result<(), CoreError>
    requires { IsLive (forest_of ctx.now) (an_op op.index) }
    ensures noted { AddsTouched changes.old.items changes.new.items }
    ensures memory { IfErr result (λ e. e ≡ CoreError.OutOfMemory) }
{
    let record = op.deref(ctx);
    for index in 0..record.get_num_operands() {
        note_touched(changes, record.get_operand(index).defining_op())?;
    }
    Ok(())
}

// Notes which operations name a result of a live operation.
fn note_users<D: Dialects>(
    changes: &mut Vec<Change<D>>,
    ctx: &Context<D>,
    op: Ptr<Operation<D>>,
) -> Result<(), CoreError>
    requires { IsLive (forest_of ctx.now) (an_op op.index) }
    ensures noted { AddsTouched changes.old.items changes.new.items }
    ensures memory { IfErr result (λ e. e ≡ CoreError.OutOfMemory) }
{
    for used in op.uses(ctx) {
        note_touched(changes, Some(used.user_op()))?;
    }
    Ok(())
}

/// The calls by which a pattern edits. Each tests its conditions, and notes what it changes. It stands for pliron's and MLIR's pattern rewriters.
#[derive(Drop)]
pub struct Rewriter<D: Dialects> {
    /// Where the next operation is put in.
    pub inserter: Inserter<D>,
    /// What was changed, in order. Who has dealt with it clears it.
    pub changes: Vec<Change<D>>,
}

impl<D: Dialects> Rewriter<D> {
    /// A rewriter whose point is this, and that has changed nothing yet.
    pub fn new(alloc: Global, point: InsertionPoint<D>) -> Self
        ensures point { result.inserter.point ≡ point }
        ensures changes { result.changes.items ≡ [] }
    {
        Rewriter {
            inserter: Inserter::new(point),
            changes: Vec::new(alloc),
        }
    }

    /// Goes to an operation of which a pattern is to be asked: right before it, with nothing noted. A pattern made of others calls it before it asks the next of them.
    pub fn go_to(&mut self, op: Ptr<Operation<D>>)
        ensures at { self.new.inserter.point ≡ InsertionPoint.BeforeOperation op }
        ensures fresh { self.new.changes.items ≡ [] }
    {
        self.inserter.point = InsertionPoint::BeforeOperation(op);
        self.changes.clear();
    }

    /// Notes that the operation was changed otherwise, behind notes that those were touched that name its results. Of one that isn't live nothing is noted.
    ///
    /// # Errors
    /// `OutOfMemory`. Then some of those that name its results may be noted.
    pub fn modified(&mut self, ctx: &Context<D>, op: Ptr<Operation<D>>) -> Result<(), CheckedErr>
        ensures noted { OnOk result (IsLive (forest_of ctx.now) (an_op op.index) → (t : _) × AddsTouched self.old.changes.items t × (self.new.changes.items ≡ t ++ Change.Modified op ∷ [])) }
        ensures dead { ¬ IsLive (forest_of ctx.now) (an_op op.index) → IsOk result × (self.new ≡ self.old) }
        ensures partly { OnErr result (AddsTouched self.old.changes.items self.new.changes.items) }
        ensures memory { IfErr result (λ e. e ≡ out_of_memory) }
        ensures stays { self.new.inserter ≡ self.old.inserter }
    {
        if !op.is_live(ctx) {
            return Ok(());
        }
        note_users(&mut self.changes, ctx, op)?;
        self.changes.push(Change::Modified(op))?;
        Ok(())
    }

    /// Puts the operation in at the point, and moves the point on.
    ///
    /// # Errors
    /// As those of `checked::insert_at`, and `OutOfMemory`. Then nothing has changed, and nothing is noted.
    pub fn insert(&mut self, op: Ptr<Operation<D>>, ctx: &mut Context<D>) -> Result<(), CheckedErr>
        ensures conditions { InsertAnswers (forest_of ctx.old) self.old.inserter.point op.index own_answer result }
        ensures forest { OnOk result (forest_of ctx.new ≡ put_at (forest_of ctx.old) self.old.inserter.point op.index) }
        ensures point { OnOk result (self.new.inserter.point ≡ next_point self.old.inserter.point op) }
        ensures noted { OnOk result (self.new.changes.items ≡ self.old.changes.items ++ Change.Inserted op ∷ []) }
        ensures rest { OnOk result (SameButForest (bare ctx.old) (bare ctx.new)) }
        ensures keeps { OnOk result (KeepsAll ctx.old ctx.new) }
        ensures memory { Made result (IfErr result (λ e. e ≡ out_of_memory)) }
        ensures err { OnErr result (ctx.new ≡ ctx.old) }
        ensures told { OnErr result (self.new.changes.items ≡ self.old.changes.items) }
        ensures stays { OnErr result (self.new.inserter ≡ self.old.inserter) }
    {
        check_insert(ctx, op, self.inserter.point)?;
        self.changes.push(Change::Inserted(op))?;
        operation::insert_at(op, ctx, self.inserter.point);
        self.inserter.advance(op);
        Ok(())
    }

    /// Takes the operation out of its list, and puts it in right before the mark.
    ///
    /// # Errors
    /// As those of `checked::move_before`, and `OutOfMemory`. Then nothing has changed, and nothing is noted.
    pub fn move_before(
        &mut self,
        op: Ptr<Operation<D>>,
        ctx: &mut Context<D>,
        mark: Ptr<Operation<D>>,
    ) -> Result<(), CheckedErr>
        ensures conditions { MoveAnswers OperationInsertBefore (forest_of ctx.old) op.index mark.index own_answer result }
        ensures forest { OnOk result (forest_of ctx.new ≡ in_blocks (in_blocks (forest_of ctx.old) (without same_id op.index)) (put_before same_id op.index mark.index)) }
        ensures noted { OnOk result (self.new.changes.items ≡ self.old.changes.items ++ Change.Modified op ∷ []) }
        ensures rest { OnOk result (SameButForest (bare ctx.old) (bare ctx.new)) }
        ensures keeps { OnOk result (KeepsAll ctx.old ctx.new) }
        ensures memory { Made result (IfErr result (λ e. e ≡ out_of_memory)) }
        ensures err { OnErr result (ctx.new ≡ ctx.old) }
        ensures told { OnErr result (self.new.changes.items ≡ self.old.changes.items) }
        ensures stays { self.new.inserter ≡ self.old.inserter }
    {
        check_move(ctx, op, mark, Call::OperationInsertBefore)?;
        self.changes.push(Change::Modified(op))?;
        operation::move_before(op, ctx, mark);
        Ok(())
    }

    /// Takes the operation out of its list, and puts it in right after the mark.
    ///
    /// # Errors
    /// As those of `checked::move_after`, and `OutOfMemory`. Then nothing has changed, and nothing is noted.
    pub fn move_after(
        &mut self,
        op: Ptr<Operation<D>>,
        ctx: &mut Context<D>,
        mark: Ptr<Operation<D>>,
    ) -> Result<(), CheckedErr>
        ensures conditions { MoveAnswers OperationInsertAfter (forest_of ctx.old) op.index mark.index own_answer result }
        ensures forest { OnOk result (forest_of ctx.new ≡ in_blocks (in_blocks (forest_of ctx.old) (without same_id op.index)) (put_after same_id op.index mark.index)) }
        ensures noted { OnOk result (self.new.changes.items ≡ self.old.changes.items ++ Change.Modified op ∷ []) }
        ensures rest { OnOk result (SameButForest (bare ctx.old) (bare ctx.new)) }
        ensures keeps { OnOk result (KeepsAll ctx.old ctx.new) }
        ensures memory { Made result (IfErr result (λ e. e ≡ out_of_memory)) }
        ensures err { OnErr result (ctx.new ≡ ctx.old) }
        ensures told { OnErr result (self.new.changes.items ≡ self.old.changes.items) }
        ensures stays { self.new.inserter ≡ self.old.inserter }
    {
        check_move(ctx, op, mark, Call::OperationInsertAfter)?;
        self.changes.push(Change::Modified(op))?;
        operation::move_after(op, ctx, mark);
        Ok(())
    }

    /// Erases the operation with all that stands inside it. Noted before it are those that define its own operands, as touched.
    ///
    /// # Errors
    /// As those of `ir_checked_core`'s `operation::erase`, and then nothing is noted; and `OutOfMemory`, and then some of those that define its operands may be. The context is as it was.
    pub fn erase_op(
        &mut self,
        op: Ptr<Operation<D>>,
        ctx: &mut Context<D>,
    ) -> Result<(), CheckedErr>
        ensures conditions { EraseAnswers (forest_of ctx.old) op.index own_answer result }
        ensures forest { OnOk result (Removes (forest_of ctx.old) (an_op op.index) (forest_of ctx.new)) }
        ensures noted { OnOk result ((t : _) × AddsTouched self.old.changes.items t × (self.new.changes.items ≡ t ++ Change.Erased op ∷ [])) }
        ensures rest { OnOk result (SameButForest (bare ctx.old) (bare ctx.new)) }
        ensures memory { Made result (IfErr result (λ e. e ≡ out_of_memory)) }
        ensures err { OnErr result (ctx.new ≡ ctx.old) }
        ensures told { OnUnmet result (self.new ≡ self.old) }
        ensures told_partly { OnRefused result (AddsTouched self.old.changes.items self.new.changes.items) }
        ensures stays { self.new.inserter ≡ self.old.inserter }
    {
        check_erase(ctx, op)?;
        note_definers(&mut self.changes, ctx, op)?;
        self.changes.push(Change::Erased(op))?;
        op.erase(ctx);
        Ok(())
    }

    /// Lets each operand that names a result of the operation name the value at the same place, and erases the operation with all that stands inside it. Noted before it are those that define its own operands, and those that named its results, as touched.
    ///
    /// # Errors
    /// As those of `checked::replace_op`, and then nothing is noted; and `OutOfMemory`, which may come too before any result is replaced, and then some of those that define its operands or name its results may be.
    pub fn replace_op(
        &mut self,
        op: Ptr<Operation<D>>,
        ctx: &mut Context<D>,
        values: &[Value<D>],
    ) -> Result<(), CheckedErr>
        ensures conditions { ReplaceAnswers (forest_of ctx.old) op.index values.now own_answer result }
        ensures forest { OnOk result (Removes (redirect_each (forest_of ctx.old) (results_beside (forest_of ctx.old) op.index values.now)) (an_op op.index) (forest_of ctx.new)) }
        ensures noted { OnOk result ((t : _) × AddsTouched self.old.changes.items t × (self.new.changes.items ≡ t ++ Change.Erased op ∷ [])) }
        ensures rest { Made result (SameButForest (bare ctx.old) (bare ctx.new)) }
        ensures memory { Made result (IfErr result (λ e. e ≡ out_of_memory)) }
        ensures partly { OnRefused result (RedirectsSome (forest_of ctx.old) (results_beside (forest_of ctx.old) op.index values.now) (forest_of ctx.new)) }
        ensures unmet { OnUnmet result (ctx.new ≡ ctx.old) }
        ensures told { OnUnmet result (self.new ≡ self.old) }
        ensures told_partly { OnRefused result (AddsTouched self.old.changes.items self.new.changes.items) }
        ensures stays { self.new.inserter ≡ self.old.inserter }
    {
        check_replace(ctx, op, values)?;
        note_definers(&mut self.changes, ctx, op)?;
        note_users(&mut self.changes, ctx, op)?;
        self.changes.push(Change::Erased(op))?;
        match operation::replace_op(op, ctx, values) {
            Ok(()) => Ok(()),
            Err(error) => {
                self.changes.pop();
                Err(CheckedErr::Core(error))
            }
        }
    }
}
