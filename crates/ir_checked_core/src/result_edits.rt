//! The results of operations: put in and taken out, one at a time.

ghost use Rattle.std.specs.Prelude.{Err, IfOk, OnErr, OnOk, length, ◌<◌, ◌↔◌, ◌≡◌, ◌≤◌};
ghost use Rattle.ir_checked_core.specs.Answers.{Answers, Made, out_of_numbers, out_of_slots, own_answer, own_value, unless};
ghost use Rattle.ir_core_context.specs.Calls.{EntitiesStayLive, KeepsAll, SameButForest};
ghost use Rattle.ir_core_context.specs.Definitions.{MakesValue, StayLiveBut, UnusedAt, ValueAt, definition_inserted, definition_popped, definition_pushed, definition_removed, last_place};
ghost use Rattle.ir_core_context.specs.State.{bare, forest_of, types_of};
ghost use Rattle.ir_model.specs.Edits.{one_number};
ghost use Rattle.ir_model.specs.Forest.{an_op, of_op};
ghost use Rattle.ir_model.specs.Nesting.{IsLive, definitions_of};
ghost use Rattle.ir_model.specs.Sessions.{LacksNumbers};

use crate::asked::{is_unused_last_result, is_unused_result};
use crate::error::{Call, CheckedErr, Condition, fault};
use ir_base_dialects::{Dialects, Ptr, TypeHandle};
use ir_core_queries::{Context, Operation, OperationPtr, ResultEdits, TypeQueries};

/// Puts a result of the known type at the end, and answers its index. It has a new number, no name and no uses.
///
/// # Errors
/// `Unmet` where the operation isn't live, or the type isn't known. Else what the call itself is refused for.
pub fn push_result<D: Dialects>(
    op: Ptr<Operation<D>>,
    ctx: &mut Context<D>,
    ty: TypeHandle,
) -> Result<usize, CheckedErr>
    ensures conditions { Answers Call.OperationPushResult result (unless (IsLive (forest_of ctx.old) (an_op op.index)) Condition.DeadOperation (unless (ty.place < length (types_of ctx.old)) Condition.UnknownType own_answer)) }
    ensures index { IfOk result (λ at. at ≡ length (definitions_of (forest_of ctx.old) (of_op op.index))) }
    ensures made { OnOk result (MakesValue (bare ctx.old) (bare ctx.new) (definition_pushed (forest_of ctx.old) (of_op op.index) ty.place)) }
    ensures keeps { Made result (KeepsAll ctx.old ctx.new) }
    ensures counter { Made result ((result ≡ Err out_of_numbers) ↔ LacksNumbers (bare ctx.old) one_number) }
    ensures slots { ¬ (result ≡ Err out_of_slots) }
    ensures err { OnErr result (ctx.new ≡ ctx.old) }
{
    if !op.is_live(ctx) {
        return Err(fault!(OperationPushResult, DeadOperation));
    }
    if !ty.is_known(ctx) {
        return Err(fault!(OperationPushResult, UnknownType));
    }
    match op.push_result(ctx, ty) {
        Ok(answer) => Ok(answer),
        Err(error) => Err(CheckedErr::Core(error)),
    }
}

/// Puts a result of the known type at an index up to their number; what stood there and behind it moves one place on. It has a new number, no name and no uses.
///
/// # Errors
/// `Unmet` where the operation isn't live, the index is out of range, or the type isn't known. Else what the call itself is refused for.
pub fn insert_result<D: Dialects>(
    op: Ptr<Operation<D>>,
    ctx: &mut Context<D>,
    index: usize,
    ty: TypeHandle,
) -> Result<(), CheckedErr>
    ensures conditions { Answers Call.OperationInsertResult result (unless (IsLive (forest_of ctx.old) (an_op op.index)) Condition.DeadOperation (unless (index ≤ length (definitions_of (forest_of ctx.old) (of_op op.index))) Condition.OutOfRange (unless (ty.place < length (types_of ctx.old)) Condition.UnknownType own_answer))) }
    ensures made { OnOk result (MakesValue (bare ctx.old) (bare ctx.new) (definition_inserted (forest_of ctx.old) (of_op op.index) index ty.place)) }
    ensures keeps { Made result (KeepsAll ctx.old ctx.new) }
    ensures counter { Made result ((result ≡ Err out_of_numbers) ↔ LacksNumbers (bare ctx.old) one_number) }
    ensures slots { ¬ (result ≡ Err out_of_slots) }
    ensures err { OnErr result (ctx.new ≡ ctx.old) }
{
    if !op.is_live(ctx) {
        return Err(fault!(OperationInsertResult, DeadOperation));
    }
    if op.deref(ctx).get_num_results() < index {
        return Err(fault!(OperationInsertResult, OutOfRange));
    }
    if !ty.is_known(ctx) {
        return Err(fault!(OperationInsertResult, UnknownType));
    }
    match op.insert_result(ctx, index, ty) {
        Ok(answer) => Ok(answer),
        Err(error) => Err(CheckedErr::Core(error)),
    }
}

/// Takes the result at the index out, which is there and which nothing names, as `is_used` tells; those behind it move up. All that was live stays live but this result.
///
/// # Errors
/// `Unmet` where the operation isn't live, the index is out of range, or what would go is used.
pub fn remove_result<D: Dialects>(
    op: Ptr<Operation<D>>,
    ctx: &mut Context<D>,
    index: usize,
) -> Result<(), CheckedErr>
    ensures conditions { Answers Call.OperationRemoveResult result (unless (IsLive (forest_of ctx.old) (an_op op.index)) Condition.DeadOperation (unless (index < length (definitions_of (forest_of ctx.old) (of_op op.index))) Condition.OutOfRange (unless (UnusedAt (forest_of ctx.old) (of_op op.index) index) Condition.Used own_value))) }
    ensures forest { OnOk result (forest_of ctx.new ≡ definition_removed (forest_of ctx.old) (of_op op.index) index) }
    ensures rest { OnOk result (SameButForest (bare ctx.old) (bare ctx.new)) }
    ensures stay_live { OnOk result (ValueAt (forest_of ctx.old) (of_op op.index) index (StayLiveBut (forest_of ctx.old) (forest_of ctx.new))) }
    ensures entities_stay_live { OnOk result (EntitiesStayLive (forest_of ctx.old) (forest_of ctx.new)) }
    ensures err { OnErr result (ctx.new ≡ ctx.old) }
{
    if !op.is_live(ctx) {
        return Err(fault!(OperationRemoveResult, DeadOperation));
    }
    if op.deref(ctx).get_num_results() <= index {
        return Err(fault!(OperationRemoveResult, OutOfRange));
    }
    if !is_unused_result(ctx, op, index) {
        return Err(fault!(OperationRemoveResult, Used));
    }
    op.remove_result(ctx, index);
    Ok(())
}

/// Takes the last result out, which is there and which nothing names, as `is_used` tells. All that was live stays live but this result.
///
/// # Errors
/// `Unmet` where the operation isn't live, there is none, or what would go is used.
pub fn pop_result<D: Dialects>(
    op: Ptr<Operation<D>>,
    ctx: &mut Context<D>,
) -> Result<(), CheckedErr>
    ensures conditions { Answers Call.OperationPopResult result (unless (IsLive (forest_of ctx.old) (an_op op.index)) Condition.DeadOperation (unless (0 < length (definitions_of (forest_of ctx.old) (of_op op.index))) Condition.OutOfRange (unless (UnusedAt (forest_of ctx.old) (of_op op.index) (last_place (forest_of ctx.old) (of_op op.index))) Condition.Used own_value))) }
    ensures forest { OnOk result (forest_of ctx.new ≡ definition_popped (forest_of ctx.old) (of_op op.index)) }
    ensures rest { OnOk result (SameButForest (bare ctx.old) (bare ctx.new)) }
    ensures stay_live { OnOk result (ValueAt (forest_of ctx.old) (of_op op.index) (last_place (forest_of ctx.old) (of_op op.index)) (StayLiveBut (forest_of ctx.old) (forest_of ctx.new))) }
    ensures entities_stay_live { OnOk result (EntitiesStayLive (forest_of ctx.old) (forest_of ctx.new)) }
    ensures err { OnErr result (ctx.new ≡ ctx.old) }
{
    if !op.is_live(ctx) {
        return Err(fault!(OperationPopResult, DeadOperation));
    }
    if op.deref(ctx).get_num_results() == 0 {
        return Err(fault!(OperationPopResult, OutOfRange));
    }
    if !is_unused_last_result(ctx, op) {
        return Err(fault!(OperationPopResult, Used));
    }
    op.pop_result(ctx);
    Ok(())
}
