//! The successors of operations: put in, taken out and put in the place of others, one at a time.

ghost use Rattle.std.specs.List.{remove};
ghost use Rattle.std.specs.Option.{option_map};
ghost use Rattle.std.specs.Prelude.{Err, IfOk, OnErr, OnOk, Some, length, slice_get, ◌-◌, ◌<◌, ◌↔◌, ◌≡◌, ◌≤◌};
ghost use Rattle.ir_checked_core.specs.Answers.{Answers, Made, out_of_numbers, out_of_slots, own_answer, own_value, unless};
ghost use Rattle.ir_core_context.specs.Calls.{KeepsAll, SameButForest};
ghost use Rattle.ir_core_context.specs.Places.{MakesUse, successor_inserted, successor_pushed, successor_replaced};
ghost use Rattle.ir_core_context.specs.State.{bare, forest_of};
ghost use Rattle.ir_model.specs.Changes.{on_op, on_successors};
ghost use Rattle.ir_model.specs.Edits.{one_use};
ghost use Rattle.ir_model.specs.Forest.{a_block, an_op};
ghost use Rattle.ir_model.specs.Nesting.{IsLive, successors_of};
ghost use Rattle.ir_model.specs.Sessions.{LacksNumbers};

use crate::error::{Call, CheckedErr, Condition, fault};
use ir_base_dialects::{Dialects, Ptr};
use ir_core_queries::{BasicBlock, BlockPtr, Context, Operation, OperationPtr, SuccessorEdits};

/// Puts a successor that names the live block at the end, and answers its index.
///
/// # Errors
/// `Unmet` where the operation isn't live, or the block isn't live. Else what the call itself is refused for.
pub fn push_successor<D: Dialects>(
    op: Ptr<Operation<D>>,
    ctx: &mut Context<D>,
    block: Ptr<BasicBlock<D>>,
) -> Result<usize, CheckedErr>
    ensures conditions { Answers Call.OperationPushSuccessor result (unless (IsLive (forest_of ctx.old) (an_op op.index)) Condition.DeadOperation (unless (IsLive (forest_of ctx.old) (a_block block.index)) Condition.DeadBlock own_answer)) }
    ensures index { IfOk result (λ at. at ≡ length (successors_of (forest_of ctx.old) op.index)) }
    ensures made { OnOk result (MakesUse (bare ctx.old) (bare ctx.new) (successor_pushed (forest_of ctx.old) op.index block.index)) }
    ensures keeps { Made result (KeepsAll ctx.old ctx.new) }
    ensures counter { Made result ((result ≡ Err out_of_numbers) ↔ LacksNumbers (bare ctx.old) one_use) }
    ensures slots { ¬ (result ≡ Err out_of_slots) }
    ensures err { OnErr result (ctx.new ≡ ctx.old) }
{
    if !op.is_live(ctx) {
        return Err(fault!(OperationPushSuccessor, DeadOperation));
    }
    if !block.is_live(ctx) {
        return Err(fault!(OperationPushSuccessor, DeadBlock));
    }
    match op.push_successor(ctx, block) {
        Ok(answer) => Ok(answer),
        Err(error) => Err(CheckedErr::Core(error)),
    }
}

/// Puts a successor that names the live block at an index up to their number; what stood there and behind it moves one place on.
///
/// # Errors
/// `Unmet` where the operation isn't live, the block isn't live, or the index is out of range. Else what the call itself is refused for.
pub fn insert_successor<D: Dialects>(
    op: Ptr<Operation<D>>,
    ctx: &mut Context<D>,
    index: usize,
    block: Ptr<BasicBlock<D>>,
) -> Result<(), CheckedErr>
    ensures conditions { Answers Call.OperationInsertSuccessor result (unless (IsLive (forest_of ctx.old) (an_op op.index)) Condition.DeadOperation (unless (IsLive (forest_of ctx.old) (a_block block.index)) Condition.DeadBlock (unless (index ≤ length (successors_of (forest_of ctx.old) op.index)) Condition.OutOfRange own_answer))) }
    ensures made { OnOk result (MakesUse (bare ctx.old) (bare ctx.new) (successor_inserted (forest_of ctx.old) op.index index block.index)) }
    ensures keeps { Made result (KeepsAll ctx.old ctx.new) }
    ensures counter { Made result ((result ≡ Err out_of_numbers) ↔ LacksNumbers (bare ctx.old) one_use) }
    ensures slots { ¬ (result ≡ Err out_of_slots) }
    ensures err { OnErr result (ctx.new ≡ ctx.old) }
{
    if !op.is_live(ctx) {
        return Err(fault!(OperationInsertSuccessor, DeadOperation));
    }
    if !block.is_live(ctx) {
        return Err(fault!(OperationInsertSuccessor, DeadBlock));
    }
    if op.deref(ctx).get_num_successors() < index {
        return Err(fault!(OperationInsertSuccessor, OutOfRange));
    }
    match op.insert_successor(ctx, index, block) {
        Ok(answer) => Ok(answer),
        Err(error) => Err(CheckedErr::Core(error)),
    }
}

/// Puts a successor that names the live block in the place of the one at the index, under a new number; the old use finds no index from then on.
///
/// # Errors
/// `Unmet` where the operation isn't live, the block isn't live, or the index is out of range. Else what the call itself is refused for.
pub fn replace_successor<D: Dialects>(
    op: Ptr<Operation<D>>,
    ctx: &mut Context<D>,
    index: usize,
    block: Ptr<BasicBlock<D>>,
) -> Result<(), CheckedErr>
    ensures conditions { Answers Call.OperationReplaceSuccessor result (unless (IsLive (forest_of ctx.old) (an_op op.index)) Condition.DeadOperation (unless (IsLive (forest_of ctx.old) (a_block block.index)) Condition.DeadBlock (unless (index < length (successors_of (forest_of ctx.old) op.index)) Condition.OutOfRange own_answer))) }
    ensures made { OnOk result (MakesUse (bare ctx.old) (bare ctx.new) (successor_replaced (forest_of ctx.old) op.index index block.index)) }
    ensures keeps { Made result (KeepsAll ctx.old ctx.new) }
    ensures counter { Made result ((result ≡ Err out_of_numbers) ↔ LacksNumbers (bare ctx.old) one_use) }
    ensures slots { ¬ (result ≡ Err out_of_slots) }
    ensures err { OnErr result (ctx.new ≡ ctx.old) }
{
    if !op.is_live(ctx) {
        return Err(fault!(OperationReplaceSuccessor, DeadOperation));
    }
    if !block.is_live(ctx) {
        return Err(fault!(OperationReplaceSuccessor, DeadBlock));
    }
    if op.deref(ctx).get_num_successors() <= index {
        return Err(fault!(OperationReplaceSuccessor, OutOfRange));
    }
    match op.replace_successor(ctx, index, block) {
        Ok(answer) => Ok(answer),
        Err(error) => Err(CheckedErr::Core(error)),
    }
}

/// Takes the successor at the index out, and answers the block that it named, which is live; those behind it move up.
///
/// # Errors
/// `Unmet` where the operation isn't live, or the index is out of range.
pub fn remove_successor<D: Dialects>(
    op: Ptr<Operation<D>>,
    ctx: &mut Context<D>,
    index: usize,
) -> Result<Ptr<BasicBlock<D>>, CheckedErr>
    ensures conditions { Answers Call.OperationRemoveSuccessor result (unless (IsLive (forest_of ctx.old) (an_op op.index)) Condition.DeadOperation (unless (index < length (successors_of (forest_of ctx.old) op.index)) Condition.OutOfRange own_value)) }
    ensures named { IfOk result (λ answer. option_map (λ p. p.block) (slice_get (successors_of (forest_of ctx.old) op.index) index) ≡ Some answer.index) }
    ensures still_live { IfOk result (λ answer. IsLive (forest_of ctx.new) (a_block answer.index)) }
    ensures forest { OnOk result (forest_of ctx.new ≡ on_op (forest_of ctx.old) op.index (on_successors (λ ps. remove ps index))) }
    ensures rest { OnOk result (SameButForest (bare ctx.old) (bare ctx.new)) }
    ensures keeps { OnOk result (KeepsAll ctx.old ctx.new) }
    ensures err { OnErr result (ctx.new ≡ ctx.old) }
{
    if !op.is_live(ctx) {
        return Err(fault!(OperationRemoveSuccessor, DeadOperation));
    }
    if op.deref(ctx).get_num_successors() <= index {
        return Err(fault!(OperationRemoveSuccessor, OutOfRange));
    }
    Ok(op.remove_successor(ctx, index))
}

/// Takes the last successor out, and answers the block that it named, which is live.
///
/// # Errors
/// `Unmet` where the operation isn't live, or there is none.
pub fn pop_successor<D: Dialects>(
    op: Ptr<Operation<D>>,
    ctx: &mut Context<D>,
) -> Result<Ptr<BasicBlock<D>>, CheckedErr>
    ensures conditions { Answers Call.OperationPopSuccessor result (unless (IsLive (forest_of ctx.old) (an_op op.index)) Condition.DeadOperation (unless (0 < length (successors_of (forest_of ctx.old) op.index)) Condition.OutOfRange own_value)) }
    ensures named { IfOk result (λ answer. option_map (λ p. p.block) (slice_get (successors_of (forest_of ctx.old) op.index) (length (successors_of (forest_of ctx.old) op.index) - 1)) ≡ Some answer.index) }
    ensures still_live { IfOk result (λ answer. IsLive (forest_of ctx.new) (a_block answer.index)) }
    ensures forest { OnOk result (forest_of ctx.new ≡ on_op (forest_of ctx.old) op.index (on_successors (λ ps. remove ps (length ps - 1)))) }
    ensures rest { OnOk result (SameButForest (bare ctx.old) (bare ctx.new)) }
    ensures keeps { OnOk result (KeepsAll ctx.old ctx.new) }
    ensures err { OnErr result (ctx.new ≡ ctx.old) }
{
    if !op.is_live(ctx) {
        return Err(fault!(OperationPopSuccessor, DeadOperation));
    }
    if op.deref(ctx).get_num_successors() == 0 {
        return Err(fault!(OperationPopSuccessor, OutOfRange));
    }
    Ok(op.pop_successor(ctx))
}
