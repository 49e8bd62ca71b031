//! The operands of operations: put in, taken out and put in the place of others, one at a time.

ghost use Rattle.std.specs.List.{remove};
ghost use Rattle.std.specs.Option.{option_map};
ghost use Rattle.std.specs.Prelude.{Err, IfOk, OnErr, OnOk, Some, length, slice_get, ◌-◌, ◌<◌, ◌↔◌, ◌≡◌, ◌≤◌};
ghost use Rattle.ir_checked_core.specs.Answers.{Answers, Made, out_of_numbers, out_of_slots, own_answer, own_value, unless};
ghost use Rattle.ir_core_context.specs.Calls.{KeepsAll, SameButForest};
ghost use Rattle.ir_core_context.specs.Places.{MakesUse, operand_inserted, operand_pushed, operand_replaced};
ghost use Rattle.ir_core_context.specs.State.{bare, forest_of};
ghost use Rattle.ir_core_records.specs.Meaning.{value_of};
ghost use Rattle.ir_model.specs.Changes.{on_op, on_operands};
ghost use Rattle.ir_model.specs.Edits.{one_use};
ghost use Rattle.ir_model.specs.Forest.{a_value, an_op};
ghost use Rattle.ir_model.specs.Nesting.{IsLive, IsLiveNamed, operands_of};
ghost use Rattle.ir_model.specs.Sessions.{LacksNumbers};

use crate::error::{Call, CheckedErr, Condition, fault};
use ir_base_dialects::{Dialects, Ptr};
use ir_core_queries::{Context, OperandEdits, Operation, OperationPtr, Value, ValueQueries};

/// Puts an operand that names the live value at the end, and answers its index.
///
/// # Errors
/// `Unmet` where the operation isn't live, or the value isn't live. Else what the call itself is refused for.
pub fn push_operand<D: Dialects>(
    op: Ptr<Operation<D>>,
    ctx: &mut Context<D>,
    value: Value<D>,
) -> Result<usize, CheckedErr>
    ensures conditions { Answers Call.OperationPushOperand result (unless (IsLive (forest_of ctx.old) (an_op op.index)) Condition.DeadOperation (unless (IsLiveNamed (forest_of ctx.old) (a_value (value_of value.index))) Condition.DeadValue own_answer)) }
    ensures index { IfOk result (λ at. at ≡ length (operands_of (forest_of ctx.old) op.index)) }
    ensures made { OnOk result (MakesUse (bare ctx.old) (bare ctx.new) (operand_pushed (forest_of ctx.old) op.index (value_of value.index))) }
    ensures keeps { Made result (KeepsAll ctx.old ctx.new) }
    ensures counter { Made result ((result ≡ Err out_of_numbers) ↔ LacksNumbers (bare ctx.old) one_use) }
    ensures slots { ¬ (result ≡ Err out_of_slots) }
    ensures err { OnErr result (ctx.new ≡ ctx.old) }
{
    if !op.is_live(ctx) {
        return Err(fault!(OperationPushOperand, DeadOperation));
    }
    if !value.is_live(ctx) {
        return Err(fault!(OperationPushOperand, DeadValue));
    }
    match op.push_operand(ctx, value) {
        Ok(answer) => Ok(answer),
        Err(error) => Err(CheckedErr::Core(error)),
    }
}

/// Puts an operand that names the live value at an index up to their number; what stood there and behind it moves one place on.
///
/// # Errors
/// `Unmet` where the operation isn't live, the value isn't live, or the index is out of range. Else what the call itself is refused for.
pub fn insert_operand<D: Dialects>(
    op: Ptr<Operation<D>>,
    ctx: &mut Context<D>,
    index: usize,
    value: Value<D>,
) -> Result<(), CheckedErr>
    ensures conditions { Answers Call.OperationInsertOperand result (unless (IsLive (forest_of ctx.old) (an_op op.index)) Condition.DeadOperation (unless (IsLiveNamed (forest_of ctx.old) (a_value (value_of value.index))) Condition.DeadValue (unless (index ≤ length (operands_of (forest_of ctx.old) op.index)) Condition.OutOfRange own_answer))) }
    ensures made { OnOk result (MakesUse (bare ctx.old) (bare ctx.new) (operand_inserted (forest_of ctx.old) op.index index (value_of value.index))) }
    ensures keeps { Made result (KeepsAll ctx.old ctx.new) }
    ensures counter { Made result ((result ≡ Err out_of_numbers) ↔ LacksNumbers (bare ctx.old) one_use) }
    ensures slots { ¬ (result ≡ Err out_of_slots) }
    ensures err { OnErr result (ctx.new ≡ ctx.old) }
{
    if !op.is_live(ctx) {
        return Err(fault!(OperationInsertOperand, DeadOperation));
    }
    if !value.is_live(ctx) {
        return Err(fault!(OperationInsertOperand, DeadValue));
    }
    if op.deref(ctx).get_num_operands() < index {
        return Err(fault!(OperationInsertOperand, OutOfRange));
    }
    match op.insert_operand(ctx, index, value) {
        Ok(answer) => Ok(answer),
        Err(error) => Err(CheckedErr::Core(error)),
    }
}

/// Puts an operand that names the live value in the place of the one at the index, under a new number; the old use finds no index from then on.
///
/// # Errors
/// `Unmet` where the operation isn't live, the value isn't live, or the index is out of range. Else what the call itself is refused for.
pub fn replace_operand<D: Dialects>(
    op: Ptr<Operation<D>>,
    ctx: &mut Context<D>,
    index: usize,
    value: Value<D>,
) -> Result<(), CheckedErr>
    ensures conditions { Answers Call.OperationReplaceOperand result (unless (IsLive (forest_of ctx.old) (an_op op.index)) Condition.DeadOperation (unless (IsLiveNamed (forest_of ctx.old) (a_value (value_of value.index))) Condition.DeadValue (unless (index < length (operands_of (forest_of ctx.old) op.index)) Condition.OutOfRange own_answer))) }
    ensures made { OnOk result (MakesUse (bare ctx.old) (bare ctx.new) (operand_replaced (forest_of ctx.old) op.index index (value_of value.index))) }
    ensures keeps { Made result (KeepsAll ctx.old ctx.new) }
    ensures counter { Made result ((result ≡ Err out_of_numbers) ↔ LacksNumbers (bare ctx.old) one_use) }
    ensures slots { ¬ (result ≡ Err out_of_slots) }
    ensures err { OnErr result (ctx.new ≡ ctx.old) }
{
    if !op.is_live(ctx) {
        return Err(fault!(OperationReplaceOperand, DeadOperation));
    }
    if !value.is_live(ctx) {
        return Err(fault!(OperationReplaceOperand, DeadValue));
    }
    if op.deref(ctx).get_num_operands() <= index {
        return Err(fault!(OperationReplaceOperand, OutOfRange));
    }
    match op.replace_operand(ctx, index, value) {
        Ok(answer) => Ok(answer),
        Err(error) => Err(CheckedErr::Core(error)),
    }
}

/// Takes the operand at the index out, and answers the value that it named, which is live; those behind it move up.
///
/// # Errors
/// `Unmet` where the operation isn't live, or the index is out of range.
pub fn remove_operand<D: Dialects>(
    op: Ptr<Operation<D>>,
    ctx: &mut Context<D>,
    index: usize,
) -> Result<Value<D>, CheckedErr>
    ensures conditions { Answers Call.OperationRemoveOperand result (unless (IsLive (forest_of ctx.old) (an_op op.index)) Condition.DeadOperation (unless (index < length (operands_of (forest_of ctx.old) op.index)) Condition.OutOfRange own_value)) }
    ensures named { IfOk result (λ answer. option_map (λ p. p.value) (slice_get (operands_of (forest_of ctx.old) op.index) index) ≡ Some (value_of answer.index)) }
    ensures still_live { IfOk result (λ answer. IsLiveNamed (forest_of ctx.new) (a_value (value_of answer.index))) }
    ensures forest { OnOk result (forest_of ctx.new ≡ on_op (forest_of ctx.old) op.index (on_operands (λ ps. remove ps index))) }
    ensures rest { OnOk result (SameButForest (bare ctx.old) (bare ctx.new)) }
    ensures keeps { OnOk result (KeepsAll ctx.old ctx.new) }
    ensures err { OnErr result (ctx.new ≡ ctx.old) }
{
    if !op.is_live(ctx) {
        return Err(fault!(OperationRemoveOperand, DeadOperation));
    }
    if op.deref(ctx).get_num_operands() <= index {
        return Err(fault!(OperationRemoveOperand, OutOfRange));
    }
    Ok(op.remove_operand(ctx, index))
}

/// Takes the last operand out, and answers the value that it named, which is live.
///
/// # Errors
/// `Unmet` where the operation isn't live, or there is none.
pub fn pop_operand<D: Dialects>(
    op: Ptr<Operation<D>>,
    ctx: &mut Context<D>,
) -> Result<Value<D>, CheckedErr>
    ensures conditions { Answers Call.OperationPopOperand result (unless (IsLive (forest_of ctx.old) (an_op op.index)) Condition.DeadOperation (unless (0 < length (operands_of (forest_of ctx.old) op.index)) Condition.OutOfRange own_value)) }
    ensures named { IfOk result (λ answer. option_map (λ p. p.value) (slice_get (operands_of (forest_of ctx.old) op.index) (length (operands_of (forest_of ctx.old) op.index) - 1)) ≡ Some (value_of answer.index)) }
    ensures still_live { IfOk result (λ answer. IsLiveNamed (forest_of ctx.new) (a_value (value_of answer.index))) }
    ensures forest { OnOk result (forest_of ctx.new ≡ on_op (forest_of ctx.old) op.index (on_operands (λ ps. remove ps (length ps - 1)))) }
    ensures rest { OnOk result (SameButForest (bare ctx.old) (bare ctx.new)) }
    ensures keeps { OnOk result (KeepsAll ctx.old ctx.new) }
    ensures err { OnErr result (ctx.new ≡ ctx.old) }
{
    if !op.is_live(ctx) {
        return Err(fault!(OperationPopOperand, DeadOperation));
    }
    if op.deref(ctx).get_num_operands() == 0 {
        return Err(fault!(OperationPopOperand, OutOfRange));
    }
    Ok(op.pop_operand(ctx))
}
