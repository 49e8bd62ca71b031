//! The calls of an operand as a use.

ghost use Rattle.std.specs.Prelude.{IfOk, length, ◌<◌};
ghost use Rattle.ir_checked_core.specs.Answers.{Answers, own_value, unless};
ghost use Rattle.ir_core_context.specs.State.{forest_of, types_of};
ghost use Rattle.ir_core_queries.specs.Values.{IsOfType};
ghost use Rattle.ir_core_records.specs.Meaning.{use_of, value_of};
ghost use Rattle.ir_core_records.specs.Values.{IsLiveUse};
ghost use Rattle.ir_model.specs.ContextIds.{context_ids};
ghost use Rattle.ir_model.specs.Forest.{Value as PlainValue, a_value};
ghost use Rattle.ir_model.specs.Nesting.{IsLiveNamed};
ghost use Rattle.ir_model.specs.Uses.{IsOperandAt, IsUse};

use crate::error::{Call, CheckedErr, Condition, fault};
use ir_base_dialects::{Dialects, TypeHandle};
use ir_core_queries::{Context, Use, UseQueries, Value};

/// Where a live use stands among the operands of its user.
///
/// # Errors
/// `Unmet` where the use isn't live.
pub fn find_index<D: Dialects>(used: Use<Value<D>>, ctx: &Context<D>) -> Result<usize, CheckedErr>
    ensures conditions { Answers Call.OperandUseFindIndex result (unless (IsLiveUse (forest_of ctx.now) (use_of used.index)) Condition.DeadUse own_value) }
    ensures found { IfOk result (λ answer. IsOperandAt (forest_of ctx.now) (use_of used.index) answer) }
{
    if used.try_find_index(ctx).is_err() {
        return Err(fault!(OperandUseFindIndex, DeadUse));
    }
    Ok(used.find_index(ctx))
}

/// The value that a live use names.
///
/// # Errors
/// `Unmet` where the use isn't live.
pub fn get_def<D: Dialects>(used: Use<Value<D>>, ctx: &Context<D>) -> Result<Value<D>, CheckedErr>
    ensures conditions { Answers Call.OperandUseGetDef result (unless (IsLiveUse (forest_of ctx.now) (use_of used.index)) Condition.DeadUse own_value) }
    ensures found { IfOk result (λ answer. IsUse (forest_of ctx.now) (a_value (value_of answer.index)) (use_of used.index)) }
    ensures live { IfOk result (λ answer. IsLiveNamed (forest_of ctx.now) (a_value (value_of answer.index))) }
{
    if used.try_find_index(ctx).is_err() {
        return Err(fault!(OperandUseGetDef, DeadUse));
    }
    Ok(used.get_def(ctx))
}

/// The type of the value that a live use names.
///
/// # Errors
/// `Unmet` where the use isn't live.
pub fn get_type<D: Dialects>(
    used: Use<Value<D>>,
    ctx: &Context<D>,
) -> Result<TypeHandle, CheckedErr>
    ensures conditions { Answers Call.OperandUseGetType result (unless (IsLiveUse (forest_of ctx.now) (use_of used.index)) Condition.DeadUse own_value) }
    ensures found { IfOk result (λ answer. (v : PlainValue context_ids) × (IsUse (forest_of ctx.now) (a_value v) (use_of used.index)) × IsOfType (forest_of ctx.now) v answer.place) }
    ensures known { IfOk result (λ answer. answer.place < length (types_of ctx.now)) }
{
    if used.try_find_index(ctx).is_err() {
        return Err(fault!(OperandUseGetType, DeadUse));
    }
    Ok(used.get_type(ctx))
}
