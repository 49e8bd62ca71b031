//! Of what kind an operation is, and the types of its operands.

ghost use Rattle.std.specs.List.{AllZip};
ghost use Rattle.std.specs.Option.{option_map};
ghost use Rattle.std.specs.Prelude.{All, IfErr, IfOk, IfSome, IsSome, IsTrue, Some, length, ◌<◌, ◌↔◌, ◌≡◌};
ghost use Rattle.ir_checked_core.specs.Answers.{Answers, Made, out_of_memory, own_answer, own_value, unless};
ghost use Rattle.ir_core_context.specs.State.{forest_of, types_of};
ghost use Rattle.ir_core_queries.specs.Values.{IsOfType};
ghost use Rattle.ir_model.specs.Calls.{kind_of};
ghost use Rattle.ir_model.specs.Forest.{an_op};
ghost use Rattle.ir_model.specs.Nesting.{IsLive, operands_of};
ghost use Rattle.ir_view_parts.specs.Wrapped.{kind_in, operation_in};

use ir_base_dialects::{Dialects, OpId, Ptr};
use ir_checked_core::{Call, CheckedErr, Condition, fault};
use ir_core_queries::{Context, Operation, OperationPtr};
use ir_view_parts::{Op, OpObj, OperandTypes, OperationKind, OperationParts};

/// The types of the values that the operands of the live operation name, in order.
///
/// # Errors
/// `Unmet` where the operation isn't live.
pub fn operand_types<D: Dialects>(
    op: Ptr<Operation<D>>,
    ctx: &Context<D>,
) -> Result<OperandTypes<'_, D>, CheckedErr>
    ensures conditions { Answers Call.OperationOperandTypes result (unless (IsLive (forest_of ctx.now) (an_op op.index)) Condition.DeadOperation own_value) }
    ensures exact { IfOk result (λ answer. AllZip (λ a t. IsOfType (forest_of ctx.now) a.value t) (operands_of (forest_of ctx.now) op.index) answer) }
    ensures known { IfOk result (λ answer. All (λ t. t < length (types_of ctx.now)) answer) }
{
    if !op.is_live(ctx) {
        return Err(fault!(OperationOperandTypes, DeadOperation));
    }
    Ok(op.deref(ctx).operand_types(ctx))
}

/// The live operation with its kind.
///
/// # Errors
/// `Unmet` where the operation isn't live.
pub fn get_op_dyn<D: Dialects>(
    op: Ptr<Operation<D>>,
    ctx: &Context<D>,
) -> Result<OpObj<D>, CheckedErr>
    ensures conditions { Answers Call.OperationGetOpDyn result (unless (IsLive (forest_of ctx.now) (an_op op.index)) Condition.DeadOperation own_value) }
    ensures operation { IfOk result (λ answer. operation_in answer ≡ op.index) }
    ensures kind { IfOk result (λ answer. kind_of (forest_of ctx.now) op.index ≡ Some (kind_in answer)) }
{
    if !op.is_live(ctx) {
        return Err(fault!(OperationGetOpDyn, DeadOperation));
    }
    Ok(op.get_op_dyn(ctx))
}

/// The wrapper of the live operation, where its kind is the wrapper's.
///
/// # Errors
/// `Unmet` where the operation isn't live.
pub fn get_op<D: Dialects, T: Op<D>>(
    op: Ptr<Operation<D>>,
    ctx: &Context<D>,
) -> Result<Option<T>, CheckedErr>
    ensures conditions { Answers Call.OperationGetOp result (unless (IsLive (forest_of ctx.now) (an_op op.index)) Condition.DeadOperation own_value) }
    ensures some { IfOk result (λ answer. IsSome answer ↔ (kind_of (forest_of ctx.now) op.index ≡ Some T.KIND)) }
    ensures operation { IfOk result (λ answer. IfSome answer (λ wrapped. T.op_of wrapped ≡ op.index)) }
{
    if !op.is_live(ctx) {
        return Err(fault!(OperationGetOp, DeadOperation));
    }
    Ok(op.get_op(ctx))
}

/// Whether the kind of the live operation is the wrapper's.
///
/// # Errors
/// `Unmet` where the operation isn't live.
pub fn is_op<D: Dialects, T: Op<D>>(
    op: Ptr<Operation<D>>,
    ctx: &Context<D>,
) -> Result<bool, CheckedErr>
    ensures conditions { Answers Call.OperationIsOp result (unless (IsLive (forest_of ctx.now) (an_op op.index)) Condition.DeadOperation own_value) }
    ensures found { IfOk result (λ answer. IsTrue answer ↔ (kind_of (forest_of ctx.now) op.index ≡ Some T.KIND)) }
{
    if !op.is_live(ctx) {
        return Err(fault!(OperationIsOp, DeadOperation));
    }
    Ok(op.is_op::<T>(ctx))
}

/// The id of operations of the kind of the live one.
///
/// # Errors
/// `Unmet` where the operation isn't live. Else what the call itself is refused for.
pub fn get_opid<D: Dialects>(op: Ptr<Operation<D>>, ctx: &Context<D>) -> Result<OpId, CheckedErr>
    ensures conditions { Answers Call.OperationGetOpid result (unless (IsLive (forest_of ctx.now) (an_op op.index)) Condition.DeadOperation own_answer) }
    ensures id { IfOk result (λ id. option_map D.op_id_of (kind_of (forest_of ctx.now) op.index) ≡ Some id) }
    ensures memory { Made result (IfErr result (λ e. e ≡ out_of_memory)) }
{
    if !op.is_live(ctx) {
        return Err(fault!(OperationGetOpid, DeadOperation));
    }
    match op.get_opid(ctx) {
        Ok(answer) => Ok(answer),
        Err(error) => Err(CheckedErr::Core(error)),
    }
}
