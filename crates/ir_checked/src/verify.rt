//! Verification of operations by their handles and by their wrappers. Each call answers what verification found, where it was made.

ghost use Rattle.std.specs.Prelude.{IfErr, IfOk, IsTrue, OnOk, ◌↔◌};
ghost use Rattle.ir_checked_core.specs.Answers.{Answers, own_value, unless};
ghost use Rattle.ir_core_context.specs.State.{forest_of};
ghost use Rattle.ir_model.specs.Faults.{the_entity};
ghost use Rattle.ir_model.specs.Forest.{an_op};
ghost use Rattle.ir_model.specs.Nesting.{IsLive};
ghost use Rattle.ir_verify.specs.Verified.{AllIsWellIn, MayAnswerIn};
ghost use Rattle.ir_view_parts.specs.Wrapped.{operation_in};

use ir_base_dialects::{Dialects, Ptr};
use ir_checked_core::{Call, CheckedErr, Condition, fault};
use ir_core_queries::{Context, Operation, OperationPtr};
use ir_verify::verify::{Verifiers, VerifyErr};
use ir_view_parts::OpObj;

// Whether the operation of a wrapper is live.
fn is_live<D: Dialects>(ctx: &Context<D>, op: OpObj<D>) -> bool
    ensures { IsTrue result ↔ IsLive (forest_of ctx.now) (an_op (operation_in op)) }
{
    op.get_operation().is_live(ctx)
}

/// Verifies a live operation and all that is inside it.
///
/// # Errors
/// `Unmet` where the operation isn't live.
pub fn verify_operation<D: Dialects, V: Verifiers<D>>(
    op: Ptr<Operation<D>>,
    ctx: &Context<D>,
    verifiers: &V,
) -> Result<Result<(), VerifyErr>, CheckedErr>
    ensures conditions { Answers Call.VerifyOperation result (unless (IsLive (forest_of ctx.now) (an_op op.index)) Condition.DeadOperation own_value) }
    ensures well { IfOk result (λ answer. OnOk answer (AllIsWellIn D.Dialects D.TypeKey.eq D.Saved.eq (V.handed_in verifiers.now) ctx.now (the_entity (an_op op.index)))) }
    ensures fault { IfOk result (λ answer. IfErr answer (λ e. MayAnswerIn D.Dialects D.TypeKey.eq D.Saved.eq (V.handed_in verifiers.now) ctx.now (the_entity (an_op op.index)) e)) }
{
    if !op.is_live(ctx) {
        return Err(fault!(VerifyOperation, DeadOperation));
    }
    Ok(ir_verify::verify::verify_operation(op, ctx, verifiers))
}

/// Verifies the live operation of a wrapper and all that is inside it, whatever kind the wrapper says.
///
/// # Errors
/// `Unmet` where the operation isn't live.
pub fn verify_op<D: Dialects, V: Verifiers<D>>(
    op: OpObj<D>,
    ctx: &Context<D>,
    verifiers: &V,
) -> Result<Result<(), VerifyErr>, CheckedErr>
    ensures conditions { Answers Call.VerifyOp result (unless (IsLive (forest_of ctx.now) (an_op (operation_in op))) Condition.DeadOperation own_value) }
    ensures well { IfOk result (λ answer. OnOk answer (AllIsWellIn D.Dialects D.TypeKey.eq D.Saved.eq (V.handed_in verifiers.now) ctx.now (the_entity (an_op (operation_in op))))) }
    ensures fault { IfOk result (λ answer. IfErr answer (λ e. MayAnswerIn D.Dialects D.TypeKey.eq D.Saved.eq (V.handed_in verifiers.now) ctx.now (the_entity (an_op (operation_in op))) e)) }
{
    if !is_live(ctx, op) {
        return Err(fault!(VerifyOp, DeadOperation));
    }
    Ok(ir_verify::verify::verify_op(op, ctx, verifiers))
}
