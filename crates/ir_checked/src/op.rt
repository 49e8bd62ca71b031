//! The calls of a wrapped operation.

ghost use Rattle.std.specs.Prelude.{IfOk, IsTrue, Some, ◌↔◌, ◌≡◌};
ghost use Rattle.ir_checked_core.specs.Answers.{Answers, own_value, unless};
ghost use Rattle.ir_core_context.specs.State.{forest_of};
ghost use Rattle.ir_model.specs.Calls.{loc_of};
ghost use Rattle.ir_model.specs.Forest.{an_op, of_op};
ghost use Rattle.ir_model.specs.Nesting.{IsLive};

use ir_base_dialects::Dialects;
use ir_checked_core::{Call, CheckedErr, Condition, fault};
use ir_core_queries::{Context, OperationPtr};
use ir_view_parts::Op;

// Whether the operation of a wrapper is live.
fn is_live<D: Dialects, T: Op<D>>(ctx: &Context<D>, op: &T) -> bool
    ensures { IsTrue result ↔ IsLive (forest_of ctx.now) (an_op (T.op_of op.now)) }
{
    op.get_operation().is_live(ctx)
}

/// The location of the live operation of a wrapper.
///
/// # Errors
/// `Unmet` where the operation isn't live.
pub fn loc<'a, D: Dialects, T: Op<D>>(op: &T, ctx: &'a Context<D>) -> Result<&'a D::Loc, CheckedErr>
    ensures conditions { Answers Call.OpLoc result (unless (IsLive (forest_of ctx.now) (an_op (T.op_of op.now))) Condition.DeadOperation own_value) }
    ensures found { IfOk result (λ answer. loc_of (forest_of ctx.now) (of_op (T.op_of op.now)) ≡ Some answer.now) }
{
    if !is_live(ctx, op) {
        return Err(fault!(OpLoc, DeadOperation));
    }
    Ok(op.loc(ctx))
}
