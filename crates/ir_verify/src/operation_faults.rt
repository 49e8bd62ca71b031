//! The fault of one operation: a terminator that isn't the last of its block.

ghost use Rattle.ir_model.specs.Forest.{an_op};
ghost use Rattle.ir_model.specs.Nesting.{IsLive};
ghost use Rattle.ir_view_parts.specs.State.{forest_of, types_of};
ghost use Rattle.ir_verify.specs.Parts.{FaultAtOp, Tells};
ghost use Rattle.ir_core_records.specs.DialectAnswers.{behaviour_of};

use crate::block_faults::name_of;
use crate::error::{BasicBlockVerifyErr, VerifyErr};
use ir_base_dialects::interfaces::TERMINATOR;
use ir_base_dialects::{Dialects, Ptr};
use ir_view_parts::{Context, Operation, OperationPlace, OperationPtr};

// The faults of a live operation itself.
pub(crate) fn verify_place<D: Dialects>(
    op: Ptr<Operation<D>>,
    ctx: &Context<D>,
) -> Result<(), VerifyErr>
    requires { IsLive (forest_of ctx.now) (an_op op.index) }
    ensures { Tells (FaultAtOp (behaviour_of D.Dialects D.TypeKey.eq) (forest_of ctx.now) (types_of ctx.now) op.index) result }
{
    ctx.recall_well_formed();
    let Some(block) = op.get_parent_block(ctx) else {
        return Ok(());
    };
    match op.get_next(ctx) {
        Some(_) => {
            if !D::op_impls(op.deref(ctx).kind(), TERMINATOR) {
                return Ok(());
            }
            let name = name_of(block, ctx)?;
            Err(VerifyErr::BasicBlockVerifyErr(BasicBlockVerifyErr::TerminatorNotLast(name)))
        }
        None => Ok(()),
    }
}
