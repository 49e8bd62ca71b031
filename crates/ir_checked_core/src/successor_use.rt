//! The calls of a successor as a use.

ghost use Rattle.std.specs.Prelude.{IfOk};
ghost use Rattle.ir_checked_core.specs.Answers.{Answers, own_value, unless};
ghost use Rattle.ir_core_context.specs.State.{forest_of};
ghost use Rattle.ir_core_records.specs.Meaning.{use_of};
ghost use Rattle.ir_core_records.specs.Values.{IsLiveBlockUse};
ghost use Rattle.ir_model.specs.Forest.{the_block};
ghost use Rattle.ir_model.specs.Nesting.{IsLiveNamed};
ghost use Rattle.ir_model.specs.Uses.{IsSuccessorAt, IsUse};

use crate::error::{Call, CheckedErr, Condition, fault};
use ir_base_dialects::{Dialects, Ptr};
use ir_core_queries::{BasicBlock, BlockUseQueries, Context, Use};

/// Where a live use stands among the successors of its user.
///
/// # Errors
/// `Unmet` where the use isn't live.
pub fn find_index<D: Dialects>(
    used: Use<Ptr<BasicBlock<D>>>,
    ctx: &Context<D>,
) -> Result<usize, CheckedErr>
    ensures conditions { Answers Call.SuccessorUseFindIndex result (unless (IsLiveBlockUse (forest_of ctx.now) (use_of used.index)) Condition.DeadUse own_value) }
    ensures found { IfOk result (λ answer. IsSuccessorAt (forest_of ctx.now) (use_of used.index) answer) }
{
    if used.try_find_index(ctx).is_err() {
        return Err(fault!(SuccessorUseFindIndex, DeadUse));
    }
    Ok(used.find_index(ctx))
}

/// The block that a live use names.
///
/// # Errors
/// `Unmet` where the use isn't live.
pub fn get_def<D: Dialects>(
    used: Use<Ptr<BasicBlock<D>>>,
    ctx: &Context<D>,
) -> Result<Ptr<BasicBlock<D>>, CheckedErr>
    ensures conditions { Answers Call.SuccessorUseGetDef result (unless (IsLiveBlockUse (forest_of ctx.now) (use_of used.index)) Condition.DeadUse own_value) }
    ensures found { IfOk result (λ answer. IsUse (forest_of ctx.now) (the_block answer.index) (use_of used.index)) }
    ensures live { IfOk result (λ answer. IsLiveNamed (forest_of ctx.now) (the_block answer.index)) }
{
    if used.try_find_index(ctx).is_err() {
        return Err(fault!(SuccessorUseGetDef, DeadUse));
    }
    Ok(used.get_def(ctx))
}
