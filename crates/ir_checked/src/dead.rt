//! Dead code elimination in a block.

ghost use Rattle.std.specs.Prelude.{IfOk, OnErr, OnOk, ◌≡◌};
ghost use Rattle.ir_checked_core.specs.Answers.{Answers, own_value, unless};
ghost use Rattle.ir_core_context.specs.Calls.{SameButForest};
ghost use Rattle.ir_core_context.specs.State.{bare, forest_of};
ghost use Rattle.ir_core_records.specs.DialectAnswers.{behaviour_of};
ghost use Rattle.ir_model.specs.Dead.{Sweeps};
ghost use Rattle.ir_model.specs.Forest.{a_block};
ghost use Rattle.ir_model.specs.Nesting.{IsLive};
ghost use Rattle.ir_model.specs.SweepLaws.{NoneIsClosed};

use ir_base_dialects::{Dialects, Ptr};
use ir_checked_core::{Call, CheckedErr, Condition, fault};
use ir_core_queries::{BasicBlock, BlockPtr, Context};

/// Removes the dead operations of a live block with all that stands inside them, and answers how many of the block's list these were.
///
/// # Errors
/// `Unmet` where the block isn't live.
pub fn sweep<D: Dialects>(
    block: Ptr<BasicBlock<D>>,
    ctx: &mut Context<D>,
) -> Result<usize, CheckedErr>
    ensures conditions { Answers Call.DeadSweep result (unless (IsLive (forest_of ctx.old) (a_block block.index)) Condition.DeadBlock own_value) }
    ensures dead_are_gone { IfOk result (λ swept. Sweeps (behaviour_of D.Dialects D.TypeKey.eq) (forest_of ctx.old) block.index (forest_of ctx.new) swept) }
    ensures none_can_go { OnOk result (NoneIsClosed (behaviour_of D.Dialects D.TypeKey.eq) (forest_of ctx.new) block.index) }
    ensures rest { OnOk result (SameButForest (bare ctx.old) (bare ctx.new)) }
    ensures live { OnOk result (IsLive (forest_of ctx.new) (a_block block.index)) }
    ensures err { OnErr result (ctx.new ≡ ctx.old) }
{
    if !block.is_live(ctx) {
        return Err(fault!(DeadSweep, DeadBlock));
    }
    Ok(ir_run_passes::sweep(block, ctx))
}
