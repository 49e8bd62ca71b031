//! Blocks whose uses are dropped, and blocks that are erased with all that stands inside them.

ghost use Rattle.std.specs.Prelude.{OnErr, OnOk, ◌≡◌};
ghost use Rattle.ir_checked_core.specs.Answers.{Answers, own_value, unless};
ghost use Rattle.ir_core_context.specs.Calls.{KeepsAll, SameButForest};
ghost use Rattle.ir_core_context.specs.Removals.{RemovesEachOnce};
ghost use Rattle.ir_core_context.specs.State.{bare, forest_of};
ghost use Rattle.ir_model.specs.Changes.{DropsUses, Removes};
ghost use Rattle.ir_model.specs.Forest.{a_block};
ghost use Rattle.ir_model.specs.Nesting.{IsClosed, IsLive};

use crate::error::{Call, CheckedErr, Condition, fault};
use ir_base_dialects::{Dialects, Ptr};
use ir_core_queries::{BasicBlock, BlockPtr, Context, DropUses, Entity, Erase, can_erase};

/// Takes the operands and successors of all operations inside the block out.
///
/// # Errors
/// `Unmet` where the block isn't live.
pub fn drop_all_uses<D: Dialects>(
    block: Ptr<BasicBlock<D>>,
    ctx: &mut Context<D>,
) -> Result<(), CheckedErr>
    ensures conditions { Answers Call.BlockDropAllUses result (unless (IsLive (forest_of ctx.old) (a_block block.index)) Condition.DeadBlock own_value) }
    ensures forest { OnOk result (DropsUses (forest_of ctx.old) (a_block block.index) (forest_of ctx.new)) }
    ensures rest { OnOk result (SameButForest (bare ctx.old) (bare ctx.new)) }
    ensures keeps { OnOk result (KeepsAll ctx.old ctx.new) }
    ensures err { OnErr result (ctx.new ≡ ctx.old) }
{
    if !block.is_live(ctx) {
        return Err(fault!(BlockDropAllUses, DeadBlock));
    }
    block.drop_all_uses(ctx);
    Ok(())
}

/// Erases the block with all that stands inside it, each entity once.
///
/// # Errors
/// `Unmet` where the block isn't live, or something outside names what is defined inside.
pub fn erase<D: Dialects>(block: Ptr<BasicBlock<D>>, ctx: &mut Context<D>) -> Result<(), CheckedErr>
    ensures conditions { Answers Call.BlockErase result (unless (IsLive (forest_of ctx.old) (a_block block.index)) Condition.DeadBlock (unless (IsClosed (forest_of ctx.old) (a_block block.index)) Condition.NotClosed own_value)) }
    ensures forest { OnOk result (Removes (forest_of ctx.old) (a_block block.index) (forest_of ctx.new)) }
    ensures once { OnOk result (RemovesEachOnce ctx.old ctx.new (a_block block.index)) }
    ensures rest { OnOk result (SameButForest (bare ctx.old) (bare ctx.new)) }
    ensures err { OnErr result (ctx.new ≡ ctx.old) }
{
    if !block.is_live(ctx) {
        return Err(fault!(BlockErase, DeadBlock));
    }
    if !can_erase(ctx, Entity::Block(block)) {
        return Err(fault!(BlockErase, NotClosed));
    }
    block.erase(ctx);
    Ok(())
}
