//! The removal of unreached blocks: the uses of all of them are dropped, and then each is erased.
//!
//! Which blocks go is listed before anything changes, so that want of memory changes nothing. Dropping and erasing take none.

ghost use Rattle.std.specs.Prelude.{◌≡◌, All, IfErr, OnErr, OnOk, IfOk, map};
ghost use Rattle.ir_model.specs.declared.error.CoreError.TheVariants.{OutOfMemory};
ghost use Rattle.ir_model.specs.declared.ids.ArenaIndex.{ArenaIndex};
ghost use Rattle.ir_model.specs.Forest.{a_block, a_region};
ghost use Rattle.ir_model.specs.Nesting.{IsLive, Nested};
ghost use Rattle.ir_model_passes.specs.Unreached.{IsUnreached, NamesStayInside, RemovesUnreached};
ghost use Rattle.ir_core_queries.specs.State.{bare, forest_of};
ghost use Rattle.ir_core_queries.specs.Calls.{SameButForest};
ghost use Rattle.ir_run_unreached.specs.Removals.{CanEraseEach, DropsEach, ErasesEach};

use crate::reached::unreached_blocks;
use ir_base_dialects::{CoreError, Dialects, Ptr};
use ir_core_queries::{BasicBlock, Context, DropUses, Erase, Region};
use ir_model_passes::{steps_remove_unreached, unreached_removal_is_one};

// What holds of every context: what stands in what is a forest.
pub(crate) fn recall_nested<D: Dialects>(ctx: &Context<D>)
    ensures { Nested (forest_of ctx.now) }
{
    ctx.recall_well_formed();
}

// Takes the operands and successors of all operations inside these live blocks out.
fn drop_each<D: Dialects>(ctx: &mut Context<D>, blocks: &[Ptr<BasicBlock<D>>])
    requires { All (λ p. IsLive (forest_of ctx.old) (a_block p.index)) blocks.now }
    ensures dropped { DropsEach (forest_of ctx.old) (map (λ p. p.index) blocks.now) (forest_of ctx.new) }
    ensures rest { SameButForest (bare ctx.old) (bare ctx.new) }
{
    for block in blocks {
        block.drop_all_uses(ctx);
    }
}

// Erases these blocks, nothing inside which is named, with all that stands inside them.
fn erase_each<D: Dialects>(ctx: &mut Context<D>, blocks: &[Ptr<BasicBlock<D>>])
    requires { CanEraseEach (forest_of ctx.old) (map (λ p. p.index) blocks.now) }
    ensures erased { ErasesEach (forest_of ctx.old) (map (λ p. p.index) blocks.now) (forest_of ctx.new) }
    ensures rest { SameButForest (bare ctx.old) (bare ctx.new) }
{
    for block in blocks {
        block.erase(ctx);
    }
}

/// Removes the blocks of a live region that are not reached, with all that stands inside them, and answers how many blocks of the region went.
///
/// The first block of the region is reached, and so is each block of it that an operation in a reached one names as a successor, whether the operation ends its block or not. All else is as it was. What is inside an unreached block goes whatever it does: effects go too. Whatever names a definition inside an unreached block is inside one, which `can_remove_unreached` tests. pliron has no such call.
///
/// It looks at each block, operation and successor of the region once, and at each use inside what goes.
///
/// # Errors
/// `OutOfMemory`, and nothing has changed. It takes memory for a mark of each block, all of it before anything changes.
pub fn remove_unreached<D: Dialects>(
    region: Ptr<Region>,
    ctx: &mut Context<D>,
) -> Result<usize, CoreError>
    requires live { IsLive (forest_of ctx.old) (a_region region.index) }
    requires names { NamesStayInside (forest_of ctx.old) region.index }
    ensures removed { IfOk result (λ count. RemovesUnreached (forest_of ctx.old) region.index (forest_of ctx.new) count) }
    ensures none_left { OnOk result ((b : ArenaIndex) → IsUnreached (forest_of ctx.new) region.index b → ⊥) }
    ensures unchanged { OnErr result (ctx.new ≡ ctx.old) }
    ensures memory { IfErr result (λ e. e ≡ OutOfMemory) }
    ensures rest { SameButForest (bare ctx.old) (bare ctx.new) }
{
    steps_remove_unreached::<D::TypeKey, D::TypeBody, D::Attr, D::Saved, D::Aux, D::Loc>();
    unreached_removal_is_one::<D::TypeKey, D::TypeBody, D::Attr, D::Saved, D::Aux, D::Loc, ()>();
    let _room = ctx.room();
    ctx.recall_well_formed();
    let blocks = unreached_blocks(ctx, region)?;
    let listed = blocks.as_slice();
    drop_each(ctx, listed);
    erase_each(ctx, listed);
    recall_nested(ctx);
    Ok(blocks.len())
}
