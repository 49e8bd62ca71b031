//! The walk from block to block, that stops where something can go.
//!
//! It goes by links from the last of what stands inside an operation to the first, and comes to an entity after all that stands inside it. It takes no memory and doesn't recurse.

ghost use Rattle.std.specs.Prelude.{◌≡◌, ◌↔◌, ◌++◌, List, Some, IfSome, IsNone, IsTrue};
ghost use Rattle.std.specs.Option.{option_map};
ghost use Rattle.ir_model.specs.declared.ids.ArenaIndex.{ArenaIndex};
ghost use Rattle.ir_model.specs.ContextIds.{context_ids};
ghost use Rattle.ir_model.specs.Forest.{a_block, an_op, Entity as PlainEntity};
ghost use Rattle.ir_model.specs.Nesting.{Inside, IsLive};
ghost use Rattle.ir_model.specs.Parent.{first_of};
ghost use Rattle.ir_model.specs.Subtree.{ListsSubtree};
ghost use Rattle.ir_model.specs.SweepLaws.{NoneIsClosed};
ghost use Rattle.ir_model_passes.specs.SweepInside.{NoneIsClosedInside};
ghost use Rattle.ir_core_erasing.specs.Walks.{subtree};
ghost use Rattle.ir_core_queries.specs.State.{forest_of};
ghost use Rattle.ir_core_records.specs.DialectAnswers.{behaviour_of};
ghost use Rattle.ir_core_records.specs.Meaning.{entity_of};
ghost use Rattle.ir_run_passes.specs.Walks.{CanBeSwept, ComesNext, NoneCanBeSwept};
ghost use Rattle.ir_run_passes.specs.Going.{CanGo};

use crate::dead::can_go;
use ir_base_dialects::{Dialects, Ptr};
use ir_core_erasing::{deepest, next_inside, recall_subtrees_listed};
use ir_core_queries::{BasicBlock, BlockPlace, Context, Operation};
use ir_core_records::EntityIndex;

// What holds of the walk over all inside an operation: it comes to exactly what is inside, to each once.
fn recall_walk_lists<D: Dialects>(ctx: &Context<D>, root: Ptr<Operation<D>>)
    ensures { ListsSubtree (forest_of ctx.now) (an_op root.index) (subtree ctx.now.records (an_op root.index)) }
{
    recall_subtrees_listed::<D>();
    ctx.recall_well_formed();
    ctx.recall_holds_together();
}

// With which entity the walk begins.
fn walk_start<D: Dialects>(ctx: &Context<D>, root: Ptr<Operation<D>>) -> EntityIndex
    ensures { first_of (subtree ctx.now.records (an_op root.index)) ≡ Some (entity_of result) }
{
    ctx.recall_well_formed();
    ctx.recall_holds_together();
    deepest(ctx.records(), EntityIndex::Op(root.index))
}

// To which entity the walk comes after another one.
fn walk_next<D: Dialects>(
    ctx: &Context<D>,
    root: Ptr<Operation<D>>,
    here: EntityIndex,
) -> Option<EntityIndex>
    ensures { ComesNext (subtree ctx.now.records (an_op root.index)) (entity_of here) (option_map entity_of result) }
{
    ctx.recall_well_formed();
    ctx.recall_holds_together();
    next_inside(ctx.records(), EntityIndex::Op(root.index), here)
}

// Whether some operation of a live block can go.
fn can_be_swept<D: Dialects>(ctx: &Context<D>, block: Ptr<BasicBlock<D>>) -> bool
    requires { IsLive (forest_of ctx.now) (a_block block.index) }
    ensures { IsTrue result ↔ CanBeSwept (behaviour_of D.Dialects D.TypeKey.eq) (forest_of ctx.now) block.index }
{
    ctx.recall_well_formed();
    for op in block.iter(ctx).rev() {
        if can_go(ctx, op) {
            return true;
        }
    }
    false
}

// The block that a live entity is, if it is one and something of it can go.
fn block_to_sweep<D: Dialects>(ctx: &Context<D>, here: EntityIndex) -> Option<Ptr<BasicBlock<D>>>
    requires { IsLive (forest_of ctx.now) (entity_of here) }
    ensures block { IfSome result (λ b. entity_of here ≡ a_block b.index) }
    ensures swept { IfSome result (λ b. CanBeSwept (behaviour_of D.Dialects D.TypeKey.eq) (forest_of ctx.now) b.index) }
    ensures none { IsNone result → (b : ArenaIndex) → entity_of here ≡ a_block b → NoneIsClosed (behaviour_of D.Dialects D.TypeKey.eq) (forest_of ctx.now) b }
{
    let EntityIndex::Block(index) = here else {
        return None;
    };
    let block = Ptr::from_index(index);
    if can_be_swept(ctx, block) {
        Some(block)
    } else {
        None
    }
}

// The first block of which something can go, from a place of the walk on.
fn to_sweep_from<D: Dialects>(
    ctx: &Context<D>,
    root: Ptr<Operation<D>>,
    start: Option<EntityIndex>,
) -> Option<Ptr<BasicBlock<D>>>
    requires live { IsLive (forest_of ctx.now) (an_op root.index) }
    requires inside { IfSome start (λ e. Inside (forest_of ctx.now) (an_op root.index) (entity_of e)) }
    ensures inside { IfSome result (λ b. Inside (forest_of ctx.now) (an_op root.index) (a_block b.index)) }
    ensures swept { IfSome result (λ b. CanBeSwept (behaviour_of D.Dialects D.TypeKey.eq) (forest_of ctx.now) b.index) }
    ensures none { IsNone result → (before behind : List (PlainEntity context_ids)) → subtree ctx.now.records (an_op root.index) ≡ before ++ behind
        → option_map entity_of start ≡ first_of behind → NoneCanBeSwept (behaviour_of D.Dialects D.TypeKey.eq) (forest_of ctx.now) behind }
{
    ctx.recall_well_formed();
    recall_walk_lists(ctx, root);
    let mut place = start;
    while let Some(here) = place {
        let found = block_to_sweep(ctx, here);
        if found.is_some() {
            return found;
        }
        place = walk_next(ctx, root, here);
    }
    None
}

/// The first block inside a live operation of which something can go, on the whole walk.
pub(crate) fn to_sweep<D: Dialects>(
    ctx: &Context<D>,
    root: Ptr<Operation<D>>,
) -> Option<Ptr<BasicBlock<D>>>
    requires { IsLive (forest_of ctx.now) (an_op root.index) }
    ensures inside { IfSome result (λ b. Inside (forest_of ctx.now) (an_op root.index) (a_block b.index)) }
    ensures swept { IfSome result (λ b. CanBeSwept (behaviour_of D.Dialects D.TypeKey.eq) (forest_of ctx.now) b.index) }
    ensures none { IsNone result → NoneIsClosedInside (behaviour_of D.Dialects D.TypeKey.eq) (an_op root.index) (forest_of ctx.now) }
{
    recall_walk_lists(ctx, root);
    let start = walk_start(ctx, root);
    to_sweep_from(ctx, root, Some(start))
}

/// The first block inside a live operation of which something can go, behind a block of the walk, and else on the whole walk.
pub(crate) fn to_sweep_after<D: Dialects>(
    ctx: &Context<D>,
    root: Ptr<Operation<D>>,
    block: Ptr<BasicBlock<D>>,
) -> Option<Ptr<BasicBlock<D>>>
    requires live { IsLive (forest_of ctx.now) (an_op root.index) }
    requires inside { Inside (forest_of ctx.now) (an_op root.index) (a_block block.index) }
    ensures inside { IfSome result (λ b. Inside (forest_of ctx.now) (an_op root.index) (a_block b.index)) }
    ensures swept { IfSome result (λ b. CanBeSwept (behaviour_of D.Dialects D.TypeKey.eq) (forest_of ctx.now) b.index) }
    ensures none { IsNone result → NoneIsClosedInside (behaviour_of D.Dialects D.TypeKey.eq) (an_op root.index) (forest_of ctx.now) }
{
    recall_walk_lists(ctx, root);
    let start = walk_next(ctx, root, EntityIndex::Block(block.index));
    let found = to_sweep_from(ctx, root, start);
    if found.is_some() {
        return found;
    }
    to_sweep(ctx, root)
}
