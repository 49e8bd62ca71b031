//! Which blocks of a region are reached from its first block, and which are not.
//!
//! Reached blocks are marked in the order in which they are found, and the list of marks is what is still to be looked at: each block is looked at once, and so is each operation in it. The marks are found by hash.

ghost use Rattle.std.specs.Prelude.{◌≡◌, ◌+◌, ◌<◌, ◌^◌, ◌↔◌, IfErr, IfOk, IfSome, IsTrue, OnOk, Some, map, slice_get};
ghost use Rattle.std.specs.Option.{option_map};
ghost use Rattle.ir_model.specs.declared.error.CoreError.TheVariants.{OutOfMemory};
ghost use Rattle.ir_model.specs.declared.ids.ArenaIndex.{ArenaIndex};
ghost use Rattle.ir_model.specs.BlockGraph.{targets_of};
ghost use Rattle.ir_model.specs.Forest.{a_block, a_region, an_op};
ghost use Rattle.ir_model.specs.Ids.{Distinct};
ghost use Rattle.ir_model.specs.Nesting.{In, IsLive, blocks_of, ops_of};
ghost use Rattle.ir_model.specs.Parent.{first_of};
ghost use Rattle.ir_model_passes.specs.Unreached.{Reached};
ghost use Rattle.ir_core_queries.specs.State.{forest_of};
ghost use Rattle.ir_run_unreached.specs.Marks.{Adds, IsNamedIn, KeepsUnmarked, LeavesUnmarked, ListsUnreached};

use ir_base_dialects::{ArenaIndex, CoreError, Dialects, Ptr, UniqueStore};
use ir_core_queries::{
    BasicBlock, BlockPlace, Context, Operation, OperationPtr, Region, RegionPlace,
};

// Whether a live block stands in the region.
fn stands_in<D: Dialects>(ctx: &Context<D>, region: Ptr<Region>, block: Ptr<BasicBlock<D>>) -> bool
    requires { IsLive (forest_of ctx.now) (a_block block.index) }
    ensures { IsTrue result ↔ In block.index (blocks_of (forest_of ctx.now) region.index) }
{
    ctx.recall_well_formed();
    match block.get_parent_region(ctx) {
        Some(parent) => parent.index == region.index,
        None => false,
    }
}

// Marks a live block, where it stands in the region.
fn mark_in_region<D: Dialects>(
    ctx: &Context<D>,
    region: Ptr<Region>,
    block: Ptr<BasicBlock<D>>,
    marked: &mut UniqueStore<ArenaIndex>,
) -> Result<(), CoreError>
    requires { IsLive (forest_of ctx.now) (a_block block.index) }
    ensures marks { OnOk result (Adds (λ b. (b ≡ block.index) × In b (blocks_of (forest_of ctx.now) region.index)) marked.old marked.new) }
    ensures memory { IfErr result (λ e. e ≡ OutOfMemory) }
{
    if !stands_in(ctx, region, block) {
        return Ok(());
    }
    marked.get_or_create_unique(block.index)?;
    Ok(())
}

// Marks the blocks of the region that a live operation names as successors.
fn mark_targets<D: Dialects>(
    ctx: &Context<D>,
    region: Ptr<Region>,
    op: Ptr<Operation<D>>,
    marked: &mut UniqueStore<ArenaIndex>,
) -> Result<(), CoreError>
    requires { IsLive (forest_of ctx.now) (an_op op.index) }
    ensures marks { OnOk result (Adds (λ b. In b (targets_of (forest_of ctx.now) op.index) × In b (blocks_of (forest_of ctx.now) region.index)) marked.old marked.new) }
    ensures memory { IfErr result (λ e. e ≡ OutOfMemory) }
{
    let operation = op.deref(ctx);
    for place in 0..operation.get_num_successors() {
        mark_in_region(ctx, region, operation.get_successor(place), marked)?;
    }
    Ok(())
}

// Marks the blocks of the region that the operations of a live block name as successors.
fn mark_successors<D: Dialects>(
    ctx: &Context<D>,
    region: Ptr<Region>,
    block: Ptr<BasicBlock<D>>,
    marked: &mut UniqueStore<ArenaIndex>,
) -> Result<(), CoreError>
    requires { IsLive (forest_of ctx.now) (a_block block.index) }
    ensures marks { OnOk result (Adds (λ b. IsNamedIn (forest_of ctx.now) (ops_of (forest_of ctx.now) block.index) b × In b (blocks_of (forest_of ctx.now) region.index)) marked.old marked.new) }
    ensures memory { IfErr result (λ e. e ≡ OutOfMemory) }
{
    for op in block.iter(ctx) {
        mark_targets(ctx, region, op, marked)?;
    }
    Ok(())
}

// The marked block at a place.
fn block_at<D: Dialects>(
    marked: &UniqueStore<ArenaIndex>,
    place: usize,
) -> Option<Ptr<BasicBlock<D>>>
    ensures found { option_map (λ p. p.index) result ≡ slice_get marked.now place }
    ensures fits { IfSome result (λ _. place + 1 < 2 ^ 64) }
{
    if place < marked.len() {
        match marked.get_index(place) {
            Some(index) => Some(Ptr::from_index(*index)),
            None => None,
        }
    } else {
        None
    }
}

// What holds of marks: each is there once.
fn recall_marked_once(marked: &UniqueStore<ArenaIndex>)
    ensures { Distinct marked.now }
{
    marked.len();
}

// The first block of a live region, marked, where it has one.
fn mark_first<D: Dialects>(
    ctx: &Context<D>,
    region: Ptr<Region>,
) -> Result<UniqueStore<ArenaIndex>, CoreError>
    requires { IsLive (forest_of ctx.now) (a_region region.index) }
    ensures marks { IfOk result (λ marked. (b : ArenaIndex) → In b marked ↔ (first_of (blocks_of (forest_of ctx.now) region.index) ≡ Some b)) }
    ensures memory { IfErr result (λ e. e ≡ OutOfMemory) }
{
    let mut marked = UniqueStore::new(ctx.alloc());
    if let Some(first) = region.get_head(ctx) {
        marked.get_or_create_unique(first.index)?;
    }
    Ok(marked)
}

// The blocks of a live region that are reached, each once.
fn reached_blocks<D: Dialects>(
    ctx: &Context<D>,
    region: Ptr<Region>,
) -> Result<UniqueStore<ArenaIndex>, CoreError>
    requires { IsLive (forest_of ctx.now) (a_region region.index) }
    ensures reached { IfOk result (λ marked. (b : ArenaIndex) → In b marked ↔ Reached (forest_of ctx.now) region.index b) }
    ensures memory { IfErr result (λ e. e ≡ OutOfMemory) }
{
    ctx.recall_well_formed();
    let mut marked = mark_first(ctx, region)?;
    let mut place = 0;
    while let Some(block) = block_at(&marked, place) {
        recall_marked_once(&marked);
        mark_successors(ctx, region, block, &mut marked)?;
        place += 1;
    }
    Ok(marked)
}

// Puts a block at the end of the list, where it isn't marked.
fn push_unmarked<D: Dialects>(
    marked: &UniqueStore<ArenaIndex>,
    block: Ptr<BasicBlock<D>>,
    blocks: &mut Vec<Ptr<BasicBlock<D>>>,
) -> Result<(), CoreError>
    ensures pushed { OnOk result (KeepsUnmarked marked.now block.index (map (λ p. p.index) blocks.old.items) (map (λ p. p.index) blocks.new.items)) }
    ensures memory { IfErr result (λ e. e ≡ OutOfMemory) }
{
    if marked.get(&block.index).is_some() {
        return Ok(());
    }
    blocks.push(block)?;
    Ok(())
}

// The blocks of a live region that are not marked, in order.
fn unmarked_blocks<D: Dialects>(
    ctx: &Context<D>,
    region: Ptr<Region>,
    marked: &UniqueStore<ArenaIndex>,
) -> Result<Vec<Ptr<BasicBlock<D>>>, CoreError>
    requires { IsLive (forest_of ctx.now) (a_region region.index) }
    ensures left { IfOk result (λ blocks. LeavesUnmarked marked.now (blocks_of (forest_of ctx.now) region.index) (map (λ p. p.index) blocks.items)) }
    ensures memory { IfErr result (λ e. e ≡ OutOfMemory) }
{
    ctx.recall_well_formed();
    let mut blocks = Vec::new(ctx.alloc());
    for block in region.iter(ctx) {
        push_unmarked(marked, block, &mut blocks)?;
    }
    Ok(blocks)
}

/// The blocks of a live region that are not reached, in order.
pub(crate) fn unreached_blocks<D: Dialects>(
    ctx: &Context<D>,
    region: Ptr<Region>,
) -> Result<Vec<Ptr<BasicBlock<D>>>, CoreError>
    requires { IsLive (forest_of ctx.now) (a_region region.index) }
    ensures listed { IfOk result (λ blocks. ListsUnreached (forest_of ctx.now) region.index (map (λ p. p.index) blocks.items)) }
    ensures memory { IfErr result (λ e. e ≡ OutOfMemory) }
{
    let reached = reached_blocks(ctx, region)?;
    let blocks = unmarked_blocks(ctx, region, &reached)?;
    Ok(blocks)
}
