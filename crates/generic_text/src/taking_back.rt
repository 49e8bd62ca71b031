//! What was made, taken out again.

ghost use Rattle.std.specs.Prelude.{◌≡◌, ◌↔◌, IsTrue};
ghost use Rattle.ir_model.specs.Forest.{a_block, an_op};
ghost use Rattle.ir_core_queries.specs.State.{forest_of};
ghost use Rattle.generic_text.specs.Left.{AreWithin, BuildsOn, GenericForest, StandsApart, StaysApart, live_count};

use crate::made::{Block, Made, Op};
use generic_dialect::Generic;
use ir_checked_core::{basic_block, operation};
use ir_core_queries::{BlockPlace, BlockPtr, Context, OperationPlace, OperationPtr};

/// How many operations, blocks and regions are live.
#[derive(Clone, Copy, Drop)]
pub(crate) struct LiveCount {
    ops: usize,
    blocks: usize,
    regions: usize,
}

impl LiveCount {
    /// So many as a context has.
    pub(crate) fn of(ctx: &Context<Generic>) -> LiveCount
        ensures { result ≡ live_count ctx.now }
    {
        let records = ctx.records();
        LiveCount {
            ops: records.ops.len(),
            blocks: records.blocks.len(),
            regions: records.regions.len(),
        }
    }

    /// Whether there are no more of each than before.
    pub(crate) fn is_within(self, before: LiveCount) -> bool
        ensures { IsTrue result ↔ AreWithin self before }
    {
        self.ops <= before.ops && self.blocks <= before.blocks && self.regions <= before.regions
    }
}

// Whether an operation is live, and stands in no block.
fn is_loose(ctx: &Context<Generic>, op: Op) -> bool {
    op.is_live(ctx) && op.get_parent_block(ctx).is_none()
}

// Whether a block is live, and stands in no region.
fn is_loose_block(ctx: &Context<Generic>, block: Block) -> bool {
    block.is_live(ctx) && block.get_parent_region(ctx).is_none()
}

// Takes the uses of an operation out, and of all inside it, if it stands in no block.
fn drop_uses(ctx: &mut Context<Generic>, op: Op)
    ensures { StaysApart (an_op op.index) (forest_of ctx.old) (forest_of ctx.new) }
{
    if is_loose(ctx, op) {
        let _ = operation::drop_all_uses(op, ctx);
    }
}

// Takes the uses of all inside a block out, if it stands in no region.
fn drop_block_uses(ctx: &mut Context<Generic>, block: Block)
    ensures { StaysApart (a_block block.index) (forest_of ctx.old) (forest_of ctx.new) }
{
    if is_loose_block(ctx, block) {
        let _ = basic_block::drop_all_uses(block, ctx);
    }
}

/// Erases an operation, if it stands in no block.
pub(crate) fn erase(ctx: &mut Context<Generic>, op: Op)
    ensures { StaysApart (an_op op.index) (forest_of ctx.old) (forest_of ctx.new) }
{
    if is_loose(ctx, op) {
        let _ = operation::erase(op, ctx);
    }
}

// Erases a block, if it stands in no region.
fn erase_block(ctx: &mut Context<Generic>, block: Block)
    ensures { StaysApart (a_block block.index) (forest_of ctx.old) (forest_of ctx.new) }
{
    if is_loose_block(ctx, block) {
        let _ = basic_block::erase(block, ctx);
    }
}

/// Takes all out again that was made.
pub(crate) fn take_back(ctx: &mut Context<Generic>, made: &Made)
    ensures { (first : GenericForest) → BuildsOn first (forest_of ctx.old) made.now → StandsApart first (forest_of ctx.new) }
{
    'uses: for (op, _) in made.ops.iter() {
        drop_uses(ctx, *op);
    }
    'block_uses: for block in made.blocks.iter() {
        drop_block_uses(ctx, *block);
    }
    'ops: for (op, _) in made.ops.iter() {
        erase(ctx, *op);
    }
    'loose_blocks: for block in made.blocks.iter() {
        erase_block(ctx, *block);
    }
}
