//! What is still to be read: items, the next of them last.
ghost use Rattle.std.specs.Prelude.{◌≡◌, ◌++◌, map, reverse, OnOk};
ghost use Rattle.ir_model.specs.Forest.{a_block, a_region, an_op};
ghost use Rattle.ir_model.specs.Nesting.{IsLive, blocks_of, ops_of, regions_of};
ghost use Rattle.ir_core_queries.specs.State.{forest_of};

use generic_dialect::Generic;
use ir_base_dialects::Ptr;
use ir_core_queries::{
    BasicBlock, BlockPlace, Context, Operation, OperationPtr, Region, RegionPlace,
};
use ir_text_described::Item;
use std::alloc::AllocError;

/// The regions of a live operation are read next.
pub(crate) fn push_regions(
    ctx: &Context<Generic>,
    items: &mut Vec<Item>,
    op: Ptr<Operation<Generic>>,
) -> Result<(), AllocError>
    requires { IsLive (forest_of ctx.now) (an_op op.index) }
    ensures { OnOk result (reverse items.new.items ≡ map Item.Region (regions_of (forest_of ctx.now) op.index) ++ reverse items.old.items) }
{
    let record = op.deref(ctx);
    for index in (0..record.num_regions()).rev() {
        items.push(Item::Region(record.get_region(index).index()))?;
    }
    Ok(())
}

/// The blocks of a live region are read next.
pub(crate) fn push_blocks(
    ctx: &Context<Generic>,
    items: &mut Vec<Item>,
    region: Ptr<Region>,
) -> Result<(), AllocError>
    requires { IsLive (forest_of ctx.now) (a_region region.index) }
    ensures { OnOk result (reverse items.new.items ≡ map Item.Block (blocks_of (forest_of ctx.now) region.index) ++ reverse items.old.items) }
{
    for block in region.iter(ctx).rev() {
        items.push(Item::Block(block.index()))?;
    }
    Ok(())
}

/// The operations of a live block are read next.
pub(crate) fn push_ops(
    ctx: &Context<Generic>,
    items: &mut Vec<Item>,
    block: Ptr<BasicBlock<Generic>>,
) -> Result<(), AllocError>
    requires { IsLive (forest_of ctx.now) (a_block block.index) }
    ensures { OnOk result (reverse items.new.items ≡ map Item.Op (ops_of (forest_of ctx.now) block.index) ++ reverse items.old.items) }
{
    for op in block.iter(ctx).rev() {
        items.push(Item::Op(op.index()))?;
    }
    Ok(())
}

/// Operations are read next.
pub(crate) fn push_all(
    items: &mut Vec<Item>,
    operations: &[Ptr<Operation<Generic>>],
) -> Result<(), AllocError>
    ensures { OnOk result (reverse items.new.items ≡ map (λ p. Item.Op p.index) operations.now ++ reverse items.old.items) }
{
    for index in (0..operations.len()).rev() {
        items.push(Item::Op(operations[index].index()))?;
    }
    Ok(())
}
