//! Where something stands, and the lists of what stands in it, by numbers.

use crate::tables::Tables;
use ir_base_dialects::Ptr;
use ir_core_queries::{
    BasicBlock, BlockPlace, BlockPtr, Context, Operation, OperationPlace, OperationPtr, Region,
    RegionPlace, RegionPtr,
};
use std::alloc::AllocError;
use toy_dialect::Toy;

/// What an operation or a block stands in, and its neighbours there, by their numbers.
#[derive(Clone, Copy, Debug, Drop, PartialEq, Eq)]
pub struct Place {
    /// What it stands in.
    pub parent: Option<usize>,
    /// What stands right before it.
    pub previous: Option<usize>,
    /// What stands right after it.
    pub next: Option<usize>,
}

impl Place {
    /// The place of what stands in nothing.
    pub const UNLINKED: Place = Place {
        parent: None,
        previous: None,
        next: None,
    };
}

// The block that an operation stands in.
fn parent_of_op(ctx: &Context<Toy>, tables: &Tables, op: Ptr<Operation<Toy>>) -> Option<usize> {
    if !op.is_live(ctx) {
        return None;
    }
    let block = op.get_parent_block(ctx)?;
    Some(tables.block_number(block))
}

// The operation right before this one.
fn previous_op(ctx: &Context<Toy>, tables: &Tables, op: Ptr<Operation<Toy>>) -> Option<usize> {
    if !op.is_live(ctx) {
        return None;
    }
    let previous = op.get_prev(ctx)?;
    Some(tables.op_number(previous))
}

// The operation right after this one.
fn next_op(ctx: &Context<Toy>, tables: &Tables, op: Ptr<Operation<Toy>>) -> Option<usize> {
    if !op.is_live(ctx) {
        return None;
    }
    let next = op.get_next(ctx)?;
    Some(tables.op_number(next))
}

/// The place of an operation.
pub fn op_place(ctx: &Context<Toy>, tables: &Tables, op: Ptr<Operation<Toy>>) -> Place {
    Place {
        parent: parent_of_op(ctx, tables, op),
        previous: previous_op(ctx, tables, op),
        next: next_op(ctx, tables, op),
    }
}

// The region that a block stands in.
fn parent_of_block(
    ctx: &Context<Toy>,
    tables: &Tables,
    block: Ptr<BasicBlock<Toy>>,
) -> Option<usize> {
    if !block.is_live(ctx) {
        return None;
    }
    let region = block.get_parent_region(ctx)?;
    Some(tables.region_number(region))
}

// The block right before this one.
fn previous_block(
    ctx: &Context<Toy>,
    tables: &Tables,
    block: Ptr<BasicBlock<Toy>>,
) -> Option<usize> {
    if !block.is_live(ctx) {
        return None;
    }
    let previous = block.get_prev(ctx)?;
    Some(tables.block_number(previous))
}

// The block right after this one.
fn next_block(ctx: &Context<Toy>, tables: &Tables, block: Ptr<BasicBlock<Toy>>) -> Option<usize> {
    if !block.is_live(ctx) {
        return None;
    }
    let next = block.get_next(ctx)?;
    Some(tables.block_number(next))
}

/// The place of a block.
pub fn block_place(ctx: &Context<Toy>, tables: &Tables, block: Ptr<BasicBlock<Toy>>) -> Place {
    Place {
        parent: parent_of_block(ctx, tables, block),
        previous: previous_block(ctx, tables, block),
        next: next_block(ctx, tables, block),
    }
}

/// The operation that a region belongs to.
pub fn parent_of_region(ctx: &Context<Toy>, tables: &Tables, region: Ptr<Region>) -> Option<usize> {
    if !region.is_live(ctx) {
        return None;
    }
    Some(tables.op_number(region.get_parent_op(ctx)))
}

/// The operations of a block, walked forward.
pub fn ops_of(
    ctx: &Context<Toy>,
    tables: &Tables,
    block: Ptr<BasicBlock<Toy>>,
) -> Result<Vec<usize>, AllocError> {
    let mut numbers = Vec::new(ctx.alloc());
    if !block.is_live(ctx) {
        return Ok(numbers);
    }
    for op in block.iter(ctx) {
        numbers.push(tables.op_number(op))?;
    }
    Ok(numbers)
}

/// The operations of a block, walked backward.
pub fn ops_of_back(
    ctx: &Context<Toy>,
    tables: &Tables,
    block: Ptr<BasicBlock<Toy>>,
) -> Result<Vec<usize>, AllocError> {
    let mut numbers = Vec::new(ctx.alloc());
    if !block.is_live(ctx) {
        return Ok(numbers);
    }
    for op in block.iter(ctx).rev() {
        numbers.push(tables.op_number(op))?;
    }
    Ok(numbers)
}

/// The blocks of a region, walked forward.
pub fn blocks_of(
    ctx: &Context<Toy>,
    tables: &Tables,
    region: Ptr<Region>,
) -> Result<Vec<usize>, AllocError> {
    let mut numbers = Vec::new(ctx.alloc());
    if !region.is_live(ctx) {
        return Ok(numbers);
    }
    for block in region.iter(ctx) {
        numbers.push(tables.block_number(block))?;
    }
    Ok(numbers)
}

/// The blocks of a region, walked backward.
pub fn blocks_of_back(
    ctx: &Context<Toy>,
    tables: &Tables,
    region: Ptr<Region>,
) -> Result<Vec<usize>, AllocError> {
    let mut numbers = Vec::new(ctx.alloc());
    if !region.is_live(ctx) {
        return Ok(numbers);
    }
    for block in region.iter(ctx).rev() {
        numbers.push(tables.block_number(block))?;
    }
    Ok(numbers)
}

/// The first operation of a block.
pub(crate) fn first_op(
    ctx: &Context<Toy>,
    tables: &Tables,
    block: Ptr<BasicBlock<Toy>>,
) -> Option<usize> {
    if !block.is_live(ctx) {
        return None;
    }
    let first = block.get_head(ctx)?;
    Some(tables.op_number(first))
}

/// The last operation of a block.
pub(crate) fn last_op(
    ctx: &Context<Toy>,
    tables: &Tables,
    block: Ptr<BasicBlock<Toy>>,
) -> Option<usize> {
    if !block.is_live(ctx) {
        return None;
    }
    let last = block.get_tail(ctx)?;
    Some(tables.op_number(last))
}

/// The first block of a region.
pub(crate) fn first_block(
    ctx: &Context<Toy>,
    tables: &Tables,
    region: Ptr<Region>,
) -> Option<usize> {
    if !region.is_live(ctx) {
        return None;
    }
    let first = region.get_head(ctx)?;
    Some(tables.block_number(first))
}

/// The last block of a region.
pub(crate) fn last_block(
    ctx: &Context<Toy>,
    tables: &Tables,
    region: Ptr<Region>,
) -> Option<usize> {
    if !region.is_live(ctx) {
        return None;
    }
    let last = region.get_tail(ctx)?;
    Some(tables.block_number(last))
}
