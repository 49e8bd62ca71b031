//! What the workloads build: operations and blocks, made and put in their place.

use crate::outcome::BenchErr;
use ir_base::context::{CoreError, Ptr};
use ir_base::types::TypeHandle;
use ir_checked::{basic_block, operation};
use ir_core::basic_block::BasicBlock;
use ir_core::context::Context;
use ir_core::operation::Operation;
use ir_core::region::Region;
use ir_core::value::Value;
use ir_run::toy::Toy;
use std::alloc::Global;

/// A context over the dialect Toy.
pub(crate) type ToyContext = Context<Toy>;

/// An operation in such a context.
pub(crate) type ToyOp = Ptr<Operation<Toy>>;

/// A block in such a context.
pub(crate) type ToyBlock = Ptr<BasicBlock<Toy>>;

/// A value in such a context.
pub(crate) type ToyValue = Value<Toy>;

/// Makes an operation and puts it at the back of a block.
pub(crate) fn add_op(
    ctx: &mut ToyContext,
    block: ToyBlock,
    kind: u32,
    types: &[TypeHandle],
    operands: &[ToyValue],
    num_regions: usize,
) -> Result<ToyOp, BenchErr> {
    let op = operation::new(ctx, kind, types, operands, &[], num_regions)?;
    operation::insert_at_back(op, block, ctx)?;
    Ok(op)
}

/// Makes a block with arguments of these types and puts it at the back of a region.
pub(crate) fn add_block(
    ctx: &mut ToyContext,
    region: Ptr<Region>,
    types: &[TypeHandle],
) -> Result<ToyBlock, BenchErr> {
    let block = basic_block::new(ctx, None, types)?;
    basic_block::insert_at_back(block, region, ctx)?;
    Ok(block)
}

/// Makes an unlinked block with two arguments of a type.
pub(crate) fn pair_block(ctx: &mut ToyContext, ty: TypeHandle) -> Result<ToyBlock, BenchErr> {
    Ok(basic_block::new(ctx, None, &[ty, ty])?)
}

/// Makes such a block, and answers it and its arguments.
pub(crate) fn block_and_pair(
    ctx: &mut ToyContext,
    ty: TypeHandle,
) -> Result<(ToyBlock, ToyValue, ToyValue), BenchErr> {
    let block = pair_block(ctx, ty)?;
    let first = basic_block::get_argument(block, ctx, 0)?;
    let second = basic_block::get_argument(block, ctx, 1)?;
    Ok((block, first, second))
}

/// Makes so many operations at the back of a block, each with one result and the results of the two before as operands. Before the first come the block's two arguments.
pub(crate) fn build(
    ctx: &mut ToyContext,
    ty: TypeHandle,
    block: ToyBlock,
    count: usize,
) -> Result<(), BenchErr> {
    let first = basic_block::get_argument(block, ctx, 0)?;
    let second = basic_block::get_argument(block, ctx, 1)?;
    build_from(ctx, ty, block, first, second, count)
}

// The same, where these two values come before the first.
fn build_from(
    ctx: &mut ToyContext,
    ty: TypeHandle,
    block: ToyBlock,
    mut first: ToyValue,
    mut second: ToyValue,
    count: usize,
) -> Result<(), BenchErr> {
    for _i in 0..count {
        let types = [ty];
        let operands = [first, second];
        let op = add_op(ctx, block, 1, &types, &operands, 0)?;
        first = second;
        second = operation::get_result(op, ctx, 0)?;
    }
    Ok(())
}

/// Puts a thing behind the others.
pub(crate) fn keep<T: Drop>(others: &mut Vec<T>, one: T) -> Result<(), CoreError> {
    others.push(one)?;
    Ok(())
}

/// Makes places for so many things behind the others.
pub(crate) fn reserve<T: Drop>(others: &mut Vec<T>, count: usize) -> Result<(), CoreError> {
    others.reserve(count)?;
    Ok(())
}

// Makes so many operations at the back of a block that use one value each, and puts their handles behind the others.
fn add_users(
    ctx: &mut ToyContext,
    block: ToyBlock,
    value: ToyValue,
    count: usize,
    made: &mut Vec<ToyOp>,
) -> Result<(), BenchErr> {
    reserve(made, count)?;
    for _i in 0..count {
        let operands = [value];
        let op = add_op(ctx, block, 4, &[], &operands, 0)?;
        keep(made, op)?;
    }
    Ok(())
}

/// Makes a block with two arguments of a type, and so many operations in it that use the first one. Answers the block and its arguments.
pub(crate) fn used_value(
    ctx: &mut ToyContext,
    ty: TypeHandle,
    count: usize,
    users: &mut Vec<ToyOp>,
) -> Result<(ToyBlock, ToyValue, ToyValue), BenchErr> {
    let (block, value, other) = block_and_pair(ctx, ty)?;
    add_users(ctx, block, value, count, users)?;
    Ok((block, value, other))
}

// Makes an operation at the back of a block with so many operands that name a value.
fn add_wide(
    ctx: &mut ToyContext,
    block: ToyBlock,
    value: ToyValue,
    count: usize,
) -> Result<ToyOp, BenchErr> {
    let operands = copies(ctx.alloc(), value, count)?;
    add_op(ctx, block, 4, &[], operands.as_slice(), 0)
}

/// Makes an operation with so many operands that name the first of two values, and answers it and both.
pub(crate) fn wide(
    ctx: &mut ToyContext,
    ty: TypeHandle,
    count: usize,
) -> Result<(ToyOp, ToyValue, ToyValue), BenchErr> {
    let (block, value, other) = block_and_pair(ctx, ty)?;
    Ok((add_wide(ctx, block, value, count)?, value, other))
}

/// Makes so many operations, in turn at the back of one block and of another, in turn with no, one and two operands that name the value, and puts their handles into a list that is empty.
pub(crate) fn add_marked(
    ctx: &mut ToyContext,
    even: ToyBlock,
    odd: ToyBlock,
    value: ToyValue,
    count: usize,
    made: &mut Vec<ToyOp>,
) -> Result<(), BenchErr> {
    reserve(made, count)?;
    let operands = [value, value];
    for i in 0..count {
        let block = if i % 2 == 0 { even } else { odd };
        let op = add_op(ctx, block, 4, &[], &operands[..i % 3], 0)?;
        keep(made, op)?;
    }
    Ok(())
}

// Puts a thing so often into a list that is empty.
fn fill<T: Copy + Drop>(list: &mut Vec<T>, one: T, count: usize) -> Result<(), CoreError> {
    reserve(list, count)?;
    for _i in 0..count {
        keep(list, one)?;
    }
    Ok(())
}

/// A thing so often.
pub(crate) fn copies<T: Copy + Drop>(
    alloc: Global,
    one: T,
    count: usize,
) -> Result<Vec<T>, CoreError> {
    let mut copies = Vec::new(alloc);
    fill(&mut copies, one, count)?;
    Ok(copies)
}
