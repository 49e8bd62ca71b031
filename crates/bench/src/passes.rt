//! Passes over all that stands inside a module: alike operations that are merged, and dead ones that are swept.

use crate::building::{ToyBlock, ToyContext, ToyOp, ToyValue, add_block, add_op};
use crate::nests::{add_function, with_block};
use crate::outcome::{BenchErr, outcome};
use crate::sweeps::chain_to_back;
use bench_clock::{Outcome, Stopwatch, mix};
use ir_base::types::TypeHandle;
use ir_checked::{basic_block, operation, walk};
use ir_core::context::Entity;
use ir_core::prelude::*;
use ir_run::passes::{merge_common_inside, sweep_inside};
use std::time::CpuClock;

// Merges the alike operations of each block inside an operation, and answers how many went.
#[inline(never)]
fn timed_merging(ctx: &mut ToyContext, root: ToyOp) -> Result<usize, BenchErr> {
    if !root.is_live(ctx) {
        return Err(BenchErr::Astray);
    }
    Ok(merge_common_inside(root, ctx)?)
}

// Sweeps all inside an operation, and answers how many operations went.
#[inline(never)]
fn timed_sweep_inside(ctx: &mut ToyContext, root: ToyOp) -> Result<usize, BenchErr> {
    if !root.is_live(ctx) {
        return Err(BenchErr::Astray);
    }
    Ok(sweep_inside(root, ctx))
}

// What came of a pass over so many operations, of which so many went: that, and how many entities are left, the root among them.
fn passed(ctx: &ToyContext, root: ToyOp, count: usize, gone: usize) -> Result<Outcome, BenchErr> {
    let left = walk::all_inside(ctx, Entity::Op(root))?;
    outcome(count, Ok(mix(gone as u64, left.len() as u64)))
}

// Makes a pure operation at the back of a block that uses two values, and answers its result.
fn user_of_both(
    ctx: &mut ToyContext,
    ty: TypeHandle,
    block: ToyBlock,
    operands: &[ToyValue],
) -> Result<ToyValue, BenchErr> {
    let op = add_op(ctx, block, 1, &[ty], operands, 0)?;
    Ok(operation::get_result(op, ctx, 0)?)
}

// Makes fifty pairs of operations at the back of a block with two arguments. The first of a pair uses what the first of the pair before gives, and the second what the second gives; so the two are alike once those before them are merged.
fn add_pairs(ctx: &mut ToyContext, ty: TypeHandle, block: ToyBlock) -> Result<(), BenchErr> {
    let start = basic_block::get_argument(block, ctx, 0)?;
    let other = basic_block::get_argument(block, ctx, 1)?;
    let (mut first, mut second) = (start, start);
    for _i in 0..50 {
        let operands = [first, other];
        first = user_of_both(ctx, ty, block, &operands)?;
        let operands = [second, other];
        second = user_of_both(ctx, ty, block, &operands)?;
    }
    Ok(())
}

// Makes a module of so many functions with such pairs.
fn module_of_pairs(
    ctx: &mut ToyContext,
    ty: TypeHandle,
    functions: usize,
) -> Result<ToyOp, BenchErr> {
    let (root, outer) = with_block(ctx, 5)?;
    for _i in 0..functions {
        let block = add_function(ctx, ty, outer)?;
        add_pairs(ctx, ty, block)?;
    }
    Ok(root)
}

// Makes a block at the back of an operation's region, and in it a chain of three dead operations from this value on, and answers the last result.
fn chain_inside(
    ctx: &mut ToyContext,
    ty: TypeHandle,
    outer: ToyOp,
    first: ToyValue,
) -> Result<ToyValue, BenchErr> {
    let inside = operation::get_region(outer, ctx, 0)?;
    let block = add_block(ctx, inside, &[])?;
    chain_to_back(ctx, ty, block, first, 3)
}

// Makes a chain of eight dead operations: two in a block, and then three in each of the two blocks inside an operation behind them.
fn add_dead(ctx: &mut ToyContext, ty: TypeHandle, block: ToyBlock) -> Result<(), BenchErr> {
    let first = basic_block::get_argument(block, ctx, 0)?;
    let last = chain_to_back(ctx, ty, block, first, 2)?;
    let inner = add_op(ctx, block, 5, &[], &[], 1)?;
    let last = chain_inside(ctx, ty, inner, last)?;
    chain_inside(ctx, ty, inner, last)?;
    Ok(())
}

// Makes a module of so many functions with such a chain.
fn module_of_dead(
    ctx: &mut ToyContext,
    ty: TypeHandle,
    functions: usize,
) -> Result<ToyOp, BenchErr> {
    let (root, outer) = with_block(ctx, 5)?;
    for _i in 0..functions {
        let block = add_function(ctx, ty, outer)?;
        add_dead(ctx, ty, block)?;
    }
    Ok(root)
}

/// In a module of N/100 functions, each with a block of 100 pure operations of which each second one is alike the one before, these are merged. Its building isn't timed. The units are the operations in such blocks.
pub(crate) fn cse<C: CpuClock>(
    watch: &mut Stopwatch<'_, C>,
    ctx: &mut ToyContext,
    ty: TypeHandle,
    count: usize,
) -> Result<Outcome, BenchErr> {
    let functions = count / 100;
    let root = module_of_pairs(ctx, ty, functions)?;
    watch.start();
    let gone = timed_merging(ctx, root)?;
    watch.stop();
    passed(ctx, root, functions.saturating_mul(100), gone)
}

/// A module of N/8 functions, each with eight dead operations over three blocks, of which one is around the two others, is swept. Its building isn't timed. The units are the operations that go.
pub(crate) fn sweeping_inside<C: CpuClock>(
    watch: &mut Stopwatch<'_, C>,
    ctx: &mut ToyContext,
    ty: TypeHandle,
    count: usize,
) -> Result<Outcome, BenchErr> {
    let root = module_of_dead(ctx, ty, count / 8)?;
    watch.start();
    let gone = timed_sweep_inside(ctx, root)?;
    watch.stop();
    passed(ctx, root, gone, gone)
}
