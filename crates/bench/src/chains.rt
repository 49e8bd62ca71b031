//! Chains of operations, each of which uses the results of the two before.

use crate::building::{ToyBlock, ToyContext, ToyOp, ToyValue, build, keep, pair_block, reserve};
use crate::outcome::{BenchErr, block_sum, outcome, uses_sum};
use bench_clock::{Outcome, Stopwatch};
use ir_base::types::TypeHandle;
use ir_checked::{basic_block, operation, value};
use std::time::CpuClock;

// Makes so many operations and puts their handles behind the others.
#[inline(never)]
fn timed_checked(
    ctx: &mut ToyContext,
    ty: TypeHandle,
    first: ToyValue,
    second: ToyValue,
    count: usize,
    made: &mut Vec<ToyOp>,
) -> Result<(), BenchErr> {
    let mut first = first;
    let mut second = second;
    let successors = [];
    for _i in 0..count {
        let types = [ty];
        let operands = [first, second];
        let op = operation::new(ctx, 1, &types, &operands, &successors, 0)?;
        keep(made, op)?;
        first = second;
        second = operation::get_result(op, ctx, 0)?;
    }
    Ok(())
}

// Makes an operation with one result of this type, and gives the result.
fn new_value(ctx: &mut ToyContext, ty: TypeHandle) -> Result<ToyValue, BenchErr> {
    let op = operation::new(ctx, 0, &[ty], &[], &[], 0)?;
    Ok(operation::get_result(op, ctx, 0)?)
}

/// Makes two such operations, and gives their results.
pub(crate) fn two_values(
    ctx: &mut ToyContext,
    ty: TypeHandle,
) -> Result<(ToyValue, ToyValue), BenchErr> {
    let first = new_value(ctx, ty)?;
    let second = new_value(ctx, ty)?;
    Ok((first, second))
}

/// N operations without a block, by calls whose conditions are tested.
pub(crate) fn unlinked_checked<C: CpuClock>(
    watch: &mut Stopwatch<'_, C>,
    ctx: &mut ToyContext,
    ty: TypeHandle,
    count: usize,
    made: &mut Vec<ToyOp>,
) -> Result<Outcome, BenchErr> {
    reserve(made, count)?;
    let (first, second) = two_values(ctx, ty)?;
    watch.start();
    timed_checked(ctx, ty, first, second, count, made)?;
    watch.stop();
    outcome(count, uses_sum(ctx, made.as_slice()))
}

// Makes so many operations at the back of a block.
#[inline(never)]
fn timed_building(
    ctx: &mut ToyContext,
    ty: TypeHandle,
    block: ToyBlock,
    count: usize,
) -> Result<(), BenchErr> {
    build(ctx, ty, block, count)
}

/// N operations at the back of a block. All of it is timed but the block.
pub(crate) fn building<C: CpuClock>(
    watch: &mut Stopwatch<'_, C>,
    ctx: &mut ToyContext,
    ty: TypeHandle,
    count: usize,
) -> Result<Outcome, BenchErr> {
    let block = pair_block(ctx, ty)?;
    watch.start();
    timed_building(ctx, ty, block, count)?;
    watch.stop();
    outcome(count, block_sum(ctx, block))
}

// Puts a new operation with the same operands behind one with two, and answers it.
fn copy_behind(ctx: &mut ToyContext, ty: TypeHandle, op: ToyOp) -> Result<ToyOp, BenchErr> {
    let types = [ty];
    let first = operation::get_operand(op, ctx, 0)?;
    let second = operation::get_operand(op, ctx, 1)?;
    let operands = [first, second];
    let new = operation::new(ctx, 1, &types, &operands, &[], 0)?;
    operation::insert_after(new, ctx, op)?;
    Ok(new)
}

// Puts such an operation behind one, lets what used the one's result use the new one's, and erases the one.
fn rebuild(ctx: &mut ToyContext, ty: TypeHandle, old: ToyOp) -> Result<(), BenchErr> {
    let new = copy_behind(ctx, ty, old)?;
    let old_value = operation::get_result(old, ctx, 0)?;
    let new_value = operation::get_result(new, ctx, 0)?;
    value::replace_all_uses_with(old_value, ctx, new_value)?;
    Ok(operation::erase(old, ctx)?)
}

// Rebuilds so many operations of a chain, from its first on.
#[inline(never)]
fn timed_rebuilding(
    ctx: &mut ToyContext,
    ty: TypeHandle,
    block: ToyBlock,
    count: usize,
) -> Result<(), BenchErr> {
    let mut place = basic_block::get_head(block, ctx)?;
    for _i in 0..count {
        let Some(old) = place else {
            return Err(BenchErr::Astray);
        };
        place = operation::get_next(old, ctx)?;
        rebuild(ctx, ty, old)?;
    }
    Ok(())
}

/// Over N operations of a block, a new one behind each takes its uses, and the old one is erased. The building of the first ones isn't timed.
pub(crate) fn rebuilding<C: CpuClock>(
    watch: &mut Stopwatch<'_, C>,
    ctx: &mut ToyContext,
    ty: TypeHandle,
    count: usize,
) -> Result<Outcome, BenchErr> {
    let block = pair_block(ctx, ty)?;
    build(ctx, ty, block, count)?;
    watch.start();
    timed_rebuilding(ctx, ty, block, count)?;
    watch.stop();
    outcome(count, block_sum(ctx, block))
}
