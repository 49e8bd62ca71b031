//! Blocks that are swept: dead chains, whichever way they run, fans, a comb that runs backward, and a block with nothing dead.

use crate::building::{ToyBlock, ToyContext, ToyValue, add_op, keep, reserve};
use crate::outcome::{BenchErr, outcome};
use bench_clock::{Outcome, Stopwatch, mix};
use ir_base::types::TypeHandle;
use ir_checked::{basic_block, operation};
use ir_core::prelude::*;
use ir_run::dead::sweep;
use std::time::CpuClock;

// Sweeps a block, and answers how many of its operations went.
#[inline(never)]
fn timed_sweep(ctx: &mut ToyContext, block: ToyBlock) -> Result<usize, BenchErr> {
    if !block.is_live(ctx) {
        return Err(BenchErr::Astray);
    }
    Ok(sweep(block, ctx))
}

// How many operations stand in a block.
fn length_of(ctx: &ToyContext, block: ToyBlock) -> Result<u64, BenchErr> {
    if !block.is_live(ctx) {
        return Err(BenchErr::Astray);
    }
    let mut length = 0u64;
    for _op in block.iter(ctx) {
        length = length.wrapping_add(1);
    }
    Ok(length)
}

// Sweeps a block that was made with so many operations that count, and gives how many went, and how many are left.
fn swept<C: CpuClock>(
    watch: &mut Stopwatch<'_, C>,
    ctx: &mut ToyContext,
    block: ToyBlock,
    count: usize,
) -> Result<Outcome, BenchErr> {
    watch.start();
    let gone = timed_sweep(ctx, block)?;
    watch.stop();
    let left = length_of(ctx, block)?;
    outcome(count, Ok(mix(gone as u64, left)))
}

// Makes a block with an operation that has one result, and answers both.
fn first_of_chain(ctx: &mut ToyContext, ty: TypeHandle) -> Result<(ToyBlock, ToyValue), BenchErr> {
    let block = basic_block::new(ctx, None, &[])?;
    let op = add_op(ctx, block, 0, &[ty], &[], 0)?;
    Ok((block, operation::get_result(op, ctx, 0)?))
}

/// Makes so many pure operations at the back of a block, each of which uses the result of the one before, from this value on, and answers the last result.
pub(crate) fn chain_to_back(
    ctx: &mut ToyContext,
    ty: TypeHandle,
    block: ToyBlock,
    first: ToyValue,
    count: usize,
) -> Result<ToyValue, BenchErr> {
    let mut last = first;
    for _i in 0..count {
        let types = [ty];
        let operands = [last];
        let op = add_op(ctx, block, 1, &types, &operands, 0)?;
        last = operation::get_result(op, ctx, 0)?;
    }
    Ok(last)
}

// Makes a pure operation that uses these values, puts it at the front of a block and answers its result.
fn put_in_front(
    ctx: &mut ToyContext,
    ty: TypeHandle,
    block: ToyBlock,
    operands: &[ToyValue],
) -> Result<ToyValue, BenchErr> {
    let op = operation::new(ctx, 1, &[ty], operands, &[], 0)?;
    operation::insert_at_front(op, block, ctx)?;
    Ok(operation::get_result(op, ctx, 0)?)
}

// Makes so many at the front of a block, each of which uses the result of the one behind it.
fn chain_to_front(
    ctx: &mut ToyContext,
    ty: TypeHandle,
    block: ToyBlock,
    first: ToyValue,
    count: usize,
) -> Result<(), BenchErr> {
    let mut last = first;
    for _i in 0..count {
        let operands = [last];
        last = put_in_front(ctx, ty, block, &operands)?;
    }
    Ok(())
}

/// A chain of N operations in a block, each of which uses the one before, is swept. Its building isn't timed.
pub(crate) fn sweep_front<C: CpuClock>(
    watch: &mut Stopwatch<'_, C>,
    ctx: &mut ToyContext,
    ty: TypeHandle,
    count: usize,
) -> Result<Outcome, BenchErr> {
    let (block, first) = first_of_chain(ctx, ty)?;
    chain_to_back(ctx, ty, block, first, count.saturating_sub(1))?;
    swept(watch, ctx, block, count)
}

/// The same, with each operation in front of the one that it uses.
pub(crate) fn sweep_back<C: CpuClock>(
    watch: &mut Stopwatch<'_, C>,
    ctx: &mut ToyContext,
    ty: TypeHandle,
    count: usize,
) -> Result<Outcome, BenchErr> {
    let (block, first) = first_of_chain(ctx, ty)?;
    chain_to_front(ctx, ty, block, first, count.saturating_sub(1))?;
    swept(watch, ctx, block, count)
}

/// A chain of N operations, the last of which is used by one that isn't pure, is swept: all stay. Its building isn't timed.
pub(crate) fn sweep_none<C: CpuClock>(
    watch: &mut Stopwatch<'_, C>,
    ctx: &mut ToyContext,
    ty: TypeHandle,
    count: usize,
) -> Result<Outcome, BenchErr> {
    let (block, first) = first_of_chain(ctx, ty)?;
    let last = chain_to_back(ctx, ty, block, first, count.saturating_sub(1))?;
    add_op(ctx, block, 4, &[], &[last], 0)?;
    swept(watch, ctx, block, count)
}

// Makes so many pure operations at the back of a block, each of which uses this value.
fn users_to_back(
    ctx: &mut ToyContext,
    ty: TypeHandle,
    block: ToyBlock,
    value: ToyValue,
    count: usize,
) -> Result<(), BenchErr> {
    let types = [ty];
    let operands = [value];
    for _i in 0..count {
        add_op(ctx, block, 1, &types, &operands, 0)?;
    }
    Ok(())
}

// Makes a pure operation at the back of a block that uses nothing, and answers its result.
fn result_to_back(
    ctx: &mut ToyContext,
    block: ToyBlock,
    types: &[TypeHandle],
) -> Result<ToyValue, BenchErr> {
    let op = add_op(ctx, block, 1, types, &[], 0)?;
    Ok(operation::get_result(op, ctx, 0)?)
}

// Makes so many pure operations at the back of a block that use nothing, and puts their results behind the others.
fn results_to_back(
    ctx: &mut ToyContext,
    ty: TypeHandle,
    block: ToyBlock,
    count: usize,
    made: &mut Vec<ToyValue>,
) -> Result<(), BenchErr> {
    let types = [ty];
    for _i in 0..count {
        let value = result_to_back(ctx, block, &types)?;
        keep(made, value)?;
    }
    Ok(())
}

// Makes a pair at the front of a block: an operation that uses nothing, and in front of it one that uses the operation in front of which the pair stands, and then this one.
fn pair_to_front(
    ctx: &mut ToyContext,
    ty: TypeHandle,
    block: ToyBlock,
    last: ToyValue,
) -> Result<ToyValue, BenchErr> {
    let tooth = put_in_front(ctx, ty, block, &[])?;
    put_in_front(ctx, ty, block, &[last, tooth])
}

// Makes so many such pairs at the front of a block.
fn comb_to_front(
    ctx: &mut ToyContext,
    ty: TypeHandle,
    block: ToyBlock,
    first: ToyValue,
    count: usize,
) -> Result<(), BenchErr> {
    let mut last = first;
    for _i in 0..count {
        last = pair_to_front(ctx, ty, block, last)?;
    }
    Ok(())
}

/// An operation whose result N - 1 dead operations use is swept with these. Its building isn't timed.
pub(crate) fn sweep_fan_out<C: CpuClock>(
    watch: &mut Stopwatch<'_, C>,
    ctx: &mut ToyContext,
    ty: TypeHandle,
    count: usize,
) -> Result<Outcome, BenchErr> {
    let (block, first) = first_of_chain(ctx, ty)?;
    users_to_back(ctx, ty, block, first, count.saturating_sub(1))?;
    swept(watch, ctx, block, count)
}

/// A dead operation that uses the results of N - 1 others is swept with these. Its building isn't timed.
pub(crate) fn sweep_fan_in<C: CpuClock>(
    watch: &mut Stopwatch<'_, C>,
    ctx: &mut ToyContext,
    ty: TypeHandle,
    count: usize,
    results: &mut Vec<ToyValue>,
) -> Result<Outcome, BenchErr> {
    let block = basic_block::new(ctx, None, &[])?;
    reserve(results, count)?;
    results_to_back(ctx, ty, block, count.saturating_sub(1), results)?;
    add_op(ctx, block, 1, &[ty], results.as_slice(), 0)?;
    swept(watch, ctx, block, count)
}

/// A dead comb of N operations, or one less where N is even, is swept: each but the teeth is in front of the two that it uses, the next one and a tooth, which uses nothing. Its building isn't timed.
pub(crate) fn sweep_comb<C: CpuClock>(
    watch: &mut Stopwatch<'_, C>,
    ctx: &mut ToyContext,
    ty: TypeHandle,
    count: usize,
) -> Result<Outcome, BenchErr> {
    let (block, first) = first_of_chain(ctx, ty)?;
    comb_to_front(ctx, ty, block, first, count.saturating_sub(1) / 2)?;
    swept(watch, ctx, block, count)
}
