//! Operations that are moved between blocks, and blocks between regions.

ghost use Rattle.std.specs.Prelude.{◌<◌};

use crate::building::{ToyBlock, ToyContext, ToyOp, ToyValue, add_block, add_marked};
use crate::outcome::{BenchErr, block_sum, outcome};
use crate::random::Random;
use bench_clock::{Outcome, Stopwatch, mix};
use ir_base::context::Ptr;
use ir_base::types::TypeHandle;
use ir_checked::{basic_block, operation, region};
use ir_core::prelude::*;
use ir_core::region::Region;
use std::time::CpuClock;

// Takes so many operations from the front of a block and puts each at the back of another.
#[inline(never)]
fn timed_front_to_back(
    ctx: &mut ToyContext,
    from: ToyBlock,
    to: ToyBlock,
    count: usize,
) -> Result<(), BenchErr> {
    for _i in 0..count {
        let Some(op) = basic_block::get_head(from, ctx)? else {
            return Err(BenchErr::Astray);
        };
        operation::unlink(op, ctx)?;
        operation::insert_at_back(op, to, ctx)?;
    }
    Ok(())
}

/// Makes two unlinked blocks, the first with an argument of a type, and answers them and it.
pub(crate) fn two_blocks(
    ctx: &mut ToyContext,
    ty: TypeHandle,
) -> Result<(ToyBlock, ToyBlock, ToyValue), BenchErr> {
    let first = basic_block::new(ctx, None, &[ty])?;
    let second = basic_block::new(ctx, None, &[])?;
    let value = basic_block::get_argument(first, ctx, 0)?;
    Ok((first, second, value))
}

/// N operations one by one from the front of one block to the back of another. Their making isn't timed.
pub(crate) fn front_to_back<C: CpuClock>(
    watch: &mut Stopwatch<'_, C>,
    ctx: &mut ToyContext,
    ty: TypeHandle,
    count: usize,
    made: &mut Vec<ToyOp>,
) -> Result<Outcome, BenchErr> {
    let (from, to, value) = two_blocks(ctx, ty)?;
    add_marked(ctx, from, from, value, count, made)?;
    watch.start();
    timed_front_to_back(ctx, from, to, count)?;
    watch.stop();
    outcome(count, block_sum(ctx, to))
}

/// A random place of so many, and another one where there are two.
pub(crate) fn two_places(random: &mut Random, count: usize) -> (usize, usize)
    ensures { 0 < count → (result.0 < count) × (result.1 < count) }
{
    let one = random.below(count);
    let mut other = random.below(count);
    if one == other {
        let next = other.wrapping_add(1);
        other = if next == count { 0 } else { next };
    }
    (one, other)
}

// The operation at a place.
fn op_at(ops: &[ToyOp], place: usize) -> Result<ToyOp, BenchErr> {
    match ops.get(place) {
        Some(op) => Ok(*op),
        None => Err(BenchErr::Astray),
    }
}

// Puts the operation at a place before the one at another place.
fn put_before(
    ctx: &mut ToyContext,
    ops: &[ToyOp],
    place: usize,
    marked: usize,
) -> Result<(), BenchErr> {
    let op = op_at(ops, place)?;
    let mark = op_at(ops, marked)?;
    operation::unlink(op, ctx)?;
    Ok(operation::insert_before(op, ctx, mark)?)
}

// Puts a random operation before another random one, as often as there are operations.
#[inline(never)]
fn timed_random_moves(
    ctx: &mut ToyContext,
    ops: &[ToyOp],
    random: &mut Random,
) -> Result<(), BenchErr> {
    let count = ops.len();
    for _i in 0..count {
        let (one, other) = two_places(random, count);
        if one != other {
            put_before(ctx, ops, one, other)?;
        }
    }
    Ok(())
}

/// The sums of two blocks, in one number.
pub(crate) fn both_sums(
    ctx: &ToyContext,
    first: ToyBlock,
    second: ToyBlock,
) -> Result<u64, BenchErr> {
    let sum = block_sum(ctx, first)?;
    Ok(mix(sum, block_sum(ctx, second)?))
}

/// Over two blocks of N operations together, a random operation before a random one, N times. Their making isn't timed.
pub(crate) fn random_moves<C: CpuClock>(
    watch: &mut Stopwatch<'_, C>,
    ctx: &mut ToyContext,
    ty: TypeHandle,
    count: usize,
    made: &mut Vec<ToyOp>,
) -> Result<Outcome, BenchErr> {
    let (even, odd, value) = two_blocks(ctx, ty)?;
    add_marked(ctx, even, odd, value, count, made)?;
    let mut random = Random::new();
    watch.start();
    timed_random_moves(ctx, made.as_slice(), &mut random)?;
    watch.stop();
    outcome(count, both_sums(ctx, even, odd))
}

// Takes so many blocks from the front of a region and puts each at the back of another.
#[inline(never)]
fn timed_blocks(
    ctx: &mut ToyContext,
    from: Ptr<Region>,
    to: Ptr<Region>,
    count: usize,
) -> Result<(), BenchErr> {
    for _i in 0..count {
        let Some(block) = region::get_head(from, ctx)? else {
            return Err(BenchErr::Astray);
        };
        basic_block::unlink(block, ctx)?;
        basic_block::insert_at_back(block, to, ctx)?;
    }
    Ok(())
}

// How many arguments a block has where it is live, and else 0.
fn argument_count(ctx: &ToyContext, block: ToyBlock) -> usize {
    match block.try_deref(ctx) {
        Ok(block) => block.get_num_arguments(),
        Err(_) => 0,
    }
}

/// How many arguments each block of a region has.
pub(crate) fn arguments_sum(ctx: &ToyContext, region: Ptr<Region>) -> Result<u64, BenchErr> {
    if !region.is_live(ctx) {
        return Err(BenchErr::Astray);
    }
    let mut sum = 0;
    for block in region.iter(ctx) {
        sum = mix(sum, argument_count(ctx, block) as u64);
    }
    Ok(sum)
}

/// Puts so many blocks into a region, in turn with no, one and two arguments.
pub(crate) fn add_blocks(
    ctx: &mut ToyContext,
    region: Ptr<Region>,
    ty: TypeHandle,
    count: usize,
) -> Result<(), BenchErr> {
    let types = [ty, ty];
    for i in 0..count {
        add_block(ctx, region, &types[..i % 3])?;
    }
    Ok(())
}

/// Makes an operation with two regions, and answers these.
pub(crate) fn two_regions(ctx: &mut ToyContext) -> Result<(Ptr<Region>, Ptr<Region>), BenchErr> {
    let module = operation::new(ctx, 5, &[], &[], &[], 2)?;
    let first = operation::get_region(module, ctx, 0)?;
    let second = operation::get_region(module, ctx, 1)?;
    Ok((first, second))
}

/// N blocks one by one from the front of one region to the back of another. Their making isn't timed.
pub(crate) fn blocks<C: CpuClock>(
    watch: &mut Stopwatch<'_, C>,
    ctx: &mut ToyContext,
    ty: TypeHandle,
    count: usize,
) -> Result<Outcome, BenchErr> {
    let (from, to) = two_regions(ctx)?;
    add_blocks(ctx, from, ty, count)?;
    watch.start();
    timed_blocks(ctx, from, to, count)?;
    watch.stop();
    outcome(count, arguments_sum(ctx, to))
}
