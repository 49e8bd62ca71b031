//! Uses of values: all of one value's come to name another, and many values with one use each.

use crate::building::{ToyBlock, ToyContext, ToyOp, ToyValue, add_op, copies, used_value, wide};
use crate::outcome::{BenchErr, block_sum, operand_sum, outcome, uses_of};
use bench_clock::{Outcome, Stopwatch, mix};
use ir_base::types::TypeHandle;
use ir_checked::{basic_block, value};
use std::time::CpuClock;

// Lets all that names a value name another one.
#[inline(never)]
fn timed_replacing(ctx: &mut ToyContext, value: ToyValue, other: ToyValue) -> Result<(), BenchErr> {
    Ok(value::replace_all_uses_with(value, ctx, other)?)
}

/// How many uses two values have, in one number.
pub(crate) fn both_uses(
    ctx: &ToyContext,
    value: ToyValue,
    other: ToyValue,
) -> Result<u64, BenchErr> {
    let others = uses_of(ctx, other)?;
    Ok(others.wrapping_mul(3).wrapping_add(uses_of(ctx, value)?))
}

// Lets all uses of one value name another, and back, and answers how many uses the two had between.
fn there_and_back<C: CpuClock>(
    watch: &mut Stopwatch<'_, C>,
    ctx: &mut ToyContext,
    value: ToyValue,
    other: ToyValue,
) -> Result<u64, BenchErr> {
    watch.start();
    timed_replacing(ctx, value, other)?;
    watch.stop();
    let between = both_uses(ctx, value, other)?;
    watch.start();
    timed_replacing(ctx, other, value)?;
    watch.stop();
    Ok(between)
}

/// What a value's uses come to that were elsewhere: what the operations name, and the uses of both values, then and now.
pub(crate) fn returned_sum(
    ctx: &ToyContext,
    ops: &[ToyOp],
    value: ToyValue,
    other: ToyValue,
    between: u64,
) -> Result<u64, BenchErr> {
    let sum = mix(operand_sum(ctx, ops, value)?, between);
    Ok(mix(sum, both_uses(ctx, value, other)?))
}

/// N operations use one value; all these uses come to name another value, and back. The units are the 2 N uses.
pub(crate) fn replacing<C: CpuClock>(
    watch: &mut Stopwatch<'_, C>,
    ctx: &mut ToyContext,
    ty: TypeHandle,
    count: usize,
    users: &mut Vec<ToyOp>,
) -> Result<Outcome, BenchErr> {
    let (_block, value, other) = used_value(ctx, ty, count, users)?;
    let between = there_and_back(watch, ctx, value, other)?;
    let checksum = returned_sum(ctx, users.as_slice(), value, other, between);
    outcome(count.wrapping_mul(2), checksum)
}

/// The same with all uses in one operation.
pub(crate) fn replacing_in_one<C: CpuClock>(
    watch: &mut Stopwatch<'_, C>,
    ctx: &mut ToyContext,
    ty: TypeHandle,
    count: usize,
) -> Result<Outcome, BenchErr> {
    let (op, value, other) = wide(ctx, ty, count)?;
    there_and_back(watch, ctx, value, other)?;
    outcome(count.wrapping_mul(2), operand_sum(ctx, &[op], value))
}

// Makes an operation for each argument of a block with so many, at its back, that uses the argument.
#[inline(never)]
fn timed_argument_users(
    ctx: &mut ToyContext,
    block: ToyBlock,
    count: usize,
) -> Result<(), BenchErr> {
    for index in 0..count {
        let value = basic_block::get_argument(block, ctx, index)?;
        let operands = [value];
        add_op(ctx, block, 4, &[], &operands, 0)?;
    }
    Ok(())
}

/// Makes an unlinked block with so many arguments of a type.
pub(crate) fn wide_block(
    ctx: &mut ToyContext,
    ty: TypeHandle,
    count: usize,
) -> Result<ToyBlock, BenchErr> {
    let types = copies(ctx.alloc(), ty, count)?;
    Ok(basic_block::new(ctx, None, types.as_slice())?)
}

/// Over a block of N arguments, an operation for each that uses it. The block's making isn't timed.
pub(crate) fn argument_users<C: CpuClock>(
    watch: &mut Stopwatch<'_, C>,
    ctx: &mut ToyContext,
    ty: TypeHandle,
    count: usize,
) -> Result<Outcome, BenchErr> {
    let block = wide_block(ctx, ty, count)?;
    watch.start();
    timed_argument_users(ctx, block, count)?;
    watch.stop();
    outcome(count, block_sum(ctx, block))
}
