//! Operands that are put in, taken out and replaced.

use crate::building::{ToyContext, ToyOp, ToyValue, add_op, pair_block, used_value, wide};
use crate::outcome::{BenchErr, naming_sum, operand_count, outcome, uses_of};
use crate::random::fill_at_random;
use bench_clock::{Outcome, Stopwatch, mix};
use ir_base::types::TypeHandle;
use ir_checked::{basic_block, operation};
use std::time::CpuClock;

// Puts an operand that names the value behind the others and takes it out again, so often.
#[inline(never)]
fn timed_push_and_remove(
    ctx: &mut ToyContext,
    op: ToyOp,
    value: ToyValue,
    count: usize,
) -> Result<(), BenchErr> {
    for _i in 0..count {
        let index = operation::push_operand(op, ctx, value)?;
        operation::remove_operand(op, ctx, index)?;
    }
    Ok(())
}

/// How many uses a value and how many operands an operation has, in one number.
pub(crate) fn uses_and_operands(
    ctx: &ToyContext,
    value: ToyValue,
    op: ToyOp,
) -> Result<u64, BenchErr> {
    let operands = operand_count(ctx, op) as u64;
    Ok(uses_of(ctx, value)?.wrapping_add(operands))
}

/// An operand that names a value with N other uses is put in and taken out, N times.
pub(crate) fn push_and_remove<C: CpuClock>(
    watch: &mut Stopwatch<'_, C>,
    ctx: &mut ToyContext,
    ty: TypeHandle,
    count: usize,
    users: &mut Vec<ToyOp>,
) -> Result<Outcome, BenchErr> {
    let (block, value, _other) = used_value(ctx, ty, count, users)?;
    let op = add_op(ctx, block, 4, &[], &[], 0)?;
    watch.start();
    timed_push_and_remove(ctx, op, value, count)?;
    watch.stop();
    outcome(count, uses_and_operands(ctx, value, op))
}

// Puts so many operands that name the value behind the others.
#[inline(never)]
fn timed_pushes(
    ctx: &mut ToyContext,
    op: ToyOp,
    value: ToyValue,
    count: usize,
) -> Result<(), BenchErr> {
    for _i in 0..count {
        operation::push_operand(op, ctx, value)?;
    }
    Ok(())
}

// Takes the first so many operands out, from the last of them on.
#[inline(never)]
fn timed_removals(ctx: &mut ToyContext, op: ToyOp, count: usize) -> Result<(), BenchErr> {
    for index in (0..count).rev() {
        operation::remove_operand(op, ctx, index)?;
    }
    Ok(())
}

// Puts so many operands that name the value in and takes them out again, and answers how many uses it had between.
fn push_and_remove_all(
    ctx: &mut ToyContext,
    op: ToyOp,
    value: ToyValue,
    count: usize,
) -> Result<u64, BenchErr> {
    timed_pushes(ctx, op, value, count)?;
    let middle = uses_of(ctx, value)?;
    timed_removals(ctx, op, count)?;
    Ok(middle)
}

/// Makes an operation without operands in a block, and answers it and an argument of the block.
pub(crate) fn op_and_argument(
    ctx: &mut ToyContext,
    ty: TypeHandle,
) -> Result<(ToyOp, ToyValue), BenchErr> {
    let block = pair_block(ctx, ty)?;
    let value = basic_block::get_argument(block, ctx, 0)?;
    Ok((add_op(ctx, block, 4, &[], &[], 0)?, value))
}

/// N operands are put into one operation, and taken out from the last on.
pub(crate) fn pushes_and_removals<C: CpuClock>(
    watch: &mut Stopwatch<'_, C>,
    ctx: &mut ToyContext,
    ty: TypeHandle,
    count: usize,
) -> Result<Outcome, BenchErr> {
    let (op, value) = op_and_argument(ctx, ty)?;
    watch.start();
    let middle = push_and_remove_all(ctx, op, value, count)?;
    watch.stop();
    let left = uses_of(ctx, value)?;
    outcome(count, Ok(mix(middle, left)))
}

// Lets the first operand of the operations at these places name one value and the other in turn.
#[inline(never)]
fn timed_replacements(
    ctx: &mut ToyContext,
    ops: &[ToyOp],
    order: &[usize],
    first: ToyValue,
    second: ToyValue,
) -> Result<(), BenchErr> {
    let mut even = true;
    for place in order {
        let Some(op) = ops.get(*place) else {
            return Err(BenchErr::Astray);
        };
        let value = if even { first } else { second };
        operation::replace_operand(*op, ctx, 0, value)?;
        even = !even;
    }
    Ok(())
}

/// The operand of N random users of one value is replaced.
pub(crate) fn replacements<C: CpuClock>(
    watch: &mut Stopwatch<'_, C>,
    ctx: &mut ToyContext,
    ty: TypeHandle,
    count: usize,
    users: &mut Vec<ToyOp>,
    order: &mut Vec<usize>,
) -> Result<Outcome, BenchErr> {
    let (_block, value, other) = used_value(ctx, ty, count, users)?;
    fill_at_random(order, count)?;
    watch.start();
    timed_replacements(ctx, users.as_slice(), order.as_slice(), other, value)?;
    watch.stop();
    outcome(count, naming_sum(ctx, users.as_slice(), value))
}

// What is left of a wide operation whose operands were replaced.
fn wide_outcome(ctx: &ToyContext, op: ToyOp, value: ToyValue) -> Result<Outcome, BenchErr> {
    let operands = operand_count(ctx, op);
    outcome(operands, naming_sum(ctx, &[op], value))
}

// Lets so many operands of an operation name a value, from the first on.
#[inline(never)]
fn timed_from_front(
    ctx: &mut ToyContext,
    op: ToyOp,
    value: ToyValue,
    count: usize,
) -> Result<(), BenchErr> {
    for index in 0..count {
        operation::replace_operand(op, ctx, index, value)?;
    }
    Ok(())
}

/// The N operands of one operation are replaced one by one, the first first.
pub(crate) fn replaced_front<C: CpuClock>(
    watch: &mut Stopwatch<'_, C>,
    ctx: &mut ToyContext,
    ty: TypeHandle,
    count: usize,
) -> Result<Outcome, BenchErr> {
    let (op, value, other) = wide(ctx, ty, count)?;
    watch.start();
    timed_from_front(ctx, op, other, count)?;
    watch.stop();
    wide_outcome(ctx, op, value)
}

// Lets so many operands of an operation name a value, from the last on.
#[inline(never)]
fn timed_from_back(
    ctx: &mut ToyContext,
    op: ToyOp,
    value: ToyValue,
    count: usize,
) -> Result<(), BenchErr> {
    for index in (0..count).rev() {
        operation::replace_operand(op, ctx, index, value)?;
    }
    Ok(())
}

/// The N operands of one operation are replaced one by one, the last first.
pub(crate) fn replaced_back<C: CpuClock>(
    watch: &mut Stopwatch<'_, C>,
    ctx: &mut ToyContext,
    ty: TypeHandle,
    count: usize,
) -> Result<Outcome, BenchErr> {
    let (op, value, other) = wide(ctx, ty, count)?;
    watch.start();
    timed_from_back(ctx, op, other, count)?;
    watch.stop();
    wide_outcome(ctx, op, value)
}

// Lets the operands of an operation at these places name one value and the other in turn.
#[inline(never)]
fn timed_in_order(
    ctx: &mut ToyContext,
    op: ToyOp,
    order: &[usize],
    first: ToyValue,
    second: ToyValue,
) -> Result<(), BenchErr> {
    let mut even = true;
    for place in order {
        let value = if even { first } else { second };
        operation::replace_operand(op, ctx, *place, value)?;
        even = !even;
    }
    Ok(())
}

/// A random one of the N operands of one operation is replaced, N times.
pub(crate) fn replaced_random<C: CpuClock>(
    watch: &mut Stopwatch<'_, C>,
    ctx: &mut ToyContext,
    ty: TypeHandle,
    count: usize,
    order: &mut Vec<usize>,
) -> Result<Outcome, BenchErr> {
    let (op, value, other) = wide(ctx, ty, count)?;
    fill_at_random(order, count)?;
    watch.start();
    timed_in_order(ctx, op, order.as_slice(), other, value)?;
    watch.stop();
    wide_outcome(ctx, op, value)
}
