//! Operands that are put in, taken out and replaced with nothing tested, and uses that come to name other values.
//!
//! What is live stays live, and a place below the number of operands that was kept count of is in range.

ghost use Rattle.std.specs.Prelude.{◌≡◌, ◌+◌, ◌<◌, ◌≤◌, All, IsTrue, OnOk, length};
ghost use Rattle.ir_base.specs.Model.Forest.{a_value, an_op};
ghost use Rattle.ir_base.specs.Model.Nesting.{IsLive, IsLiveNamed, operands_of};
ghost use Rattle.ir_core.specs.Records.Meaning.{value_of};
ghost use Rattle.ir_core.specs.Context.Calls.{KeepsAll};
ghost use Rattle.ir_core.specs.Context.State.{forest_of};

use crate::building::{ToyContext, ToyOp, ToyValue, add_op, used_value, wide};
use crate::operands::{op_and_argument, uses_and_operands};
use crate::outcome::{BenchErr, naming_sum, operand_sum, outcome, uses_of};
use crate::random::fill_at_random;
use crate::uses::{both_uses, returned_sum};
use bench_clock::{Outcome, Stopwatch, mix};
use ir_base::context::{CoreError, Dialects, Ptr};
use ir_base::types::TypeHandle;
use ir_core::context::Context;
use ir_core::operation::Operation;
use ir_core::prelude::*;
use ir_core::value::Value;
use std::time::CpuClock;

// Lets all that names a live value name another one.
#[inline(never)]
fn timed_replacing<D: Dialects>(
    ctx: &mut Context<D>,
    value: Value<D>,
    other: Value<D>,
) -> Result<(), CoreError>
    requires value { IsLiveNamed (forest_of ctx.old) (a_value (value_of value.index)) }
    requires other { IsLiveNamed (forest_of ctx.old) (a_value (value_of other.index)) }
    ensures { KeepsAll ctx.old ctx.new }
{
    value.replace_all_uses_with(ctx, other)
}

// Lets all uses of one live value name another, and back, and answers how many uses the two had between.
fn there_and_back<C: CpuClock>(
    watch: &mut Stopwatch<'_, C>,
    ctx: &mut ToyContext,
    value: ToyValue,
    other: ToyValue,
) -> Result<u64, BenchErr> {
    if !value.is_live(ctx) || !other.is_live(ctx) {
        return Err(BenchErr::Astray);
    }
    watch.start();
    timed_replacing(ctx, value, other)?;
    watch.stop();
    let between = both_uses(ctx, value, other)?;
    watch.start();
    timed_replacing(ctx, other, value)?;
    watch.stop();
    Ok(between)
}

/// N operations use one value; all these uses come to name another value, and back. The units are the 2 N uses.
pub(crate) fn replacing<C: CpuClock>(
    watch: &mut Stopwatch<'_, C>,
    ctx: &mut ToyContext,
    ty: TypeHandle,
    count: usize,
    users: &mut Vec<ToyOp>,
) -> Result<Outcome, BenchErr> {
    let (_block, value, other) = used_value(ctx, ty, count, users)?;
    let between = there_and_back(watch, ctx, value, other)?;
    let checksum = returned_sum(ctx, users.as_slice(), value, other, between);
    outcome(count.wrapping_mul(2), checksum)
}

/// The same with all uses in one operation.
pub(crate) fn replacing_in_one<C: CpuClock>(
    watch: &mut Stopwatch<'_, C>,
    ctx: &mut ToyContext,
    ty: TypeHandle,
    count: usize,
) -> Result<Outcome, BenchErr> {
    let (op, value, other) = wide(ctx, ty, count)?;
    there_and_back(watch, ctx, value, other)?;
    outcome(count.wrapping_mul(2), operand_sum(ctx, &[op], value))
}

// Puts an operand that names the live value behind the others of a live operation and takes it out again, so often.
#[inline(never)]
fn timed_push_and_remove<D: Dialects>(
    ctx: &mut Context<D>,
    op: Ptr<Operation<D>>,
    value: Value<D>,
    count: usize,
) -> Result<(), CoreError>
    requires op { IsLive (forest_of ctx.old) (an_op op.index) }
    requires value { IsLiveNamed (forest_of ctx.old) (a_value (value_of value.index)) }
{
    for _i in 0..count {
        let index = op.push_operand(ctx, value)?;
        op.remove_operand(ctx, index);
    }
    Ok(())
}

/// An operand that names a value with N other uses is put in and taken out, N times.
pub(crate) fn push_and_remove<C: CpuClock>(
    watch: &mut Stopwatch<'_, C>,
    ctx: &mut ToyContext,
    ty: TypeHandle,
    count: usize,
    users: &mut Vec<ToyOp>,
) -> Result<Outcome, BenchErr> {
    let (block, value, _other) = used_value(ctx, ty, count, users)?;
    let op = add_op(ctx, block, 4, &[], &[], 0)?;
    if !op.is_live(ctx) || !value.is_live(ctx) {
        return Err(BenchErr::Astray);
    }
    watch.start();
    timed_push_and_remove(ctx, op, value, count)?;
    watch.stop();
    outcome(count, uses_and_operands(ctx, value, op))
}

// Puts so many operands that name the live value behind the others of a live operation.
#[inline(never)]
fn timed_pushes<D: Dialects>(
    ctx: &mut Context<D>,
    op: Ptr<Operation<D>>,
    value: Value<D>,
    count: usize,
) -> Result<(), CoreError>
    requires op { IsLive (forest_of ctx.old) (an_op op.index) }
    requires value { IsLiveNamed (forest_of ctx.old) (a_value (value_of value.index)) }
    ensures live { OnOk result (IsLive (forest_of ctx.new) (an_op op.index)) }
    ensures pushed { OnOk result (count ≤ length (operands_of (forest_of ctx.new) op.index)) }
{
    for _pushed in 0..count {
        op.push_operand(ctx, value)?;
    }
    Ok(())
}

// Takes the first so many operands of a live operation out, from the last of them on.
#[inline(never)]
fn timed_removals<D: Dialects>(ctx: &mut Context<D>, op: Ptr<Operation<D>>, count: usize)
    requires op { IsLive (forest_of ctx.old) (an_op op.index) }
    requires within { count ≤ length (operands_of (forest_of ctx.old) op.index) }
{
    let mut left = count;
    while left > 0 {
        left -= 1;
        op.remove_operand(ctx, left);
    }
}

// Puts so many operands that name the value in and takes them out again, and answers how many uses it had between.
fn push_and_remove_all(
    ctx: &mut ToyContext,
    op: ToyOp,
    value: ToyValue,
    count: usize,
) -> Result<u64, BenchErr> {
    if !op.is_live(ctx) || !value.is_live(ctx) {
        return Err(BenchErr::Astray);
    }
    timed_pushes(ctx, op, value, count)?;
    let middle = uses_of(ctx, value)?;
    timed_removals(ctx, op, count);
    Ok(middle)
}

/// N operands are put into one operation, and taken out from the last on.
pub(crate) fn pushes_and_removals<C: CpuClock>(
    watch: &mut Stopwatch<'_, C>,
    ctx: &mut ToyContext,
    ty: TypeHandle,
    count: usize,
) -> Result<Outcome, BenchErr> {
    let (op, value) = op_and_argument(ctx, ty)?;
    watch.start();
    let middle = push_and_remove_all(ctx, op, value, count)?;
    watch.stop();
    let left = uses_of(ctx, value)?;
    outcome(count, Ok(mix(middle, left)))
}

// Lets the first operand of the operations at these places name one live value and the other in turn.
#[inline(never)]
fn timed_replacements<D: Dialects>(
    ctx: &mut Context<D>,
    ops: &[Ptr<Operation<D>>],
    order: &[usize],
    first: Value<D>,
    second: Value<D>,
) -> Result<(), CoreError>
    requires users { All (λ op. 0 < length (operands_of (forest_of ctx.old) op.index)) ops.now }
    requires order { All (λ place. place < length ops.now) order.now }
    requires first { IsLiveNamed (forest_of ctx.old) (a_value (value_of first.index)) }
    requires second { IsLiveNamed (forest_of ctx.old) (a_value (value_of second.index)) }
{
    let mut even = true;
    for place in order {
        let op = ops[*place];
        let value = if even { first } else { second };
        op.replace_operand(ctx, 0, value)?;
        even = !even;
    }
    Ok(())
}

// Whether an operation is live and has an operand.
fn is_user<D: Dialects>(ctx: &Context<D>, op: Ptr<Operation<D>>) -> bool
    ensures { IsTrue result → 0 < length (operands_of (forest_of ctx.now) op.index) }
{
    match op.try_deref(ctx) {
        Ok(record) => record.get_num_operands() > 0,
        Err(_) => false,
    }
}

// Whether each of these operations is live and has an operand.
fn are_users<D: Dialects>(ctx: &Context<D>, ops: &[Ptr<Operation<D>>]) -> bool
    ensures { IsTrue result → All (λ op. 0 < length (operands_of (forest_of ctx.now) op.index)) ops.now }
{
    ops.iter().all(|op| is_user(ctx, *op))
}

// Whether each of these places is below a number.
fn are_below(places: &[usize], count: usize) -> bool
    ensures { IsTrue result → All (λ place. place < count) places.now }
{
    places.iter().all(|place| *place < count)
}

/// The operand of N random users of one value is replaced.
pub(crate) fn replacements<C: CpuClock>(
    watch: &mut Stopwatch<'_, C>,
    ctx: &mut ToyContext,
    ty: TypeHandle,
    count: usize,
    users: &mut Vec<ToyOp>,
    order: &mut Vec<usize>,
) -> Result<Outcome, BenchErr> {
    let (_block, value, other) = used_value(ctx, ty, count, users)?;
    fill_at_random(order, count)?;
    let ops = users.as_slice();
    let places = order.as_slice();
    if !value.is_live(ctx) || !other.is_live(ctx) {
        return Err(BenchErr::Astray);
    }
    if !are_users(ctx, ops) || !are_below(places, ops.len()) {
        return Err(BenchErr::Astray);
    }
    watch.start();
    timed_replacements(ctx, ops, places, other, value)?;
    watch.stop();
    outcome(count, naming_sum(ctx, ops, value))
}
