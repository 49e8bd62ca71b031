//! Results and arguments that are put in front of others.

use crate::building::{ToyBlock, ToyContext, ToyOp, ToyValue};
use crate::outcome::{BenchErr, outcome};
use bench_clock::{Outcome, Stopwatch, mix};
use ir_base::types::TypeHandle;
use ir_checked::{basic_block, operation};
use ir_core::prelude::*;
use ir_run::toy::ToyType;
use std::time::CpuClock;

// Puts so many results in front of the others, of one type and the other in turn.
#[inline(never)]
fn timed_results(
    ctx: &mut ToyContext,
    op: ToyOp,
    first: TypeHandle,
    second: TypeHandle,
    count: usize,
) -> Result<(), BenchErr> {
    for i in 0..count {
        let ty = if i % 2 == 0 { first } else { second };
        operation::insert_result(op, ctx, 0, ty)?;
    }
    Ok(())
}

// Puts so many arguments in front of the others, of one type and the other in turn.
#[inline(never)]
fn timed_arguments(
    ctx: &mut ToyContext,
    block: ToyBlock,
    first: TypeHandle,
    second: TypeHandle,
    count: usize,
) -> Result<(), BenchErr> {
    for i in 0..count {
        let ty = if i % 2 == 0 { first } else { second };
        basic_block::insert_argument(block, ctx, 0, ty)?;
    }
    Ok(())
}

// Whether a value has a type, as 2 or 1.
fn type_number(ctx: &ToyContext, value: ToyValue, ty: TypeHandle) -> Result<u64, BenchErr> {
    if !value.is_live(ctx) {
        return Err(BenchErr::Astray);
    }
    let same = value.get_type(ctx) == ty;
    Ok(same as u64 + 1)
}

// Of each of so many results, whether it has the type.
fn results_sum(ctx: &ToyContext, op: ToyOp, ty: TypeHandle, count: usize) -> Result<u64, BenchErr> {
    let mut sum = 0;
    for index in 0..count {
        let value = operation::get_result(op, ctx, index)?;
        sum = mix(sum, type_number(ctx, value, ty)?);
    }
    Ok(sum)
}

// Of each of so many arguments, whether it has the type.
fn arguments_sum(
    ctx: &ToyContext,
    block: ToyBlock,
    ty: TypeHandle,
    count: usize,
) -> Result<u64, BenchErr> {
    let mut sum = 0;
    for index in 0..count {
        let value = basic_block::get_argument(block, ctx, index)?;
        sum = mix(sum, type_number(ctx, value, ty)?);
    }
    Ok(sum)
}

/// N results are put into one operation, each in front of the others.
pub(crate) fn results_front<C: CpuClock>(
    watch: &mut Stopwatch<'_, C>,
    ctx: &mut ToyContext,
    ty: TypeHandle,
    count: usize,
) -> Result<Outcome, BenchErr> {
    let other = ctx.instantiate_key(ToyType::Int { width: 64 })?;
    let op = operation::new(ctx, 4, &[], &[], &[], 0)?;
    watch.start();
    timed_results(ctx, op, ty, other, count)?;
    watch.stop();
    outcome(count, results_sum(ctx, op, ty, count))
}

/// N arguments are put into one block, each in front of the others.
pub(crate) fn arguments_front<C: CpuClock>(
    watch: &mut Stopwatch<'_, C>,
    ctx: &mut ToyContext,
    ty: TypeHandle,
    count: usize,
) -> Result<Outcome, BenchErr> {
    let other = ctx.instantiate_key(ToyType::Int { width: 64 })?;
    let block = basic_block::new(ctx, None, &[])?;
    watch.start();
    timed_arguments(ctx, block, ty, other, count)?;
    watch.stop();
    outcome(count, arguments_sum(ctx, block, ty, count))
}
