//! Sums of what a run left, which are the same for each library.

use crate::building::{ToyBlock, ToyContext, ToyOp, ToyValue};
use bench_clock::{Outcome, mix};
use ir_base::context::CoreError;
use ir_checked::error::CheckedErr;
use ir_checked::{operation, value};
use ir_core::prelude::*;
use thiserror::Error;

/// Why a run gives no outcome.
#[derive(Clone, Copy, Debug, Drop, Error)]
pub(crate) enum BenchErr {
    /// What stands there isn't what the timed part takes it to be.
    #[error("what stands there isn't what the timed part takes it to be")]
    Astray,
    /// A call can't be made, or was refused.
    #[error(transparent)]
    Checked(#[from] CheckedErr),
    /// A call was refused.
    #[error(transparent)]
    Core(#[from] CoreError),
}

/// What comes out of a run with so many units, where its checksum succeeded.
pub(crate) fn outcome(units: usize, checksum: Result<u64, BenchErr>) -> Result<Outcome, BenchErr> {
    let checksum = checksum?;
    let units = units as u64;
    Ok(Outcome { units, checksum })
}

/// Refuses an answer of a timed part that finds something wrong.
pub(crate) fn well(answer: Result<bool, BenchErr>) -> Result<(), BenchErr> {
    if answer? {
        Ok(())
    } else {
        Err(BenchErr::Astray)
    }
}

// How many results an operation has where it is live, and else 0.
fn result_count(ctx: &ToyContext, op: ToyOp) -> usize {
    match op.try_deref(ctx) {
        Ok(op) => op.get_num_results(),
        Err(_) => 0,
    }
}

/// How many operands an operation has where it is live, and else 0.
pub(crate) fn operand_count(ctx: &ToyContext, op: ToyOp) -> usize {
    match op.try_deref(ctx) {
        Ok(op) => op.get_num_operands(),
        Err(_) => 0,
    }
}

/// How many uses a value has.
pub(crate) fn uses_of(ctx: &ToyContext, value: ToyValue) -> Result<u64, BenchErr> {
    Ok(value::num_uses(value, ctx)? as u64)
}

// What an operation adds to a sum: the uses of its first result, and its operands.
fn op_number(ctx: &ToyContext, op: ToyOp) -> Result<u64, BenchErr> {
    let operands = operand_count(ctx, op) as u64;
    if result_count(ctx, op) == 0 {
        return Ok(operands);
    }
    let value = operation::get_result(op, ctx, 0)?;
    let uses = uses_of(ctx, value)?;
    Ok(uses.wrapping_mul(7).wrapping_add(operands))
}

/// Of each operation, how many uses its result and how many operands it has.
pub(crate) fn uses_sum(ctx: &ToyContext, ops: &[ToyOp]) -> Result<u64, BenchErr> {
    let mut sum = 0;
    for op in ops {
        sum = mix(sum, op_number(ctx, *op)?);
    }
    Ok(sum)
}

/// The same of the operations of a block.
pub(crate) fn block_sum(ctx: &ToyContext, block: ToyBlock) -> Result<u64, BenchErr> {
    if !block.is_live(ctx) {
        return Err(BenchErr::Astray);
    }
    let mut sum = 0;
    for op in block.iter(ctx) {
        sum = mix(sum, op_number(ctx, op)?);
    }
    Ok(sum)
}

// Of each operand of an operation, whether it names the value, behind a sum.
fn operands_added(
    ctx: &ToyContext,
    op: ToyOp,
    value: ToyValue,
    before: u64,
) -> Result<u64, BenchErr> {
    let mut sum = before;
    for index in 0..operand_count(ctx, op) {
        let named = operation::get_operand(op, ctx, index)? == value;
        sum = mix(sum, named as u64 + 1);
    }
    Ok(sum)
}

/// Of each operand of each operation, whether it names the value.
pub(crate) fn operand_sum(
    ctx: &ToyContext,
    ops: &[ToyOp],
    value: ToyValue,
) -> Result<u64, BenchErr> {
    let mut sum = 0;
    for op in ops {
        sum = operands_added(ctx, *op, value, sum)?;
    }
    Ok(sum)
}

/// Of each operand of each operation, whether it names the value, and how many uses that has.
pub(crate) fn naming_sum(
    ctx: &ToyContext,
    ops: &[ToyOp],
    value: ToyValue,
) -> Result<u64, BenchErr> {
    let sum = operand_sum(ctx, ops, value)?;
    Ok(mix(sum, uses_of(ctx, value)?))
}
