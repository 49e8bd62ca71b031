//! A module and a deep nest that are verified.

use crate::building::{ToyBlock, ToyContext, ToyOp, add_op, build};
use crate::nests::{add_function, module_outcome, nest_from_above, nest_outcome, with_block};
use crate::outcome::{BenchErr, well};
use bench_clock::{Outcome, Stopwatch};
use ir_base::types::TypeHandle;
use ir_core::prelude::*;
use ir_run::toy::ToyVerifiers;
use ir_verify::verify::verify_operation;
use std::time::CpuClock;

// Makes a function at the back of a block, with a block of four operations and a terminator.
fn add_ended_function(
    ctx: &mut ToyContext,
    ty: TypeHandle,
    outer: ToyBlock,
) -> Result<(), BenchErr> {
    let block = add_function(ctx, ty, outer)?;
    build(ctx, ty, block, 4)?;
    add_op(ctx, block, 2, &[], &[], 0)?;
    Ok(())
}

// Makes a module of so many functions, each with a block of four operations and a terminator.
fn ended_module(ctx: &mut ToyContext, ty: TypeHandle, functions: usize) -> Result<ToyOp, BenchErr> {
    let (root, outer) = with_block(ctx, 5)?;
    for _i in 0..functions {
        add_ended_function(ctx, ty, outer)?;
    }
    Ok(root)
}

// Whether an operation is live, and verified with all that is inside it by Toy's checks.
#[inline(never)]
fn timed_verifying(ctx: &ToyContext, op: ToyOp) -> bool {
    if !op.is_live(ctx) {
        return false;
    }
    verify_operation(op, ctx, &ToyVerifiers).is_ok()
}

/// A module of N/8 functions is verified: the one that is erased, but that the last operation of each function ends its block. Its building isn't timed. The units are the entities.
pub(crate) fn verifying<C: CpuClock>(
    watch: &mut Stopwatch<'_, C>,
    ctx: &mut ToyContext,
    ty: TypeHandle,
    count: usize,
) -> Result<Outcome, BenchErr> {
    let root = ended_module(ctx, ty, count / 8)?;
    watch.start();
    well(Ok(timed_verifying(ctx, root)))?;
    watch.stop();
    Ok(module_outcome(count / 8))
}

/// A nest N/3 deep is verified. Its building isn't timed. The units are the entities.
pub(crate) fn verifying_deep<C: CpuClock>(
    watch: &mut Stopwatch<'_, C>,
    ctx: &mut ToyContext,
    count: usize,
) -> Result<Outcome, BenchErr> {
    let (outer, _inner) = nest_from_above(ctx, count / 3)?;
    watch.start();
    well(Ok(timed_verifying(ctx, outer)))?;
    watch.stop();
    Ok(nest_outcome(count / 3))
}
