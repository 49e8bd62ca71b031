//! Nests of operations: what is built, asked, verified, and erased with all inside.

use crate::building::{ToyBlock, ToyContext, ToyOp, add_block, add_op, build};
use crate::outcome::{BenchErr, well};
use bench_clock::{Outcome, Stopwatch};
use ir_base::types::TypeHandle;
use ir_checked::{basic_block, entity, operation};
use ir_core::context::{Entity, is_inside};
use std::time::CpuClock;

/// Makes an operation with one region and a block in it, and answers both.
pub(crate) fn with_block(ctx: &mut ToyContext, kind: u32) -> Result<(ToyOp, ToyBlock), BenchErr> {
    let op = operation::new(ctx, kind, &[], &[], &[], 1)?;
    let inside = operation::get_region(op, ctx, 0)?;
    let block = add_block(ctx, inside, &[])?;
    Ok((op, block))
}

/// Makes a function at the back of a block, and answers the function's block, which has two arguments.
pub(crate) fn add_function(
    ctx: &mut ToyContext,
    ty: TypeHandle,
    outer: ToyBlock,
) -> Result<ToyBlock, BenchErr> {
    let function = add_op(ctx, outer, 6, &[], &[], 1)?;
    let body = operation::get_region(function, ctx, 0)?;
    add_block(ctx, body, &[ty, ty])
}

// Makes so many functions at the back of a block, each with a block of five operations.
fn add_functions(
    ctx: &mut ToyContext,
    ty: TypeHandle,
    outer: ToyBlock,
    functions: usize,
) -> Result<(), BenchErr> {
    for _i in 0..functions {
        let block = add_function(ctx, ty, outer)?;
        build(ctx, ty, block, 5)?;
    }
    Ok(())
}

// Makes a module of so many functions.
fn module(ctx: &mut ToyContext, ty: TypeHandle, functions: usize) -> Result<ToyOp, BenchErr> {
    let (root, outer) = with_block(ctx, 5)?;
    add_functions(ctx, ty, outer, functions)?;
    Ok(root)
}

// Makes a module of so many functions.
#[inline(never)]
fn timed_module(ctx: &mut ToyContext, ty: TypeHandle, functions: usize) -> Result<(), BenchErr> {
    module(ctx, ty, functions)?;
    Ok(())
}

/// What comes of a module of so many functions that was built, erased or verified. The units are its entities, itself counted.
pub(crate) fn module_outcome(functions: usize) -> Outcome {
    let entities = (functions as u64).wrapping_mul(8).wrapping_add(3);
    Outcome {
        units: entities,
        checksum: entities,
    }
}

/// A module of N/8 functions is built. The units are the entities.
pub(crate) fn module_built<C: CpuClock>(
    watch: &mut Stopwatch<'_, C>,
    ctx: &mut ToyContext,
    ty: TypeHandle,
    count: usize,
) -> Result<Outcome, BenchErr> {
    watch.start();
    timed_module(ctx, ty, count / 8)?;
    watch.stop();
    Ok(module_outcome(count / 8))
}

// Erases an operation with all that stands inside it, where nothing outside names what is inside.
#[inline(never)]
fn timed_erase(ctx: &mut ToyContext, op: ToyOp) -> Result<(), BenchErr> {
    Ok(operation::erase(op, ctx)?)
}

// Erases an operation inside which all others stand, and asks whether any is left.
fn erase_all<C: CpuClock>(
    watch: &mut Stopwatch<'_, C>,
    ctx: &mut ToyContext,
    op: ToyOp,
) -> Result<(), BenchErr> {
    watch.start();
    timed_erase(ctx, op)?;
    watch.stop();
    well(Ok(ctx.is_ir_empty()))
}

/// A module of N/8 functions is erased, after it was asked whether it can be; its building isn't timed. The units are the entities.
pub(crate) fn module_erased<C: CpuClock>(
    watch: &mut Stopwatch<'_, C>,
    ctx: &mut ToyContext,
    ty: TypeHandle,
    count: usize,
) -> Result<Outcome, BenchErr> {
    let root = module(ctx, ty, count / 8)?;
    erase_all(watch, ctx, root)?;
    Ok(module_outcome(count / 8))
}

// Puts a level into an operation: a block with an operation of one region, which it answers.
fn level_inside(ctx: &mut ToyContext, outer: ToyOp) -> Result<ToyOp, BenchErr> {
    let inside = operation::get_region(outer, ctx, 0)?;
    let block = add_block(ctx, inside, &[])?;
    add_op(ctx, block, 5, &[], &[], 1)
}

// Puts so many levels into an operation, each into the one before, and answers the innermost operation.
fn nest_inside(ctx: &mut ToyContext, outer: ToyOp, levels: usize) -> Result<ToyOp, BenchErr> {
    let mut inner = outer;
    for _i in 0..levels {
        inner = level_inside(ctx, inner)?;
    }
    Ok(inner)
}

/// Makes a nest so many levels deep, each of a region, a block and an operation, from the outermost on, and answers its ends: the outer one first.
pub(crate) fn nest_from_above(
    ctx: &mut ToyContext,
    levels: usize,
) -> Result<(ToyOp, ToyOp), BenchErr> {
    let outer = operation::new(ctx, 5, &[], &[], &[], 1)?;
    let inner = nest_inside(ctx, outer, levels)?;
    Ok((outer, inner))
}

// Puts an operation into a new block, and that into the region of a new operation, which it answers.
fn wrap(ctx: &mut ToyContext, op: ToyOp) -> Result<ToyOp, BenchErr> {
    let block = basic_block::new(ctx, None, &[])?;
    operation::insert_at_back(op, block, ctx)?;
    let outer = operation::new(ctx, 5, &[], &[], &[], 1)?;
    let inside = operation::get_region(outer, ctx, 0)?;
    basic_block::insert_at_back(block, inside, ctx)?;
    Ok(outer)
}

// Makes such a nest from the innermost on, and answers its ends: the outer one first.
fn nest_from_below(ctx: &mut ToyContext, levels: usize) -> Result<(ToyOp, ToyOp), BenchErr> {
    let inner = operation::new(ctx, 5, &[], &[], &[], 1)?;
    let mut outer = inner;
    for _i in 0..levels {
        outer = wrap(ctx, outer)?;
    }
    Ok((outer, inner))
}

// Whether the one operation is inside the other, and that isn't inside the one.
fn is_below(ctx: &ToyContext, inner: ToyOp, outer: ToyOp) -> bool {
    let down = is_inside(ctx, Entity::Op(inner), Entity::Op(outer));
    down && !is_inside(ctx, Entity::Op(outer), Entity::Op(inner))
}

// Makes a nest from above, and asks whether each end is inside the other: where there is a level, the inner one is, and the outer one isn't.
#[inline(never)]
fn timed_nest_above(ctx: &mut ToyContext, levels: usize) -> Result<bool, BenchErr> {
    let (outer, inner) = nest_from_above(ctx, levels)?;
    Ok(is_below(ctx, inner, outer) || levels == 0)
}

// Makes a nest from below, and asks the same.
#[inline(never)]
fn timed_nest_below(ctx: &mut ToyContext, levels: usize) -> Result<bool, BenchErr> {
    let (outer, inner) = nest_from_below(ctx, levels)?;
    Ok(is_below(ctx, inner, outer) || levels == 0)
}

/// What comes of a nest so many levels deep that was built, asked, erased or verified.
pub(crate) fn nest_outcome(levels: usize) -> Outcome {
    let levels = levels as u64;
    Outcome {
        units: levels.wrapping_mul(3).wrapping_add(2),
        checksum: levels,
    }
}

/// A nest N/3 deep is built from the outermost operation on, and its ends are asked whether each is inside the other. The units are the entities.
pub(crate) fn nest_above<C: CpuClock>(
    watch: &mut Stopwatch<'_, C>,
    ctx: &mut ToyContext,
    count: usize,
) -> Result<Outcome, BenchErr> {
    watch.start();
    well(timed_nest_above(ctx, count / 3))?;
    watch.stop();
    Ok(nest_outcome(count / 3))
}

/// The same from the innermost operation on.
pub(crate) fn nest_below<C: CpuClock>(
    watch: &mut Stopwatch<'_, C>,
    ctx: &mut ToyContext,
    count: usize,
) -> Result<Outcome, BenchErr> {
    watch.start();
    well(timed_nest_below(ctx, count / 3))?;
    watch.stop();
    Ok(nest_outcome(count / 3))
}

// Drops all uses inside an operation, and tells whether it can be erased.
#[inline(never)]
fn timed_asking(ctx: &mut ToyContext, op: ToyOp) -> Result<bool, BenchErr> {
    operation::drop_all_uses(op, ctx)?;
    Ok(entity::can_erase(ctx, Entity::Op(op))?)
}

/// In a nest N/3 deep all uses are dropped, and it is asked whether it can be erased. The units are the entities.
pub(crate) fn deep_asked<C: CpuClock>(
    watch: &mut Stopwatch<'_, C>,
    ctx: &mut ToyContext,
    count: usize,
) -> Result<Outcome, BenchErr> {
    let (outer, _inner) = nest_from_above(ctx, count / 3)?;
    watch.start();
    well(timed_asking(ctx, outer))?;
    watch.stop();
    Ok(nest_outcome(count / 3))
}

/// A nest N/3 deep, whose uses were dropped, is erased, after it was asked whether it can be. The units are the entities.
pub(crate) fn deep<C: CpuClock>(
    watch: &mut Stopwatch<'_, C>,
    ctx: &mut ToyContext,
    count: usize,
) -> Result<Outcome, BenchErr> {
    let (outer, _inner) = nest_from_above(ctx, count / 3)?;
    operation::drop_all_uses(outer, ctx)?;
    erase_all(watch, ctx, outer)?;
    Ok(nest_outcome(count / 3))
}
