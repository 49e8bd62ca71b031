//! Nests of operations that are built and erased with all inside, with nothing tested.
//!
//! Where there was no operation, all are inside the outermost one that is made. So nothing outside names what is inside, and it may go.

ghost use Rattle.std.specs.Prelude.{◌<◌, IfOk, OnOk, length};
ghost use Rattle.ir_base.specs.Model.Forest.{an_op};
ghost use Rattle.ir_base.specs.Model.Nesting.{Inside, IsClosed, IsLive, regions_of};
ghost use Rattle.ir_core.specs.Context.Calls.{KeepsAll, NoEntity};
ghost use Rattle.ir_core.specs.Context.State.{forest_of};
ghost use Rattle.bench.specs.Settled.{AllInside, GrowsIn};

use crate::building::{ToyContext, ToyOp};
use crate::nests::{module_outcome, nest_outcome};
use crate::outcome::{BenchErr, well};
use crate::settled_building::{add_block, add_op, module};
use bench_clock::{Outcome, Stopwatch};
use ir_base::context::{CoreError, Dialects, Ptr};
use ir_base::types::TypeHandle;
use ir_core::context::Context;
use ir_core::operation::Operation;
use ir_core::prelude::*;
use std::time::CpuClock;

// Puts a level into a live operation with a region: a block with an operation of one region, which it answers.
#[inline(always)]
fn level_inside<D: Dialects>(
    ctx: &mut Context<D>,
    outer: Ptr<Operation<D>>,
) -> Result<Ptr<Operation<D>>, CoreError>
    requires live { IsLive (forest_of ctx.old) (an_op outer.index) }
    requires region { 0 < length (regions_of (forest_of ctx.old) outer.index) }
    ensures live { IfOk result (λ op. IsLive (forest_of ctx.new) (an_op op.index)) }
    ensures region { IfOk result (λ op. 0 < length (regions_of (forest_of ctx.new) op.index)) }
    ensures grows { OnOk result (GrowsIn (forest_of ctx.old) (forest_of ctx.new) (an_op outer.index)) }
    ensures inside { IfOk result (λ op. Inside (forest_of ctx.new) (an_op outer.index) (an_op op.index)) }
    ensures keeps { OnOk result (KeepsAll ctx.old ctx.new) }
{
    let inside = outer.deref(ctx).get_region(0);
    let block = add_block(ctx, inside, &[])?;
    add_op(ctx, block, 5, &[], &[], 1)
}

// Puts so many levels into a live operation with a region, each into the one before.
fn nest_inside<D: Dialects>(
    ctx: &mut Context<D>,
    outer: Ptr<Operation<D>>,
    levels: usize,
) -> Result<(), CoreError>
    requires live { IsLive (forest_of ctx.old) (an_op outer.index) }
    requires region { 0 < length (regions_of (forest_of ctx.old) outer.index) }
    ensures grows { OnOk result (GrowsIn (forest_of ctx.old) (forest_of ctx.new) (an_op outer.index)) }
    ensures keeps { OnOk result (KeepsAll ctx.old ctx.new) }
{
    let mut inner = outer;
    for _i in 0..levels {
        inner = level_inside(ctx, inner)?;
    }
    Ok(())
}

// Makes a nest so many levels deep, each of a region, a block and an operation, from the outermost on, and answers that one, which is live. Where there was no operation, all are inside it.
fn nest<D: Dialects>(ctx: &mut Context<D>, levels: usize) -> Result<Ptr<Operation<D>>, CoreError>
    ensures live { IfOk result (λ outer. IsLive (forest_of ctx.new) (an_op outer.index)) }
    ensures all { IfOk result (λ outer. NoEntity (forest_of ctx.old) → AllInside (forest_of ctx.new) outer.index) }
{
    ctx.recall_live_was_made();
    let outer = Operation::new(ctx, 5, &[], &[], &[], 1)?;
    nest_inside(ctx, outer, levels)?;
    Ok(outer)
}

// Erases a live operation with all that stands inside it, where nothing outside names what is inside.
#[inline(never)]
fn timed_erase<D: Dialects>(ctx: &mut Context<D>, op: Ptr<Operation<D>>)
    requires live { IsLive (forest_of ctx.old) (an_op op.index) }
    requires closed { IsClosed (forest_of ctx.old) (an_op op.index) }
{
    op.erase(ctx);
}

// Erases a live operation inside which all others stand, and asks whether any is left.
fn erase_all<C: CpuClock>(
    watch: &mut Stopwatch<'_, C>,
    ctx: &mut ToyContext,
    op: ToyOp,
) -> Result<(), BenchErr>
    requires live { IsLive (forest_of ctx.old) (an_op op.index) }
    requires all { AllInside (forest_of ctx.old) op.index }
{
    watch.start();
    timed_erase(ctx, op);
    watch.stop();
    well(Ok(ctx.is_ir_empty()))
}

/// A module of N/8 functions is erased; its building isn't timed. The units are the entities.
pub(crate) fn module_erased<C: CpuClock>(
    watch: &mut Stopwatch<'_, C>,
    ctx: &mut ToyContext,
    ty: TypeHandle,
    count: usize,
) -> Result<Outcome, BenchErr> {
    if !ty.is_known(ctx) || !ctx.is_ir_empty() {
        return Err(BenchErr::Astray);
    }
    let root = module(ctx, ty, count / 8)?;
    erase_all(watch, ctx, root)?;
    Ok(module_outcome(count / 8))
}

/// A nest N/3 deep is erased; its building isn't timed. The units are the entities.
pub(crate) fn deep<C: CpuClock>(
    watch: &mut Stopwatch<'_, C>,
    ctx: &mut ToyContext,
    count: usize,
) -> Result<Outcome, BenchErr> {
    if !ctx.is_ir_empty() {
        return Err(BenchErr::Astray);
    }
    let outer = nest(ctx, count / 3)?;
    erase_all(watch, ctx, outer)?;
    Ok(nest_outcome(count / 3))
}
