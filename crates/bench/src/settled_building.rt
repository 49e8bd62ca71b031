//! What is built with nothing tested: operations at the back of a block, functions of a module, and users of the arguments of a block.
//!
//! A new operation or block stands in nothing, and nothing stands inside it that was there before. So it may go where there is a live place for it.

ghost use Rattle.std.specs.Prelude.{◌≡◌, ◌<◌, ◌≤◌, All, IfOk, IsTrue, OnOk, length};
ghost use Rattle.ir_base.specs.Model.declared.ids.ArenaIndex.{ArenaIndex};
ghost use Rattle.ir_base.specs.Model.Forest.{a_block, a_region, a_value, an_op, of_block};
ghost use Rattle.ir_base.specs.Model.Nesting.{Inside, IsLive, IsLiveNamed, definitions_of};
ghost use Rattle.ir_core.specs.Records.Meaning.{value_of};
ghost use Rattle.ir_core.specs.Context.Calls.{HasArguments, HasCounts, KeepsAll, NoEntity};
ghost use Rattle.ir_core.specs.Context.State.{forest_of, types_of};
ghost use Rattle.bench.specs.Settled.{AllInside, GrowsIn};

use crate::building::{ToyContext, block_and_pair};
use crate::nests::module_outcome;
use crate::outcome::{BenchErr, block_sum, outcome};
use crate::uses::wide_block;
use bench_clock::{Outcome, Stopwatch};
use ir_base::context::{CoreError, Dialects, Ptr};
use ir_base::types::TypeHandle;
use ir_core::basic_block::BasicBlock;
use ir_core::context::Context;
use ir_core::operation::Operation;
use ir_core::prelude::*;
use ir_core::region::Region;
use ir_core::value::Value;
use std::time::CpuClock;

/// Makes an operation and puts it at the back of a live block.
#[inline(always)]
pub(crate) fn add_op<D: Dialects>(
    ctx: &mut Context<D>,
    block: Ptr<BasicBlock<D>>,
    kind: u32,
    types: &[TypeHandle],
    operands: &[Value<D>],
    num_regions: usize,
) -> Result<Ptr<Operation<D>>, CoreError>
    requires types { All (λ t. t.place < length (types_of ctx.old)) types.now }
    requires operands { All (λ v. IsLiveNamed (forest_of ctx.old) (a_value (value_of v.index))) operands.now }
    requires block { IsLive (forest_of ctx.old) (a_block block.index) }
    ensures live { IfOk result (λ op. IsLive (forest_of ctx.new) (an_op op.index)) }
    ensures counts { IfOk result (λ op. HasCounts (forest_of ctx.new) op.index (length types.now) (length operands.now) 0 num_regions) }
    ensures arguments { OnOk result ((b : ArenaIndex) → definitions_of (forest_of ctx.new) (of_block b) ≡ definitions_of (forest_of ctx.old) (of_block b)) }
    ensures grows { OnOk result (GrowsIn (forest_of ctx.old) (forest_of ctx.new) (a_block block.index)) }
    ensures inside { IfOk result (λ op. Inside (forest_of ctx.new) (a_block block.index) (an_op op.index)) }
    ensures keeps { OnOk result (KeepsAll ctx.old ctx.new) }
{
    ctx.recall_well_formed();
    ctx.recall_live_was_made();
    let successors = [];
    let op = Operation::new(ctx, kind, types, operands, &successors, num_regions)?;
    op.insert_at_back(block, ctx);
    Ok(op)
}

/// Makes a block and puts it at the back of a live region.
#[inline(always)]
pub(crate) fn add_block<D: Dialects>(
    ctx: &mut Context<D>,
    region: Ptr<Region>,
    types: &[TypeHandle],
) -> Result<Ptr<BasicBlock<D>>, CoreError>
    requires types { All (λ t. t.place < length (types_of ctx.old)) types.now }
    requires region { IsLive (forest_of ctx.old) (a_region region.index) }
    ensures live { IfOk result (λ block. IsLive (forest_of ctx.new) (a_block block.index)) }
    ensures arguments { IfOk result (λ block. HasArguments (forest_of ctx.new) block.index (length types.now)) }
    ensures grows { OnOk result (GrowsIn (forest_of ctx.old) (forest_of ctx.new) (a_region region.index)) }
    ensures inside { IfOk result (λ block. Inside (forest_of ctx.new) (a_region region.index) (a_block block.index)) }
    ensures keeps { OnOk result (KeepsAll ctx.old ctx.new) }
{
    ctx.recall_well_formed();
    ctx.recall_live_was_made();
    let block = BasicBlock::new(ctx, None, types)?;
    block.insert_at_back(region, ctx);
    Ok(block)
}

// Makes so many operations at the back of a live block, each with the results of the two before as operands. Before the first come these two values.
#[inline(always)]
fn build_from<D: Dialects>(
    ctx: &mut Context<D>,
    ty: TypeHandle,
    block: Ptr<BasicBlock<D>>,
    mut first: Value<D>,
    mut second: Value<D>,
    count: usize,
) -> Result<(), CoreError>
    requires known { ty.place < length (types_of ctx.old) }
    requires block { IsLive (forest_of ctx.old) (a_block block.index) }
    requires first { IsLiveNamed (forest_of ctx.old) (a_value (value_of first.index)) }
    requires second { IsLiveNamed (forest_of ctx.old) (a_value (value_of second.index)) }
    ensures grows { OnOk result (GrowsIn (forest_of ctx.old) (forest_of ctx.new) (a_block block.index)) }
    ensures keeps { OnOk result (KeepsAll ctx.old ctx.new) }
{
    for _i in 0..count {
        let types = [ty];
        let operands = [first, second];
        let op = add_op(ctx, block, 1, &types, &operands, 0)?;
        first = second;
        second = op.deref(ctx).get_result(0);
    }
    Ok(())
}

// Makes so many operations at the back of a block.
#[inline(never)]
fn timed_building<D: Dialects>(
    ctx: &mut Context<D>,
    ty: TypeHandle,
    block: Ptr<BasicBlock<D>>,
    first: Value<D>,
    second: Value<D>,
    count: usize,
) -> Result<(), CoreError>
    requires known { ty.place < length (types_of ctx.old) }
    requires block { IsLive (forest_of ctx.old) (a_block block.index) }
    requires first { IsLiveNamed (forest_of ctx.old) (a_value (value_of first.index)) }
    requires second { IsLiveNamed (forest_of ctx.old) (a_value (value_of second.index)) }
{
    build_from(ctx, ty, block, first, second, count)
}

/// N operations at the back of a block. All of it is timed but the block.
pub(crate) fn building<C: CpuClock>(
    watch: &mut Stopwatch<'_, C>,
    ctx: &mut ToyContext,
    ty: TypeHandle,
    count: usize,
) -> Result<Outcome, BenchErr> {
    let (block, first, second) = block_and_pair(ctx, ty)?;
    if !ty.is_known(ctx) || !block.is_live(ctx) || !first.is_live(ctx) || !second.is_live(ctx) {
        return Err(BenchErr::Astray);
    }
    watch.start();
    timed_building(ctx, ty, block, first, second, count)?;
    watch.stop();
    outcome(count, block_sum(ctx, block))
}

// Makes a function at the back of a live block, and answers the function's block, which has two arguments.
#[inline(always)]
fn add_function<D: Dialects>(
    ctx: &mut Context<D>,
    ty: TypeHandle,
    outer: Ptr<BasicBlock<D>>,
) -> Result<Ptr<BasicBlock<D>>, CoreError>
    requires known { ty.place < length (types_of ctx.old) }
    requires outer { IsLive (forest_of ctx.old) (a_block outer.index) }
    ensures live { IfOk result (λ block. IsLive (forest_of ctx.new) (a_block block.index)) }
    ensures arguments { IfOk result (λ block. HasArguments (forest_of ctx.new) block.index 2) }
    ensures grows { OnOk result (GrowsIn (forest_of ctx.old) (forest_of ctx.new) (a_block outer.index)) }
    ensures inside { IfOk result (λ block. Inside (forest_of ctx.new) (a_block outer.index) (a_block block.index)) }
    ensures keeps { OnOk result (KeepsAll ctx.old ctx.new) }
{
    let function = add_op(ctx, outer, 6, &[], &[], 1)?;
    let body = function.deref(ctx).get_region(0);
    let types = [ty, ty];
    add_block(ctx, body, &types)
}

// Makes so many operations at the back of a live block with two arguments, which come before the first.
#[inline(always)]
fn build<D: Dialects>(
    ctx: &mut Context<D>,
    ty: TypeHandle,
    block: Ptr<BasicBlock<D>>,
    count: usize,
) -> Result<(), CoreError>
    requires known { ty.place < length (types_of ctx.old) }
    requires block { IsLive (forest_of ctx.old) (a_block block.index) }
    requires arguments { HasArguments (forest_of ctx.old) block.index 2 }
    ensures grows { OnOk result (GrowsIn (forest_of ctx.old) (forest_of ctx.new) (a_block block.index)) }
    ensures keeps { OnOk result (KeepsAll ctx.old ctx.new) }
{
    let record = block.deref(ctx);
    let first = record.get_argument(0);
    let second = record.get_argument(1);
    build_from(ctx, ty, block, first, second, count)
}

// Makes so many functions at the back of a live block, each with a block of five operations.
#[inline(always)]
fn add_functions<D: Dialects>(
    ctx: &mut Context<D>,
    ty: TypeHandle,
    outer: Ptr<BasicBlock<D>>,
    functions: usize,
) -> Result<(), CoreError>
    requires known { ty.place < length (types_of ctx.old) }
    requires outer { IsLive (forest_of ctx.old) (a_block outer.index) }
    ensures grows { OnOk result (GrowsIn (forest_of ctx.old) (forest_of ctx.new) (a_block outer.index)) }
    ensures keeps { OnOk result (KeepsAll ctx.old ctx.new) }
{
    for _i in 0..functions {
        let block = add_function(ctx, ty, outer)?;
        build(ctx, ty, block, 5)?;
    }
    Ok(())
}

/// Makes a module of so many functions, which is live. Where there was no operation, all are inside it.
#[inline(always)]
pub(crate) fn module<D: Dialects>(
    ctx: &mut Context<D>,
    ty: TypeHandle,
    functions: usize,
) -> Result<Ptr<Operation<D>>, CoreError>
    requires known { ty.place < length (types_of ctx.old) }
    ensures live { IfOk result (λ root. IsLive (forest_of ctx.new) (an_op root.index)) }
    ensures all { IfOk result (λ root. NoEntity (forest_of ctx.old) → AllInside (forest_of ctx.new) root.index) }
{
    ctx.recall_live_was_made();
    let root = Operation::new(ctx, 5, &[], &[], &[], 1)?;
    let inside = root.deref(ctx).get_region(0);
    let outer = add_block(ctx, inside, &[])?;
    add_functions(ctx, ty, outer, functions)?;
    Ok(root)
}

// Makes a module of so many functions.
#[inline(never)]
fn timed_module<D: Dialects>(
    ctx: &mut Context<D>,
    ty: TypeHandle,
    functions: usize,
) -> Result<(), CoreError>
    requires { ty.place < length (types_of ctx.old) }
{
    module(ctx, ty, functions)?;
    Ok(())
}

/// A module of N/8 functions is built. The units are the entities.
pub(crate) fn module_built<C: CpuClock>(
    watch: &mut Stopwatch<'_, C>,
    ctx: &mut ToyContext,
    ty: TypeHandle,
    count: usize,
) -> Result<Outcome, BenchErr> {
    if !ty.is_known(ctx) {
        return Err(BenchErr::Astray);
    }
    watch.start();
    timed_module(ctx, ty, count / 8)?;
    watch.stop();
    Ok(module_outcome(count / 8))
}

// Makes an operation for each of the first so many arguments of a live block, at its back, that uses the argument.
#[inline(never)]
fn timed_argument_users<D: Dialects>(
    ctx: &mut Context<D>,
    block: Ptr<BasicBlock<D>>,
    count: usize,
) -> Result<(), CoreError>
    requires block { IsLive (forest_of ctx.old) (a_block block.index) }
    requires arguments { count ≤ length (definitions_of (forest_of ctx.old) (of_block block.index)) }
{
    let types = [];
    for index in 0..count {
        let value = block.deref(ctx).get_argument(index);
        let operands = [value];
        add_op(ctx, block, 4, &types, &operands, 0)?;
    }
    Ok(())
}

// Whether a block is live, and has so many arguments or more.
fn has_arguments<D: Dialects>(ctx: &Context<D>, block: Ptr<BasicBlock<D>>, count: usize) -> bool
    ensures live { IsTrue result → IsLive (forest_of ctx.now) (a_block block.index) }
    ensures arguments { IsTrue result → count ≤ length (definitions_of (forest_of ctx.now) (of_block block.index)) }
{
    match block.try_deref(ctx) {
        Ok(record) => count <= record.get_num_arguments(),
        Err(_) => false,
    }
}

/// Over a block of N arguments, an operation for each that uses it. The block's making isn't timed.
pub(crate) fn argument_users<C: CpuClock>(
    watch: &mut Stopwatch<'_, C>,
    ctx: &mut ToyContext,
    ty: TypeHandle,
    count: usize,
) -> Result<Outcome, BenchErr> {
    let block = wide_block(ctx, ty, count)?;
    if !has_arguments(ctx, block, count) {
        return Err(BenchErr::Astray);
    }
    watch.start();
    timed_argument_users(ctx, block, count)?;
    watch.stop();
    outcome(count, block_sum(ctx, block))
}
