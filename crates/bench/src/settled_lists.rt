//! Operations that are moved between blocks, and blocks between regions, with nothing tested.
//!
//! A block that stands in nothing is inside no operation, so an operation that was taken out of one may go into another.

ghost use Rattle.std.specs.Prelude.{All, IsTrue};
ghost use Rattle.ir_base.specs.Model.declared.ids.ArenaIndex.{ArenaIndex};
ghost use Rattle.ir_base.specs.Model.Forest.{a_block, a_region, an_op};
ghost use Rattle.ir_base.specs.Model.Nesting.{In, IsLinked, IsLive, regions_of};
ghost use Rattle.ir_core.specs.Context.State.{forest_of};
ghost use Rattle.bench.specs.Settled.{StandsFree};

use crate::building::{ToyContext, ToyOp, add_marked};
use crate::lists::{add_blocks, arguments_sum, both_sums, two_blocks, two_places, two_regions};
use crate::outcome::{BenchErr, block_sum, outcome};
use crate::random::Random;
use bench_clock::{Outcome, Stopwatch};
use ir_base::context::{Dialects, Ptr};
use ir_base::types::TypeHandle;
use ir_core::basic_block::BasicBlock;
use ir_core::context::Context;
use ir_core::operation::Operation;
use ir_core::prelude::*;
use ir_core::region::Region;
use std::time::CpuClock;

// Takes so many operations from the front of a live block and puts each at the back of another one, which stands in nothing.
#[inline(never)]
fn timed_front_to_back<D: Dialects>(
    ctx: &mut Context<D>,
    from: Ptr<BasicBlock<D>>,
    to: Ptr<BasicBlock<D>>,
    count: usize,
) -> Result<(), BenchErr>
    requires from { IsLive (forest_of ctx.old) (a_block from.index) }
    requires to { IsLive (forest_of ctx.old) (a_block to.index) }
    requires free { IsLinked (forest_of ctx.old) (a_block to.index) → ⊥ }
{
    for _i in 0..count {
        let Some(op) = from.get_head(ctx) else {
            return Err(BenchErr::Astray);
        };
        op.unlink(ctx);
        op.insert_at_back(to, ctx);
    }
    Ok(())
}

/// N operations one by one from the front of one block to the back of another. Their making isn't timed.
pub(crate) fn front_to_back<C: CpuClock>(
    watch: &mut Stopwatch<'_, C>,
    ctx: &mut ToyContext,
    ty: TypeHandle,
    count: usize,
    made: &mut Vec<ToyOp>,
) -> Result<Outcome, BenchErr> {
    let (from, to, value) = two_blocks(ctx, ty)?;
    add_marked(ctx, from, from, value, count, made)?;
    if !from.is_live(ctx) || !to.is_live(ctx) || to.is_linked(ctx) {
        return Err(BenchErr::Astray);
    }
    watch.start();
    timed_front_to_back(ctx, from, to, count)?;
    watch.stop();
    outcome(count, block_sum(ctx, to))
}

// Puts an operation before another one, where both stand in blocks that stand in nothing. Where both are one, it stays where it is.
#[inline(always)]
fn put_before<D: Dialects>(ctx: &mut Context<D>, op: Ptr<Operation<D>>, mark: Ptr<Operation<D>>)
    requires op { StandsFree (forest_of ctx.old) op.index }
    requires mark { StandsFree (forest_of ctx.old) mark.index }
    ensures { (p : ArenaIndex) → StandsFree (forest_of ctx.old) p → StandsFree (forest_of ctx.new) p }
{
    if mark.index == op.index {
        return;
    }
    op.unlink(ctx);
    op.insert_before(ctx, mark);
}

// Puts a random operation before another random one, as often as there are operations.
#[inline(never)]
fn timed_random_moves<D: Dialects>(
    ctx: &mut Context<D>,
    ops: &[Ptr<Operation<D>>],
    random: &mut Random,
)
    requires { All (λ op. StandsFree (forest_of ctx.old) op.index) ops.now }
{
    let count = ops.len();
    for _i in 0..count {
        let (one, other) = two_places(random, count);
        let op = ops[one];
        let mark = ops[other];
        put_before(ctx, op, mark);
    }
}

// Whether an operation stands in a block that stands in nothing.
fn stands_free<D: Dialects>(ctx: &Context<D>, op: Ptr<Operation<D>>) -> bool
    ensures { IsTrue result → StandsFree (forest_of ctx.now) op.index }
{
    if !op.is_live(ctx) {
        return false;
    }
    match op.get_parent_block(ctx) {
        Some(block) => !block.is_linked(ctx),
        None => false,
    }
}

// Whether each of these operations does.
fn all_stand_free<D: Dialects>(ctx: &Context<D>, ops: &[Ptr<Operation<D>>]) -> bool
    ensures { IsTrue result → All (λ op. StandsFree (forest_of ctx.now) op.index) ops.now }
{
    ops.iter().all(|op| stands_free(ctx, *op))
}

/// Over two blocks of N operations together, a random operation before a random one, N times. Their making isn't timed.
pub(crate) fn random_moves<C: CpuClock>(
    watch: &mut Stopwatch<'_, C>,
    ctx: &mut ToyContext,
    ty: TypeHandle,
    count: usize,
    made: &mut Vec<ToyOp>,
) -> Result<Outcome, BenchErr> {
    let (even, odd, value) = two_blocks(ctx, ty)?;
    add_marked(ctx, even, odd, value, count, made)?;
    let ops = made.as_slice();
    let mut random = Random::new();
    if !all_stand_free(ctx, ops) {
        return Err(BenchErr::Astray);
    }
    watch.start();
    timed_random_moves(ctx, ops, &mut random);
    watch.stop();
    outcome(count, both_sums(ctx, even, odd))
}

// Takes so many blocks from the front of a live region and puts each at the back of another one, of an operation that stands in nothing.
#[inline(never)]
fn timed_blocks<D: Dialects>(
    ctx: &mut Context<D>,
    module: Ptr<Operation<D>>,
    from: Ptr<Region>,
    to: Ptr<Region>,
    count: usize,
) -> Result<(), BenchErr>
    requires from { IsLive (forest_of ctx.old) (a_region from.index) }
    requires to { IsLive (forest_of ctx.old) (a_region to.index) }
    requires stands { In to.index (regions_of (forest_of ctx.old) module.index) }
    requires free { IsLinked (forest_of ctx.old) (an_op module.index) → ⊥ }
{
    for _i in 0..count {
        let Some(block) = RegionPlace::<D>::get_head(from, ctx) else {
            return Err(BenchErr::Astray);
        };
        block.unlink(ctx);
        ctx.recall_well_formed();
        block.insert_at_back(to, ctx);
    }
    Ok(())
}

/// N blocks one by one from the front of one region to the back of another. Their making isn't timed.
pub(crate) fn blocks<C: CpuClock>(
    watch: &mut Stopwatch<'_, C>,
    ctx: &mut ToyContext,
    ty: TypeHandle,
    count: usize,
) -> Result<Outcome, BenchErr> {
    let (from, to) = two_regions(ctx)?;
    add_blocks(ctx, from, ty, count)?;
    if !from.is_live(ctx) || !to.is_live(ctx) {
        return Err(BenchErr::Astray);
    }
    let module = to.get_parent_op(ctx);
    if module.is_linked(ctx) {
        return Err(BenchErr::Astray);
    }
    watch.start();
    timed_blocks(ctx, module, from, to, count)?;
    watch.stop();
    outcome(count, arguments_sum(ctx, to))
}
