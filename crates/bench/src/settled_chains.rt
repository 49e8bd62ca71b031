//! A chain whose operations are replaced by new ones and erased, with nothing tested.
//!
//! Each operation of the chain has two operands, one result and no region. So once all that named the result names another value, nothing names anything inside the operation, and it may go.

ghost use Rattle.std.specs.Prelude.{◌≡◌, ◌≢◌, ◌<◌, IsTrue, OnOk, length};
ghost use Rattle.ir_base.specs.Model.declared.ids.ArenaIndex.{ArenaIndex};
ghost use Rattle.ir_base.specs.Model.Forest.{a_block};
ghost use Rattle.ir_base.specs.Model.Nesting.{In, IsLive, ops_of};
ghost use Rattle.ir_core.specs.Context.State.{forest_of, types_of};
ghost use Rattle.bench.specs.Settled.{AreLinks, IsLink};

use crate::building::{ToyContext, build, pair_block};
use crate::outcome::{BenchErr, block_sum, outcome};
use bench_clock::{Outcome, Stopwatch};
use ir_base::context::{CoreError, Dialects, Ptr};
use ir_base::types::TypeHandle;
use ir_core::basic_block::BasicBlock;
use ir_core::context::Context;
use ir_core::operation::Operation;
use ir_core::prelude::*;
use std::time::CpuClock;

// Puts a new operation with the same operands behind one of a chain, lets what used the one's result use the new one's, and erases the one.
#[inline(always)]
fn rebuild<D: Dialects>(
    ctx: &mut Context<D>,
    ty: TypeHandle,
    block: Ptr<BasicBlock<D>>,
    old: Ptr<Operation<D>>,
) -> Result<(), CoreError>
    requires known { ty.place < length (types_of ctx.old) }
    requires stands { In old.index (ops_of (forest_of ctx.old) block.index) }
    requires link { IsLink (forest_of ctx.old) old.index }
    ensures types { OnOk result (types_of ctx.new ≡ types_of ctx.old) }
    ensures others { OnOk result ((p : ArenaIndex) → p ≢ old.index → In p (ops_of (forest_of ctx.old) block.index) → In p (ops_of (forest_of ctx.new) block.index)) }
    ensures links { OnOk result (AreLinks (forest_of ctx.old) block.index → AreLinks (forest_of ctx.new) block.index) }
{
    ctx.recall_well_formed();
    ctx.recall_live_was_made();
    let record = old.deref(ctx);
    let old_value = record.get_result(0);
    let first = record.get_operand(0);
    let second = record.get_operand(1);
    let types = [ty];
    let operands = [first, second];
    let successors = [];
    let new = Operation::new(ctx, 1, &types, &operands, &successors, 0)?;
    let new_value = new.deref(ctx).get_result(0);
    new.insert_after(ctx, old);
    old_value.replace_all_uses_with(ctx, new_value)?;
    ctx.recall_well_formed();
    old.erase(ctx);
    Ok(())
}

// Rebuilds so many operations of a live block, from its first on.
#[inline(never)]
fn timed_rebuilding<D: Dialects>(
    ctx: &mut Context<D>,
    ty: TypeHandle,
    block: Ptr<BasicBlock<D>>,
    count: usize,
) -> Result<(), BenchErr>
    requires known { ty.place < length (types_of ctx.old) }
    requires live { IsLive (forest_of ctx.old) (a_block block.index) }
    requires links { AreLinks (forest_of ctx.old) block.index }
{
    let mut place = block.get_head(ctx);
    for _i in 0..count {
        let Some(old) = place else {
            return Err(BenchErr::Astray);
        };
        ctx.recall_well_formed();
        place = old.get_next(ctx);
        rebuild(ctx, ty, block, old)?;
    }
    Ok(())
}

// Whether an operation is live, and has two operands, one result and no region.
fn is_link<D: Dialects>(ctx: &Context<D>, op: Ptr<Operation<D>>) -> bool
    ensures { IsTrue result → IsLink (forest_of ctx.now) op.index }
{
    match op.try_deref(ctx) {
        Ok(record) => {
            record.get_num_operands() == 2
                && record.get_num_results() == 1
                && record.num_regions() == 0
        }
        Err(_) => false,
    }
}

// Whether each operation of a live block is such a one.
fn are_links<D: Dialects>(ctx: &Context<D>, block: Ptr<BasicBlock<D>>) -> bool
    requires { IsLive (forest_of ctx.now) (a_block block.index) }
    ensures { IsTrue result → AreLinks (forest_of ctx.now) block.index }
{
    for op in block.iter(ctx) {
        if !is_link(ctx, op) {
            return false;
        }
    }
    true
}

/// Over N operations of a block, a new one behind each takes its uses, and the old one is erased. The building of the first ones isn't timed.
pub(crate) fn rebuilding<C: CpuClock>(
    watch: &mut Stopwatch<'_, C>,
    ctx: &mut ToyContext,
    ty: TypeHandle,
    count: usize,
) -> Result<Outcome, BenchErr> {
    let block = pair_block(ctx, ty)?;
    build(ctx, ty, block, count)?;
    if !ty.is_known(ctx) || !block.is_live(ctx) || !are_links(ctx, block) {
        return Err(BenchErr::Astray);
    }
    watch.start();
    timed_rebuilding(ctx, ty, block, count)?;
    watch.stop();
    outcome(count, block_sum(ctx, block))
}
