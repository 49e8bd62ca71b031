//! Operations that are made with nothing tested: each call settles what the next one asks, and that is proved.

ghost use Rattle.std.specs.Prelude.{◌<◌, length};
ghost use Rattle.ir_base.specs.Model.Forest.{a_value};
ghost use Rattle.ir_base.specs.Model.Nesting.{IsLiveNamed};
ghost use Rattle.ir_core.specs.Records.Meaning.{value_of};
ghost use Rattle.ir_core.specs.Context.State.{forest_of, types_of};

use crate::building::{ToyContext, ToyOp, reserve};
use crate::chains::two_values;
use crate::outcome::{BenchErr, outcome, uses_sum};
use bench_clock::{Outcome, Stopwatch};
use ir_base::context::{CoreError, Dialects, Ptr};
use ir_base::types::TypeHandle;
use ir_core::context::Context;
use ir_core::operation::Operation;
use ir_core::prelude::*;
use ir_core::value::Value;
use std::time::CpuClock;

// Makes so many operations and puts their handles behind the others.
#[inline(never)]
fn timed_unlinked<D: Dialects>(
    ctx: &mut Context<D>,
    ty: TypeHandle,
    mut first: Value<D>,
    mut second: Value<D>,
    count: usize,
    made: &mut Vec<Ptr<Operation<D>>>,
) -> Result<(), CoreError>
    requires known { ty.place < length (types_of ctx.old) }
    requires first { IsLiveNamed (forest_of ctx.old) (a_value (value_of first.index)) }
    requires second { IsLiveNamed (forest_of ctx.old) (a_value (value_of second.index)) }
{
    let successors = [];
    for _i in 0..count {
        let types = [ty];
        let operands = [first, second];
        let op = Operation::new(ctx, 1, &types, &operands, &successors, 0)?;
        made.push(op)?;
        first = second;
        second = op.deref(ctx).get_result(0);
    }
    Ok(())
}

/// N operations without a block.
pub(crate) fn unlinked<C: CpuClock>(
    watch: &mut Stopwatch<'_, C>,
    ctx: &mut ToyContext,
    ty: TypeHandle,
    count: usize,
    made: &mut Vec<ToyOp>,
) -> Result<Outcome, BenchErr> {
    reserve(made, count)?;
    let (first, second) = two_values(ctx, ty)?;
    if !ty.is_known(ctx) || !first.is_live(ctx) || !second.is_live(ctx) {
        return Err(BenchErr::Astray);
    }
    watch.start();
    timed_unlinked(ctx, ty, first, second, count, made)?;
    watch.stop();
    outcome(count, uses_sum(ctx, made.as_slice()))
}
