//! Types that are asked for by their keys.

use crate::building::{ToyContext, reserve};
use crate::outcome::{BenchErr, outcome};
use bench_clock::{Outcome, Stopwatch, mix};
use ir_base::context::CoreError;
use ir_base::types::TypeHandle;
use ir_core::prelude::*;
use ir_run::toy::ToyType;
use std::alloc::Global;
use std::collections::HashSet;
use std::time::CpuClock;

// Asks for so many types out of a pool of keys, one at least, and puts their handles behind the others.
#[inline(never)]
fn timed_interning(
    ctx: &mut ToyContext,
    pool: usize,
    count: usize,
    made: &mut Vec<TypeHandle>,
) -> Result<(), CoreError> {
    for i in 0..count {
        let key = i.wrapping_mul(7919) % pool.max(1);
        let width = u32::try_from(key).unwrap_or(0).wrapping_add(1);
        made.push(ctx.instantiate_key(ToyType::Int { width })?)?;
    }
    Ok(())
}

// Adds the places of types to others, and answers how many there are.
fn add_places(places: &mut HashSet<usize>, types: &[TypeHandle]) -> Result<u64, CoreError> {
    for ty in types {
        places.insert(ty.place)?;
    }
    Ok(places.len() as u64)
}

// How many types there are among these.
fn distinct(alloc: Global, types: &[TypeHandle]) -> Result<u64, CoreError> {
    let mut places = HashSet::new(alloc);
    add_places(&mut places, types)
}

// The width of a type of integers, behind a sum.
fn width_added(ctx: &ToyContext, ty: TypeHandle, sum: u64) -> u64 {
    if !ty.is_known(ctx) {
        return sum;
    }
    match ty.deref(ctx) {
        ToyType::Int { width } => mix(sum, *width as u64),
        ToyType::Named(_) => sum,
    }
}

// The width of each type, and how many types there are.
fn types_sum(ctx: &ToyContext, types: &[TypeHandle]) -> Result<u64, BenchErr> {
    let mut sum = 0u64;
    for ty in types {
        sum = width_added(ctx, *ty, sum);
    }
    Ok(mix(sum, distinct(ctx.alloc(), types)?))
}

/// N types out of N/10 keys.
pub(crate) fn interning<C: CpuClock>(
    watch: &mut Stopwatch<'_, C>,
    ctx: &mut ToyContext,
    count: usize,
    made: &mut Vec<TypeHandle>,
) -> Result<Outcome, BenchErr> {
    reserve(made, count)?;
    watch.start();
    timed_interning(ctx, count / 10, count, made)?;
    watch.stop();
    outcome(count, types_sum(ctx, made.as_slice()))
}
