//! How often a workload runs, and on which contexts.

use crate::building::ToyContext;
use crate::workloads::{Lists, Workload};
use anyhow::{Context as _, bail};
use bench_clock::{Outcome, Stopwatch, Timing};
use ir_base::context::CoreError;
use ir_checked::context;
use ir_core::context::Context;
use std::alloc::Global;
use std::time::CpuClock;

/// The contexts on which the repetitions of a workload run.
#[derive(Clone, Copy, Drop)]
pub(crate) enum Start {
    /// Each on a new one.
    New,
    /// All on one, which is cleared before each. One repetition more runs first, which isn't counted, so the memory is there already.
    Again,
    /// Each on a new one, in which place for N + 2 operations was made.
    Room,
}

impl Start {
    /// What a word of the command line says.
    pub(crate) fn named(word: &str) -> Option<Self> {
        match word {
            "again" => Some(Start::Again),
            "room" => Some(Start::Room),
            _ => None,
        }
    }

    // Makes a context ready for a repetition, and the lists beside it.
    fn prepare(
        self,
        ctx: &mut ToyContext,
        count: usize,
        lists: &mut Lists,
    ) -> Result<(), CoreError> {
        match self {
            Start::New => Ok(()),
            Start::Again => {
                ctx.clear();
                lists.clear();
                Ok(())
            }
            Start::Room => ctx.reserve(count.saturating_add(2)),
        }
    }
}

/// What is asked of each workload.
#[derive(Clone, Copy, Drop)]
pub(crate) struct Settings {
    /// Its size, N.
    pub(crate) count: usize,
    /// How many repetitions are counted. With 0 it is one, whose time isn't told.
    pub(crate) times: usize,
    /// On which contexts they run.
    pub(crate) start: Start,
}

// Makes a context ready and runs a workload on it. Gives the nanoseconds of the timed part, and what came out.
fn run_on<C: CpuClock>(
    rt: &C,
    ctx: &mut ToyContext,
    lists: &mut Lists,
    workload: Workload,
    settings: Settings,
) -> anyhow::Result<(u64, Outcome)> {
    settings.start.prepare(ctx, settings.count, lists)?;
    let mut watch = Stopwatch::new(rt);
    let outcome = workload.run_in(&mut watch, ctx, settings.count, lists)?;
    let nanos = watch.nanos().context("the clock can't be read")?;
    Ok((nanos, outcome))
}

// Runs a workload on a new context. Gives the same.
fn run_new<C: CpuClock>(
    rt: &C,
    alloc: Global,
    workload: Workload,
    settings: Settings,
) -> anyhow::Result<(u64, Outcome)> {
    let mut ctx = Context::new(alloc);
    let mut lists = Lists::new(alloc);
    let run = run_on(rt, &mut ctx, &mut lists, workload, settings);
    context::end(ctx, run)
}

// Adds the time of a repetition that came to the same outcome as the first.
fn add_same(timing: &mut Timing, first: Outcome, run: (u64, Outcome)) -> anyhow::Result<()> {
    let (nanos, outcome) = run;
    if outcome != first {
        bail!("the checksum differs between repetitions");
    }
    timing.add(nanos)?;
    Ok(())
}

// Runs a workload so often, once at least, each time on a new context, adds the times and gives what came out.
fn repeat_new<C: CpuClock>(
    rt: &C,
    alloc: Global,
    workload: Workload,
    settings: Settings,
    timing: &mut Timing,
) -> anyhow::Result<Outcome> {
    let (nanos, outcome) = run_new(rt, alloc, workload, settings)?;
    timing.add(nanos)?;
    for _ in 1..settings.times {
        let run = run_new(rt, alloc, workload, settings)?;
        add_same(timing, outcome, run)?;
    }
    Ok(outcome)
}

// Runs a workload once on a context and then so often, once at least, adds the times but the first and gives what came out.
fn repeat_on<C: CpuClock>(
    rt: &C,
    ctx: &mut ToyContext,
    lists: &mut Lists,
    workload: Workload,
    settings: Settings,
    timing: &mut Timing,
) -> anyhow::Result<Outcome> {
    let (_nanos, outcome) = run_on(rt, ctx, lists, workload, settings)?;
    for _ in 0..settings.times.max(1) {
        let run = run_on(rt, ctx, lists, workload, settings)?;
        add_same(timing, outcome, run)?;
    }
    Ok(outcome)
}

// The same on a context that is new at first.
fn repeat_again<C: CpuClock>(
    rt: &C,
    alloc: Global,
    workload: Workload,
    settings: Settings,
    timing: &mut Timing,
) -> anyhow::Result<Outcome> {
    let mut ctx = Context::new(alloc);
    let mut lists = Lists::new(alloc);
    let outcome = repeat_on(rt, &mut ctx, &mut lists, workload, settings, timing);
    context::end(ctx, outcome)
}

/// Runs a workload as often as is asked, each time to the same outcome, adds the times and puts them in order, and gives what came out.
pub(crate) fn repeat<C: CpuClock>(
    rt: &C,
    alloc: Global,
    workload: Workload,
    settings: Settings,
    timing: &mut Timing,
) -> anyhow::Result<Outcome> {
    let outcome = match settings.start {
        Start::New | Start::Room => repeat_new(rt, alloc, workload, settings, timing)?,
        Start::Again => repeat_again(rt, alloc, workload, settings, timing)?,
    };
    timing.sort()?;
    Ok(outcome)
}
