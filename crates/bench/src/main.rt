//! The program `bench`: it times calls of the library, to be measured beside other libraries.
//!
//!     bench WORKLOAD N REPS [again|room]    prints a line for the workload, or for each one where it is `all`
//!
//! A line has the program's name, the workload, N, the median, the least and the greatest nanoseconds of thread time by unit, a checksum, the peak of the memory in kB, and the number of units. With REPS 0 the workload runs once, and `-` stands for what differs from run to run.
//!
//! Each repetition runs on a new context. With `room`, place for N + 2 operations is made in it first, which isn't timed. With `again` all run on one context, which is cleared before each. One repetition more runs first, which isn't counted, so the times are those of a context that has its memory already, and its types.
#![tactic(auto)]

mod building;
mod chains;
mod definitions;
mod lists;
mod nests;
mod operands;
mod outcome;
mod passes;
mod random;
mod repeats;
mod settled;
mod settled_building;
mod settled_chains;
mod settled_lists;
mod settled_nests;
mod settled_operands;
mod sweeps;
mod types;
mod uses;
mod verifying;
mod workloads;

use crate::repeats::{Settings, Start, repeat};
use crate::workloads::Workload;
use anyhow::{Context, bail};
use bench_clock::{Outcome, Timing, peak_memory};
use std::alloc::Global;
use std::env::Args;
use std::rt::Files;
use std::time::CpuClock;
use std::{env, io};

// What is told where the command line is wrong.
const USAGE: &str = "usage: bench WORKLOAD N REPS [again|room]";

// Writes the line of a workload that ran with these times to this outcome.
fn print_times<R: Print>(
    rt: &R,
    name: &str,
    count: usize,
    timing: &Timing,
    outcome: Outcome,
    memory: &str,
) -> io::Result<()> {
    let Outcome { units, checksum } = outcome;
    let median = timing.median(units);
    let least = timing.least(units);
    let greatest = timing.greatest(units);
    println!(rt;
        "bench {name} {count} {median} {least} {greatest} {checksum:016x} {memory} {units}"
    )
}

// Writes the line of a workload that ran to this outcome, without what differs from run to run.
fn print_outcome<R: Print>(rt: &R, name: &str, count: usize, outcome: Outcome) -> io::Result<()> {
    let Outcome { units, checksum } = outcome;
    println!(rt; "bench {name} {count} - - - {checksum:016x} - {units}")
}

// Writes the line of a workload that ran with these times to this outcome, with the memory that was taken.
fn print_with_memory<R: Files + Print + Alloc<A = Global>>(
    rt: &R,
    name: &str,
    count: usize,
    timing: &Timing,
    outcome: Outcome,
) -> io::Result<()> {
    let memory = peak_memory(rt)?;
    print_times(rt, name, count, timing, outcome, memory.as_str())
}

// Runs a workload, adds its times and writes its line.
fn run_and_print<R: CpuClock + Files + Print + Alloc<A = Global>>(
    rt: &R,
    workload: Workload,
    name: &str,
    settings: Settings,
    timing: &mut Timing,
) -> anyhow::Result<()> {
    let outcome = repeat(rt, rt.alloc(), workload, settings, timing)?;
    let printed = if settings.times == 0 {
        print_outcome(rt, name, settings.count, outcome)
    } else {
        print_with_memory(rt, name, settings.count, timing, outcome)
    };
    Ok(printed?)
}

// The line of a workload.
fn print_line<R: CpuClock + Files + Print + Alloc<A = Global>>(
    rt: &R,
    workload: Workload,
    name: &str,
    settings: Settings,
) -> anyhow::Result<()> {
    let mut timing = Timing::new(rt.alloc());
    run_and_print(rt, workload, name, settings, &mut timing)
}

// The lines of the wanted workloads.
fn print_lines<R: CpuClock + Files + Print + Alloc<A = Global>>(
    rt: &R,
    wanted: &str,
    settings: Settings,
) -> anyhow::Result<()> {
    let mut printed = 0u32;
    for (workload, name) in Workload::all() {
        if wanted == "all" || wanted == name {
            print_line(rt, workload, name, settings)?;
            printed = 1;
        }
    }
    if printed == 0 {
        bail!("there is no such workload");
    }
    Ok(())
}

// The next word of the command line.
fn word(words: &mut Args) -> anyhow::Result<String> {
    words.next().context(USAGE)
}

// The number that a text is.
fn parsed(text: &str) -> anyhow::Result<usize> {
    Ok(text.parse()?)
}

// The next word, a number.
fn number(words: &mut Args) -> anyhow::Result<usize> {
    let word = word(words)?;
    parsed(word.as_str())
}

// The contexts that the next word asks for, where there is one.
fn read_start(words: &mut Args) -> anyhow::Result<Start> {
    match words.next() {
        Some(word) => Start::named(word.as_str()).context(USAGE),
        None => Ok(Start::New),
    }
}

// What comes next on the command line, behind the workload.
fn read_settings(words: &mut Args) -> anyhow::Result<Settings> {
    Ok(Settings {
        count: number(words)?,
        times: number(words)?,
        start: read_start(words)?,
    })
}

// The lines of the wanted workloads, by what comes next on the command line.
fn print_wanted<R: CpuClock + Files + Print + Alloc<A = Global>>(
    rt: &R,
    wanted: &str,
    words: &mut Args,
) -> anyhow::Result<()> {
    let settings = read_settings(words)?;
    print_lines(rt, wanted, settings)
}

// What the command line asks for.
fn print_all<R: CpuClock + Files + Print + Alloc<A = Global>>(
    rt: &R,
    words: &mut Args,
) -> anyhow::Result<()> {
    let wanted = word(words)?;
    print_wanted(rt, wanted.as_str(), words)
}

fn main(rt: HostRuntime) -> anyhow::Result<()> {
    let mut words = env::args(&rt)?;
    words.next();
    print_all(&rt, &mut words)
}
