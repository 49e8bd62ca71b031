//! The program `ir_opt`: it reads a text in MLIR's generic form, verifies it, runs the passes that its command line names, and prints what comes of it.
#![tactic(auto)]

mod command_line;
mod replacing;

use crate::command_line::{Request, read_request};
use crate::replacing::replace_file;
use clap::error::ErrorKind;
use ir_opt_run::run_opt;
use std::alloc::Global;
use std::env::Env;
use std::fs::File;
use std::io::{BufWriter, Write};
use std::process::ExitCode;
use std::{env, io};

// How many bytes are written at once.
const AT_ONCE: usize = 65536;

// The words of the command line.
fn words(rt: &HostRuntime) -> io::Result<Vec<String>> {
    let mut words = Vec::new(rt.alloc());
    for word in env::args(rt)? {
        words.push(word)?;
    }
    Ok(words)
}

// Says why nothing was done; the status.
fn fail(rt: &HostRuntime, name: &str, why: &str, status: u8) -> u8 {
    let mut log = rt.stderr();
    // Where it can't be told, the status alone tells it.
    let _ = writeln!(log, "{name}: error: {why}");
    status
}

// Runs over this writer; the status.
fn run_to<W: Write + Drop>(rt: &HostRuntime, request: &Request, output: W) -> u8 {
    let alloc = rt.alloc();
    let mut log = rt.stderr();
    let Ok(mut output) = BufWriter::with_capacity(alloc, AT_ONCE, output) else {
        return fail(rt, request.options.name, "out of memory", 1);
    };
    match request.input {
        None => run_opt(
            alloc,
            &request.options,
            &mut rt.stdin(),
            &mut output,
            &mut log,
        ),
        Some(path) => match File::open(rt, path) {
            Ok(mut input) => run_opt(alloc, &request.options, &mut input, &mut output, &mut log),
            Err(_) => fail(rt, request.options.name, "unreadable input", 1),
        },
    }
}

// Does what is asked; the status.
fn answer(rt: &HostRuntime, request: &Request) -> u8 {
    match request.output {
        None => run_to(rt, request, rt.stdout()),
        Some(path) => replace_file(rt, path, request),
    }
}

// Reads the command line and does what it asks; the status.
fn run(rt: &HostRuntime) -> u8 {
    let Ok(words) = words(rt) else {
        return fail(rt, "ir_opt", "out of memory", 1);
    };
    match read_request(rt.alloc(), words.as_slice()) {
        Ok(request) => answer(rt, &request),
        Err(error) => tell(rt, &error),
    }
}

// Prints help, the version, or what is wrong with the command line, or says that memory was wanting; the status.
fn tell(rt: &HostRuntime, error: &clap::Error) -> u8 {
    if error.kind() == ErrorKind::OutOfMemory {
        return fail(rt, "ir_opt", "out of memory", 1);
    }
    let status = if error.use_stderr() { 2 } else { 0 };
    match error.print(rt) {
        Ok(()) => status,
        Err(_) => if status == 0 { 3 } else { status },
    }
}

fn main(rt: HostRuntime) -> ExitCode {
    ExitCode::from(run(&rt))
}
