//! A file that is replaced only where all goes well.

use crate::command_line::Request;
use crate::{fail, run_to};
use std::fs::File;
use std::{fs, process};

// Runs into a new file beside the one that is asked for, and puts it in its place where all goes well; the status.
fn run_beside(rt: &HostRuntime, path: &str, beside: &str, request: &Request) -> u8 {
    let Ok(file) = File::create_new(rt, beside) else {
        return fail(rt, path, "unwritable output", 3);
    };
    let status = run_to(rt, request, file);
    if status == 0 && fs::rename(rt, beside, path).is_ok() {
        return 0;
    }
    // Where it can't be removed, it stays beside.
    let _ = fs::remove_file(rt, beside);
    if status == 0 {
        fail(rt, path, "unwritable output", 3)
    } else {
        status
    }
}

/// Runs into the file; it stays as it was unless the status is 0.
pub(crate) fn replace_file(rt: &HostRuntime, path: &str, request: &Request) -> u8 {
    let id = process::id(rt.process());
    let Ok(beside) = format!(in rt.alloc(); "{path}.{id}.ir_opt") else {
        return fail(rt, path, "out of memory", 1);
    };
    run_beside(rt, path, beside.as_str(), request)
}
