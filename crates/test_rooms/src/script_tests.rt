//! What rows of scripts can't say, since the program has default limits: how a script ends, and what is said of that, where any reader or writer fails in any way; and a script under small limits.

use ir_base_dialects::Limits;
use ir_run::ircore::{run_script, run_script_with_limits};
use std::alloc::Global;
use std::io;
use std::io::{ErrorKind, Read, Write};
use std::process::Abort;
use std::test::Fail;

// How a reader or a writer fails: where its bytes or its room are used up, and where it is flushed.
#[derive(Clone, Copy, Drop)]
struct Failure {
    at_end: Option<ErrorKind>,
    at_flush: Option<ErrorKind>,
}

const NONE: Failure = Failure {
    at_end: None,
    at_flush: None,
};

const BROKEN: Failure = Failure {
    at_end: Some(ErrorKind::BrokenPipe),
    at_flush: None,
};

const NO_MEMORY: Failure = Failure {
    at_end: Some(ErrorKind::OutOfMemory),
    at_flush: None,
};

const BROKEN_AT_FLUSH: Failure = Failure {
    at_end: None,
    at_flush: Some(ErrorKind::BrokenPipe),
};

const NO_MEMORY_AT_FLUSH: Failure = Failure {
    at_end: None,
    at_flush: Some(ErrorKind::OutOfMemory),
};

// The error of this kind, where there is one.
fn failed(kind: Option<ErrorKind>) -> io::Result<()> {
    match kind {
        Some(kind) => Err(io::Error::from(kind)),
        None => Ok(()),
    }
}

// Gives its bytes, and then fails.
#[derive(Drop)]
struct Source {
    left: &'static [u8],
    failure: Failure,
}

impl Read for Source {
    fn read(&mut self, buf: &mut [u8]) -> io::Result<usize> {
        if self.left.is_empty() {
            failed(self.failure.at_end)?;
        }
        self.left.read(buf)
    }
}

// Takes bytes, unless it fails.
#[derive(Drop)]
struct Sink {
    taken: Vec<u8>,
    failure: Failure,
}

impl Write for Sink {
    fn write(&mut self, buf: &[u8]) -> io::Result<usize> {
        failed(self.failure.at_end)?;
        self.taken.write(buf)
    }

    fn flush(&mut self) -> io::Result<()> {
        failed(self.failure.at_flush)
    }
}

// A sink that has taken nothing.
fn new_sink(alloc: Global, failure: Failure) -> Sink {
    Sink {
        taken: Vec::new(alloc),
        failure,
    }
}

// A script, how its input, its output and the writer for faults fail, the status, and what the last of them is told.
type Row = (&'static [u8], [Failure; 3], u8, &'static str);

const ROWS: [Row; 17] = [
    (b"type 1\n", [NONE, NONE, NONE], 0, ""),
    (b"erase o0\n", [NONE, NONE, BROKEN], 0, ""),
    (b"type 1\n", [NONE, NONE, NO_MEMORY], 0, ""),
    (b"", [NO_MEMORY, NONE, NONE], 1, "out of memory\n"),
    (
        b"type 1\nfoo\n",
        [NO_MEMORY, BROKEN, NONE],
        1,
        "out of memory\n",
    ),
    (b"type 1\n", [NONE, NO_MEMORY, NONE], 1, "out of memory\n"),
    (
        b"type 1\n",
        [NONE, NO_MEMORY_AT_FLUSH, NONE],
        1,
        "out of memory\n",
    ),
    (b"type 1\n", [NONE, NO_MEMORY, BROKEN], 1, ""),
    (
        b"type 1\nfoo\n\nbar\n",
        [NONE, BROKEN, NONE],
        2,
        "line 2: malformed\n",
    ),
    (b"foo\n", [NONE, NONE, BROKEN], 2, ""),
    (b"foo\n", [NONE, NONE, NO_MEMORY], 2, ""),
    (b"", [BROKEN, NONE, NONE], 2, "unreadable input\n"),
    (b"foo\n", [BROKEN, NONE, NONE], 2, "unreadable input\n"),
    (b"foo\n\xff\n", [NONE, NONE, NONE], 2, "unreadable input\n"),
    (b"\xff\n", [NONE, BROKEN, BROKEN], 2, ""),
    (b"type 1\n", [NONE, BROKEN, NONE], 3, ""),
    (b"type 1\n", [NONE, BROKEN_AT_FLUSH, NO_MEMORY], 3, ""),
];

// Asserts that this text was written.
fn expect_written(rt: &impl Abort, written: &[u8], text: &str) {
    assert!(rt; written == text.as_bytes());
}

// Asserts that a script ends as its row says, and that under status 2 nothing is printed.
fn expect_row(rt: &impl Abort, alloc: Global, row: &Row) -> Result<(), Fail> {
    let (script, [reading, writing, telling], wanted, told) = *row;
    let mut input = Source {
        left: script,
        failure: reading,
    };
    let mut output = new_sink(alloc, writing);
    let mut fault = new_sink(alloc, telling);
    let status = run_script(alloc, &mut input, &mut output, &mut fault);
    assert!(rt; status == wanted);
    assert!(rt; status != 2 || output.taken.is_empty());
    expect_written(rt, fault.taken.as_slice(), told);
    Ok(())
}

#[test]
fn endings(rt: HostRuntime) -> Result<(), Fail> {
    for row in &ROWS {
        expect_row(&rt, rt.alloc(), row)?;
    }
    Ok(())
}

#[test]
fn spent_counters_and_slots(rt: HostRuntime) -> Result<(), Fail> {
    let limits = Limits {
        values: 1,
        slots: 2,
        ..Limits::default()
    };
    let mut input = b"type 1\nop 0 t0,t0 - - 0\nblock t0\nblock t0\nop 5 - - - 3\n".as_slice();
    let mut printed = Vec::new(rt.alloc());
    let mut told = Vec::new(rt.alloc());
    let status = run_script_with_limits(rt.alloc(), limits, &mut input, &mut printed, &mut told);
    assert!(rt; status == 0);
    let wanted = "made t0\nrefused counter\nmade b0\nrefused counter\nrefused slots\nv0:\nb0:\n";
    expect_written(&rt, printed.as_slice(), wanted);
    Ok(())
}
