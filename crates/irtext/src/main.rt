//! The program `irtext`: it reads a text in MLIR's generic form from standard input, resolves its names, and spells it again to standard output. With `--split-input-file` the input has several texts, divided by lines `// -----`, and each is read on its own.
#![tactic(auto)]

use ir_text_run::{Form, run};
use std::alloc::{AllocError, Global};
use std::env;
use std::env::Env;
use std::io::{BufWriter, ErrorKind, Write};
use std::process::ExitCode;

// How many bytes are written at once.
const AT_ONCE: usize = 65536;

// The name of standard input in what is told.
const NAME: &str = "-";

// What the words of the command line ask for; none where they have no form.
fn asked<R: Env + Alloc<A = Global>>(rt: &R) -> Result<Option<Form>, AllocError> {
    let mut words = Vec::new(rt.alloc());
    match env::args(rt) {
        Ok(all) => {
            for word in all.skip(1) {
                words.push(word)?;
            }
            Ok(Form::of_words(words.as_slice()))
        }
        Err(error) => match error.kind() {
            ErrorKind::OutOfMemory => Err(AllocError),
            _ => Ok(None),
        },
    }
}

// Says that memory was wanting before anything was read.
fn tell_memory<F: Write>(fault: &mut F) -> ExitCode {
    let _ = writeln!(fault, "{NAME}: error: out of memory");
    ExitCode::from(1)
}

fn main(rt: HostRuntime) -> ExitCode {
    let mut input = rt.stdin();
    let mut fault = rt.stderr();
    let Ok(asked) = asked(&rt) else {
        return tell_memory(&mut fault);
    };
    let Some(form) = asked else {
        let _ = writeln!(fault, "usage: irtext [--split-input-file]");
        return ExitCode::from(2);
    };
    let Ok(mut output) = BufWriter::with_capacity(rt.alloc(), AT_ONCE, rt.stdout()) else {
        return tell_memory(&mut fault);
    };
    let ending = run(rt.alloc(), form, NAME, &mut input, &mut output, &mut fault);
    ExitCode::from(ending.status)
}
