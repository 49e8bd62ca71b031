//! The work of the program `ir_opt`.
ghost use Rattle.std.specs.Prelude.{◌≡◌, ◌⊎◌, ◌++◌, ℕ, List, IfOk, IfSome, true};
ghost use Rattle.ir_opt_run.specs.GenericBehaviour.{AreGenericWords, generic_behaviour, generic_same};
ghost use Rattle.ir_text_spelling.specs.Writings.{AppendsFront};
ghost use Rattle.std.specs.Io.KnownBytes.{Appends};
ghost use Rattle.ir_opt_run.specs.Runs.{Makes, Optimises, OptimisesParts, Prints, PrintsFront};

use crate::fault::Fault;
use crate::making::{part_made, whole_made};
use crate::options::Options;
use crate::telling::tell;
use ir_text_run::first_part;
use ir_text_spelling::write_bytes;
use std::alloc::Global;
use std::io;
use std::io::{ErrorKind, Read, Write};

// The line between two parts.
const MARKER: &[u8] = b"// -----\n";

// The whole input.
fn read_input<R: Read>(alloc: Global, input: &mut R) -> Result<Vec<u8>, Fault>
    ensures whole { IfOk result (λ text. IfSome (R.remaining input.old) (λ bytes. text.items ≡ bytes)) }
{
    let mut text = Vec::new(alloc);
    match input.read_to_end(&mut text) {
        Ok(_) => Ok(text),
        Err(error) => Err(input_fault(error)),
    }
}

// What a failed read means.
fn input_fault(error: io::Error) -> Fault {
    match error.kind() {
        ErrorKind::OutOfMemory => Fault::OutOfMemory,
        _ => Fault::Unreadable,
    }
}

// Writes a text, through to where the writer sends it; the status.
fn write_out<W: Write>(text: &[u8], output: &mut W) -> u8
    ensures status { (result ≡ 0) ⊎ (result ≡ 3) }
    ensures whole { result ≡ 0 → Appends (W.contents output.old) (W.contents output.new) text.now }
    ensures front { result ≡ 3 → AppendsFront (W.contents output.old) (W.contents output.new) text.now }
{
    if write_bytes(output, text).is_err() {
        return 3;
    }
    match output.flush() {
        Ok(()) => 0,
        Err(_) => 3,
    }
}

// Puts what comes of a part behind what came of those before; whether it has no fault. A fault is told.
fn add_part<F: Write>(
    alloc: Global,
    options: &Options,
    part: &[u8],
    lines: u64,
    printed: &mut Vec<u8>,
    log: &mut F,
) -> Result<bool, Fault>
    ensures made { IfOk result (λ is_well. is_well ≡ true → (out : List ℕ) × Optimises generic_behaviour generic_same AreGenericWords options.now.passes.items options.now.prints_locations part.now out × (printed.new.items ≡ printed.old.items ++ out)) }
{
    match part_made(alloc, options, part, lines, log) {
        Some(out) => {
            printed.extend_from_slice(&out)?;
            Ok(true)
        }
        None => Ok(false),
    }
}

// What is printed, where nothing has a fault.
fn if_well(is_well: bool, printed: Vec<u8>) -> Option<Vec<u8>>
    ensures { IfSome result (λ out. (is_well ≡ true) × (out.items ≡ printed.items)) }
{
    if is_well { Some(printed) } else { None }
}

// What comes of each part, with the line between two, if none has a fault; each part's fault is told.
fn parts_made<F: Write>(
    alloc: Global,
    options: &Options,
    text: &[u8],
    log: &mut F,
) -> Result<Option<Vec<u8>>, Fault>
    ensures made { IfOk result (λ made. IfSome made (λ out. OptimisesParts generic_behaviour generic_same AreGenericWords options.now.passes.items options.now.prints_locations text.now out.items)) }
{
    let mut printed = Vec::new(alloc);
    let mut is_well = true;
    let mut lines = 0u64;
    let mut rest = text;
    loop {
        let front = first_part(rest);
        let is_part_well = add_part(alloc, options, front.part, lines, &mut printed, log)?;
        is_well = is_well && is_part_well;
        let Some(behind) = front.rest else {
            return Ok(if_well(is_well, printed));
        };
        printed.extend_from_slice(MARKER)?;
        lines = lines.saturating_add(front.lines);
        rest = behind;
    }
}

// What comes of the input, if it has no fault; a fault is told.
fn made<F: Write>(alloc: Global, options: &Options, text: Vec<u8>, log: &mut F) -> Option<Vec<u8>>
    ensures made { IfSome result (λ out. Makes generic_behaviour generic_same AreGenericWords options.now.passes.items options.now.prints_locations options.now.splits_input text.items out.items) }
{
    if !options.splits_input {
        return whole_made(alloc, options, text, log);
    }
    match parts_made(alloc, options, text.as_slice(), log) {
        Ok(out) => out,
        Err(error) => {
            tell(options, &[], 0, error, log);
            None
        }
    }
}

/// Reads a text in MLIR's generic form from the input, runs the passes, and writes the text of what comes of it to the output. Faults, and what passes did, are told on the log.
///
/// It answers the program's status: 0 where the text was written; 1 where the input can't be read or has a fault, or memory was wanting; 3 where the output can't be written.
pub fn run_opt<R: Read, W: Write, F: Write>(
    alloc: Global,
    options: &Options,
    input: &mut R,
    output: &mut W,
    log: &mut F,
) -> u8
    // No other status comes.
    ensures status { (result ≡ 0) ⊎ ((result ≡ 1) ⊎ (result ≡ 3)) }
    // Under 0 the input says what stands in a forest, the named passes lead from it to another, and the output got a text that says what stands there.
    ensures made { result ≡ 0 → IfSome (R.remaining input.old) (λ text. Prints generic_behaviour generic_same AreGenericWords options.now.passes.items options.now.prints_locations options.now.splits_input text (W.contents output.old) (W.contents output.new)) }
    // Under 1 nothing was written.
    ensures nothing_written { result ≡ 1 → output.new ≡ output.old }
    // Under 3 the output got a front part of such a text.
    ensures front { result ≡ 3 → IfSome (R.remaining input.old) (λ text. PrintsFront generic_behaviour generic_same AreGenericWords options.now.passes.items options.now.prints_locations options.now.splits_input text (W.contents output.old) (W.contents output.new)) }
{
    match read_input(alloc, input) {
        Ok(text) => match made(alloc, options, text, log) {
            Some(out) => write_out(out.as_slice(), output),
            None => 1,
        },
        Err(error) => {
            tell(options, &[], 0, error, log);
            1
        }
    }
}
