//! The work of the program `irtext`.
ghost use Rattle.std.specs.Prelude.{◌≡◌, ◌⊎◌, IfSome, IfErr, IfOk, OnOk, ◌≢◌};
ghost use Rattle.std.specs.Io.KnownBytes.{Keeps};
ghost use Rattle.ir_text_run.specs.Faults.{IsFaultOf, StandsWithin};
ghost use Rattle.ir_text_run.specs.Parts.{RespellsParts, RespellsSomeParts};
ghost use Rattle.ir_text_run.specs.Respellings.{Respells, RespellsFront};
ghost use Rattle.ir_text_run.specs.Runs.{Ends, Stops, held};
ghost use Rattle.ir_text_run.specs.Telling.{TellsFaultOf, TellsUnread};

use crate::ending::Ending;
use crate::fault::Fault;
use crate::form::Form;
use crate::respelling::respell;
use crate::telling::told;
use crate::text_parts::first_part;
use ir_text_spelling::write_bytes;
use std::alloc::Global;
use std::io;
use std::io::{ErrorKind, Read, Write};

// The whole input.
fn read_input<R: Read>(alloc: Global, input: &mut R) -> Result<Vec<u8>, Fault>
    ensures whole { IfOk result (λ text. IfSome (R.remaining input.old) (λ bytes. text.items ≡ bytes)) }
    ensures error { IfErr result (λ e. (e ≡ Fault.OutOfMemory) ⊎ (e ≡ Fault.Unreadable)) }
{
    let mut text = Vec::new(alloc);
    match input.read_to_end(&mut text) {
        Ok(_) => Ok(text),
        Err(error) => Err(input_fault(error)),
    }
}

// What a failed read means.
fn input_fault(error: io::Error) -> Fault
    ensures { (result ≡ Fault.OutOfMemory) ⊎ (result ≡ Fault.Unreadable) }
{
    match error.kind() {
        ErrorKind::OutOfMemory => Fault::OutOfMemory,
        _ => Fault::Unreadable,
    }
}

// Makes sure that the output is where the writer sends it.
fn flush<W: Write>(output: &mut W) -> Result<(), Fault>
    ensures kept { Keeps (W.contents output.old) (W.contents output.new) }
    ensures error { IfErr result (λ e. e ≡ Fault.Unwritable) }
{
    match output.flush() {
        Ok(()) => Ok(()),
        Err(_) => Err(Fault::Unwritable),
    }
}

// Spells a text again, through to where the writer sends it.
fn spell_out<W: Write>(alloc: Global, text: &[u8], output: &mut W) -> Result<(), Fault>
    ensures spelled { OnOk result (Respells text.now (W.contents output.old) (W.contents output.new)) }
    ensures nothing_written { IfErr result (λ e. e ≢ Fault.Unwritable → output.new ≡ output.old) }
    ensures front { IfErr result (λ e. e ≡ Fault.Unwritable → RespellsFront text.now (W.contents output.old) (W.contents output.new)) }
    ensures fault { IfErr result (IsFaultOf text.now) }
    ensures placed { IfErr result (StandsWithin text.now) }
{
    respell(alloc, text, output)?;
    flush(output)
}

/// Reads one text from the input, and writes the text of its tree to the output. Faults are told under this name of the input.
///
/// The status of the ending is the program's: 0 where the tree was written; 1 where the text has a fault, which `fault` is told, memory was wanting, or the input can't be read; 3 where the output can't be written.
pub fn run_text<R: Read, W: Write, F: Write>(
    alloc: Global,
    name: &str,
    input: &mut R,
    output: &mut W,
    fault: &mut F,
) -> Ending
    // No other status comes.
    ensures status { (result.status ≡ 0) ⊎ ((result.status ≡ 1) ⊎ (result.status ≡ 3)) }
    // Under 0 the input spells a tree none of whose names is wrong, and the output got the text of that tree.
    ensures spelled { result.status ≡ 0 → IfSome (R.remaining input.old) (λ text. Respells text (W.contents output.old) (W.contents output.new)) }
    // Under 1 nothing was written.
    ensures nothing_written { result.status ≡ 1 → output.new ≡ output.old }
    // Under 1 a fault of the input was told, with its place; or that memory was wanting, or that the input can't be read.
    ensures told { result.status ≡ 1 → TellsUnread name.now result.is_told (F.contents fault.old) (F.contents fault.new) ⊎ IfSome (R.remaining input.old) (λ text. TellsFaultOf name.now text 0 result.is_told (F.contents fault.old) (F.contents fault.new)) }
    // Under 3 the output got a front part of that text.
    ensures front { result.status ≡ 3 → IfSome (R.remaining input.old) (λ text. RespellsFront text (W.contents output.old) (W.contents output.new)) }
    // Of a fault is told under 1 alone.
    ensures nothing_told { (result.status ≡ 0) ⊎ (result.status ≡ 3) → Keeps (F.contents fault.old) (F.contents fault.new) }
{
    match read_input(alloc, input) {
        Ok(text) => {
            let outcome = spell_out(alloc, text.as_slice(), output);
            told(name, text.as_slice(), 0, outcome, fault)
        }
        Err(error) => told(name, &[], 0, Err(error), fault),
    }
}

// Spells each part of an input again, with the line between two parts that divides them, through to where the writer sends it. It answers what came of all.
fn spell_parts<W: Write, F: Write>(
    alloc: Global,
    name: &str,
    text: &[u8],
    output: &mut W,
    fault: &mut F,
) -> Ending
    ensures status { (result.status ≡ 0) ⊎ ((result.status ≡ 1) ⊎ (result.status ≡ 3)) }
    ensures ends { (result.status ≡ 0) ⊎ (result.status ≡ 1) → Ends name.now text.now result (held (W.contents output.old) (F.contents fault.old)) (held (W.contents output.new) (F.contents fault.new)) }
    ensures stops { result.status ≡ 3 → Stops name.now text.now result.is_told (held (W.contents output.old) (F.contents fault.old)) (held (W.contents output.new) (F.contents fault.new)) }
{
    let mut so_far = Ending::well();
    let mut lines = 0u64;
    let mut rest = text;
    loop {
        let front = first_part(rest);
        let outcome = respell(alloc, front.part, output);
        so_far = so_far.and(told(name, front.part, lines, outcome, fault));
        if so_far.status == 3 {
            return so_far;
        }
        let Some(behind) = front.rest else {
            return match flush(output) {
                Ok(()) => so_far,
                Err(_) => so_far.unwritable(),
            };
        };
        if write_bytes(output, b"// -----\n").is_err() {
            return so_far.unwritable();
        }
        lines += front.lines;
        rest = behind;
    }
}

/// Reads texts from the input, which lines `// -----` divide, and writes the texts of their trees to the output, with the same line between them. A part with a fault is told of, with its place in the whole input, and nothing is written for it.
///
/// The status of the ending is the program's: 0 where each tree was written; 1 where a part has a fault, memory was wanting, or the input can't be read; 3 where the output can't be written.
#[tactic(auto, using(crate::proofs::RunSteps::all_parts, crate::proofs::RunSteps::all_right))]
pub fn run_parts<R: Read, W: Write, F: Write>(
    alloc: Global,
    name: &str,
    input: &mut R,
    output: &mut W,
    fault: &mut F,
) -> Ending
    // No other status comes.
    ensures status { (result.status ≡ 0) ⊎ ((result.status ≡ 1) ⊎ (result.status ≡ 3)) }
    // Under 0 each part of the input spells a tree none of whose names is wrong, and the output got the texts of these trees, with the line between each two.
    ensures spelled { result.status ≡ 0 → IfSome (R.remaining input.old) (λ text. RespellsParts text (W.contents output.old) (W.contents output.new)) }
    // Under 1 nothing was written, or for each part the text of its tree or nothing, with the line between each two.
    ensures some_spelled { result.status ≡ 1 → (output.new ≡ output.old) ⊎ IfSome (R.remaining input.old) (λ text. RespellsSomeParts text (W.contents output.old) (W.contents output.new)) }
    // Under 1 each part was spelled, or refused and its fault told; or nothing was written, and it was told that memory was wanting, or that the input can't be read.
    ensures ends { result.status ≡ 1 → ((output.new ≡ output.old) × TellsUnread name.now result.is_told (F.contents fault.old) (F.contents fault.new)) ⊎ IfSome (R.remaining input.old) (λ text. Ends name.now text result (held (W.contents output.old) (F.contents fault.old)) (held (W.contents output.new) (F.contents fault.new))) }
    // Under 3 this holds of the parts in front of some rest of the input, and there the output got a front part of what was to be written.
    ensures stops { result.status ≡ 3 → IfSome (R.remaining input.old) (λ text. Stops name.now text result.is_told (held (W.contents output.old) (F.contents fault.old)) (held (W.contents output.new) (F.contents fault.new))) }
    // Under 0 nothing is told.
    ensures nothing_told { result.status ≡ 0 → Keeps (F.contents fault.old) (F.contents fault.new) }
{
    match read_input(alloc, input) {
        Ok(text) => spell_parts(alloc, name, text.as_slice(), output, fault),
        Err(error) => told(name, &[], 0, Err(error), fault),
    }
}

/// Does what the form says.
pub fn run<R: Read, W: Write, F: Write>(
    alloc: Global,
    form: Form,
    name: &str,
    input: &mut R,
    output: &mut W,
    fault: &mut F,
) -> Ending
    ensures status { (result.status ≡ 0) ⊎ ((result.status ≡ 1) ⊎ (result.status ≡ 3)) }
    ensures parts { form ≡ Form.Parts → result.status ≡ 0 → IfSome (R.remaining input.old) (λ text. RespellsParts text (W.contents output.old) (W.contents output.new)) }
    ensures spelled { form ≡ Form.Whole → result.status ≡ 0 → IfSome (R.remaining input.old) (λ text. Respells text (W.contents output.old) (W.contents output.new)) }
    ensures nothing_written { form ≡ Form.Whole → result.status ≡ 1 → output.new ≡ output.old }
    ensures told { form ≡ Form.Whole → result.status ≡ 1 → TellsUnread name.now result.is_told (F.contents fault.old) (F.contents fault.new) ⊎ IfSome (R.remaining input.old) (λ text. TellsFaultOf name.now text 0 result.is_told (F.contents fault.old) (F.contents fault.new)) }
    ensures front { form ≡ Form.Whole → result.status ≡ 3 → IfSome (R.remaining input.old) (λ text. RespellsFront text (W.contents output.old) (W.contents output.new)) }
    ensures some_spelled { form ≡ Form.Parts → result.status ≡ 1 → (output.new ≡ output.old) ⊎ IfSome (R.remaining input.old) (λ text. RespellsSomeParts text (W.contents output.old) (W.contents output.new)) }
    ensures ends { form ≡ Form.Parts → result.status ≡ 1 → ((output.new ≡ output.old) × TellsUnread name.now result.is_told (F.contents fault.old) (F.contents fault.new)) ⊎ IfSome (R.remaining input.old) (λ text. Ends name.now text result (held (W.contents output.old) (F.contents fault.old)) (held (W.contents output.new) (F.contents fault.new))) }
    ensures stops { form ≡ Form.Parts → result.status ≡ 3 → IfSome (R.remaining input.old) (λ text. Stops name.now text result.is_told (held (W.contents output.old) (F.contents fault.old)) (held (W.contents output.new) (F.contents fault.new))) }
    ensures nothing_told { result.status ≡ 0 → Keeps (F.contents fault.old) (F.contents fault.new) }
    ensures nothing_told_of_output { form ≡ Form.Whole → result.status ≡ 3 → Keeps (F.contents fault.old) (F.contents fault.new) }
{
    match form {
        Form::Whole => run_text(alloc, name, input, output, fault),
        Form::Parts => run_parts(alloc, name, input, output, fault),
    }
}
