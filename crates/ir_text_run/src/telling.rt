//! What is said of a fault.
ghost use Rattle.std.specs.Prelude.{◌≡◌, ◌≤◌, ◌<◌, ◌⊎◌, ◌+◌, ◌^◌, ℕ, List, length, IfSome, IfErr, true, decimal};
ghost use Rattle.std.specs.Io.KnownBytes.{Keeps};
ghost use Rattle.ir_text_spelling.specs.Writings.{Writes};
ghost use Rattle.ir_text_run.specs.Faults.{StandsWithin};
ghost use Rattle.ir_text_run.specs.Endings.{status_of};
ghost use Rattle.ir_text_run.specs.Telling.{AreWordsOf, IsLineOf, Tells, line_column, place_told};

use crate::ending::Ending;
use crate::fault::{Fault, OUT_OF_MEMORY, UNREADABLE, UNWRITABLE};
use ir_text_reader::line_and_column;
use ir_text_spelling::write_bytes;
use itoa::Buffer;
use std::fmt::{Display, InlineText};
use std::io;
use std::io::Write;

// How many bytes are kept of the words of a fault: more than any has.
const MOST: usize = 128;

// The status that the program ends with.
fn status(outcome: Result<(), Fault>) -> u8
    ensures { result ≡ status_of outcome }
{
    match outcome {
        Ok(()) => 0,
        Err(Fault::Unwritable) => 3,
        Err(_) => 1,
    }
}

// Writes a number.
fn write_number<F: Write>(fault: &mut F, number: u64) -> io::Result<()>
    ensures { Writes (F.contents fault.old) (F.contents fault.new) (decimal number) result }
{
    let mut buffer = Buffer::new();
    write_bytes(fault, buffer.format(number).as_bytes())
}

// Writes `:LINE:COLUMN`.
fn write_line_and_column<F: Write>(fault: &mut F, line: u64, column: u64) -> io::Result<()>
    ensures { Writes (F.contents fault.old) (F.contents fault.new) (line_column line column) result }
{
    write_bytes(fault, b":")?;
    write_number(fault, line)?;
    write_bytes(fault, b":")?;
    write_number(fault, column)
}

// Writes where a byte of a text stands in an input, if so many lines stand before the text; nothing where no byte is meant.
fn write_place<F: Write>(
    fault: &mut F,
    text: &[u8],
    lines: u64,
    place: Option<u32>,
) -> io::Result<()>
    requires within { IfSome place (λ at. at ≤ length text.now) }
    requires room { lines + length text.now + 1 < 2 ^ 64 }
    ensures { Writes (F.contents fault.old) (F.contents fault.new) (place_told text.now lines place) result }
{
    match place {
        None => Ok(()),
        Some(at) => {
            let (line, column) = line_and_column(text, at);
            write_line_and_column(fault, lines + line, column)
        }
    }
}

// Writes what a fault of the text says of itself.
fn write_own_words<F: Write, E: Display + Drop>(fault: &mut F, error: E) -> io::Result<()>
    ensures { (words : List ℕ) × (length words ≤ 128) × Writes (F.contents fault.old) (F.contents fault.new) words result }
{
    let words = InlineText::<MOST>::of(error);
    write_bytes(fault, words.as_str().as_bytes())
}

// Writes what the fault is.
fn write_words<F: Write>(fault: &mut F, error: Fault) -> io::Result<()>
    ensures { (words : List ℕ) × AreWordsOf error words × Writes (F.contents fault.old) (F.contents fault.new) words result }
{
    match error {
        Fault::OutOfMemory => write_bytes(fault, OUT_OF_MEMORY.as_bytes()),
        Fault::Unreadable => write_bytes(fault, UNREADABLE.as_bytes()),
        Fault::Unwritable => write_bytes(fault, UNWRITABLE.as_bytes()),
        Fault::Reading(fault_of_text) => write_own_words(fault, fault_of_text),
        Fault::Naming(fault_of_names) => write_own_words(fault, fault_of_names),
    }
}

// Says which fault a text of this name has, as `NAME:LINE:COLUMN: error: WORDS`, where the text begins behind so many lines of its input; without line and column where it is no fault of the text.
fn tell<F: Write>(
    name: &str,
    text: &[u8],
    lines: u64,
    error: Fault,
    fault: &mut F,
) -> io::Result<()>
    requires within { StandsWithin text.now error }
    requires room { lines + length text.now + 1 < 2 ^ 64 }
    ensures { (line : List ℕ) × IsLineOf name.now text.now lines error line × Writes (F.contents fault.old) (F.contents fault.new) line result }
{
    write_bytes(fault, name.as_bytes())?;
    write_place(fault, text, lines, error.at())?;
    write_bytes(fault, b": error: ")?;
    write_words(fault, error)?;
    write_bytes(fault, b"\n")
}

/// The ending for what came of a text of this name that begins behind so many lines of its input; a fault is told, but for output that can't be written.
#[tactic(auto, using(crate::proofs::LinesTold::told_so))]
pub(crate) fn told<F: Write>(
    name: &str,
    text: &[u8],
    lines: u64,
    outcome: Result<(), Fault>,
    fault: &mut F,
) -> Ending
    requires within { IfErr outcome (StandsWithin text.now) }
    requires room { lines + length text.now + 1 < 2 ^ 64 }
    ensures status { result.status ≡ status_of outcome }
    ensures nothing_told { (result.status ≡ 0) ⊎ (result.status ≡ 3) → (result.is_told ≡ true) × Keeps (F.contents fault.old) (F.contents fault.new) }
    ensures told { IfErr outcome (λ e. result.status ≡ 1 → Tells name.now text.now lines e result.is_told (F.contents fault.old) (F.contents fault.new)) }
{
    let status = status(outcome);
    let mut is_told = true;
    if let Err(error) = outcome {
        if status != 3 {
            is_told = tell(name, text, lines, error, fault).is_ok();
        }
    }
    Ending { status, is_told }
}
