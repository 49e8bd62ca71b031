//! What the program reads and writes around a session: the text of a script, the lines of the answers, and the status.
ghost use Rattle.std.specs.Prelude.{◌≡◌, ◌≢◌, ◌↔◌, ◌⊎◌, [], ◌++◌, OnOk, IfOk, IfErr, IfSome, IsOk, string_bytes};
ghost use Rattle.std.specs.IoError.{error_kind};
ghost use Rattle.std.specs.Io.KnownBytes.{Keeps, Appends};
ghost use Rattle.toy_script_text.specs.Lines.{refusal_line as line_of, answer_line, answer_lines};
ghost use Rattle.toy_script_text.specs.Outcomes.{status_of, told_of};

use crate::script_error::ScriptError;
use crate::script_parse::Letter;
use ir_base_dialects::{Answer, Refused};
use std::alloc::{AllocError, Global};
use std::io;
use std::io::{ErrorKind, Read, Write};

/// The whole input, as text.
///
/// # Errors
/// `OutOfMemory` where a growth was refused, and `Unreadable` where the input can't be read or isn't UTF-8.
pub fn read_script<R: Read>(alloc: Global, input: &mut R) -> Result<String, ScriptError>
    ensures whole { IfOk result (λ text. IfSome (R.remaining input.old) (λ bytes. string_bytes text ≡ bytes)) }
    ensures error { IfErr result (λ e. (e ≡ ScriptError.OutOfMemory) ⊎ (e ≡ ScriptError.Unreadable)) }
{
    let mut text = String::new(alloc);
    match input.read_to_string(&mut text) {
        Ok(_) => Ok(text),
        Err(error) => Err(stream_error(error, ScriptError::Unreadable)),
    }
}

// What a failed read or write means: that memory was wanting, to what is read or written or to where it goes, or else this.
fn stream_error(error: io::Error, otherwise: ScriptError) -> ScriptError
    ensures memory { error_kind error ≡ ErrorKind.OutOfMemory → result ≡ ScriptError.OutOfMemory }
    ensures other { error_kind error ≢ ErrorKind.OutOfMemory → result ≡ otherwise }
{
    match error.kind() {
        ErrorKind::OutOfMemory => ScriptError::OutOfMemory,
        _ => otherwise,
    }
}

/// Writes the whole text.
///
/// # Errors
/// `Unwritable` where the output can't be written, and `OutOfMemory` where it grows in memory and that was refused.
pub fn write_text<W: Write>(output: &mut W, text: &str) -> Result<(), ScriptError>
    ensures whole { OnOk result (Appends (W.contents output.old) (W.contents output.new) text.now) }
    ensures error { IfErr result (λ e. (e ≡ ScriptError.OutOfMemory) ⊎ (e ≡ ScriptError.Unwritable)) }
{
    match write_all(output, text) {
        Ok(()) => Ok(()),
        Err(error) => Err(stream_error(error, ScriptError::Unwritable)),
    }
}

// Writes the whole text, through to where the writer sends it.
fn write_all<W: Write>(output: &mut W, text: &str) -> io::Result<()>
    ensures { OnOk result (Appends (W.contents output.old) (W.contents output.new) text.now) }
{
    output.write_all(text.as_bytes())?;
    output.flush()
}

/// Writes the answers, one a line. The letters say what each edit makes.
///
/// # Errors
/// `AllocError` where a growth was refused.
pub fn write_answers(
    text: &mut String,
    letters: &[Letter],
    answers: &[Answer],
) -> Result<(), AllocError>
    ensures lines { OnOk result (string_bytes text.new ≡ string_bytes text.old ++ answer_lines letters.now answers.now) }
{
    for (letter, answer) in letters.iter().zip(answers.iter()) {
        write_answer(text, *letter, *answer)?;
    }
    Ok(())
}

// Writes an answer as a line. The letter says what its edit makes.
fn write_answer(text: &mut String, letter: Letter, answer: Answer) -> Result<(), AllocError>
    ensures line { OnOk result (string_bytes text.new ≡ string_bytes text.old ++ answer_line letter answer) }
{
    match answer {
        Answer::Made(number) => {
            writeln!(text, "made {letter}{number}")?;
            Ok(())
        }
        Answer::Done => text.push_str("ok\n"),
        Answer::Refused(refused) => text.push_str(refusal_line(refused)),
    }
}

/// The line of a refusal.
pub fn refusal_line(refused: Refused) -> &'static str
    ensures { result.now ≡ line_of refused }
{
    match refused {
        Refused::Condition => "refused condition\n",
        Refused::Memory => "refused memory\n",
        Refused::Counter => "refused counter\n",
        Refused::Slots => "refused slots\n",
    }
}

/// How the program ends.
#[derive(Drop)]
pub struct Ending {
    /// Its status.
    pub status: u8,
    /// Whether the writer for faults took what it was given.
    pub told: io::Result<()>,
}

/// Ends the program: it says why its script wasn't done, but for output that can't be written. What it says stands on the writer for faults exactly where that took it.
pub fn finish<F: Write>(outcome: Result<(), ScriptError>, fault: &mut F) -> Ending
    ensures status { result.status ≡ status_of outcome }
    ensures told { OnOk result.told (Appends (F.contents fault.old) (F.contents fault.new) (told_of outcome)) }
    ensures silent { (result.status ≡ 0) ⊎ (result.status ≡ 3) → IsOk result.told × Keeps (F.contents fault.old) (F.contents fault.new) }
{
    Ending {
        status: status(outcome),
        told: tell(outcome, fault),
    }
}

// The status that the program ends with.
fn status(outcome: Result<(), ScriptError>) -> u8
    ensures { result ≡ status_of outcome }
{
    match outcome {
        Ok(()) => 0,
        Err(ScriptError::OutOfMemory) => 1,
        Err(ScriptError::Unreadable | ScriptError::Malformed { .. }) => 2,
        Err(ScriptError::Unwritable) => 3,
    }
}

// Says why a script wasn't done, but for output that can't be written.
fn tell<F: Write>(outcome: Result<(), ScriptError>, fault: &mut F) -> io::Result<()>
    ensures told { OnOk result (Appends (F.contents fault.old) (F.contents fault.new) (told_of outcome)) }
    ensures silent { told_of outcome ≡ [] → IsOk result × Keeps (F.contents fault.old) (F.contents fault.new) }
{
    let Err(error) = outcome else {
        return Ok(());
    };
    match error {
        ScriptError::Unwritable => Ok(()),
        ScriptError::OutOfMemory | ScriptError::Unreadable | ScriptError::Malformed { .. } => {
            writeln!(fault, "{error}")
        }
    }
}
