//! The program `ircore`: it reads a script, carries its edits out over the dialect Toy with default limits, verifies the operations that it asks for in between, and prints the answers, and then the uses of each live value and block.
//!
//! The whole script is read before anything is done.
ghost use Rattle.std.specs.Prelude.{◌≡◌, ◌<◌, ◌≤◌, ◌⊎◌, IfErr};
ghost use Rattle.std.specs.Io.KnownBytes.{Keeps};
ghost use Rattle.toy_script_text.specs.Outcomes.{status_of};
ghost use Rattle.toy_script_text.specs.declared.script_error.ScriptError.TheVariants.{OutOfMemory, Unwritable};

use crate::script_uses::uses_text;
use crate::script_verify::write_found;
use ir_base_dialects::Limits;
use ir_run_sessions::Session;
use std::alloc::Global;
use std::io::{Read, Write};
use toy_dialect::Toy;
use toy_script_text::{
    Part, ScriptError, finish, parse_script, read_script, write_answers, write_text,
};

/// Reads a script from the input, carries it out with default limits, and prints its answers, one a line, and then each live value by number, and each live block by number, with its uses.
///
/// It answers the program's status: 0 where all lines were answered, refusals included; 1 where memory was wanting outside an edit and a verification; 2 where a line is malformed or the input can't be read; 3 where the output can't be written. Under 1 and 2 it says why on `fault`.
pub fn run_script<R: Read, W: Write, F: Write>(
    alloc: Global,
    input: &mut R,
    output: &mut W,
    fault: &mut F,
) -> u8
    ensures bounded { result ≤ 3 }
    ensures nothing_done { result ≡ 2 → output.new ≡ output.old }
    ensures nothing_told { (result ≡ 0) ⊎ (result ≡ 3) → Keeps (F.contents fault.old) (F.contents fault.new) }
{
    run_script_with_limits(alloc, Limits::default(), input, output, fault)
}

/// What `run_script` does, in a session with these limits, none of which passes its default.
pub fn run_script_with_limits<R: Read, W: Write, F: Write>(
    alloc: Global,
    limits: Limits,
    input: &mut R,
    output: &mut W,
    fault: &mut F,
) -> u8
    requires slots { limits.slots < 4294967295 }
    requires versions { 1 ≤ limits.last_version }
    ensures bounded { result ≤ 3 }
    ensures nothing_done { result ≡ 2 → output.new ≡ output.old }
    ensures nothing_told { (result ≡ 0) ⊎ (result ≡ 3) → Keeps (F.contents fault.old) (F.contents fault.new) }
{
    let outcome = answer_script(alloc, limits, input, output);
    // Where the reason can't be written, the status alone tells it.
    finish(outcome, fault).status
}

// Reads a script, carries it out and prints.
fn answer_script<R: Read, W: Write>(
    alloc: Global,
    limits: Limits,
    input: &mut R,
    output: &mut W,
) -> Result<(), ScriptError>
    requires slots { limits.slots < 4294967295 }
    requires versions { 1 ≤ limits.last_version }
    ensures nothing_done { status_of result ≡ 2 → output.new ≡ output.old }
{
    let script = read_script(alloc, input)?;
    let parts = parse_script(alloc, script.as_str())?;
    answer_parts(alloc, limits, parts, output)
}

// Carries the parts out, and prints the answers, and then what is live, with its uses.
fn answer_parts<W: Write>(
    alloc: Global,
    limits: Limits,
    parts: Vec<Part>,
    output: &mut W,
) -> Result<(), ScriptError>
    requires slots { limits.slots < 4294967295 }
    requires versions { 1 ≤ limits.last_version }
    ensures error { IfErr result (λ e. (e ≡ OutOfMemory) ⊎ (e ≡ Unwritable)) }
{
    let mut session = Session::new(alloc, limits);
    let ended = answer_all(&mut session, parts, output);
    session.end(ended)
}

// Carries the parts out in this session, and prints.
fn answer_all<W: Write>(
    session: &mut Session<Toy>,
    parts: Vec<Part>,
    output: &mut W,
) -> Result<(), ScriptError>
    ensures error { IfErr result (λ e. (e ≡ OutOfMemory) ⊎ (e ≡ Unwritable)) }
{
    let alloc = session.ctx().alloc();
    let mut text = String::new(alloc);
    for part in parts {
        answer_part(&mut text, session, part)?;
    }
    write_text(output, text.as_str())?;
    let text = uses_text(alloc, session)?;
    write_text(output, text.as_str())
}

// Carries the edits of a part out, verifies what it asks for after them, and writes the answers.
fn answer_part(text: &mut String, session: &mut Session<Toy>, part: Part) -> Result<(), ScriptError>
    ensures memory { IfErr result (λ e. e ≡ OutOfMemory) }
{
    let answers = session.run(part.edits)?;
    write_answers(text, part.letters.as_slice(), answers.as_slice())?;
    if let Some(op) = part.verified {
        write_found(text, session, op)?;
    }
    Ok(())
}
