//! The words that change a lab, and its dump.

use crate::context_edits::carry_out;
use crate::dumps::dump;
use crate::fields::two;
use crate::lab::{Lab, Mode};
use crate::questions;
use crate::runs::run;
use ir_base_dialects::{Answer, Limits};
use ir_run_sessions::Edit;
use testkit_edit_texts::{TextError, edit_of, letter_of, take_field};
use toy_dialect::Toy;

/// Answers a line: a word of this crate, and its fields.
///
/// # Errors
/// `Malformed` where it is none, and `OutOfMemory`.
pub fn answer(lab: &mut Lab, word: &str, rest: &str) -> Result<(), TextError> {
    match word {
        "begin" => begin(lab, rest),
        "dump" => write_dump(lab),
        "room" => questions::room(lab, rest),
        "is-empty" => questions::is_empty(lab, rest),
        "reserve" => questions::reserve(lab, rest),
        "clear" => questions::clear(lab, rest),
        "run" => run(lab, rest),
        _ => edit(lab, word, rest),
    }
}

// Begins anew.
fn begin(lab: &mut Lab, rest: &str) -> Result<(), TextError> {
    let (word, limits) = take_field(rest).ok_or(TextError::Malformed)?;
    let mode = mode_of(word)?;
    lab.begin(mode, limits_of(limits)?)?;
    lab.text.say("done");
    Ok(())
}

// The mode of a word.
fn mode_of(word: &str) -> Result<Mode, TextError> {
    match word {
        "session" => Ok(Mode::Session),
        "context" => Ok(Mode::Context),
        _ => Err(TextError::Malformed),
    }
}

// A number in front of the rest.
fn numbered(text: &str) -> Result<(u64, &str), TextError> {
    let (field, rest) = take_field(text).ok_or(TextError::Malformed)?;
    match field.parse() {
        Ok(number) => Ok((number, rest)),
        Err(_) => Err(TextError::Malformed),
    }
}

// The limits of four fields, or of none.
fn limits_of(text: &str) -> Result<Limits, TextError> {
    if text.is_empty() {
        return Ok(Limits::default());
    }
    let (values, rest) = numbered(text)?;
    let (uses, rest) = numbered(rest)?;
    let (slots, last_version) = two(rest)?;
    match (slots.parse(), last_version.parse()) {
        (Ok(slots), Ok(last_version)) => Ok(Limits {
            values,
            uses,
            slots,
            last_version,
        }),
        _ => Err(TextError::Malformed),
    }
}

// Writes the dump below its word.
fn write_dump(lab: &mut Lab) -> Result<(), TextError> {
    let lines = dump(lab.ctx(), &lab.tables)?;
    lab.text.say("dump");
    for line in lines.lines() {
        lab.text.show("\n  ", line);
    }
    Ok(())
}

// Carries an edit out, and writes how it ends.
fn edit(lab: &mut Lab, word: &str, rest: &str) -> Result<(), TextError> {
    let alloc = lab.alloc();
    let edit = edit_of(alloc, word, rest)?;
    let letter = letter_of(&edit);
    let answer = match lab.mode {
        Mode::Session => run_one(lab, edit)?,
        Mode::Context => carry_out(&mut lab.context, &mut lab.tables, edit)?,
    };
    lab.text.answer(letter, answer);
    Ok(())
}

// Carries an edit out in a run of its own.
fn run_one(lab: &mut Lab, edit: Edit<Toy>) -> Result<Answer, TextError> {
    let mut edits = Vec::new(lab.alloc());
    edits.push(edit)?;
    let answers = lab.session.run(edits)?;
    lab.read()?;
    Ok(answers.first().copied().unwrap_or(Answer::Done))
}
