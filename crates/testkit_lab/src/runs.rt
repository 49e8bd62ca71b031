//! Several edits in one run of a session.

use crate::lab::{Lab, Mode};
use ir_base_dialects::Answer;
use ir_run_sessions::Edit;
use std::alloc::Global;
use testkit_edit_texts::{TextError, letter_of, parse_edit};
use toy_dialect::Toy;

/// Carries the edits of a text, with `;` between them, out in one run, and writes how each ends.
pub(crate) fn run(lab: &mut Lab, text: &str) -> Result<(), TextError> {
    match lab.mode {
        Mode::Session => run_all(lab, text),
        Mode::Context => Err(TextError::Malformed),
    }
}

// The same where the lab is a session.
fn run_all(lab: &mut Lab, text: &str) -> Result<(), TextError> {
    let edits = edits_of(lab.alloc(), text)?;
    let answers = lab.session.run(edits)?;
    write_answers(lab, text, answers.as_slice())
}

// The edits of a text.
fn edits_of(alloc: Global, text: &str) -> Result<Vec<Edit<Toy>>, TextError> {
    let mut edits = Vec::new(alloc);
    for line in text.split(';') {
        edits.push(parse_edit(alloc, line)?)?;
    }
    Ok(edits)
}

// Enters what was made, and writes the answers, with ` ; ` between them.
fn write_answers(lab: &mut Lab, text: &str, answers: &[Answer]) -> Result<(), TextError> {
    lab.read()?;
    for (line, answer) in text.split(';').zip(answers.iter()) {
        write_one(lab, line, *answer)?;
    }
    Ok(())
}

// Writes the answer to the edit of a line.
fn write_one(lab: &mut Lab, line: &str, answer: Answer) -> Result<(), TextError> {
    let letter = letter_of(&parse_edit(lab.alloc(), line)?);
    if !lab.text.as_str().is_empty() {
        lab.text.say(" ; ");
    }
    lab.text.answer(letter, answer);
    Ok(())
}
