//! Answers as texts.

use ir_base_dialects::{Answer, Refused};
use ir_run_edits::Edit;
use std::alloc::{AllocError, Global};
use toy_dialect::Toy;

/// The letter of the table that an edit puts something into, or of operations where it puts nothing into any.
pub fn letter_of(edit: &Edit<Toy>) -> char {
    match edit {
        Edit::NewType(_) => 't',
        Edit::NewBlock { .. } => 'b',
        Edit::AddRegion { .. } => 'r',
        Edit::PushResult { .. } | Edit::InsertResult { .. } => 'v',
        Edit::PushArgument { .. } | Edit::InsertArgument { .. } => 'v',
        _ => 'o',
    }
}

/// The text of the answer to an edit that puts something into the table with this letter.
pub fn answer_text(alloc: Global, letter: char, answer: Answer) -> Result<String, AllocError> {
    let mut text = String::new(alloc);
    write_answer(&mut text, letter, answer)?;
    Ok(text)
}

/// Writes the same behind a text.
pub fn write_answer(text: &mut String, letter: char, answer: Answer) -> Result<(), AllocError> {
    match answer {
        Answer::Made(number) => write!(text, "made {letter}{number}"),
        Answer::Done => text.push_str("done"),
        Answer::Refused(refused) => text.push_str(refusal_text(refused)),
    }
}

// The text of a refusal.
fn refusal_text(refused: Refused) -> &'static str {
    match refused {
        Refused::Condition => "refused condition",
        Refused::Memory => "refused memory",
        Refused::Counter => "refused counter",
        Refused::Slots => "refused slots",
    }
}
