//! Where a word goes: by its call, and by what its fields name.

use crate::checked::asks::ask;
use crate::checked::edits::edit;
use crate::checked::told::tell_edit;
use ir_checked_core::identifier;
use std::mem::replace;
use testkit_lab::{Items, Lab, Mode, Reply, TextError, items_of};

/// Answers a line: a word of this module, and its fields.
///
/// # Errors
/// `Malformed` where a field names nothing. Else the end of the lab's text tells whether there is an answer.
pub(crate) fn answer(lab: &mut Lab, word: &str, rest: &str) -> Result<(), TextError> {
    match word.split_once('.') {
        Some((_group, "identifier::new")) => new_identifier(lab, rest),
        Some((_group, call)) => {
            let items = items_of(lab, rest)?;
            answer_of(lab, call, items);
        }
        None => lab.text.fail(TextError::Malformed),
    }
    Ok(())
}

fn answer_of(lab: &mut Lab, call: &str, items: Items) {
    match lab.mode {
        Mode::Session => read(lab, call, items),
        Mode::Context => edit(lab, call, items),
    }
}

/// Answers a line that leaves the lab as it is.
pub(crate) fn read(lab: &mut Lab, call: &str, items: Items) {
    let nothing = Reply::new(lab.alloc());
    let mut text = replace(&mut lab.text, nothing);
    ask(&mut text, lab, call, items);
    lab.text = text;
}

// `entry`, `_1`, `1st` or `an-entry`.
fn new_identifier(lab: &mut Lab, rest: &str) {
    match rest {
        "entry" => tell_edit(lab, identifier::new("entry")),
        "_1" => tell_edit(lab, identifier::new("_1")),
        "1st" => tell_edit(lab, identifier::new("1st")),
        "an-entry" => tell_edit(lab, identifier::new("an-entry")),
        _ => lab.text.fail(TextError::Malformed),
    }
}
