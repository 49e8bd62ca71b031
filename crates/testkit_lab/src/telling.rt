//! What a direct call answered, as text.

use crate::context_edits::refused;
use crate::lab::Lab;
use crate::naming::Named;
use crate::reply::Reply;
use ir_base_dialects::{Answer, Refused};
use ir_checked_core::CheckedErr;

/// Writes why a call was refused.
pub fn tell_refused(text: &mut Reply, error: CheckedErr) {
    text.answer('-', Answer::Refused(refused(error)));
}

/// Writes that a condition doesn't hold.
pub fn tell_condition(text: &mut Reply) {
    text.answer('-', Answer::Refused(Refused::Condition));
}

/// Writes whether a call was made.
pub fn tell_done(text: &mut Reply, answer: Result<(), CheckedErr>) {
    match answer {
        Ok(()) => text.say("done"),
        Err(error) => tell_refused(text, error),
    }
}

/// Writes the number that a call answered.
pub fn tell_number(text: &mut Reply, answer: Result<usize, CheckedErr>) {
    match answer {
        Ok(number) => text.show("", number),
        Err(error) => tell_refused(text, error),
    }
}

/// Writes the name of what a call answered.
pub fn tell_name<T: Named>(lab: &mut Lab, answer: Result<T, CheckedErr>) {
    match answer {
        Ok(item) => {
            let name = item.name(lab);
            lab.text.show("", name);
        }
        Err(error) => tell_refused(&mut lab.text, error),
    }
}
