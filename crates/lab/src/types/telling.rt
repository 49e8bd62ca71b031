//! Parts of answers.

use ir_base_dialects::CoreError;
use ir_checked_core::CheckedErr;
use std::fmt;
use std::fmt::{Display, Formatter, Write};
use testkit_lab::{Reply, TextError, tell_refused};

/// Something, or `-` where there is none.
#[derive(Drop)]
pub(crate) struct Maybe<T>(pub(crate) Option<T>);

impl<T: Display> Display for Maybe<T> {
    fn fmt<W: Write>(&self, f: &mut Formatter<W>) -> fmt::Result {
        match &self.0 {
            Some(item) => write!(f, "{item}"),
            None => f.write_str("-"),
        }
    }
}

/// Writes why a call was refused.
pub(crate) fn tell_refusal(text: &mut Reply, error: CoreError) {
    tell_refused(text, CheckedErr::Core(error));
}

/// Writes what a call answers that may be refused.
pub(crate) fn tell<T: Display + Drop>(text: &mut Reply, answer: Result<T, CoreError>) {
    match answer {
        Ok(told) => text.show("", told),
        Err(error) => tell_refusal(text, error),
    }
}

/// Writes how a call ends that answers nothing.
pub(crate) fn tell_end(text: &mut Reply, ended: Result<(), CoreError>) {
    match ended {
        Ok(()) => text.say("done"),
        Err(error) => tell_refusal(text, error),
    }
}

/// Writes that something is done, or `-` where there is nothing to which it could be.
pub(crate) fn tell_whether(text: &mut Reply, is_done: bool) {
    text.say(if is_done { "done" } else { "-" });
}

/// Enters what was made behind the others, and writes its name, which begins so.
pub(crate) fn enter<T: Copy + Drop>(text: &mut Reply, name: &str, table: &mut Vec<T>, made: T) {
    text.show(name, table.len());
    if table.push(made).is_err() {
        text.fail(TextError::OutOfMemory);
    }
}
