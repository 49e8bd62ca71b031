//! What a line is answered: a text that is written piece by piece.

use ir_base_dialects::Answer;
use std::alloc::{AllocError, Global};
use std::fmt::{Debug, Display};
use testkit_edit_texts::{TextError, write_answer};

/// A text that is written piece by piece. What goes wrong is told by `end` alone: so the pieces need no early ends, after each of which the prover would follow all that comes behind.
#[derive(Drop)]
pub struct Reply {
    text: String,
    ended: Result<(), TextError>,
}

impl Reply {
    /// Nothing, without memory.
    pub fn new(alloc: Global) -> Reply {
        Reply {
            text: String::new(alloc),
            ended: Ok(()),
        }
    }

    /// Nothing, with room for so many bytes.
    ///
    /// # Errors
    /// Where the room was refused.
    pub(crate) fn with_room(alloc: Global, room: usize) -> Result<Reply, AllocError> {
        let mut text = String::new(alloc);
        text.reserve(room)?;
        Ok(Reply {
            text,
            ended: Ok(()),
        })
    }

    /// Puts words behind the text.
    pub fn say(&mut self, words: &str) {
        if self.text.push_str(words).is_err() {
            self.fail(TextError::OutOfMemory);
        }
    }

    /// Puts words and an item behind the text.
    pub fn show<T: Display + Drop>(&mut self, words: &str, item: T) {
        if write!(self.text, "{words}{item}").is_err() {
            self.fail(TextError::OutOfMemory);
        }
    }

    /// Puts an item behind the text, as its `Debug` writes it.
    pub fn debug<T: Debug + Drop>(&mut self, item: T) {
        if write!(self.text, "{item:?}").is_err() {
            self.fail(TextError::OutOfMemory);
        }
    }

    /// Puts the answer to an edit behind the text, of one that puts something into the table with this letter.
    pub(crate) fn answer(&mut self, letter: char, answer: Answer) {
        if write_answer(&mut self.text, letter, answer).is_err() {
            self.fail(TextError::OutOfMemory);
        }
    }

    /// Notes that there is no answer, and why.
    pub fn fail(&mut self, error: TextError) {
        self.ended = Err(error);
    }

    /// Whether the text is the answer.
    ///
    /// # Errors
    /// What was noted last: `OutOfMemory`, where memory was refused for a piece, or `Malformed`.
    pub fn end(&self) -> Result<(), TextError> {
        self.ended
    }

    /// The text.
    pub fn as_str(&self) -> &str {
        &self.text
    }

    /// Takes the text away, and keeps its memory.
    pub fn clear(&mut self) {
        self.text.clear();
        self.ended = Ok(());
    }
}
