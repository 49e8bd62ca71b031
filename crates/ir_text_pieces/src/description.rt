//! Rows with the text of which their spans are pieces.
ghost use Rattle.std.specs.Prelude.{◌≡◌, ◌⊎◌, ◌++◌, ◌≤◌, ◌<◌, ◌^◌, ◌∷◌, [], length, IfOk, IfErr, IsErr, OnOk, OnErr, ◌↔◌};
ghost use Rattle.std.specs.Io.{StartsWith};
ghost use Rattle.ir_text_tree.specs.Rows.{row, span};

use crate::error::DescribeErr;
use ir_text_tree::{Part, Row, Span};
use std::alloc::Global;

/// Rows with the text of which their spans are pieces. `ir_text_spelling::spell_to(&text, &rows, output)` prints it.
#[derive(Debug, Drop)]
pub struct Description {
    /// The text: pieces in any order, each once or more.
    pub text: Vec<u8>,
    /// The rows, in the order of the tree.
    pub rows: Vec<Row>,
}

impl Description {
    /// No rows, and an empty text.
    pub fn new(alloc: Global) -> Self
        ensures text { result.text.items ≡ [] }
        ensures rows { result.rows.items ≡ [] }
    {
        Description {
            text: Vec::new(alloc),
            rows: Vec::new(alloc),
        }
    }

    /// The piece from this index up to the end of the text.
    ///
    /// # Errors
    /// `TooLong` where the text is longer than 4,294,967,295 bytes.
    pub fn piece_from(&self, start: usize) -> Result<Span, DescribeErr>
        requires { start ≤ length self.now.text.items }
        ensures span { IfOk result (λ s. s ≡ span start (length self.now.text.items)) }
        ensures long { IsErr result ↔ (2 ^ 32 ≤ length self.now.text.items) }
        ensures error { IfErr result (λ e. e ≡ DescribeErr.TooLong) }
    {
        let end = self.text.len();
        if end < 1 << 32 {
            Ok(Span {
                start: start as u32,
                end: end as u32,
            })
        } else {
            Err(DescribeErr::TooLong)
        }
    }

    /// Puts a row behind the others.
    ///
    /// # Errors
    /// `OutOfMemory`.
    pub fn put(&mut self, part: Part, span: Span) -> Result<(), DescribeErr>
        ensures rows { OnOk result (self.new.rows.items ≡ self.old.rows.items ++ row part span ∷ []) }
        ensures kept { OnErr result (self.new.rows.items ≡ self.old.rows.items) }
        ensures text { self.new.text ≡ self.old.text }
        ensures error { IfErr result (λ e. e ≡ DescribeErr.OutOfMemory) }
    {
        self.rows.push(Row { part, span })?;
        Ok(())
    }

    /// Writes a piece behind the text.
    ///
    /// # Errors
    /// `OutOfMemory` or `TooLong`.
    pub fn write(&mut self, bytes: &[u8]) -> Result<Span, DescribeErr>
        ensures text { OnOk result (self.new.text.items ≡ self.old.text.items ++ bytes.now) }
        ensures span { IfOk result (λ s. s ≡ span (length self.old.text.items) (length self.new.text.items)) }
        ensures rows { self.new.rows ≡ self.old.rows }
        ensures front { StartsWith self.new.text.items self.old.text.items }
        // Without memory the text stays.
        ensures kept { IfErr result (λ e. e ≡ DescribeErr.OutOfMemory → self.new.text.items ≡ self.old.text.items) }
        // A text that gets too long has the piece.
        ensures written { IfErr result (λ e. e ≡ DescribeErr.TooLong → self.new.text.items ≡ self.old.text.items ++ bytes.now) }
        ensures long { IfErr result (λ e. e ≡ DescribeErr.TooLong → 2 ^ 32 ≤ length self.new.text.items) }
        ensures error { IfErr result (λ e. (e ≡ DescribeErr.OutOfMemory) ⊎ (e ≡ DescribeErr.TooLong)) }
    {
        let start = self.text.len();
        self.text.extend_from_slice(bytes)?;
        self.piece_from(start)
    }
}
