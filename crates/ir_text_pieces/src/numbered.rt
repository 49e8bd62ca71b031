//! Pieces that are a mark and a number, each written once.
ghost use Rattle.std.specs.Prelude.{◌≡◌, ◌⊎◌, ◌++◌, ◌+◌, ◌-◌, ◌≤◌, ◌^◌, ℕ, List, length, decimal, Some, None, IfOk, IfErr, OnOk, OnErr};
ghost use Rattle.std.specs.Io.{StartsWith};
ghost use Rattle.ir_text_tree.specs.Rows.{span};
ghost use Rattle.ir_text_tree.specs.declared.row.Span.{Span};
ghost use Rattle.ir_text_pieces.specs.Pieces.{AreWritten, IsPiece, mark_of, numbered_piece, numbered_texts, written_count};

use crate::description::Description;
use crate::error::DescribeErr;
use ir_text_tree::Span;
use itoa::Buffer;
use std::alloc::Global;

/// The pieces of a text that are a mark and a number behind it, from 0 on.
#[derive(Debug, Drop)]
pub struct Numbered {
    mark: &'static str,
    spans: Vec<Span>,
}

impl Numbered {
    /// None yet, of this mark.
    pub fn new(alloc: Global, mark: &'static str) -> Self
        ensures mark { mark_of result ≡ mark.now }
        ensures none { (k : ℕ) → numbered_piece result k ≡ None }
        ensures written { (text : List ℕ) → AreWritten text result }
    {
        Numbered {
            mark,
            spans: Vec::new(alloc),
        }
    }

    // Writes the mark and the next number behind the text.
    fn write_text(&self, to: &mut Description) -> Result<Span, DescribeErr>
        ensures text { OnOk result (to.new.text.items ≡ to.old.text.items ++ (mark_of self.now ++ decimal (written_count self.now))) }
        ensures span { IfOk result (λ s. s ≡ span (length to.old.text.items) (length to.new.text.items)) }
        ensures rows { to.new.rows ≡ to.old.rows }
        ensures front { StartsWith to.new.text.items to.old.text.items }
        ensures long { IfErr result (λ e. e ≡ DescribeErr.TooLong → 2 ^ 32 ≤ length to.new.text.items) }
    {
        let start = to.text.len();
        to.text.extend_from_slice(self.mark.as_bytes())?;
        to.text
            .extend_from_slice(Buffer::new().format(self.spans.len()).as_bytes())?;
        to.piece_from(start)
    }

    // Writes the piece with the next number.
    fn write_next(&mut self, to: &mut Description) -> Result<(), DescribeErr>
        ensures pieces { (k : ℕ) (s : Span) → numbered_piece self.old k ≡ Some s → numbered_piece self.new k ≡ Some s }
        ensures written { AreWritten to.old.text.items self.old → AreWritten to.new.text.items self.new }
        ensures count { OnOk result (written_count self.new ≡ written_count self.old + 1) }
        ensures text { OnOk result (to.new.text.items ≡ to.old.text.items ++ (mark_of self.old ++ decimal (written_count self.old))) }
        ensures mark { mark_of self.new ≡ mark_of self.old }
        ensures rows { to.new.rows ≡ to.old.rows }
        ensures front { StartsWith to.new.text.items to.old.text.items }
        ensures long { IfErr result (λ e. e ≡ DescribeErr.TooLong → 2 ^ 32 ≤ length to.new.text.items) }
    {
        let span = self.write_text(to)?;
        self.spans.push(span)?;
        Ok(())
    }

    /// The piece with this number. What isn't written yet is written with all that have lower numbers, so numbers are to be given from 0 on.
    ///
    /// # Errors
    /// `OutOfMemory` or `TooLong`.
    pub fn piece(&mut self, to: &mut Description, number: u32) -> Result<Span, DescribeErr>
        ensures span { IfOk result (λ s. numbered_piece self.new number ≡ Some s) }
        // It is the mark, and the number behind it.
        ensures piece { AreWritten to.old.text.items self.old → IfOk result (λ s. IsPiece to.new.text.items s (mark_of self.old ++ decimal number)) }
        ensures written { AreWritten to.old.text.items self.old → AreWritten to.new.text.items self.new }
        // The text gets each piece up to this one that is missing, and nothing else.
        ensures text { OnOk result (to.new.text.items ≡ to.old.text.items ++ numbered_texts (mark_of self.old) (written_count self.old) (number + 1 - written_count self.old)) }
        // What is written is not written again.
        ensures once { (s : Span) → numbered_piece self.old number ≡ Some s → (result ≡ Ok s) × (to.new ≡ to.old) }
        ensures kept { (k : ℕ) (s : Span) → numbered_piece self.old k ≡ Some s → numbered_piece self.new k ≡ Some s }
        ensures mark { mark_of self.new ≡ mark_of self.old }
        ensures rows { to.new.rows ≡ to.old.rows }
        ensures front { StartsWith to.new.text.items to.old.text.items }
        ensures long { IfErr result (λ e. e ≡ DescribeErr.TooLong → 2 ^ 32 ≤ length to.new.text.items) }
        ensures error { IfErr result (λ e. (e ≡ DescribeErr.OutOfMemory) ⊎ (e ≡ DescribeErr.TooLong)) }
    {
        let number = number as usize;
        while self.spans.len() <= number {
            self.write_next(to)?;
        }
        Ok(self.spans[number])
    }
}
