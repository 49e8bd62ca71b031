//! What is built: the text, its rows and what their names mean.
ghost use Rattle.std.specs.Prelude.{◌≡◌, ◌≢◌, ◌⊎◌, ◌+◌, ◌++◌, ◌∷◌, [], List, ℕ, None, slice_index_or};
ghost use Rattle.ir_text_names.specs.Rows.{text_of};
ghost use Rattle.ir_text_outline.specs.Sources.{digits_behind, held, part_at, with_digit};

use ir_text_names::{Names, piece};
use ir_text_tree::{Part, Row};

/// The text, its rows and what their names mean.
#[derive(Clone, Copy)]
pub struct Source<'a> {
    pub text: &'a [u8],
    pub rows: &'a [Row],
    pub names: &'a Names,
}

impl<'a> Source<'a> {
    /// What the row is; past the end the end of a region.
    pub fn part(self, at: usize) -> Part
        ensures { result ≡ part_at self.entry.rows.now at }
    {
        match self.rows.get(at) {
            Some(row) => row.part,
            None => Part::Close,
        }
    }

    /// The piece of the text that the row is; nothing past the end.
    pub fn piece(self, at: usize) -> &'a [u8]
        ensures { result.now ≡ text_of self.entry.text.now self.entry.rows.now at }
    {
        match self.rows.get(at) {
            Some(row) => piece(self.text, row.span),
            None => &self.text[..0],
        }
    }

    /// The piece of the text that the row is, without its quotes.
    pub fn unquoted(self, at: usize) -> &'a [u8]
        ensures quoted { (inner : List ℕ) → text_of self.entry.text.now self.entry.rows.now at ≡ 34 ∷ (inner ++ 34 ∷ []) → result.now ≡ inner }
        ensures plain { (result.now ≡ text_of self.entry.text.now self.entry.rows.now at) ⊎ (text_of self.entry.text.now self.entry.rows.now at ≡ 34 ∷ (result.now ++ 34 ∷ [])) }
    {
        match self.piece(at) {
            [b'"', inner @ .., b'"'] => inner,
            piece => piece,
        }
    }

    /// The row of the definition that an operand names.
    pub fn definition(self, at: usize) -> Option<usize>
        ensures { result ≡ slice_index_or self.entry.names.now.values at None }
    {
        self.names.values.get(at)
    }

    /// The row of the block that a successor names.
    pub fn block(self, at: usize) -> Option<usize>
        ensures { result ≡ slice_index_or self.entry.names.now.blocks at None }
    {
        self.names.blocks.get(at)
    }

    /// Which of the values under its name an operand is.
    pub fn index(self, at: usize) -> usize
        ensures number { part_at self.entry.rows.now (at + 1) ≡ Part.Index → result ≡ held (digits_behind 0 (text_of self.entry.text.now self.entry.rows.now (at + 1))) }
        ensures none { part_at self.entry.rows.now (at + 1) ≢ Part.Index → result ≡ 0 }
    {
        let behind = at.saturating_add(1);
        match self.part(behind) {
            Part::Index => number(self.piece(behind)),
            _ => 0,
        }
    }

    /// How many values stand under the name of a result.
    pub fn width(self, at: usize) -> usize
        ensures number { part_at self.entry.rows.now (at + 1) ≡ Part.Count → result ≡ held (digits_behind 0 (text_of self.entry.text.now self.entry.rows.now (at + 1))) }
        ensures none { part_at self.entry.rows.now (at + 1) ≢ Part.Count → result ≡ 1 }
    {
        let behind = at.saturating_add(1);
        match self.part(behind) {
            Part::Count => number(self.piece(behind)),
            _ => 1,
        }
    }
}

// A number with this digit behind its digits, as far as it can be held; what is no digit counts for nothing.
fn with_digit(number: usize, byte: u8) -> usize
    ensures { result ≡ held (with_digit number byte) }
{
    if byte.is_ascii_digit() {
        number
            .saturating_mul(10)
            .saturating_add(byte.saturating_sub(b'0') as usize)
    } else {
        number
    }
}

// The number that the digits of a piece make, as far as it can be held.
fn number(piece: &[u8]) -> usize
    ensures { result ≡ held (digits_behind 0 piece.now) }
{
    let mut number: usize = 0;
    for byte in piece {
        number = with_digit(number, *byte);
    }
    number
}
