//! Which of the values under its name an operand is.
ghost use Rattle.std.specs.Prelude.{◌≡◌, ℕ, ◌<◌, ◌^◌, Option, Some, length, drop, IsTrue, ◌↔◌};
ghost use Rattle.ir_text_names.specs.Firsts.{IsFirst};
ghost use Rattle.ir_text_names.specs.Indices.{is_index, which, IsOneOf, IsEntryBeyond};
ghost use Rattle.ir_text_names.specs.Numbers.{amount_of};

use crate::numbers::{Amount, number_in};
use crate::result_numbers::width;
use crate::row_table::RowTable;
use crate::rows::piece;
use ir_text_tree::{Part, Row};

// Whether the part says which of several values an operand is.
fn is_index(part: Part) -> bool
    ensures { result ≡ is_index part }
{
    match part {
        Part::Index => true,
        _ => false,
    }
}

/// All but the first byte.
pub(crate) fn behind_mark<'a>(text: &'a [u8]) -> &'a [u8]
    ensures { result.now ≡ drop 1 text.now }
{
    if text.is_empty() { text } else { &text[1..] }
}

/// Which of the values under its name the operand is.
pub fn which(text: &[u8], rows: &[Row], row: usize) -> Amount
    requires { row < length rows.now }
    ensures { result ≡ amount_of (which text.now rows.now row) }
{
    if row + 1 < rows.len() {
        let next = rows[row + 1];
        if is_index(next.part) {
            number_in(behind_mark(piece(text, next.span)))
        } else {
            Amount::Small(0)
        }
    } else {
        Amount::Small(0)
    }
}

// Whether the number is below the other.
fn is_below(number: Amount, width: Amount) -> bool
    ensures { (o : Option ℕ) (m : ℕ) → number ≡ amount_of o → width ≡ amount_of (Some m) → (IsTrue result ↔ ((k : ℕ) × (o ≡ Some k) × (k < 2 ^ 64) × (k < m))) }
{
    match number {
        Amount::Small(held) => match width {
            Amount::Small(all) => held < all,
            _ => true,
        },
        _ => false,
    }
}

/// Whether the operand names a definition, and its number is none of the values there.
#[inline(always)]
pub(crate) fn is_beyond(text: &[u8], rows: &[Row], row: usize, entry: Option<usize>) -> bool
    requires { row < length rows.now }
    ensures { IsTrue result ↔ ((d : ℕ) × (entry ≡ Some d) × (d < length rows.now) × ¬ IsOneOf text.now rows.now row d) }
{
    match entry {
        None => false,
        Some(definition) => {
            if definition < rows.len() {
                !is_below(which(text, rows, row), width(text, rows, definition))
            } else {
                false
            }
        }
    }
}

/// The first operand whose number is none of the values of the definition that it names.
pub(crate) fn first_beyond(text: &[u8], rows: &[Row], table: &RowTable) -> Option<usize>
    requires { length table.now ≡ length rows.now }
    ensures { IsFirst (IsEntryBeyond text.now rows.now table.now) (length rows.now) result }
{
    for (at, _) in rows.iter().enumerate() {
        if is_beyond(text, rows, at, table.get(at)) {
            return Some(at);
        }
    }
    None
}
