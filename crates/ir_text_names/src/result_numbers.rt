//! Numbers of results: how many stand under a name, and how many an operation has.
ghost use Rattle.std.specs.Prelude.{◌≡◌, ◌≢◌, ℕ, ◌+◌, ◌<◌, length, Some, IfOk, IsTrue, ◌↔◌, slice_index_or};
ghost use Rattle.std.specs.Option.{unwrap_or};
ghost use Rattle.ir_text_tree.specs.declared.row.Part.TheVariants as parts;
ghost use Rattle.ir_text_names.specs.Firsts.{IsChecked, IsFirst, IsFirstWrong};
ghost use Rattle.ir_text_names.specs.Numbers.{amount_of, number_in, is_count, width, results_on, results_before, IsNoCount, IsResultWrong};
ghost use Rattle.ir_text_names.specs.Operations.{AreCounted, number_of};
ghost use Rattle.ir_text_names.specs.declared.counting.Counted.TheVariants as counted;
ghost use Rattle.ir_text_names.specs.Rows.{part_of, piece};

use crate::counting::{PartCounts, part_counts};
use crate::fault::{Fault, Wrong};
use crate::firsts::{Found, fault_of, sooner, told};
use crate::numbers::{Amount, is_number, is_zero, number_in, or_zero, sum_of};
use crate::rows::{are_few, next_number, operations, piece};
use ir_text_tree::{Part, Row, Span};
use std::alloc::Global;

// Whether the part says how many results stand under a name.
fn is_count(part: Part) -> bool
    ensures { result ≡ is_count part }
{
    match part {
        Part::Count => true,
        _ => false,
    }
}

/// How many values stand under the name that the row gives.
pub fn width(text: &[u8], rows: &[Row], row: usize) -> Amount
    requires { row < length rows.now }
    ensures { result ≡ amount_of (Some (width text.now rows.now row)) }
{
    if row + 1 < rows.len() {
        let next = rows[row + 1];
        if is_count(next.part) {
            or_zero(number_in(piece(text, next.span)))
        } else {
            Amount::Small(1)
        }
    } else {
        Amount::Small(1)
    }
}

/// The results so far, behind a row that is such a part.
pub(crate) fn results_behind(
    part: Part,
    text: &[u8],
    rows: &[Row],
    row: usize,
    before: Amount,
) -> Amount
    requires { row < length rows.now }
    ensures { (n : ℕ) → before ≡ amount_of (Some n) → result ≡ amount_of (Some (results_on part (width text.now rows.now row) n)) }
{
    match part {
        Part::Result => sum_of(before, width(text, rows, row)),
        Part::Count => before,
        _ => Amount::Small(0),
    }
}

// Whether the part says how many results stand under a name, and is no number, or 0.
fn is_bad_count(part: Part, text: &[u8], span: Span) -> bool
    ensures { IsTrue result ↔ ((part ≡ parts.Count) × (unwrap_or (number_in (piece text.now span)) 0 ≡ 0)) }
{
    match part {
        Part::Count => is_zero(number_in(piece(text, span))),
        _ => false,
    }
}

// Whether the part is the name of an operation, and the results before it are not so many.
fn is_other(part: Part, results: Amount, number: usize) -> bool
    ensures { (n : ℕ) → results ≡ amount_of (Some n) → (IsTrue result ↔ ((part ≡ parts.Name) × (n ≢ number))) }
{
    match part {
        Part::Name => !is_number(results, number),
        _ => false,
    }
}

// The first number of results that is none.
fn first_bad_count(text: &[u8], rows: &[Row]) -> Option<usize>
    ensures { IsFirst (IsNoCount text.now rows.now) (length rows.now) result }
{
    for (at, row) in rows.iter().enumerate() {
        if is_bad_count(row.part, text, row.span) {
            return Some(at);
        }
    }
    None
}

// The first operation that has not as many results as these numbers say, of which each stands at the operation's number.
fn first_other_results(text: &[u8], rows: &[Row], types: &[u32]) -> Option<usize>
    requires few { length rows.now < 4294967295 }
    requires types { length types.now ≡ number_of rows.now (length rows.now) + 1 }
    ensures { IsFirst (λ i. (part_of rows.now i ≡ parts.Name) × (results_before text.now rows.now i ≢ slice_index_or types.now (number_of rows.now (i + 1)) 0)) (length rows.now) result }
{
    let mut results = Amount::Small(0);
    let mut number = 0;
    for (at, row) in rows.iter().enumerate() {
        number = next_number(row.part, number);
        if is_other(row.part, results, types[number] as usize) {
            return Some(at);
        }
        results = results_behind(row.part, text, rows, at, results);
    }
    None
}

/// The first number of results that is none, or operation that has more or fewer result types than results.
pub(crate) fn result_fault(text: &[u8], rows: &[Row], counts: &PartCounts) -> Option<Found>
    requires few { length rows.now < 4294967295 }
    requires types { AreCounted counted.ResultTypes rows.now (length rows.now) counts.now.result_types.items }
    ensures { IsFirstWrong (IsResultWrong text.now rows.now) (length rows.now) result }
{
    let other = first_other_results(text, rows, &counts.result_types);
    let uneven = told(other, Wrong::ResultTypes);
    let unread = told(first_bad_count(text, rows), Wrong::ResultCount);
    sooner(unread, uneven)
}

/// Whether each operation of a tree of that text has as many result types as results, where `%x:2` stands for two.
///
/// # Errors
/// `OutOfMemory`, also of more than 4,294,967,294 rows, and else the first number of results that is no decimal number, or 0, or the name of the first operation that has more or fewer result types.
pub fn result_types(alloc: Global, text: &[u8], rows: &[Row]) -> Result<(), Fault>
    ensures { IsChecked (IsResultWrong text.now rows.now) rows.now result }
{
    are_few(rows)?;
    let operations = operations(alloc, rows)?;
    let counts = part_counts(alloc, rows, &operations)?;
    let found = result_fault(text, rows, &counts);
    match fault_of(rows, found) {
        Some(fault) => Err(fault),
        None => Ok(()),
    }
}
