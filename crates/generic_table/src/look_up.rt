//! Rows by names, and back.
ghost use Rattle.std.specs.Prelude.{◌≡◌, ◌<◌, ◌∷◌, length, map, slice_get, slice_index_or};
ghost use Rattle.std.specs.List.{position};
ghost use Rattle.std.specs.Option.{option_copied, option_map};
ghost use Rattle.std.specs.Str.{bytes_eq};
ghost use Rattle.generic_table.specs.Cut.{Operation};
ghost use Rattle.generic_table.specs.Table.{all_names, operations, rows};

use crate::table::{NAMES, ROWS};
use crate::traits::Traits;
use std::cmp::Ordering;

// The names of all operations, one after the other.
fn all_names() -> &'static [u8]
    ensures { result.now ≡ all_names }
{
    &NAMES
}

// The rows in their order.
fn rows() -> &'static [(u16, Traits)]
    ensures { result.now ≡ rows }
{
    &ROWS
}

// How many rows there are.
fn count() -> usize
    ensures { result ≡ length operations }
{
    rows().len()
}

// Where the name of the operation in a row begins: where the one before it ends.
fn start_of(row: usize) -> usize
    requires { row < length rows }
    ensures { result ≡ slice_index_or (0 ∷ map (λ r. r.0) rows) row 0 }
{
    if row == 0 {
        return 0;
    }
    let (end, _) = rows()[row - 1];
    usize::from(end)
}

// The name of the operation in a row.
fn name_of(row: usize) -> &'static [u8]
    requires { row < length operations }
    ensures { (d : Operation) → result.now ≡ (slice_index_or operations row d).0 }
{
    let start = start_of(row);
    let (end, _) = rows()[row];
    &all_names()[start..usize::from(end)]
}

/// The row of the operation with this name, where the table has it.
pub fn row_of(name: &[u8]) -> Option<u16>
    ensures { result ≡ position (λ operation. bytes_eq operation.0 name.now) operations }
{
    let mut low = 0;
    let mut high = count();
    while low < high {
        let middle = low + (high - low) / 2;
        match name_of(middle).cmp(name) {
            Ordering::Less => low = middle + 1,
            Ordering::Equal => return Some(middle as u16),
            Ordering::Greater => high = middle,
        }
    }
    None
}

/// The name of the operation in this row, where the table has it.
pub fn name_at(row: u16) -> Option<&'static [u8]>
    ensures { option_copied result ≡ option_map (λ operation. operation.0) (slice_get operations row) }
{
    let row = usize::from(row);
    if row < count() {
        Some(name_of(row))
    } else {
        None
    }
}

/// What MLIR says of the operation in this row, where the table has it.
pub fn traits_at(row: u16) -> Option<Traits>
    ensures { result ≡ option_map (λ operation. operation.1) (slice_get operations row) }
{
    let row = usize::from(row);
    if row < count() {
        let (_, traits) = rows()[row];
        Some(traits)
    } else {
        None
    }
}
