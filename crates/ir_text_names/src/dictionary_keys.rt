//! The keys of dictionaries.
ghost use Rattle.ir_text_names.specs.Firsts.{IsChecked, IsFirstWrong};
ghost use Rattle.std.specs.Prelude.{length, IfOk};
ghost use Rattle.ir_text_names.specs.Keys.{IsKeyWrong};
ghost use Rattle.ir_text_names.specs.Operations.{AreCounted, AreOperations};
ghost use Rattle.ir_text_names.specs.declared.counting.Counted.TheVariants as counted;

use crate::counting::{PartCounts, part_counts};
use crate::fault::{Fault, Wrong};
use crate::firsts::{Found, fault_of, told};
use crate::given::{NameKind, escaped_names, given};
use crate::rows::{NumberedOperations, are_few, operations};
use ir_text_tree::Row;
use std::alloc::{AllocError, Global};

/// The first key that is the same as one before it in its dictionary.
pub(crate) fn key_fault(
    alloc: Global,
    text: &[u8],
    rows: &[Row],
    operations: &NumberedOperations,
    counts: &PartCounts,
) -> Result<Option<Found>, AllocError>
    requires operations { AreOperations rows.now operations.now }
    requires counts { AreCounted counted.Keys rows.now (length rows.now) counts.now.keys.items }
    ensures { IfOk result (λ f. IsFirstWrong (IsKeyWrong text.now rows.now) (length rows.now) f) }
{
    let escaped = escaped_names(alloc, NameKind::Key, text, rows)?;
    let numbers = operations.numbers.as_slice();
    let given = given(
        alloc,
        NameKind::Key,
        text,
        &escaped,
        rows,
        numbers,
        &counts.keys,
    )?;
    let found = told(given.again, Wrong::KeyTwice);
    Ok(found)
}

/// Whether the keys of each dictionary of a tree of that text differ.
///
/// # Errors
/// `OutOfMemory`, also of more than 4,294,967,294 rows, and else the first key that is the same as one before it in its dictionary. A key in quotes is the bytes that it stands for, with each escape read: `"a\62"`, `"ab"` and `ab` are one key.
pub fn keys(alloc: Global, text: &[u8], rows: &[Row]) -> Result<(), Fault>
    ensures { IsChecked (IsKeyWrong text.now rows.now) rows.now result }
{
    are_few(rows)?;
    let operations = operations(alloc, rows)?;
    let counts = part_counts(alloc, rows, &operations)?;
    let found = key_fault(alloc, text, rows, &operations, &counts)?;
    match fault_of(rows, found) {
        Some(fault) => Err(fault),
        None => Ok(()),
    }
}
