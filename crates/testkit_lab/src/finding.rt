//! Entries of tables by their numbers, and why an edit isn't made.

use crate::entering::Made;
use ir_base_dialects::CoreError;
use ir_checked_core::CheckedErr;
use std::alloc::Global;

/// Why an edit isn't made.
#[derive(Clone, Copy, Debug, Drop)]
pub(crate) enum Unmade {
    /// A number is that of no entry.
    NoEntry,
    /// A condition of the call doesn't hold, or it was refused.
    Checked(CheckedErr),
}

impl From<CheckedErr> for Unmade {
    ghost use Rattle.std.specs.Prelude.{⊤};

    ghost from_gives = { λ _ _. ⊤ };

    fn from(error: CheckedErr) -> Unmade {
        Unmade::Checked(error)
    }
}

/// The answer of a call that makes nothing to be entered.
pub(crate) fn done<T: Drop>(answer: Result<T, CheckedErr>) -> Result<Made, Unmade> {
    match answer {
        Ok(_) => Ok(Made::Nothing),
        Err(error) => Err(Unmade::Checked(error)),
    }
}

/// The entry with this number.
pub(crate) fn entry<T: Copy + Drop>(table: &[T], number: usize) -> Option<T> {
    match table.get(number) {
        Some(entry) => Some(*entry),
        None => None,
    }
}

/// The entries of two tables with these numbers.
pub(crate) fn both<T: Copy + Drop, S: Copy + Drop>(
    table: &[T],
    number: usize,
    other_table: &[S],
    other: usize,
) -> Option<(T, S)> {
    match (table.get(number), other_table.get(other)) {
        (Some(entry), Some(other)) => Some((*entry, *other)),
        _ => None,
    }
}

/// The entries with these numbers. For want of memory it answers `Core`.
pub(crate) fn picked<T: Copy + Drop>(
    alloc: Global,
    table: &[T],
    numbers: &[usize],
) -> Result<Vec<T>, Unmade> {
    let mut entries = Vec::new(alloc);
    for number in numbers {
        let Some(entry) = entry(table, *number) else {
            return Err(Unmade::NoEntry);
        };
        if entries.push(entry).is_err() {
            return Err(Unmade::Checked(CheckedErr::Core(CoreError::OutOfMemory)));
        }
    }
    Ok(entries)
}
