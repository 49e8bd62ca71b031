//! The first row of which something holds, and the first of all faults.
ghost use Rattle.std.specs.Prelude.{◌≡◌, ◌<◌, length, Some, None, Ok, Err, IfSome};
ghost use Rattle.ir_text_names.specs.Firsts.{noted, told, sooner, fault_of};

use crate::fault::{Fault, Wrong};
use ir_text_tree::Row;

/// A row that has a fault.
#[derive(Clone, Copy)]
pub(crate) struct Found {
    /// The row.
    pub(crate) row: usize,
    /// The fault.
    pub(crate) what: Wrong,
}

/// The first row so far.
pub(crate) fn noted(first: Option<usize>, row: usize, holds: bool) -> Option<usize>
    ensures { result ≡ noted first row holds }
{
    match first {
        Some(_) => first,
        None => { if holds { Some(row) } else { None } }
    }
}

/// That row with that fault.
pub(crate) fn told(first: Option<usize>, what: Wrong) -> Option<Found>
    ensures { result ≡ told first what }
{
    match first {
        Some(row) => Some(Found { row, what }),
        None => None,
    }
}

/// The one that stands first.
pub(crate) fn sooner(one: Option<Found>, other: Option<Found>) -> Option<Found>
    ensures { result ≡ sooner one other }
{
    match (one, other) {
        (Some(found), Some(further)) => { if found.row <= further.row { one } else { other } }
        (None, _) => other,
        (_, None) => one,
    }
}

/// The fault that was found, if one was.
pub(crate) fn fault_of(rows: &[Row], found: Option<Found>) -> Option<Fault>
    requires { IfSome found (λ f. f.row < length rows.now) }
    ensures { result ≡ fault_of rows.now found }
{
    match found {
        Some(found) => Some(Fault::Wrong {
            what: found.what,
            at: rows[found.row].span.start,
        }),
        None => None,
    }
}
