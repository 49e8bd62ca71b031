//! Kinds of operations: rows of the table, and names that are saved.
ghost use Rattle.std.specs.Prelude.{◌≡◌};
ghost use Rattle.std.specs.Option.{option_copied};
ghost use Rattle.generic_dialect.specs.Kinds.{kind_of, listed_kind, listed_name, number_of};

use crate::texts::TextId;
use generic_table::{name_at, row_of};

/// The first kind of an operation that isn't in the table. A kind below it is a row of the table.
pub const OPEN_KINDS: u32 = 65_536;

/// How many of the saved texts can be names of operations that aren't in the table: those at the places below.
pub const OPEN_NAMES: u32 = 2_147_450_880;

/// What a kind of operations stands for.
#[derive(Clone, Copy, Debug, Drop, PartialEq, Eq)]
pub enum Kind {
    /// The operation in this row of the table.
    Listed {
        /// The row, from 0.
        row: u16,
    },
    /// An operation that isn't in the table.
    Open {
        /// Its name.
        name: TextId,
        /// It was found last in its block, so it may be a terminator.
        ends: bool,
    },
}

impl Kind {
    /// What the kind with this number stands for.
    pub fn of(number: u32) -> Kind
        ensures { result ≡ kind_of number }
    {
        if number < OPEN_KINDS {
            return Kind::Listed { row: number as u16 };
        }
        let open = number - OPEN_KINDS;
        Kind::Open {
            name: TextId(open / 2),
            ends: open % 2 == 1,
        }
    }

    /// The number of the kind. `None` where the place of an open kind's name isn't below `OPEN_NAMES`.
    pub fn number(self) -> Option<u32>
        ensures { result ≡ number_of self }
    {
        match self {
            Kind::Listed { row } => Some(u32::from(row)),
            Kind::Open { name, ends } => {
                if name.0 < OPEN_NAMES {
                    let first = OPEN_KINDS + 2 * name.0;
                    Some(if ends { first + 1 } else { first })
                } else {
                    None
                }
            }
        }
    }
}

/// The kind of the operation with this name, where the table has it.
pub fn table_kind(name: &[u8]) -> Option<u32>
    ensures { result ≡ listed_kind name.now }
{
    let row = row_of(name)?;
    Some(u32::from(row))
}

/// The name of the operation of this kind, where the table has it.
pub fn kind_name(kind: u32) -> Option<&'static [u8]>
    ensures { option_copied result ≡ listed_name (kind_of kind) }
{
    match Kind::of(kind) {
        Kind::Listed { row } => name_at(row),
        Kind::Open { .. } => None,
    }
}
