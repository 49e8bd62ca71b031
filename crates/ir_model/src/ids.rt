//! The plain words that the definitions share with the code: places in arenas, and limits.

use std::fmt;
use std::fmt::{Display, Write};

/// The place of a record in an arena: a slot, counted from 1, and a version, which says which of the slot's records in turn it is.
///
/// It stands for the index inside pliron's `Ptr`.
#[derive(Clone, Copy, Debug, Drop, PartialEq, Eq, Hash)]
pub struct ArenaIndex {
    /// The slot, from 1.
    pub slot: u32,
    /// The version: 1 for the slot's first record, and two more for each later one.
    pub version: u32,
}

impl Display for ArenaIndex {
    ghost use Rattle.std.specs.Prelude.{Some};
    ghost use Rattle.ir_model.specs.IdText.{index_text};

    ghost output = { λ i. Some (index_text i) };

    fn fmt<W: Write>(&self, f: &mut fmt::Formatter<W>) -> fmt::Result {
        let slot = self.slot;
        let version = self.version;
        write!(f, "{slot}v{version}")
    }
}

/// How many numbers and slots a context may hand out.
#[derive(Clone, Copy, Debug, Drop, PartialEq, Eq)]
pub struct Limits {
    /// How many value numbers there are.
    pub values: u64,
    /// How many use numbers there are.
    pub uses: u64,
    /// How many slots each arena has.
    pub slots: u32,
    /// The last version that a slot may have.
    pub last_version: u32,
}

impl Default for Limits {
    ghost use Rattle.std.specs.Prelude.{◌≡◌};

    ghost is_default = { λ l. l ≡ record { values = 18446744073709551615; uses = 18446744073709551615; slots = 4294967294; last_version = 4294967295 } };

    /// All that fits: value and use numbers 0 to 2^64 - 2, slots 1 to 4,294,967,294, versions to 4,294,967,295.
    fn default() -> Self {
        Limits {
            values: u64::MAX,
            uses: u64::MAX,
            slots: u32::MAX - 1,
            last_version: u32::MAX,
        }
    }
}
