//! Handles: an index that says of which type of record it is.

ghost use Rattle.std.specs.Prelude.{◌≡◌};

use crate::ArenaIndex;
use std::marker::PhantomData;

/// A handle of a record of type `T` in an arena. It stands for pliron's `Ptr`.
///
/// It is an index and nothing more, so that two handles with one index are equal, and a handle outlives its record.
#[derive_where(Clone, Copy, PartialEq, Eq, Hash)]
#[derive(Drop)]
pub struct Ptr<T> {
    /// The place of the record.
    pub index: ArenaIndex,
    of: PhantomData<T>,
}

impl<T> Ptr<T> {
    /// The handle with this index.
    pub fn from_index(index: ArenaIndex) -> Self
        ensures { result.index ≡ index }
    {
        Ptr {
            index,
            of: PhantomData,
        }
    }

    /// The place of the record.
    pub fn index(self) -> ArenaIndex
        ensures { result ≡ self.index }
    {
        self.index
    }
}
