//! Where a use stands among the uses of what it names.

ghost use Rattle.std.specs.Prelude.{◌≡◌, ◌↔◌, ◌<◌, ◌^◌, IsTrue};

use std::marker::Model;

// One more than the last place that there is: no list takes so much memory.
const END: u64 = 1 << 63;

/// The place of a use among the uses of what it names, which is below 2^63. A contract sees the number.
#[derive(Clone, Copy, Drop)]
pub struct UseRank {
    number: u64,
}

impl Model for UseRank {
    ghost use Rattle.std.specs.Prelude.{ℕ, ◌<◌, ◌^◌};

    ghost Value = { ℕ };

    ghost view = { λ r. r.number };

    ghost inverse = { λ n. record { number = n } };

    ghost invariant = { λ r. r.number < 2 ^ 63 };
}

impl UseRank {
    /// Whether there is a place with this number.
    #[inline(always)]
    pub fn is_valid(place: usize) -> bool
        ensures { IsTrue result ↔ place < 2 ^ 63 }
    {
        (place as u64) < END
    }

    /// The place with this number.
    #[inline(always)]
    pub fn new(place: usize) -> UseRank
        requires { place < 2 ^ 63 }
        ensures { result ≡ place }
    {
        UseRank {
            number: place as u64,
        }
    }

    /// Its number.
    #[inline(always)]
    pub fn get(self) -> usize
        ensures number { result ≡ self }
        ensures bound { result < 2 ^ 63 }
    {
        self.number as usize
    }
}
