//! A use as it is kept among the uses of what it names: in 20 bytes, with the index where its place was when it was put there.
//!
//! Contracts see the use alone. The index is where a search for the place begins, and no answer depends on it.

ghost use Rattle.std.specs.Prelude.{◌≡◌};

use crate::record::UseIndex;
use ir_base_dialects::{ArenaIndex, Plain};
use std::marker::Model;
use std::mem::size_of;

// One more than what half of a number may be.
const HALF: u64 = 1 << 32;

/// A use in the list of what it names. A contract sees the use.
#[derive(Drop)]
pub struct KeptUse {
    user: ArenaIndex,
    // The lower half of its number.
    low: u32,
    // The upper half.
    high: u32,
    // Where its place stood among those of its user. Others that came or went in front may have moved it since.
    near: u32,
}

const _: () = prove!(size_of::<KeptUse>() == 20);

impl Model for KeptUse {
    ghost use Rattle.ir_core_records.specs.declared.record.UseIndex.{UseIndex};
    ghost use Rattle.ir_core_records.specs.KeptOperands.{joined};

    ghost Value = { UseIndex };

    ghost view = { λ k. joined k.user k.low k.high };
}

impl KeptUse {
    /// The use, whose place stands at about this index.
    #[inline(always)]
    pub fn new(used: UseIndex, near: usize) -> Self
        ensures { result ≡ used }
    {
        KeptUse {
            user: used.user,
            low: (used.number % HALF) as u32,
            high: (used.number / HALF) as u32,
            near: near.min(u32::MAX as usize) as u32,
        }
    }

    /// The use.
    #[inline(always)]
    pub fn used(&self) -> UseIndex
        ensures { result ≡ self.now }
    {
        UseIndex {
            user: self.user,
            number: self.low as u64 + self.high as u64 * HALF,
        }
    }

    /// The operation that names the definition.
    pub fn user(&self) -> ArenaIndex
        ensures { result ≡ self.now.user }
    {
        self.user
    }

    /// Where its place stood. It may have moved since.
    pub fn near(&self) -> usize {
        self.near as usize
    }
}

impl Plain for KeptUse {
    fn copied(&self) -> KeptUse {
        KeptUse {
            user: self.user,
            low: self.low,
            high: self.high,
            near: self.near,
        }
    }
}

impl Default for KeptUse {
    fn default() -> KeptUse {
        KeptUse::new(UseIndex::default(), 0)
    }
}
