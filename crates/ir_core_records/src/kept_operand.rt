//! An operand as it is kept: in 32 bytes, where its parts side by side would take 40.
//!
//! Contracts see the place alone.

ghost use Rattle.std.specs.Prelude.{◌≡◌};

use crate::record::{Definer, UsePlace, ValueIndex};
use crate::use_rank::UseRank;
use ir_base_dialects::{ArenaIndex, Plain};
use std::marker::Model;
use std::mem::size_of;

/// An operand in the list of its operation. A contract sees it as a place that names a value.
#[derive(Drop)]
pub struct KeptOperand {
    number: u64,
    // The number of the value.
    value: u64,
    // The operation or the block that defines the value.
    definer: ArenaIndex,
    // Twice the place of its use among those of the value, and one more where a block defines the value.
    rank: u64,
}

const _: () = prove!(size_of::<KeptOperand>() == 32);

impl Model for KeptOperand {
    ghost use Rattle.ir_core_records.specs.declared.record.UsePlace.{UsePlace};
    ghost use Rattle.ir_core_records.specs.declared.record.ValueIndex.{ValueIndex};
    ghost use Rattle.ir_core_records.specs.KeptOperands.{unpacked};

    ghost Value = { UsePlace ValueIndex };

    ghost view = { λ k. unpacked k.number k.value k.definer k.rank };
}

impl KeptOperand {
    /// The place, as it is kept.
    #[inline(always)]
    pub fn new(place: UsePlace<ValueIndex>) -> Self
        ensures { result ≡ place }
    {
        let rank = place.place.get() as u64 * 2;
        match place.names.definer {
            Definer::Op(definer) => KeptOperand {
                number: place.number,
                value: place.names.number,
                definer,
                rank,
            },
            Definer::Block(definer) => KeptOperand {
                number: place.number,
                value: place.names.number,
                definer,
                rank: rank + 1,
            },
        }
    }

    /// Its number among all uses.
    #[inline(always)]
    pub fn number(&self) -> u64
        ensures { result ≡ self.now.number }
    {
        self.number
    }

    /// The value that it names.
    #[inline(always)]
    pub fn names(&self) -> ValueIndex
        ensures { result ≡ self.now.names }
    {
        let definer = if self.rank % 2 == 0 {
            Definer::Op(self.definer)
        } else {
            Definer::Block(self.definer)
        };
        ValueIndex {
            definer,
            number: self.value,
        }
    }

    /// Where its use stands among those of the value.
    #[inline(always)]
    pub fn rank(&self) -> UseRank
        ensures { result ≡ self.now.place }
    {
        UseRank::new((self.rank / 2) as usize)
    }

    /// Lets its use stand there among those of the value.
    #[inline(always)]
    pub fn set_rank(&mut self, rank: UseRank)
        ensures { self.new ≡ record self.old { place = rank } }
    {
        self.rank = rank.get() as u64 * 2 + self.rank % 2;
    }

    /// The place.
    #[inline(always)]
    pub fn get(&self) -> UsePlace<ValueIndex>
        ensures { result ≡ self.now }
    {
        UsePlace {
            number: self.number,
            names: self.names(),
            place: self.rank(),
        }
    }
}

impl Plain for KeptOperand {
    fn copied(&self) -> KeptOperand {
        KeptOperand {
            number: self.number,
            value: self.value,
            definer: self.definer,
            rank: self.rank,
        }
    }
}

impl Default for KeptOperand {
    fn default() -> KeptOperand {
        KeptOperand {
            number: 0,
            value: 0,
            definer: ArenaIndex {
                slot: 0,
                version: 0,
            },
            rank: 0,
        }
    }
}
