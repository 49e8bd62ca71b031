//! Why names mean nothing, or too much.
ghost use Rattle.std.specs.Prelude.{◌≡◌};
ghost use Rattle.ir_text_names.specs.Firsts.{fault_place};

use std::alloc::{AllocError, AllocFailed};
use thiserror::Error;

/// What is wrong with a part of a tree.
#[derive(Clone, Copy, Debug, Drop, PartialEq, Eq, Error)]
pub enum Wrong {
    /// A block before this one in its region has its name.
    #[error("a block of this name stands in this region already")]
    BlockTwice,
    /// No block of the region has this name.
    #[error("no block of this region has this name")]
    UnknownBlock,
    /// A key before this one in its dictionary is the same, in quotes or not, by escapes or not.
    #[error("this key stands in this dictionary already")]
    KeyTwice,
    /// The operation has more operand types than operands, or fewer.
    #[error("not as many operand types as operands")]
    OperandTypes,
    /// How many results stand under a name is no decimal number, or 0.
    #[error("expected a number of results, at least 1")]
    ResultCount,
    /// The operation has more result types than results, or fewer.
    #[error("not as many result types as results")]
    ResultTypes,
    /// A definition before this one in its region, or in one around it or in it, has its name.
    #[error("a value of this name is defined already")]
    ValueTwice,
    /// No value of this name is defined in the region or in one around it.
    #[error("no value of this name is defined here")]
    UnknownValue,
    /// The operand has another type than the value that it names.
    #[error("this operand has another type than the value that it names")]
    TypeOther,
}

/// Why the names of a tree can't be told: the first fault in the text.
#[derive(Clone, Copy, Debug, Drop, PartialEq, Eq, Error)]
pub enum Fault {
    /// There was no memory.
    #[error("out of memory")]
    OutOfMemory,
    /// This is wrong here.
    #[error("{what}")]
    Wrong {
        /// What is wrong.
        what: Wrong,
        /// The index of the first byte of the part of the tree that is wrong.
        at: u32,
    },
}

impl Fault {
    /// The index of the first byte of what is wrong; none where memory was wanting.
    pub fn at(self) -> Option<u32>
        ensures { result ≡ fault_place self }
    {
        match self {
            Fault::OutOfMemory => None,
            Fault::Wrong { what: _, at } => Some(at),
        }
    }
}

impl From<AllocError> for Fault {
    ghost use Rattle.std.specs.Prelude.{◌≡◌};
    ghost use Rattle.ir_text_names.specs.declared.fault.Fault.TheVariants.{OutOfMemory};

    ghost from_gives = { λ _ e. e ≡ OutOfMemory };

    fn from(_error: AllocError) -> Fault {
        Fault::OutOfMemory
    }
}

impl<T: Drop> From<AllocFailed<T>> for Fault {
    ghost use Rattle.std.specs.Prelude.{◌≡◌};
    ghost use Rattle.ir_text_names.specs.declared.fault.Fault.TheVariants.{OutOfMemory};

    ghost from_gives = { λ _ e. e ≡ OutOfMemory };

    fn from(_error: AllocFailed<T>) -> Fault {
        Fault::OutOfMemory
    }
}
