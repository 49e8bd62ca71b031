//! Why a text isn't printed again.

use generic_text::{BuildError, DescribedErr};
use ir_base_dialects::CoreError;
use ir_text_describe::DescribeErr;
use std::alloc::{AllocError, AllocFailed};
use thiserror::Error;

/// What verification found.
#[derive(Clone, Copy, Debug, Drop, PartialEq, Eq, Error)]
pub enum Finding {
    /// A block without a terminator, where its operation asks for one.
    #[error("a block of this operation has no terminator")]
    MissingTerminator,
    /// A terminator that isn't the last of its block.
    #[error("a terminator in a block of this operation isn't the block's last operation")]
    TerminatorNotLast,
    /// A block in no region.
    #[error("a block stands in no region")]
    NoParent,
    /// A first block that an operation names.
    #[error("the first block of a region of this operation is a successor")]
    EntryHasPred,
    /// A successor of what isn't the terminator of its block.
    #[error("an operation that isn't the terminator of its block has a successor")]
    NotATerminator,
    /// A check of the dialect.
    #[error("verifier fault {code}")]
    Check {
        /// Its code.
        code: u32,
    },
}

/// Why a text isn't printed again.
#[derive(Clone, Copy, Debug, Drop, PartialEq, Eq, Error)]
pub enum Fault {
    /// There was no memory.
    #[error("out of memory")]
    OutOfMemory,
    /// The input can't be read.
    #[error("unreadable input")]
    Unreadable,
    /// The text is no tree, or too long.
    #[error("{0}")]
    Reading(ir_text_reader::Fault),
    /// A name in it is wrong.
    #[error("{0}")]
    Naming(ir_text_names::Fault),
    /// Verification found a fault.
    #[error("{what}")]
    Verifying {
        /// What it found.
        what: Finding,
        /// The index of the first byte of the operation's name.
        at: u32,
    },
    /// There are no numbers or slots left in the context.
    #[error("{0}")]
    Building(BuildError),
    /// The text that would be printed, or a number in it, passes 4,294,967,295.
    #[error("the output is too long")]
    TooLong,
    /// What an unreachable block defines is named outside of all such blocks, so these can't be removed.
    #[error("what an unreachable block defines is named outside of unreachable blocks")]
    NamedOutside,
    /// What was built isn't what the input says, or what would be printed isn't what was built: a fault of this program, which no input is known to show.
    #[error("this program has a fault: it read or printed something else than what stands there")]
    Different,
}

impl Fault {
    /// The index of the byte in the text at which it stands; none where it stands at none.
    pub fn at(self) -> Option<u32> {
        match self {
            Fault::Reading(fault) => fault.at(),
            Fault::Naming(fault) => fault.at(),
            Fault::Verifying { at, .. } => Some(at),
            _ => None,
        }
    }
}

impl From<ir_text_reader::Fault> for Fault {
    ghost use Rattle.std.specs.Prelude.{◌≡◌};
    ghost use Rattle.ir_opt_run.specs.Faults.{of_reading};

    ghost from_gives = { λ error fault. fault ≡ of_reading error };

    fn from(fault: ir_text_reader::Fault) -> Fault {
        match fault {
            ir_text_reader::Fault::OutOfMemory => Fault::OutOfMemory,
            _ => Fault::Reading(fault),
        }
    }
}

impl From<ir_text_names::Fault> for Fault {
    ghost use Rattle.std.specs.Prelude.{◌≡◌};
    ghost use Rattle.ir_opt_run.specs.Faults.{of_naming};

    ghost from_gives = { λ error fault. fault ≡ of_naming error };

    fn from(fault: ir_text_names::Fault) -> Fault {
        match fault {
            ir_text_names::Fault::OutOfMemory => Fault::OutOfMemory,
            _ => Fault::Naming(fault),
        }
    }
}

impl From<BuildError> for Fault {
    ghost use Rattle.std.specs.Prelude.{◌≡◌};
    ghost use Rattle.ir_opt_run.specs.Faults.{of_building};

    ghost from_gives = { λ error fault. fault ≡ of_building error };

    fn from(error: BuildError) -> Fault {
        match error {
            BuildError::Core(CoreError::OutOfMemory) => Fault::OutOfMemory,
            BuildError::Core(_) | BuildError::TooManyTexts => Fault::Building(error),
            BuildError::NoTree | BuildError::Different | BuildError::LeftBehind => Fault::Different,
        }
    }
}

impl From<DescribedErr> for Fault {
    ghost use Rattle.std.specs.Prelude.{◌≡◌};
    ghost use Rattle.ir_opt_run.specs.Faults.{of_described};

    ghost from_gives = { λ error fault. fault ≡ of_described error };

    fn from(error: DescribedErr) -> Fault {
        match error {
            DescribedErr::OutOfMemory => Fault::OutOfMemory,
            DescribedErr::Differs { .. } => Fault::Different,
        }
    }
}

impl From<DescribeErr> for Fault {
    ghost use Rattle.std.specs.Prelude.{◌≡◌};
    ghost use Rattle.ir_opt_run.specs.Faults.{of_describing};

    ghost from_gives = { λ error fault. fault ≡ of_describing error };

    fn from(error: DescribeErr) -> Fault {
        match error {
            DescribeErr::OutOfMemory => Fault::OutOfMemory,
            DescribeErr::TooLong => Fault::TooLong,
        }
    }
}

impl From<CoreError> for Fault {
    ghost use Rattle.std.specs.Prelude.{◌≡◌};
    ghost use Rattle.ir_opt_run.specs.Faults.{of_core};

    ghost from_gives = { λ error fault. fault ≡ of_core error };

    fn from(error: CoreError) -> Fault {
        Fault::from(BuildError::Core(error))
    }
}

impl From<AllocError> for Fault {
    ghost use Rattle.std.specs.Prelude.{◌≡◌};
    ghost use Rattle.ir_opt_run.specs.declared.fault.Fault.TheVariants.{OutOfMemory};

    ghost from_gives = { λ _ fault. fault ≡ OutOfMemory };

    fn from(_error: AllocError) -> Fault {
        Fault::OutOfMemory
    }
}

impl<T: Drop> From<AllocFailed<T>> for Fault {
    ghost use Rattle.std.specs.Prelude.{◌≡◌};
    ghost use Rattle.ir_opt_run.specs.declared.fault.Fault.TheVariants.{OutOfMemory};

    ghost from_gives = { λ _ fault. fault ≡ OutOfMemory };

    fn from(_error: AllocFailed<T>) -> Fault {
        Fault::OutOfMemory
    }
}
