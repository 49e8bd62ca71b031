//! Why a tree isn't taken for a description.

use std::alloc::{AllocError, AllocFailed};
use thiserror::Error;

/// Why a tree isn't taken for a description.
#[derive(Clone, Copy, Debug, Drop, PartialEq, Eq, Error)]
pub enum DescribedErr {
    /// There was no memory.
    #[error("out of memory")]
    OutOfMemory,
    /// What stands in the context isn't what this row says.
    #[error("the tree and the context differ at row {row}")]
    Differs {
        /// The row, from 0.
        row: usize,
    },
}

impl From<AllocError> for DescribedErr {
    ghost use Rattle.std.specs.Prelude.{◌≡◌};
    ghost use Rattle.generic_text.specs.declared.described_error.DescribedErr.TheVariants.{OutOfMemory};

    ghost from_gives = { λ _ answer. answer ≡ OutOfMemory };

    fn from(_error: AllocError) -> DescribedErr {
        DescribedErr::OutOfMemory
    }
}

impl<T: Drop> From<AllocFailed<T>> for DescribedErr {
    ghost use Rattle.std.specs.Prelude.{◌≡◌};
    ghost use Rattle.generic_text.specs.declared.described_error.DescribedErr.TheVariants.{OutOfMemory};

    ghost from_gives = { λ _ answer. answer ≡ OutOfMemory };

    fn from(_error: AllocFailed<T>) -> DescribedErr {
        DescribedErr::OutOfMemory
    }
}
