//! Why a tree could not be made.

use std::alloc::{AllocError, AllocFailed};
use thiserror::Error;

/// Why a tree could not be made.
#[derive(Clone, Copy, Debug, Drop, PartialEq, Eq, Error)]
pub enum DescribeErr {
    /// There was no memory.
    #[error("out of memory")]
    OutOfMemory,
    /// The text, or a number in it, passes 4,294,967,295.
    #[error("too long")]
    TooLong,
}

impl From<AllocError> for DescribeErr {
    ghost use Rattle.std.specs.Prelude.{◌≡◌};
    ghost use Rattle.ir_text_pieces.specs.declared.error.DescribeErr.TheVariants.{OutOfMemory};

    ghost from_gives = { λ _ e. e ≡ OutOfMemory };

    fn from(_error: AllocError) -> DescribeErr {
        DescribeErr::OutOfMemory
    }
}

impl<T: Drop> From<AllocFailed<T>> for DescribeErr {
    ghost use Rattle.std.specs.Prelude.{◌≡◌};
    ghost use Rattle.ir_text_pieces.specs.declared.error.DescribeErr.TheVariants.{OutOfMemory};

    ghost from_gives = { λ _ e. e ≡ OutOfMemory };

    fn from(_error: AllocFailed<T>) -> DescribeErr {
        DescribeErr::OutOfMemory
    }
}
