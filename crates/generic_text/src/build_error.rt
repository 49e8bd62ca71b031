//! Why nothing is built.

use crate::described_error::DescribedErr;
use ir_base_dialects::CoreError;
use ir_checked_core::CheckedErr;
use std::alloc::{AllocError, AllocFailed};
use thiserror::Error;

/// Why nothing is built.
#[derive(Clone, Copy, Debug, Drop, PartialEq, Eq, Error)]
pub enum BuildError {
    /// There was no memory, or the context has no number or slot left.
    #[error("{0}")]
    Core(CoreError),
    /// The context has more saved texts than can be names of operations.
    #[error("too many texts")]
    TooManyTexts,
    /// The rows aren't those that `parse` reads of the text, or the names not those that `resolve` finds in them.
    #[error("no tree")]
    NoTree,
    /// The rows and names are those of the text, and what was made isn't what they say, which would be a fault of this crate.
    #[error("what was made isn't what the text says")]
    Different,
    /// What was made couldn't all be taken out again, which would be a fault of this crate.
    #[error("what was made couldn't be taken out again")]
    LeftBehind,
}

impl From<CoreError> for BuildError {
    ghost use Rattle.std.specs.Prelude.{◌≡◌};
    ghost use Rattle.generic_text.specs.declared.build_error.BuildError.TheVariants.{Core};

    ghost from_gives = { λ error answer. answer ≡ Core error };

    fn from(error: CoreError) -> BuildError {
        BuildError::Core(error)
    }
}

impl From<CheckedErr> for BuildError {
    ghost use Rattle.std.specs.Prelude.{◌≡◌};
    ghost use Rattle.generic_text.specs.Refusals.{of_checked};

    ghost from_gives = { λ error answer. answer ≡ of_checked error };

    fn from(error: CheckedErr) -> BuildError {
        match error {
            CheckedErr::Core(error) => BuildError::Core(error),
            CheckedErr::Unmet(_) => BuildError::NoTree,
        }
    }
}

impl From<DescribedErr> for BuildError {
    ghost use Rattle.std.specs.Prelude.{◌≡◌};
    ghost use Rattle.generic_text.specs.Refusals.{of_described};

    ghost from_gives = { λ error answer. answer ≡ of_described error };

    fn from(error: DescribedErr) -> BuildError {
        match error {
            DescribedErr::OutOfMemory => BuildError::Core(CoreError::OutOfMemory),
            DescribedErr::Differs { .. } => BuildError::NoTree,
        }
    }
}

impl From<AllocError> for BuildError {
    ghost use Rattle.std.specs.Prelude.{◌≡◌};
    ghost use Rattle.generic_text.specs.Refusals.{out_of_memory};

    ghost from_gives = { λ _ answer. answer ≡ out_of_memory };

    fn from(_error: AllocError) -> BuildError {
        BuildError::Core(CoreError::OutOfMemory)
    }
}

impl<T: Drop> From<AllocFailed<T>> for BuildError {
    ghost use Rattle.std.specs.Prelude.{◌≡◌};
    ghost use Rattle.generic_text.specs.Refusals.{out_of_memory};

    ghost from_gives = { λ _ answer. answer ≡ out_of_memory };

    fn from(_error: AllocFailed<T>) -> BuildError {
        BuildError::Core(CoreError::OutOfMemory)
    }
}
