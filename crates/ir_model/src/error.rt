//! Why a call that needs memory, a number or a slot is refused.

use std::alloc::{AllocError, AllocFailed};
use thiserror::Error;

/// What a call may lack. After each of these the context, arena, store or dictionary means what it meant before.
#[derive(Clone, Copy, Debug, Drop, PartialEq, Eq, Hash, Error)]
pub enum CoreError {
    /// A growth was refused.
    #[error("out of memory")]
    OutOfMemory,
    /// Too few numbers are left.
    #[error("counter spent")]
    CounterSpent,
    /// Too few slots are left.
    #[error("slots spent")]
    SlotsSpent,
}

impl From<AllocError> for CoreError {
    ghost use Rattle.std.specs.Prelude.{◌≡◌};
    ghost use Rattle.ir_model.specs.declared.error.CoreError.TheVariants.{OutOfMemory};

    ghost from_gives = { λ _ e. e ≡ OutOfMemory };

    fn from(_error: AllocError) -> CoreError {
        CoreError::OutOfMemory
    }
}

impl<T: Drop> From<AllocFailed<T>> for CoreError {
    ghost use Rattle.std.specs.Prelude.{◌≡◌};
    ghost use Rattle.ir_model.specs.declared.error.CoreError.TheVariants.{OutOfMemory};

    ghost from_gives = { λ _ e. e ≡ OutOfMemory };

    fn from(_error: AllocFailed<T>) -> CoreError {
        CoreError::OutOfMemory
    }
}
