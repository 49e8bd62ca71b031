//! Why a forest of a test can't be made or verified.

use ir_base_dialects::CoreError;
use std::alloc::AllocError;
use thiserror::Error;

/// Why there is no answer.
#[derive(Clone, Copy, Debug, Drop, PartialEq, Eq, Error)]
pub enum LabErr {
    /// The core lacks something else than memory.
    #[error("{0}")]
    Core(CoreError),
    /// Memory was refused.
    #[error("out of memory")]
    OutOfMemory,
    /// The condition of a step doesn't hold.
    #[error("a step was refused")]
    Refused,
    /// Nothing live has the number.
    #[error("no such root")]
    NoRoot,
}

impl From<CoreError> for LabErr {
    fn from(error: CoreError) -> LabErr {
        match error {
            CoreError::OutOfMemory => LabErr::OutOfMemory,
            _ => LabErr::Core(error),
        }
    }
}

impl From<AllocError> for LabErr {
    fn from(_error: AllocError) -> LabErr {
        LabErr::OutOfMemory
    }
}
