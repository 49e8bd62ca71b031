//! Why a text gives no edit, and a table of texts no answer.

use ir_base_dialects::CoreError;
use std::alloc::{AllocError, AllocFailed};
use thiserror::Error;

/// Why a text gives no edit, and a table of texts no answer.
#[derive(Clone, Copy, Debug, Drop, PartialEq, Eq, Error)]
pub enum TextError {
    /// There was no memory.
    #[error("out of memory")]
    OutOfMemory,
    /// The line has no form of a line, or stands where it may not.
    #[error("malformed line")]
    Malformed,
}

impl From<AllocError> for TextError {
    fn from(_error: AllocError) -> TextError {
        TextError::OutOfMemory
    }
}

impl From<CoreError> for TextError {
    fn from(_error: CoreError) -> TextError {
        TextError::OutOfMemory
    }
}

impl<T: Drop> From<AllocFailed<T>> for TextError {
    fn from(_error: AllocFailed<T>) -> TextError {
        TextError::OutOfMemory
    }
}
