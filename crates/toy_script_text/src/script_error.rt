//! Why a script isn't done.
ghost use Rattle.std.specs.Prelude.{◌≡◌, Some};
ghost use Rattle.toy_script_text.specs.Outcomes.{reason};
ghost use Rattle.toy_script_text.specs.declared.script_error.ScriptError.TheVariants.{OutOfMemory};

use ir_base_dialects::CoreError;
use std::alloc::{AllocError, AllocFailed};
use std::error::Error;
use std::fmt;

/// Why a script isn't done.
#[derive(Clone, Copy, Debug, Drop, PartialEq, Eq)]
pub enum ScriptError {
    /// There was no memory to read it.
    OutOfMemory,
    /// The input can't be read, or isn't UTF-8.
    Unreadable,
    /// The output can't be written.
    Unwritable,
    /// This line, from 1, is the first that has no form of a script's line.
    Malformed {
        /// The line's number.
        line: u64,
    },
}

impl fmt::Display for ScriptError {
    ghost output = { λ error. Some (reason error) };

    fn fmt<W: fmt::Write>(&self, f: &mut fmt::Formatter<W>) -> fmt::Result {
        match self {
            ScriptError::OutOfMemory => write!(f, "out of memory"),
            ScriptError::Unreadable => write!(f, "unreadable input"),
            ScriptError::Unwritable => write!(f, "unwritable output"),
            ScriptError::Malformed { line } => write!(f, "line {line}: malformed"),
        }
    }
}

impl Error for ScriptError {}

impl From<AllocError> for ScriptError {
    ghost from_gives = { λ _ e. e ≡ OutOfMemory };

    fn from(_error: AllocError) -> ScriptError {
        ScriptError::OutOfMemory
    }
}

impl From<CoreError> for ScriptError {
    ghost from_gives = { λ _ e. e ≡ OutOfMemory };

    // A session that answers no edits at all had no memory for the answers.
    fn from(_error: CoreError) -> ScriptError {
        ScriptError::OutOfMemory
    }
}

impl<T: Drop> From<AllocFailed<T>> for ScriptError {
    ghost from_gives = { λ _ e. e ≡ OutOfMemory };

    fn from(_error: AllocFailed<T>) -> ScriptError {
        ScriptError::OutOfMemory
    }
}
