//! What a call answers whose handle is dead.

use thiserror::Error;

/// The handle's entity isn't live. It stands for pliron's `DanglingPtrDerefError`.
#[derive(Clone, Copy, Debug, Drop, PartialEq, Eq, Error)]
#[error("Attempt to dereference a dangling Ptr")]
pub struct DanglingPtrDerefError;
