//! Why a value or a use is not found.

use ir_core_context::DanglingPtrDerefError;
use thiserror::Error;

/// A live entity doesn't define the value.
#[derive(Clone, Copy, Debug, Drop, PartialEq, Eq, Error)]
pub enum ValueError {
    /// The live operation has no such result.
    #[error("Invalid Value: Defining operation has no result corresponding to this value")]
    NotInOpResult,
    /// The live block has no such argument.
    #[error("Invalid Value: Defining block has no argument corresponding to this value")]
    NotInBlockArgument,
}

/// A live operation doesn't have the use.
#[derive(Clone, Copy, Debug, Drop, PartialEq, Eq, Error)]
pub enum UseError {
    /// The live operation has no such operand.
    #[error("Use does not correspond to any operand of its user operation")]
    OperandNotInUserOp,
    /// The live operation has no such successor.
    #[error("Use does not correspond to any successor of its user operation")]
    SuccessorNotInUserOp,
}

/// Why an index isn't found.
#[derive(Clone, Copy, Debug, Drop, PartialEq, Eq, Error)]
pub enum IndexErr {
    /// The handle's entity isn't live.
    #[error(transparent)]
    DanglingPtrDerefError(DanglingPtrDerefError),
    /// It is live and doesn't define the value.
    #[error(transparent)]
    ValueError(ValueError),
    /// It is live and doesn't have the use.
    #[error(transparent)]
    UseError(UseError),
}
