//! What verification tells: the faults, and what a check that is handed in answers.

use ir_base_dialects::{CoreError, Identifier};
use thiserror::Error;

/// Why a check that is handed in doesn't pass.
#[derive(Clone, Copy, Debug, Drop, PartialEq, Eq)]
pub enum CheckErr {
    /// This code stands.
    Code(u32),
    /// There was no memory for the check.
    OutOfMemory,
}

/// A check that was handed in answered a code.
#[derive(Clone, Copy, Debug, Drop, PartialEq, Eq, Error)]
#[error("verifier fault {code}")]
pub struct VerifierErr {
    /// The code.
    pub code: u32,
}

/// What is wrong with a block, under its unique name. It stands for pliron's `BasicBlockVerifyErr`.
#[derive(Debug, Drop, PartialEq, Eq, Error)]
pub enum BasicBlockVerifyErr {
    /// Its parent operation asks for terminators, and it has none.
    #[error("Basic block \"{0}\" is missing a terminator")]
    MissingTerminator(Identifier),
    /// A terminator in it has an operation after it.
    #[error("Basic block \"{0}\" has a terminator that is not the last operation in the block")]
    TerminatorNotLast(Identifier),
    /// It stands in no region.
    #[error("Basic block \"{0}\" has no parent operation")]
    NoParent(Identifier),
    /// It is the first of its region, and an operation names it.
    #[error("Basic block \"{0}\" is an entry block and has a predecessor")]
    EntryHasPred(Identifier),
}

/// What is wrong with a use. It stands for pliron's `DefUseVerifyErr`.
#[derive(Clone, Copy, Debug, Drop, PartialEq, Eq, Error)]
pub enum DefUseVerifyErr {
    /// An operation names a block, and isn't the terminator of a block that leads there.
    #[error("Operand is not a use of its def")]
    OperandNotUseOfDef,
}

/// What verification found.
#[derive(Debug, Drop, PartialEq, Eq, Error)]
pub enum VerifyErr {
    /// Something is wrong with a block.
    #[error(transparent)]
    BasicBlockVerifyErr(BasicBlockVerifyErr),
    /// Something is wrong with a use.
    #[error(transparent)]
    DefUseVerifyErr(DefUseVerifyErr),
    /// A check that was handed in answered a code.
    #[error(transparent)]
    VerifierErr(VerifierErr),
    /// There was no memory for a name or for a check.
    #[error("out of memory")]
    OutOfMemory,
}

impl From<CheckErr> for VerifyErr {
    ghost use Rattle.std.specs.Prelude.{◌≡◌};
    ghost use Rattle.ir_verify.specs.Told.{of_check};

    ghost from_gives = { λ check e. e ≡ of_check check };

    fn from(check: CheckErr) -> VerifyErr {
        match check {
            CheckErr::Code(code) => VerifyErr::VerifierErr(VerifierErr { code }),
            CheckErr::OutOfMemory => VerifyErr::OutOfMemory,
        }
    }
}
