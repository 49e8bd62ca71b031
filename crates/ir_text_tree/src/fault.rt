//! Why tokens are no tree.
ghost use Rattle.std.specs.Prelude.{◌≡◌};
ghost use Rattle.ir_text_tree.specs.TreeFaults.{fault_place};

use std::alloc::{AllocError, AllocFailed};
use std::fmt;
use std::fmt::{Display, Write};
use thiserror::Error;

/// What has to stand at a place.
#[derive(Clone, Copy, Debug, Drop, PartialEq, Eq)]
pub enum Wanted {
    /// Outside all regions an operation, or the end.
    Operation,
    /// In a region an operation, a block, or the region's end.
    Inside,
    /// What follows the name of a result.
    AfterResult,
    /// How many results stand under a name.
    Count,
    /// What follows that number.
    AfterCount,
    /// The name of a value.
    ValueName,
    /// The name of an operation.
    OperationName,
    /// A parenthesis.
    OpenParenthesis,
    /// An operand, or the end of the operands.
    FirstOperand,
    /// What follows the name of an operand.
    AfterOperand,
    /// What follows one of several in parentheses.
    CommaOrParenthesis,
    /// What follows the operands.
    AfterOperands,
    /// The name of a block.
    BlockName,
    /// What follows a successor.
    AfterSuccessor,
    /// What follows the successors.
    AfterSuccessors,
    /// What follows the properties.
    AfterProperties,
    /// A region.
    Region,
    /// What follows the regions.
    AfterRegions,
    /// A key, or the end of the attributes.
    FirstKey,
    /// A key.
    Key,
    /// What follows a key.
    AfterKey,
    /// A colon.
    Colon,
    /// A type, or the end of the types.
    FirstType,
    /// An arrow.
    Arrow,
    /// A type, or several in parentheses.
    ResultTypes,
    /// What follows the name of a block at its beginning.
    AfterLabel,
    /// An argument, or the end of the arguments.
    FirstArgument,
    /// The value of an attribute.
    Value,
    /// A type.
    Type,
    /// A location.
    Location,
    /// The rest of a value, or what follows it.
    InValue,
    /// The rest of a type, or what follows it.
    InType,
    /// The rest of a location, or what follows it.
    InLocation,
}

impl Display for Wanted {
    fn fmt<W: Write>(&self, f: &mut fmt::Formatter<W>) -> fmt::Result {
        f.write_str(match self {
            Wanted::Operation => "an operation",
            Wanted::Inside => "an operation, a block or `}`",
            Wanted::AfterResult => "`:`, `,` or `=`",
            Wanted::Count => "a number",
            Wanted::AfterCount => "`,` or `=`",
            Wanted::ValueName => "the name of a value",
            Wanted::OperationName => "the name of an operation, in quotes",
            Wanted::OpenParenthesis => "`(`",
            Wanted::FirstOperand => "the name of a value or `)`",
            Wanted::AfterOperand => "`#` and a number, `,` or `)`",
            Wanted::CommaOrParenthesis => "`,` or `)`",
            Wanted::AfterOperands => "`[`, `<`, `(`, `{` or `:`",
            Wanted::BlockName => "the name of a block",
            Wanted::AfterSuccessor => "`,` or `]`",
            Wanted::AfterSuccessors => "`<`, `(`, `{` or `:`",
            Wanted::AfterProperties => "`(`, `{` or `:`",
            Wanted::Region => "`{`",
            Wanted::AfterRegions => "`{` or `:`",
            Wanted::FirstKey => "a key or `}`",
            Wanted::Key => "a key",
            Wanted::AfterKey => "`=`, `,` or `}`",
            Wanted::Colon => "`:`",
            Wanted::FirstType => "a type or `)`",
            Wanted::Arrow => "`->`",
            Wanted::ResultTypes => "a type or `(`",
            Wanted::AfterLabel => "`(` or `:`",
            Wanted::FirstArgument => "the name of an argument or `)`",
            Wanted::Value => "a value",
            Wanted::Type => "a type",
            Wanted::Location => "a location",
            Wanted::InValue => "the rest of the value, `,` or `}`",
            Wanted::InType => "the rest of the type, `,` or `)`",
            Wanted::InLocation => "the rest of the location or `)`",
        })
    }
}

/// Why tokens are no tree: the first fault, with the index of the byte at which reading stopped.
#[derive(Clone, Copy, Debug, Drop, PartialEq, Eq, Error)]
pub enum Fault {
    /// There was no memory.
    #[error("out of memory")]
    OutOfMemory,
    /// Something else has to stand here.
    #[error("expected {wanted}")]
    Expected {
        /// What has to stand here.
        wanted: Wanted,
        /// The index of the first byte of the token that stands here; at the end the length of the text.
        at: u32,
    },
}

impl Fault {
    /// The index of the byte at which reading stopped; none where memory was wanting.
    pub fn at(self) -> Option<u32>
        ensures { result ≡ fault_place self }
    {
        match self {
            Fault::OutOfMemory => None,
            Fault::Expected { wanted: _, at } => Some(at),
        }
    }
}

impl From<AllocError> for Fault {
    ghost use Rattle.std.specs.Prelude.{◌≡◌};
    ghost use Rattle.ir_text_tree.specs.declared.fault.Fault.TheVariants.{OutOfMemory};

    ghost from_gives = { λ _ e. e ≡ OutOfMemory };

    fn from(_error: AllocError) -> Fault {
        Fault::OutOfMemory
    }
}

impl<T: Drop> From<AllocFailed<T>> for Fault {
    ghost use Rattle.std.specs.Prelude.{◌≡◌};
    ghost use Rattle.ir_text_tree.specs.declared.fault.Fault.TheVariants.{OutOfMemory};

    ghost from_gives = { λ _ e. e ≡ OutOfMemory };

    fn from(_error: AllocFailed<T>) -> Fault {
        Fault::OutOfMemory
    }
}
