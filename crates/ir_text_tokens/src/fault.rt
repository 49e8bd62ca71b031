//! Why a text has no tokens.
ghost use Rattle.std.specs.Prelude.{◌≡◌, ◌≢◌, Some};
ghost use Rattle.ir_text_tokens.specs.declared.fault.Fault.TheVariants.{TooLong};
ghost use Rattle.ir_text_tokens.specs.Faults.{fault, fault_place};

use std::alloc::{AllocError, AllocFailed};
use thiserror::Error;

/// Why a text has no tokens: the first fault in it, with the index of the byte at which reading stopped.
#[derive(Clone, Copy, Debug, Drop, PartialEq, Eq, Error)]
pub enum Fault {
    /// There was no memory.
    #[error("out of memory")]
    OutOfMemory,
    /// The text has more than 4,294,967,295 bytes.
    #[error("the text has more than 4294967295 bytes")]
    TooLong,
    /// No token begins with this character, or none where the next follows.
    #[error("this character can't stand here")]
    Character {
        /// The index of the character.
        at: u32,
    },
    /// In a string, behind a backslash, this character makes no escape.
    #[error("no escape: wanted a backslash, a quote, n, t or two hexadecimal digits")]
    Escape {
        /// The index of the character.
        at: u32,
    },
    /// A string isn't closed in its line.
    #[error("the string isn't closed")]
    OpenString {
        /// The index of the line's end.
        at: u32,
    },
    /// A group isn't closed.
    #[error("the group isn't closed")]
    OpenGroup {
        /// The length of the text.
        at: u32,
    },
    /// In a group, this bracket closes another one than the last that was opened.
    #[error("this bracket doesn't close the last one that was opened")]
    Bracket {
        /// The index of the bracket.
        at: u32,
    },
}

impl Fault {
    /// The index of the byte at which reading stopped; none where the text is too long or memory was wanting.
    pub fn at(self) -> Option<u32>
        ensures { result ≡ fault_place self }
    {
        match self {
            Fault::OutOfMemory | Fault::TooLong => None,
            Fault::Character { at } | Fault::Escape { at } => Some(at),
            Fault::OpenString { at } | Fault::OpenGroup { at } | Fault::Bracket { at } => Some(at),
        }
    }
}

impl From<AllocError> for Fault {
    ghost use Rattle.std.specs.Prelude.{◌≡◌};
    ghost use Rattle.ir_text_tokens.specs.declared.fault.Fault.TheVariants.{OutOfMemory};

    ghost from_gives = { λ _ e. e ≡ OutOfMemory };

    fn from(_error: AllocError) -> Fault {
        Fault::OutOfMemory
    }
}

impl<T: Drop> From<AllocFailed<T>> for Fault {
    ghost use Rattle.std.specs.Prelude.{◌≡◌};
    ghost use Rattle.ir_text_tokens.specs.declared.fault.Fault.TheVariants.{OutOfMemory};

    ghost from_gives = { λ _ e. e ≡ OutOfMemory };

    fn from(_error: AllocFailed<T>) -> Fault {
        Fault::OutOfMemory
    }
}

/// What can't be read at a place.
#[derive(Clone, Copy)]
pub enum Problem {
    /// A character that can't stand there.
    Character,
    /// What makes no escape.
    Escape,
    /// The end of a line, or of the text, in a string.
    OpenString,
    /// The end of the text in a group.
    OpenGroup,
    /// A bracket that closes another one.
    Bracket,
}

/// The fault of a problem at a place.
pub(crate) fn fault_of(problem: Problem, at: u32) -> Fault
    ensures value { result ≡ fault problem at }
    ensures place { fault_place result ≡ Some at }
    ensures short { result ≢ TooLong }
{
    match problem {
        Problem::Character => Fault::Character { at },
        Problem::Escape => Fault::Escape { at },
        Problem::OpenString => Fault::OpenString { at },
        Problem::OpenGroup => Fault::OpenGroup { at },
        Problem::Bracket => Fault::Bracket { at },
    }
}
