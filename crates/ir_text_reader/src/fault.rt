//! Why a text is no tree.
ghost use Rattle.std.specs.Prelude.{◌≡◌};
ghost use Rattle.ir_text_reader.specs.Faults.{fault_place};

use ir_text_tree::Wanted;
use thiserror::Error;

/// Why a text is no tree: the first fault in it, with the index of the byte at which reading stopped.
#[derive(Clone, Copy, Debug, Drop, PartialEq, Eq, Error)]
pub enum Fault {
    /// There was no memory.
    #[error("out of memory")]
    OutOfMemory,
    /// The text has more than 4,294,967,295 bytes.
    #[error("the text has more than 4294967295 bytes")]
    TooLong,
    /// No token begins with this character, or none where the next follows.
    #[error("this character can't stand here")]
    Character {
        /// The index of the character.
        at: u32,
    },
    /// In a string, behind a backslash, this character makes no escape.
    #[error("no escape: wanted a backslash, a quote, n, t or two hexadecimal digits")]
    Escape {
        /// The index of the character.
        at: u32,
    },
    /// A string isn't closed in its line.
    #[error("the string isn't closed")]
    OpenString {
        /// The index of the line's end.
        at: u32,
    },
    /// A group isn't closed.
    #[error("the group isn't closed")]
    OpenGroup {
        /// The length of the text.
        at: u32,
    },
    /// In a group, this bracket closes another one than the last that was opened.
    #[error("this bracket doesn't close the last one that was opened")]
    Bracket {
        /// The index of the bracket.
        at: u32,
    },
    /// Something else has to stand here.
    #[error("expected {wanted}")]
    Expected {
        /// What has to stand here.
        wanted: Wanted,
        /// The index of the first byte of the token that stands here; at the end the length of the text.
        at: u32,
    },
}

impl Fault {
    /// The index of the byte at which reading stopped; none where the text is too long or memory was wanting.
    pub fn at(self) -> Option<u32>
        ensures { result ≡ fault_place self }
    {
        match self {
            Fault::OutOfMemory | Fault::TooLong => None,
            Fault::Character { at } | Fault::Escape { at } | Fault::OpenString { at } => Some(at),
            Fault::OpenGroup { at } | Fault::Bracket { at } => Some(at),
            Fault::Expected { wanted: _, at } => Some(at),
        }
    }
}

impl From<ir_text_tokens::Fault> for Fault {
    ghost use Rattle.std.specs.Prelude.{◌≡◌};
    ghost use Rattle.ir_text_reader.specs.Faults.{of_tokens};

    ghost from_gives = { λ f e. e ≡ of_tokens f };

    fn from(fault: ir_text_tokens::Fault) -> Fault {
        match fault {
            ir_text_tokens::Fault::OutOfMemory => Fault::OutOfMemory,
            ir_text_tokens::Fault::TooLong => Fault::TooLong,
            ir_text_tokens::Fault::Character { at } => Fault::Character { at },
            ir_text_tokens::Fault::Escape { at } => Fault::Escape { at },
            ir_text_tokens::Fault::OpenString { at } => Fault::OpenString { at },
            ir_text_tokens::Fault::OpenGroup { at } => Fault::OpenGroup { at },
            ir_text_tokens::Fault::Bracket { at } => Fault::Bracket { at },
        }
    }
}

impl From<ir_text_tree::Fault> for Fault {
    ghost use Rattle.std.specs.Prelude.{◌≡◌};
    ghost use Rattle.ir_text_reader.specs.Faults.{of_tree};

    ghost from_gives = { λ f e. e ≡ of_tree f };

    fn from(fault: ir_text_tree::Fault) -> Fault {
        match fault {
            ir_text_tree::Fault::OutOfMemory => Fault::OutOfMemory,
            ir_text_tree::Fault::Expected { wanted, at } => Fault::Expected { wanted, at },
        }
    }
}
