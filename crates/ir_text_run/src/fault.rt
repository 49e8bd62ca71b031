//! Why a text isn't spelled again.

ghost use Rattle.std.specs.Prelude.{◌≡◌};
ghost use Rattle.ir_text_run.specs.Faults.{place_of};

use thiserror::Error;

/// What is said where memory was wanting.
pub(crate) const OUT_OF_MEMORY: &str = "out of memory";

/// What is said of input that can't be read.
pub(crate) const UNREADABLE: &str = "unreadable input";

/// What is said of output that can't be written.
pub(crate) const UNWRITABLE: &str = "unwritable output";

/// Why a text isn't spelled again.
#[derive(Clone, Copy, Debug, Drop, PartialEq, Eq, Error)]
pub enum Fault {
    /// There was no memory.
    #[error("{OUT_OF_MEMORY}")]
    OutOfMemory,
    /// The input can't be read.
    #[error("{UNREADABLE}")]
    Unreadable,
    /// The output can't be written.
    #[error("{UNWRITABLE}")]
    Unwritable,
    /// The text is no tree, or too long.
    #[error("{0}")]
    Reading(ir_text_reader::Fault),
    /// A name in it is wrong.
    #[error("{0}")]
    Naming(ir_text_names::Fault),
}

impl Fault {
    /// The index of the byte in the text at which it stands; none where it is no fault of the text, or of its length.
    pub fn at(self) -> Option<u32>
        ensures { result ≡ place_of self }
    {
        match self {
            Fault::OutOfMemory | Fault::Unreadable | Fault::Unwritable => None,
            Fault::Reading(fault) => fault.at(),
            Fault::Naming(fault) => fault.at(),
        }
    }
}

impl From<ir_text_reader::Fault> for Fault {
    ghost use Rattle.std.specs.Prelude.{◌≡◌};
    ghost use Rattle.ir_text_run.specs.Faults.{of_reading};

    ghost from_gives = { λ f e. e ≡ of_reading f };

    fn from(fault: ir_text_reader::Fault) -> Fault {
        match fault {
            ir_text_reader::Fault::OutOfMemory => Fault::OutOfMemory,
            _ => Fault::Reading(fault),
        }
    }
}

impl From<ir_text_names::Fault> for Fault {
    ghost use Rattle.std.specs.Prelude.{◌≡◌};
    ghost use Rattle.ir_text_run.specs.Faults.{of_naming};

    ghost from_gives = { λ f e. e ≡ of_naming f };

    fn from(fault: ir_text_names::Fault) -> Fault {
        match fault {
            ir_text_names::Fault::OutOfMemory => Fault::OutOfMemory,
            _ => Fault::Naming(fault),
        }
    }
}
