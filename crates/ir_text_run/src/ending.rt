//! What comes of a run.
ghost use Rattle.std.specs.Prelude.{◌≡◌};
ghost use Rattle.ir_text_run.specs.Endings.{both, well, unwritable};

/// What came of a run, or of a part of it.
#[derive(Clone, Copy, Debug, Drop, PartialEq, Eq)]
pub struct Ending {
    /// The program's status: 0 where all was written; 1 where a text has a fault, memory was wanting, or the input can't be read; 3 where the output can't be written.
    pub status: u8,
    /// Whether each fault was told whole; if not, the writer for faults failed.
    pub is_told: bool,
}

impl Ending {
    /// What came of a run before anything was done.
    pub(crate) fn well() -> Ending
        ensures { result ≡ well }
    {
        Ending {
            status: 0,
            is_told: true,
        }
    }

    /// What came of a run whose output failed.
    pub(crate) fn unwritable(self) -> Ending
        ensures { result ≡ unwritable self.is_told }
    {
        Ending {
            status: 3,
            is_told: self.is_told,
        }
    }

    /// What came of two parts of a run.
    pub(crate) fn and(self, other: Ending) -> Ending
        ensures { result ≡ both self other }
    {
        Ending {
            status: self.status.max(other.status),
            is_told: self.is_told && other.is_told,
        }
    }
}
