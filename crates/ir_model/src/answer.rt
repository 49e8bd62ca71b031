//! How a session answers an edit.

use std::fmt;
use std::fmt::{Display, Write};

/// Why an edit was refused. Nothing that the context means has changed then.
#[derive(Clone, Copy, Debug, Drop, PartialEq, Eq)]
pub enum Refused {
    /// The edit's condition does not hold.
    Condition,
    /// A growth was refused.
    Memory,
    /// Too few value or use numbers are left.
    Counter,
    /// Too few slots are left.
    Slots,
}

impl Display for Refused {
    ghost use Rattle.std.specs.Prelude.{Some};
    ghost use Rattle.ir_model.specs.RefusalText.{refusal_text};

    ghost output = { λ reason. Some (refusal_text reason) };

    fn fmt<W: Write>(&self, f: &mut fmt::Formatter<W>) -> fmt::Result {
        match self {
            Refused::Condition => write!(f, "condition does not hold"),
            Refused::Memory => write!(f, "out of memory"),
            Refused::Counter => write!(f, "counter spent"),
            Refused::Slots => write!(f, "slots spent"),
        }
    }
}

/// The answer to one edit.
#[derive(Clone, Copy, Debug, Drop, PartialEq, Eq)]
pub enum Answer {
    /// It was carried out, and the first thing that it made has this number in its table.
    Made(usize),
    /// It was carried out.
    Done,
    /// It was refused.
    Refused(Refused),
}
