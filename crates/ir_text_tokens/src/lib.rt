//! The tokens of MLIR's generic textual form: read from a text, each with its span, and spelled again.
#![tactic(auto)]

mod byte_class;
mod fault;
mod going_on;
mod place;
mod reader_step;
mod scanning;
mod spelling;
mod token;
mod token_laws;

pub use fault::Fault;
pub use place::line_and_column;
pub use scanning::{next_token, tokens};
pub use spelling::spell;
pub use token::{Bracket, Kind, Mark, Sign, Token};

/// Laws of tokens and their spelling.
pub mod laws {
    pub use crate::token_laws::{
        covering_goes_forward, covering_is_read, read_has_spelling, reading_covers, scanning_reads,
        spelling_is_kept, spelling_is_read,
    };
}
