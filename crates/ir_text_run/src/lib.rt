//! A text in MLIR's generic form read, its names resolved, and spelled again: the work of the program `irtext`, over any reader and writers.
#![tactic(auto)]

mod ending;
mod fault;
mod form;
mod respelling;
mod running;
mod telling;
mod text_parts;

pub use ending::Ending;
pub use fault::Fault;
pub use form::Form;
pub use respelling::respell;
pub use running::{run, run_parts, run_text};
pub use text_parts::{Front, first_part};
