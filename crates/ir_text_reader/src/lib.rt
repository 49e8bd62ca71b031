//! A text in MLIR's generic form read whole: its tokens, each given to the tree as soon as it is read, so that the first fault of the text is the one that is told.
#![tactic(auto)]

mod fault;
mod parsing;
mod piece;

pub use fault::Fault;
pub use ir_text_tokens::line_and_column;
pub use ir_text_tree::{Part, Row, Span, Wanted};
pub use parsing::{Tree, parse};
