//! Which rows of a flat tree belong together: the operations, each behind all that stands inside it, the blocks and the regions; and what a row says by its text and its names.
#![tactic(auto)]

mod narrowing;
mod outlining;
mod reading;
mod source;

pub use ir_text_names::Names;
pub use ir_text_tree::{Part, Row};
pub use narrowing::narrow;
pub use outlining::{BlockRows, OpRows, Outline, RegionRows, outline_of};
pub use source::Source;
