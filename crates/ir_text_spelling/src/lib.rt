//! A flat tree of MLIR's generic textual form spelled again: one text for each tree, with the texts of its parts as they stand in the text that it was read of.
#![tactic(auto)]

mod leading;
mod mark;
mod spelling;
mod spelling_laws;
mod writing;

pub use spelling::{spell, spell_to};
pub use writing::write_bytes;

/// Laws of trees spelled again.
pub mod laws {
    pub use crate::spelling_laws::tree_text_spells_again;
}
