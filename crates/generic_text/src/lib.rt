//! Between texts in MLIR's generic form and contexts over the dialect Generic: how the dialect is spelled, operations built of the rows of a text, and the check whether a flat tree describes operations, with all that is inside them.
//!
//! The check only reads. It walks the operations in the order of the rows, twice: the first walk notes what each row defines, the second compares each part with its rows. What it answers rests on the second alone, and not on how things are built.
#![tactic(auto)]

mod blocks;
mod build_error;
mod building;
mod check;
mod described;
mod described_error;
mod enclosing;
mod entries;
mod generic_spelling;
mod heads;
mod labels;
mod made;
mod meanings;
mod noting;
mod operands;
mod operations;
mod pushing;
mod regions;
mod results;
mod rows;
mod table;
mod tails;
mod taking_back;
mod texts;
mod walk;

pub use build_error::BuildError;
pub use building::{Built, build};
pub use described::check_described;
pub use described_error::DescribedErr;
pub use enclosing::{enclose, only_module};
pub use generic_spelling::{GenericSpelling, place_of};
