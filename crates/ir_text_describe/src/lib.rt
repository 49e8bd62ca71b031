//! From a context to MLIR's generic textual form: an operation with all inside it as a flat tree, which `ir_text_spelling` prints. And the trait by which a dialect says how its operations, types, attributes and locations are spelled there.
//!
//! Values and blocks are numbered region by region, as MLIR does it. In a region the values of all its blocks get their numbers before anything in it is put: block by block its arguments, then the results of its operations. A region's numbers go on from those of the region around it.
#![tactic(auto)]

mod draft;
mod naming;
mod parts;
mod spelling;
mod walk;
mod writing;

pub use ir_text_pieces::{DescribeErr, Description};
pub use spelling::{AttributeForm, Located, Spelling};
pub use walk::{Locations, describe};
