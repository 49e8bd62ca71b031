//! Flat trees that are made and not read: rows whose spans are pieces of a text of their own, in which each piece that comes again is written once; the names of values and blocks; and texts in quotes.
#![tactic(auto)]

mod bare_types;
mod description;
mod error;
mod names;
mod numbered;
mod quoting;
mod writer;

pub use description::Description;
pub use error::DescribeErr;
pub use ir_text_tree::{Part, Row, Span};
pub use names::{Name, NameSort, Names};
pub use numbered::Numbered;
pub use quoting::{is_bare_key, write_key, write_quoted};
pub use writer::{TreeWriter, TypePiece};
