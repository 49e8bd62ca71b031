//! The flat tree of MLIR's generic textual form: what each part of a text is, and where it stands, read by one loop without recursion.
#![tactic(auto)]

mod fault;
mod parsing;
mod row;
mod sort;
mod text_step;
mod tree_laws;
mod tree_step;

pub use fault::{Fault, Wanted};
pub use parsing::{State, finish, parse, read_piece, start};
pub use row::{Part, Row, Span};
pub use sort::{Piece, Sort};
pub use text_step::{Bracket, TextKind};
pub use tree_step::{
    EntriesMode, LabelMode, Mode, OperandsMode, PartsMode, ResultsMode, TypesMode,
};

/// Laws of parsing.
pub mod laws {
    pub use crate::tree_laws::{
        one_tree_is_spelled, parsed_is_tree, rows_go_forward, tree_is_parsed,
    };
}
