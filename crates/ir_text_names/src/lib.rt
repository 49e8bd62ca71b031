//! What the names in a flat tree of the generic textual form mean, and the first that means nothing or is given twice.
#![tactic(auto)]

mod block_names;
mod counting;
mod dictionary_keys;
mod fault;
mod firsts;
mod given;
mod name_laws;
mod named_rows;
mod numbers;
mod places;
mod resolving;
mod result_numbers;
mod row_table;
mod rows;
mod type_places;
mod value_names;
mod value_numbers;
mod value_types;

pub use block_names::blocks;
pub use counting::operand_types;
pub use dictionary_keys::keys;
pub use fault::{Fault, Wrong};
pub use ir_text_tree::{Part, Row, Span};
pub use numbers::Amount;
pub use resolving::{Names, resolve};
pub use result_numbers::{result_types, width};
pub use row_table::RowTable;
pub use rows::piece;
pub use value_names::values;
pub use value_numbers::which;

/// Laws of names.
pub mod laws {
    pub use crate::name_laws::{names_one_block, names_one_value};
}
