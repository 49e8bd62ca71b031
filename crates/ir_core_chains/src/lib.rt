//! The def-use chains: from definitions to their uses and back, edited, with results and arguments put in, taken out and given other types and names.
//!
//! Each call of uses asks for records in which uses and places name each other (`AreLinked`), and keeps that. Each call is one equation on the forest that the records mean (`forest_in`). None of them changes who stands in whom (`KeepsTree`). A definition that comes in has no uses, and none goes that has some.
#![tactic(auto)]

mod chains;
mod chains_at;
mod definitions;
mod named;
mod places;
mod places_at;
mod use_lists;

pub use definitions::{
    insert_definition, pop_definition, push_definition, remove_definition, set_name, set_type,
};
pub use named::{Named, Names};
pub use places::{
    link_operands, link_successors, pop_operand, pop_successor, push_operand, push_successor,
    unlink_operands, unlink_successors,
};
pub use places_at::{
    insert_operand, insert_successor, remove_operand, remove_successor, replace_operand,
    replace_successor,
};
