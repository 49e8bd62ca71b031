//! What a context keeps beside the forest and the types: saved data, and auxiliary data with its names.
//!
//! Each call says, in the words of the definitions, what it leaves of all three.
#![tactic(auto)]

mod aux_arena;
mod aux_index;
mod aux_names;
mod side_data;

pub use aux_index::AuxDataIndex;
pub use aux_names::AuxNames;
pub use side_data::SideData;
