//! What the names of a tree mean, told of the tree itself, and laws that the rows of the tree say the same.
//!
//! The definitions stand in `specs/`. Each law is the contract of a public function here that takes and does nothing.
#![tactic(auto)]

mod fault_laws;
mod listing_laws;
mod name_laws;
mod owner_laws;
mod region_laws;
mod result_laws;

pub use fault_laws::{faults_meet, name_faults_meet, well_named_trees_have_no_fault};
pub use listing_laws::parts_are_listed;
pub use name_laws::{operands_mean_values, successors_mean_blocks};
pub use owner_laws::{keys_are_given_again, operand_types_are_counted, operations_own_parts};
pub use region_laws::{one_body_begins, parts_are_rows, regions_are_bodies, regions_stand_within};
pub use result_laws::{
    counts_are_numbers, names_follow_values, operand_types_meet, result_types_are_counted,
    results_follow_values,
};
