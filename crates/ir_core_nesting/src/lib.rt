//! Who stands in whom: operations in blocks, blocks in regions, regions in operations.
//!
//! The calls here make bare operations, blocks and regions, and take them back where a larger call is refused. Each asks for records whose links, ends and parents agree (`AreNested`), keeps that, and is one equation on the forest that the records mean (`forest_in`). None of them changes what is used by whom.
#![tactic(auto)]

pub mod block_list;
mod creation;
mod list_edits;
pub mod operation_list;
mod parents;
mod region_moves;
mod removals;

pub use creation::{
    add_region, insert_block, insert_operation, remove_bare_operation, remove_last_region,
};
pub use parents::{are_one, is_inside, parent_of, recall_depths_follow};
pub use region_moves::move_region;
pub use removals::{remove_bare_block, remove_empty_region};
