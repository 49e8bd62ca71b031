//! The calls of a region, by its handle.

pub use crate::verifying::verify_region as verify;
pub use ir_checked_core::region::{
    append_linked_list, deref, drop_all_uses, find_index_in_parent, get_entry_block, get_head,
    get_parent_block, get_parent_op, get_parent_region, get_tail, has_ssa_dominance, iter,
    move_to_op,
};
