//! The calls of a block, by its handle.

pub use crate::argument_edits::{insert_argument, pop_argument, push_argument, remove_argument};
pub use crate::block_ends::{drop_all_uses, erase};
pub use crate::block_list::{insert_after, insert_at_back, insert_at_front, insert_before, unlink};
pub use crate::block_places::{
    get_head, get_next, get_parent_block, get_parent_op, get_parent_region, get_prev, get_tail,
    iter, preds_are_linked,
};
pub use crate::block_records::{deref, deref_mut, get_argument, given_name, id, new, unique_name};
pub use crate::block_uses::{
    has_pred, num_preds, retarget_all_preds_to, retarget_pred_to, retarget_some_preds_to, uses,
};
pub use crate::operation_list::append_linked_list;
