//! The calls of a block, by its handle.

pub use crate::backward_edges::{get_pred, is_pred, is_succ_of, preds};
pub use crate::forward_edges::{get_succ, get_terminator, has_succ, is_succ, num_succ, succs};
pub use crate::verifying::verify_block as verify;
pub use ir_checked_core::basic_block::{
    append_linked_list, deref, deref_mut, drop_all_uses, erase, get_argument, get_head, get_next,
    get_parent_block, get_parent_op, get_parent_region, get_prev, get_tail, given_name, has_pred,
    id, insert_after, insert_argument, insert_at_back, insert_at_front, insert_before, iter, new,
    num_preds, pop_argument, preds_are_linked, push_argument, remove_argument,
    retarget_all_preds_to, retarget_pred_to, retarget_some_preds_to, unique_name, unlink, uses,
};
