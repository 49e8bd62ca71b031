//! The calls of an operation, by its handle.

pub use crate::operand_edits::{
    insert_operand, pop_operand, push_operand, remove_operand, replace_operand,
};
pub use crate::operation_ends::{drop_all_uses, erase, erase_region};
pub use crate::operation_list::{
    insert_after, insert_at_back, insert_at_front, insert_before, unlink,
};
pub use crate::operation_places::{
    get_next, get_parent_block, get_parent_op, get_parent_region, get_prev, has_use, num_uses, uses,
};
pub use crate::operation_records::{
    add_region, deref, deref_mut, get_operand, get_operand_as_use, get_region, get_result,
    get_successor, get_successor_as_use, get_type, new,
};
pub use crate::result_edits::{insert_result, pop_result, push_result, remove_result};
pub use crate::successor_edits::{
    insert_successor, pop_successor, push_successor, remove_successor, replace_successor,
};
