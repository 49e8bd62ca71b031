//! The calls of an operation, by its handle.

pub use crate::operation_kinds::{get_op, get_op_dyn, get_opid, is_op, operand_types};
pub use crate::verifying::verify_op as verify;
pub use ir_checked_core::operation::{
    add_region, deref, deref_mut, drop_all_uses, erase, erase_region, get_next, get_operand,
    get_operand_as_use, get_parent_block, get_parent_op, get_parent_region, get_prev, get_region,
    get_result, get_successor, get_successor_as_use, get_type, has_use, insert_after,
    insert_at_back, insert_at_front, insert_before, insert_operand, insert_result,
    insert_successor, new, num_uses, pop_operand, pop_result, pop_successor, push_operand,
    push_result, push_successor, remove_operand, remove_result, remove_successor, replace_operand,
    replace_successor, unlink, uses,
};
