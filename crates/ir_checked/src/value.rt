//! The calls of a value.

pub use crate::verifying::verify_value as verify;
pub use ir_checked_core::value::{
    find_index, get_parent_block, get_parent_region, get_type, given_name, id, is_used, loc,
    num_uses, replace_all_uses_with, replace_some_uses_with, replace_use_with, set_name, set_type,
    unique_name, uses,
};
