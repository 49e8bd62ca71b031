//! The calls of a value.

pub use crate::value_edits::{
    replace_all_uses_with, replace_some_uses_with, replace_use_with, set_name, set_type,
};
pub use crate::value_reads::{
    find_index, get_parent_block, get_parent_region, get_type, given_name, id, is_used, loc,
    num_uses, unique_name, uses,
};
