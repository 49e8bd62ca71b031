//! The calls of an operation by its handle, each with its condition as a `requires`, and the test of that condition.

pub use crate::moving::{may_move_beside, move_after, move_before};
pub use crate::point::{insert_at, may_go_at};
pub use crate::replacing::{may_replace_op, replace_op, replace_results};
