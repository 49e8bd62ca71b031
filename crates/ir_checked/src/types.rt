//! The calls of the handle of a type.

pub use crate::typed::get_type;
pub use crate::verifying::verify_type as verify;
pub use ir_checked_core::types::{body, deref, set_body};
