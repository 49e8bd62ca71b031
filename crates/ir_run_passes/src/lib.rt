//! Passes: the sweep of a block and of all that stands inside an operation, and the merging of alike operations.
//!
//! They stand on contracts of public calls, as a caller's own pass does, and on the walk by links that erasing takes.
#![tactic(auto)]

mod alike;
mod dead;
mod kept_ops;
mod merging;
mod merging_inside;
mod ordering;
mod pass_laws;
mod sweeping;
mod walking;

pub use dead::sweep;
pub use merging::merge_common;
pub use merging_inside::merge_common_inside;
pub use sweeping::sweep_inside;

/// Laws that lead from a pass to what it means.
pub mod laws {
    pub use crate::pass_laws::{
        broken_off_keeps_meaning, merge_common_inside_is_right, merge_common_is_right,
        sweep_inside_is_right,
    };
}
