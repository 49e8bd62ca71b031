//! The removal of the blocks of regions that no way from the first block reaches.
//!
//! It stands on contracts of public calls, as a caller's own pass does.
#![tactic(auto)]

mod condition;
mod inside;
mod reached;
mod removing;
mod unreached_laws;

pub use condition::can_remove_unreached;
pub use inside::{can_remove_unreached_inside, remove_unreached_inside};
pub use removing::remove_unreached;

/// Laws that lead from a removal to what it means.
pub mod laws {
    pub use crate::unreached_laws::{inside_removal_tells, unreached_removal_tells};
}
