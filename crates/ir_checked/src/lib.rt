//! The calls with a condition, each with its conditions tested, as callers name them: for those who prove nothing, and for those who rest on what they prove.
//!
//! For each call that has a condition there is a function of the same name, with the same arguments in the same order, in a module that is named after what the call is of. Those of a context stand in `ir_checked_core`, those of views, walks, verification and passes here; each has one path. `use ir_checked::prelude::*;` brings the types that the calls speak of.
//!
//! Each answers which call can't be made and why, or makes the call and answers what it answers, with its clauses. Where the call itself answers a `Result` that isn't one of a context, as verification does, that stands inside the `Ok`.
#![tactic(auto)]

mod backward_edges;
pub mod basic_block;
pub mod dead;
mod forward_edges;
pub mod op;
pub mod operation;
mod operation_kinds;
pub mod passes;
pub mod region;
pub mod type_interface_handle;
mod typed;
pub mod typed_handle;
pub mod types;
pub mod value;
pub mod verify;
mod verifying;
pub mod walk;

/// Why a call isn't made: which call, and which of its conditions doesn't hold.
pub mod error {
    pub use ir_checked_core::{Call, CheckedErr, Condition, Unmet};
}

/// Contexts, made with limits and let go.
pub mod context {
    pub use ir_checked_core::context::{end, with_limits};
}

/// The calls of an operation, a block or a region, whichever it is.
pub mod entity {
    pub use ir_checked_core::entity::can_erase;
}

/// Identifiers of texts that are borrowed for good.
pub mod identifier {
    pub use ir_checked_core::identifier::new;
}

/// The calls of an operand as a use.
pub mod operand_use {
    pub use ir_checked_core::operand_use::{find_index, get_def, get_type};
}

/// The calls of a successor as a use.
pub mod successor_use {
    pub use ir_checked_core::successor_use::{find_index, get_def};
}

/// Saved values that are held by their keys.
pub mod uniqued {
    pub use ir_checked_core::uniqued::get;
}

/// Saved values, by their keys.
pub mod uniqued_any {
    pub use ir_checked_core::uniqued_any::get;
}

/// The types that the calls speak of, why they aren't made, and tests that no call below has to be asked for.
pub mod prelude {
    pub use ir_checked_core::CheckedErr;
    pub use ir_checked_core::prelude::{
        BasicBlock, BasicBlockMut, Context, CoreError, DefiningEntity, Dialects, Entity,
        Identifier, Iter, Limits, Operation, OperationMut, OperationUses, Ptr, Region, TypeHandle,
        Uniqued, UniquedKey, Use, Value, attribute, is_inside,
    };
}
