//! The calls of a context with their conditions tested, for callers who prove nothing, and for those who rest on what they prove.
//!
//! For each call that has a condition there is a function of the same name, with the same arguments in the same order, in a module that is named after what the call is of. It tests the conditions in turn, each once. Where one doesn't hold it answers which call and which condition, and nothing has changed. Else it makes the call, and answers what the call answers, with the call's own clauses.
#![tactic(auto)]

mod argument_edits;
mod asked;
pub mod basic_block;
mod block_ends;
mod block_list;
mod block_places;
mod block_records;
mod block_uses;
pub mod context;
pub mod entity;
mod error;
pub mod identifier;
mod operand_edits;
pub mod operand_use;
pub mod operation;
mod operation_ends;
mod operation_list;
mod operation_places;
mod operation_records;
pub mod region;
mod result_edits;
mod successor_edits;
pub mod successor_use;
pub mod types;
pub mod uniqued;
pub mod uniqued_any;
pub mod value;
mod value_edits;
mod value_reads;

/// The types that the calls speak of, and tests that no call below has to be asked for.
pub mod prelude {
    pub use ir_base_dialects::{
        CoreError, Dialects, Identifier, Iter, Limits, Ptr, TypeHandle, attribute,
    };
    pub use ir_core_queries::{
        BasicBlock, BasicBlockMut, Context, DefiningEntity, Entity, Operation, OperationMut,
        OperationUses, Region, Use, Value, is_inside,
    };
    pub use ir_core_uniqued::{Uniqued, UniquedKey};
}

pub use error::{Call, CheckedErr, Condition, Unmet};
