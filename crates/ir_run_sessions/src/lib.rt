//! Sessions, which carry out lists of edits: the tables of what was made in a session, how what an edit names by its numbers is found there and tested, and how each edit is carried out on the context and these tables.
//!
//! A call that finds something tells that it is live, and a call that doesn't that nothing has what is asked. Each step is one call, whose contract names the edit and what was answered.
#![tactic(auto)]

mod definition_conditions;
pub mod definition_steps;
mod entities;
mod erase_conditions;
pub mod erase_steps;
mod laws;
mod list_conditions;
pub mod list_steps;
mod lookups;
pub mod redirect_steps;
mod session;
mod session_tables;
mod stepping;
pub mod steps;
mod use_conditions;
pub mod use_steps;

pub use ir_base_dialects::{Answer, Refused};
pub use ir_core_queries::{
    BasicBlock, BlockPtr, Context, Operation, OperationPtr, Region, Value, ValueQueries,
};
pub use ir_run_edits::Edit;
pub use laws::choices_unseen;
pub use session::Session;
pub use session_tables::Tables;
