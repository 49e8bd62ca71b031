//! A text in MLIR's generic form read into a context, worked on by passes, and printed again: the work of the program `ir_opt`, over any reader and writers.
#![tactic(auto)]

mod fault;
mod generic_verifiers;
mod making;
mod optimising;
mod options;
mod passes;
mod printing;
mod reading;
mod run_laws;
mod running;
mod said_laws;
mod saying;
mod telling;
mod trees;
mod verifying;

pub use fault::{Fault, Finding};
pub use generic_verifiers::GenericVerifiers;
pub use options::{Options, Pass};
pub use printing::print_operation;
pub use reading::{Block, Module, Op, read_module};
pub use running::run_opt;

/// Laws that lead from what a run does to what it means.
pub mod laws {
    pub use crate::run_laws::{
        listed_names_are_rows, passes_are_right, passes_keep, pure_operations_are_listed,
        written_alike_is_one,
    };
    pub use crate::said_laws::said_alike;
}
