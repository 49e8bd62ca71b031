//! The operations of MLIR 16 of which something matters to a pass or to verification: their names, with flags alone.
//!
//! Nothing proves that the table is MLIR's. `tools/op-table` makes it from the definitions that MLIR installs, and tells every difference.
#![tactic(auto)]

mod laws_of_rows;
mod look_up;
mod table;
mod traits;

pub use look_up::{name_at, row_of, traits_at};
pub use traits::Traits;

/// Laws of the table.
pub mod laws {
    pub use crate::laws_of_rows::{names_rise, pure_operations_are_safe};
}
