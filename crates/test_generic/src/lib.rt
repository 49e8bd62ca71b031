//! Tests of the dialect Generic and of its table of operations.
//!
//! Where memory is refused, a test ends with the text `memory` and the error.
#![tactic(auto)]

#[cfg(test)]
mod dialect_tests;
#[cfg(test)]
mod key_tests;
#[cfg(test)]
mod kind_tests;
#[cfg(test)]
mod table_tests;
