//! Tests of names: what each means, and the first fault of a text with its line and column.

mod block_tests;
mod fault_tests;
mod law_tests;
mod value_tests;
