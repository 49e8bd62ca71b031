//! Tests of the flat tree: the rows of each production, each fault with its place, and deep nests.

mod deep_tests;
mod fault_tests;
mod letters;
mod row_tests;
