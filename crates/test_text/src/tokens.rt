//! Tests of tokens: what each text gives, each fault with its line and column, and what is spelled.

mod fault_tests;
mod rendering;
mod token_tests;
