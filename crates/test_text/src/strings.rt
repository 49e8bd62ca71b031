//! Tests of what texts between quotes stand for.

mod escape_tests;
