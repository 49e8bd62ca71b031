//! Tests of texts read whole: their rows, and the first fault of each with its line and column.

mod text_tests;
