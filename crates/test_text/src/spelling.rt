//! Tests of trees spelled again: the text of each, and that it is read as the same tree.

mod spelling_tests;
