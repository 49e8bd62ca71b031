//! Tests of the rooms of texts, a module for each, and of their door.
#![tactic(auto)]

mod door;
#[cfg(test)]
mod names;
#[cfg(test)]
mod reader;
#[cfg(test)]
mod spelling;
#[cfg(test)]
mod strings;
#[cfg(test)]
mod tokens;
#[cfg(test)]
mod tree;
