//! Doors and nothing else: each item that callers are promised of the first five is named at the door that gives it out, so that the check refuses a door that lacks one.
//!
//! A call is named by its path, which asks nothing of its arguments and so costs next to nothing to prove.
#![tactic(auto)]

mod attribute;
mod basic_block;
mod contexts;
mod handles;
mod identifier;
mod lists;
mod op;
mod operation;
#[cfg(test)]
mod own_lists;
mod preludes;
mod region;
mod run;
mod stored;
mod types;
mod value;
mod verify;
mod walk;
