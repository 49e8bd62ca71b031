//! What it means that a flat tree describes operations of a forest, with all that is inside them, and that what it describes in two forests is alike.
//!
//! The definitions stand in `specs/`. Each law is the contract of a public function here that takes and does nothing.
#![tactic(auto)]

mod alike_laws;
mod item;

pub use item::Item;

/// Laws of what is described.
pub mod laws {
    pub use crate::alike_laws::{
        alike_tells, correspondents_are_one, described_alike, listed_stand_apart,
        meant_names_are_defined, small_alikes_are_told,
    };
}
