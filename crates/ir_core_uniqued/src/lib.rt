//! Saved data by the types of its values: an equal value is kept once, under one key.
//!
//! A context keeps saved data of one closed type of its dialect. Here a value's own type says of which kind it is, so a key leads to a value of that type.
#![tactic(auto)]

mod saved_laws;
pub mod uniqued;

pub use ir_base_dialects::SavedValue;
pub use saved_laws::{equal_keys_for_equal_values, kinds_are_never_equal};
pub use uniqued::{Uniqued, UniquedKey, get, save};
