//! The dialect `Generic`, for any input in MLIR's generic textual form.
//!
//! Names of operations and the texts of types, attributes and locations are saved in the context, once each, and are named by their places there. Nothing is known of an operation but what the table of operations says.
#![tactic(auto)]

mod attribute_keys;
mod generic;
mod key_laws;
mod kind_laws;
mod kinds;
mod saved;
mod texts;

pub use attribute_keys::{key_bytes, key_identifier, properties_key};
pub use generic::{Generic, GenericAttr, GenericLoc, GenericSaved, GenericType, KeptAttr};
pub use kinds::{Kind, OPEN_KINDS, OPEN_NAMES, kind_name, table_kind};
pub use texts::TextId;

/// Laws of keys and of kinds.
pub mod laws {
    pub use crate::key_laws::{keys_stand_apart, properties_stand_apart};
    pub use crate::kind_laws::{kinds_and_numbers, pure_kinds_are_safe};
}
