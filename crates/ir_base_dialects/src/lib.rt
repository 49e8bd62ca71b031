//! What needs no context: the trait of a dialect, attributes and their dictionaries, saved values, stores and verifier lists.
//!
//! It gives out identifiers and names, and arenas and lists.
#![tactic(auto)]

pub mod attribute;
mod attribute_dict;
mod dialects;
pub mod interfaces;
mod lazy_table;
mod pairs;
mod saved_value;
mod storage_uniquer;
mod store_laws;
mod type_handle;
mod type_store;
mod verifier_lists;

pub use dialects::{Dialects, unknown_loc};
pub use ir_base_arenas::{
    Arena, Iter, Plain, PlainSeq, Ptr, Room, Seq, TakeOut, linked_list, list_laws,
};
pub use ir_base_identifiers::{
    AttrId, AttrName, DialectName, Id, IdentErr, Identifier, Legaliser, MalformedIdentifierErr,
    Name, OfAttr, OfDialect, OfOp, OfType, OpId, OpName, TypeId, TypeName, ident,
};
pub use ir_model::{Answer, ArenaIndex, CoreError, Limits, Refused};
pub use saved_value::SavedValue;
pub use storage_uniquer::UniqueStore;
pub use type_handle::TypeHandle;
pub use type_store::TypeStore;
pub use verifier_lists::{
    DictKeyId, DuplicateKey, collect_deduped_interface_verifiers, verify_dict_keys,
};

/// Laws about the definitions that the contracts cite.
pub mod laws {
    pub use crate::store_laws::{
        dictionaries_compare_by_keys, equal_dictionaries_hash_equally,
        equal_places_for_equal_values, supers_stay_first,
    };
    pub use ir_base_identifiers::laws::{
        identifiers_compare_as_texts, identifiers_follow_the_rule, ids_compare_as_pairs,
        joins_are_identifiers, names_compare_as_texts,
    };
    pub use ir_model::sources_apart;
}
