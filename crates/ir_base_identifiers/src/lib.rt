//! Texts that name things: identifiers, the legaliser that gives each source text an identifier of its own, and the names and ids of a dialect.
#![tactic(auto)]

mod identifier;
mod legaliser;
mod name_laws;
mod names;

pub use identifier::{IdentErr, Identifier, MalformedIdentifierErr};
pub use legaliser::Legaliser;
pub use names::{
    AttrId, AttrName, DialectName, Id, Name, OfAttr, OfDialect, OfOp, OfType, OpId, OpName, TypeId,
    TypeName,
};

/// Laws of identifiers, names and ids.
pub mod laws {
    pub use crate::name_laws::{
        identifiers_compare_as_texts, identifiers_follow_the_rule, ids_compare_as_pairs,
        joins_are_identifiers, names_compare_as_texts,
    };
}
