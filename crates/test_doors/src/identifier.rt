//! `ir_base::identifier`, and the names that are identifiers.

ghost use Rattle.std.specs.Prelude.{◌≡◌, codes};

use ir_base::attribute::{AttrId, AttrName};
use ir_base::identifier::{IdentErr, Identifier, Legaliser, MalformedIdentifierErr, ident};
use ir_base::op::{DialectName, Id, Name, OpId, OpName};
use ir_base::types::{TypeId, TypeName};
use std::collections::hash_map::DefaultHasher;
use std::convert::{AsRef, AsStr};
use std::fmt::Display;
use std::hash::Hash;

/// The identifier of a literal.
pub fn literal() -> Identifier
    ensures { result ≡ codes "x" }
{
    ident!("x")
}

/// Identifiers.
pub fn identifiers() {
    let _ = Identifier::is_valid;
    let _ = Identifier::try_new;
    let _ = Identifier::new;
    let _ = Identifier::join;
    let _ = Identifier::from_text;
    let _ = Identifier::into_text;
    let _ = <Identifier as TryFrom<String>>::try_from;
    let _ = <Identifier as AsStr>::as_str;
    let _ = <Identifier as Display>::fmt::<String>;
    let _ = <Identifier as PartialEq>::eq;
    let _ = <Identifier as Ord>::cmp;
    let _ = <Identifier as Hash>::hash::<DefaultHasher>;
    let _ = <Identifier as Clone>::clone;
    let _ = MalformedIdentifierErr;
    let _ = IdentErr::MalformedIdentifierErr;
    let _ = IdentErr::OutOfMemory;
}

/// Legalisers.
pub fn legalisers() {
    let _ = Legaliser::new;
    let _ = Legaliser::with_counter;
    let _ = Legaliser::legalise;
    let _ = Legaliser::source_name;
}

/// Names of dialects, types, attributes and operations.
pub fn names<Of>() {
    let _ = DialectName::try_new;
    let _ = TypeName::try_new;
    let _ = AttrName::try_new;
    let _ = OpName::try_new;
    let _ = <Name<Of> as AsStr>::as_str;
    let _ = <Name<Of> as AsRef<Identifier>>::as_ref;
    let _ = <Name<Of> as From<Identifier>>::from;
    let _ = <Identifier as From<Name<Of>>>::from;
    let _ = <Name<Of> as TryFrom<String>>::try_from;
    let _ = <Name<Of> as Display>::fmt::<String>;
    let _ = <Name<Of> as PartialEq>::eq;
    let _ = <Name<Of> as Hash>::hash::<DefaultHasher>;
    let _ = <Name<Of> as Clone>::clone;
}

/// Ids of types, attributes and operations.
pub fn ids<Of>(ty: &TypeId, attr: &AttrId, op: &OpId) {
    let TypeId {
        dialect: _,
        name: _,
    } = ty;
    let AttrId {
        dialect: _,
        name: _,
    } = attr;
    let OpId {
        dialect: _,
        name: _,
    } = op;
    let _ = <Id<Of> as Display>::fmt::<String>;
    let _ = <Id<Of> as PartialEq>::eq;
    let _ = <Id<Of> as Hash>::hash::<DefaultHasher>;
    let _ = <Id<Of> as Clone>::clone;
}
