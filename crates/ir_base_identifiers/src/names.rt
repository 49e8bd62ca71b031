//! The names of dialects, types, attributes and operations, and the ids that join a dialect's name with one of its own.
//!
//! A name is an identifier, told apart by what it names. A contract sees it as the bytes of its text, and an id as its two names.
ghost use Rattle.std.specs.Prelude.{◌≡◌, ◌↔◌, ◌++◌, ◌∷◌, IfOk, IfErr, IsOk, OnOk, MatchResult, Some, string_bytes};
ghost use Rattle.ir_model.specs.Identifier.{IsIdentifier};
ghost use Rattle.ir_base_identifiers.specs.IdentErr.{IsReason};

use crate::identifier::{IdentErr, Identifier, MalformedIdentifierErr};
use std::alloc::Global;
use std::convert::{AsRef, AsStr};
use std::fmt;
use std::marker::{Model, PhantomData};

/// Marks the names of dialects.
#[derive(Drop)]
pub struct OfDialect;

/// Marks the names and ids of types.
#[derive(Drop)]
pub struct OfType;

/// Marks the names and ids of attributes.
#[derive(Drop)]
pub struct OfAttr;

/// Marks the names and ids of operations.
#[derive(Drop)]
pub struct OfOp;

/// A name, of what `Of` marks.
#[derive_where(Clone, Debug, PartialEq, Eq, Hash)]
#[derive(Drop)]
pub struct Name<Of> {
    identifier: Identifier,
    of: PhantomData<Of>,
}

/// The name of a dialect.
///
/// Stands for pliron's `dialect::DialectName`.
pub type DialectName = Name<OfDialect>;

/// The name of a type.
///
/// Stands for pliron's `r#type::TypeName`.
pub type TypeName = Name<OfType>;

/// The name of an attribute.
///
/// Stands for pliron's `attribute::AttrName`.
pub type AttrName = Name<OfAttr>;

/// The name of an operation.
///
/// Stands for pliron's `op::OpName`.
pub type OpName = Name<OfOp>;

impl<Of> Model for Name<Of> {
    ghost use Rattle.std.specs.Prelude.{List, ℕ};

    ghost Value = { List ℕ };

    ghost view = { λ name. name.identifier };

    ghost inverse = { λ text. record { identifier = text; of = record {} } };
}

impl<Of> Name<Of> {
    /// A copy of a text, as a name. `OutOfMemory` where there is no room for the copy, whatever the text; else a text that is no identifier is handed back.
    pub fn try_new(alloc: Global, text: &str) -> Result<Self, IdentErr>
        ensures text { IfOk result (λ name. name ≡ text.now) }
        ensures valid { OnOk result (IsIdentifier text.now) }
        ensures refused { IfErr result (IsReason text.now) }
    {
        Ok(Name::from(Identifier::from_text(alloc, text)?))
    }
}

impl<Of> AsStr for Name<Of> {
    ghost text = { λ name. name };

    fn as_str(&self) -> &str {
        self.identifier.as_str()
    }
}

impl<Of> AsRef<Identifier> for Name<Of> {
    fn as_ref(&self) -> &Identifier
        ensures { result.now ≡ self.now }
    {
        &self.identifier
    }
}

impl<Of> From<Identifier> for Name<Of> {
    ghost from_gives = { λ identifier name. name ≡ identifier };

    fn from(identifier: Identifier) -> Name<Of> {
        Name {
            identifier,
            of: PhantomData,
        }
    }
}

impl<Of> From<Name<Of>> for Identifier {
    ghost from_gives = { λ name identifier. identifier ≡ name };

    fn from(name: Name<Of>) -> Identifier {
        name.identifier
    }
}

impl<Of> TryFrom<String> for Name<Of> {
    type Error = MalformedIdentifierErr;

    ghost try_from_gives = { λ text r. (IsOk r ↔ IsIdentifier (string_bytes text)) × MatchResult r (λ name. name ≡ string_bytes text) (λ e. e.0 ≡ text) };

    fn try_from(text: String) -> Result<Name<Of>, MalformedIdentifierErr> {
        Ok(Name::from(Identifier::try_new(text)?))
    }
}

impl<Of> fmt::Display for Name<Of> {
    ghost output = { λ name. Some name };

    fn fmt<W: fmt::Write>(&self, f: &mut fmt::Formatter<W>) -> fmt::Result {
        f.write_str(self.as_str())
    }
}

/// The dialect and the name of what `Of` marks. It prints as the two with a dot between.
#[derive_where(Clone, Debug, Hash, PartialEq, Eq)]
#[derive(Drop)]
pub struct Id<Of> {
    /// The name of the dialect.
    pub dialect: DialectName,
    /// The name in that dialect.
    pub name: Name<Of>,
}

/// The dialect and the name of a type.
///
/// Stands for pliron's `r#type::TypeId`.
pub type TypeId = Id<OfType>;

/// The dialect and the name of an attribute.
///
/// Stands for pliron's `attribute::AttrId`.
pub type AttrId = Id<OfAttr>;

/// The dialect and the name of an operation.
///
/// Stands for pliron's `op::OpId`.
pub type OpId = Id<OfOp>;

impl<Of> fmt::Display for Id<Of> {
    ghost output = { λ id. Some (id.dialect ++ 46 ∷ id.name) };

    fn fmt<W: fmt::Write>(&self, f: &mut fmt::Formatter<W>) -> fmt::Result {
        write!(f, "{}.{}", self.dialect, self.name)
    }
}
