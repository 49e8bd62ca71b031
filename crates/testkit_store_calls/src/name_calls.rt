//! Names and ids, made and copied.

ghost use Rattle.std.specs.Prelude.{◌≡◌};

use crate::identifier_calls::{owned, refusal};
use crate::store_call::StoreCall;
use ir_base_dialects::{CoreError, Id, Name, OfAttr, OfDialect, OfOp, OfType};
use std::alloc::Global;
use std::convert::AsStr;

/// A call that makes or copies a name or an id.
#[derive(Clone, Copy, Debug, Drop)]
pub enum NameCall {
    /// `try_new` of a `DialectName`.
    NewDialectName,
    /// `try_new` of an `OpName`.
    NewOpName,
    /// `try_new` of a `TypeName`.
    NewTypeName,
    /// `try_new` of an `AttrName`.
    NewAttrName,
    /// `clone` of a `DialectName`.
    CloneDialectName,
    /// `clone` of an `OpName`.
    CloneOpName,
    /// `clone` of a `TypeName`.
    CloneTypeName,
    /// `clone` of an `AttrName`.
    CloneAttrName,
    /// `clone` of an `OpId`.
    CloneOpId,
    /// `clone` of a `TypeId`.
    CloneTypeId,
    /// `clone` of an `AttrId`.
    CloneAttrId,
}

impl NameCall {
    /// All of them.
    pub const ALL: [NameCall; 11] = [
        NameCall::NewDialectName,
        NameCall::NewOpName,
        NameCall::NewTypeName,
        NameCall::NewAttrName,
        NameCall::CloneDialectName,
        NameCall::CloneOpName,
        NameCall::CloneTypeName,
        NameCall::CloneAttrName,
        NameCall::CloneOpId,
        NameCall::CloneTypeId,
        NameCall::CloneAttrId,
    ];

    /// The call as `ALL` has it.
    pub fn listed(self) -> NameCall
        ensures { result ≡ self }
    {
        NameCall::ALL[self as usize]
    }
}

impl StoreCall for NameCall {
    fn name(self) -> &'static str {
        match self {
            NameCall::NewDialectName => "DialectName::try_new",
            NameCall::NewOpName => "OpName::try_new",
            NameCall::NewTypeName => "TypeName::try_new",
            NameCall::NewAttrName => "AttrName::try_new",
            NameCall::CloneDialectName => "DialectName::clone",
            NameCall::CloneOpName => "OpName::clone",
            NameCall::CloneTypeName => "TypeName::clone",
            NameCall::CloneAttrName => "AttrName::clone",
            NameCall::CloneOpId => "OpId::clone",
            NameCall::CloneTypeId => "TypeId::clone",
            NameCall::CloneAttrId => "AttrId::clone",
        }
    }

    fn make(self, alloc: Global) -> Result<bool, CoreError> {
        match self {
            NameCall::NewDialectName => makes::<OfDialect>(alloc),
            NameCall::NewOpName => makes::<OfOp>(alloc),
            NameCall::NewTypeName => makes::<OfType>(alloc),
            NameCall::NewAttrName => makes::<OfAttr>(alloc),
            NameCall::CloneDialectName => copies::<OfDialect>(alloc),
            NameCall::CloneOpName => copies::<OfOp>(alloc),
            NameCall::CloneTypeName => copies::<OfType>(alloc),
            NameCall::CloneAttrName => copies::<OfAttr>(alloc),
            NameCall::CloneOpId => copies_id::<OfOp>(alloc),
            NameCall::CloneTypeId => copies_id::<OfType>(alloc),
            NameCall::CloneAttrId => copies_id::<OfAttr>(alloc),
        }
    }
}

// A name in memory of its own.
fn name<Of>(alloc: Global, text: &str) -> Result<Name<Of>, CoreError> {
    Name::try_new(alloc, text).map_err(refusal)
}

// Whether a name is made.
fn makes<Of>(alloc: Global) -> Result<bool, CoreError> {
    let name = name::<Of>(alloc, "toy")?;
    Ok(name.as_str() == "toy")
}

// Whether a name is copied.
fn copies<Of>(alloc: Global) -> Result<bool, CoreError> {
    let name = name::<Of>(alloc, "toy")?;
    let copy = name.clone()?;
    Ok(copy == name && copy.as_str() == "toy")
}

// Whether an id is copied.
fn copies_id<Of>(alloc: Global) -> Result<bool, CoreError> {
    let id = Id {
        dialect: name(alloc, "toy")?,
        name: Name::<Of>::from(owned(alloc, "add")?),
    };
    let copy = id.clone()?;
    Ok(copy == id && copy.name.as_str() == "add")
}
