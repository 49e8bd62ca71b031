//! The dialect Generic: types, attributes and locations are texts.
ghost use Rattle.std.specs.Prelude.{◌≡◌, IfOk, IfErr, None, Some, codes, false, refl, true};
ghost use Rattle.generic_dialect.specs.Implemented.{has_dominance, implements, listed_implements, open_implements};

use crate::kinds::Kind;
use crate::texts::TextId;
use generic_table::{Traits, traits_at};
use ir_base_dialects::attribute::Attribute;
use ir_base_dialects::interfaces::{NO_TERMINATOR, PURE_OPERATION, REGION_KIND, TERMINATOR};
use ir_base_dialects::{
    AttrId, AttrName, CoreError, DialectName, Dialects, Identifier, OpId, OpName, TypeHandle,
    TypeId, TypeName,
};
use std::alloc::Global;

/// The dialect Generic.
#[derive(Drop)]
pub struct Generic;

/// An attribute: its text, or none.
#[derive(Clone, Copy, Debug, Drop, PartialEq, Eq, Hash)]
pub enum GenericAttr {
    /// No text: the key alone says it.
    Unit,
    /// A text.
    Text(TextId),
}

/// An attribute as a dictionary keeps it.
#[derive(Clone, Copy, Debug, Drop, PartialEq, Eq, Hash)]
pub struct KeptAttr(pub GenericAttr);

/// The uniqued part of a type: its text.
#[derive(Clone, Copy, Debug, Drop, PartialEq, Eq, Hash)]
pub struct GenericType(pub TextId);

/// A location.
#[derive(Debug, Default, Drop, PartialEq, Eq)]
pub enum GenericLoc {
    /// Not known.
    #[default]
    Unknown,
    /// The text between the brackets of `loc(..)`.
    Text(TextId),
    /// Of a block: those of its arguments in their order, `None` where an argument has none. They are boxed, so that a location takes two words.
    Arguments(Box<Vec<Option<TextId>>>),
}

/// Saved data: the bytes of a text.
#[derive(Debug, Drop, PartialEq, Eq, Hash)]
pub struct GenericSaved(pub Vec<u8>);

// Whether an operation of the table of which MLIR says this implements this interface.
fn listed_implements(traits: Traits, interface: u32) -> bool
    ensures { result ≡ listed_implements traits interface }
{
    match interface {
        TERMINATOR => traits.terminator,
        NO_TERMINATOR => traits.no_terminator,
        REGION_KIND => true,
        PURE_OPERATION => traits.pure_operation,
        _ => false,
    }
}

// Whether an operation that isn't in the table implements this interface, by whether it was last in its block.
fn open_implements(ends: bool, interface: u32) -> bool
    ensures { result ≡ open_implements ends interface }
{
    match interface {
        TERMINATOR => ends,
        NO_TERMINATOR | REGION_KIND => true,
        _ => false,
    }
}

impl Dialects for Generic {
    ghost use Rattle.generic_dialect.specs.declared.generic.GenericLoc.TheVariants as loc;

    type Attr = KeptAttr;

    type TypeKey = GenericType;

    type TypeBody = ();

    type Saved = GenericSaved;

    type Aux = ();

    type Loc = GenericLoc;

    ghost unknown = { loc.Unknown };

    ghost first_body = { record {} };

    ghost op_impls_of = { implements };

    ghost attr_kind_of = { λ _. 0 };

    ghost attr_impls_of = { λ _ _. false };

    ghost type_kind_of = { λ _. 0 };

    ghost type_impls_of = { λ _ _. false };

    ghost saved_kind_of = { λ _. 0 };

    ghost region_ssa_dominance_of = { has_dominance };

    ghost attr_outline_of = { λ _. false };

    ghost attr_type_of = { λ _. None };

    ghost op_id_of = { λ _. record { dialect = codes "generic"; name = codes "operation" } };

    ghost attr_id_of = { λ _. record { dialect = codes "generic"; name = codes "text" } };

    ghost type_id_of = { λ _. record { dialect = codes "generic"; name = codes "text" } };

    fn op_impls(kind: u32, interface: u32) -> bool {
        match Kind::of(kind) {
            Kind::Listed { row } => match traits_at(row) {
                Some(traits) => listed_implements(traits, interface),
                None => false,
            },
            Kind::Open { ends, .. } => open_implements(ends, interface),
        }
    }

    fn attr_kind(_attr: &KeptAttr) -> u32 {
        0
    }

    fn attr_impls(_kind: u32, _interface: u32) -> bool {
        false
    }

    fn type_kind(_key: &GenericType) -> u32 {
        0
    }

    fn type_impls(_kind: u32, _interface: u32) -> bool {
        false
    }

    fn saved_kind(_saved: &GenericSaved) -> u32 {
        0
    }

    fn region_ssa_dominance(kind: u32, _index: usize) -> bool {
        match Kind::of(kind) {
            Kind::Listed { row } => match traits_at(row) {
                Some(traits) => traits.dominance,
                None => false,
            },
            Kind::Open { .. } => false,
        }
    }

    fn attr_outline(_attr: &KeptAttr) -> bool {
        false
    }

    fn attr_type(_attr: &KeptAttr) -> Option<TypeHandle> {
        None
    }

    fn copy_attr(_alloc: Global, attr: &KeptAttr) -> Result<KeptAttr, CoreError> {
        Ok(*attr)
    }

    fn op_id(_alloc: Global, _kind: u32) -> Result<OpId, CoreError> {
        Ok(OpId {
            dialect: DialectName::from(Identifier::new("generic")),
            name: OpName::from(Identifier::new("operation")),
        })
    }

    fn attr_id(_alloc: Global, _kind: u32) -> Result<AttrId, CoreError> {
        Ok(AttrId {
            dialect: DialectName::from(Identifier::new("generic")),
            name: AttrName::from(Identifier::new("text")),
        })
    }

    fn type_id(_alloc: Global, _kind: u32) -> Result<TypeId, CoreError> {
        Ok(TypeId {
            dialect: DialectName::from(Identifier::new("generic")),
            name: TypeName::from(Identifier::new("text")),
        })
    }

    ghost default_loc = { λ l d. d };

    ghost default_body = { λ b d. refl };

    ghost attr_kinds = { λ a b e. refl };

    ghost type_kinds = { λ a b e. refl };

    ghost saved_kinds = { λ a b e. refl };

    ghost typed = { λ a. refl };
}

impl Attribute<Generic> for GenericAttr {
    ghost KIND = { 0 };

    const KIND: u32 = 0;

    ghost attr_of = { λ a. record { 0 = a } };

    ghost value_of = { λ attribute. Some attribute.0 };

    ghost with_value = { λ attribute a. record { 0 = a } };

    fn into_attr(self) -> KeptAttr {
        KeptAttr(self)
    }

    fn of_attr(attr: &KeptAttr) -> Option<&GenericAttr> {
        Some(&attr.0)
    }

    fn of_attr_mut(attr: &mut KeptAttr) -> Option<&mut GenericAttr> {
        Some(&mut attr.0)
    }

    ghost given_back = { λ a. refl };

    ghost of_kind = { λ x. refl };

    ghost equal_attrs = { λ a b. refl };

    ghost written = { λ x a e. refl };

    ghost keeps_kind = { λ x a. refl };
}
