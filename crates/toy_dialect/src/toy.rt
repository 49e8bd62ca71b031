//! The dialect Toy: eight kinds of operations, two of types, and three of attributes.
//!
//! A kind that isn't named here implements nothing, and its id is `toy.unknown`.
ghost use Rattle.std.specs.Prelude.{◌≡◌, IfOk, IfErr, None, Some, codes, false, refl, true};
ghost use Rattle.std.proofs.Common.{rules};
ghost use Rattle.toy_dialect.specs.Toy.{attr_name, attr_table, has_pair, is_ssa, op_name, op_table, type_name, type_table};

use crate::toy_attributes::{ToyInt, ToyOutlined, ToyText};
use ir_base_dialects::interfaces::{
    NO_TERMINATOR, OUTLINED_ATTRIBUTE, PURE_OPERATION, REGION_KIND, TERMINATOR, TYPED_ATTRIBUTE,
};
use ir_base_dialects::{
    AttrId, AttrName, CoreError, DialectName, Dialects, Identifier, OpId, OpName, TypeHandle,
    TypeId, TypeName,
};
use std::alloc::Global;

/// The dialect's own interface of types, which `ToyType::Int` implements.
pub const SIZED_TYPE: u32 = 16;

/// The dialect Toy.
#[derive(Drop)]
pub struct Toy;

/// An attribute of the dialect Toy.
#[derive(Debug, Drop, PartialEq, Eq, Hash)]
pub enum ToyAttr {
    /// An integer with its type: kind 0.
    Int(ToyInt),
    /// A text: kind 1.
    Text(ToyText),
    /// A text that is to be outlined: kind 2.
    Outlined(ToyOutlined),
}

/// The uniqued part of a type of the dialect Toy.
#[derive(Debug, Drop, PartialEq, Eq, Hash)]
pub enum ToyType {
    /// Integers of a width: kind 0.
    Int {
        /// The width in bits.
        width: u32,
    },
    /// A type with a name, whose body is set later: kind 1.
    Named(Identifier),
}

/// Saved data of the dialect Toy.
#[derive(Debug, Drop, PartialEq, Eq, Hash)]
pub enum ToySaved {
    /// A text: kind 0.
    Text(String),
    /// A number without sign: kind 1.
    U64(u64),
    /// A number with sign: kind 2.
    I64(i64),
}

/// A location of the dialect Toy.
#[derive(Clone, Copy, Debug, Default, Drop, PartialEq, Eq)]
pub enum ToyLoc {
    /// Not known.
    #[default]
    Unknown,
    /// The line of a script, from 1.
    Line(u32),
}

// The name of a kind of operations.
fn op_name(kind: u32) -> Identifier
    ensures { result ≡ op_name kind }
{
    match kind {
        0 => Identifier::new("constant"),
        1 => Identifier::new("add"),
        2 => Identifier::new("return"),
        3 => Identifier::new("branch"),
        4 => Identifier::new("use"),
        5 => Identifier::new("module"),
        6 => Identifier::new("func"),
        7 => Identifier::new("graph"),
        _ => Identifier::new("unknown"),
    }
}

// The name of a kind of attributes.
fn attr_name(kind: u32) -> Identifier
    ensures { result ≡ attr_name kind }
{
    match kind {
        0 => Identifier::new("int"),
        1 => Identifier::new("text"),
        2 => Identifier::new("outlined"),
        _ => Identifier::new("unknown"),
    }
}

// The name of a kind of types.
fn type_name(kind: u32) -> Identifier
    ensures { result ≡ type_name kind }
{
    match kind {
        0 => Identifier::new("int"),
        1 => Identifier::new("named"),
        _ => Identifier::new("unknown"),
    }
}

impl Dialects for Toy {
    ghost use Rattle.toy_dialect.specs.declared.toy.ToyAttr.TheVariants as attr;
    ghost use Rattle.toy_dialect.specs.declared.toy.ToyType.TheVariants as ty;
    ghost use Rattle.toy_dialect.specs.declared.toy.ToySaved.TheVariants as saved;
    ghost use Rattle.toy_dialect.specs.declared.toy.ToyLoc.TheVariants as loc;

    type Attr = ToyAttr;

    type TypeKey = ToyType;

    type TypeBody = Option<TypeHandle>;

    type Saved = ToySaved;

    type Aux = String;

    type Loc = ToyLoc;

    ghost unknown = { loc.Unknown };

    ghost first_body = { None };

    ghost op_impls_of = { has_pair op_table };

    ghost attr_kind_of = { elim [ attr.Int _ ↦ 0 | attr.Text _ ↦ 1 | attr.Outlined _ ↦ 2 ] };

    ghost attr_impls_of = { has_pair attr_table };

    ghost type_kind_of = { elim [ ty.Int _ ↦ 0 | ty.Named _ ↦ 1 ] };

    ghost type_impls_of = { has_pair type_table };

    ghost saved_kind_of = { elim [ saved.Text _ ↦ 0 | saved.U64 _ ↦ 1 | saved.I64 _ ↦ 2 ] };

    ghost region_ssa_dominance_of = { is_ssa };

    ghost attr_outline_of = { elim [ attr.Outlined _ ↦ true | _ ↦ false ] };

    ghost attr_type_of = { elim [ attr.Int number ↦ Some number.ty | _ ↦ None ] };

    ghost op_id_of = { λ kind. record { dialect = codes "toy"; name = op_name kind } };

    ghost attr_id_of = { λ kind. record { dialect = codes "toy"; name = attr_name kind } };

    ghost type_id_of = { λ kind. record { dialect = codes "toy"; name = type_name kind } };

    fn op_impls(kind: u32, interface: u32) -> bool {
        match kind {
            0 | 1 => interface == PURE_OPERATION,
            2 | 3 => interface == TERMINATOR,
            5 => interface == NO_TERMINATOR,
            7 => interface == NO_TERMINATOR || interface == REGION_KIND,
            _ => false,
        }
    }

    fn attr_kind(attr: &ToyAttr) -> u32 {
        match attr {
            ToyAttr::Int(_) => 0,
            ToyAttr::Text(_) => 1,
            ToyAttr::Outlined(_) => 2,
        }
    }

    fn attr_impls(kind: u32, interface: u32) -> bool {
        match kind {
            0 => interface == TYPED_ATTRIBUTE,
            2 => interface == OUTLINED_ATTRIBUTE,
            _ => false,
        }
    }

    fn type_kind(key: &ToyType) -> u32 {
        match key {
            ToyType::Int { .. } => 0,
            ToyType::Named(_) => 1,
        }
    }

    fn type_impls(kind: u32, interface: u32) -> bool {
        kind == 0 && interface == SIZED_TYPE
    }

    fn saved_kind(saved: &ToySaved) -> u32 {
        match saved {
            ToySaved::Text(_) => 0,
            ToySaved::U64(_) => 1,
            ToySaved::I64(_) => 2,
        }
    }

    fn region_ssa_dominance(kind: u32, index: usize) -> bool {
        kind != 7 || index != 0
    }

    fn attr_outline(attr: &ToyAttr) -> bool {
        match attr {
            ToyAttr::Outlined(_) => true,
            _ => false,
        }
    }

    fn attr_type(attr: &ToyAttr) -> Option<TypeHandle> {
        match attr {
            ToyAttr::Int(number) => Some(number.ty),
            _ => None,
        }
    }

    fn copy_attr(_alloc: Global, attr: &ToyAttr) -> Result<ToyAttr, CoreError> {
        Ok(match attr {
            ToyAttr::Int(number) => ToyAttr::Int(ToyInt {
                value: number.value,
                ty: number.ty,
            }),
            ToyAttr::Text(text) => ToyAttr::Text(ToyText(text.0.clone()?)),
            ToyAttr::Outlined(text) => ToyAttr::Outlined(ToyOutlined(text.0.clone()?)),
        })
    }

    fn op_id(_alloc: Global, kind: u32) -> Result<OpId, CoreError> {
        Ok(OpId {
            dialect: DialectName::from(Identifier::new("toy")),
            name: OpName::from(op_name(kind)),
        })
    }

    fn attr_id(_alloc: Global, kind: u32) -> Result<AttrId, CoreError> {
        Ok(AttrId {
            dialect: DialectName::from(Identifier::new("toy")),
            name: AttrName::from(attr_name(kind)),
        })
    }

    fn type_id(_alloc: Global, kind: u32) -> Result<TypeId, CoreError> {
        Ok(TypeId {
            dialect: DialectName::from(Identifier::new("toy")),
            name: TypeName::from(type_name(kind)),
        })
    }

    ghost default_loc = { λ l d. d };

    ghost default_body = { λ b d. d };

    ghost attr_kinds = { Prim.search rules };

    ghost type_kinds = { Prim.search rules };

    ghost saved_kinds = { Prim.search rules };

    ghost typed = { Prim.search rules };
}
