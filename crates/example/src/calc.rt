//! A dialect of one's own, to be copied: what a compiler of small sums brings to the core.
//!
//! `Calc` has numbers and truths, constants, and the question whether one number is less than another. Kinds are numbers, and each table of `Dialects` is a function of them, which its ghost member says again in the words of contracts. A kind that isn't named here implements nothing.
//!
//! One more kind of attributes or types is one more line in each table by kinds, and an impl of its own in `calc_attributes` or `calc_types`.

ghost use Rattle.std.specs.Prelude.{◌≡◌, ◌==◌, ◌&&◌, ◌||◌, None, codes, false, refl, true};
ghost use Rattle.std.proofs.Common.{rules};
ghost use Rattle.example.specs.Calc.{attr_name, op_name, type_name};

use crate::calc_attributes::{Literal, Remark};
use crate::calc_types::{Number, Truth};
use ir_base::attribute::{AttrId, AttrName};
use ir_base::context::{CoreError, Dialects};
use ir_base::identifier::Identifier;
use ir_base::op::{DialectName, OpId, OpName, PURE_OPERATION};
use ir_base::types::{TypeHandle, TypeId, TypeName};
use std::alloc::Global;

/// The dialect.
#[derive(Drop)]
pub struct Calc;

/// The dialect's own interface of types, which numbers implement. Those of a dialect begin at 16.
pub const SIZED: u32 = 16;

/// A type of the dialect.
#[derive(Debug, Drop, PartialEq, Eq, Hash)]
pub enum CalcType {
    /// Numbers of so many bits: kind 0.
    Number(Number),
    /// Yes or no: kind 1.
    Truth(Truth),
}

/// An attribute of the dialect.
#[derive(Debug, Drop, PartialEq, Eq, Hash)]
pub enum CalcAttr {
    /// A number as it was written: kind 0.
    Literal(Literal),
    /// What an author remarked: kind 1.
    Remark(Remark),
}

// The name of a kind of operations.
fn op_name(kind: u32) -> Identifier
    ensures { result ≡ op_name kind }
{
    match kind {
        0 => Identifier::new("constant"),
        1 => Identifier::new("less"),
        _ => Identifier::new("unknown"),
    }
}

// The name of a kind of attributes.
fn attr_name(kind: u32) -> Identifier
    ensures { result ≡ attr_name kind }
{
    match kind {
        0 => Identifier::new("literal"),
        1 => Identifier::new("remark"),
        _ => Identifier::new("unknown"),
    }
}

// The name of a kind of types.
fn type_name(kind: u32) -> Identifier
    ensures { result ≡ type_name kind }
{
    match kind {
        0 => Identifier::new("number"),
        1 => Identifier::new("truth"),
        _ => Identifier::new("unknown"),
    }
}

impl Dialects for Calc {
    ghost use Rattle.example.specs.declared.calc.CalcAttr.TheVariants as attr;
    ghost use Rattle.example.specs.declared.calc.CalcType.TheVariants as ty;

    type Attr = CalcAttr;

    type TypeKey = CalcType;

    type TypeBody = u8;

    type Saved = u64;

    type Aux = u8;

    type Loc = u32;

    ghost unknown = { 0 };

    ghost first_body = { 0 };

    ghost op_impls_of = { λ kind interface. ((kind == 0) || (kind == 1)) && (interface == 6) };

    ghost attr_kind_of = { elim [ attr.Literal _ ↦ 0 | attr.Remark _ ↦ 1 ] };

    ghost attr_impls_of = { λ _ _. false };

    ghost type_kind_of = { elim [ ty.Number _ ↦ 0 | ty.Truth _ ↦ 1 ] };

    ghost type_impls_of = { λ kind interface. (kind == 0) && (interface == 16) };

    ghost saved_kind_of = { λ _. 0 };

    ghost region_ssa_dominance_of = { λ _ _. true };

    ghost attr_outline_of = { λ _. false };

    ghost attr_type_of = { λ _. None };

    ghost op_id_of = { λ kind. record { dialect = codes "calc"; name = op_name kind } };

    ghost attr_id_of = { λ kind. record { dialect = codes "calc"; name = attr_name kind } };

    ghost type_id_of = { λ kind. record { dialect = codes "calc"; name = type_name kind } };

    fn op_impls(kind: u32, interface: u32) -> bool {
        match kind {
            0 | 1 => interface == PURE_OPERATION,
            _ => false,
        }
    }

    fn attr_kind(attr: &CalcAttr) -> u32 {
        match attr {
            CalcAttr::Literal(_) => 0,
            CalcAttr::Remark(_) => 1,
        }
    }

    fn attr_impls(_kind: u32, _interface: u32) -> bool {
        false
    }

    fn type_kind(key: &CalcType) -> u32 {
        match key {
            CalcType::Number(_) => 0,
            CalcType::Truth(_) => 1,
        }
    }

    fn type_impls(kind: u32, interface: u32) -> bool {
        kind == 0 && interface == SIZED
    }

    fn saved_kind(_saved: &u64) -> u32 {
        0
    }

    fn region_ssa_dominance(_kind: u32, _index: usize) -> bool {
        true
    }

    fn attr_outline(_attr: &CalcAttr) -> bool {
        false
    }

    fn attr_type(_attr: &CalcAttr) -> Option<TypeHandle> {
        None
    }

    fn copy_attr(_alloc: Global, attr: &CalcAttr) -> Result<CalcAttr, CoreError> {
        Ok(match attr {
            CalcAttr::Literal(number) => CalcAttr::Literal(Literal {
                value: number.value,
            }),
            CalcAttr::Remark(remark) => CalcAttr::Remark(Remark {
                text: remark.text.clone()?,
            }),
        })
    }

    fn op_id(_alloc: Global, kind: u32) -> Result<OpId, CoreError> {
        Ok(OpId {
            dialect: DialectName::from(Identifier::new("calc")),
            name: OpName::from(op_name(kind)),
        })
    }

    fn attr_id(_alloc: Global, kind: u32) -> Result<AttrId, CoreError> {
        Ok(AttrId {
            dialect: DialectName::from(Identifier::new("calc")),
            name: AttrName::from(attr_name(kind)),
        })
    }

    fn type_id(_alloc: Global, kind: u32) -> Result<TypeId, CoreError> {
        Ok(TypeId {
            dialect: DialectName::from(Identifier::new("calc")),
            name: TypeName::from(type_name(kind)),
        })
    }

    ghost default_loc = { λ l d. d };

    ghost default_body = { λ b d. d };

    ghost attr_kinds = { Prim.search rules };

    ghost type_kinds = { Prim.search rules };

    ghost saved_kinds = { λ a b e. refl };

    ghost typed = { Prim.search rules };
}
