//! The types of the dialect `Calc`, each a type of its own, and the dialect's own interface of types.
//!
//! An impl of `IrType` is as long for two kinds as for twenty, as one of `Attribute` is.

ghost use Rattle.std.specs.Prelude.{None, Some, refl};
ghost use Rattle.std.proofs.Common.{rules};

use crate::calc::{Calc, CalcType, SIZED};
use ir_base::types::TypeInterfaceMarker;
use ir_view::types::{IrType, TypeImplsInterface};

/// Numbers of so many bits: kind 0.
#[derive(Debug, Drop, PartialEq, Eq, Hash)]
pub struct Number {
    /// How many bits.
    pub bits: u32,
}

/// Yes or no: kind 1.
#[derive(Debug, Drop, PartialEq, Eq, Hash)]
pub struct Truth;

impl IrType<Calc> for Number {
    ghost use Rattle.example.specs.declared.calc.CalcType.TheVariants as ty;

    ghost KIND = { 0 };

    const KIND: u32 = 0;

    ghost key_of = { ty.Number };

    ghost value_of = { elim [ ty.Number x ↦ Some x | _ ↦ None ] };

    fn to_key(self) -> CalcType {
        CalcType::Number(self)
    }

    fn of_key(key: &CalcType) -> Option<&Number> {
        match key {
            CalcType::Number(value) => Some(value),
            _ => None,
        }
    }

    ghost given_back = { λ t. refl };

    ghost of_kind = { Prim.search rules };

    ghost equal_keys = { λ a b. refl };
}

impl IrType<Calc> for Truth {
    ghost use Rattle.example.specs.declared.calc.CalcType.TheVariants as ty;

    ghost KIND = { 1 };

    const KIND: u32 = 1;

    ghost key_of = { ty.Truth };

    ghost value_of = { elim [ ty.Truth x ↦ Some x | _ ↦ None ] };

    fn to_key(self) -> CalcType {
        CalcType::Truth(self)
    }

    fn of_key(key: &CalcType) -> Option<&Truth> {
        match key {
            CalcType::Truth(value) => Some(value),
            _ => None,
        }
    }

    ghost given_back = { λ t. refl };

    ghost of_kind = { Prim.search rules };

    ghost equal_keys = { λ a b. refl };
}

/// Types whose values take so many bits.
pub struct SizedInterface;

impl TypeInterfaceMarker for SizedInterface {
    ghost NUMBER = { 16 };

    const NUMBER: u32 = SIZED;
}

impl TypeImplsInterface<SizedInterface, Calc> for Number {
    ghost implements = { refl };
}
