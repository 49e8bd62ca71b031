//! The attributes of the dialect `Calc`, each a type of its own.
//!
//! An impl of `Attribute` is as long for two kinds as for twenty: what isn't its own kind is `_`, and the check finds its laws.

ghost use Rattle.std.specs.Prelude.{None, Some, refl};
ghost use Rattle.std.proofs.Common.{rules};

use crate::calc::{Calc, CalcAttr};
use ir_base::attribute::Attribute;

/// A number as it was written: kind 0.
#[derive(Debug, Drop, PartialEq, Eq, Hash)]
pub struct Literal {
    /// The number.
    pub value: u64,
}

/// What an author remarked: kind 1.
#[derive(Debug, Drop, PartialEq, Eq, Hash)]
pub struct Remark {
    /// The remark.
    pub text: String,
}

impl Attribute<Calc> for Literal {
    ghost use Rattle.example.specs.declared.calc.CalcAttr.TheVariants as attr;

    ghost KIND = { 0 };

    const KIND: u32 = 0;

    ghost attr_of = { attr.Literal };

    ghost value_of = { elim [ attr.Literal x ↦ Some x | _ ↦ None ] };

    ghost with_value = { λ attribute a. elim attribute [ attr.Literal _ ↦ attr.Literal a | x ↦ x ] };

    fn into_attr(self) -> CalcAttr {
        CalcAttr::Literal(self)
    }

    fn of_attr(attr: &CalcAttr) -> Option<&Literal> {
        match attr {
            CalcAttr::Literal(value) => Some(value),
            _ => None,
        }
    }

    fn of_attr_mut(attr: &mut CalcAttr) -> Option<&mut Literal> {
        match attr {
            CalcAttr::Literal(value) => Some(value),
            _ => None,
        }
    }

    ghost given_back = { λ a. refl };

    ghost of_kind = { Prim.search rules };

    ghost equal_attrs = { λ a b. refl };

    ghost written = { Prim.search rules };

    ghost keeps_kind = { Prim.search rules };
}

impl Attribute<Calc> for Remark {
    ghost use Rattle.example.specs.declared.calc.CalcAttr.TheVariants as attr;

    ghost KIND = { 1 };

    const KIND: u32 = 1;

    ghost attr_of = { attr.Remark };

    ghost value_of = { elim [ attr.Remark x ↦ Some x | _ ↦ None ] };

    ghost with_value = { λ attribute a. elim attribute [ attr.Remark _ ↦ attr.Remark a | x ↦ x ] };

    fn into_attr(self) -> CalcAttr {
        CalcAttr::Remark(self)
    }

    fn of_attr(attr: &CalcAttr) -> Option<&Remark> {
        match attr {
            CalcAttr::Remark(value) => Some(value),
            _ => None,
        }
    }

    fn of_attr_mut(attr: &mut CalcAttr) -> Option<&mut Remark> {
        match attr {
            CalcAttr::Remark(value) => Some(value),
            _ => None,
        }
    }

    ghost given_back = { λ a. refl };

    ghost of_kind = { Prim.search rules };

    ghost equal_attrs = { λ a b. refl };

    ghost written = { Prim.search rules };

    ghost keeps_kind = { Prim.search rules };
}
