//! The attributes of the dialect Toy, each a type of its own, so that dictionaries take and lend it.
ghost use Rattle.std.specs.Prelude.{None, Some, refl};
ghost use Rattle.std.proofs.Common.{rules};

use crate::toy::{Toy, ToyAttr};
use ir_base_dialects::TypeHandle;
use ir_base_dialects::attribute::Attribute;

/// An integer with its type: kind 0.
#[derive(Debug, Drop, PartialEq, Eq, Hash)]
pub struct ToyInt {
    /// The integer.
    pub value: i64,
    /// Its type.
    pub ty: TypeHandle,
}

/// A text: kind 1.
#[derive(Debug, Drop, PartialEq, Eq, Hash)]
pub struct ToyText(pub String);

/// A text that is to be outlined: kind 2.
#[derive(Debug, Drop, PartialEq, Eq, Hash)]
pub struct ToyOutlined(pub String);

impl Attribute<Toy> for ToyInt {
    ghost use Rattle.toy_dialect.specs.declared.toy.ToyAttr.TheVariants as attr;

    ghost KIND = { 0 };

    const KIND: u32 = 0;

    ghost attr_of = { attr.Int };

    ghost value_of = { elim [ attr.Int x ↦ Some x | _ ↦ None ] };

    ghost with_value = { λ attribute a. elim attribute [ attr.Int _ ↦ attr.Int a | x ↦ x ] };

    fn into_attr(self) -> ToyAttr {
        ToyAttr::Int(self)
    }

    fn of_attr(attr: &ToyAttr) -> Option<&ToyInt> {
        match attr {
            ToyAttr::Int(value) => Some(value),
            _ => None,
        }
    }

    fn of_attr_mut(attr: &mut ToyAttr) -> Option<&mut ToyInt> {
        match attr {
            ToyAttr::Int(value) => Some(value),
            _ => None,
        }
    }

    ghost given_back = { λ a. refl };

    ghost of_kind = { Prim.search rules };

    ghost equal_attrs = { λ a b. refl };

    ghost written = { Prim.search rules };

    ghost keeps_kind = { Prim.search rules };
}

impl Attribute<Toy> for ToyText {
    ghost use Rattle.toy_dialect.specs.declared.toy.ToyAttr.TheVariants as attr;

    ghost KIND = { 1 };

    const KIND: u32 = 1;

    ghost attr_of = { attr.Text };

    ghost value_of = { elim [ attr.Text x ↦ Some x | _ ↦ None ] };

    ghost with_value = { λ attribute a. elim attribute [ attr.Text _ ↦ attr.Text a | x ↦ x ] };

    fn into_attr(self) -> ToyAttr {
        ToyAttr::Text(self)
    }

    fn of_attr(attr: &ToyAttr) -> Option<&ToyText> {
        match attr {
            ToyAttr::Text(value) => Some(value),
            _ => None,
        }
    }

    fn of_attr_mut(attr: &mut ToyAttr) -> Option<&mut ToyText> {
        match attr {
            ToyAttr::Text(value) => Some(value),
            _ => None,
        }
    }

    ghost given_back = { λ a. refl };

    ghost of_kind = { Prim.search rules };

    ghost equal_attrs = { λ a b. refl };

    ghost written = { Prim.search rules };

    ghost keeps_kind = { Prim.search rules };
}

impl Attribute<Toy> for ToyOutlined {
    ghost use Rattle.toy_dialect.specs.declared.toy.ToyAttr.TheVariants as attr;

    ghost KIND = { 2 };

    const KIND: u32 = 2;

    ghost attr_of = { attr.Outlined };

    ghost value_of = { elim [ attr.Outlined x ↦ Some x | _ ↦ None ] };

    ghost with_value = { λ attribute a. elim attribute [ attr.Outlined _ ↦ attr.Outlined a | x ↦ x ] };

    fn into_attr(self) -> ToyAttr {
        ToyAttr::Outlined(self)
    }

    fn of_attr(attr: &ToyAttr) -> Option<&ToyOutlined> {
        match attr {
            ToyAttr::Outlined(value) => Some(value),
            _ => None,
        }
    }

    fn of_attr_mut(attr: &mut ToyAttr) -> Option<&mut ToyOutlined> {
        match attr {
            ToyAttr::Outlined(value) => Some(value),
            _ => None,
        }
    }

    ghost given_back = { λ a. refl };

    ghost of_kind = { Prim.search rules };

    ghost equal_attrs = { λ a b. refl };

    ghost written = { Prim.search rules };

    ghost keeps_kind = { Prim.search rules };
}
