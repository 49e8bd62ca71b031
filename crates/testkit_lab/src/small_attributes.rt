//! The attributes of the small dialect, each a type of its own, so that dictionaries take and lend it.

ghost use Rattle.std.specs.Prelude.{None, Some, refl};
ghost use Rattle.std.proofs.Common.{sym, true≢false};

use crate::small_dialect::{Small, SmallAttr};
use ir_base_dialects::attribute::Attribute;

/// A number, for which checks are listed: kind 0.
#[derive(Debug, Drop, PartialEq, Eq, Hash)]
pub struct MarkedAttr {
    /// The number.
    pub number: u32,
}

/// A number, for which no checks are listed: kind 1.
#[derive(Debug, Drop, PartialEq, Eq, Hash)]
pub struct PlainAttr {
    /// The number.
    pub number: u32,
}

impl Attribute<Small> for MarkedAttr {
    ghost use Rattle.testkit_lab.specs.declared.small_dialect.SmallAttr.TheVariants as attr;

    ghost KIND = { 0 };

    const KIND: u32 = 0;

    ghost attr_of = { attr.Marked };

    ghost value_of = { elim [ attr.Marked a ↦ Some a | attr.Plain _ ↦ None ] };

    ghost with_value = { λ x a. elim x [ attr.Marked _ ↦ attr.Marked a | attr.Plain b ↦ attr.Plain b ] };

    fn into_attr(self) -> SmallAttr {
        SmallAttr::Marked(self)
    }

    fn of_attr(attr: &SmallAttr) -> Option<&MarkedAttr> {
        match attr {
            SmallAttr::Marked(marked) => Some(marked),
            SmallAttr::Plain(_) => None,
        }
    }

    fn of_attr_mut(attr: &mut SmallAttr) -> Option<&mut MarkedAttr> {
        match attr {
            SmallAttr::Marked(marked) => Some(marked),
            SmallAttr::Plain(_) => None,
        }
    }

    ghost given_back = { λ a. refl };

    ghost of_kind = { elim [ attr.Marked _ ↦ refl | attr.Plain _ ↦ refl ] };

    ghost equal_attrs = { λ a b. refl };

    ghost written = { elim [ attr.Marked _ ↦ λ a e. refl | attr.Plain _ ↦ λ a e. absurd (true≢false (sym e)) ] };

    ghost keeps_kind = { elim [ attr.Marked _ ↦ λ a. refl | attr.Plain _ ↦ λ a. refl ] };
}

impl Attribute<Small> for PlainAttr {
    ghost use Rattle.testkit_lab.specs.declared.small_dialect.SmallAttr.TheVariants as attr;

    ghost KIND = { 1 };

    const KIND: u32 = 1;

    ghost attr_of = { attr.Plain };

    ghost value_of = { elim [ attr.Marked _ ↦ None | attr.Plain a ↦ Some a ] };

    ghost with_value = { λ x a. elim x [ attr.Marked b ↦ attr.Marked b | attr.Plain _ ↦ attr.Plain a ] };

    fn into_attr(self) -> SmallAttr {
        SmallAttr::Plain(self)
    }

    fn of_attr(attr: &SmallAttr) -> Option<&PlainAttr> {
        match attr {
            SmallAttr::Marked(_) => None,
            SmallAttr::Plain(plain) => Some(plain),
        }
    }

    fn of_attr_mut(attr: &mut SmallAttr) -> Option<&mut PlainAttr> {
        match attr {
            SmallAttr::Marked(_) => None,
            SmallAttr::Plain(plain) => Some(plain),
        }
    }

    ghost given_back = { λ a. refl };

    ghost of_kind = { elim [ attr.Marked _ ↦ refl | attr.Plain _ ↦ refl ] };

    ghost equal_attrs = { λ a b. refl };

    ghost written = { elim [ attr.Marked _ ↦ λ a e. absurd (true≢false (sym e)) | attr.Plain _ ↦ λ a e. refl ] };

    ghost keeps_kind = { elim [ attr.Marked _ ↦ λ a. refl | attr.Plain _ ↦ λ a. refl ] };
}
