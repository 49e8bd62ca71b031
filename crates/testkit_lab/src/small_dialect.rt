//! The small dialect: attributes are numbers, and types are numbers or pairs of types, of a few kinds each. The name of the dialect in an id lies in memory of its own, which is asked for at each question.

ghost use Rattle.std.specs.Prelude.{◌≡◌, ◌==◌, ◌&&◌, ◌||◌, None, codes, false, refl};
ghost use Rattle.std.proofs.Common.{rules, sym, true≢false};
ghost use Rattle.testkit_lab.specs.Names.{type_name};

use crate::small_attributes::{MarkedAttr, PlainAttr};
use crate::small_types::{COMPOUND, ListedType, PairType, SIZED, SizedType};
use ir_base_dialects::interfaces::{NO_TERMINATOR, TERMINATOR};
use ir_base_dialects::{
    AttrId, AttrName, CoreError, DialectName, Dialects, Identifier, OpId, OpName, TypeHandle,
    TypeId, TypeName,
};
use std::alloc::Global;

/// The small dialect. Operations of kind 2 are terminators, the blocks of those of kind 5 need none, and no other kind of operations implements anything.
#[derive(Drop)]
pub struct Small;

/// An attribute of the small dialect.
#[derive(Debug, Drop, PartialEq, Eq, Hash)]
pub enum SmallAttr {
    /// Kind 0.
    Marked(MarkedAttr),
    /// Kind 1.
    Plain(PlainAttr),
}

/// A type of the small dialect.
#[derive(Debug, Drop, PartialEq, Eq, Hash)]
pub enum SmallType {
    /// Kind 0, which implements the dialect's interface of sized types.
    Sized(SizedType),
    /// Kind 1.
    Listed(ListedType),
    /// Kind 2, which implements the dialect's interface of compound types.
    Pair(PairType),
    /// Kind 3, for which no checks are listed.
    Bare(u32),
}

// The name of a kind of types.
fn type_name(kind: u32) -> Identifier
    ensures { result ≡ type_name kind }
{
    match kind {
        0 => Identifier::new("sized"),
        1 => Identifier::new("listed"),
        2 => Identifier::new("pair"),
        _ => Identifier::new("bare"),
    }
}

impl Dialects for Small {
    ghost use Rattle.testkit_lab.specs.declared.small_dialect.SmallAttr.TheVariants as attr;
    ghost use Rattle.testkit_lab.specs.declared.small_dialect.SmallType.TheVariants as ty;

    type Attr = SmallAttr;

    type TypeKey = SmallType;

    type TypeBody = Option<TypeHandle>;

    type Saved = u64;

    type Aux = u8;

    type Loc = u8;

    ghost unknown = { 0 };

    ghost first_body = { None };

    ghost op_impls_of = { λ kind interface. ((kind == 2) && (interface == 1)) || ((kind == 5) && (interface == 2)) };

    ghost attr_kind_of = { elim [ attr.Marked _ ↦ 0 | attr.Plain _ ↦ 1 ] };

    ghost attr_impls_of = { λ _ _. false };

    ghost type_kind_of = { elim [ ty.Sized _ ↦ 0 | ty.Listed _ ↦ 1 | ty.Pair _ ↦ 2 | ty.Bare _ ↦ 3 ] };

    ghost type_impls_of = { λ kind interface. ((kind == 0) && (interface == 16)) || ((kind == 2) && (interface == 17)) };

    ghost saved_kind_of = { λ _. 0 };

    ghost region_ssa_dominance_of = { λ _ _. false };

    ghost attr_outline_of = { λ _. false };

    ghost attr_type_of = { λ _. None };

    ghost op_id_of = { λ _. record { dialect = codes "small"; name = codes "unknown" } };

    ghost attr_id_of = { λ _. record { dialect = codes "small"; name = codes "unknown" } };

    ghost type_id_of = { λ kind. record { dialect = codes "small"; name = type_name kind } };

    fn op_impls(kind: u32, interface: u32) -> bool {
        kind == 2 && interface == TERMINATOR || kind == 5 && interface == NO_TERMINATOR
    }

    fn attr_kind(attr: &SmallAttr) -> u32 {
        match attr {
            SmallAttr::Marked(_) => 0,
            SmallAttr::Plain(_) => 1,
        }
    }

    fn attr_impls(_kind: u32, _interface: u32) -> bool {
        false
    }

    fn type_kind(key: &SmallType) -> u32 {
        match key {
            SmallType::Sized(_) => 0,
            SmallType::Listed(_) => 1,
            SmallType::Pair(_) => 2,
            SmallType::Bare(_) => 3,
        }
    }

    fn type_impls(kind: u32, interface: u32) -> bool {
        kind == 0 && interface == SIZED || kind == 2 && interface == COMPOUND
    }

    fn saved_kind(_saved: &u64) -> u32 {
        0
    }

    fn region_ssa_dominance(_kind: u32, _index: usize) -> bool {
        false
    }

    fn attr_outline(_attr: &SmallAttr) -> bool {
        false
    }

    fn attr_type(_attr: &SmallAttr) -> Option<TypeHandle> {
        None
    }

    fn copy_attr(_alloc: Global, attr: &SmallAttr) -> Result<SmallAttr, CoreError> {
        Ok(match attr {
            SmallAttr::Marked(marked) => SmallAttr::Marked(MarkedAttr {
                number: marked.number,
            }),
            SmallAttr::Plain(plain) => SmallAttr::Plain(PlainAttr {
                number: plain.number,
            }),
        })
    }

    fn op_id(alloc: Global, _kind: u32) -> Result<OpId, CoreError> {
        // The texts are names, so that only memory can lack.
        let Ok(dialect) = DialectName::try_new(alloc, "small") else {
            return Err(CoreError::OutOfMemory);
        };
        let Ok(name) = OpName::try_new(alloc, "unknown") else {
            return Err(CoreError::OutOfMemory);
        };
        Ok(OpId { dialect, name })
    }

    fn attr_id(alloc: Global, _kind: u32) -> Result<AttrId, CoreError> {
        // The texts are names, so that only memory can lack.
        let Ok(dialect) = DialectName::try_new(alloc, "small") else {
            return Err(CoreError::OutOfMemory);
        };
        let Ok(name) = AttrName::try_new(alloc, "unknown") else {
            return Err(CoreError::OutOfMemory);
        };
        Ok(AttrId { dialect, name })
    }

    fn type_id(alloc: Global, kind: u32) -> Result<TypeId, CoreError> {
        // The text is a name, so that only memory can lack.
        let Ok(dialect) = DialectName::try_new(alloc, "small") else {
            return Err(CoreError::OutOfMemory);
        };
        Ok(TypeId {
            dialect,
            name: TypeName::from(type_name(kind)),
        })
    }

    ghost default_loc = { λ l d. d };

    ghost default_body = { λ b d. d };

    ghost attr_kinds = { elim [ attr.Marked _ ↦ elim [ attr.Marked _ ↦ λ e. refl | attr.Plain _ ↦ λ e. absurd (true≢false (sym e)) ] | attr.Plain _ ↦ elim [ attr.Marked _ ↦ λ e. absurd (true≢false (sym e)) | attr.Plain _ ↦ λ e. refl ] ] };

    ghost type_kinds = { Prim.search rules };

    ghost saved_kinds = { λ a b e. refl };

    ghost typed = { elim [ attr.Marked _ ↦ refl | attr.Plain _ ↦ refl ] };
}
