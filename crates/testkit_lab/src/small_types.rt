//! The types of the small dialect that are types of their own, and its own interfaces of types.

ghost use Rattle.std.specs.Prelude.{None, Some, refl};

use crate::small_dialect::{Small, SmallType};
use ir_base_dialects::TypeHandle;
use ir_base_dialects::interfaces::TypeInterfaceMarker;
use ir_view::types::{IrType, TypeImplsInterface};

/// The number of the dialect's interface of sized types.
pub(crate) const SIZED: u32 = 16;

/// The number of the dialect's interface of compound types.
pub(crate) const COMPOUND: u32 = 17;

/// A number: kind 0.
#[derive(Debug, Drop, PartialEq, Eq, Hash)]
pub struct SizedType {
    /// The number.
    pub number: u32,
}

/// A number, for which a check is listed: kind 1.
#[derive(Debug, Drop, PartialEq, Eq, Hash)]
pub struct ListedType {
    /// The number.
    pub number: u32,
}

/// A pair of types: kind 2.
#[derive(Debug, Drop, PartialEq, Eq, Hash)]
pub struct PairType {
    /// The first type of the pair.
    pub first: TypeHandle,
    /// The second type of the pair.
    pub second: TypeHandle,
}

impl IrType<Small> for SizedType {
    ghost use Rattle.testkit_lab.specs.declared.small_dialect.SmallType.TheVariants as ty;

    ghost KIND = { 0 };

    const KIND: u32 = 0;

    ghost key_of = { ty.Sized };

    ghost value_of = { elim [ ty.Sized t ↦ Some t | ty.Listed _ ↦ None | ty.Pair _ ↦ None | ty.Bare _ ↦ None ] };

    fn to_key(self) -> SmallType {
        SmallType::Sized(self)
    }

    fn of_key(key: &SmallType) -> Option<&SizedType> {
        match key {
            SmallType::Sized(sized) => Some(sized),
            SmallType::Listed(_) => None,
            SmallType::Pair(_) => None,
            SmallType::Bare(_) => None,
        }
    }

    ghost given_back = { λ t. refl };

    ghost of_kind = { elim [ ty.Sized _ ↦ refl | ty.Listed _ ↦ refl | ty.Pair _ ↦ refl | ty.Bare _ ↦ refl ] };

    ghost equal_keys = { λ a b. refl };
}

impl IrType<Small> for ListedType {
    ghost use Rattle.testkit_lab.specs.declared.small_dialect.SmallType.TheVariants as ty;

    ghost KIND = { 1 };

    const KIND: u32 = 1;

    ghost key_of = { ty.Listed };

    ghost value_of = { elim [ ty.Sized _ ↦ None | ty.Listed t ↦ Some t | ty.Pair _ ↦ None | ty.Bare _ ↦ None ] };

    fn to_key(self) -> SmallType {
        SmallType::Listed(self)
    }

    fn of_key(key: &SmallType) -> Option<&ListedType> {
        match key {
            SmallType::Sized(_) => None,
            SmallType::Listed(listed) => Some(listed),
            SmallType::Pair(_) => None,
            SmallType::Bare(_) => None,
        }
    }

    ghost given_back = { λ t. refl };

    ghost of_kind = { elim [ ty.Sized _ ↦ refl | ty.Listed _ ↦ refl | ty.Pair _ ↦ refl | ty.Bare _ ↦ refl ] };

    ghost equal_keys = { λ a b. refl };
}

impl IrType<Small> for PairType {
    ghost use Rattle.testkit_lab.specs.declared.small_dialect.SmallType.TheVariants as ty;

    ghost KIND = { 2 };

    const KIND: u32 = 2;

    ghost key_of = { ty.Pair };

    ghost value_of = { elim [ ty.Sized _ ↦ None | ty.Listed _ ↦ None | ty.Pair t ↦ Some t | ty.Bare _ ↦ None ] };

    fn to_key(self) -> SmallType {
        SmallType::Pair(self)
    }

    fn of_key(key: &SmallType) -> Option<&PairType> {
        match key {
            SmallType::Sized(_) => None,
            SmallType::Listed(_) => None,
            SmallType::Pair(pair) => Some(pair),
            SmallType::Bare(_) => None,
        }
    }

    ghost given_back = { λ t. refl };

    ghost of_kind = { elim [ ty.Sized _ ↦ refl | ty.Listed _ ↦ refl | ty.Pair _ ↦ refl | ty.Bare _ ↦ refl ] };

    ghost equal_keys = { λ a b. refl };
}

/// The dialect's own interface of sized types.
pub struct SizedInterface;

impl TypeInterfaceMarker for SizedInterface {
    ghost NUMBER = { 16 };

    const NUMBER: u32 = SIZED;
}

impl TypeImplsInterface<SizedInterface, Small> for SizedType {
    ghost implements = { refl };
}

/// The dialect's own interface of compound types.
pub struct CompoundInterface;

impl TypeInterfaceMarker for CompoundInterface {
    ghost NUMBER = { 17 };

    const NUMBER: u32 = COMPOUND;
}

impl TypeImplsInterface<CompoundInterface, Small> for PairType {
    ghost implements = { refl };
}
