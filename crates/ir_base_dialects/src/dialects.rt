//! What one compiler brings: its closed types, and the tables that say what each kind implements.
ghost use Rattle.std.specs.Prelude.{◌≡◌, ℕ, Bool, true, Option, is_some, IfOk, IfErr};
ghost use Rattle.ir_base_dialects.specs.declared.interfaces.TheConstants.{TYPED_ATTRIBUTE};
ghost use Rattle.ir_model.specs.declared.error.CoreError.TheVariants.{OutOfMemory};
ghost use Rattle.ir_base_identifiers.specs.declared.names.Id.{Id};
ghost use Rattle.ir_base_identifiers.specs.declared.names.OfAttr.{OfAttr};
ghost use Rattle.ir_base_identifiers.specs.declared.names.OfOp.{OfOp};
ghost use Rattle.ir_base_identifiers.specs.declared.names.OfType.{OfType};
ghost use Rattle.ir_base_dialects.specs.declared.type_handle.TypeHandle.{TypeHandle};

use crate::type_handle::TypeHandle;
use ir_base_identifiers::{AttrId, OpId, TypeId};
use ir_model::CoreError;
use std::alloc::Global;
use std::hash::Hash;

/// The closed types of one compiler and its tables.
///
/// Kinds are numbers, and tables are total: a kind that the dialect doesn't know implements nothing. Each table is a function of its arguments alone.
pub trait Dialects: Drop {
    /// Attributes.
    type Attr: Eq + Hash + Drop;
    /// The uniqued part of a type.
    type TypeKey: Eq + Hash + Drop;
    /// The part of a type outside equality.
    type TypeBody: Default + Drop;
    /// Saved data.
    type Saved: Eq + Hash + Drop;
    /// Auxiliary data.
    type Aux: Drop;
    /// Locations; the default is the unknown one.
    type Loc: Default + Drop;

    // The unknown location.
    ghost unknown: { Self.Loc };

    // The body with which a type starts.
    ghost first_body: { Self.TypeBody };

    ghost op_impls_of: { ℕ → ℕ → Bool };

    ghost attr_kind_of: { Self.Attr → ℕ };

    ghost attr_impls_of: { ℕ → ℕ → Bool };

    ghost type_kind_of: { Self.TypeKey → ℕ };

    ghost type_impls_of: { ℕ → ℕ → Bool };

    ghost saved_kind_of: { Self.Saved → ℕ };

    ghost region_ssa_dominance_of: { ℕ → ℕ → Bool };

    ghost attr_outline_of: { Self.Attr → Bool };

    ghost attr_type_of: { Self.Attr → Option TypeHandle };

    ghost op_id_of: { ℕ → Id OfOp };

    ghost attr_id_of: { ℕ → Id OfAttr };

    ghost type_id_of: { ℕ → Id OfType };

    /// Whether operations of this kind implement this interface.
    fn op_impls(kind: u32, interface: u32) -> bool
        ensures { result ≡ op_impls_of kind interface };

    /// The kind of an attribute.
    fn attr_kind(attr: &Self::Attr) -> u32
        ensures { result ≡ attr_kind_of attr.now };

    /// Whether attributes of this kind implement this interface.
    fn attr_impls(kind: u32, interface: u32) -> bool
        ensures { result ≡ attr_impls_of kind interface };

    /// The kind of a type.
    fn type_kind(key: &Self::TypeKey) -> u32
        ensures { result ≡ type_kind_of key.now };

    /// Whether types of this kind implement this interface.
    fn type_impls(kind: u32, interface: u32) -> bool
        ensures { result ≡ type_impls_of kind interface };

    /// The kind of saved data.
    fn saved_kind(saved: &Self::Saved) -> u32
        ensures { result ≡ saved_kind_of saved.now };

    /// Whether the region at this index of an operation of this kind has SSA dominance; asked where the kind implements `REGION_KIND`.
    fn region_ssa_dominance(kind: u32, index: usize) -> bool
        ensures { result ≡ region_ssa_dominance_of kind index };

    /// Whether the attribute is to be outlined; asked where its kind implements `OUTLINED_ATTRIBUTE`.
    fn attr_outline(attr: &Self::Attr) -> bool
        ensures { result ≡ attr_outline_of attr.now };

    /// The type of the attribute: there is one exactly where its kind implements `TYPED_ATTRIBUTE`.
    fn attr_type(attr: &Self::Attr) -> Option<TypeHandle>
        ensures { result ≡ attr_type_of attr.now };

    /// An attribute that is equal to this one. `OutOfMemory` where a growth was refused.
    fn copy_attr(alloc: Global, attr: &Self::Attr) -> Result<Self::Attr, CoreError>
        ensures equal { IfOk result (λ copy. Self.Attr.eq copy attr.now ≡ true) }
        ensures error { IfErr result (λ error. error ≡ OutOfMemory) };

    /// The id of operations of this kind. `OutOfMemory` where a growth was refused.
    fn op_id(alloc: Global, kind: u32) -> Result<OpId, CoreError>
        ensures id { IfOk result (λ id. id ≡ op_id_of kind) }
        ensures error { IfErr result (λ error. error ≡ OutOfMemory) };

    /// The id of attributes of this kind. `OutOfMemory` where a growth was refused.
    fn attr_id(alloc: Global, kind: u32) -> Result<AttrId, CoreError>
        ensures id { IfOk result (λ id. id ≡ attr_id_of kind) }
        ensures error { IfErr result (λ error. error ≡ OutOfMemory) };

    /// The id of types of this kind. `OutOfMemory` where a growth was refused.
    fn type_id(alloc: Global, kind: u32) -> Result<TypeId, CoreError>
        ensures id { IfOk result (λ id. id ≡ type_id_of kind) }
        ensures error { IfErr result (λ error. error ≡ OutOfMemory) };

    // The default location is the unknown one.
    ghost default_loc: { (l : Self.Loc) → Self.Loc.is_default l → l ≡ unknown };

    // The default body is the first one.
    ghost default_body: { (b : Self.TypeBody) → Self.TypeBody.is_default b → b ≡ first_body };

    // Equal attributes have equal kinds.
    ghost attr_kinds: { (a b : Self.Attr) → Self.Attr.eq a b ≡ true → attr_kind_of a ≡ attr_kind_of b };

    // Equal type keys have equal kinds.
    ghost type_kinds: { (a b : Self.TypeKey) → Self.TypeKey.eq a b ≡ true → type_kind_of a ≡ type_kind_of b };

    // Equal saved data have equal kinds.
    ghost saved_kinds: { (a b : Self.Saved) → Self.Saved.eq a b ≡ true → saved_kind_of a ≡ saved_kind_of b };

    // An attribute has a type exactly where its kind implements typed attributes.
    ghost typed: { (a : Self.Attr) → is_some (attr_type_of a) ≡ attr_impls_of (attr_kind_of a) TYPED_ATTRIBUTE };
}

/// The unknown location.
pub fn unknown_loc<D: Dialects>() -> D::Loc
    ensures { result ≡ D.unknown }
{
    D::Loc::default()
}
