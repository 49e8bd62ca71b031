//! Which types implement an interface, and handles of those that do.

ghost use Rattle.std.specs.Prelude.{◌≡◌, ◌<◌, ◌↔◌, length, true, Some, IsOk, IsTrue, IfErr, IfOk, slice_get};
ghost use Rattle.std.specs.Option.{option_map};
ghost use Rattle.ir_model.specs.Kinds.{Implements, LacksInterface};
ghost use Rattle.ir_core_queries.specs.State.{types_of};
ghost use Rattle.ir_view.specs.Handles.{interface_place, typed_place};
ghost use Rattle.ir_core_records.specs.DialectAnswers.{kinds_of};

use crate::error::TypeInterfaceHandleErr;
use crate::ir_type::IrType;
use crate::typed_handle::TypedHandle;
use ir_base_dialects::interfaces::TypeInterfaceMarker;
use ir_base_dialects::{Dialects, TypeHandle};
use ir_core_queries::{Context, TypeQueries};
use std::marker::PhantomData;

/// What stands for types of a kind that implements the interface: the dialect's table says so.
pub trait TypeImplsInterface<I: TypeInterfaceMarker, D: Dialects>: IrType<D> {
    // The kind implements the interface.
    ghost implements: { D.type_impls_of Self.KIND I.NUMBER ≡ true };
}

/// Whether the type's kind implements the interface. It stands for pliron's `type_impls`.
pub fn type_impls<I: TypeInterfaceMarker, D: Dialects>(key: &D::TypeKey) -> bool
    ensures { result ≡ D.type_impls_of (D.type_kind_of key.now) I.NUMBER }
{
    D::type_impls(D::type_kind(key), I::NUMBER)
}

/// Whether such types implement the interface. It stands for pliron's `type_impls_static`.
pub fn type_impls_static<T: IrType<D>, I: TypeInterfaceMarker, D: Dialects>() -> bool
    ensures { result ≡ D.type_impls_of T.KIND I.NUMBER }
{
    D::type_impls(T::KIND, I::NUMBER)
}

/// The handle of a type whose kind implements the interface. It stands for pliron's `TypeInterfaceHandle`.
///
/// Two are equal, and hash equally, where they name the same place.
#[derive_where(Clone, Copy, PartialEq, Eq, Hash)]
#[derive(Drop)]
pub struct TypeInterfaceHandle<I, D> {
    handle: TypeHandle,
    of: PhantomData<(I, D)>,
}

impl<I, D> TypeInterfaceHandle<I, D> {
    // This handle, as one with the interface. It doesn't ask whether the type's kind implements it.
    pub(crate) fn of_handle(handle: TypeHandle) -> Self
        ensures { interface_place result ≡ handle.place }
    {
        TypeInterfaceHandle {
            handle,
            of: PhantomData,
        }
    }

    /// The handle of the type.
    pub fn to_handle(self) -> TypeHandle
        ensures { result.place ≡ interface_place self }
    {
        self.handle
    }
}

impl<D: Dialects, I: TypeInterfaceMarker> TypeInterfaceHandle<I, D> {
    /// The handle of a known type, as one with the interface.
    ///
    /// # Errors
    /// `TypeInterfaceHandleErr` where the kind of the type doesn't implement the interface.
    pub fn from_handle(handle: TypeHandle, ctx: &Context<D>) -> Result<Self, TypeInterfaceHandleErr>
        requires { handle.place < length (types_of ctx.now) }
        ensures place { IfOk result (λ h. interface_place h ≡ handle.place) }
        ensures exact { IsOk result ↔ Implements (kinds_of D.Dialects D.Saved.eq) (types_of ctx.now) handle.place I.NUMBER }
        ensures interface { IfErr result (λ e. e.interface ≡ I.NUMBER) }
        ensures provided { IfErr result (λ e. LacksInterface (kinds_of D.Dialects D.Saved.eq) (types_of ctx.now) handle.place e.interface e.provided) }
    {
        let provided = D::type_kind(handle.deref(ctx));
        if D::type_impls(provided, I::NUMBER) {
            Ok(TypeInterfaceHandle::of_handle(handle))
        } else {
            Err(TypeInterfaceHandleErr {
                interface: I::NUMBER,
                provided,
            })
        }
    }

    /// Whether the context has the type, and its kind implements the interface.
    pub fn is_known(self, ctx: &Context<D>) -> bool
        ensures { IsTrue result ↔ Implements (kinds_of D.Dialects D.Saved.eq) (types_of ctx.now) (interface_place self) I.NUMBER }
    {
        let handle = self.to_handle();
        handle.is_known(ctx) && type_impls::<I, D>(handle.deref(ctx))
    }

    /// The key of the known type.
    pub fn deref(self, ctx: &Context<D>) -> &D::TypeKey
        requires { Implements (kinds_of D.Dialects D.Saved.eq) (types_of ctx.now) (interface_place self) I.NUMBER }
        ensures { option_map (λ t. t.key) (slice_get (types_of ctx.now) (interface_place self)) ≡ Some result.now }
    {
        self.to_handle().deref(ctx)
    }
}

impl<I, D> From<TypeInterfaceHandle<I, D>> for TypeHandle {
    ghost from_gives = { λ h handle. handle.place ≡ interface_place h };

    fn from(handle: TypeInterfaceHandle<I, D>) -> TypeHandle {
        handle.to_handle()
    }
}

impl<D: Dialects, I: TypeInterfaceMarker, T: TypeImplsInterface<I, D>> From<TypedHandle<T, D>>
    for TypeInterfaceHandle<I, D> {
    ghost use Rattle.std.specs.Prelude.{List};
    ghost use Rattle.ir_model.specs.Edits.{StoredType};
    ghost use Rattle.ir_model.specs.Kinds.{HasKind};
    ghost use Rattle.ir_core_records.specs.Meaning.{closed};

    // The place is the same, and where the type is a `T` its kind implements the interface.
    ghost from_gives = { λ typed h. (interface_place h ≡ typed_place typed) × ((store : List (StoredType (closed D.Attr D.TypeKey D.TypeBody D.Saved D.Aux D.Loc))) → HasKind (kinds_of D.Dialects D.Saved.eq) store (typed_place typed) T.KIND → Implements (kinds_of D.Dialects D.Saved.eq) store (interface_place h) I.NUMBER) };

    fn from(typed: TypedHandle<T, D>) -> TypeInterfaceHandle<I, D> {
        TypeInterfaceHandle::of_handle(typed.to_handle())
    }
}
