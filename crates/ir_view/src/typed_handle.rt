//! Handles of types of one kind.

ghost use Rattle.std.specs.Prelude.{◌≡◌, ◌<◌, ◌↔◌, length, Some, IsOk, IsTrue, IfErr, IfOk, option_and_then, slice_get};
ghost use Rattle.ir_model.specs.Kinds.{HasKind, IsOtherKind};
ghost use Rattle.ir_core_queries.specs.State.{types_of};
ghost use Rattle.ir_view.specs.Handles.{typed_place};
ghost use Rattle.ir_core_records.specs.DialectAnswers.{kinds_of};

use crate::error::TypedHandleErr;
use crate::ir_type::IrType;
use ir_base_dialects::{Dialects, TypeHandle};
use ir_core_queries::{Context, TypeQueries};
use std::marker::PhantomData;

/// The handle of a type that is a `T`. It stands for pliron's `TypedHandle`.
///
/// Two are equal, and hash equally, where they name the same place.
#[derive_where(Clone, Copy, PartialEq, Eq, Hash)]
#[derive(Drop)]
pub struct TypedHandle<T, D> {
    handle: TypeHandle,
    of: PhantomData<(T, D)>,
}

impl<T, D> TypedHandle<T, D> {
    // This handle, as that of a `T`. It doesn't ask whether the type is one.
    pub(crate) fn of_handle(handle: TypeHandle) -> Self
        ensures { typed_place result ≡ handle.place }
    {
        TypedHandle {
            handle,
            of: PhantomData,
        }
    }

    /// The handle of the type.
    pub fn to_handle(self) -> TypeHandle
        ensures { result.place ≡ typed_place self }
    {
        self.handle
    }
}

impl<D: Dialects, T: IrType<D>> TypedHandle<T, D> {
    /// The handle of a known type, as that of a `T`.
    ///
    /// # Errors
    /// `TypedHandleErr` where the kind of the type is another one.
    pub fn from_handle(handle: TypeHandle, ctx: &Context<D>) -> Result<Self, TypedHandleErr>
        requires { handle.place < length (types_of ctx.now) }
        ensures place { IfOk result (λ typed. typed_place typed ≡ handle.place) }
        ensures exact { IsOk result ↔ HasKind (kinds_of D.Dialects D.Saved.eq) (types_of ctx.now) handle.place T.KIND }
        ensures expected { IfErr result (λ e. e.expected ≡ T.KIND) }
        ensures provided { IfErr result (λ e. IsOtherKind (kinds_of D.Dialects D.Saved.eq) (types_of ctx.now) handle.place e.expected e.provided) }
    {
        let provided = D::type_kind(handle.deref(ctx));
        if provided == T::KIND {
            Ok(TypedHandle::of_handle(handle))
        } else {
            Err(TypedHandleErr {
                expected: T::KIND,
                provided,
            })
        }
    }

    /// Whether the context has the type, and it is a `T`.
    pub fn is_known(self, ctx: &Context<D>) -> bool
        ensures { IsTrue result ↔ HasKind (kinds_of D.Dialects D.Saved.eq) (types_of ctx.now) (typed_place self) T.KIND }
    {
        let handle = self.to_handle();
        handle.is_known(ctx) && D::type_kind(handle.deref(ctx)) == T::KIND
    }

    /// The known type.
    pub fn deref(self, ctx: &Context<D>) -> &T
        requires { HasKind (kinds_of D.Dialects D.Saved.eq) (types_of ctx.now) (typed_place self) T.KIND }
        ensures { option_and_then (λ t. T.value_of t.key) (slice_get (types_of ctx.now) (typed_place self)) ≡ Some result.now }
    {
        match T::of_key(self.to_handle().deref(ctx)) {
            Some(value) => value,
            None => unreachable!(),
        }
    }
}

impl<T, D> From<TypedHandle<T, D>> for TypeHandle {
    ghost from_gives = { λ typed handle. handle.place ≡ typed_place typed };

    fn from(typed: TypedHandle<T, D>) -> TypeHandle {
        typed.to_handle()
    }
}
