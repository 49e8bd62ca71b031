//! `ir_base::types` and `ir_view::types`, with the calls of a context on types.

use ir_base::prelude::*;
use ir_base::types::{TypeHandle, TypeInterfaceMarker};
use ir_core::context::Context;
use ir_core::prelude::*;
use ir_core::value::{Use, Value};
use ir_view::types::{
    IrType, TypeImplsInterface, TypeInterfaceHandle, TypeInterfaceHandleErr, TypeSig, Typed,
    TypedHandle, TypedHandleErr, type_impls, type_impls_static,
};

/// Handles of types.
pub fn handles<D: Dialects>() {
    let _ = Context::<D>::instantiate_key;
    let _ = TypeHandle::at;
    let _ = TypeHandle::index;
    let _ = <TypeHandle as TypeQueries<D>>::is_known;
    let _ = <TypeHandle as TypeQueries<D>>::deref;
    let _ = <TypeHandle as TypeQueries<D>>::body;
    let _ = <TypeHandle as TypeQueries<D>>::set_body;
}

/// Types of one kind.
pub fn of_one_kind<D: Dialects, T: IrType<D>>() {
    let _ = T::KIND;
    let _ = T::to_key;
    let _ = T::of_key;
    let _ = T::get_type_id;
    let _ = T::get_type_id_static;
    let _ = T::instantiate;
    let _ = T::get_self_handle;
    let _ = TypedHandle::<T, D>::from_handle;
    let _ = TypedHandle::<T, D>::is_known;
    let _ = TypedHandle::<T, D>::deref;
    let _ = TypedHandle::<T, D>::to_handle;
}

/// Types that implement an interface.
pub fn of_an_interface<D: Dialects, T: TypeImplsInterface<I, D>, I: TypeInterfaceMarker>() {
    let _ = I::NUMBER;
    let _ = TypeInterfaceHandle::<I, D>::from_handle;
    let _ = TypeInterfaceHandle::<I, D>::is_known;
    let _ = TypeInterfaceHandle::<I, D>::deref;
    let _ = TypeInterfaceHandle::<I, D>::to_handle;
    let _ = <TypeInterfaceHandle<I, D> as From<TypedHandle<T, D>>>::from;
    let _ = type_impls::<I, D>;
    let _ = type_impls_static::<T, I, D>;
}

/// What has a type.
pub fn typed<'a, D: Dialects, T: Typed<D>>() {
    let _ = <Value<D> as Typed<D>>::get_type;
    let _ = <Use<Value<D>> as Typed<D>>::get_type;
    let _ = <TypeHandle as Typed<D>>::get_type;
    let _ = <&'a T as Typed<D>>::get_type;
    let _ = <&'a mut T as Typed<D>>::get_type;
    let _ = <Box<T> as Typed<D>>::get_type;
}

/// Signatures, and why the handle of a type isn't given.
pub fn fields(signature: &TypeSig, kind: TypedHandleErr, interface: TypeInterfaceHandleErr) {
    let TypeSig {
        arguments: _,
        results: _,
    } = signature;
    let TypedHandleErr {
        expected: _,
        provided: _,
    } = kind;
    let TypeInterfaceHandleErr {
        interface: _,
        provided: _,
    } = interface;
}
