//! Handles of types of the small dialect that say of what kind their type is, or which interface it implements.
//!
//! - `read PLACE` tells in lines below of the handles as a sized, a listed and a pair type, and as one with the interface of sized and of compound types: the place and what the handle leads to, or the fault.
//! - `shown PLACE`: the faults among them as they are shown to a programmer.
//! - `turn sized|pair PLACE`: the places that the handle names once it is turned into one with its interface, and once both are turned into plain ones.
//! - `compare sized|pair PLACE PLACE`: of both handles whether they are equal, and whether a copy of the first is equal and hashes equally; and the same of them as turned.
//! - `keep sized|listed PLACE`, `kept sized|listed`: the handle is kept, also when another context begins, and asked.

use crate::types::small_words::type_at;
use crate::types::telling::tell_refusal;
use crate::types::type_words::hash_of;
use ir_base_dialects::interfaces::TypeInterfaceMarker;
use ir_base_dialects::{CoreError, TypeHandle};
use ir_checked::typed_handle;
use ir_view::types::{IrType, TypeImplsInterface, TypeInterfaceHandle, TypedHandle};
use ir_view_parts::{Context, TypeQueries};
use std::fmt::Debug;
use std::hash::Hash;
use testkit_lab::{
    CompoundInterface, Lab, ListedType, PairType, Reply, SizedInterface, SizedType, Small,
    SmallLab, TextError, one, tell_condition, three, two,
};

/// Writes what is told of the handles of a known type.
pub(crate) fn tell_handles(text: &mut Reply, ctx: &Context<Small>, ty: TypeHandle) {
    tell_typed::<SizedType>(text, ctx, ty);
    tell_typed::<ListedType>(text, ctx, ty);
    tell_typed::<PairType>(text, ctx, ty);
    tell_interface::<SizedInterface>(text, ctx, ty);
    tell_interface::<CompoundInterface>(text, ctx, ty);
}

// Writes what is told of a type as a `T`.
fn tell_typed<T: IrType<Small> + Debug>(text: &mut Reply, ctx: &Context<Small>, ty: TypeHandle) {
    if ty.is_known(ctx) {
        match TypedHandle::<T, Small>::from_handle(ty, ctx) {
            Ok(typed) => tell_value(text, ctx, typed),
            Err(fault) => text.show("\n  ", fault),
        }
    } else {
        tell_condition(text);
    }
}

// Writes the place of a handle, and what it leads to.
fn tell_at<T: Debug>(text: &mut Reply, place: usize, value: &T) {
    text.show("\n  ", place);
    text.say(" ");
    text.debug(value);
}

// Writes the place of a handle that leads to nothing.
fn tell_unknown(text: &mut Reply, place: usize) {
    text.show("\n  ", place);
    text.say(" unknown");
}

// Writes what a handle names and leads to.
fn tell_value<T: IrType<Small> + Debug>(
    text: &mut Reply,
    ctx: &Context<Small>,
    typed: TypedHandle<T, Small>,
) {
    let place = typed.to_handle().index();
    if typed.is_known(ctx) {
        tell_at(text, place, typed.deref(ctx));
    } else {
        tell_unknown(text, place);
    }
}

// Writes what is told of a type as one with the interface.
fn tell_interface<I: TypeInterfaceMarker>(text: &mut Reply, ctx: &Context<Small>, ty: TypeHandle) {
    if ty.is_known(ctx) {
        match TypeInterfaceHandle::<I, Small>::from_handle(ty, ctx) {
            Ok(handle) => tell_key(text, ctx, handle),
            Err(fault) => text.show("\n  ", fault),
        }
    } else {
        tell_condition(text);
    }
}

// Writes what a handle names and leads to.
fn tell_key<I: TypeInterfaceMarker>(
    text: &mut Reply,
    ctx: &Context<Small>,
    handle: TypeInterfaceHandle<I, Small>,
) {
    let place = handle.to_handle().index();
    if handle.is_known(ctx) {
        tell_at(text, place, handle.deref(ctx));
    } else {
        tell_unknown(text, place);
    }
}

/// Shows the faults.
pub(crate) fn show_faults(text: &mut Reply, ctx: &Context<Small>, ty: TypeHandle) {
    if ty.is_known(ctx) {
        let sized = TypedHandle::<SizedType, Small>::from_handle(ty, ctx).err();
        let listed = TypedHandle::<ListedType, Small>::from_handle(ty, ctx).err();
        let interface = TypeInterfaceHandle::<SizedInterface, Small>::from_handle(ty, ctx).err();
        text.say("faults\n  ");
        text.debug(sized);
        text.say("\n  ");
        text.debug(listed);
        text.say("\n  ");
        text.debug(interface);
    } else {
        tell_condition(text);
    }
}

/// The handle of a type that is known and a `T`.
pub(crate) fn typed_at<T: IrType<Small>>(
    ctx: &Context<Small>,
    ty: TypeHandle,
) -> Option<TypedHandle<T, Small>> {
    typed_handle::from_handle(ty, ctx).ok()?.ok()
}

// A kind and the type at a place.
fn kind_and_type(rest: &str) -> Result<(&str, TypeHandle), TextError> {
    let (kind, ty) = two(rest)?;
    Ok((kind, type_at(ty)?))
}

/// The words that are given a kind and a place.
pub(crate) fn answer(lab: &mut Lab, call: &str, rest: &str) -> Result<(), TextError> {
    let (kind, ty) = kind_and_type(rest)?;
    match call {
        "turn" => turn(&mut lab.text, &lab.small.context, kind, ty),
        _ => keep(&mut lab.text, &mut lab.small, kind, ty),
    }
    Ok(())
}

// Turns a handle.
fn turn(text: &mut Reply, ctx: &Context<Small>, kind: &str, ty: TypeHandle) {
    match kind {
        "sized" => turn_typed::<SizedInterface, SizedType>(text, ctx, ty),
        "pair" => turn_typed::<CompoundInterface, PairType>(text, ctx, ty),
        _ => text.fail(TextError::Malformed),
    }
}

fn turn_typed<I: TypeInterfaceMarker, T: TypeImplsInterface<I, Small>>(
    text: &mut Reply,
    ctx: &Context<Small>,
    ty: TypeHandle,
) {
    match typed_at::<T>(ctx, ty) {
        Some(typed) => {
            let handle: TypeInterfaceHandle<I, Small> = typed.into();
            text.show("", handle.to_handle().index());
            text.show(" plain ", TypeHandle::from(typed).index());
            text.show(" ", TypeHandle::from(handle).index());
        }
        None => tell_condition(text),
    }
}

// Whether two handles are equal, and whether a copy of the first is equal and hashes equally.
#[derive(Clone, Copy, Drop)]
struct Compared {
    equal: bool,
    copied: bool,
    hashed: bool,
}

// Compares them.
fn comparisons<T: Clone + Eq + Hash + Drop>(first: &T, second: &T) -> Result<Compared, CoreError> {
    let copy = first.clone()?;
    Ok(Compared {
        equal: *first == *second,
        copied: copy == *first,
        hashed: hash_of(&copy) == hash_of(first),
    })
}

// Writes the three answers.
fn tell_compared(text: &mut Reply, compared: Compared) {
    text.show("[", compared.equal);
    text.show(", ", compared.copied);
    text.show(", ", compared.hashed);
    text.say("]");
}

// Writes the answers of both comparisons.
fn tell_both(text: &mut Reply, compared: Result<(Compared, Compared), CoreError>) {
    match compared {
        Ok((typed, turned)) => {
            tell_compared(text, typed);
            text.say(" turned ");
            tell_compared(text, turned);
        }
        Err(error) => tell_refusal(text, error),
    }
}

// Compares two handles, and both as turned.
fn compare_both<I: TypeInterfaceMarker, T: TypeImplsInterface<I, Small>>(
    first: TypedHandle<T, Small>,
    second: TypedHandle<T, Small>,
) -> Result<(Compared, Compared), CoreError> {
    let handle: TypeInterfaceHandle<I, Small> = first.into();
    let other: TypeInterfaceHandle<I, Small> = second.into();
    let typed = comparisons(&first, &second)?;
    let turned = comparisons(&handle, &other)?;
    Ok((typed, turned))
}

// A kind and the types at two places.
fn kind_and_types(rest: &str) -> Result<(&str, TypeHandle, TypeHandle), TextError> {
    let (kind, first, second) = three(rest)?;
    let first = type_at(first)?;
    Ok((kind, first, type_at(second)?))
}

/// Compares two handles.
pub(crate) fn compare(lab: &mut Lab, rest: &str) -> Result<(), TextError> {
    let (kind, first, second) = kind_and_types(rest)?;
    compare_as(&mut lab.text, &lab.small.context, kind, first, second);
    Ok(())
}

fn compare_as(
    text: &mut Reply,
    ctx: &Context<Small>,
    kind: &str,
    first: TypeHandle,
    second: TypeHandle,
) {
    match kind {
        "sized" => compare_typed::<SizedInterface, SizedType>(text, ctx, first, second),
        "pair" => compare_typed::<CompoundInterface, PairType>(text, ctx, first, second),
        _ => text.fail(TextError::Malformed),
    }
}

fn compare_typed<I: TypeInterfaceMarker, T: TypeImplsInterface<I, Small>>(
    text: &mut Reply,
    ctx: &Context<Small>,
    first: TypeHandle,
    second: TypeHandle,
) {
    match (typed_at::<T>(ctx, first), typed_at::<T>(ctx, second)) {
        (Some(first), Some(second)) => tell_both(text, compare_both::<I, T>(first, second)),
        _ => tell_condition(text),
    }
}

// Keeps a handle.
fn keep(text: &mut Reply, small: &mut SmallLab, kind: &str, ty: TypeHandle) {
    match kind {
        "sized" => {
            small.sized = typed_at(&small.context, ty);
            text.say("done");
        }
        "listed" => {
            small.listed = typed_at(&small.context, ty);
            text.say("done");
        }
        _ => text.fail(TextError::Malformed),
    }
}

/// Asks a kept handle.
pub(crate) fn kept(lab: &mut Lab, rest: &str) -> Result<(), TextError> {
    let kind = one(rest)?;
    tell_kept(&mut lab.text, &lab.small, kind);
    Ok(())
}

fn tell_kept(text: &mut Reply, small: &SmallLab, kind: &str) {
    match kind {
        "sized" => kept_sized(text, small),
        "listed" => kept_listed(text, small),
        _ => text.fail(TextError::Malformed),
    }
}

fn kept_sized(text: &mut Reply, small: &SmallLab) {
    match small.sized {
        Some(typed) => {
            let handle: TypeInterfaceHandle<SizedInterface, Small> = typed.into();
            tell_known(text, &small.context, typed);
            text.show(" turned ", handle.is_known(&small.context));
        }
        None => tell_condition(text),
    }
}

fn kept_listed(text: &mut Reply, small: &SmallLab) {
    match small.listed {
        Some(typed) => tell_known(text, &small.context, typed),
        None => tell_condition(text),
    }
}

// Writes what a handle names, and whether it is known, and as what it says.
fn tell_known<T: IrType<Small>>(
    text: &mut Reply,
    ctx: &Context<Small>,
    typed: TypedHandle<T, Small>,
) {
    text.show("place ", typed.to_handle().index());
    text.show(" known ", typed.to_handle().is_known(ctx));
    text.show(" typed ", typed.is_known(ctx));
}
