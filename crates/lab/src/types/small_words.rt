//! Types of the small dialect. A `TYPE` is `sized:NUMBER`, `listed:NUMBER`, `bare:NUMBER`, or `pair:PLACE:PLACE`.
//!
//! - `begin`: another context.
//! - `instantiate TYPE`, by a type of its own, and `instantiate_key TYPE`: the place where it is stored; `again TYPE`: the same of a type that is stored, which asks for no memory. A bare type is no type of its own.
//! - `get_self_handle TYPE`: where it is stored.
//! - `read PLACE`: whether the type is known, what has its place, its body and key, and below what `small_handles` tells of it.
//! - `set_body PLACE PLACE|-`
//! - `impls TYPE`: whether its kind implements the interfaces of sized and of compound types, asked of its type and of its key, and whether the key gives the type back.
//! - `type_id TYPE`, `static_type_id sized|listed|pair`
//! - the words of `small_handles`.

use crate::types::small_handles as handles;
use crate::types::telling::{tell, tell_refusal};
use crate::types::type_words::place_of;
use ir_base_dialects::{CoreError, TypeHandle};
use ir_view::types::{IrType, type_impls, type_impls_static};
use ir_view_parts::{Context, TypeQueries};
use std::alloc::Global;
use testkit_lab::{
    CompoundInterface, Lab, ListedType, PairType, Reply, SizedInterface, SizedType, Small,
    SmallType, TextError, count, one, tell_condition, two,
};

/// Answers a word.
pub(crate) fn answer(lab: &mut Lab, call: &str, rest: &str) -> Result<(), TextError> {
    match call {
        "begin" => begin(lab),
        "read" | "shown" => at_place(lab, call, rest),
        "set_body" => set_body(lab, rest),
        "static_type_id" => static_type_id(lab, rest),
        "turn" | "keep" => handles::answer(lab, call, rest),
        "compare" => handles::compare(lab, rest),
        "kept" => handles::kept(lab, rest),
        _ => of_type(lab, call, rest),
    }
}

/// The type at the place of this text.
pub(crate) fn type_at(text: &str) -> Result<TypeHandle, TextError> {
    Ok(TypeHandle::at(count(text)?))
}

// The type of a text.
fn type_of(text: &str) -> Result<SmallType, TextError> {
    match text.split_once(':') {
        Some(("pair", places)) => pair_of(places),
        Some((kind, number)) => numbered(kind, number),
        None => Err(TextError::Malformed),
    }
}

// The pair of the types at two places.
fn pair_of(text: &str) -> Result<SmallType, TextError> {
    let Some((first, second)) = text.split_once(':') else {
        return Err(TextError::Malformed);
    };
    let first = type_at(first)?;
    let second = type_at(second)?;
    Ok(SmallType::Pair(PairType { first, second }))
}

// The type of this kind with a number.
fn numbered(kind: &str, number: &str) -> Result<SmallType, TextError> {
    let Ok(number) = number.parse() else {
        return Err(TextError::Malformed);
    };
    match kind {
        "sized" => Ok(SmallType::Sized(SizedType { number })),
        "listed" => Ok(SmallType::Listed(ListedType { number })),
        "bare" => Ok(SmallType::Bare(number)),
        _ => Err(TextError::Malformed),
    }
}

fn begin(lab: &mut Lab) -> Result<(), TextError> {
    let alloc = lab.alloc();
    lab.small.begin(alloc)?;
    lab.text.say("done");
    Ok(())
}

// The type of the only field.
fn only_type(rest: &str) -> Result<SmallType, TextError> {
    type_of(one(rest)?)
}

// The words that are given a type.
fn of_type(lab: &mut Lab, call: &str, rest: &str) -> Result<(), TextError> {
    let ty = only_type(rest)?;
    match call {
        "instantiate_key" => {
            let stored = lab.small.context.instantiate_key(ty);
            tell_stored(&mut lab.text, stored);
        }
        _ => of_own(&mut lab.text, &mut lab.small.context, call, ty),
    }
    Ok(())
}

// Those that are given a type of its own.
fn of_own(text: &mut Reply, ctx: &mut Context<Small>, call: &str, ty: SmallType) {
    match ty {
        SmallType::Sized(ty) => of_kind(text, ctx, call, ty),
        SmallType::Listed(ty) => of_kind(text, ctx, call, ty),
        SmallType::Pair(ty) => of_kind(text, ctx, call, ty),
        SmallType::Bare(_) => text.fail(TextError::Malformed),
    }
}

fn of_kind<T: IrType<Small> + Drop>(text: &mut Reply, ctx: &mut Context<Small>, call: &str, ty: T) {
    match call {
        "instantiate" | "again" => tell_stored(text, store(ctx, ty)),
        "get_self_handle" => text.show("", place_of(ty.get_self_handle(ctx))),
        "impls" => tell_impls(text, questions(ty)),
        "type_id" => tell(text, ty.get_type_id(ctx.alloc())),
        _ => text.fail(TextError::Malformed),
    }
}

// Writes where a type is stored.
fn tell_stored(text: &mut Reply, stored: Result<TypeHandle, CoreError>) {
    match stored {
        Ok(ty) => text.show("made ", ty.index()),
        Err(error) => tell_refusal(text, error),
    }
}

// Stores a type of its own.
fn store<T: IrType<Small>>(ctx: &mut Context<Small>, ty: T) -> Result<TypeHandle, CoreError> {
    Ok(ty.instantiate(ctx)?.to_handle())
}

// Whether a type's kind implements the interfaces: asked of the type, and of its key; and whether the key gives the type back.
fn questions<T: IrType<Small>>(ty: T) -> [bool; 5] {
    let sized = type_impls_static::<T, SizedInterface, Small>();
    let compound = type_impls_static::<T, CompoundInterface, Small>();
    let key = ty.to_key();
    [
        sized,
        compound,
        type_impls::<SizedInterface, Small>(&key),
        type_impls::<CompoundInterface, Small>(&key),
        T::of_key(&key).is_some(),
    ]
}

// Writes the five answers.
fn tell_impls(text: &mut Reply, answers: [bool; 5]) {
    let [sized, compound, sized_key, compound_key, given_back] = answers;
    text.show("sized ", sized);
    text.show(" compound ", compound);
    text.show(" key ", sized_key);
    text.show(" ", compound_key);
    text.show(" back ", given_back);
}

// The type at the place of the only field.
fn only_place(rest: &str) -> Result<TypeHandle, TextError> {
    type_at(one(rest)?)
}

// The words that are given a place.
fn at_place(lab: &mut Lab, call: &str, rest: &str) -> Result<(), TextError> {
    let ty = only_place(rest)?;
    match call {
        "read" => tell_type(&mut lab.text, &lab.small.context, ty),
        _ => handles::show_faults(&mut lab.text, &lab.small.context, ty),
    }
    Ok(())
}

// Writes what is told of a type.
fn tell_type(text: &mut Reply, ctx: &Context<Small>, ty: TypeHandle) {
    text.show("place ", ty.index());
    text.show(" known ", ty.is_known(ctx));
    text.show(" at ", place_of(ctx.type_at(ty.index())));
    if ty.is_known(ctx) {
        let body = *ty.body(ctx);
        let key = ty.deref(ctx);
        text.show(" body ", place_of(body));
        text.say(" key ");
        text.debug(key);
        handles::tell_handles(text, ctx, ty);
    }
}

// The type and the body of two fields.
fn type_and_body(rest: &str) -> Result<(TypeHandle, Option<TypeHandle>), TextError> {
    let (ty, body) = two(rest)?;
    let ty = type_at(ty)?;
    match body {
        "-" => Ok((ty, None)),
        _ => Ok((ty, Some(type_at(body)?))),
    }
}

fn set_body(lab: &mut Lab, rest: &str) -> Result<(), TextError> {
    let (ty, body) = type_and_body(rest)?;
    if ty.is_known(&lab.small.context) {
        ty.set_body(&mut lab.small.context, body);
        lab.text.say("done");
    } else {
        tell_condition(&mut lab.text);
    }
    Ok(())
}

fn static_type_id(lab: &mut Lab, rest: &str) -> Result<(), TextError> {
    let kind = one(rest)?;
    let alloc = lab.alloc();
    tell_static_id(&mut lab.text, alloc, kind);
    Ok(())
}

// Writes the id of the types of a kind, by the kind alone.
fn tell_static_id(text: &mut Reply, alloc: Global, kind: &str) {
    match kind {
        "sized" => tell(text, SizedType::get_type_id_static(alloc)),
        "listed" => tell(text, ListedType::get_type_id_static(alloc)),
        "pair" => tell(text, PairType::get_type_id_static(alloc)),
        _ => text.fail(TextError::Malformed),
    }
}
