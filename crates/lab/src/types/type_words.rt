//! Types of the dialect Toy, and what has a type.
//!
//! - `read t0`, `at PLACE`: the type's place, whether it is known, and if so its key, its body, where its key is found, and the type that has its place.
//! - `find_type WIDTH`: the place of the integer type of this width.
//! - `set_body t0 t1|-`
//! - `of_value v0`, `of_owned v0`, `of_operand o0 AT`, `of_type t0`: the type of what has one, and of what lends or owns it.
//! - `clone_signature PLACES PLACES`: whether a copy of the signature with these arguments and results is equal to it, hashes equally, and differs from the signature with both exchanged.

use crate::types::telling::{Maybe, tell, tell_refusal};
use ir_base_dialects::{CoreError, Dialects, Ptr, TypeHandle};
use ir_view::types::{TypeSig, Typed};
use ir_view_parts::{
    Context, Operation, OperationPtr, TypeQueries, Use, UseQueries, Value, ValueQueries,
};
use std::alloc::Global;
use std::hash::{DefaultHasher, Hash, Hasher};
use testkit_lab::{
    Item, Items, Lab, Reply, TextError, asked, count, items_of, tell_condition, two,
};
use toy_dialect::{Toy, ToyType};

/// Answers a word.
pub(crate) fn answer(lab: &mut Lab, call: &str, rest: &str) -> Result<(), TextError> {
    match call {
        "set_body" => set_body(lab, rest),
        "clone_signature" => clone_signature(lab, rest),
        _ => answer_of(lab, call, rest),
    }
}

/// The place of a type.
pub(crate) fn place_of(ty: Option<TypeHandle>) -> Maybe<usize> {
    match ty {
        Some(ty) => Maybe(Some(ty.index())),
        None => Maybe(None),
    }
}

// The words whose fields are items.
fn answer_of(lab: &mut Lab, call: &str, rest: &str) -> Result<(), TextError> {
    let items = items_of(lab, rest)?;
    match items {
        Items::One(Item::Type(ty)) => of_known(lab, call, ty),
        _ => ask(
            &mut lab.text,
            asked(lab.mode, &lab.session, &lab.context),
            call,
            items,
        ),
    }
    Ok(())
}

// Those that are given the name of a type.
fn of_known(lab: &mut Lab, call: &str, ty: TypeHandle) {
    match call {
        "read" => tell_type(
            &mut lab.text,
            asked(lab.mode, &lab.session, &lab.context),
            ty,
        ),
        "of_type" => of_type(lab, ty),
        _ => lab.text.fail(TextError::Malformed),
    }
}

// Those that are given something else.
fn ask(text: &mut Reply, ctx: &Context<Toy>, call: &str, items: Items) {
    match items {
        Items::One(Item::Number(number)) => of_number(text, ctx, call, number),
        Items::One(Item::Value(value)) => of_value(text, ctx, call, value),
        Items::Two(Item::Op(op), Item::Number(at)) => of_operand(text, ctx, call, op, at),
        _ => text.fail(TextError::Malformed),
    }
}

fn of_number(text: &mut Reply, ctx: &Context<Toy>, call: &str, number: usize) {
    match call {
        "at" => tell_type(text, ctx, TypeHandle::at(number)),
        "find_type" => find_type(text, ctx, number),
        _ => text.fail(TextError::Malformed),
    }
}

fn of_value(text: &mut Reply, ctx: &Context<Toy>, call: &str, value: Value<Toy>) {
    match call {
        "of_value" => tell_lent(text, value_types(ctx, value)),
        "of_owned" => tell(text, owned_type(ctx, value)),
        _ => text.fail(TextError::Malformed),
    }
}

// Writes what is told of a type.
fn tell_type(text: &mut Reply, ctx: &Context<Toy>, ty: TypeHandle) {
    text.show("place ", ty.index());
    text.show(" known ", ty.is_known(ctx));
    text.show(" at ", place_of(ctx.type_at(ty.index())));
    if ty.is_known(ctx) {
        let body = *ty.body(ctx);
        let key = ty.deref(ctx);
        text.show(" found ", place_of(ctx.find_type(key)));
        text.show(" body ", place_of(body));
        tell_key(text, key);
    }
}

// Writes the key of a type.
fn tell_key(text: &mut Reply, key: &ToyType) {
    match key {
        ToyType::Int { width } => text.show(" key i", width),
        ToyType::Named(name) => text.show(" key ", name),
    }
}

fn find_type(text: &mut Reply, ctx: &Context<Toy>, width: usize) {
    match u32::try_from(width) {
        Ok(width) => text.show("", place_of(ctx.find_type(&ToyType::Int { width }))),
        Err(_) => text.fail(TextError::Malformed),
    }
}

// The type and the body of two fields.
fn type_and_body(lab: &Lab, rest: &str) -> Result<(TypeHandle, Option<TypeHandle>), TextError> {
    let (ty, body) = two(rest)?;
    let ty = lab.ty(ty)?;
    match body {
        "-" => Ok((ty, None)),
        _ => Ok((ty, Some(lab.ty(body)?))),
    }
}

fn set_body(lab: &mut Lab, rest: &str) -> Result<(), TextError> {
    let (ty, body) = type_and_body(lab, rest)?;
    if ty.is_known(&lab.context) {
        ty.set_body(&mut lab.context, body);
        lab.text.say("done");
    } else {
        tell_condition(&mut lab.text);
    }
    Ok(())
}

// The place of the type of what is live, or known.
fn type_of<D: Dialects, T: Typed<D>>(ctx: &Context<D>, item: &T) -> usize
    requires { T.IsThere ctx.now item.now }
{
    item.get_type(ctx).index()
}

// Writes the places of both types.
fn tell_lent(text: &mut Reply, places: Option<(usize, usize)>) {
    match places {
        Some((place, lent)) => {
            text.show("", place);
            text.show(" lent ", lent);
        }
        None => tell_condition(text),
    }
}

// The places of the types of a live value and of what lends it.
fn value_types(ctx: &Context<Toy>, value: Value<Toy>) -> Option<(usize, usize)> {
    if !value.is_live(ctx) {
        return None;
    }
    Some((type_of(ctx, &value), type_of(ctx, &&value)))
}

// The place of the type of a box with a live value.
fn owned_type(ctx: &Context<Toy>, value: Value<Toy>) -> Result<Maybe<usize>, CoreError> {
    let owned = Box::new(ctx.alloc(), value)?;
    if !value.is_live(ctx) {
        return Ok(Maybe(None));
    }
    Ok(Maybe(Some(type_of(ctx, &owned))))
}

fn of_operand(
    text: &mut Reply,
    ctx: &Context<Toy>,
    call: &str,
    op: Ptr<Operation<Toy>>,
    at: usize,
) {
    match call {
        "of_operand" => text.show("", Maybe(operand_type(ctx, op, at))),
        _ => text.fail(TextError::Malformed),
    }
}

// The place of the type of an operand of a live operation.
fn operand_type(ctx: &Context<Toy>, op: Ptr<Operation<Toy>>, at: usize) -> Option<usize> {
    match op.try_deref(ctx) {
        Ok(record) => {
            if at < record.get_num_operands() {
                use_type(ctx, record.get_operand_as_use(at))
            } else {
                None
            }
        }
        Err(_) => None,
    }
}

// The place of the type of a use that an operation has.
fn use_type(ctx: &Context<Toy>, used: Use<Value<Toy>>) -> Option<usize> {
    if used.try_find_index(ctx).is_err() {
        return None;
    }
    Some(type_of(ctx, &used))
}

fn of_type(lab: &mut Lab, ty: TypeHandle) {
    *lab.beside.held = ty;
    let places = type_types(lab.ctx(), ty, &lab.beside.held);
    tell_boxed(&mut lab.text, places);
}

// Writes the places of the three types.
fn tell_boxed(text: &mut Reply, places: Option<(usize, usize, usize)>) {
    match places {
        Some((place, lent, boxed)) => {
            text.show("", place);
            text.show(" lent ", lent);
            text.show(" boxed ", boxed);
        }
        None => tell_condition(text),
    }
}

// The places of the types of a known type, of what lends it for writing, and of the box with it.
fn type_types(
    ctx: &Context<Toy>,
    ty: TypeHandle,
    in_box: &Box<TypeHandle>,
) -> Option<(usize, usize, usize)> {
    let held = **in_box;
    let mut lent = ty;
    if !ty.is_known(ctx) || !held.is_known(ctx) || !lent.is_known(ctx) {
        return None;
    }
    Some((
        type_of(ctx, &ty),
        type_of(ctx, &&mut lent),
        type_of(ctx, in_box),
    ))
}

fn clone_signature(lab: &mut Lab, rest: &str) -> Result<(), TextError> {
    let signature = signature_of(lab.alloc(), rest)?;
    tell_copy(&mut lab.text, compare_copy(signature));
    Ok(())
}

// The signature of two fields.
fn signature_of(alloc: Global, rest: &str) -> Result<TypeSig, TextError> {
    let (arguments, results) = two(rest)?;
    let arguments = places(alloc, arguments)?;
    let results = places(alloc, results)?;
    Ok(TypeSig { arguments, results })
}

// The types at these places.
fn places(alloc: Global, text: &str) -> Result<Vec<TypeHandle>, TextError> {
    let mut types = Vec::new(alloc);
    for place in text.split(',') {
        types.push(TypeHandle::at(count(place)?))?;
    }
    Ok(types)
}

/// What an item hashes to.
pub(crate) fn hash_of<T: Hash>(item: &T) -> u64 {
    let mut hasher = DefaultHasher::default();
    item.hash(&mut hasher);
    hasher.finish()
}

// Whether a copy is equal, hashes equally, and is equal to the signature also when it is turned.
fn compare_copy(signature: TypeSig) -> Result<(bool, bool, bool), CoreError> {
    let copy = signature.clone()?;
    let equal = copy == signature;
    let hash = hash_of(&copy) == hash_of(&signature);
    let turned = TypeSig {
        arguments: copy.results,
        results: copy.arguments,
    };
    Ok((equal, hash, turned == signature))
}

// Writes the three answers.
fn tell_copy(text: &mut Reply, compared: Result<(bool, bool, bool), CoreError>) {
    match compared {
        Ok((equal, hash, turned)) => {
            text.show("equal ", equal);
            text.show(" hash ", hash);
            text.show(" turned ", turned);
        }
        Err(error) => tell_refusal(text, error),
    }
}
