//! What verification finds, by each of its calls: `ok`, or the text of a fault.
//!
//! - `op o0`, `verify_operation o0`, `verify_op o0`, `block b0`, `region r0`, `value v0`, `type t0`, `verify_type t0`: where it is there, by the calls of `ir_checked` and by `verify_type`.
//! - `verify_attr int:VALUE:PLACE|text:TEXT|outlined:TEXT`
//!
//! In the group `verify` the checks are those of Toy, as in `well`, where nothing may be wrong, so that nothing is asked for. In `asking` each check asks for memory.

use crate::types::attr_calls::attribute_of;
use ir_base_dialects::{Dialects, Ptr, TypeHandle};
use ir_checked::{basic_block, operation, region, types, value, verify};
use ir_verify::verify::{Verifiers, VerifyErr, verify_attr, verify_type};
use ir_view_parts::{Context, Operation};
use testkit_lab::{Item, Items, Lab, Reply, TextError, items_of, one, tell_condition};
use toy_dialect::{Toy, ToyAttr};

// What is found, or none where the root isn't there.
type Found = Option<Result<(), VerifyErr>>;

/// Answers a word by these checks.
pub(crate) fn answer<V: Verifiers<Toy>>(
    lab: &mut Lab,
    call: &str,
    rest: &str,
    verifiers: &V,
) -> Result<(), TextError> {
    let found = found_by(lab, call, rest, verifiers)?;
    tell_found(&mut lab.text, found);
    Ok(())
}

/// Writes what is found.
pub(crate) fn tell_found(text: &mut Reply, found: Found) {
    match found {
        Some(Ok(())) => text.say("ok"),
        Some(Err(VerifyErr::OutOfMemory)) => text.say("refused memory"),
        Some(Err(fault)) => text.show("", fault),
        None => tell_condition(text),
    }
}

// What a call finds.
fn found_by<V: Verifiers<Toy>>(
    lab: &Lab,
    call: &str,
    rest: &str,
    verifiers: &V,
) -> Result<Found, TextError> {
    match call {
        "verify_attr" => {
            let attr = attribute(lab, rest)?;
            Ok(Some(verify_attr(&attr, lab.ctx(), verifiers)))
        }
        _ => {
            let items = items_of(lab, rest)?;
            found_at(lab.ctx(), call, items, verifiers)
        }
    }
}

// The attribute that is the only field.
fn attribute(lab: &Lab, rest: &str) -> Result<ToyAttr, TextError> {
    attribute_of(lab.alloc(), one(rest)?)
}

/// What is found at the operation with its kind, by `verify_op`; none where it isn't live.
pub(crate) fn op_with_kind_found<D: Dialects, V: Verifiers<D>>(
    ctx: &Context<D>,
    op: Ptr<Operation<D>>,
    verifiers: &V,
) -> Option<Result<(), VerifyErr>> {
    let op = operation::get_op_dyn(op, ctx).ok()?;
    verify::verify_op(op, ctx, verifiers).ok()
}

/// What is found at the type, by `verify_type`; none where it isn't known.
pub(crate) fn type_by_call_found<D: Dialects, V: Verifiers<D>>(
    ctx: &Context<D>,
    ty: TypeHandle,
    verifiers: &V,
) -> Option<Result<(), VerifyErr>> {
    let ty = types::deref(ty, ctx).ok()?;
    Some(verify_type(ty, ctx, verifiers))
}

// What a call finds at what has a name.
fn found_at<V: Verifiers<Toy>>(
    ctx: &Context<Toy>,
    call: &str,
    items: Items,
    verifiers: &V,
) -> Result<Found, TextError> {
    match items {
        Items::One(Item::Op(op)) => found_at_op(ctx, call, op, verifiers),
        Items::One(Item::Type(ty)) => found_at_type(ctx, call, ty, verifiers),
        Items::One(item) => found_at_part(ctx, call, item, verifiers),
        _ => Err(TextError::Malformed),
    }
}

// What a call finds at an operation.
fn found_at_op<V: Verifiers<Toy>>(
    ctx: &Context<Toy>,
    call: &str,
    op: Ptr<Operation<Toy>>,
    verifiers: &V,
) -> Result<Found, TextError> {
    match call {
        "op" => Ok(operation::verify(op, ctx, verifiers).ok()),
        "verify_operation" => Ok(verify::verify_operation(op, ctx, verifiers).ok()),
        "verify_op" => Ok(op_with_kind_found(ctx, op, verifiers)),
        _ => Err(TextError::Malformed),
    }
}

// What a call finds at a type.
fn found_at_type<V: Verifiers<Toy>>(
    ctx: &Context<Toy>,
    call: &str,
    ty: TypeHandle,
    verifiers: &V,
) -> Result<Found, TextError> {
    match call {
        "type" => Ok(types::verify(ty, ctx, verifiers).ok()),
        "verify_type" => Ok(type_by_call_found(ctx, ty, verifiers)),
        _ => Err(TextError::Malformed),
    }
}

// What a call finds at a block, a region or a value.
fn found_at_part<V: Verifiers<Toy>>(
    ctx: &Context<Toy>,
    call: &str,
    item: Item,
    verifiers: &V,
) -> Result<Found, TextError> {
    match (call, item) {
        ("block", Item::Block(block)) => Ok(basic_block::verify(block, ctx, verifiers).ok()),
        ("region", Item::Region(region)) => Ok(region::verify(region, ctx, verifiers).ok()),
        ("value", Item::Value(value)) => Ok(value::verify(value, ctx, verifiers).ok()),
        _ => Err(TextError::Malformed),
    }
}
