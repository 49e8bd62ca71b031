//! Operations under the types of constants and of returns, and with their kinds.
//!
//! - `read o0`: the kind of the operation that it gives with its kind, and whether it is of each type's kind and gives itself under it.
//! - `constant o0`, `return o0`: the operation with that type's kind, as it tells itself: its kind, whether it gives itself under each type, and whether its kind ends blocks and is pure.
//! - `kinds`: the same two questions of both types.
//! - `compare o0 o1`: whether the first is equal to itself with another kind and hashes equally, and whether it is equal to the second.
//! - `loc o0`: its location, by a constant.
//! - `get_opid o0`, `constant_id o0`, `return_id o0`, `static_id`: ids, by the handle, by each type, and of constants.

use crate::types::telling::{Maybe, tell};
use crate::types::type_words::hash_of;
use ir_base_dialects::Ptr;
use ir_base_dialects::interfaces::{IsTerminatorInterface, PureOpInterface};
use ir_view_parts::{
    Context, Op, OpObj, Operation, OperationKind, OperationPtr, op_impls, op_impls_static,
};
use testkit_lab::{
    Constant, Item, Items, Lab, Line, Reply, Return, TextError, asked, items_of, tell_condition,
};
use toy_dialect::Toy;

/// Answers a word.
pub(crate) fn answer(lab: &mut Lab, call: &str, rest: &str) -> Result<(), TextError> {
    match call {
        "kinds" => {
            tell_kinds(&mut lab.text);
            Ok(())
        }
        "static_id" => {
            let id = Constant::get_opid_static(lab.alloc());
            tell(&mut lab.text, id);
            Ok(())
        }
        _ => answer_of(lab, call, rest),
    }
}

// The words whose fields are operations.
fn answer_of(lab: &mut Lab, call: &str, rest: &str) -> Result<(), TextError> {
    let items = items_of(lab, rest)?;
    let ctx = asked(lab.mode, &lab.session, &lab.context);
    match items {
        Items::One(Item::Op(op)) => ask(&mut lab.text, ctx, call, op),
        Items::Two(Item::Op(op), Item::Op(other)) => ask_both(&mut lab.text, call, op, other),
        _ => lab.text.fail(TextError::Malformed),
    }
    Ok(())
}

fn ask(text: &mut Reply, ctx: &Context<Toy>, call: &str, op: Ptr<Operation<Toy>>) {
    match call {
        "read" => read(text, ctx, op),
        "constant" => tell_object(text, op, pair_of::<Constant>(op)),
        "return" => tell_object(text, op, pair_of::<Return>(op)),
        "loc" => loc(text, ctx, op),
        "get_opid" => get_opid(text, ctx, op),
        "constant_id" => tell(text, Constant::from_operation(op).get_opid(ctx.alloc())),
        "return_id" => tell(text, Return::from_operation(op).get_opid(ctx.alloc())),
        _ => text.fail(TextError::Malformed),
    }
}

fn ask_both(text: &mut Reply, call: &str, op: Ptr<Operation<Toy>>, other: Ptr<Operation<Toy>>) {
    match call {
        "compare" => compare(text, op, other),
        _ => text.fail(TextError::Malformed),
    }
}

// Whether a wrapper that is given wraps the operation.
fn wraps<T: Op<Toy> + Drop>(given: Option<T>, op: Ptr<Operation<Toy>>) -> Maybe<bool> {
    match given {
        Some(wrapper) => Maybe(Some(wrapper.get_operation() == op)),
        None => Maybe(None),
    }
}

fn read(text: &mut Reply, ctx: &Context<Toy>, op: Ptr<Operation<Toy>>) {
    if op.is_live(ctx) {
        tell_pair(text, op, op.get_op_dyn(ctx));
        tell_under::<Constant>(text, ctx, " constant ", op);
        tell_under::<Return>(text, ctx, " return ", op);
    } else {
        tell_condition(text);
    }
}

// Writes the kind that an operation has with it, and whether that gives the operation.
fn tell_pair(text: &mut Reply, op: Ptr<Operation<Toy>>, pair: OpObj<Toy>) {
    text.show("kind ", pair.kind());
    text.show(" itself ", pair.get_operation() == op);
}

// Writes whether an operation is of the type's kind, and whether it gives itself under it.
fn tell_under<T: Op<Toy> + Drop>(
    text: &mut Reply,
    ctx: &Context<Toy>,
    name: &str,
    op: Ptr<Operation<Toy>>,
) {
    let (is_kind, itself) = under::<T>(ctx, op);
    text.show(name, is_kind);
    text.show(" ", itself);
}

// Whether an operation is of the type's kind, and whether it gives itself under it.
fn under<T: Op<Toy> + Drop>(ctx: &Context<Toy>, op: Ptr<Operation<Toy>>) -> (bool, Maybe<bool>) {
    if !op.is_live(ctx) {
        return (false, Maybe(None));
    }
    (op.is_op::<T>(ctx), wraps(op.get_op::<T>(ctx), op))
}

// The operation with the type's kind.
fn pair_of<T: Op<Toy> + Drop>(op: Ptr<Operation<Toy>>) -> OpObj<Toy> {
    OpObj::new(T::from_operation(op))
}

// Writes what an operation with a kind tells of itself.
fn tell_object(text: &mut Reply, op: Ptr<Operation<Toy>>, pair: OpObj<Toy>) {
    tell_pair(text, op, pair);
    text.show(" constant ", wraps(pair.downcast::<Constant>(), op));
    text.show(" return ", wraps(pair.downcast::<Return>(), op));
    text.show(" ends ", op_impls::<IsTerminatorInterface, Toy>(pair));
    text.show(" pure ", op_impls::<PureOpInterface, Toy>(pair));
}

// Writes whether the kinds of both types end blocks, and whether they are pure.
fn tell_kinds(text: &mut Reply) {
    tell_kind::<Constant>(text, "constant");
    tell_kind::<Return>(text, " return");
}

// Writes whether the type's kind ends blocks, and whether it is pure.
fn tell_kind<T: Op<Toy>>(text: &mut Reply, name: &str) {
    text.say(name);
    text.show(" ends ", op_impls_static::<T, IsTerminatorInterface, Toy>());
    text.show(" pure ", op_impls_static::<T, PureOpInterface, Toy>());
}

fn compare(text: &mut Reply, first: Ptr<Operation<Toy>>, second: Ptr<Operation<Toy>>) {
    let pair = pair_of::<Constant>(first);
    let same = pair_of::<Return>(first);
    text.show("equal ", pair == same);
    text.show(" hash ", hash_of(&pair) == hash_of(&same));
    text.show(" other ", pair == pair_of::<Constant>(second));
}

fn loc(text: &mut Reply, ctx: &Context<Toy>, op: Ptr<Operation<Toy>>) {
    let constant = Constant::wrap(&op);
    if op.is_live(ctx) {
        text.show("", Line(*constant.loc(ctx)));
    } else {
        tell_condition(text);
    }
}

fn get_opid(text: &mut Reply, ctx: &Context<Toy>, op: Ptr<Operation<Toy>>) {
    if op.is_live(ctx) {
        tell(text, op.get_opid(ctx));
    } else {
        tell_condition(text);
    }
}
