//! Attributes of operations and blocks, which stand by their names, as `o0` or `b0`.
//!
//! - `set o0 KEY ATTRIBUTE`, `get_mut o0 KEY VALUE`, `remove o0 KEY`: as `attr_calls` has these changes.
//! - `read o0`: how many attributes there are, whether there are none, and below a line for each.
//! - `get o0 KEY`: what is at the key as each kind and as each interface, what the tables say of it, its type, and whether it is to be outlined.
//! - `kinds`: which kinds implement which interfaces.
//! - `compare o0 b0`: whether the attributes of both are equal, and hash equally.
//! - `clone o0`, `clone_skip_outlined o0`: a copy, told as `read` tells the attributes, and whether it is equal to them.

use crate::types::attr_calls::{Change, change_of, make, tell_attribute};
use crate::types::known_names::identifier;
use crate::types::telling::{Maybe, tell_refusal};
use crate::types::type_words::{hash_of, place_of};
use ir_base_dialects::attribute::{
    AttributeDict, attr_impls, attr_impls_static, attr_should_outline, attr_type,
};
use ir_base_dialects::interfaces::{OutlinedAttr, TypedAttrInterface};
use ir_base_dialects::{CoreError, Identifier, Ptr};
use ir_view_parts::{
    BasicBlock, BlockPtr, BlockPtrMut, Context, Operation, OperationPtr, OperationPtrMut,
};
use testkit_lab::{Lab, Reply, TextError, asked, one, take_field, tell_condition};
use toy_dialect::{Toy, ToyAttr, ToyInt, ToyOutlined, ToyText};

/// Answers a word.
pub(crate) fn answer(lab: &mut Lab, call: &str, rest: &str) -> Result<(), TextError> {
    match call {
        "set" | "get_mut" | "remove" => change(lab, call, rest),
        "read" | "clone" | "clone_skip_outlined" => ask(lab, call, rest),
        "get" => get(lab, rest),
        "compare" => compare(lab, rest),
        "kinds" => {
            tell_tables(&mut lab.text);
            Ok(())
        }
        _ => Err(TextError::Malformed),
    }
}

// An operation or a block.
#[derive(Clone, Copy, Drop)]
enum Owner {
    Op(Ptr<Operation<Toy>>),
    Block(Ptr<BasicBlock<Toy>>),
}

// The operation or block with this name.
fn owner_of(lab: &Lab, name: &str) -> Result<Owner, TextError> {
    if name.starts_with('o') {
        Ok(Owner::Op(lab.op(name)?))
    } else {
        Ok(Owner::Block(lab.block(name)?))
    }
}

// The operation or block that stands first, and what stands behind.
fn owner_before<'a>(lab: &Lab, text: &'a str) -> Result<(Owner, &'a str), TextError> {
    let Some((name, rest)) = take_field(text) else {
        return Err(TextError::Malformed);
    };
    Ok((owner_of(lab, name)?, rest))
}

// The operation or block of the only field.
fn only_owner(lab: &Lab, text: &str) -> Result<Owner, TextError> {
    owner_of(lab, one(text)?)
}

// The operation or block of the first field, and the key of the other one.
fn owner_and_key(lab: &Lab, text: &str) -> Result<(Owner, Identifier), TextError> {
    let (owner, rest) = owner_before(lab, text)?;
    Ok((owner, identifier(one(rest)?)?))
}

// Those of both fields.
fn two_owners(lab: &Lab, text: &str) -> Result<(Owner, Owner), TextError> {
    let (owner, rest) = owner_before(lab, text)?;
    Ok((owner, only_owner(lab, rest)?))
}

// The attributes of what is live.
fn attributes_of(ctx: &Context<Toy>, owner: Owner) -> Option<&AttributeDict<Toy>> {
    match owner {
        Owner::Op(op) => match op.try_deref(ctx) {
            Ok(record) => Some(record.attributes()),
            Err(_) => None,
        },
        Owner::Block(block) => match block.try_deref(ctx) {
            Ok(record) => Some(record.attributes()),
            Err(_) => None,
        },
    }
}

fn change(lab: &mut Lab, call: &str, rest: &str) -> Result<(), TextError> {
    let (owner, rest) = owner_before(lab, rest)?;
    let wanted = change_of(lab.alloc(), call, rest)?;
    make_at(&mut lab.text, &mut lab.context, owner, wanted);
    Ok(())
}

// Makes a change in the attributes of what is live.
fn make_at(text: &mut Reply, ctx: &mut Context<Toy>, owner: Owner, change: Change) {
    match owner {
        Owner::Op(op) => match OperationPtrMut::try_deref_mut(ctx, op) {
            Ok(written) => make(text, &mut written.attributes, change),
            Err(_) => tell_condition(text),
        },
        Owner::Block(block) => match BlockPtrMut::try_deref_mut(ctx, block) {
            Ok(written) => make(text, &mut written.attributes, change),
            Err(_) => tell_condition(text),
        },
    }
}

// The words `read`, `clone` and `clone_skip_outlined`.
fn ask(lab: &mut Lab, call: &str, rest: &str) -> Result<(), TextError> {
    let owner = only_owner(lab, rest)?;
    let ctx = asked(lab.mode, &lab.session, &lab.context);
    tell_asked(&mut lab.text, call, attributes_of(ctx, owner));
    Ok(())
}

fn tell_asked(text: &mut Reply, call: &str, attributes: Option<&AttributeDict<Toy>>) {
    match (call, attributes) {
        (_, None) => tell_condition(text),
        ("read", Some(attributes)) => tell_all(text, attributes),
        ("clone", Some(attributes)) => tell_copy(text, attributes, attributes.clone()),
        (_, Some(attributes)) => { tell_copy(text, attributes, attributes.clone_skip_outlined()) }
    }
}

// Writes all attributes.
fn tell_all(text: &mut Reply, attributes: &AttributeDict<Toy>) {
    text.show("len ", attributes.len());
    text.show(" empty ", attributes.is_empty());
    for (key, attr) in attributes.iter() {
        text.show("\n  ", key);
        text.say(" ");
        tell_attribute(text, attr);
    }
}

fn get(lab: &mut Lab, rest: &str) -> Result<(), TextError> {
    let (owner, key) = owner_and_key(lab, rest)?;
    let ctx = asked(lab.mode, &lab.session, &lab.context);
    tell_at(&mut lab.text, attributes_of(ctx, owner), &key);
    Ok(())
}

// Writes what is at a key.
fn tell_at(text: &mut Reply, attributes: Option<&AttributeDict<Toy>>, key: &Identifier) {
    match attributes {
        Some(attributes) => {
            tell_kinds(text, attributes, key);
            tell_each(text, attributes, key);
        }
        None => tell_condition(text),
    }
}

// Writes of each attribute at a key what the tables say of it.
fn tell_each(text: &mut Reply, attributes: &AttributeDict<Toy>, key: &Identifier) {
    for (other, attr) in attributes.iter() {
        if other == key {
            tell_impls(text, attr);
        }
    }
}

// Writes what the tables say of an attribute.
fn tell_impls(text: &mut Reply, attr: &ToyAttr) {
    text.show(" impls ", attr_impls::<TypedAttrInterface, Toy>(attr));
    text.show(" ", attr_impls::<OutlinedAttr, Toy>(attr));
    text.show(" type ", place_of(attr_type::<Toy>(attr)));
    text.show(" outlined ", attr_should_outline::<Toy>(attr));
}

// Writes as what a dictionary gives what is at a key.
fn tell_kinds(text: &mut Reply, attributes: &AttributeDict<Toy>, key: &Identifier) {
    text.show("int ", number_at(attributes, key));
    text.show(" text ", attributes.get::<ToyText>(key).is_some());
    text.show(" outlined ", attributes.get::<ToyOutlined>(key).is_some());
    text.show(
        " as ",
        attributes.get_as::<TypedAttrInterface>(key).is_some(),
    );
    text.show(" ", attributes.get_as::<OutlinedAttr>(key).is_some());
}

// The number at a key.
fn number_at(attributes: &AttributeDict<Toy>, key: &Identifier) -> Maybe<i64> {
    match attributes.get::<ToyInt>(key) {
        Some(number) => Maybe(Some(number.value)),
        None => Maybe(None),
    }
}

// Writes which kinds implement which interfaces.
fn tell_tables(text: &mut Reply) {
    text.say("typed ");
    text.debug([
        attr_impls_static::<ToyInt, TypedAttrInterface, Toy>(),
        attr_impls_static::<ToyText, TypedAttrInterface, Toy>(),
        attr_impls_static::<ToyOutlined, TypedAttrInterface, Toy>(),
    ]);
    text.say(" outlined ");
    text.debug([
        attr_impls_static::<ToyInt, OutlinedAttr, Toy>(),
        attr_impls_static::<ToyText, OutlinedAttr, Toy>(),
        attr_impls_static::<ToyOutlined, OutlinedAttr, Toy>(),
    ]);
}

fn compare(lab: &mut Lab, rest: &str) -> Result<(), TextError> {
    let (first, second) = two_owners(lab, rest)?;
    let ctx = asked(lab.mode, &lab.session, &lab.context);
    tell_compared(
        &mut lab.text,
        attributes_of(ctx, first),
        attributes_of(ctx, second),
    );
    Ok(())
}

// Writes whether both are equal, and hash equally.
fn tell_compared(
    text: &mut Reply,
    first: Option<&AttributeDict<Toy>>,
    second: Option<&AttributeDict<Toy>>,
) {
    match (first, second) {
        (Some(first), Some(second)) => {
            text.show("equal ", *first == *second);
            text.show(" hash ", hash_of(first) == hash_of(second));
        }
        _ => tell_condition(text),
    }
}

// Writes whether a copy is equal, and all that it has.
fn tell_copy(
    text: &mut Reply,
    attributes: &AttributeDict<Toy>,
    copy: Result<AttributeDict<Toy>, CoreError>,
) {
    match copy {
        Ok(copy) => {
            text.show("equal ", copy == *attributes);
            text.say(" ");
            tell_all(text, &copy);
        }
        Err(error) => tell_refusal(text, error),
    }
}
