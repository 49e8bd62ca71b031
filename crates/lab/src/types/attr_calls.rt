//! Attributes as texts, and what is changed in a dictionary.

use crate::types::known_names::identifier;
use crate::types::telling::{tell_end, tell_whether};
use ir_base_dialects::attribute::AttributeDict;
use ir_base_dialects::{CoreError, Identifier, TypeHandle};
use std::alloc::Global;
use testkit_lab::{Reply, TextError, count, one, two};
use toy_dialect::{Toy, ToyAttr, ToyInt, ToyOutlined, ToyText};

/// The attribute of a text: `int:VALUE:PLACE`, `text:TEXT` or `outlined:TEXT`.
///
/// # Errors
/// `Malformed` where it is none, and `OutOfMemory`, as with the other one below.
pub(crate) fn attribute_of(alloc: Global, text: &str) -> Result<ToyAttr, TextError> {
    match text.split_once(':') {
        Some(("int", number)) => number_of(number),
        Some(("text", text)) => Ok(ToyAttr::Text(ToyText(String::from_str(alloc, text)?))),
        Some(("outlined", text)) => {
            Ok(ToyAttr::Outlined(ToyOutlined(String::from_str(alloc, text)?)))
        }
        _ => Err(TextError::Malformed),
    }
}

// The attribute of a number and the place of its type.
fn number_of(text: &str) -> Result<ToyAttr, TextError> {
    let Some((value, place)) = text.split_once(':') else {
        return Err(TextError::Malformed);
    };
    let ty = TypeHandle::at(count(place)?);
    match value.parse() {
        Ok(value) => Ok(ToyAttr::Int(ToyInt { value, ty })),
        Err(_) => Err(TextError::Malformed),
    }
}

/// Writes the text of an attribute.
pub(crate) fn tell_attribute(text: &mut Reply, attr: &ToyAttr) {
    match attr {
        ToyAttr::Int(number) => {
            text.show("int:", number.value);
            text.show(":", number.ty.index());
        }
        ToyAttr::Text(held) => text.show("text:", &held.0),
        ToyAttr::Outlined(held) => text.show("outlined:", &held.0),
    }
}

/// What is changed in a dictionary.
#[derive(Drop)]
pub(crate) enum Change {
    /// The attribute is put at the key.
    Set(Identifier, ToyAttr),
    /// The number is written into the one at the key.
    Write(Identifier, i64),
    /// What is at the key is taken out.
    Remove(Identifier),
}

/// The change `set`, `get_mut` or `remove`, of the fields behind the owner.
pub(crate) fn change_of(alloc: Global, call: &str, text: &str) -> Result<Change, TextError> {
    match call {
        "set" => set_of(alloc, text),
        "get_mut" => write_of(text),
        "remove" => remove_of(text),
        _ => Err(TextError::Malformed),
    }
}

// The change `set`, of `KEY ATTRIBUTE`.
fn set_of(alloc: Global, text: &str) -> Result<Change, TextError> {
    let (key, attr) = two(text)?;
    let attr = attribute_of(alloc, attr)?;
    Ok(Change::Set(identifier(key)?, attr))
}

// The change `get_mut`, of `KEY VALUE`.
fn write_of(text: &str) -> Result<Change, TextError> {
    let (key, value) = two(text)?;
    match value.parse() {
        Ok(value) => Ok(Change::Write(identifier(key)?, value)),
        Err(_) => Err(TextError::Malformed),
    }
}

// The change `remove`, of `KEY`.
fn remove_of(text: &str) -> Result<Change, TextError> {
    Ok(Change::Remove(identifier(one(text)?)?))
}

/// Makes the change, and writes how it ends.
pub(crate) fn make(text: &mut Reply, attributes: &mut AttributeDict<Toy>, change: Change) {
    match change {
        Change::Set(key, attr) => tell_end(text, set(attributes, key, attr)),
        Change::Write(key, value) => tell_whether(text, write_number(attributes, &key, value)),
        Change::Remove(key) => tell_removed(text, attributes.remove(&key)),
    }
}

fn set(
    attributes: &mut AttributeDict<Toy>,
    key: Identifier,
    attr: ToyAttr,
) -> Result<(), CoreError> {
    match attr {
        ToyAttr::Int(number) => attributes.set(key, number),
        ToyAttr::Text(held) => attributes.set(key, held),
        ToyAttr::Outlined(held) => attributes.set(key, held),
    }
}

// Writes into the number at the key, and answers whether there is one.
fn write_number(attributes: &mut AttributeDict<Toy>, key: &Identifier, value: i64) -> bool {
    match attributes.get_mut::<ToyInt>(key) {
        Some(number) => {
            number.value = value;
            true
        }
        None => false,
    }
}

// Writes what was taken out.
fn tell_removed(text: &mut Reply, removed: Option<ToyAttr>) {
    match removed {
        Some(attr) => tell_attribute(text, &attr),
        None => text.say("-"),
    }
}
