//! What the fields of a line name.

use crate::beside::Saved;
use crate::fields::{count, one};
use crate::lab::Lab;
use ir_base_dialects::{Ptr, TypeHandle};
use ir_view_parts::{BasicBlock, Operation, Region, Use, Value};
use testkit_edit_texts::{TextError, take_field};
use toy_dialect::Toy;

/// What a field names.
#[derive(Clone, Copy, Drop)]
pub enum Item {
    /// An operation.
    Op(Ptr<Operation<Toy>>),
    /// A block.
    Block(Ptr<BasicBlock<Toy>>),
    /// A region.
    Region(Ptr<Region>),
    /// A value.
    Value(Value<Toy>),
    /// A use of a value.
    ValueUse(Use<Value<Toy>>),
    /// A use of a block.
    BlockUse(Use<Ptr<BasicBlock<Toy>>>),
    /// A type.
    Type(TypeHandle),
    /// What was saved.
    Saved(Saved),
    /// A number, which may be the place of a type, also of one that isn't there.
    Number(usize),
    /// `-`.
    Nothing,
    /// `elsewhere`: not in the context that is asked otherwise.
    Elsewhere,
}

/// What the fields of a line name, in their order.
#[derive(Clone, Copy, Drop)]
pub enum Items {
    /// There is no field.
    None,
    /// That of the only field.
    One(Item),
    /// Those of two fields.
    Two(Item, Item),
    /// Those of three fields.
    Three(Item, Item, Item),
}

/// The type that an item is, by its name or its place.
///
/// # Errors
/// `Malformed` where it is neither.
pub fn type_of(item: Item) -> Result<TypeHandle, TextError> {
    match item {
        Item::Type(ty) => Ok(ty),
        Item::Number(place) => Ok(TypeHandle::at(place)),
        _ => Err(TextError::Malformed),
    }
}

// What a field names.
fn item_of(lab: &Lab, field: &str) -> Result<Item, TextError> {
    match field {
        "-" => Ok(Item::Nothing),
        "elsewhere" => Ok(Item::Elsewhere),
        _ => entry_of(lab, field),
    }
}

// The entry that a field names, or the number that it is.
fn entry_of(lab: &Lab, field: &str) -> Result<Item, TextError> {
    match field.chars().next() {
        Some('o') => Ok(Item::Op(lab.op(field)?)),
        Some('b') => Ok(Item::Block(lab.block(field)?)),
        Some('r') => Ok(Item::Region(lab.region(field)?)),
        Some('v') => Ok(Item::Value(lab.value(field)?)),
        Some('u') => Ok(Item::ValueUse(lab.value_use(field)?)),
        Some('w') => Ok(Item::BlockUse(lab.block_use(field)?)),
        Some('t') => Ok(Item::Type(lab.ty(field)?)),
        Some('s') => Ok(Item::Saved(lab.saved(field)?)),
        _ => Ok(Item::Number(count(field)?)),
    }
}

/// What the fields of a line name.
///
/// # Errors
/// `Malformed` where one names nothing, or there are more than three.
pub fn items_of(lab: &Lab, rest: &str) -> Result<Items, TextError> {
    match take_field(rest) {
        None => Ok(Items::None),
        Some((field, "")) => Ok(Items::One(item_of(lab, field)?)),
        Some((field, rest)) => more_of(lab, item_of(lab, field)?, rest),
    }
}

// The same, behind a first field.
fn more_of(lab: &Lab, first: Item, rest: &str) -> Result<Items, TextError> {
    match take_field(rest) {
        None => Err(TextError::Malformed),
        Some((field, "")) => Ok(Items::Two(first, item_of(lab, field)?)),
        Some((field, rest)) => {
            let second = item_of(lab, field)?;
            Ok(Items::Three(first, second, item_of(lab, one(rest)?)?))
        }
    }
}
