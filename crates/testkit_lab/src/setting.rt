//! What is set or taken away in place, by direct calls.

use crate::fields::two;
use crate::items::Item;
use crate::lab::Lab;
use crate::naming::Line;
use crate::reply::Reply;
use crate::telling::tell_done;
use ir_base_dialects::{Identifier, Ptr, TypeHandle};
use ir_checked_core::{basic_block, operation, value};
use ir_view_parts::{BasicBlock, BlockPtrMut, Operation, OperationPtrMut, Value};
use std::alloc::Global;
use testkit_edit_texts::TextError;
use toy_dialect::{Toy, ToyLoc};

/// The value gets the type.
pub(crate) fn set_type(lab: &mut Lab, value: Value<Toy>, ty: TypeHandle) {
    let answer = value::set_type(value, &mut lab.context, ty);
    tell_done(&mut lab.text, answer);
}

// The identifier that a field is.
fn identifier(alloc: Global, field: &str) -> Result<Identifier, TextError> {
    if !Identifier::is_valid(field) {
        return Err(TextError::Malformed);
    }
    match Identifier::from_text(alloc, field) {
        Ok(identifier) => Ok(identifier),
        Err(_) => Err(TextError::OutOfMemory),
    }
}

/// `VALUE NAME`: the value gets the name.
pub(crate) fn set_name(lab: &mut Lab, rest: &str) -> Result<(), TextError> {
    let (value, name) = two(rest)?;
    let value = lab.value(value)?;
    let alloc = lab.alloc();
    let name = Box::new(alloc, identifier(alloc, name)?)?;
    name_value(lab, value, Some(name));
    Ok(())
}

/// The value gets the name, or loses it.
pub(crate) fn name_value(lab: &mut Lab, value: Value<Toy>, name: Option<Box<Identifier>>) {
    let answer = value::set_name(value, &mut lab.context, name);
    tell_done(&mut lab.text, answer);
}

/// `BLOCK LABEL`: the block gets the label.
pub(crate) fn set_label(lab: &mut Lab, rest: &str) -> Result<(), TextError> {
    let (block, label) = two(rest)?;
    let block = lab.block(block)?;
    let label = identifier(lab.alloc(), label)?;
    label_block(lab, block, Some(label));
    Ok(())
}

/// The block gets the label, or loses it.
pub(crate) fn label_block(lab: &mut Lab, block: Ptr<BasicBlock<Toy>>, label: Option<Identifier>) {
    let answer = match basic_block::deref_mut(&mut lab.context, block) {
        Ok(rest) => {
            rest.set_label(label);
            Ok(())
        }
        Err(error) => Err(error),
    };
    tell_done(&mut lab.text, answer);
}

// The location that an item is: a line, or `-`.
fn location(line: Item) -> Result<ToyLoc, TextError> {
    match line {
        Item::Nothing => Ok(ToyLoc::Unknown),
        Item::Number(line) => match u32::try_from(line) {
            Ok(line) => Ok(ToyLoc::Line(line)),
            Err(_) => Err(TextError::Malformed),
        },
        _ => Err(TextError::Malformed),
    }
}

/// The operation gets the location that an item is.
pub(crate) fn set_op_loc(lab: &mut Lab, op: Ptr<Operation<Toy>>, line: Item) {
    match location(line) {
        Ok(loc) => locate_op(lab, op, loc),
        Err(error) => lab.text.fail(error),
    }
}

fn locate_op(lab: &mut Lab, op: Ptr<Operation<Toy>>, loc: ToyLoc) {
    let answer = match operation::deref_mut(&mut lab.context, op) {
        Ok(rest) => {
            rest.set_loc(loc);
            Ok(())
        }
        Err(error) => Err(error),
    };
    tell_done(&mut lab.text, answer);
}

/// The block gets the location that an item is.
pub(crate) fn set_block_loc(lab: &mut Lab, block: Ptr<BasicBlock<Toy>>, line: Item) {
    match location(line) {
        Ok(loc) => locate_block(lab, block, loc),
        Err(error) => lab.text.fail(error),
    }
}

fn locate_block(lab: &mut Lab, block: Ptr<BasicBlock<Toy>>, loc: ToyLoc) {
    let answer = match basic_block::deref_mut(&mut lab.context, block) {
        Ok(rest) => {
            rest.set_loc(loc);
            Ok(())
        }
        Err(error) => Err(error),
    };
    tell_done(&mut lab.text, answer);
}

/// What the operation shows where it is lent for writing, or why it isn't lent.
pub(crate) fn lent_op(lab: &mut Lab, op: Ptr<Operation<Toy>>) {
    match OperationPtrMut::try_deref_mut(&mut lab.context, op) {
        Ok(lent) => write_lent(&mut lab.text, lent.loc, lent.attributes.len()),
        Err(fault) => lab.text.show("", fault),
    }
}

/// What the block shows where it is lent for writing, or why it isn't lent.
pub(crate) fn lent_block(lab: &mut Lab, block: Ptr<BasicBlock<Toy>>) {
    match BlockPtrMut::try_deref_mut(&mut lab.context, block) {
        Ok(lent) => write_lent(&mut lab.text, lent.loc, lent.attributes.len()),
        Err(fault) => lab.text.show("", fault),
    }
}

fn write_lent(text: &mut Reply, loc: ToyLoc, attributes: usize) {
    text.show("loc ", Line(loc));
    text.show(" attributes ", attributes);
}
