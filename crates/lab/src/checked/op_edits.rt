//! The calls that change operations.

use crate::checked::told::{tell_edit, tell_error};
use crate::checked::words::read;
use ir_base_dialects::{Ptr, TypeHandle};
use ir_checked::passes;
use ir_checked_core::operation;
use ir_view_parts::{BasicBlock, Operation, Value};
use std::alloc::Global;
use testkit_lab::{Item, Items, Lab, TextError, type_of};
use toy_dialect::Toy;

/// Those that are given an operation alone.
pub(crate) fn edit_op(lab: &mut Lab, call: &str, op: Ptr<Operation<Toy>>) {
    match call {
        "operation::add_region" => {
            let answer = operation::add_region(op, &mut lab.context);
            tell_edit(lab, answer);
        }
        "operation::pop_operand" => {
            let answer = operation::pop_operand(op, &mut lab.context);
            tell_edit(lab, answer);
        }
        "operation::pop_successor" => {
            let answer = operation::pop_successor(op, &mut lab.context);
            tell_edit(lab, answer);
        }
        "operation::pop_result" => {
            let answer = operation::pop_result(op, &mut lab.context);
            tell_edit(lab, answer);
        }
        "operation::unlink" => {
            let answer = operation::unlink(op, &mut lab.context);
            tell_edit(lab, answer);
        }
        "operation::drop_all_uses" => {
            let answer = operation::drop_all_uses(op, &mut lab.context);
            tell_edit(lab, answer);
        }
        "operation::erase" => {
            let answer = operation::erase(op, &mut lab.context);
            tell_edit(lab, answer);
        }
        "passes::sweep_inside" => {
            let answer = passes::sweep_inside(op, &mut lab.context);
            tell_edit(lab, answer);
        }
        "passes::merge_common_inside" => {
            let answer = passes::merge_common_inside(op, &mut lab.context);
            tell_edit(lab, answer);
        }
        "passes::remove_unreached_inside" => {
            let answer = passes::remove_unreached_inside(op, &mut lab.context);
            tell_edit(lab, answer);
        }
        "operation::deref_mut" => lend_op(lab, op),
        _ => read(lab, call, Items::One(Item::Op(op))),
    }
}

// How many attributes what is lent has.
fn lend_op(lab: &mut Lab, op: Ptr<Operation<Toy>>) {
    match operation::deref_mut(&mut lab.context, op) {
        Ok(lent) => lab.text.show("attributes ", lent.attributes.len()),
        Err(error) => tell_error(&mut lab.text, error),
    }
}

/// Those that are given an operation and something else.
pub(crate) fn edit_op_in(lab: &mut Lab, call: &str, op: Ptr<Operation<Toy>>, other: Item) {
    match other {
        Item::Value(value) => edit_op_value(lab, call, op, value),
        Item::Block(block) => edit_op_block(lab, call, op, block),
        Item::Op(other) => edit_ops(lab, call, op, other),
        Item::Type(ty) => push_result(lab, call, op, ty),
        Item::Number(index) => edit_op_index(lab, call, op, index),
        _ => lab.text.fail(TextError::Malformed),
    }
}

fn edit_op_value(lab: &mut Lab, call: &str, op: Ptr<Operation<Toy>>, value: Value<Toy>) {
    match call {
        "operation::push_operand" => {
            let answer = operation::push_operand(op, &mut lab.context, value);
            tell_edit(lab, answer);
        }
        _ => lab.text.fail(TextError::Malformed),
    }
}

fn edit_op_block(lab: &mut Lab, call: &str, op: Ptr<Operation<Toy>>, block: Ptr<BasicBlock<Toy>>) {
    match call {
        "operation::push_successor" => {
            let answer = operation::push_successor(op, &mut lab.context, block);
            tell_edit(lab, answer);
        }
        "operation::insert_at_front" => {
            let answer = operation::insert_at_front(op, block, &mut lab.context);
            tell_edit(lab, answer);
        }
        "operation::insert_at_back" => {
            let answer = operation::insert_at_back(op, block, &mut lab.context);
            tell_edit(lab, answer);
        }
        _ => lab.text.fail(TextError::Malformed),
    }
}

fn edit_ops(lab: &mut Lab, call: &str, op: Ptr<Operation<Toy>>, other: Ptr<Operation<Toy>>) {
    match call {
        "operation::insert_before" => {
            let answer = operation::insert_before(op, &mut lab.context, other);
            tell_edit(lab, answer);
        }
        "operation::insert_after" => {
            let answer = operation::insert_after(op, &mut lab.context, other);
            tell_edit(lab, answer);
        }
        _ => lab.text.fail(TextError::Malformed),
    }
}

fn push_result(lab: &mut Lab, call: &str, op: Ptr<Operation<Toy>>, ty: TypeHandle) {
    match call {
        "operation::push_result" => {
            let answer = operation::push_result(op, &mut lab.context, ty);
            tell_edit(lab, answer);
        }
        _ => lab.text.fail(TextError::Malformed),
    }
}

fn edit_op_index(lab: &mut Lab, call: &str, op: Ptr<Operation<Toy>>, index: usize) {
    match call {
        "operation::push_result" => push_result(lab, call, op, TypeHandle::at(index)),
        "operation::remove_operand" => {
            let answer = operation::remove_operand(op, &mut lab.context, index);
            tell_edit(lab, answer);
        }
        "operation::remove_successor" => {
            let answer = operation::remove_successor(op, &mut lab.context, index);
            tell_edit(lab, answer);
        }
        "operation::remove_result" => {
            let answer = operation::remove_result(op, &mut lab.context, index);
            tell_edit(lab, answer);
        }
        "operation::erase_region" => {
            let answer = operation::erase_region(op, &mut lab.context, index);
            tell_edit(lab, answer);
        }
        _ => read(lab, call, Items::Two(Item::Op(op), Item::Number(index))),
    }
}

/// Those that are given an operation, a place in one of its lists and what comes there.
pub(crate) fn edit_op_at(
    lab: &mut Lab,
    call: &str,
    op: Ptr<Operation<Toy>>,
    index: usize,
    third: Item,
) {
    match (call, third) {
        ("operation::insert_operand", Item::Value(value)) => {
            let answer = operation::insert_operand(op, &mut lab.context, index, value);
            tell_edit(lab, answer);
        }
        ("operation::replace_operand", Item::Value(value)) => {
            let answer = operation::replace_operand(op, &mut lab.context, index, value);
            tell_edit(lab, answer);
        }
        ("operation::insert_successor", Item::Block(block)) => {
            let answer = operation::insert_successor(op, &mut lab.context, index, block);
            tell_edit(lab, answer);
        }
        ("operation::replace_successor", Item::Block(block)) => {
            let answer = operation::replace_successor(op, &mut lab.context, index, block);
            tell_edit(lab, answer);
        }
        _ => insert_result(lab, call, op, index, third),
    }
}

fn insert_result(lab: &mut Lab, call: &str, op: Ptr<Operation<Toy>>, index: usize, ty: Item) {
    match (call, type_of(ty)) {
        ("operation::insert_result", Ok(ty)) => {
            let answer = operation::insert_result(op, &mut lab.context, index, ty);
            tell_edit(lab, answer);
        }
        _ => lab.text.fail(TextError::Malformed),
    }
}

// The type that an item is, if it is one.
fn types_in(alloc: Global, item: Item) -> Result<Vec<TypeHandle>, TextError> {
    let mut types = Vec::new(alloc);
    match item {
        Item::Nothing => {}
        _ => types.push(type_of(item)?)?,
    }
    Ok(types)
}

// The value that an item is, if it is one.
fn values_in(alloc: Global, item: Item) -> Result<Vec<Value<Toy>>, TextError> {
    let mut values = Vec::new(alloc);
    match item {
        Item::Nothing => {}
        Item::Value(value) => values.push(value)?,
        _ => return Err(TextError::Malformed),
    }
    Ok(values)
}

// The block that an item is, if it is one.
fn blocks_in(alloc: Global, item: Item) -> Result<Vec<Ptr<BasicBlock<Toy>>>, TextError> {
    let mut blocks = Vec::new(alloc);
    match item {
        Item::Nothing => {}
        Item::Block(block) => blocks.push(block)?,
        _ => return Err(TextError::Malformed),
    }
    Ok(blocks)
}

// The result's type, the operand and the successor that three items are, each of them if it is one.
fn lists_in(
    alloc: Global,
    ty: Item,
    value: Item,
    block: Item,
) -> Result<(Vec<TypeHandle>, Vec<Value<Toy>>, Vec<Ptr<BasicBlock<Toy>>>), TextError> {
    let types = types_in(alloc, ty)?;
    let operands = values_in(alloc, value)?;
    let successors = blocks_in(alloc, block)?;
    Ok((types, operands, successors))
}

/// `TYPE VALUE BLOCK`, each of which may be `-`: an operation of kind 4 with one such result, operand and successor.
pub(crate) fn new_op(lab: &mut Lab, call: &str, ty: Item, value: Item, block: Item) {
    match (call, lists_in(lab.alloc(), ty, value, block)) {
        ("operation::new", Ok((types, operands, successors))) => {
            let answer = operation::new(&mut lab.context, 4, &types, &operands, &successors, 0);
            tell_edit(lab, answer);
        }
        (_, Err(error)) => lab.text.fail(error),
        _ => lab.text.fail(TextError::Malformed),
    }
}
