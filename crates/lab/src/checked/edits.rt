//! The words of calls that change a context, by what their fields name; other words go to those that ask.

use crate::checked::block_edits::{edit_block, edit_block_at, edit_of_blocks, new_block};
use crate::checked::op_edits::{edit_op, edit_op_at, edit_op_in, new_op};
use crate::checked::told::tell_edit;
use crate::checked::words::read;
use ir_base_dialects::{Identifier, Ptr, TypeHandle};
use ir_checked::passes;
use ir_checked_core::{operation, region as regions, types, value as values};
use ir_view_parts::{Context, Operation, Region, Use, Value};
use testkit_lab::{Item, Items, Lab, TextError, type_of};
use toy_dialect::Toy;

/// Answers a line in a context.
pub(crate) fn edit(lab: &mut Lab, call: &str, items: Items) {
    match items {
        Items::None => read(lab, call, items),
        Items::One(item) => edit_one(lab, call, item),
        Items::Two(item, other) => edit_two(lab, call, item, other),
        Items::Three(item, other, third) => edit_three(lab, call, item, other, third),
    }
}

fn edit_one(lab: &mut Lab, call: &str, item: Item) {
    match item {
        Item::Op(op) => edit_op(lab, call, op),
        Item::Block(block) => edit_block(lab, call, block),
        Item::Region(region) => edit_region(lab, call, region),
        Item::Value(value) => edit_value(lab, call, value),
        _ => edit_type(lab, call, item),
    }
}

fn edit_two(lab: &mut Lab, call: &str, item: Item, other: Item) {
    match (item, other) {
        (Item::Op(op), _) => edit_op_in(lab, call, op, other),
        (Item::Block(block), _) => edit_of_blocks(lab, call, block, other),
        (Item::Region(region), _) => edit_region_in(lab, call, region, other),
        (Item::Value(value), Item::Value(other)) => edit_values(lab, call, value, other),
        (Item::Value(value), _) => set_type(lab, call, value, other),
        _ => set_body(lab, call, item, other),
    }
}

fn edit_three(lab: &mut Lab, call: &str, item: Item, other: Item, third: Item) {
    match (item, other, third) {
        (Item::Op(op), Item::Number(index), _) => edit_op_at(lab, call, op, index, third),
        (Item::Block(block), _, _) => edit_block_at(lab, call, block, other, third),
        (Item::Value(value), Item::ValueUse(used), Item::Value(other)) => {
            replace_use(lab, call, value, used, other)
        }
        _ => new_op(lab, call, item, other, third),
    }
}

fn edit_region(lab: &mut Lab, call: &str, region: Ptr<Region>) {
    match call {
        "region::drop_all_uses" => {
            let answer = regions::drop_all_uses(region, &mut lab.context);
            tell_edit(lab, answer);
        }
        "passes::remove_unreached" => {
            let answer = passes::remove_unreached(region, &mut lab.context);
            tell_edit(lab, answer);
        }
        _ => read(lab, call, Items::One(Item::Region(region))),
    }
}

fn edit_region_in(lab: &mut Lab, call: &str, region: Ptr<Region>, other: Item) {
    match (call, other) {
        ("region::append_linked_list", Item::Region(other)) => {
            let answer = regions::append_linked_list(region, &mut lab.context, other);
            tell_edit(lab, answer);
        }
        ("region::move_to_op", Item::Op(op)) => {
            let answer = regions::move_to_op(region, op, &mut lab.context);
            tell_edit(lab, answer);
        }
        _ => lab.text.fail(TextError::Malformed),
    }
}

// A value gets the name `named`.
fn edit_value(lab: &mut Lab, call: &str, value: Value<Toy>) {
    match call {
        "value::set_name" => match Box::new(lab.alloc(), Identifier::new("named")) {
            Ok(name) => {
                let answer = values::set_name(value, &mut lab.context, Some(name));
                tell_edit(lab, answer);
            }
            Err(_) => lab.text.fail(TextError::OutOfMemory),
        },
        _ => read(lab, call, Items::One(Item::Value(value))),
    }
}

fn edit_values(lab: &mut Lab, call: &str, value: Value<Toy>, other: Value<Toy>) {
    match call {
        "value::replace_all_uses_with" => {
            let answer = values::replace_all_uses_with(value, &mut lab.context, other);
            tell_edit(lab, answer);
        }
        // All uses are chosen.
        "value::replace_some_uses_with" => {
            let answer = values::replace_some_uses_with(
                value,
                &mut lab.context,
                |_shown: &Context<Toy>, _used: Use<Value<Toy>>| true,
                other,
            );
            tell_edit(lab, answer);
        }
        _ => lab.text.fail(TextError::Malformed),
    }
}

fn replace_use(
    lab: &mut Lab,
    call: &str,
    value: Value<Toy>,
    used: Use<Value<Toy>>,
    other: Value<Toy>,
) {
    match call {
        "value::replace_use_with" => {
            let answer = values::replace_use_with(value, &mut lab.context, used, other);
            tell_edit(lab, answer);
        }
        _ => lab.text.fail(TextError::Malformed),
    }
}

fn set_type(lab: &mut Lab, call: &str, value: Value<Toy>, ty: Item) {
    match (call, type_of(ty)) {
        ("value::set_type", Ok(ty)) => {
            let answer = values::set_type(value, &mut lab.context, ty);
            tell_edit(lab, answer);
        }
        _ => lab.text.fail(TextError::Malformed),
    }
}

// A block with one argument of a type.
fn edit_type(lab: &mut Lab, call: &str, item: Item) {
    match (call, type_of(item)) {
        ("basic_block::new", Ok(ty)) => new_block(lab, ty),
        _ => read(lab, call, Items::One(item)),
    }
}

// `TYPE OTHER`: the other one becomes the body.
fn set_body(lab: &mut Lab, call: &str, item: Item, other: Item) {
    match (call, type_of(item), type_of(other)) {
        ("types::set_body", Ok(ty), Ok(body)) => {
            let answer = types::set_body(ty, &mut lab.context, Some(body));
            tell_edit(lab, answer);
        }
        _ => read(lab, call, Items::Two(item, other)),
    }
}
