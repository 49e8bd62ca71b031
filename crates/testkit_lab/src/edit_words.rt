//! Direct calls that change a context and are no edits of a session. Each is an arm of the `match` for what its fields name.

use crate::items::{Item, Items, items_of};
use crate::lab::{Lab, Mode};
use crate::telling::{tell_done, tell_name, tell_number};
use crate::{redirecting, setting};
use ir_base_dialects::Ptr;
use ir_checked_core::{basic_block, operation};
use ir_view_parts::{BasicBlock, Operation};
use testkit_edit_texts::TextError;
use toy_dialect::Toy;

/// Answers a line in a context: a word of the group `edit`, and its fields.
///
/// # Errors
/// `Malformed` where it is none or in a session, and `OutOfMemory`.
pub fn answer_edit(lab: &mut Lab, word: &str, rest: &str) -> Result<(), TextError> {
    match lab.mode {
        Mode::Session => Err(TextError::Malformed),
        Mode::Context => edit(lab, word, rest),
    }
}

// Answers a line in a context. The fields of the first words don't all name items.
fn edit(lab: &mut Lab, word: &str, rest: &str) -> Result<(), TextError> {
    match word {
        "edit.set_name" => setting::set_name(lab, rest),
        "edit.set_label" => setting::set_label(lab, rest),
        "edit.replace_some_uses_with" => redirecting::replace_some_uses_with(lab, rest),
        "edit.retarget_some_preds_to" => redirecting::retarget_some_preds_to(lab, rest),
        _ => {
            let items = items_of(lab, rest)?;
            edit_items(lab, word, items);
            Ok(())
        }
    }
}

fn edit_items(lab: &mut Lab, word: &str, items: Items) {
    match items {
        Items::One(Item::Op(op)) => edit_op(lab, word, op),
        Items::One(Item::Block(block)) => edit_block(lab, word, block),
        Items::Two(Item::Op(op), other) => edit_op_by(lab, word, op, other),
        _ => edit_other(lab, word, items),
    }
}

// `pop_result`, `pop_operand`, `pop_successor`: the last one goes. It answers what an operand or a successor named.
fn edit_op(lab: &mut Lab, word: &str, op: Ptr<Operation<Toy>>) {
    match word {
        "edit.pop_result" => {
            let answer = operation::pop_result(op, &mut lab.context);
            tell_done(&mut lab.text, answer);
        }
        "edit.pop_operand" => {
            let answer = operation::pop_operand(op, &mut lab.context);
            tell_name(lab, answer);
        }
        "edit.pop_successor" => {
            let answer = operation::pop_successor(op, &mut lab.context);
            tell_name(lab, answer);
        }
        "edit.lent_op" => setting::lent_op(lab, op),
        _ => lab.text.fail(TextError::Malformed),
    }
}

// `pop_argument`: its last argument goes.
fn edit_block(lab: &mut Lab, word: &str, block: Ptr<BasicBlock<Toy>>) {
    match word {
        "edit.pop_argument" => {
            let answer = basic_block::pop_argument(block, &mut lab.context);
            tell_done(&mut lab.text, answer);
        }
        "edit.take_label" => setting::label_block(lab, block, None),
        "edit.lent_block" => setting::lent_block(lab, block),
        _ => lab.text.fail(TextError::Malformed),
    }
}

// `push_operand OP VALUE`, `push_successor OP BLOCK`: it gets one behind the others, whose index is answered. `remove_operand OP INDEX`, `remove_successor OP INDEX`: the one there goes, and what it named is answered.
fn edit_op_by(lab: &mut Lab, word: &str, op: Ptr<Operation<Toy>>, other: Item) {
    match (word, other) {
        ("edit.push_operand", Item::Value(value)) => {
            let answer = operation::push_operand(op, &mut lab.context, value);
            tell_number(&mut lab.text, answer);
        }
        ("edit.push_successor", Item::Block(block)) => {
            let answer = operation::push_successor(op, &mut lab.context, block);
            tell_number(&mut lab.text, answer);
        }
        ("edit.remove_operand", Item::Number(index)) => {
            let answer = operation::remove_operand(op, &mut lab.context, index);
            tell_name(lab, answer);
        }
        ("edit.remove_successor", Item::Number(index)) => {
            let answer = operation::remove_successor(op, &mut lab.context, index);
            tell_name(lab, answer);
        }
        ("edit.set_op_loc", line) => setting::set_op_loc(lab, op, line),
        _ => lab.text.fail(TextError::Malformed),
    }
}

fn edit_other(lab: &mut Lab, word: &str, items: Items) {
    match (word, items) {
        ("edit.take_name", Items::One(Item::Value(value))) => {
            setting::name_value(lab, value, None);
        }
        ("edit.set_type", Items::Two(Item::Value(value), Item::Type(ty))) => {
            setting::set_type(lab, value, ty);
        }
        ("edit.set_block_loc", Items::Two(Item::Block(block), line)) => {
            setting::set_block_loc(lab, block, line);
        }
        ("edit.replace_use_with", Items::Two(Item::ValueUse(used), Item::Value(value))) => {
            redirecting::replace_use_with(lab, used, value);
        }
        ("edit.retarget_pred_to", Items::Two(Item::BlockUse(used), Item::Block(block))) => {
            redirecting::retarget_pred_to(lab, used, block);
        }
        _ => lab.text.fail(TextError::Malformed),
    }
}
