//! Uses that are entered into the tables of a lab.

use ir_base_dialects::Ptr;
use ir_view_parts::{BasicBlock, Context, Operation, OperationPtr, Use, Value};
use testkit_lab::{Item, Items, Lab, NOWHERE, Reply, TextError, items_of, number_in};
use toy_dialect::Toy;

/// Answers a line that enters uses.
pub(crate) fn take(lab: &mut Lab, word: &str, rest: &str) {
    let items = items_of(lab, rest);
    match (word, items) {
        ("use.operands", Ok(Items::One(Item::Op(op)))) => operands(lab, op),
        ("use.successors", Ok(Items::One(Item::Op(op)))) => successors(lab, op),
        _ => lab.text.fail(TextError::Malformed),
    }
}

// Writes the number of the use in the table, behind which it is put where it isn't there.
fn enter<T: Copy + PartialEq + Drop>(text: &mut Reply, words: &str, table: &mut Vec<T>, used: T) {
    match number_in(table, used) {
        NOWHERE => {
            let number = table.len();
            match table.push(used) {
                Ok(()) => text.show(words, number),
                Err(_) => text.fail(TextError::OutOfMemory),
            }
        }
        number => text.show(words, number),
    }
}

fn operand_at(
    ctx: &Context<Toy>,
    op: Ptr<Operation<Toy>>,
    index: usize,
) -> Option<Use<Value<Toy>>> {
    match op.try_deref(ctx) {
        Ok(record) => {
            if index < record.get_num_operands() {
                Some(record.get_operand_as_use(index))
            } else {
                None
            }
        }
        Err(_) => None,
    }
}

// `OP`: its operands as uses, each of which is entered where it isn't there.
fn operands(lab: &mut Lab, op: Ptr<Operation<Toy>>) {
    lab.text.say("uses");
    for index in 0..usize::MAX {
        match operand_at(lab.ctx(), op, index) {
            Some(used) => enter(&mut lab.text, " u", &mut lab.value_uses, used),
            None => break,
        }
    }
}

fn successor_at(
    ctx: &Context<Toy>,
    op: Ptr<Operation<Toy>>,
    index: usize,
) -> Option<Use<Ptr<BasicBlock<Toy>>>> {
    match op.try_deref(ctx) {
        Ok(record) => {
            if index < record.get_num_successors() {
                Some(record.get_successor_as_use(index))
            } else {
                None
            }
        }
        Err(_) => None,
    }
}

// `OP`: its successors as uses, each of which is entered where it isn't there.
fn successors(lab: &mut Lab, op: Ptr<Operation<Toy>>) {
    lab.text.say("uses");
    for index in 0..usize::MAX {
        match successor_at(lab.ctx(), op, index) {
            Some(used) => enter(&mut lab.text, " w", &mut lab.block_uses, used),
            None => break,
        }
    }
}
