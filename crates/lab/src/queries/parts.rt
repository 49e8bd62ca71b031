//! Parts in order, walked from both ends.

use ir_base_dialects::Ptr;
use ir_view_parts::{
    BasicBlock, BlockParts, BlockPtr, HasParts, Operation, OperationParts, OperationPtr, Parts,
};
use std::alloc::AllocError;
use testkit_lab::{Item, Items, Lab, Named, Reply, TextError, items_of, two};
use toy_dialect::Toy;

/// `OP PARTS`, `BLOCK PARTS`: so many there are, and the walks over them.
pub(crate) fn read(text: &mut Reply, lab: &Lab, word: &str, rest: &str) {
    match two(rest) {
        Ok((whole, parts)) => read_of(text, lab, word, items_of(lab, whole), parts),
        Err(error) => text.fail(error),
    }
}

fn read_of(text: &mut Reply, lab: &Lab, word: &str, whole: Result<Items, TextError>, parts: &str) {
    match (word, whole) {
        ("op.parts", Ok(Items::One(Item::Op(op)))) => of_op(text, lab, op, parts),
        ("block.parts", Ok(Items::One(Item::Block(block)))) => of_block(text, lab, block, parts),
        _ => text.fail(TextError::Malformed),
    }
}

fn of_op(text: &mut Reply, lab: &Lab, op: Ptr<Operation<Toy>>, parts: &str) {
    match (op.try_deref(lab.ctx()), parts) {
        (Ok(op), "results") => write_parts(text, lab, op.results()),
        (Ok(op), "result_types") => write_parts(text, lab, op.result_types()),
        (Ok(op), "operands") => write_parts(text, lab, op.operands()),
        (Ok(op), "operands_as_uses") => write_parts(text, lab, op.operands_as_uses()),
        (Ok(op), "successors") => write_parts(text, lab, op.successors()),
        (Ok(op), "successors_as_uses") => write_parts(text, lab, op.successors_as_uses()),
        (Ok(op), "regions") => write_parts(text, lab, op.regions()),
        (Ok(_), _) => text.fail(TextError::Malformed),
        (Err(fault), _) => text.show("", fault),
    }
}

fn of_block(text: &mut Reply, lab: &Lab, block: Ptr<BasicBlock<Toy>>, parts: &str) {
    match (block.try_deref(lab.ctx()), parts) {
        (Ok(block), "arguments") => write_parts(text, lab, block.arguments()),
        (Ok(block), "argument_types") => write_parts(text, lab, block.argument_types()),
        (Ok(_), _) => text.fail(TextError::Malformed),
        (Err(fault), _) => text.show("", fault),
    }
}

/// `OP`: the same of the types of its operands.
pub(crate) fn operand_types(text: &mut Reply, lab: &Lab, op: Ptr<Operation<Toy>>) {
    let ctx = lab.ctx();
    match op.try_deref(ctx) {
        Ok(record) => write_parts(text, lab, record.operand_types(ctx)),
        Err(fault) => text.show("", fault),
    }
}

// Writes how many parts there are, and them from the front on and from the back on. A copy of a walk takes no memory.
fn write_parts<V, T: Named, S: HasParts<V, Item = T>>(
    text: &mut Reply,
    lab: &Lab,
    parts: Parts<V, S>,
) {
    let (least, most) = parts.size_hint();
    text.show("len ", parts.len());
    text.show(" hint ", least);
    text.show(" ", most.unwrap_or(usize::MAX));
    text.say(" forward");
    write_forward(text, lab, parts.clone());
    text.say(" backward");
    write_backward(text, lab, parts);
}

fn write_forward<V, T: Named, S: HasParts<V, Item = T>>(
    text: &mut Reply,
    lab: &Lab,
    parts: Result<Parts<V, S>, AllocError>,
) {
    match parts {
        Ok(parts) => {
            for part in parts {
                text.show(" ", part.name(lab));
            }
        }
        Err(_) => text.fail(TextError::OutOfMemory),
    }
}

fn write_backward<V, T: Named, S: HasParts<V, Item = T>>(
    text: &mut Reply,
    lab: &Lab,
    parts: Parts<V, S>,
) {
    for part in parts.rev() {
        text.show(" ", part.name(lab));
    }
}
