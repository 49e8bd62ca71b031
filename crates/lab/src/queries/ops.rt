//! What is read of an operation.

use crate::queries::{nesting, parts, uses, walks};
use ir_base_dialects::Ptr;
use ir_checked_core::operation;
use ir_view_parts::{Context, Entity, Operation, OperationPlace, OperationPtr, ResultUses};
use testkit_lab::{Lab, Line, Name, Named, Placed, Reply, name_of, tell_condition};
use toy_dialect::Toy;

/// The words with an operation alone.
pub(crate) fn ask(text: &mut Reply, lab: &Lab, word: &str, op: Ptr<Operation<Toy>>) {
    match word {
        "op.read" => read(text, lab, op),
        "op.place" => place(text, lab, op),
        "op.operand_types" => parts::operand_types(text, lab, op),
        "op.uses" => uses::of_op(text, lab, op),
        "nest.handle" => nesting::write_op(text, lab, op),
        "nest.listed" => walks::listed(text, lab, Entity::Op(op)),
        _ => nesting::ask(text, lab, word, Entity::Op(op)),
    }
}

// `OP`: its kind, how many parts it has, how its results are used, its location and how many attributes it has.
fn read(text: &mut Reply, lab: &Lab, op: Ptr<Operation<Toy>>) {
    match op.try_deref(lab.ctx()) {
        Ok(record) => {
            write_counts(text, record);
            write_rest(text, lab.ctx(), op);
        }
        Err(fault) => text.show("", fault),
    }
}

fn write_counts(text: &mut Reply, op: &Operation<Toy>) {
    text.show("kind ", op.kind());
    text.show(" results ", op.get_num_results());
    text.show(" operands ", op.get_num_operands());
    text.show(" successors ", op.get_num_successors());
    text.show(" regions ", op.num_regions());
}

// Writes how the results are used, the location and how many attributes there are.
fn write_rest(text: &mut Reply, ctx: &Context<Toy>, op: Ptr<Operation<Toy>>) {
    if op.is_live(ctx) {
        let record = op.deref(ctx);
        text.show(" has_use ", op.has_use(ctx));
        text.show(" num_uses ", op.num_uses(ctx));
        text.show(" loc ", Line(*record.loc()));
        text.show(" attributes ", record.attributes().len());
    } else {
        tell_condition(text);
    }
}

// `OP`: what it stands in, and its neighbours there.
fn place(text: &mut Reply, lab: &Lab, op: Ptr<Operation<Toy>>) {
    let ctx = lab.ctx();
    if op.is_live(ctx) {
        let block = operation::get_parent_block(op, ctx).unwrap_or(None);
        text.show("block ", name_of(lab, block));
        text.show(" region ", name_of(lab, op.get_parent_region(ctx)));
        text.show(" op ", name_of(lab, op.get_parent_op(ctx)));
        text.show(" linked ", op.is_linked(ctx));
        text.show(" prev ", name_of(lab, op.get_prev(ctx)));
        let next = operation::get_next(op, ctx).unwrap_or(None);
        text.show(" next ", name_of(lab, next));
    } else {
        tell_condition(text);
    }
}

/// `OP INDEX`: its result there with the type of this, its operand, its successor and its region, and the operand and the successor as uses.
pub(crate) fn at(text: &mut Reply, lab: &Lab, op: Ptr<Operation<Toy>>, index: usize) {
    match op.try_deref(lab.ctx()) {
        Ok(record) => {
            write_parts(text, lab, op, index);
            write_uses(text, lab, record, index);
        }
        Err(fault) => text.show("", fault),
    }
}

fn write_parts(text: &mut Reply, lab: &Lab, op: Ptr<Operation<Toy>>, index: usize) {
    let ctx = lab.ctx();
    let result = operation::get_result(op, ctx, index).ok();
    text.show("result ", name_of(lab, result));
    let operand = operation::get_operand(op, ctx, index).ok();
    text.show(" operand ", name_of(lab, operand));
    let successor = operation::get_successor(op, ctx, index).ok();
    text.show(" successor ", name_of(lab, successor));
    let region = operation::get_region(op, ctx, index).ok();
    text.show(" region ", name_of(lab, region));
}

// Writes the type of the result, and where the operand and the successor stand as uses.
fn write_uses(text: &mut Reply, lab: &Lab, op: &Operation<Toy>, index: usize) {
    text.show(" type ", type_at(lab, op, index));
    text.show(" operand_use ", operand_at(lab, op, index));
    text.show(" successor_use ", successor_at(lab, op, index));
}

fn type_at(lab: &Lab, op: &Operation<Toy>, index: usize) -> Name {
    if index < op.get_num_results() {
        op.get_type(index).name(lab)
    } else {
        Name::Nothing
    }
}

fn operand_at(lab: &Lab, op: &Operation<Toy>, index: usize) -> Name {
    if index < op.get_num_operands() {
        op.get_operand_as_use(index).place(lab)
    } else {
        Name::Nothing
    }
}

fn successor_at(lab: &Lab, op: &Operation<Toy>, index: usize) -> Name {
    if index < op.get_num_successors() {
        op.get_successor_as_use(index).place(lab)
    } else {
        Name::Nothing
    }
}
