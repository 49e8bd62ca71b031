//! Lists of uses, by their places in the order of the table of operations.

use ir_base_dialects::Ptr;
use ir_checked_core::CheckedErr;
use ir_view_parts::{
    BasicBlock, BlockPtr, BlockUses, Context, Operation, OperationParts, OperationPtr, ResultUses,
    Use, Value, ValueQueries,
};
use testkit_lab::{Lab, Placed, Reply, tell_condition, tell_refused};
use toy_dialect::Toy;

/// `VALUE`: how many uses it has, and their places.
pub(crate) fn of_value(text: &mut Reply, lab: &Lab, value: Value<Toy>) {
    let ctx = lab.ctx();
    if value.is_live(ctx) {
        match value.uses(ctx) {
            Ok(uses) => write_operands(text, lab, &uses),
            Err(error) => tell_refused(text, CheckedErr::Core(error)),
        }
    } else {
        tell_condition(text);
    }
}

fn write_operands(text: &mut Reply, lab: &Lab, uses: &[Use<Value<Toy>>]) {
    text.show("len ", uses.len());
    for op in &lab.tables.ops {
        write_operands_of(text, lab, *op, uses);
    }
}

// Writes the places of those operands that are among the uses.
fn write_operands_of(
    text: &mut Reply,
    lab: &Lab,
    op: Ptr<Operation<Toy>>,
    uses: &[Use<Value<Toy>>],
) {
    if let Ok(record) = op.try_deref(lab.ctx()) {
        for used in record.operands_as_uses() {
            if uses.contains(&used) {
                text.show(" ", used.place(lab));
            }
        }
    }
}

/// `BLOCK`: how many successors name it, and their places.
pub(crate) fn of_block(text: &mut Reply, lab: &Lab, block: Ptr<BasicBlock<Toy>>) {
    let ctx = lab.ctx();
    if block.is_live(ctx) {
        match block.uses(ctx) {
            Ok(uses) => write_successors(text, lab, &uses),
            Err(error) => tell_refused(text, CheckedErr::Core(error)),
        }
    } else {
        tell_condition(text);
    }
}

fn write_successors(text: &mut Reply, lab: &Lab, uses: &[Use<Ptr<BasicBlock<Toy>>>]) {
    text.show("len ", uses.len());
    for op in &lab.tables.ops {
        write_successors_of(text, lab, *op, uses);
    }
}

// Writes the places of those successors that are among the uses.
fn write_successors_of(
    text: &mut Reply,
    lab: &Lab,
    op: Ptr<Operation<Toy>>,
    uses: &[Use<Ptr<BasicBlock<Toy>>>],
) {
    if let Ok(record) = op.try_deref(lab.ctx()) {
        for used in record.successors_as_uses() {
            if uses.contains(&used) {
                text.show(" ", used.place(lab));
            }
        }
    }
}

/// `OP`: how many uses its results have as they are walked, and their places.
pub(crate) fn of_op(text: &mut Reply, lab: &Lab, op: Ptr<Operation<Toy>>) {
    match walked(lab.ctx(), op) {
        Some(count) => {
            text.show("len ", count);
            for user in &lab.tables.ops {
                write_uses_by(text, lab, op, *user);
            }
        }
        None => tell_condition(text),
    }
}

// How many uses the results of an operation have as they are walked; none where it isn't live.
fn walked(ctx: &Context<Toy>, op: Ptr<Operation<Toy>>) -> Option<usize> {
    if op.is_live(ctx) {
        let mut count = 0usize;
        for _used in op.uses(ctx) {
            count = count.saturating_add(1);
        }
        Some(count)
    } else {
        None
    }
}

// Writes the places of those operands of the user that are among the uses of the operation's results.
fn write_uses_by(text: &mut Reply, lab: &Lab, op: Ptr<Operation<Toy>>, user: Ptr<Operation<Toy>>) {
    if let Ok(record) = user.try_deref(lab.ctx()) {
        for used in record.operands_as_uses() {
            if is_use_of(lab.ctx(), op, used) {
                text.show(" ", used.place(lab));
            }
        }
    }
}

// Whether the use is among those of the operation's results.
fn is_use_of(ctx: &Context<Toy>, op: Ptr<Operation<Toy>>, used: Use<Value<Toy>>) -> bool {
    let mut found = false;
    if op.is_live(ctx) {
        for other in op.uses(ctx) {
            if other == used {
                found = true;
            }
        }
    }
    found
}
