//! Constants folded, and what is dead swept, over all that is inside an operation.

use crate::building::{ADD, CONSTANT, Checked, Context, Op, constant};
use ir_checked::prelude::{Identifier, Value};
use ir_checked::{operation, passes, value};
use ir_core::prelude::*;
use ir_rewrite::{DummyListener, Pattern, Rewriter, rewrite};
use ir_run::toy::{Toy, ToyInt};
use ir_view::prelude::*;

/// The number that a value is, where it is the result of a constant.
fn number(ctx: &Context, value: Value<Toy>) -> Option<i64> {
    let record = value.defining_op()?.try_deref(ctx).ok()?;
    let number: &ToyInt = record.attributes().get(&Identifier::new("value"))?;
    (record.kind() == CONSTANT).then_some(number.value)
}

/// The sum of the operands, where the operation adds two constants.
fn sum(ctx: &Context, op: Op) -> Option<i64> {
    let record = op.try_deref(ctx).ok()?;
    let mut operands = record.operands().filter(|_| record.kind() == ADD);
    let left = number(ctx, operands.next()?)?;
    left.checked_add(number(ctx, operands.next()?)?)
}

/// Puts a constant in the place of a sum of two.
#[derive(Drop)]
struct Folding;

impl Pattern<Toy> for Folding {
    fn rewrite(&self, ctx: &mut Context, rewriter: &mut Rewriter<Toy>, op: &Op) -> Checked<bool> {
        let Some(sum) = sum(ctx, *op) else {
            return Ok(false);
        };
        let ty = value::get_type(operation::get_result(*op, ctx, 0)?, ctx)?;
        let folded = constant(ctx, ty, sum)?;
        rewriter.insert(folded, ctx)?;
        let number = operation::get_result(folded, ctx, 0)?;
        rewriter.replace_op(*op, ctx, &[number])?;
        Ok(true)
    }
}

/// Folds all sums inside an operation and sweeps what is dead, and answers how many sums and how many operations went.
pub fn fold(ctx: &mut Context, op: Op) -> Checked<(usize, usize)> {
    let mut folded = 0usize;
    if op.is_live(ctx) {
        folded = rewrite(ctx, op, &[Folding], 1000, &mut DummyListener)?.steps;
    }
    let swept = passes::sweep_inside(op, ctx)?;
    Ok((folded, folded.saturating_add(swept)))
}
