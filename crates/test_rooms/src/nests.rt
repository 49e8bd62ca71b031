//! Operations with blocks inside them, made by hand.

use ir_base_dialects::Ptr;
use ir_checked_core::prelude::{BasicBlock, Context, Operation, Value};
use ir_checked_core::{Call, CheckedErr, Condition, Unmet, basic_block, operation};
use toy_dialect::{Toy, ToyType};

pub type Checked<T> = Result<T, CheckedErr>;

pub type Op = Ptr<Operation<Toy>>;

pub type Block = Ptr<BasicBlock<Toy>>;

/// An operation with two results that names these values, in no block.
pub fn new_op(
    ctx: &mut Context<Toy>,
    kind: u32,
    operands: &[Value<Toy>],
    regions: usize,
) -> Checked<Op> {
    let ty = ctx.instantiate_key(ToyType::Int { width: 32 })?;
    operation::new(ctx, kind, &[ty, ty], operands, &[], regions)
}

/// An operation with two results that names these values, at the back of a block.
pub fn put(
    ctx: &mut Context<Toy>,
    block: Block,
    kind: u32,
    operands: &[Value<Toy>],
) -> Checked<Op> {
    let op = new_op(ctx, kind, operands, 0)?;
    operation::insert_at_back(op, block, ctx)?;
    Ok(op)
}

/// An operation in no block, with a region of one block.
pub fn nest(ctx: &mut Context<Toy>) -> Checked<(Op, Block)> {
    let op = new_op(ctx, 4, &[], 1)?;
    let region = operation::get_region(op, ctx, 0)?;
    let block = basic_block::new(ctx, None, &[])?;
    basic_block::insert_at_back(block, region, ctx)?;
    Ok((op, block))
}

/// Whether the block has these operations, in this order.
pub fn has_ops(ctx: &Context<Toy>, block: Block, expected: &[Op]) -> Checked<bool> {
    let mut ops = Vec::new(ctx.alloc());
    for op in basic_block::iter(block, ctx)? {
        ops.push(op)?;
    }
    Ok(ops.as_slice() == expected)
}

/// Whether a call was refused for this.
pub fn is_refused<T>(answer: &Checked<T>, call: Call, condition: Condition) -> bool {
    match answer {
        Err(CheckedErr::Unmet(unmet)) => *unmet == Unmet { call, condition },
        _ => false,
    }
}
