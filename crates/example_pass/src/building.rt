//! The function that is folded.

use ir_checked::error::CheckedErr;
use ir_checked::prelude::{self as ir, Identifier, Ptr, TypeHandle, Value};
use ir_checked::{basic_block, operation, value};
use ir_run::toy::{Toy, ToyInt, ToyType};

pub type Context = ir::Context<Toy>;

pub type Op = Ptr<ir::Operation<Toy>>;

pub type Block = Ptr<ir::BasicBlock<Toy>>;

pub type Checked<T> = Result<T, CheckedErr>;

pub const CONSTANT: u32 = 0;

pub const ADD: u32 = 1;

/// A constant, in no block yet.
pub fn constant(ctx: &mut Context, ty: TypeHandle, value: i64) -> Checked<Op> {
    let op = operation::new(ctx, CONSTANT, &[ty], &[], &[], 0)?;
    let attributes = &mut operation::deref_mut(ctx, op)?.attributes;
    attributes.set(Identifier::new("value"), ToyInt { value, ty })?;
    Ok(op)
}

/// The sum of two values, at the back of a block.
fn add(ctx: &mut Context, block: Block, a: Value<Toy>, b: Value<Toy>) -> Checked<Value<Toy>> {
    let ty = value::get_type(a, ctx)?;
    let op = operation::new(ctx, ADD, &[ty], &[a, b], &[], 0)?;
    operation::insert_at_back(op, block, ctx)?;
    operation::get_result(op, ctx, 0)
}

/// Fills a block with x + (n + n), which its last operation names; x is its argument.
fn fill(ctx: &mut Context, block: Block, n: i64, end: u32, to: &[Block]) -> Checked<()> {
    let x = basic_block::get_argument(block, ctx, 0)?;
    let ty = value::get_type(x, ctx)?;
    let number = constant(ctx, ty, n)?;
    operation::insert_at_back(number, block, ctx)?;
    let n = operation::get_result(number, ctx, 0)?;
    let twice = add(ctx, block, n, n)?;
    let sum = add(ctx, block, x, twice)?;
    let last = operation::new(ctx, end, &[], &[sum], to, 0)?;
    operation::insert_at_back(last, block, ctx)
}

/// A function whose block `entry` goes on to `exit`.
pub fn function(ctx: &mut Context) -> Checked<Op> {
    let [kind, branch, answer] = [6, 3, 2];
    let func = operation::new(ctx, kind, &[], &[], &[], 1)?;
    let region = operation::get_region(func, ctx, 0)?;
    let i32 = ctx.instantiate_key(ToyType::Int { width: 32 })?;
    let entry = basic_block::new(ctx, Some(Identifier::new("entry")), &[i32])?;
    let exit = basic_block::new(ctx, Some(Identifier::new("exit")), &[i32])?;
    basic_block::insert_at_back(entry, region, ctx)?;
    basic_block::insert_at_back(exit, region, ctx)?;
    fill(ctx, entry, 5, branch, &[exit])?;
    fill(ctx, exit, 4, answer, &[])?;
    Ok(func)
}
