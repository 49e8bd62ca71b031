// Operations over Toy, built and printed.
use ir_checked_core::prelude::{BasicBlock, Context, Operation, Ptr, TypeHandle, Value};
use ir_checked_core::{basic_block, operation};
use ir_core_queries::OperationPtr;
use ir_text_describe::{Locations, describe};
use ir_text_spelling::spell;
use std::test::Fail;
use toy_dialect::{Toy, ToyType};
use toy_text::ToySpelling;

pub(crate) type Ctx = Context<Toy>;

pub(crate) type Op = Ptr<Operation<Toy>>;

pub(crate) type Block = Ptr<BasicBlock<Toy>>;

pub(crate) const CONSTANT: u32 = 0;

pub(crate) const ADD: u32 = 1;

pub(crate) const RETURN: u32 = 2;

pub(crate) const BRANCH: u32 = 3;

pub(crate) const USE: u32 = 4;

pub(crate) const MODULE: u32 = 5;

pub(crate) const FUNC: u32 = 6;

pub(crate) fn int(ctx: &mut Ctx, width: u32) -> Result<TypeHandle, Fail> {
    Ok(ctx.instantiate_key(ToyType::Int { width })?)
}

// An operation with so many results of type i32, at the back of a block.
pub(crate) fn put(
    ctx: &mut Ctx,
    block: Block,
    kind: u32,
    results: usize,
    operands: &[Value<Toy>],
    regions: usize,
) -> Result<Op, Fail> {
    let ty = int(ctx, 32)?;
    let op = operation::new(ctx, kind, &[], operands, &[], regions)?;
    for _ in 0..results {
        operation::push_result(op, ctx, ty)?;
    }
    operation::insert_at_back(op, block, ctx)?;
    Ok(op)
}

// A block with so many arguments of type i32, at the back of a region of an operation.
pub(crate) fn put_block(
    ctx: &mut Ctx,
    op: Op,
    region: usize,
    arguments: usize,
) -> Result<Block, Fail> {
    let ty = int(ctx, 32)?;
    let region = operation::get_region(op, ctx, region)?;
    let block = basic_block::new(ctx, None, &[])?;
    for _ in 0..arguments {
        basic_block::push_argument(block, ctx, ty)?;
    }
    basic_block::insert_at_back(block, region, ctx)?;
    Ok(block)
}

// An operation in no block, with so many regions.
pub(crate) fn root(ctx: &mut Ctx, kind: u32, regions: usize) -> Result<Op, Fail> {
    Ok(operation::new(ctx, kind, &[], &[], &[], regions)?)
}

pub(crate) fn result(ctx: &Ctx, op: Op, index: usize) -> Result<Value<Toy>, Fail> {
    Ok(operation::get_result(op, ctx, index)?)
}

pub(crate) fn argument(ctx: &Ctx, block: Block, index: usize) -> Result<Value<Toy>, Fail> {
    Ok(basic_block::get_argument(block, ctx, index)?)
}

// The text of an operation.
pub(crate) fn printed(ctx: &Ctx, op: Op, locations: Locations) -> Result<Vec<u8>, Fail> {
    if !op.is_live(ctx) {
        return Ok(Vec::new(ctx.alloc()));
    }
    let tree = describe(ctx.alloc(), ctx, op, &ToySpelling, locations)?;
    Ok(spell(ctx.alloc(), tree.text.as_slice(), tree.rows.as_slice())?)
}
