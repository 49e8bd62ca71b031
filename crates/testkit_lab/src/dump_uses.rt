//! The places that name a value or a block, each as the number of an operation and an index there, sorted.

use crate::tables::{NOWHERE, Tables};
use ir_base_dialects::{CoreError, Ptr};
use ir_core_queries::{
    BasicBlock, BlockPtr, BlockUseQueries, BlockUses, Context, Use, UseQueries, Value, ValueQueries,
};
use toy_dialect::Toy;

// The index of the operand that a use is of.
fn operand_index(ctx: &Context<Toy>, used: Use<Value<Toy>>) -> usize {
    match used.try_find_index(ctx) {
        Ok(index) => index,
        Err(_) => NOWHERE,
    }
}

// The index of the successor that a use is of.
fn successor_index(ctx: &Context<Toy>, used: Use<Ptr<BasicBlock<Toy>>>) -> usize {
    match used.try_find_index(ctx) {
        Ok(index) => index,
        Err(_) => NOWHERE,
    }
}

// Puts the places of uses of a value behind the others.
fn add_operands(
    places: &mut Vec<(usize, usize)>,
    ctx: &Context<Toy>,
    tables: &Tables,
    uses: &[Use<Value<Toy>>],
) -> Result<(), CoreError> {
    for used in uses {
        let user = tables.op_number(used.user_op());
        places.push((user, operand_index(ctx, *used)))?;
    }
    Ok(())
}

// Puts the places of uses of a block behind the others.
fn add_successors(
    places: &mut Vec<(usize, usize)>,
    ctx: &Context<Toy>,
    tables: &Tables,
    uses: &[Use<Ptr<BasicBlock<Toy>>>],
) -> Result<(), CoreError> {
    for used in uses {
        let user = tables.op_number(used.user_op());
        places.push((user, successor_index(ctx, *used)))?;
    }
    Ok(())
}

// The uses of a value, where it is live.
fn uses_of_value(ctx: &Context<Toy>, value: Value<Toy>) -> Result<Vec<Use<Value<Toy>>>, CoreError> {
    if !value.is_live(ctx) {
        return Ok(Vec::new(ctx.alloc()));
    }
    Ok(value.uses(ctx)?)
}

// The uses of a block, where it is live.
fn uses_of_block(
    ctx: &Context<Toy>,
    block: Ptr<BasicBlock<Toy>>,
) -> Result<Vec<Use<Ptr<BasicBlock<Toy>>>>, CoreError> {
    if !block.is_live(ctx) {
        return Ok(Vec::new(ctx.alloc()));
    }
    Ok(block.uses(ctx)?)
}

/// The places that name a value.
pub(crate) fn value_places(
    ctx: &Context<Toy>,
    tables: &Tables,
    value: Value<Toy>,
) -> Result<Vec<(usize, usize)>, CoreError> {
    let uses = uses_of_value(ctx, value)?;
    let mut places = Vec::new(ctx.alloc());
    add_operands(&mut places, ctx, tables, uses.as_slice())?;
    places.sort()?;
    Ok(places)
}

/// The places that name a block.
pub(crate) fn block_places(
    ctx: &Context<Toy>,
    tables: &Tables,
    block: Ptr<BasicBlock<Toy>>,
) -> Result<Vec<(usize, usize)>, CoreError> {
    let uses = uses_of_block(ctx, block)?;
    let mut places = Vec::new(ctx.alloc());
    add_successors(&mut places, ctx, tables, uses.as_slice())?;
    places.sort()?;
    Ok(places)
}

/// How many uses a value has, and whether it is said to be used.
pub(crate) fn value_count(ctx: &Context<Toy>, value: Value<Toy>) -> (usize, bool) {
    if !value.is_live(ctx) {
        return (0, false);
    }
    (value.num_uses(ctx), value.is_used(ctx))
}

/// How many uses a block has, and whether it is said to have one.
pub(crate) fn block_count(ctx: &Context<Toy>, block: Ptr<BasicBlock<Toy>>) -> (usize, bool) {
    if !block.is_live(ctx) {
        return (0, false);
    }
    (block.num_preds(ctx), block.has_pred(ctx))
}
