//! What was made, entered into the tables.

use crate::tables::Tables;
use ir_base_dialects::{Answer, Ptr, TypeHandle};
use ir_run_sessions::Session;
use ir_view_parts::{BasicBlock, BlockPtr, Context, Operation, OperationPtr, Region, Value};
use std::alloc::AllocError;
use toy_dialect::Toy;

/// What a call made.
#[derive(Clone, Copy, Drop)]
pub(crate) enum Made {
    /// Nothing.
    Nothing,
    /// A type, or one that was there.
    Type(TypeHandle),
    /// An operation, with results and regions.
    Op(Ptr<Operation<Toy>>),
    /// A block, with arguments.
    Block(Ptr<BasicBlock<Toy>>),
    /// A region.
    Region(Ptr<Region>),
    /// A result or an argument.
    Value(Value<Toy>),
}

/// Enters what was made, and answers its number.
///
/// # Errors
/// Where a growth was refused.
pub(crate) fn enter(
    ctx: &Context<Toy>,
    tables: &mut Tables,
    made: Made,
) -> Result<Answer, AllocError> {
    match made {
        Made::Nothing => Ok(Answer::Done),
        Made::Type(ty) => push(&mut tables.types, ty),
        Made::Op(op) => enter_op(ctx, tables, op),
        Made::Block(block) => enter_block(ctx, tables, block),
        Made::Region(region) => push(&mut tables.regions, region),
        Made::Value(value) => push(&mut tables.values, value),
    }
}

/// Puts an item behind a table, and answers its number.
///
/// # Errors
/// Where a growth was refused.
pub(crate) fn push<T: Copy + Drop>(table: &mut Vec<T>, item: T) -> Result<Answer, AllocError> {
    let number = table.len();
    table.push(item)?;
    Ok(Answer::Made(number))
}

// Enters an operation with its results and regions.
fn enter_op(
    ctx: &Context<Toy>,
    tables: &mut Tables,
    op: Ptr<Operation<Toy>>,
) -> Result<Answer, AllocError> {
    if let Ok(record) = op.try_deref(ctx) {
        for index in 0..record.get_num_results() {
            tables.values.push(record.get_result(index))?;
        }
        for index in 0..record.num_regions() {
            tables.regions.push(record.get_region(index))?;
        }
    }
    push(&mut tables.ops, op)
}

// Enters a block with its arguments.
fn enter_block(
    ctx: &Context<Toy>,
    tables: &mut Tables,
    block: Ptr<BasicBlock<Toy>>,
) -> Result<Answer, AllocError> {
    if let Ok(record) = block.try_deref(ctx) {
        for index in 0..record.get_num_arguments() {
            tables.values.push(record.get_argument(index))?;
        }
    }
    push(&mut tables.blocks, block)
}

/// Enters what the session has beside the entries that are there.
///
/// # Errors
/// Where a growth was refused.
pub(crate) fn read_session(tables: &mut Tables, session: &Session<Toy>) -> Result<(), AllocError> {
    read_types(&mut tables.types, session)?;
    read_ops(&mut tables.ops, session)?;
    read_blocks(&mut tables.blocks, session)?;
    read_regions(&mut tables.regions, session)?;
    read_values(&mut tables.values, session)
}

fn read_types(table: &mut Vec<TypeHandle>, session: &Session<Toy>) -> Result<(), AllocError> {
    for number in table.len()..usize::MAX {
        match session.ty(number) {
            Some(ty) => table.push(ty)?,
            None => break,
        }
    }
    Ok(())
}

fn read_ops(
    table: &mut Vec<Ptr<Operation<Toy>>>,
    session: &Session<Toy>,
) -> Result<(), AllocError> {
    for number in table.len()..usize::MAX {
        match session.op(number) {
            Some(op) => table.push(op)?,
            None => break,
        }
    }
    Ok(())
}

fn read_blocks(
    table: &mut Vec<Ptr<BasicBlock<Toy>>>,
    session: &Session<Toy>,
) -> Result<(), AllocError> {
    for number in table.len()..usize::MAX {
        match session.block(number) {
            Some(block) => table.push(block)?,
            None => break,
        }
    }
    Ok(())
}

fn read_regions(table: &mut Vec<Ptr<Region>>, session: &Session<Toy>) -> Result<(), AllocError> {
    for number in table.len()..usize::MAX {
        match session.region(number) {
            Some(region) => table.push(region)?,
            None => break,
        }
    }
    Ok(())
}

fn read_values(table: &mut Vec<Value<Toy>>, session: &Session<Toy>) -> Result<(), AllocError> {
    for number in table.len()..usize::MAX {
        match session.value(number) {
            Some(value) => table.push(value)?,
            None => break,
        }
    }
    Ok(())
}
