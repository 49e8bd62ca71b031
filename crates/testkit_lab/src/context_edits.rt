//! Edits carried out by direct calls of a context.

use crate::entering::{Made, enter};
use crate::finding::{Unmade, both, entry, picked};
use crate::settled_edits::carry_out_settled;
use crate::tables::Tables;
use ir_base_dialects::{Answer, CoreError, Identifier, Ptr, Refused, TypeHandle};
use ir_checked_core::{CheckedErr, basic_block, operation};
use ir_run_sessions::Edit;
use ir_view_parts::{BasicBlock, Context, Operation, Region};
use testkit_edit_texts::TextError;
use toy_dialect::{Toy, ToyType};

/// Carries an edit out, and answers it as a session does.
///
/// # Errors
/// `OutOfMemory`, where what was made can't be entered.
pub(crate) fn carry_out(
    ctx: &mut Context<Toy>,
    tables: &mut Tables,
    edit: Edit<Toy>,
) -> Result<Answer, TextError> {
    match step(ctx, tables, edit) {
        Ok(made) => Ok(enter(ctx, tables, made)?),
        Err(Unmade::NoEntry) => Ok(Answer::Refused(Refused::Condition)),
        Err(Unmade::Checked(error)) => Ok(Answer::Refused(refused(error))),
    }
}

/// Why a direct call was refused, as a session says it.
pub(crate) fn refused(error: CheckedErr) -> Refused {
    match error {
        CheckedErr::Unmet(_) => Refused::Condition,
        CheckedErr::Core(CoreError::OutOfMemory) => Refused::Memory,
        CheckedErr::Core(CoreError::CounterSpent) => Refused::Counter,
        CheckedErr::Core(CoreError::SlotsSpent) => Refused::Slots,
    }
}

// The type with this key.
fn new_type(ctx: &mut Context<Toy>, key: ToyType) -> Result<Made, Unmade> {
    match ctx.instantiate_key(key) {
        Ok(ty) => Ok(Made::Type(ty)),
        Err(error) => Err(Unmade::Checked(CheckedErr::Core(error))),
    }
}

// Carries an edit out.
fn step(ctx: &mut Context<Toy>, tables: &Tables, edit: Edit<Toy>) -> Result<Made, Unmade> {
    match edit {
        Edit::NewType(key) => new_type(ctx, key),
        Edit::NewOp {
            kind,
            types,
            operands,
            successors,
            regions,
        } => new_op(ctx, tables, kind, [&types, &operands, &successors], regions),
        Edit::NewBlock { label, types } => new_block(ctx, tables, label, &types),
        Edit::AddRegion { op } => match entry(&tables.ops, op) {
            Some(op) => made_region(operation::add_region(op, ctx)),
            None => Err(Unmade::NoEntry),
        },
        other => add_definition(ctx, tables, &other),
    }
}

// Adds a result or an argument, or carries an edit out that adds nothing.
fn add_definition(
    ctx: &mut Context<Toy>,
    tables: &Tables,
    edit: &Edit<Toy>,
) -> Result<Made, Unmade> {
    match *edit {
        Edit::PushResult { op, ty } => match both(&tables.ops, op, &tables.types, ty) {
            Some((op, ty)) => push_result(ctx, op, ty),
            None => Err(Unmade::NoEntry),
        },
        Edit::InsertResult { op, at, ty } => match both(&tables.ops, op, &tables.types, ty) {
            Some((op, ty)) => insert_result(ctx, op, at, ty),
            None => Err(Unmade::NoEntry),
        },
        Edit::PushArgument { block, ty } => match both(&tables.blocks, block, &tables.types, ty) {
            Some((block, ty)) => push_argument(ctx, block, ty),
            None => Err(Unmade::NoEntry),
        },
        Edit::InsertArgument { block, at, ty } => {
            match both(&tables.blocks, block, &tables.types, ty) {
                Some((block, ty)) => insert_argument(ctx, block, at, ty),
                None => Err(Unmade::NoEntry),
            }
        }
        _ => carry_out_settled(ctx, tables, edit),
    }
}

// The region that a call made.
fn made_region(answer: Result<Ptr<Region>, CheckedErr>) -> Result<Made, Unmade> {
    match answer {
        Ok(region) => Ok(Made::Region(region)),
        Err(error) => Err(Unmade::Checked(error)),
    }
}

fn push_result(
    ctx: &mut Context<Toy>,
    op: Ptr<Operation<Toy>>,
    ty: TypeHandle,
) -> Result<Made, Unmade> {
    let at = operation::push_result(op, ctx, ty)?;
    Ok(Made::Value(operation::get_result(op, ctx, at)?))
}

fn insert_result(
    ctx: &mut Context<Toy>,
    op: Ptr<Operation<Toy>>,
    at: usize,
    ty: TypeHandle,
) -> Result<Made, Unmade> {
    operation::insert_result(op, ctx, at, ty)?;
    Ok(Made::Value(operation::get_result(op, ctx, at)?))
}

fn push_argument(
    ctx: &mut Context<Toy>,
    block: Ptr<BasicBlock<Toy>>,
    ty: TypeHandle,
) -> Result<Made, Unmade> {
    let at = basic_block::push_argument(block, ctx, ty)?;
    Ok(Made::Value(basic_block::get_argument(block, ctx, at)?))
}

fn insert_argument(
    ctx: &mut Context<Toy>,
    block: Ptr<BasicBlock<Toy>>,
    at: usize,
    ty: TypeHandle,
) -> Result<Made, Unmade> {
    basic_block::insert_argument(block, ctx, at, ty)?;
    Ok(Made::Value(basic_block::get_argument(block, ctx, at)?))
}

// Makes an operation of parts that have these numbers: types, values and blocks.
fn new_op(
    ctx: &mut Context<Toy>,
    tables: &Tables,
    kind: u32,
    parts: [&[usize]; 3],
    regions: usize,
) -> Result<Made, Unmade> {
    let alloc = ctx.alloc();
    let [types, operands, successors] = parts;
    let types = picked(alloc, &tables.types, types)?;
    let operands = picked(alloc, &tables.values, operands)?;
    let successors = picked(alloc, &tables.blocks, successors)?;
    let op = operation::new(ctx, kind, &types, &operands, &successors, regions)?;
    Ok(Made::Op(op))
}

// Makes a block with arguments of the types that have these numbers.
fn new_block(
    ctx: &mut Context<Toy>,
    tables: &Tables,
    label: Option<Identifier>,
    types: &[usize],
) -> Result<Made, Unmade> {
    let types = picked(ctx.alloc(), &tables.types, types)?;
    let block = basic_block::new(ctx, label, &types)?;
    Ok(Made::Block(block))
}
