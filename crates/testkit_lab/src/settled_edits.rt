//! The edits that put nothing new into the tables, by direct calls of a context, on the entries with their numbers.

use crate::entering::Made;
use crate::finding::{Unmade, both, done, entry};
use crate::tables::Tables;
use ir_checked_core::{basic_block, operation, region, value};
use ir_run_sessions::Edit;
use ir_view_parts::Context;
use toy_dialect::Toy;

/// Carries such an edit out.
pub(crate) fn carry_out_settled(
    ctx: &mut Context<Toy>,
    tables: &Tables,
    edit: &Edit<Toy>,
) -> Result<Made, Unmade> {
    match *edit {
        Edit::PushOperand { op, value } => match both(&tables.ops, op, &tables.values, value) {
            Some((op, value)) => done(operation::push_operand(op, ctx, value)),
            None => Err(Unmade::NoEntry),
        },
        Edit::InsertOperand { op, at, value } => match both(
            &tables.ops,
            op,
            &tables.values,
            value,
        ) {
            Some((op, value)) => done(operation::insert_operand(op, ctx, at, value)),
            None => Err(Unmade::NoEntry),
        },
        Edit::RemoveOperand { op, at } => match entry(&tables.ops, op) {
            Some(op) => done(operation::remove_operand(op, ctx, at)),
            None => Err(Unmade::NoEntry),
        },
        Edit::ReplaceOperand { op, at, value } => match both(
            &tables.ops,
            op,
            &tables.values,
            value,
        ) {
            Some((op, value)) => done(operation::replace_operand(op, ctx, at, value)),
            None => Err(Unmade::NoEntry),
        },
        Edit::PushSuccessor { op, block } => match both(&tables.ops, op, &tables.blocks, block) {
            Some((op, block)) => done(operation::push_successor(op, ctx, block)),
            None => Err(Unmade::NoEntry),
        },
        Edit::InsertSuccessor { op, at, block } => match both(
            &tables.ops,
            op,
            &tables.blocks,
            block,
        ) {
            Some((op, block)) => done(operation::insert_successor(op, ctx, at, block)),
            None => Err(Unmade::NoEntry),
        },
        Edit::RemoveSuccessor { op, at } => match entry(&tables.ops, op) {
            Some(op) => done(operation::remove_successor(op, ctx, at)),
            None => Err(Unmade::NoEntry),
        },
        Edit::ReplaceSuccessor { op, at, block } => match both(
            &tables.ops,
            op,
            &tables.blocks,
            block,
        ) {
            Some((op, block)) => done(operation::replace_successor(op, ctx, at, block)),
            None => Err(Unmade::NoEntry),
        },
        Edit::ReplaceAllUses { old, new } => match both(&tables.values, old, &tables.values, new) {
            Some((old, new)) => done(value::replace_all_uses_with(old, ctx, new)),
            None => Err(Unmade::NoEntry),
        },
        Edit::RetargetAll { old, new } => match both(&tables.blocks, old, &tables.blocks, new) {
            Some((old, new)) => done(basic_block::retarget_all_preds_to(old, ctx, new)),
            None => Err(Unmade::NoEntry),
        },
        _ => drop_uses(ctx, tables, edit),
    }
}

// The edits by which uses go.
fn drop_uses(ctx: &mut Context<Toy>, tables: &Tables, edit: &Edit<Toy>) -> Result<Made, Unmade> {
    match *edit {
        Edit::DropOpUses { op } => match entry(&tables.ops, op) {
            Some(op) => done(operation::drop_all_uses(op, ctx)),
            None => Err(Unmade::NoEntry),
        },
        Edit::DropBlockUses { block } => match entry(&tables.blocks, block) {
            Some(block) => done(basic_block::drop_all_uses(block, ctx)),
            None => Err(Unmade::NoEntry),
        },
        Edit::DropRegionUses { region } => match entry(&tables.regions, region) {
            Some(region) => done(region::drop_all_uses(region, ctx)),
            None => Err(Unmade::NoEntry),
        },
        _ => erase(ctx, tables, edit),
    }
}

// The edits by which definitions and entities go.
fn erase(ctx: &mut Context<Toy>, tables: &Tables, edit: &Edit<Toy>) -> Result<Made, Unmade> {
    match *edit {
        Edit::RemoveResult { op, at } => match entry(&tables.ops, op) {
            Some(op) => done(operation::remove_result(op, ctx, at)),
            None => Err(Unmade::NoEntry),
        },
        Edit::RemoveArgument { block, at } => match entry(&tables.blocks, block) {
            Some(block) => done(basic_block::remove_argument(block, ctx, at)),
            None => Err(Unmade::NoEntry),
        },
        Edit::EraseOp { op } => match entry(&tables.ops, op) {
            Some(op) => done(operation::erase(op, ctx)),
            None => Err(Unmade::NoEntry),
        },
        Edit::EraseBlock { block } => match entry(&tables.blocks, block) {
            Some(block) => done(basic_block::erase(block, ctx)),
            None => Err(Unmade::NoEntry),
        },
        Edit::EraseRegion { op, at } => match entry(&tables.ops, op) {
            Some(op) => done(operation::erase_region(op, ctx, at)),
            None => Err(Unmade::NoEntry),
        },
        _ => move_op(ctx, tables, edit),
    }
}

// The edits of lists of operations.
fn move_op(ctx: &mut Context<Toy>, tables: &Tables, edit: &Edit<Toy>) -> Result<Made, Unmade> {
    match *edit {
        Edit::OpFront { op, block } => match both(&tables.ops, op, &tables.blocks, block) {
            Some((op, block)) => done(operation::insert_at_front(op, block, ctx)),
            None => Err(Unmade::NoEntry),
        },
        Edit::OpBack { op, block } => match both(&tables.ops, op, &tables.blocks, block) {
            Some((op, block)) => done(operation::insert_at_back(op, block, ctx)),
            None => Err(Unmade::NoEntry),
        },
        Edit::OpBefore { op, mark } => match both(&tables.ops, op, &tables.ops, mark) {
            Some((op, mark)) => done(operation::insert_before(op, ctx, mark)),
            None => Err(Unmade::NoEntry),
        },
        Edit::OpAfter { op, mark } => match both(&tables.ops, op, &tables.ops, mark) {
            Some((op, mark)) => done(operation::insert_after(op, ctx, mark)),
            None => Err(Unmade::NoEntry),
        },
        Edit::UnlinkOp { op } => match entry(&tables.ops, op) {
            Some(op) => done(operation::unlink(op, ctx)),
            None => Err(Unmade::NoEntry),
        },
        Edit::AppendOps { donee, donor } => match both(
            &tables.blocks,
            donee,
            &tables.blocks,
            donor,
        ) {
            Some((donee, donor)) => done(basic_block::append_linked_list(donee, ctx, donor)),
            None => Err(Unmade::NoEntry),
        },
        _ => move_block(ctx, tables, edit),
    }
}

// The edits of lists of blocks, and regions that move. Other edits stand in none of these functions.
fn move_block(ctx: &mut Context<Toy>, tables: &Tables, edit: &Edit<Toy>) -> Result<Made, Unmade> {
    match *edit {
        Edit::BlockFront { block, region } => match both(
            &tables.blocks,
            block,
            &tables.regions,
            region,
        ) {
            Some((block, region)) => done(basic_block::insert_at_front(block, region, ctx)),
            None => Err(Unmade::NoEntry),
        },
        Edit::BlockBack { block, region } => match both(
            &tables.blocks,
            block,
            &tables.regions,
            region,
        ) {
            Some((block, region)) => done(basic_block::insert_at_back(block, region, ctx)),
            None => Err(Unmade::NoEntry),
        },
        Edit::BlockBefore { block, mark } => match both(
            &tables.blocks,
            block,
            &tables.blocks,
            mark,
        ) {
            Some((block, mark)) => done(basic_block::insert_before(block, ctx, mark)),
            None => Err(Unmade::NoEntry),
        },
        Edit::BlockAfter { block, mark } => match both(
            &tables.blocks,
            block,
            &tables.blocks,
            mark,
        ) {
            Some((block, mark)) => done(basic_block::insert_after(block, ctx, mark)),
            None => Err(Unmade::NoEntry),
        },
        Edit::UnlinkBlock { block } => match entry(&tables.blocks, block) {
            Some(block) => done(basic_block::unlink(block, ctx)),
            None => Err(Unmade::NoEntry),
        },
        Edit::AppendBlocks { donee, donor } => match both(
            &tables.regions,
            donee,
            &tables.regions,
            donor,
        ) {
            Some((donee, donor)) => done(region::append_linked_list(donee, ctx, donor)),
            None => Err(Unmade::NoEntry),
        },
        Edit::MoveRegion { region, op } => match both(&tables.regions, region, &tables.ops, op) {
            Some((region, op)) => done(region::move_to_op(region, op, ctx)),
            None => Err(Unmade::NoEntry),
        },
        _ => Err(Unmade::NoEntry),
    }
}
