//! The walk that notes what the rows define. What it notes is compared afterwards, so it promises nothing.

use crate::check::Check;
use crate::described_error::DescribedErr;
use crate::labels::begins_operation;
use crate::pushing::{push_blocks, push_ops, push_regions};
use crate::results::{behind_result, width_at};
use crate::rows::part_at;
use crate::table::{Origin, Table};
use generic_dialect::Generic;
use ir_base_dialects::{ArenaIndex, Ptr};
use ir_core_queries::{BasicBlock, BlockPtr, Operation, OperationPtr, Region, RegionPtr};
use ir_core_records::Definer;
use ir_text_described::Item;
use ir_text_names::Part;

// Whether the part stands in an operation between its name and its regions.
fn is_of_head(part: Part) -> bool {
    match part {
        Part::Operand | Part::Index | Part::Successor | Part::Properties => true,
        _ => false,
    }
}

// Whether the part stands in an operation behind its regions.
fn is_of_tail(part: Part) -> bool {
    match part {
        Part::Key | Part::Value | Part::OperandType | Part::Location => true,
        Part::ResultType | Part::OnlyResultType => true,
        _ => false,
    }
}

// The row behind what stands in an operation before its regions, of which the name is in that row.
fn behind_head(check: &Check, name: usize) -> usize {
    for row in name.saturating_add(1)..check.rows.len() {
        if !is_of_head(part_at(check, row)) {
            return row;
        }
    }
    check.rows.len()
}

// The row behind what stands in an operation behind its regions.
fn behind_tail(check: &Check, at: usize) -> usize {
    for row in at..check.rows.len() {
        if !is_of_tail(part_at(check, row)) {
            return row;
        }
    }
    check.rows.len()
}

// Notes the results that the rows name; the row behind.
fn note_results(
    check: &Check,
    table: &mut Table,
    op: ArenaIndex,
    from: usize,
) -> Result<usize, DescribedErr> {
    let definer = Definer::Op(op);
    let mut at = from;
    let mut first: usize = 0;
    for _ in 0..check.rows.len() {
        if at >= check.rows.len() || part_at(check, at) != Part::Result {
            return Ok(at);
        }
        table.put_values(at, Origin { definer, first })?;
        first = first.saturating_add(width_at(check, at)?);
        at = behind_result(check, at)?;
    }
    Ok(at)
}

// Notes an operation; its regions and what stands behind them are noted next.
fn note_op(
    check: &Check,
    table: &mut Table,
    items: &mut Vec<Item>,
    op: ArenaIndex,
    at: usize,
) -> Result<usize, DescribedErr> {
    let handle: Ptr<Operation<Generic>> = Ptr::from_index(op);
    let name = note_results(check, table, op, at)?;
    items.push(Item::Tail(op))?;
    if handle.is_live(check.ctx) {
        push_regions(check.ctx, items, handle)?;
    }
    Ok(behind_head(check, name))
}

// The operations of a block are noted next.
fn note_ops(check: &Check, items: &mut Vec<Item>, block: ArenaIndex) -> Result<(), DescribedErr> {
    let handle: Ptr<BasicBlock<Generic>> = Ptr::from_index(block);
    if handle.is_live(check.ctx) {
        push_ops(check.ctx, items, handle)?;
    }
    Ok(())
}

// The operations of a block without a head, the last of the items, are noted next.
fn note_plain(check: &Check, items: &mut Vec<Item>) -> Result<(), DescribedErr> {
    match items.pop() {
        Some(Item::Block(block)) => note_ops(check, items, block),
        _ => Ok(()),
    }
}

// The blocks of a region and its end are noted next.
fn note_region(
    check: &Check,
    items: &mut Vec<Item>,
    region: ArenaIndex,
    at: usize,
) -> Result<usize, DescribedErr> {
    let handle: Ptr<Region> = Ptr::from_index(region);
    let next = at.saturating_add(1);
    items.push(Item::Close)?;
    if RegionPtr::<Generic>::is_live(handle, check.ctx) {
        push_blocks(check.ctx, items, handle)?;
    }
    if begins_operation(check, next) {
        note_plain(check, items)?;
    }
    Ok(next)
}

// Notes a block with its arguments; its operations are noted next.
fn note_block(
    check: &Check,
    table: &mut Table,
    items: &mut Vec<Item>,
    block: ArenaIndex,
    at: usize,
) -> Result<usize, DescribedErr> {
    table.put_block(at, block)?;
    note_ops(check, items, block)?;
    note_arguments(check, table, block, at.saturating_add(1))
}

// Notes the arguments of a block; the row behind.
fn note_arguments(
    check: &Check,
    table: &mut Table,
    block: ArenaIndex,
    from: usize,
) -> Result<usize, DescribedErr> {
    let definer = Definer::Block(block);
    let mut first: usize = 0;
    for at in from..check.rows.len() {
        match part_at(check, at) {
            Part::Argument => {
                table.put_values(at, Origin { definer, first })?;
                first = first.saturating_add(1);
            }
            Part::ArgumentType | Part::ArgumentLocation => {}
            _ => return Ok(at),
        }
    }
    Ok(check.rows.len())
}

// Notes an item; the row behind what is noted of it. The rest of it is noted next.
fn note_item(
    check: &Check,
    table: &mut Table,
    items: &mut Vec<Item>,
    item: Item,
    at: usize,
) -> Result<usize, DescribedErr> {
    match item {
        Item::Op(op) => note_op(check, table, items, op, at),
        Item::Tail(_) => Ok(behind_tail(check, at)),
        Item::Region(region) => note_region(check, items, region, at),
        Item::Block(block) => note_block(check, table, items, block, at),
        Item::Close => Ok(at.saturating_add(1)),
    }
}

/// Notes what the rows define of the items, the last of them first.
pub(crate) fn note_all(
    check: &Check,
    table: &mut Table,
    items: &mut Vec<Item>,
) -> Result<(), DescribedErr> {
    let mut at = 0;
    for _ in 0..u64::MAX {
        let Some(item) = items.pop() else {
            return Ok(());
        };
        at = note_item(check, table, items, item, at)?;
    }
    Err(DescribedErr::Differs { row: at })
}
