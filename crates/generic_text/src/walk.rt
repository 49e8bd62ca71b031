//! The walk that compares each part with its rows.
ghost use Rattle.std.specs.Prelude.{◌≡◌, ◌∷◌, ◌++◌, ◌+◌, List, length, map, reverse, IfOk, OnOk, true};
ghost use Rattle.ir_model.specs.declared.ids.ArenaIndex.{ArenaIndex as Index};
ghost use Rattle.ir_model.specs.Nesting.{ops_of};
ghost use Rattle.ir_core_queries.specs.State.{forest_of};
ghost use Rattle.ir_text_described.specs.declared.item.Item.{Item as PlainItem};
ghost use Rattle.ir_text_described.specs.Trees.{part_at};
ghost use Rattle.ir_text_described.specs.Written.{AreWritten, IsPlain, IsTail, begins_operation};
ghost use Rattle.ir_text_tree.specs.declared.row.Part.TheVariants as parts;
ghost use Rattle.generic_text.specs.Checks.{setting_of};

use crate::check::Check;
use crate::described_error::DescribedErr;
use crate::heads::read_head;
use crate::labels::{begins_operation, expect_plain, read_label};
use crate::pushing::{push_blocks, push_ops, push_regions};
use crate::rows::{behind, expect_part};
use crate::tails::read_tail;
use generic_dialect::Generic;
use ir_base_dialects::{ArenaIndex, Ptr};
use ir_core_queries::{BasicBlock, BlockPtr, Operation, OperationPtr, Region, RegionPtr};
use ir_text_described::Item;
use ir_text_names::Part;

// Reads an operation up to its regions; these and what stands behind them are read next.
fn read_op(
    check: &Check,
    items: &mut Vec<Item>,
    op: ArenaIndex,
    at: usize,
) -> Result<usize, DescribedErr>
    ensures { IfOk result (λ next. AreWritten (setting_of check.now) (reverse items.new.items) next → AreWritten (setting_of check.now) (Item.Op op ∷ reverse items.old.items) at) }
{
    let handle: Ptr<Operation<Generic>> = Ptr::from_index(op);
    if !handle.is_live(check.ctx) {
        return Err(DescribedErr::Differs { row: at });
    }
    let next = read_head(check, handle, at)?;
    items.push(Item::Tail(op))?;
    push_regions(check.ctx, items, handle)?;
    Ok(next)
}

// Reads an operation from behind its regions on.
fn read_op_tail(check: &Check, op: ArenaIndex, at: usize) -> Result<usize, DescribedErr>
    ensures { IfOk result (λ next. IsTail (setting_of check.now) op at next) }
{
    let handle: Ptr<Operation<Generic>> = Ptr::from_index(op);
    if !handle.is_live(check.ctx) {
        return Err(DescribedErr::Differs { row: at });
    }
    read_tail(check, handle, at)
}

// Reads the beginning of a block without a head, the last of the items; its operations are read next.
fn read_plain(check: &Check, items: &mut Vec<Item>, at: usize) -> Result<(), DescribedErr>
    requires { begins_operation (part_at (setting_of check.now).tree at) ≡ true }
    ensures { OnOk result ((b : Index) × (rest : List PlainItem) × (reverse items.old.items ≡ Item.Block b ∷ rest) × IsPlain (setting_of check.now) b at × (reverse items.new.items ≡ map Item.Op (ops_of (forest_of check.now.ctx.now) b) ++ rest)) }
{
    let Some(Item::Block(index)) = items.pop() else {
        return Err(DescribedErr::Differs { row: at });
    };
    let block: Ptr<BasicBlock<Generic>> = Ptr::from_index(index);
    if !block.is_live(check.ctx) {
        return Err(DescribedErr::Differs { row: at });
    }
    expect_plain(check, block, at)?;
    push_ops(check.ctx, items, block)?;
    Ok(())
}

// Reads the beginning of a region; its blocks and its end are read next.
fn read_region(
    check: &Check,
    items: &mut Vec<Item>,
    region: ArenaIndex,
    at: usize,
) -> Result<usize, DescribedErr>
    ensures { IfOk result (λ next. AreWritten (setting_of check.now) (reverse items.new.items) next → AreWritten (setting_of check.now) (Item.Region region ∷ reverse items.old.items) at) }
{
    let handle: Ptr<Region> = Ptr::from_index(region);
    if !RegionPtr::<Generic>::is_live(handle, check.ctx) {
        return Err(DescribedErr::Differs { row: at });
    }
    expect_part(check, Part::Open, at)?;
    let next = behind(at, 1)?;
    items.push(Item::Close)?;
    push_blocks(check.ctx, items, handle)?;
    if begins_operation(check, next) {
        read_plain(check, items, next)?;
    }
    Ok(next)
}

// Reads the head of a block; its operations are read next.
fn read_block(
    check: &Check,
    items: &mut Vec<Item>,
    block: ArenaIndex,
    at: usize,
) -> Result<usize, DescribedErr>
    ensures { IfOk result (λ next. AreWritten (setting_of check.now) (reverse items.new.items) next → AreWritten (setting_of check.now) (Item.Block block ∷ reverse items.old.items) at) }
{
    let handle: Ptr<BasicBlock<Generic>> = Ptr::from_index(block);
    if !handle.is_live(check.ctx) {
        return Err(DescribedErr::Differs { row: at });
    }
    let next = read_label(check, handle, at)?;
    push_ops(check.ctx, items, handle)?;
    Ok(next)
}

// Reads the end of a region.
fn read_close(check: &Check, at: usize) -> Result<usize, DescribedErr>
    ensures { IfOk result (λ next. (part_at (setting_of check.now).tree at ≡ parts.Close) × (next ≡ at + 1)) }
{
    expect_part(check, Part::Close, at)?;
    behind(at, 1)
}

// Reads an item; the row behind what is read of it. The rest of it is read next.
fn read_item(
    check: &Check,
    items: &mut Vec<Item>,
    item: Item,
    at: usize,
) -> Result<usize, DescribedErr>
    ensures { IfOk result (λ next. AreWritten (setting_of check.now) (reverse items.new.items) next → AreWritten (setting_of check.now) (item ∷ reverse items.old.items) at) }
{
    match item {
        Item::Op(op) => read_op(check, items, op, at),
        Item::Tail(op) => read_op_tail(check, op, at),
        Item::Region(region) => read_region(check, items, region, at),
        Item::Block(block) => read_block(check, items, block, at),
        Item::Close => read_close(check, at),
    }
}

// All rows are read.
fn expect_end(check: &Check, at: usize) -> Result<(), DescribedErr>
    ensures { OnOk result (at ≡ length check.now.rows.now) }
{
    if at == check.rows.len() {
        Ok(())
    } else {
        Err(DescribedErr::Differs { row: at })
    }
}

/// Reads all of the items, the last of them first.
pub(crate) fn read_all(check: &Check, items: &mut Vec<Item>) -> Result<(), DescribedErr>
    ensures { OnOk result (AreWritten (setting_of check.now) (reverse items.old.items) 0) }
{
    let mut at = 0;
    for _ in 0..u64::MAX {
        let Some(item) = items.pop() else {
            return expect_end(check, at);
        };
        at = read_item(check, items, item, at)?;
    }
    Err(DescribedErr::Differs { row: at })
}
