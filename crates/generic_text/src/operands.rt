//! The operands and the successors of an operation.
ghost use Rattle.std.specs.Prelude.{◌≡◌, ◌<◌, ◌+◌, ℕ, length, IfOk, IfSome, IsTrue, Some, OnOk};
ghost use Rattle.ir_model.specs.Forest.{an_op, of_block, of_op};
ghost use Rattle.ir_model.specs.Nesting.{IsLive, operands_of, successors_of};
ghost use Rattle.ir_core_queries.specs.State.{forest_of};
ghost use Rattle.ir_core_records.specs.Meaning.{definer_of};
ghost use Rattle.ir_text_described.specs.Trees.{behind_use, part_at, which_at};
ghost use Rattle.ir_text_described.specs.Written.{IsOperand, IsSuccessor, Leads, number_of};
ghost use Rattle.ir_text_names.specs.Indices.{is_index};
ghost use Rattle.ir_text_tree.specs.declared.row.Part.TheVariants as parts;
ghost use Rattle.generic_text.specs.Checks.{setting_of};
ghost use Rattle.generic_text.specs.GenericWords.{block_named, value_named};
ghost use Rattle.generic_text.specs.Tables.{block_in, origin_in};

use crate::check::Check;
use crate::described_error::DescribedErr;
use crate::rows::{behind, expect_part, part_at};
use crate::table::{Origin, is_definer};
use generic_dialect::Generic;
use ir_base_dialects::{ArenaIndex, Ptr};
use ir_core_queries::{BlockPtr, Operation, OperationPtr};
use ir_core_records::{Definer, ValueIndex};
use ir_text_names::{Amount, Names, Part, which};

// The definition that a row names.
fn value_named(names: &Names, at: usize) -> Option<usize>
    ensures { result ≡ value_named names.now at }
{
    names.values.get(at)
}

// The block that a row names.
fn block_named(names: &Names, at: usize) -> Option<usize>
    ensures { result ≡ block_named names.now at }
{
    names.blocks.get(at)
}

// The values under the name that the operand's definition gives.
fn origin_named(check: &Check, at: usize) -> Option<Origin>
    ensures { IfSome result (λ origin. (row : ℕ) × (value_named check.now.names.now at ≡ Some row) × (origin_in check.now.table.now row ≡ Some origin)) }
{
    let row = value_named(check.names, at)?;
    check.table.origin(row)
}

// Which of the values under its name an operand is.
fn which_at(check: &Check, at: usize) -> Option<usize>
    ensures { IfSome result (λ index. which_at (setting_of check.now).tree at ≡ Some index) }
{
    if at < check.rows.len() {
        match which(check.text, check.rows, at) {
            Amount::Small(index) => Some(index),
            _ => None,
        }
    } else {
        None
    }
}

// Whether the part says which of several values an operand is.
fn is_index(part: Part) -> bool
    ensures { result ≡ is_index part }
{
    match part {
        Part::Index => true,
        _ => false,
    }
}

// The row behind an operand and its number.
fn behind_use(check: &Check, at: usize) -> Result<usize, DescribedErr>
    ensures { IfOk result (λ next. next ≡ behind_use (setting_of check.now).tree at) }
{
    let next = behind(at, 1)?;
    if is_index(part_at(check, next)) {
        behind(at, 2)
    } else {
        Ok(next)
    }
}

// The number of the result at that place.
fn result_number(check: &Check, op: ArenaIndex, place: usize) -> Option<u64>
    ensures { IfSome result (λ n. number_of (setting_of check.now) (of_op op) place ≡ Some n) }
{
    let op: Ptr<Operation<Generic>> = Ptr::from_index(op);
    match op.try_deref(check.ctx) {
        Ok(record) => {
            if place < record.get_num_results() {
                Some(record.get_result(place).index.number)
            } else {
                None
            }
        }
        Err(_) => None,
    }
}

// The number of the argument at that place.
fn argument_number(check: &Check, block: ArenaIndex, place: usize) -> Option<u64>
    ensures { IfSome result (λ n. number_of (setting_of check.now) (of_block block) place ≡ Some n) }
{
    let block: Ptr<ir_core_queries::BasicBlock<Generic>> = Ptr::from_index(block);
    match block.try_deref(check.ctx) {
        Ok(record) => {
            if place < record.get_num_arguments() {
                Some(record.get_argument(place).index.number)
            } else {
                None
            }
        }
        Err(_) => None,
    }
}

// The number of the value at that place of its definer's.
fn number_of(check: &Check, definer: Definer, place: usize) -> Option<u64>
    ensures { IfSome result (λ n. number_of (setting_of check.now) (definer_of definer) place ≡ Some n) }
{
    match definer {
        Definer::Op(op) => result_number(check, op, place),
        Definer::Block(block) => argument_number(check, block, place),
    }
}

// Whether a value is the one with that index behind the first of these.
fn is_value(check: &Check, value: ValueIndex, origin: Origin, index: usize) -> bool
    ensures definer { IsTrue result → value.definer ≡ origin.definer }
    ensures number { IsTrue result → number_of (setting_of check.now) (definer_of origin.definer) (origin.first + index) ≡ Some value.number }
{
    if !is_definer(value.definer, origin.definer) {
        return false;
    }
    match origin.first.checked_add(index) {
        None => false,
        Some(place) => match number_of(check, origin.definer, place) {
            None => false,
            Some(number) => number == value.number,
        },
    }
}

// Whether the operand in that row means this value.
fn means(check: &Check, value: ValueIndex, at: usize) -> bool
    ensures { IsTrue result → (origin : Origin) × (index row : ℕ) × (value_named check.now.names.now at ≡ Some row) × (origin_in check.now.table.now row ≡ Some origin) × (which_at (setting_of check.now).tree at ≡ Some index) × (value.definer ≡ origin.definer) × (number_of (setting_of check.now) (definer_of origin.definer) (origin.first + index) ≡ Some value.number) }
{
    match origin_named(check, at) {
        None => false,
        Some(origin) => match which_at(check, at) {
            None => false,
            Some(index) => is_value(check, value, origin, index),
        },
    }
}

// Reads the operand at that place; the row behind it.
fn read_operand(
    check: &Check,
    op: Ptr<Operation<Generic>>,
    index: usize,
    at: usize,
) -> Result<usize, DescribedErr>
    requires live { IsLive (forest_of check.now.ctx.now) (an_op op.index) }
    requires within { index < length (operands_of (forest_of check.now.ctx.now) op.index) }
    ensures { IfOk result (λ next. IsOperand (setting_of check.now) op.index index at next) }
{
    expect_part(check, Part::Operand, at)?;
    let value = op.deref(check.ctx).get_operand(index);
    if means(check, value.index, at) {
        behind_use(check, at)
    } else {
        Err(DescribedErr::Differs { row: at })
    }
}

/// Reads the operands of a live operation; the row behind them.
pub(crate) fn read_operands(
    check: &Check,
    op: Ptr<Operation<Generic>>,
    from: usize,
) -> Result<usize, DescribedErr>
    requires { IsLive (forest_of check.now.ctx.now) (an_op op.index) }
    ensures { IfOk result (λ next. Leads (IsOperand (setting_of check.now) op.index) from (length (operands_of (forest_of check.now.ctx.now) op.index)) next) }
{
    let mut at = from;
    for index in 0..op.deref(check.ctx).get_num_operands() {
        at = read_operand(check, op, index, at)?;
    }
    Ok(at)
}

// Whether the successor in that row names this block.
fn names(check: &Check, block: ArenaIndex, at: usize) -> bool
    ensures { IsTrue result → (row : ℕ) × (block_named check.now.names.now at ≡ Some row) × (block_in check.now.table.now row ≡ Some block) }
{
    match block_named(check.names, at) {
        None => false,
        Some(row) => match check.table.block(row) {
            None => false,
            Some(named) => named == block,
        },
    }
}

// Reads the successor at that place; the row behind it.
fn read_successor(
    check: &Check,
    op: Ptr<Operation<Generic>>,
    index: usize,
    at: usize,
) -> Result<usize, DescribedErr>
    requires live { IsLive (forest_of check.now.ctx.now) (an_op op.index) }
    requires within { index < length (successors_of (forest_of check.now.ctx.now) op.index) }
    ensures { IfOk result (λ next. IsSuccessor (setting_of check.now) op.index index at next) }
{
    expect_part(check, Part::Successor, at)?;
    let block = op.deref(check.ctx).get_successor(index);
    if names(check, block.index(), at) {
        behind(at, 1)
    } else {
        Err(DescribedErr::Differs { row: at })
    }
}

/// Reads the successors of a live operation; the row behind them.
pub(crate) fn read_successors(
    check: &Check,
    op: Ptr<Operation<Generic>>,
    from: usize,
) -> Result<usize, DescribedErr>
    requires { IsLive (forest_of check.now.ctx.now) (an_op op.index) }
    ensures { IfOk result (λ next. Leads (IsSuccessor (setting_of check.now) op.index) from (length (successors_of (forest_of check.now.ctx.now) op.index)) next) }
{
    let mut at = from;
    for index in 0..op.deref(check.ctx).get_num_successors() {
        at = read_successor(check, op, index, at)?;
    }
    Ok(at)
}
