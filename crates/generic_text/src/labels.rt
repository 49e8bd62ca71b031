//! The heads of blocks.
ghost use Rattle.std.specs.Prelude.{◌≡◌, ◌<◌, length, IfOk, OnOk, Some, true, slice_get};
ghost use Rattle.std.specs.Option.{option_map};
ghost use Rattle.ir_model.specs.Forest.{a_block, of_block};
ghost use Rattle.ir_model.specs.Nesting.{IsLive, definitions_of};
ghost use Rattle.ir_core_queries.specs.State.{forest_of, types_of};
ghost use Rattle.ir_text_described.specs.Trees.{part_at};
ghost use Rattle.ir_text_described.specs.Written.{IsArgument, IsLabel, IsPlain, Leads, begins_operation};
ghost use Rattle.generic_text.specs.Checks.{setting_of};
ghost use Rattle.generic_text.specs.Tables.{block_in};

use crate::check::Check;
use crate::described_error::DescribedErr;
use crate::rows::{behind, expect_if, expect_part, expect_text, part_at};
use crate::texts::{argument_location_of, type_text};
use generic_dialect::Generic;
use ir_base_dialects::{Ptr, TypeHandle};
use ir_core_queries::{BasicBlock, BlockPtr};
use ir_core_records::Definer;
use ir_text_names::Part;
use ir_view_parts::BlockParts;

// Reads the argument at that place, which has this type; the row behind it.
fn read_argument(
    check: &Check,
    block: Ptr<BasicBlock<Generic>>,
    index: usize,
    ty: TypeHandle,
    at: usize,
) -> Result<usize, DescribedErr>
    requires live { IsLive (forest_of check.now.ctx.now) (a_block block.index) }
    requires known { ty.place < length (types_of check.now.ctx.now) }
    requires typed { option_map (λ d. d.ty) (slice_get (definitions_of (forest_of check.now.ctx.now) (of_block block.index)) index) ≡ Some ty.place }
    ensures { IfOk result (λ next. IsArgument (setting_of check.now) block.index index at next) }
{
    expect_part(check, Part::Argument, at)?;
    if !check
        .table
        .is_origin(at, Definer::Block(block.index()), index)
    {
        return Err(DescribedErr::Differs { row: at });
    }
    let type_row = behind(at, 1)?;
    expect_part(check, Part::ArgumentType, type_row)?;
    expect_text(check, type_text(check, ty), type_row)?;
    let location = argument_location_of(check, block, index);
    expect_if(check, Part::ArgumentLocation, location, behind(at, 2)?)
}

// Reads the arguments of a live block; the row behind them.
fn read_arguments(
    check: &Check,
    block: Ptr<BasicBlock<Generic>>,
    from: usize,
) -> Result<usize, DescribedErr>
    requires { IsLive (forest_of check.now.ctx.now) (a_block block.index) }
    ensures { IfOk result (λ next. Leads (IsArgument (setting_of check.now) block.index) from (length (definitions_of (forest_of check.now.ctx.now) (of_block block.index))) next) }
{
    let mut at = from;
    let mut index = 0;
    for ty in block.deref(check.ctx).argument_types() {
        at = read_argument(check, block, index, ty, at)?;
        index = behind(index, 1)?;
    }
    Ok(at)
}

// The row begins the block.
fn expect_block(
    check: &Check,
    block: Ptr<BasicBlock<Generic>>,
    at: usize,
) -> Result<(), DescribedErr>
    ensures { OnOk result (block_in check.now.table.now at ≡ Some block.index) }
{
    match check.table.block(at) {
        Some(found) if found == block.index() => Ok(()),
        _ => Err(DescribedErr::Differs { row: at }),
    }
}

/// Reads the head of a live block; the row behind it.
pub(crate) fn read_label(
    check: &Check,
    block: Ptr<BasicBlock<Generic>>,
    at: usize,
) -> Result<usize, DescribedErr>
    requires { IsLive (forest_of check.now.ctx.now) (a_block block.index) }
    ensures { IfOk result (λ next. IsLabel (setting_of check.now) block.index at next) }
{
    expect_part(check, Part::Label, at)?;
    expect_block(check, block, at)?;
    read_arguments(check, block, behind(at, 1)?)
}

/// Whether an operation begins with the row.
pub(crate) fn begins_operation(check: &Check, at: usize) -> bool
    ensures { result ≡ begins_operation (part_at (setting_of check.now).tree at) }
{
    match part_at(check, at) {
        Part::Result | Part::Name => true,
        _ => false,
    }
}

/// The live block has no arguments, so that it needs no head.
pub(crate) fn expect_plain(
    check: &Check,
    block: Ptr<BasicBlock<Generic>>,
    at: usize,
) -> Result<(), DescribedErr>
    requires live { IsLive (forest_of check.now.ctx.now) (a_block block.index) }
    requires begins { begins_operation (part_at (setting_of check.now).tree at) ≡ true }
    ensures { OnOk result (IsPlain (setting_of check.now) block.index at) }
{
    if block.deref(check.ctx).get_num_arguments() == 0 {
        Ok(())
    } else {
        Err(DescribedErr::Differs { row: at })
    }
}
