//! Uses of values and of blocks that come to name another, under both chains at once. The tree stays as it is.
//!
//! A use keeps its number and its place among the operands or successors of its user. Where the definition is the one that was named before, nothing changes, and no memory is taken. Where the list that receives the uses can't grow, nothing has changed.

ghost use Rattle.std.specs.Prelude.{◌≡◌, length, IsOk, OnOk, OnErr};
ghost use Rattle.ir_model.specs.Changes.{redirect, retarget};
ghost use Rattle.ir_model.specs.Redirect.{redirect_uses, retarget_uses};
ghost use Rattle.ir_core_records.specs.declared.record.BlockIndex.{BlockIndex as PlainBlock};
ghost use Rattle.ir_core_records.specs.declared.record.UsePlace.{UsePlace as PlainPlace};
ghost use Rattle.ir_core_records.specs.declared.record.ValueIndex.{ValueIndex as PlainValue};
ghost use Rattle.ir_core_records.specs.Meaning.{forest_in, use_of, value_of};
ghost use Rattle.ir_core_records.specs.Links.{IsPlaced};
ghost use Rattle.ir_core_records.specs.Table.{operands_at, successors_at, uses_at, block_uses_at, IsValue, IsLiveBlock};
ghost use Rattle.ir_core_records.specs.Chains.{chains_of, AreLinked};
ghost use Rattle.ir_core_records.specs.Frames.{KeepsTree};
ghost use Rattle.ir_core_replacing.specs.Chosen.{is_chosen, same_use};
ghost use Rattle.ir_core_replacing.specs.Renamed.{IsPlaceOf};

use crate::moves;
use ir_base_dialects::Dialects;
use ir_core_records::{BlockIndex, Records, UseIndex, ValueIndex};
use std::alloc::{AllocError, Global};

/// Lets the operand of a use name this value.
///
/// # Errors
/// Where the list of the value's uses had to grow and couldn't. Then nothing has changed.
pub fn replace_use<D: Dialects>(
    records: &mut Records<D>,
    used: UseIndex,
    to: ValueIndex,
) -> Result<(), AllocError>
    requires linked { AreLinked (chains_of records.old) }
    requires has { IsPlaced (operands_at records.old) used }
    requires named { IsValue records.old to }
    ensures linked { AreLinked (chains_of records.new) }
    ensures keeps { KeepsTree records.old records.new }
    ensures forest { OnOk result (forest_in records.new ≡ redirect_uses (forest_in records.old) (same_use (use_of used)) (value_of to)) }
    ensures err { OnErr result (records.new ≡ records.old) }
    ensures itself { (a : PlainPlace PlainValue) → IsPlaceOf (operands_at records.old) used a → a.names ≡ to → IsOk result }
{
    moves::redirect_use::<D, ValueIndex>(records, used, to)
}

/// Lets the successor of a use name this block.
///
/// # Errors
/// Where the list of the block's uses had to grow and couldn't. Then nothing has changed.
pub fn retarget_pred<D: Dialects>(
    records: &mut Records<D>,
    used: UseIndex,
    to: BlockIndex,
) -> Result<(), AllocError>
    requires linked { AreLinked (chains_of records.old) }
    requires has { IsPlaced (successors_at records.old) used }
    requires named { IsLiveBlock records.old to }
    ensures linked { AreLinked (chains_of records.new) }
    ensures keeps { KeepsTree records.old records.new }
    ensures forest { OnOk result (forest_in records.new ≡ retarget_uses (forest_in records.old) (same_use (use_of used)) to.index) }
    ensures err { OnErr result (records.new ≡ records.old) }
    ensures itself { (a : PlainPlace PlainBlock) → IsPlaceOf (successors_at records.old) used a → a.names ≡ to → IsOk result }
{
    moves::redirect_use::<D, BlockIndex>(records, used, to)
}

/// Lets all operands that name the first value name the second.
///
/// # Errors
/// Where the list of the second value's uses had to grow and couldn't. Then nothing has changed.
pub fn replace_all_uses<D: Dialects>(
    records: &mut Records<D>,
    alloc: Global,
    from: ValueIndex,
    to: ValueIndex,
) -> Result<(), AllocError>
    requires linked { AreLinked (chains_of records.old) }
    requires old { IsValue records.old from }
    requires named { IsValue records.old to }
    ensures linked { AreLinked (chains_of records.new) }
    ensures keeps { KeepsTree records.old records.new }
    ensures forest { OnOk result (forest_in records.new ≡ redirect (forest_in records.old) (value_of from) (value_of to)) }
    ensures err { OnErr result (records.new ≡ records.old) }
    ensures itself { from ≡ to → IsOk result }
{
    moves::redirect_all::<D, ValueIndex>(records, alloc, from, to)
}

/// Lets all successors that name the first block name the second.
///
/// # Errors
/// Where the list of the second block's uses had to grow and couldn't. Then nothing has changed.
pub fn retarget_all_preds<D: Dialects>(
    records: &mut Records<D>,
    alloc: Global,
    from: BlockIndex,
    to: BlockIndex,
) -> Result<(), AllocError>
    requires linked { AreLinked (chains_of records.old) }
    requires old { IsLiveBlock records.old from }
    requires named { IsLiveBlock records.old to }
    ensures linked { AreLinked (chains_of records.new) }
    ensures keeps { KeepsTree records.old records.new }
    ensures forest { OnOk result (forest_in records.new ≡ retarget (forest_in records.old) from.index to.index) }
    ensures err { OnErr result (records.new ≡ records.old) }
    ensures itself { from ≡ to → IsOk result }
{
    moves::redirect_all::<D, BlockIndex>(records, alloc, from, to)
}

/// Lets the operands of those uses of the first value name the second whose answer is yes. There is one answer for each use, in the order in which the uses are kept: the caller asks for each before anything changes.
///
/// # Errors
/// Where the list of the second value's uses had to grow and couldn't. Then nothing has changed.
pub fn replace_some_uses<D: Dialects>(
    records: &mut Records<D>,
    alloc: Global,
    from: ValueIndex,
    to: ValueIndex,
    answers: &[bool],
) -> Result<(), AllocError>
    requires linked { AreLinked (chains_of records.old) }
    requires old { IsValue records.old from }
    requires named { IsValue records.old to }
    requires count { length answers.now ≡ length (uses_at records.old from) }
    ensures linked { AreLinked (chains_of records.new) }
    ensures keeps { KeepsTree records.old records.new }
    ensures forest { OnOk result (forest_in records.new ≡ redirect_uses (forest_in records.old) (is_chosen (uses_at records.old from) answers.now) (value_of to)) }
    ensures err { OnErr result (records.new ≡ records.old) }
    ensures itself { from ≡ to → IsOk result }
{
    moves::redirect_some::<D, ValueIndex>(records, alloc, from, to, answers)
}

/// Lets the successors of those uses of the first block name the second whose answer is yes. There is one answer for each use, in the order in which the uses are kept: the caller asks for each before anything changes.
///
/// # Errors
/// Where the list of the second block's uses had to grow and couldn't. Then nothing has changed.
pub fn retarget_some_preds<D: Dialects>(
    records: &mut Records<D>,
    alloc: Global,
    from: BlockIndex,
    to: BlockIndex,
    answers: &[bool],
) -> Result<(), AllocError>
    requires linked { AreLinked (chains_of records.old) }
    requires old { IsLiveBlock records.old from }
    requires named { IsLiveBlock records.old to }
    requires count { length answers.now ≡ length (block_uses_at records.old from) }
    ensures linked { AreLinked (chains_of records.new) }
    ensures keeps { KeepsTree records.old records.new }
    ensures forest { OnOk result (forest_in records.new ≡ retarget_uses (forest_in records.old) (is_chosen (block_uses_at records.old from) answers.now) to.index) }
    ensures err { OnErr result (records.new ≡ records.old) }
    ensures itself { from ≡ to → IsOk result }
{
    moves::redirect_some::<D, BlockIndex>(records, alloc, from, to, answers)
}
