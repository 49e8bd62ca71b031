//! Single operands and successors at an index: put in, taken out, and put where another one stands, under both chains at once. The tree stays as it is.

ghost use Rattle.std.specs.Prelude.{◌≡◌, ◌<◌, ◌≤◌, length, insert, remove, OnOk, OnErr, slice_get, Some};
ghost use Rattle.std.specs.Option.{option_map};
ghost use Rattle.ir_base_arenas.specs.Arena.{IsLiveIn};
ghost use Rattle.ir_model.specs.Changes.{on_op, on_operands, on_successors};
ghost use Rattle.ir_core_records.specs.Meaning.{forest_in, value_of};
ghost use Rattle.ir_core_records.specs.Links.{IsFreshUse};
ghost use Rattle.ir_core_records.specs.Table.{operands_at, successors_at, IsValue, IsLiveBlock};
ghost use Rattle.ir_core_records.specs.Chains.{chains_of, AreLinked};
ghost use Rattle.ir_core_records.specs.Frames.{KeepsTree};

use crate::chains_at;
use ir_base_dialects::{ArenaIndex, Dialects};
use ir_core_records::{BlockIndex, Records, ValueIndex};
use std::alloc::AllocError;

/// Puts an operand with a new number at an index, before the one that stands there, and its use into the value's list: both or neither.
///
/// # Errors
/// Where a list had to grow and couldn't. Then nothing has changed.
pub fn insert_operand<D: Dialects>(
    records: &mut Records<D>,
    user: ArenaIndex,
    index: usize,
    number: u64,
    value: ValueIndex,
) -> Result<(), AllocError>
    requires linked { AreLinked (chains_of records.old) }
    requires live { IsLiveIn records.old.ops user }
    requires within { index ≤ length (operands_at records.old user) }
    requires named { IsValue records.old value }
    requires fresh { IsFreshUse (operands_at records.old) number }
    ensures linked { AreLinked (chains_of records.new) }
    ensures keeps { KeepsTree records.old records.new }
    ensures forest { OnOk result (forest_in records.new ≡ on_op (forest_in records.old) user (on_operands (λ xs. insert xs index (record { use_number = number; value = value_of value })))) }
    ensures err { OnErr result (records.new ≡ records.old) }
{
    chains_at::insert_linked::<D, ValueIndex>(records, user, index, number, value)
}

/// Takes the operand at an index out, and its use with it. Those behind it move up. It tells what the operand named.
pub fn remove_operand<D: Dialects>(
    records: &mut Records<D>,
    user: ArenaIndex,
    index: usize,
) -> ValueIndex
    requires linked { AreLinked (chains_of records.old) }
    requires live { IsLiveIn records.old.ops user }
    requires within { index < length (operands_at records.old user) }
    ensures value { option_map (λ a. a.names) (slice_get (operands_at records.old user) index) ≡ Some result }
    ensures linked { AreLinked (chains_of records.new) }
    ensures keeps { KeepsTree records.old records.new }
    ensures forest { forest_in records.new ≡ on_op (forest_in records.old) user (on_operands (λ xs. remove xs index)) }
{
    chains_at::remove_linked::<D, ValueIndex>(records, user, index)
}

/// Puts an operand with a new number where another one stands, and its use into the value's list. The other one's use goes with it. Old and new value may be one.
///
/// # Errors
/// Where the value's list had to grow and couldn't. Then nothing has changed.
pub fn replace_operand<D: Dialects>(
    records: &mut Records<D>,
    user: ArenaIndex,
    index: usize,
    number: u64,
    value: ValueIndex,
) -> Result<(), AllocError>
    requires linked { AreLinked (chains_of records.old) }
    requires live { IsLiveIn records.old.ops user }
    requires within { index < length (operands_at records.old user) }
    requires named { IsValue records.old value }
    requires fresh { IsFreshUse (operands_at records.old) number }
    ensures linked { AreLinked (chains_of records.new) }
    ensures keeps { KeepsTree records.old records.new }
    ensures forest { OnOk result (forest_in records.new ≡ on_op (forest_in records.old) user (on_operands (λ xs. insert (remove xs index) index (record { use_number = number; value = value_of value })))) }
    ensures err { OnErr result (records.new ≡ records.old) }
{
    chains_at::replace_linked::<D, ValueIndex>(records, user, index, number, value)
}

/// Puts a successor with a new number at an index, before the one that stands there, and its use into the block's list: both or neither.
///
/// # Errors
/// Where a list had to grow and couldn't. Then nothing has changed.
pub fn insert_successor<D: Dialects>(
    records: &mut Records<D>,
    user: ArenaIndex,
    index: usize,
    number: u64,
    block: BlockIndex,
) -> Result<(), AllocError>
    requires linked { AreLinked (chains_of records.old) }
    requires live { IsLiveIn records.old.ops user }
    requires within { index ≤ length (successors_at records.old user) }
    requires named { IsLiveBlock records.old block }
    requires fresh { IsFreshUse (successors_at records.old) number }
    ensures linked { AreLinked (chains_of records.new) }
    ensures keeps { KeepsTree records.old records.new }
    ensures forest { OnOk result (forest_in records.new ≡ on_op (forest_in records.old) user (on_successors (λ xs. insert xs index (record { use_number = number; block = block.index })))) }
    ensures err { OnErr result (records.new ≡ records.old) }
{
    chains_at::insert_linked::<D, BlockIndex>(records, user, index, number, block)
}

/// Takes the successor at an index out, and its use with it. Those behind it move up. It tells what the successor named.
pub fn remove_successor<D: Dialects>(
    records: &mut Records<D>,
    user: ArenaIndex,
    index: usize,
) -> BlockIndex
    requires linked { AreLinked (chains_of records.old) }
    requires live { IsLiveIn records.old.ops user }
    requires within { index < length (successors_at records.old user) }
    ensures value { option_map (λ a. a.names) (slice_get (successors_at records.old user) index) ≡ Some result }
    ensures linked { AreLinked (chains_of records.new) }
    ensures keeps { KeepsTree records.old records.new }
    ensures forest { forest_in records.new ≡ on_op (forest_in records.old) user (on_successors (λ xs. remove xs index)) }
{
    chains_at::remove_linked::<D, BlockIndex>(records, user, index)
}

/// Puts a successor with a new number where another one stands, and its use into the block's list. The other one's use goes with it. Old and new block may be one.
///
/// # Errors
/// Where the block's list had to grow and couldn't. Then nothing has changed.
pub fn replace_successor<D: Dialects>(
    records: &mut Records<D>,
    user: ArenaIndex,
    index: usize,
    number: u64,
    block: BlockIndex,
) -> Result<(), AllocError>
    requires linked { AreLinked (chains_of records.old) }
    requires live { IsLiveIn records.old.ops user }
    requires within { index < length (successors_at records.old user) }
    requires named { IsLiveBlock records.old block }
    requires fresh { IsFreshUse (successors_at records.old) number }
    ensures linked { AreLinked (chains_of records.new) }
    ensures keeps { KeepsTree records.old records.new }
    ensures forest { OnOk result (forest_in records.new ≡ on_op (forest_in records.old) user (on_successors (λ xs. insert (remove xs index) index (record { use_number = number; block = block.index })))) }
    ensures err { OnErr result (records.new ≡ records.old) }
{
    chains_at::replace_linked::<D, BlockIndex>(records, user, index, number, block)
}
