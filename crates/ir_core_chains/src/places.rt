//! Operands and successors, put in and taken out under both chains at once. The tree stays as it is.

ghost use Rattle.std.specs.Prelude.{◌≡◌, ℕ, ◌+◌, ◌-◌, ◌^◌, ◌<◌, ◌≤◌, ◌++◌, ◌∷◌, [], All, length, map, remove, OnOk, OnErr, slice_get, Some};
ghost use Rattle.std.specs.Option.{option_map};
ghost use Rattle.ir_base_arenas.specs.Arena.{IsLiveIn};
ghost use Rattle.ir_model.specs.Changes.{on_op, on_operands, on_successors};
ghost use Rattle.ir_core_records.specs.Meaning.{forest_in, value_of, operands_from, successors_from};
ghost use Rattle.ir_core_records.specs.Links.{IsFreshUse};
ghost use Rattle.ir_core_records.specs.Table.{operands_at, successors_at, IsValue, IsLiveBlock};
ghost use Rattle.ir_core_records.specs.Chains.{chains_of, AreLinked};
ghost use Rattle.ir_core_records.specs.Frames.{KeepsTree};

use crate::chains;
use crate::named::{Named, Names};
use ir_base_dialects::{ArenaIndex, Dialects};
use ir_core_records::{BlockIndex, Records, ValueIndex};
use std::alloc::AllocError;

/// Puts an operand with a new number at the end, and its use into the value's list: both or neither.
///
/// # Errors
/// Where a list had to grow and couldn't. Then nothing has changed.
#[inline(always)]
pub fn push_operand<D: Dialects>(
    records: &mut Records<D>,
    user: ArenaIndex,
    number: u64,
    value: ValueIndex,
) -> Result<(), AllocError>
    requires linked { AreLinked (chains_of records.old) }
    requires live { IsLiveIn records.old.ops user }
    requires named { IsValue records.old value }
    requires fresh { IsFreshUse (operands_at records.old) number }
    ensures linked { AreLinked (chains_of records.new) }
    ensures keeps { KeepsTree records.old records.new }
    ensures forest { OnOk result (forest_in records.new ≡ on_op (forest_in records.old) user (on_operands (λ xs. xs ++ record { use_number = number; value = value_of value } ∷ []))) }
    ensures err { OnErr result (records.new ≡ records.old) }
{
    let end = ValueIndex::place_count(records, user);
    chains::push_linked::<D, ValueIndex>(records, user, number, value, end)
}

/// Takes the last operand out, and its use with it. It tells what the operand named.
pub fn pop_operand<D: Dialects>(records: &mut Records<D>, user: ArenaIndex) -> ValueIndex
    requires linked { AreLinked (chains_of records.old) }
    requires live { IsLiveIn records.old.ops user }
    requires some { 0 < length (operands_at records.old user) }
    ensures value { option_map (λ a. a.names) (slice_get (operands_at records.old user) (length (operands_at records.old user) - 1)) ≡ Some result }
    ensures linked { AreLinked (chains_of records.new) }
    ensures keeps { KeepsTree records.old records.new }
    ensures forest { forest_in records.new ≡ on_op (forest_in records.old) user (on_operands (λ xs. remove xs (length xs - 1))) }
{
    chains::pop_linked::<D, ValueIndex>(records, user)
}

/// Puts a successor with a new number at the end, and its use into the block's list: both or neither.
///
/// # Errors
/// Where a list had to grow and couldn't. Then nothing has changed.
pub fn push_successor<D: Dialects>(
    records: &mut Records<D>,
    user: ArenaIndex,
    number: u64,
    block: BlockIndex,
) -> Result<(), AllocError>
    requires linked { AreLinked (chains_of records.old) }
    requires live { IsLiveIn records.old.ops user }
    requires named { IsLiveBlock records.old block }
    requires fresh { IsFreshUse (successors_at records.old) number }
    ensures linked { AreLinked (chains_of records.new) }
    ensures keeps { KeepsTree records.old records.new }
    ensures forest { OnOk result (forest_in records.new ≡ on_op (forest_in records.old) user (on_successors (λ xs. xs ++ record { use_number = number; block = block.index } ∷ []))) }
    ensures err { OnErr result (records.new ≡ records.old) }
{
    let end = BlockIndex::place_count(records, user);
    chains::push_linked::<D, BlockIndex>(records, user, number, block, end)
}

/// Takes the last successor out, and its use with it. It tells what the successor named.
pub fn pop_successor<D: Dialects>(records: &mut Records<D>, user: ArenaIndex) -> BlockIndex
    requires linked { AreLinked (chains_of records.old) }
    requires live { IsLiveIn records.old.ops user }
    requires some { 0 < length (successors_at records.old user) }
    ensures value { option_map (λ a. a.names) (slice_get (successors_at records.old user) (length (successors_at records.old user) - 1)) ≡ Some result }
    ensures linked { AreLinked (chains_of records.new) }
    ensures keeps { KeepsTree records.old records.new }
    ensures forest { forest_in records.new ≡ on_op (forest_in records.old) user (on_successors (λ xs. remove xs (length xs - 1))) }
{
    chains::pop_linked::<D, BlockIndex>(records, user)
}

/// Gives an operation without operands these, numbered from `first` on, and puts their uses into the values' lists: all or none.
///
/// # Errors
/// Where a list had to grow and couldn't. Then the forest is as it was.
#[inline(always)]
pub fn link_operands<D: Dialects, V: Names<ValueIndex>>(
    records: &mut Records<D>,
    user: ArenaIndex,
    first: u64,
    values: &[V],
) -> Result<(), AllocError>
    requires linked { AreLinked (chains_of records.old) }
    requires live { IsLiveIn records.old.ops user }
    requires bare { operands_at records.old user ≡ [] }
    requires named { All (λ v. IsValue records.old (V.named v)) values.now }
    requires fresh { (n : ℕ) → first ≤ n → IsFreshUse (operands_at records.old) n }
    requires numbers { first + length values.now < 2 ^ 64 }
    ensures linked { AreLinked (chains_of records.new) }
    ensures keeps { KeepsTree records.old records.new }
    ensures forest { OnOk result (forest_in records.new ≡ on_op (forest_in records.old) user (on_operands (λ _. operands_from first (map (λ v. V.named v) values.now)))) }
    ensures same { OnErr result (forest_in records.new ≡ forest_in records.old) }
{
    chains::link_all::<D, ValueIndex, V>(records, user, first, values)
}

/// Takes all operands out, and their uses with them.
#[inline(always)]
pub fn unlink_operands<D: Dialects>(records: &mut Records<D>, user: ArenaIndex)
    requires linked { AreLinked (chains_of records.old) }
    requires live { IsLiveIn records.old.ops user }
    ensures linked { AreLinked (chains_of records.new) }
    ensures keeps { KeepsTree records.old records.new }
    ensures forest { forest_in records.new ≡ on_op (forest_in records.old) user (on_operands (λ _. [])) }
{
    chains::unlink_all::<D, ValueIndex>(records, user);
}

/// Gives an operation without successors these, numbered from `first` on, and puts their uses into the blocks' lists: all or none.
///
/// # Errors
/// Where a list had to grow and couldn't. Then the forest is as it was.
#[inline(always)]
pub fn link_successors<D: Dialects, V: Names<BlockIndex>>(
    records: &mut Records<D>,
    user: ArenaIndex,
    first: u64,
    blocks: &[V],
) -> Result<(), AllocError>
    requires linked { AreLinked (chains_of records.old) }
    requires live { IsLiveIn records.old.ops user }
    requires bare { successors_at records.old user ≡ [] }
    requires named { All (λ v. IsLiveBlock records.old (V.named v)) blocks.now }
    requires fresh { (n : ℕ) → first ≤ n → IsFreshUse (successors_at records.old) n }
    requires numbers { first + length blocks.now < 2 ^ 64 }
    ensures linked { AreLinked (chains_of records.new) }
    ensures keeps { KeepsTree records.old records.new }
    ensures forest { OnOk result (forest_in records.new ≡ on_op (forest_in records.old) user (on_successors (λ _. successors_from first (map (λ v. V.named v) blocks.now)))) }
    ensures same { OnErr result (forest_in records.new ≡ forest_in records.old) }
{
    chains::link_all::<D, BlockIndex, V>(records, user, first, blocks)
}

/// Takes all successors out, and their uses with them.
#[inline(always)]
pub fn unlink_successors<D: Dialects>(records: &mut Records<D>, user: ArenaIndex)
    requires linked { AreLinked (chains_of records.old) }
    requires live { IsLiveIn records.old.ops user }
    ensures linked { AreLinked (chains_of records.new) }
    ensures keeps { KeepsTree records.old records.new }
    ensures forest { forest_in records.new ≡ on_op (forest_in records.old) user (on_successors (λ _. [])) }
{
    chains::unlink_all::<D, BlockIndex>(records, user);
}
