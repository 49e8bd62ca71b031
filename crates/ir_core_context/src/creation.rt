//! How operations, blocks and regions are made whole or not at all.
//!
//! An operation is put in bare, is given its regions, and its operands and successors are linked. Where a step is refused, what was made is taken back.

ghost use Rattle.std.specs.Prelude.{◌≡◌, ℕ, ◌+◌, ◌<◌, ◌≤◌, ◌^◌, All, List, [], ◌∷◌, length, map, IfOk, OnOk, OnErr};
ghost use Rattle.ir_model.specs.declared.ids.ArenaIndex.{ArenaIndex};
ghost use Rattle.ir_model.specs.ContextIds.{context_ids};
ghost use Rattle.ir_model.specs.Forest.{Forest, a_value, an_op, the_block};
ghost use Rattle.ir_model.specs.Nesting.{IsLive as IsLiveEntity, IsLiveNamed, WellFormed, operands_of, regions_of, successors_of};
ghost use Rattle.ir_base_arenas.specs.Arena.{room, IsLiveIn};
ghost use Rattle.ir_core_records.specs.Frames.{KeepsTree};
ghost use Rattle.ir_core_records.specs.Meaning.{closed, definition_of, forest_in, value_of};
ghost use Rattle.ir_core_context.specs.Calls.{HasAll, KeepsAll, MakesBlock, MakesOperation, MakesRegion, SkipsAtMost, block_needs, region_needs, needs_of};
ghost use Rattle.ir_core_context.specs.Creation.{AreFresh, Extends, HoldTogether, IsGiven, SkipsUpTo, with_places, Completes, InsertsWhole};
ghost use Rattle.ir_core_context.specs.State.{bare, forest_of, types_of};

use crate::context::Context;
use ir_base_dialects::{ArenaIndex, Dialects, Identifier, Ptr, TypeHandle};
use ir_core_chains::{link_operands, link_successors, unlink_operands};
use ir_core_nesting::{
    add_region, insert_block, insert_operation, remove_bare_operation, remove_last_region,
};
use ir_core_records::{BasicBlock, Definitions, Records, Value};
use std::alloc::{AllocError, Global};

/// What an operation is made of.
#[derive(Drop)]
pub(crate) struct Parts<'a, D: Dialects> {
    /// Its kind.
    pub(crate) kind: u32,
    /// The types of its results.
    pub(crate) types: &'a [TypeHandle],
    /// What its operands name.
    pub(crate) operands: &'a [Value<D>],
    /// What its successors name.
    pub(crate) successors: &'a [Ptr<BasicBlock<D>>],
    /// How many regions it has.
    pub(crate) num_regions: usize,
}

// Takes back so many regions, all that an operation was given. It takes no memory.
fn remove_regions<D: Dialects>(records: &mut Records<D>, op: ArenaIndex, count: usize)
    requires together { HoldTogether records.old }
    requires live { IsLiveIn records.old.ops op }
    requires given { (f : Forest context_ids (closed D.Attr D.TypeKey D.TypeBody D.Saved D.Aux D.Loc)) × (rs : List ArenaIndex) × IsGiven f op rs count (forest_in records.old) }
    ensures together { HoldTogether records.new }
    ensures live { IsLiveIn records.new.ops op }
    ensures forest { (f : Forest context_ids (closed D.Attr D.TypeKey D.TypeBody D.Saved D.Aux D.Loc)) (rs : List ArenaIndex) → IsGiven f op rs count (forest_in records.old) → forest_in records.new ≡ f }
    ensures passed { Extends records.old records.new [] [] [] }
{
    let mut left = count;
    while left > 0 {
        remove_last_region(records, op);
        left -= 1;
    }
}

// Gives an operation without regions so many empty ones: all or none.
//
// # Errors
// Where there is no memory for them. Then the forest is as it was, and at most so many ids were skipped.
fn add_regions<D: Dialects>(
    records: &mut Records<D>,
    op: ArenaIndex,
    count: usize,
) -> Result<(), AllocError>
    requires together { HoldTogether records.old }
    requires live { IsLiveIn records.old.ops op }
    requires bare { regions_of (forest_in records.old) op ≡ [] }
    requires room { count ≤ room records.old.regions }
    ensures together { HoldTogether records.new }
    ensures live { IsLiveIn records.new.ops op }
    ensures given { OnOk result ((rs : List ArenaIndex) × IsGiven (forest_in records.old) op rs count (forest_in records.new) × Extends records.old records.new [] [] rs) }
    ensures same { OnErr result (forest_in records.new ≡ forest_in records.old) }
    ensures skipped { OnErr result (SkipsUpTo records.old records.new 0 0 count) }
{
    for made in 0..count {
        if add_region(records, op).is_err() {
            remove_regions(records, op, made);
            return Err(AllocError);
        }
    }
    Ok(())
}

// Gives an operation without operands and successors these: all or none.
//
// # Errors
// Where a list had to grow and couldn't. Then the forest is as it was.
fn link_places<D: Dialects>(
    records: &mut Records<D>,
    op: ArenaIndex,
    first_use: u64,
    parts: &Parts<'_, D>,
) -> Result<(), AllocError>
    requires together { HoldTogether records.old }
    requires live { IsLiveIn records.old.ops op }
    requires no_operands { operands_of (forest_in records.old) op ≡ [] }
    requires no_successors { successors_of (forest_in records.old) op ≡ [] }
    requires operands { All (λ v. IsLiveNamed (forest_in records.old) (a_value (value_of v.index))) parts.now.operands.now }
    requires successors { All (λ b. IsLiveNamed (forest_in records.old) (the_block b.index)) parts.now.successors.now }
    requires fresh { AreFresh (forest_in records.old) first_use }
    requires numbers { first_use + (length parts.now.operands.now + length parts.now.successors.now) < 2 ^ 64 }
    ensures together { HoldTogether records.new }
    ensures keeps { KeepsTree records.old records.new }
    ensures linked { OnOk result (forest_in records.new ≡ with_places (forest_in records.old) op first_use (map (λ v. v.index) parts.now.operands.now) (first_use + length parts.now.operands.now) (map (λ b. record { index = b.index }) parts.now.successors.now)) }
    ensures same { OnErr result (forest_in records.new ≡ forest_in records.old) }
{
    link_operands(records, op, first_use, parts.operands)?;
    let next_use = first_use + parts.operands.len() as u64;
    if link_successors(records, op, next_use, parts.successors).is_err() {
        unlink_operands(records, op);
        return Err(AllocError);
    }
    Ok(())
}

// Gives a bare operation its regions, operands and successors: all or none.
//
// # Errors
// Where there is no memory for them. Then the forest is as it was, and at most so many ids were skipped.
fn complete<D: Dialects>(
    records: &mut Records<D>,
    op: ArenaIndex,
    first_use: u64,
    parts: &Parts<'_, D>,
) -> Result<(), AllocError>
    requires together { HoldTogether records.old }
    requires live { IsLiveIn records.old.ops op }
    requires no_regions { regions_of (forest_in records.old) op ≡ [] }
    requires no_operands { operands_of (forest_in records.old) op ≡ [] }
    requires no_successors { successors_of (forest_in records.old) op ≡ [] }
    requires operands { All (λ v. IsLiveNamed (forest_in records.old) (a_value (value_of v.index))) parts.now.operands.now }
    requires successors { All (λ b. IsLiveNamed (forest_in records.old) (the_block b.index)) parts.now.successors.now }
    requires fresh { AreFresh (forest_in records.old) first_use }
    requires numbers { first_use + (length parts.now.operands.now + length parts.now.successors.now) < 2 ^ 64 }
    requires room { parts.now.num_regions ≤ room records.old.regions }
    ensures together { HoldTogether records.new }
    ensures live { IsLiveIn records.new.ops op }
    ensures made { OnOk result (Completes records.old records.new op first_use (map (λ v. v.index) parts.now.operands.now) (first_use + length parts.now.operands.now) (map (λ b. record { index = b.index }) parts.now.successors.now) parts.now.num_regions) }
    ensures same { OnErr result (forest_in records.new ≡ forest_in records.old) }
    ensures skipped { OnErr result (SkipsUpTo records.old records.new 0 0 parts.now.num_regions) }
{
    add_regions(records, op, parts.num_regions)?;
    if link_places(records, op, first_use, parts).is_err() {
        remove_regions(records, op, parts.num_regions);
        return Err(AllocError);
    }
    Ok(())
}

// Makes an operation with these results and parts: whole or not at all.
//
// # Errors
// Where there is no memory for it. Then the forest is as it was, and at most one id of an operation and so many of regions were skipped.
fn insert_whole<D: Dialects>(
    records: &mut Records<D>,
    alloc: Global,
    results: Definitions,
    first_use: u64,
    parts: &Parts<'_, D>,
) -> Result<ArenaIndex, AllocError>
    requires together { HoldTogether records.old }
    requires formed { (keys : ℕ) × WellFormed (forest_in records.old) keys }
    requires unused { All (λ r. r.uses ≡ []) results }
    requires operands { All (λ v. IsLiveNamed (forest_in records.old) (a_value (value_of v.index))) parts.now.operands.now }
    requires successors { All (λ b. IsLiveNamed (forest_in records.old) (the_block b.index)) parts.now.successors.now }
    requires fresh { AreFresh (forest_in records.old) first_use }
    requires numbers { first_use + (length parts.now.operands.now + length parts.now.successors.now) < 2 ^ 64 }
    requires op_room { 0 < room records.old.ops }
    requires region_room { parts.now.num_regions ≤ room records.old.regions }
    ensures together { HoldTogether records.new }
    ensures made { IfOk result (λ op. InsertsWhole D.unknown records.old records.new op parts.now.kind (map definition_of results) first_use (map (λ v. v.index) parts.now.operands.now) (first_use + length parts.now.operands.now) (map (λ b. record { index = b.index }) parts.now.successors.now) parts.now.num_regions) }
    ensures same { OnErr result (forest_in records.new ≡ forest_in records.old) }
    ensures skipped { OnErr result (SkipsUpTo records.old records.new 1 0 parts.now.num_regions) }
{
    let op = insert_operation(records, alloc, parts.kind, results)?;
    if complete(records, op, first_use, parts).is_err() {
        remove_bare_operation(records, op);
        return Err(AllocError);
    }
    Ok(op)
}

/// Makes an operation where there are numbers and slots enough: whole or not at all.
///
/// # Errors
/// Where there is no memory for it. Then the context means what it meant, though ids may have been skipped.
pub(crate) fn create_operation<D: Dialects>(
    ctx: &mut Context<D>,
    parts: &Parts<'_, D>,
) -> Result<ArenaIndex, AllocError>
    requires types { All (λ t. t.place < length (types_of ctx.old)) parts.now.types.now }
    requires operands { All (λ v. IsLiveNamed (forest_of ctx.old) (a_value (value_of v.index))) parts.now.operands.now }
    requires successors { All (λ b. IsLiveNamed (forest_of ctx.old) (the_block b.index)) parts.now.successors.now }
    requires room { HasAll ctx.old (needs_of parts.now.types.now parts.now.operands.now parts.now.successors.now parts.now.num_regions) }
    ensures made { IfOk result (λ op. MakesOperation D.unknown (bare ctx.old) (bare ctx.new) op parts.now.kind (map (λ t. t.place) parts.now.types.now) (map (λ v. value_of v.index) parts.now.operands.now) (map (λ b. b.index) parts.now.successors.now) parts.now.num_regions) }
    ensures keeps { OnOk result (KeepsAll ctx.old ctx.new) }
    ensures refused { OnErr result (SkipsAtMost (bare ctx.old) (bare ctx.new) (needs_of parts.now.types.now parts.now.operands.now parts.now.successors.now parts.now.num_regions)) }
{
    let results = Definitions::of_types(ctx.alloc, ctx.next_value, parts.types)?;
    let op = insert_whole(&mut ctx.records, ctx.alloc, results, ctx.next_use, parts)?;
    ctx.next_value += parts.types.len() as u64;
    ctx.next_use += parts.operands.len() as u64 + parts.successors.len() as u64;
    Ok(op)
}

/// Makes a block where there are numbers and slots enough.
///
/// # Errors
/// Where there is no memory for it. Then nothing has changed.
pub(crate) fn create_block<D: Dialects>(
    ctx: &mut Context<D>,
    label: Option<Identifier>,
    types: &[TypeHandle],
) -> Result<ArenaIndex, AllocError>
    requires types { All (λ t. t.place < length (types_of ctx.old)) types.now }
    requires room { HasAll ctx.old (block_needs (length types.now)) }
    ensures made { IfOk result (λ block. MakesBlock D.unknown (bare ctx.old) (bare ctx.new) block label (map (λ t. t.place) types.now)) }
    ensures keeps { OnOk result (KeepsAll ctx.old ctx.new) }
    ensures err { OnErr result (ctx.new ≡ ctx.old) }
{
    let arguments = Definitions::of_types(ctx.alloc, ctx.next_value, types)?;
    let block = insert_block(&mut ctx.records, ctx.alloc, label, arguments)?;
    ctx.next_value += types.len() as u64;
    Ok(block)
}

/// Makes an empty region, the last of a live operation, where there is a slot for it.
///
/// # Errors
/// Where there is no memory for it. Then the context means what it meant, though an id may have been skipped.
pub(crate) fn create_region<D: Dialects>(
    ctx: &mut Context<D>,
    op: ArenaIndex,
) -> Result<ArenaIndex, AllocError>
    requires live { IsLiveEntity (forest_of ctx.old) (an_op op) }
    requires room { HasAll ctx.old region_needs }
    ensures made { IfOk result (λ region. MakesRegion (bare ctx.old) (bare ctx.new) op region) }
    ensures keeps { OnOk result (KeepsAll ctx.old ctx.new) }
    ensures refused { OnErr result (SkipsAtMost (bare ctx.old) (bare ctx.new) region_needs) }
{
    add_region(&mut ctx.records, op)
}
