//! How operations, blocks and regions are made bare, and taken back.
//!
//! What is made stands in no list, uses nothing and is used by nothing: a caller gives it operands and successors, and puts it into a list. Where a later step is refused, what was made is taken back.

ghost use Rattle.std.specs.Prelude.{◌≡◌, ℕ, ◌+◌, ◌<◌, ◌∷◌, ◌++◌, [], List, All, map, Some, None, IfOk, OnOk, OnErr, is_ok, if◌then◌else◌};
ghost use Rattle.ir_model.specs.declared.ids.ArenaIndex.{ArenaIndex};
ghost use Rattle.ir_model.specs.Forest.{an_op};
ghost use Rattle.ir_model.specs.Ids.{Distinct};
ghost use Rattle.ir_model.specs.Nesting.{IsLinked, regions_of, operands_of, successors_of};
ghost use Rattle.ir_model.specs.Changes.{new_op as with_op, new_block as with_block, add_region as with_region, on_op, on_regions};
ghost use Rattle.ir_base_arenas.specs.Arena.{get, room, cut, IsLiveIn};
ghost use Rattle.ir_base_arenas.specs.Lists.{SameIds};
ghost use Rattle.ir_core_records.specs.declared.record.Definer.TheVariants.{Op};
ghost use Rattle.ir_core_records.specs.Chains.{chains_of, AreLinked};
ghost use Rattle.ir_core_records.specs.Lists.{edited, in_record};
ghost use Rattle.ir_core_records.specs.Growth.{Grows, SkipsIds, Clears};
ghost use Rattle.ir_core_records.specs.Meaning.{forest_in, definition_of};
ghost use Rattle.ir_core_records.specs.Nested.{AreNested};
ghost use Rattle.ir_core_records.specs.Table.{KnowOwn, uses_at};
ghost use Rattle.ir_core_records.specs.Tree.{tree_of, op_regions};
ghost use Rattle.ir_core_nesting.specs.Bare.{bare_op, bare_block};
ghost use Rattle.ir_core_nesting.specs.Leaves.{without_op, without_region};

use ir_base_arenas::Link;
use ir_base_dialects::attribute::AttributeDict;
use ir_base_dialects::list_laws::{
    container_changes_keep_lists, lists_are_one, lists_hold_nodes, node_changes_keep_lists,
};
use ir_base_dialects::{Arena, ArenaIndex, Dialects, Identifier, PlainSeq, Ptr, Seq, unknown_loc};
use ir_core_records::{
    BasicBlock, BasicBlockMut, Definitions, Operation, OperationMut, OpsInBlock, Records, Region,
};
use std::alloc::{AllocError, Global};

// An operation of this kind with these results, and with nothing else.
#[inline(always)]
fn new_operation<D: Dialects>(
    alloc: Global,
    index: ArenaIndex,
    kind: u32,
    results: Definitions,
) -> Operation<D>
    ensures { result ≡ bare_op D.unknown index kind results }
{
    Operation {
        index,
        kind,
        results,
        operands: PlainSeq::new(alloc),
        successors: Seq::new(alloc),
        regions: Seq::new(alloc),
        next: Link::none(),
        prev: Link::none(),
        parent: Link::none(),
        rest: OperationMut {
            attributes: AttributeDict::new(alloc),
            loc: unknown_loc::<D>(),
        },
    }
}

// A block with this label and these arguments, and with nothing else.
#[inline(always)]
fn new_block<D: Dialects>(
    alloc: Global,
    index: ArenaIndex,
    label: Option<Identifier>,
    arguments: Definitions,
) -> BasicBlock<D>
    ensures { result ≡ bare_block D.unknown index label arguments }
{
    BasicBlock {
        index,
        arguments,
        uses: PlainSeq::new(alloc),
        next: Link::none(),
        prev: Link::none(),
        parent: Link::none(),
        ops_list: OpsInBlock {
            first: Link::none(),
            last: Link::none(),
        },
        rest: BasicBlockMut {
            attributes: AttributeDict::new(alloc),
            label,
            loc: unknown_loc::<D>(),
        },
    }
}

/// Makes an operation of this kind with these results, in no block, with no operands, successors, regions and attributes. It stands for the first part of pliron's `Operation::new`.
///
/// # Errors
/// Where the arena had to grow and couldn't. Then nothing has changed.
#[inline(always)]
pub fn insert_operation<D: Dialects>(
    records: &mut Records<D>,
    alloc: Global,
    kind: u32,
    results: Definitions,
) -> Result<ArenaIndex, AllocError>
    requires nested { AreNested (tree_of records.old) }
    requires room { 0 < room records.old.ops }
    requires unused { All (λ r. r.uses ≡ []) results }
    ensures grows { IfOk result (λ op. Grows records.old.ops records.new.ops (op ∷ [])) }
    ensures room { OnOk result (room records.new.ops + 1 ≡ room records.old.ops) }
    ensures forest { IfOk result (λ op. forest_in records.new ≡ with_op (forest_in records.old) op D.unknown kind (map definition_of results) [] [] []) }
    ensures blocks { records.new.blocks ≡ records.old.blocks }
    ensures regions { records.new.regions ≡ records.old.regions }
    ensures nested { AreNested (tree_of records.new) }
    ensures chains { chains_of records.new ≡ chains_of records.old }
    ensures linked { AreLinked (chains_of records.old) → AreLinked (chains_of records.new) }
    ensures own { KnowOwn records.old → KnowOwn records.new }
    ensures err { OnErr result (records.new ≡ records.old) }
{
    node_changes_keep_lists::<Operation<D>, BasicBlock<D>>();
    lists_are_one::<Operation<D>, BasicBlock<D>>();
    let inserted = records.ops.insert_with(
        move |op: Ptr<Operation<D>>|
            ensures { result ≡ bare_op D.unknown op.index kind results }
        { new_operation(alloc, op.index, kind, results) },
    );
    match inserted {
        Ok(op) => Ok(op.index()),
        Err(_) => Err(AllocError),
    }
}

/// Makes a block with this label and these arguments, in no region, with no operations and no attributes. It stands for the first part of pliron's `BasicBlock::new`.
///
/// # Errors
/// Where the arena had to grow and couldn't. Then nothing has changed.
#[inline(always)]
pub fn insert_block<D: Dialects>(
    records: &mut Records<D>,
    alloc: Global,
    label: Option<Identifier>,
    arguments: Definitions,
) -> Result<ArenaIndex, AllocError>
    requires nested { AreNested (tree_of records.old) }
    requires room { 0 < room records.old.blocks }
    requires unused { All (λ r. r.uses ≡ []) arguments }
    ensures grows { IfOk result (λ block. Grows records.old.blocks records.new.blocks (block ∷ [])) }
    ensures room { OnOk result (room records.new.blocks + 1 ≡ room records.old.blocks) }
    ensures forest { IfOk result (λ block. forest_in records.new ≡ with_block (forest_in records.old) block D.unknown label (map definition_of arguments)) }
    ensures ops { records.new.ops ≡ records.old.ops }
    ensures regions { records.new.regions ≡ records.old.regions }
    ensures nested { AreNested (tree_of records.new) }
    ensures chains { chains_of records.new ≡ chains_of records.old }
    ensures linked { AreLinked (chains_of records.old) → AreLinked (chains_of records.new) }
    ensures own { KnowOwn records.old → KnowOwn records.new }
    ensures err { OnErr result (records.new ≡ records.old) }
{
    node_changes_keep_lists::<BasicBlock<D>, Region>();
    lists_are_one::<BasicBlock<D>, Region>();
    container_changes_keep_lists::<Operation<D>, BasicBlock<D>>();
    lists_are_one::<Operation<D>, BasicBlock<D>>();
    let inserted = records.blocks.insert_with(
        move |block: Ptr<BasicBlock<D>>|
            ensures { result ≡ bare_block D.unknown block.index label arguments }
        { new_block(alloc, block.index, label, arguments) },
    );
    match inserted {
        Ok(block) => Ok(block.index()),
        Err(_) => Err(AllocError),
    }
}

// Puts a region at the end of the list of a live operation, or leaves the list as it was.
#[inline(always)]
pub(crate) fn push_region<D: Dialects>(
    ops: &mut Arena<Operation<D>>,
    op: ArenaIndex,
    region: ArenaIndex,
) -> Result<(), AllocError>
    requires { IsLiveIn ops.old op }
    ensures { ops.new ≡ edited (λ x. record x { regions = if is_ok result then x.regions ++ region ∷ [] else x.regions }) ops.old op }
{
    ops.at_mut(Ptr::from_index(op)).regions.push(region)
}

// Takes the last region out of the list of a live operation.
#[inline(always)]
fn pop_region<D: Dialects>(ops: &mut Arena<Operation<D>>, op: ArenaIndex) -> ArenaIndex
    requires live { IsLiveIn ops.old op }
    requires some { ¬ (in_record op_regions [] (get ops.old op) ≡ []) }
    ensures { (rest : List ArenaIndex) × (in_record op_regions [] (get ops.old op) ≡ rest ++ result ∷ []) × (ops.new ≡ edited (λ x. record x { regions = rest }) ops.old op) }
{
    ops.at_mut(Ptr::from_index(op)).regions.pop().unwrap()
}

/// Makes an empty region, the last of a live operation.
///
/// # Errors
/// Where the arena or the operation's list had to grow and couldn't. Then the forest is as it was, and at most one id is skipped.
#[inline(always)]
pub fn add_region<D: Dialects>(
    records: &mut Records<D>,
    op: ArenaIndex,
) -> Result<ArenaIndex, AllocError>
    requires nested { AreNested (tree_of records.old) }
    requires live { IsLiveIn records.old.ops op }
    requires room { 0 < room records.old.regions }
    ensures grows { IfOk result (λ region. Grows records.old.regions records.new.regions (region ∷ [])) }
    ensures room { OnOk result (room records.new.regions + 1 ≡ room records.old.regions) }
    ensures forest { IfOk result (λ region. forest_in records.new ≡ with_region (forest_in records.old) op region) }
    ensures op_ids { SameIds records.old.ops records.new.ops }
    ensures blocks { records.new.blocks ≡ records.old.blocks }
    ensures nested { AreNested (tree_of records.new) }
    ensures chains { chains_of records.new ≡ chains_of records.old }
    ensures linked { AreLinked (chains_of records.old) → AreLinked (chains_of records.new) }
    ensures own { KnowOwn records.old → KnowOwn records.new }
    ensures same { OnErr result (forest_in records.new ≡ forest_in records.old) }
    ensures skipped { OnErr result (SkipsIds records.old.regions records.new.regions 1) }
{
    node_changes_keep_lists::<Operation<D>, BasicBlock<D>>();
    lists_are_one::<Operation<D>, BasicBlock<D>>();
    container_changes_keep_lists::<BasicBlock<D>, Region>();
    lists_are_one::<BasicBlock<D>, Region>();
    let place = records.ops.at(Ptr::from_index(op)).regions.len();
    let inserted = records.regions.insert_with(
        move |made: Ptr<Region>|
            ensures { result ≡ record { index = made.index; parent = op; first = None; last = None; place = place } }
        {
            Region {
                index: made.index,
                parent: op,
                first: Link::none(),
                last: Link::none(),
                place,
            }
        },
    );
    let Ok(region) = inserted else {
        return Err(AllocError);
    };
    if push_region(&mut records.ops, op, region.index()).is_err() {
        records.regions.remove(region);
        return Err(AllocError);
    }
    Ok(region.index())
}

/// Takes back a live operation that stands in no block, has no regions, operands and successors, and of which no result is used. It takes no memory.
#[inline(always)]
pub fn remove_bare_operation<D: Dialects>(records: &mut Records<D>, op: ArenaIndex)
    requires nested { AreNested (tree_of records.old) }
    requires live { IsLiveIn records.old.ops op }
    requires unlinked { ¬ IsLinked (forest_in records.old) (an_op op) }
    requires regions { regions_of (forest_in records.old) op ≡ [] }
    requires operands { operands_of (forest_in records.old) op ≡ [] }
    requires successors { successors_of (forest_in records.old) op ≡ [] }
    requires unused { (number : ℕ) → uses_at records.old (record { definer = Op op; number = number }) ≡ [] }
    ensures forest { forest_in records.new ≡ without_op (forest_in records.old) op }
    ensures cleared { Clears records.old.ops records.new.ops (op ∷ []) }
    ensures ops { records.new.ops ≡ cut records.old.ops op }
    ensures blocks { records.new.blocks ≡ records.old.blocks }
    ensures regions { records.new.regions ≡ records.old.regions }
    ensures nested { AreNested (tree_of records.new) }
    ensures chains { chains_of records.new ≡ chains_of records.old }
    ensures linked { AreLinked (chains_of records.old) → AreLinked (chains_of records.new) }
    ensures own { KnowOwn records.old → KnowOwn records.new }
{
    node_changes_keep_lists::<Operation<D>, BasicBlock<D>>();
    lists_are_one::<Operation<D>, BasicBlock<D>>();
    lists_hold_nodes::<Operation<D>, BasicBlock<D>>();
    records.ops.remove(Ptr::from_index(op));
}

/// Takes back the last region of a live operation, which is empty. It takes no memory.
#[inline(always)]
pub fn remove_last_region<D: Dialects>(records: &mut Records<D>, op: ArenaIndex)
    requires nested { AreNested (tree_of records.old) }
    requires live { IsLiveIn records.old.ops op }
    requires some { ¬ (regions_of (forest_in records.old) op ≡ []) }
    requires once { Distinct (regions_of (forest_in records.old) op) }
    requires empty { (rest : List ArenaIndex) (region : ArenaIndex) → regions_of (forest_in records.old) op ≡ rest ++ region ∷ []
        → (forest_in records.old).regions region ≡ Some [] }
    ensures forest { (rest : List ArenaIndex) (region : ArenaIndex) → regions_of (forest_in records.old) op ≡ rest ++ region ∷ []
        → forest_in records.new ≡ without_region (on_op (forest_in records.old) op (on_regions (λ _. rest))) region }
    ensures cleared { (rest : List ArenaIndex) (region : ArenaIndex) → regions_of (forest_in records.old) op ≡ rest ++ region ∷ []
        → Clears records.old.regions records.new.regions (region ∷ []) }
    ensures op_ids { SameIds records.old.ops records.new.ops }
    ensures blocks { records.new.blocks ≡ records.old.blocks }
    ensures nested { AreNested (tree_of records.new) }
    ensures chains { chains_of records.new ≡ chains_of records.old }
    ensures linked { AreLinked (chains_of records.old) → AreLinked (chains_of records.new) }
    ensures own { KnowOwn records.old → KnowOwn records.new }
{
    node_changes_keep_lists::<Operation<D>, BasicBlock<D>>();
    lists_are_one::<Operation<D>, BasicBlock<D>>();
    container_changes_keep_lists::<BasicBlock<D>, Region>();
    lists_are_one::<BasicBlock<D>, Region>();
    let region = pop_region(&mut records.ops, op);
    records.regions.remove(Ptr::from_index(region));
}
