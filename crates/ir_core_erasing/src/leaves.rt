//! An entity in which nothing stands, which uses nothing and is used by nothing, and how it goes.

ghost use Rattle.std.specs.Prelude.{◌≡◌, []};
ghost use Rattle.ir_model.specs.ContextIds.{same_id};
ghost use Rattle.ir_model.specs.Changes.{in_blocks, in_regions, without};
ghost use Rattle.ir_model.specs.Forest.{an_op, a_block, a_region};
ghost use Rattle.ir_model.specs.Nesting.{IsLinked, IsLive, Nested, children};
ghost use Rattle.ir_core_records.specs.Chains.{chains_of, AreLinked};
ghost use Rattle.ir_core_records.specs.Meaning.{entity_of, forest_in};
ghost use Rattle.ir_core_records.specs.Nested.{AreNested};
ghost use Rattle.ir_core_records.specs.Tree.{tree_of};
ghost use Rattle.ir_core_nesting.specs.Edits.{KeepsChains};
ghost use Rattle.ir_core_erasing.specs.Dropping.{Bare, Unnamed};
ghost use Rattle.ir_core_erasing.specs.Erasing.{RemovesLeaf};

use ir_base_dialects::{ArenaIndex, Dialects};
use ir_core_nesting::{
    block_list, operation_list, parent_of, remove_bare_block, remove_bare_operation,
    remove_empty_region,
};
use ir_core_records::{EntityIndex, Records};

// Takes an operation out of its block, if it stands in one.
#[inline(always)]
fn detach_operation<D: Dialects>(records: &mut Records<D>, op: ArenaIndex)
    requires nested { AreNested (tree_of records.old) }
    requires formed { Nested (forest_in records.old) }
    ensures forest { forest_in records.new ≡ in_blocks (forest_in records.old) (without same_id op) }
    ensures nested { AreNested (tree_of records.new) }
    ensures keeps { KeepsChains records.old records.new }
{
    if parent_of(records, EntityIndex::Op(op)).is_some() {
        operation_list::unlink(records, op);
    }
}

// Takes a block out of its region, if it stands in one.
#[inline(always)]
fn detach_block<D: Dialects>(records: &mut Records<D>, block: ArenaIndex)
    requires nested { AreNested (tree_of records.old) }
    requires formed { Nested (forest_in records.old) }
    ensures forest { forest_in records.new ≡ in_regions (forest_in records.old) (without same_id block) }
    ensures nested { AreNested (tree_of records.new) }
    ensures keeps { KeepsChains records.old records.new }
{
    if parent_of(records, EntityIndex::Block(block)).is_some() {
        block_list::unlink(records, block);
    }
}

// Removes an operation without regions.
#[inline(always)]
fn remove_operation<D: Dialects>(records: &mut Records<D>, op: ArenaIndex)
    requires nested { AreNested (tree_of records.old) }
    requires formed { Nested (forest_in records.old) }
    requires linked { AreLinked (chains_of records.old) }
    requires live { IsLive (forest_in records.old) (an_op op) }
    requires leaf { children (forest_in records.old) (an_op op) ≡ [] }
    requires bare { Bare (forest_in records.old) (an_op op) }
    requires unnamed { Unnamed (forest_in records.old) (an_op op) }
    ensures { RemovesLeaf records.old (an_op op) records.new }
{
    detach_operation(records, op);
    remove_bare_operation(records, op);
}

// Removes a block without operations.
#[inline(always)]
fn remove_block<D: Dialects>(records: &mut Records<D>, block: ArenaIndex)
    requires nested { AreNested (tree_of records.old) }
    requires formed { Nested (forest_in records.old) }
    requires linked { AreLinked (chains_of records.old) }
    requires live { IsLive (forest_in records.old) (a_block block) }
    requires leaf { children (forest_in records.old) (a_block block) ≡ [] }
    requires unnamed { Unnamed (forest_in records.old) (a_block block) }
    ensures { RemovesLeaf records.old (a_block block) records.new }
{
    detach_block(records, block);
    remove_bare_block(records, block);
}

// Removes a region without blocks.
#[inline(always)]
fn remove_region<D: Dialects>(records: &mut Records<D>, region: ArenaIndex)
    requires nested { AreNested (tree_of records.old) }
    requires formed { Nested (forest_in records.old) }
    requires live { IsLive (forest_in records.old) (a_region region) }
    requires leaf { children (forest_in records.old) (a_region region) ≡ [] }
    ensures { RemovesLeaf records.old (a_region region) records.new }
{
    remove_empty_region(records, region);
}

// Removes an entity in which nothing stands, which uses nothing, and of which nothing is used.
#[inline(always)]
pub(crate) fn remove_leaf<D: Dialects>(records: &mut Records<D>, entity: EntityIndex)
    requires nested { AreNested (tree_of records.old) }
    requires formed { Nested (forest_in records.old) }
    requires linked { AreLinked (chains_of records.old) }
    requires live { IsLive (forest_in records.old) (entity_of entity) }
    requires leaf { children (forest_in records.old) (entity_of entity) ≡ [] }
    requires bare { Bare (forest_in records.old) (entity_of entity) }
    requires unnamed { Unnamed (forest_in records.old) (entity_of entity) }
    ensures { RemovesLeaf records.old (entity_of entity) records.new }
{
    match entity {
        EntityIndex::Op(op) => remove_operation(records, op),
        EntityIndex::Block(block) => remove_block(records, block),
        EntityIndex::Region(region) => remove_region(records, region),
    }
}
