//! How blocks and regions go, once nothing stands in them.
//!
//! A larger removal takes what is inside away from the innermost on, each by one of these calls or as a bare operation.

ghost use Rattle.std.specs.Prelude.{◌≡◌, ℕ, ◌∷◌, [], Some};
ghost use Rattle.ir_model.specs.ContextIds.{same_id};
ghost use Rattle.ir_model.specs.Changes.{without};
ghost use Rattle.ir_model.specs.Forest.{a_block};
ghost use Rattle.ir_model.specs.Nesting.{IsLinked, Nested, ops_of};
ghost use Rattle.ir_base_arenas.specs.Arena.{cut, IsLiveIn};
ghost use Rattle.ir_base_arenas.specs.Lists.{SameIds};
ghost use Rattle.ir_core_records.specs.declared.record.Definer.TheVariants.{Block};
ghost use Rattle.ir_core_records.specs.Chains.{chains_of};
ghost use Rattle.ir_core_records.specs.Meaning.{forest_in};
ghost use Rattle.ir_core_records.specs.Nested.{AreNested};
ghost use Rattle.ir_core_records.specs.Table.{block_uses_at, KnowOwn, uses_at};
ghost use Rattle.ir_core_records.specs.Tree.{tree_of};
ghost use Rattle.ir_core_nesting.specs.Leaves.{in_ops, without_block, without_region};

use crate::region_moves::drop_region;
use ir_base_dialects::list_laws::{
    container_changes_keep_lists, lists_are_one, lists_hold_nodes, node_changes_keep_lists,
};
use ir_base_dialects::{ArenaIndex, Dialects, Ptr};
use ir_core_records::{BasicBlock, Operation, Records, Region};

/// Removes a live block that stands in no region and has no operations, of which no argument is used, and which is no successor. It takes no memory.
pub fn remove_bare_block<D: Dialects>(records: &mut Records<D>, block: ArenaIndex)
    requires nested { AreNested (tree_of records.old) }
    requires live { IsLiveIn records.old.blocks block }
    requires unlinked { ¬ IsLinked (forest_in records.old) (a_block block) }
    requires empty { ops_of (forest_in records.old) block ≡ [] }
    requires unused { (number : ℕ) → uses_at records.old (record { definer = Block block; number = number }) ≡ [] }
    requires unnamed { block_uses_at records.old (record { index = block }) ≡ [] }
    ensures forest { forest_in records.new ≡ without_block (forest_in records.old) block }
    ensures ops { records.new.ops ≡ records.old.ops }
    ensures blocks { records.new.blocks ≡ cut records.old.blocks block }
    ensures regions { records.new.regions ≡ records.old.regions }
    ensures nested { AreNested (tree_of records.new) }
    ensures chains { chains_of records.new ≡ chains_of records.old }
    ensures own { KnowOwn records.old → KnowOwn records.new }
{
    container_changes_keep_lists::<Operation<D>, BasicBlock<D>>();
    lists_are_one::<Operation<D>, BasicBlock<D>>();
    node_changes_keep_lists::<BasicBlock<D>, Region>();
    lists_are_one::<BasicBlock<D>, Region>();
    lists_hold_nodes::<BasicBlock<D>, Region>();
    records.blocks.remove(Ptr::from_index(block));
}

/// Removes a live region without blocks, and takes it out of the list of its operation, where it is looked for from the back. It takes no memory.
pub fn remove_empty_region<D: Dialects>(records: &mut Records<D>, region: ArenaIndex)
    requires nested { AreNested (tree_of records.old) }
    requires formed { Nested (forest_in records.old) }
    requires empty { (forest_in records.old).regions region ≡ Some [] }
    ensures forest { forest_in records.new ≡ without_region (in_ops (forest_in records.old) (without same_id region)) region }
    ensures op_ids { SameIds records.old.ops records.new.ops }
    ensures blocks { records.new.blocks ≡ records.old.blocks }
    ensures regions { records.new.regions ≡ cut records.old.regions region }
    ensures nested { AreNested (tree_of records.new) }
    ensures chains { chains_of records.new ≡ chains_of records.old }
    ensures own { KnowOwn records.old → KnowOwn records.new }
{
    lists_are_one::<Operation<D>, BasicBlock<D>>();
    lists_are_one::<BasicBlock<D>, Region>();
    container_changes_keep_lists::<BasicBlock<D>, Region>();
    let op = records.regions.at(Ptr::from_index(region)).parent;
    drop_region(&mut records.ops, op, region);
    records.regions.remove(Ptr::from_index(region));
}
