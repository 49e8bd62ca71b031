//! The lists of blocks of regions: each call is one edit of them, and takes no memory.

ghost use Rattle.std.specs.Prelude.{◌≡◌, ◌≢◌, ◌∷◌, ◌++◌, []};
ghost use Rattle.ir_model.specs.ContextIds.{same_id};
ghost use Rattle.ir_model.specs.Forest.{a_block};
ghost use Rattle.ir_model.specs.Nesting.{IsLinked, blocks_of};
ghost use Rattle.ir_model.specs.Changes.{on_region, in_regions, without, put_before, put_after, append_blocks};
ghost use Rattle.ir_base_arenas.specs.Arena.{IsLiveIn};
ghost use Rattle.ir_core_records.specs.Meaning.{forest_in};
ghost use Rattle.ir_core_records.specs.Nested.{AreNested};
ghost use Rattle.ir_core_records.specs.Tree.{tree_of};
ghost use Rattle.ir_core_nesting.specs.Edits.{KeepsChains};

use crate::list_edits::recall_block_lists;
use ir_base_dialects::list_laws::lists_hold_nodes;
use ir_base_dialects::{ArenaIndex, Dialects, Ptr, linked_list};
use ir_core_records::{BasicBlock, Records, Region};

/// Puts a block that stands in no list at the front of a region's. It stands for pliron's `insert_at_front`.
pub fn insert_at_front<D: Dialects>(records: &mut Records<D>, block: ArenaIndex, region: ArenaIndex)
    requires nested { AreNested (tree_of records.old) }
    requires live { IsLiveIn records.old.blocks block }
    requires region_live { IsLiveIn records.old.regions region }
    requires unlinked { ¬ IsLinked (forest_in records.old) (a_block block) }
    ensures forest { forest_in records.new ≡ on_region (forest_in records.old) region (λ bs. block ∷ bs) }
    ensures nested { AreNested (tree_of records.new) }
    ensures keeps { KeepsChains records.old records.new }
{
    recall_block_lists::<D>();
    lists_hold_nodes::<BasicBlock<D>, Region>();
    linked_list::insert_at_front(
        &mut records.blocks,
        &mut records.regions,
        Ptr::from_index(block),
        Ptr::from_index(region),
    );
}

/// Puts a block that stands in no list at the back of a region's. It stands for pliron's `insert_at_back`.
#[inline(always)]
pub fn insert_at_back<D: Dialects>(records: &mut Records<D>, block: ArenaIndex, region: ArenaIndex)
    requires nested { AreNested (tree_of records.old) }
    requires live { IsLiveIn records.old.blocks block }
    requires region_live { IsLiveIn records.old.regions region }
    requires unlinked { ¬ IsLinked (forest_in records.old) (a_block block) }
    ensures forest { forest_in records.new ≡ on_region (forest_in records.old) region (λ bs. bs ++ block ∷ []) }
    ensures nested { AreNested (tree_of records.new) }
    ensures keeps { KeepsChains records.old records.new }
{
    recall_block_lists::<D>();
    lists_hold_nodes::<BasicBlock<D>, Region>();
    linked_list::insert_at_back(
        &mut records.blocks,
        &mut records.regions,
        Ptr::from_index(block),
        Ptr::from_index(region),
    );
}

/// Puts a block that stands in no list right before one that stands in one. It stands for pliron's `insert_before`.
pub fn insert_before<D: Dialects>(records: &mut Records<D>, block: ArenaIndex, mark: ArenaIndex)
    requires nested { AreNested (tree_of records.old) }
    requires live { IsLiveIn records.old.blocks block }
    requires unlinked { ¬ IsLinked (forest_in records.old) (a_block block) }
    requires mark_linked { IsLinked (forest_in records.old) (a_block mark) }
    ensures forest { forest_in records.new ≡ in_regions (forest_in records.old) (put_before same_id block mark) }
    ensures nested { AreNested (tree_of records.new) }
    ensures keeps { KeepsChains records.old records.new }
{
    recall_block_lists::<D>();
    lists_hold_nodes::<BasicBlock<D>, Region>();
    linked_list::insert_before(
        &mut records.blocks,
        &mut records.regions,
        Ptr::from_index(block),
        Ptr::from_index(mark),
    );
}

/// Puts a block that stands in no list right behind one that stands in one. It stands for pliron's `insert_after`.
pub fn insert_after<D: Dialects>(records: &mut Records<D>, block: ArenaIndex, mark: ArenaIndex)
    requires nested { AreNested (tree_of records.old) }
    requires live { IsLiveIn records.old.blocks block }
    requires unlinked { ¬ IsLinked (forest_in records.old) (a_block block) }
    requires mark_linked { IsLinked (forest_in records.old) (a_block mark) }
    ensures forest { forest_in records.new ≡ in_regions (forest_in records.old) (put_after same_id block mark) }
    ensures nested { AreNested (tree_of records.new) }
    ensures keeps { KeepsChains records.old records.new }
{
    recall_block_lists::<D>();
    lists_hold_nodes::<BasicBlock<D>, Region>();
    linked_list::insert_after(
        &mut records.blocks,
        &mut records.regions,
        Ptr::from_index(block),
        Ptr::from_index(mark),
    );
}

/// Takes a block that stands in a list out of it. It stands for pliron's `unlink`.
#[inline(always)]
pub fn unlink<D: Dialects>(records: &mut Records<D>, block: ArenaIndex)
    requires nested { AreNested (tree_of records.old) }
    requires linked { IsLinked (forest_in records.old) (a_block block) }
    ensures forest { forest_in records.new ≡ in_regions (forest_in records.old) (without same_id block) }
    ensures nested { AreNested (tree_of records.new) }
    ensures keeps { KeepsChains records.old records.new }
{
    recall_block_lists::<D>();
    lists_hold_nodes::<BasicBlock<D>, Region>();
    linked_list::unlink(
        &mut records.blocks,
        &mut records.regions,
        Ptr::from_index(block),
    );
}

/// Moves the blocks of the donor to the back of the donee's list, and leaves the donor empty. It stands for pliron's `append_linked_list`.
pub fn append<D: Dialects>(records: &mut Records<D>, donee: ArenaIndex, donor: ArenaIndex)
    requires nested { AreNested (tree_of records.old) }
    requires donee_live { IsLiveIn records.old.regions donee }
    requires donor_live { IsLiveIn records.old.regions donor }
    requires two { donee ≢ donor }
    ensures forest { forest_in records.new ≡ append_blocks (forest_in records.old) donee donor (blocks_of (forest_in records.old) donor) }
    ensures nested { AreNested (tree_of records.new) }
    ensures keeps { KeepsChains records.old records.new }
{
    recall_block_lists::<D>();
    linked_list::append_linked_list(
        &mut records.blocks,
        &mut records.regions,
        Ptr::from_index(donee),
        Ptr::from_index(donor),
    );
}
