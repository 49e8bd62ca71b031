//! The lists of operations of blocks: each call is one edit of them, and takes no memory.

ghost use Rattle.std.specs.Prelude.{◌≡◌, ◌≢◌, ◌∷◌, ◌++◌, []};
ghost use Rattle.ir_model.specs.ContextIds.{same_id};
ghost use Rattle.ir_model.specs.Forest.{an_op};
ghost use Rattle.ir_model.specs.Nesting.{IsLinked, ops_of};
ghost use Rattle.ir_model.specs.Changes.{on_block, on_ops, in_blocks, without, put_before, put_after, append_ops};
ghost use Rattle.ir_base_arenas.specs.Arena.{IsLiveIn};
ghost use Rattle.ir_core_records.specs.Meaning.{forest_in};
ghost use Rattle.ir_core_records.specs.Nested.{AreNested};
ghost use Rattle.ir_core_records.specs.Tree.{tree_of};
ghost use Rattle.ir_core_nesting.specs.Edits.{KeepsChains};

use crate::list_edits::recall_operation_lists;
use ir_base_dialects::list_laws::lists_hold_nodes;
use ir_base_dialects::{ArenaIndex, Dialects, Ptr, linked_list};
use ir_core_records::{BasicBlock, Operation, Records};

/// Puts an operation that stands in no list at the front of a block's. It stands for pliron's `insert_at_front`.
#[inline(always)]
pub fn insert_at_front<D: Dialects>(records: &mut Records<D>, op: ArenaIndex, block: ArenaIndex)
    requires nested { AreNested (tree_of records.old) }
    requires live { IsLiveIn records.old.ops op }
    requires block_live { IsLiveIn records.old.blocks block }
    requires unlinked { ¬ IsLinked (forest_in records.old) (an_op op) }
    ensures forest { forest_in records.new ≡ on_block (forest_in records.old) block (on_ops (λ os. op ∷ os)) }
    ensures nested { AreNested (tree_of records.new) }
    ensures keeps { KeepsChains records.old records.new }
{
    recall_operation_lists::<D>();
    lists_hold_nodes::<Operation<D>, BasicBlock<D>>();
    linked_list::insert_at_front(
        &mut records.ops,
        &mut records.blocks,
        Ptr::from_index(op),
        Ptr::from_index(block),
    );
}

/// Puts an operation that stands in no list at the back of a block's. It stands for pliron's `insert_at_back`.
#[inline(always)]
pub fn insert_at_back<D: Dialects>(records: &mut Records<D>, op: ArenaIndex, block: ArenaIndex)
    requires nested { AreNested (tree_of records.old) }
    requires live { IsLiveIn records.old.ops op }
    requires block_live { IsLiveIn records.old.blocks block }
    requires unlinked { ¬ IsLinked (forest_in records.old) (an_op op) }
    ensures forest { forest_in records.new ≡ on_block (forest_in records.old) block (on_ops (λ os. os ++ op ∷ [])) }
    ensures nested { AreNested (tree_of records.new) }
    ensures keeps { KeepsChains records.old records.new }
{
    recall_operation_lists::<D>();
    lists_hold_nodes::<Operation<D>, BasicBlock<D>>();
    linked_list::insert_at_back(
        &mut records.ops,
        &mut records.blocks,
        Ptr::from_index(op),
        Ptr::from_index(block),
    );
}

/// Puts an operation that stands in no list right before one that stands in one. It stands for pliron's `insert_before`.
#[inline(always)]
pub fn insert_before<D: Dialects>(records: &mut Records<D>, op: ArenaIndex, mark: ArenaIndex)
    requires nested { AreNested (tree_of records.old) }
    requires live { IsLiveIn records.old.ops op }
    requires unlinked { ¬ IsLinked (forest_in records.old) (an_op op) }
    requires mark_linked { IsLinked (forest_in records.old) (an_op mark) }
    ensures forest { forest_in records.new ≡ in_blocks (forest_in records.old) (put_before same_id op mark) }
    ensures nested { AreNested (tree_of records.new) }
    ensures keeps { KeepsChains records.old records.new }
{
    recall_operation_lists::<D>();
    lists_hold_nodes::<Operation<D>, BasicBlock<D>>();
    linked_list::insert_before(
        &mut records.ops,
        &mut records.blocks,
        Ptr::from_index(op),
        Ptr::from_index(mark),
    );
}

/// Puts an operation that stands in no list right behind one that stands in one. It stands for pliron's `insert_after`.
#[inline(always)]
pub fn insert_after<D: Dialects>(records: &mut Records<D>, op: ArenaIndex, mark: ArenaIndex)
    requires nested { AreNested (tree_of records.old) }
    requires live { IsLiveIn records.old.ops op }
    requires unlinked { ¬ IsLinked (forest_in records.old) (an_op op) }
    requires mark_linked { IsLinked (forest_in records.old) (an_op mark) }
    ensures forest { forest_in records.new ≡ in_blocks (forest_in records.old) (put_after same_id op mark) }
    ensures nested { AreNested (tree_of records.new) }
    ensures keeps { KeepsChains records.old records.new }
{
    recall_operation_lists::<D>();
    lists_hold_nodes::<Operation<D>, BasicBlock<D>>();
    linked_list::insert_after(
        &mut records.ops,
        &mut records.blocks,
        Ptr::from_index(op),
        Ptr::from_index(mark),
    );
}

/// Takes an operation that stands in a list out of it. It stands for pliron's `unlink`.
#[inline(always)]
pub fn unlink<D: Dialects>(records: &mut Records<D>, op: ArenaIndex)
    requires nested { AreNested (tree_of records.old) }
    requires linked { IsLinked (forest_in records.old) (an_op op) }
    ensures forest { forest_in records.new ≡ in_blocks (forest_in records.old) (without same_id op) }
    ensures nested { AreNested (tree_of records.new) }
    ensures keeps { KeepsChains records.old records.new }
{
    recall_operation_lists::<D>();
    lists_hold_nodes::<Operation<D>, BasicBlock<D>>();
    linked_list::unlink(&mut records.ops, &mut records.blocks, Ptr::from_index(op));
}

/// Moves the operations of the donor to the back of the donee's list, and leaves the donor empty. It stands for pliron's `append_linked_list`.
pub fn append<D: Dialects>(records: &mut Records<D>, donee: ArenaIndex, donor: ArenaIndex)
    requires nested { AreNested (tree_of records.old) }
    requires donee_live { IsLiveIn records.old.blocks donee }
    requires donor_live { IsLiveIn records.old.blocks donor }
    requires two { donee ≢ donor }
    ensures forest { forest_in records.new ≡ append_ops (forest_in records.old) donee donor (ops_of (forest_in records.old) donor) }
    ensures nested { AreNested (tree_of records.new) }
    ensures keeps { KeepsChains records.old records.new }
{
    recall_operation_lists::<D>();
    linked_list::append_linked_list(
        &mut records.ops,
        &mut records.blocks,
        Ptr::from_index(donee),
        Ptr::from_index(donor),
    );
}
