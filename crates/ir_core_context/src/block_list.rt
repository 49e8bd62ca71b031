//! Blocks in the lists of regions, and regions in the lists of operations: each call is one edit of them, and but for `move_to_op` takes no memory.

ghost use Rattle.std.specs.Prelude.{◌≡◌, ◌∷◌, ◌++◌, [], if◌then◌else◌, IfErr, OnErr, OnOk};
ghost use Rattle.std.specs.List.{list_any};
ghost use Rattle.ir_model.specs.ContextIds.{same_id};
ghost use Rattle.ir_model.specs.Forest.{a_block, a_region, an_op};
ghost use Rattle.ir_model.specs.Nesting.{In, Inside, IsLinked, IsLive, blocks_of, regions_of};
ghost use Rattle.ir_model.specs.Changes.{append_blocks, in_regions, move_region as moved, on_region, put_after, put_before, without};
ghost use Rattle.ir_model.specs.Edits.{MayGoBeside, MayGoInto, MayJoin};
ghost use Rattle.ir_core_context.specs.Calls.{KeepsAll, SameButForest};
ghost use Rattle.ir_core_context.specs.GoingBack.{BlockGoesBack, BlockMayGoBack};
ghost use Rattle.ir_core_context.specs.State.{bare, forest_of};

use crate::context::Context;
use ir_base_dialects::{CoreError, Dialects, Ptr};
use ir_core_nesting::{block_list, move_region};
use ir_core_records::{BasicBlock, Operation, Region};

/// How a live block is put into the list of a region, and taken out. It stands for pliron's `LinkedList` on `Ptr<BasicBlock>`.
pub trait BlockList<D: Dialects> {
    ghost use Rattle.ir_model.specs.declared.ids.ArenaIndex.{ArenaIndex};

    /// The handle of what has the list. It stands for pliron's `ContainerType`.
    type Container;

    ghost index_of: { Self → ArenaIndex };

    ghost container_index_of: { Self.Container → ArenaIndex };

    /// Puts the block at the front of the region's list. It is in no list yet, and the region isn't inside it.
    fn insert_at_front(self, container: Self::Container, ctx: &mut Context<D>)
        requires live { IsLive (forest_of ctx.old) (a_block (index_of self)) }
        requires container_live { IsLive (forest_of ctx.old) (a_region (container_index_of container)) }
        requires may_go { MayGoInto (forest_of ctx.old) (a_block (index_of self)) (a_region (container_index_of container)) }
        ensures forest { forest_of ctx.new ≡ on_region (forest_of ctx.old) (container_index_of container) (λ bs. index_of self ∷ bs) }
        ensures rest { SameButForest (bare ctx.old) (bare ctx.new) }
        ensures keeps { KeepsAll ctx.old ctx.new };

    /// Puts the block at the back of the region's list. It is in no list yet, and the region isn't inside it.
    fn insert_at_back(self, container: Self::Container, ctx: &mut Context<D>)
        requires live { IsLive (forest_of ctx.old) (a_block (index_of self)) }
        requires container_live { IsLive (forest_of ctx.old) (a_region (container_index_of container)) }
        requires may_go { MayGoInto (forest_of ctx.old) (a_block (index_of self)) (a_region (container_index_of container)) }
        ensures forest { forest_of ctx.new ≡ on_region (forest_of ctx.old) (container_index_of container) (λ bs. bs ++ index_of self ∷ []) }
        ensures rest { SameButForest (bare ctx.old) (bare ctx.new) }
        ensures keeps { KeepsAll ctx.old ctx.new };

    /// Puts the block right before the mark, which is in a list. It is in no list yet, and the mark's region isn't inside it.
    fn insert_before(self, ctx: &mut Context<D>, mark: Self)
        requires live { IsLive (forest_of ctx.old) (a_block (index_of self)) }
        requires may_go { MayGoBeside (forest_of ctx.old) (a_block (index_of self)) (a_block (index_of mark)) }
        ensures forest { forest_of ctx.new ≡ in_regions (forest_of ctx.old) (put_before same_id (index_of self) (index_of mark)) }
        ensures rest { SameButForest (bare ctx.old) (bare ctx.new) }
        ensures keeps { KeepsAll ctx.old ctx.new };

    /// Puts the block right after the mark, which is in a list. It is in no list yet, and the mark's region isn't inside it.
    fn insert_after(self, ctx: &mut Context<D>, mark: Self)
        requires live { IsLive (forest_of ctx.old) (a_block (index_of self)) }
        requires may_go { MayGoBeside (forest_of ctx.old) (a_block (index_of self)) (a_block (index_of mark)) }
        ensures forest { forest_of ctx.new ≡ in_regions (forest_of ctx.old) (put_after same_id (index_of self) (index_of mark)) }
        ensures rest { SameButForest (bare ctx.old) (bare ctx.new) }
        ensures keeps { KeepsAll ctx.old ctx.new };

    /// Takes the block out of the list that it is in.
    fn unlink(self, ctx: &mut Context<D>)
        requires linked { IsLinked (forest_of ctx.old) (a_block (index_of self)) }
        ensures forest { forest_of ctx.new ≡ in_regions (forest_of ctx.old) (without same_id (index_of self)) }
        ensures rest { SameButForest (bare ctx.old) (bare ctx.new) }
        ensures keeps { KeepsAll ctx.old ctx.new }
        ensures may_go_back { BlockMayGoBack (forest_of ctx.old) (forest_of ctx.new) (index_of self) }
        ensures goes_back { BlockGoesBack (forest_of ctx.old) (forest_of ctx.new) (index_of self) };
}

impl<D: Dialects> BlockList<D> for Ptr<BasicBlock<D>> {
    type Container = Ptr<Region>;

    ghost index_of = { λ p. p.index };

    ghost container_index_of = { λ p. p.index };

    fn insert_at_front(self, container: Ptr<Region>, ctx: &mut Context<D>) {
        block_list::insert_at_front(&mut ctx.records, self.index, container.index);
    }

    #[inline(always)]
    fn insert_at_back(self, container: Ptr<Region>, ctx: &mut Context<D>) {
        block_list::insert_at_back(&mut ctx.records, self.index, container.index);
    }

    fn insert_before(self, ctx: &mut Context<D>, mark: Self) {
        block_list::insert_before(&mut ctx.records, self.index, mark.index);
    }

    fn insert_after(self, ctx: &mut Context<D>, mark: Self) {
        block_list::insert_after(&mut ctx.records, self.index, mark.index);
    }

    #[inline(always)]
    fn unlink(self, ctx: &mut Context<D>) {
        block_list::unlink(&mut ctx.records, self.index);
    }
}

/// How the blocks of one region are moved behind those of another. It stands for pliron's `ContainsLinkedList`.
pub trait BlockContainer<D: Dialects> {
    ghost use Rattle.ir_model.specs.declared.ids.ArenaIndex.{ArenaIndex};

    ghost index_of: { Self → ArenaIndex };

    /// Moves all blocks of the donor behind those of this region, and leaves the donor empty. They are two regions, of which neither is inside a block of the donor.
    fn append_linked_list(self, ctx: &mut Context<D>, donor: Self)
        requires live { IsLive (forest_of ctx.old) (a_region (index_of self)) }
        requires donor_live { IsLive (forest_of ctx.old) (a_region (index_of donor)) }
        requires may_join { MayJoin (forest_of ctx.old) (a_region (index_of self)) (a_region (index_of donor)) }
        ensures forest { forest_of ctx.new ≡ append_blocks (forest_of ctx.old) (index_of self) (index_of donor) (blocks_of (forest_of ctx.old) (index_of donor)) }
        ensures rest { SameButForest (bare ctx.old) (bare ctx.new) }
        ensures keeps { KeepsAll ctx.old ctx.new };
}

impl<D: Dialects> BlockContainer<D> for Ptr<Region> {
    ghost index_of = { λ p. p.index };

    fn append_linked_list(self, ctx: &mut Context<D>, donor: Self) {
        block_list::append(&mut ctx.records, self.index, donor.index);
    }
}

/// How a live region is moved to another operation.
pub trait RegionMoves<D: Dialects> {
    ghost use Rattle.ir_model.specs.declared.ids.ArenaIndex.{ArenaIndex};

    /// The handle of what has the list of regions.
    type Parent;

    ghost index_of: { Self → ArenaIndex };

    ghost parent_index_of: { Self.Parent → ArenaIndex };

    /// Moves the region to the back of the regions of a live operation that isn't inside it; one that is there already stays where it is. The regions left behind keep their order. It stands for pliron's `Region::move_to_op`.
    ///
    /// # Errors
    /// `OutOfMemory`, where the region isn't there already. Then the forest is as it was.
    fn move_to_op(self, op: Self::Parent, ctx: &mut Context<D>) -> Result<(), CoreError>
        requires live { IsLive (forest_of ctx.old) (a_region (index_of self)) }
        requires op_live { IsLive (forest_of ctx.old) (an_op (parent_index_of op)) }
        requires outside { ¬ Inside (forest_of ctx.old) (a_region (index_of self)) (an_op (parent_index_of op)) }
        ensures forest { OnOk result (forest_of ctx.new ≡ (if list_any (λ g. same_id g (index_of self)) (regions_of (forest_of ctx.old) (parent_index_of op)) then forest_of ctx.old else moved (forest_of ctx.old) (index_of self) (parent_index_of op))) }
        ensures same { OnErr result (forest_of ctx.new ≡ forest_of ctx.old) }
        ensures elsewhere { OnErr result (¬ In (index_of self) (regions_of (forest_of ctx.old) (parent_index_of op))) }
        ensures rest { SameButForest (bare ctx.old) (bare ctx.new) }
        ensures keeps { KeepsAll ctx.old ctx.new }
        ensures memory { IfErr result (λ e. e ≡ CoreError.OutOfMemory) };
}

impl<D: Dialects> RegionMoves<D> for Ptr<Region> {
    type Parent = Ptr<Operation<D>>;

    ghost index_of = { λ p. p.index };

    ghost parent_index_of = { λ p. p.index };

    fn move_to_op(self, op: Ptr<Operation<D>>, ctx: &mut Context<D>) -> Result<(), CoreError> {
        move_region(&mut ctx.records, self.index, op.index)?;
        Ok(())
    }
}
