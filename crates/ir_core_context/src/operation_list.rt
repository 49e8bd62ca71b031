//! Operations in the lists of blocks: each call is one edit of them, and takes no memory.

ghost use Rattle.std.specs.Prelude.{◌≡◌, ◌∷◌, ◌++◌, []};
ghost use Rattle.ir_model.specs.ContextIds.{same_id};
ghost use Rattle.ir_model.specs.Forest.{a_block, an_op};
ghost use Rattle.ir_model.specs.Nesting.{IsLinked, IsLive, ops_of};
ghost use Rattle.ir_model.specs.Changes.{append_ops, in_blocks, on_block, on_ops, put_after, put_before, without};
ghost use Rattle.ir_model.specs.Edits.{MayGoBeside, MayGoInto, MayJoin};
ghost use Rattle.ir_core_context.specs.Calls.{KeepsAll, SameButForest};
ghost use Rattle.ir_core_context.specs.GoingBack.{OpGoesBack, OpMayGoBack};
ghost use Rattle.ir_core_context.specs.State.{bare, forest_of};

use crate::context::Context;
use ir_base_dialects::{Dialects, Ptr};
use ir_core_nesting::operation_list;
use ir_core_records::{BasicBlock, Operation};

/// How a live operation is put into the list of a block, and taken out. It stands for pliron's `LinkedList` on `Ptr<Operation>`.
pub trait OperationList<D: Dialects> {
    ghost use Rattle.ir_model.specs.declared.ids.ArenaIndex.{ArenaIndex};

    /// The handle of what has the list. It stands for pliron's `ContainerType`.
    type Container;

    ghost index_of: { Self → ArenaIndex };

    ghost container_index_of: { Self.Container → ArenaIndex };

    /// Puts the operation at the front of the block's list. It is in no list yet, and the block isn't inside it.
    fn insert_at_front(self, container: Self::Container, ctx: &mut Context<D>)
        requires live { IsLive (forest_of ctx.old) (an_op (index_of self)) }
        requires container_live { IsLive (forest_of ctx.old) (a_block (container_index_of container)) }
        requires may_go { MayGoInto (forest_of ctx.old) (an_op (index_of self)) (a_block (container_index_of container)) }
        ensures forest { forest_of ctx.new ≡ on_block (forest_of ctx.old) (container_index_of container) (on_ops (λ os. index_of self ∷ os)) }
        ensures rest { SameButForest (bare ctx.old) (bare ctx.new) }
        ensures keeps { KeepsAll ctx.old ctx.new };

    /// Puts the operation at the back of the block's list. It is in no list yet, and the block isn't inside it.
    fn insert_at_back(self, container: Self::Container, ctx: &mut Context<D>)
        requires live { IsLive (forest_of ctx.old) (an_op (index_of self)) }
        requires container_live { IsLive (forest_of ctx.old) (a_block (container_index_of container)) }
        requires may_go { MayGoInto (forest_of ctx.old) (an_op (index_of self)) (a_block (container_index_of container)) }
        ensures forest { forest_of ctx.new ≡ on_block (forest_of ctx.old) (container_index_of container) (on_ops (λ os. os ++ index_of self ∷ [])) }
        ensures rest { SameButForest (bare ctx.old) (bare ctx.new) }
        ensures keeps { KeepsAll ctx.old ctx.new };

    /// Puts the operation right before the mark, which is in a list. It is in no list yet, and the mark's block isn't inside it.
    fn insert_before(self, ctx: &mut Context<D>, mark: Self)
        requires live { IsLive (forest_of ctx.old) (an_op (index_of self)) }
        requires may_go { MayGoBeside (forest_of ctx.old) (an_op (index_of self)) (an_op (index_of mark)) }
        ensures forest { forest_of ctx.new ≡ in_blocks (forest_of ctx.old) (put_before same_id (index_of self) (index_of mark)) }
        ensures rest { SameButForest (bare ctx.old) (bare ctx.new) }
        ensures keeps { KeepsAll ctx.old ctx.new };

    /// Puts the operation right after the mark, which is in a list. It is in no list yet, and the mark's block isn't inside it.
    fn insert_after(self, ctx: &mut Context<D>, mark: Self)
        requires live { IsLive (forest_of ctx.old) (an_op (index_of self)) }
        requires may_go { MayGoBeside (forest_of ctx.old) (an_op (index_of self)) (an_op (index_of mark)) }
        ensures forest { forest_of ctx.new ≡ in_blocks (forest_of ctx.old) (put_after same_id (index_of self) (index_of mark)) }
        ensures rest { SameButForest (bare ctx.old) (bare ctx.new) }
        ensures keeps { KeepsAll ctx.old ctx.new };

    /// Takes the operation out of the list that it is in.
    fn unlink(self, ctx: &mut Context<D>)
        requires linked { IsLinked (forest_of ctx.old) (an_op (index_of self)) }
        ensures forest { forest_of ctx.new ≡ in_blocks (forest_of ctx.old) (without same_id (index_of self)) }
        ensures rest { SameButForest (bare ctx.old) (bare ctx.new) }
        ensures keeps { KeepsAll ctx.old ctx.new }
        ensures may_go_back { OpMayGoBack (forest_of ctx.old) (forest_of ctx.new) (index_of self) }
        ensures goes_back { OpGoesBack (forest_of ctx.old) (forest_of ctx.new) (index_of self) };
}

impl<D: Dialects> OperationList<D> for Ptr<Operation<D>> {
    type Container = Ptr<BasicBlock<D>>;

    ghost index_of = { λ p. p.index };

    ghost container_index_of = { λ p. p.index };

    #[inline(always)]
    fn insert_at_front(self, container: Ptr<BasicBlock<D>>, ctx: &mut Context<D>) {
        operation_list::insert_at_front(&mut ctx.records, self.index, container.index);
    }

    #[inline(always)]
    fn insert_at_back(self, container: Ptr<BasicBlock<D>>, ctx: &mut Context<D>) {
        operation_list::insert_at_back(&mut ctx.records, self.index, container.index);
    }

    #[inline(always)]
    fn insert_before(self, ctx: &mut Context<D>, mark: Self) {
        operation_list::insert_before(&mut ctx.records, self.index, mark.index);
    }

    #[inline(always)]
    fn insert_after(self, ctx: &mut Context<D>, mark: Self) {
        operation_list::insert_after(&mut ctx.records, self.index, mark.index);
    }

    #[inline(always)]
    fn unlink(self, ctx: &mut Context<D>) {
        operation_list::unlink(&mut ctx.records, self.index);
    }
}

/// How the operations of one block are moved behind those of another. It stands for pliron's `ContainsLinkedList`.
pub trait OperationContainer<D: Dialects> {
    ghost use Rattle.ir_model.specs.declared.ids.ArenaIndex.{ArenaIndex};

    ghost index_of: { Self → ArenaIndex };

    /// Moves all operations of the donor behind those of this block, and leaves the donor empty. They are two blocks, of which neither is inside an operation of the donor.
    fn append_linked_list(self, ctx: &mut Context<D>, donor: Self)
        requires live { IsLive (forest_of ctx.old) (a_block (index_of self)) }
        requires donor_live { IsLive (forest_of ctx.old) (a_block (index_of donor)) }
        requires may_join { MayJoin (forest_of ctx.old) (a_block (index_of self)) (a_block (index_of donor)) }
        ensures forest { forest_of ctx.new ≡ append_ops (forest_of ctx.old) (index_of self) (index_of donor) (ops_of (forest_of ctx.old) (index_of donor)) }
        ensures rest { SameButForest (bare ctx.old) (bare ctx.new) }
        ensures keeps { KeepsAll ctx.old ctx.new };
}

impl<D: Dialects> OperationContainer<D> for Ptr<BasicBlock<D>> {
    ghost index_of = { λ p. p.index };

    fn append_linked_list(self, ctx: &mut Context<D>, donor: Self) {
        operation_list::append(&mut ctx.records, self.index, donor.index);
    }
}
