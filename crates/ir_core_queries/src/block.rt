//! Where a block stands, the list of its operations, and whether what names it stands in a block.

ghost use Rattle.std.specs.Prelude.{◌≡◌, ◌↔◌, All, IsTrue, IfSome};
ghost use Rattle.std.specs.Option.{option_map};
ghost use Rattle.ir_model.specs.Edits.{UsersLinked};
ghost use Rattle.ir_model.specs.Forest.{a_block, a_region, an_op};
ghost use Rattle.ir_model.specs.Nesting.{IsLinked, IsLive, ops_of};
ghost use Rattle.ir_model.specs.Parent.{first_of, IsNext, IsParent, IsPrevious, last_of};
ghost use Rattle.ir_core_context.specs.State.{forest_of};
ghost use Rattle.ir_core_queries.specs.Above.{IsAbove};

use crate::entity::is_linked;
use crate::links::{block, handle};
use crate::operation::OperationPlace;
use crate::users::{all_linked, kept_uses};
use ir_base_dialects::{Dialects, Iter, Ptr, linked_list};
use ir_core_context::{Context, RegionPtr};
use ir_core_records::{BasicBlock, EntityIndex, Operation, Region};

/// Where a block stands, the list of its operations, and whether what names it stands in a block. It stands for pliron's calls of `BasicBlock`, and of `LinkedList` and `ContainsLinkedList` on `Ptr<BasicBlock>`.
pub trait BlockPlace<D: Dialects> {
    ghost use Rattle.ir_model.specs.declared.ids.ArenaIndex.{ArenaIndex};

    ghost index_of: { Self → ArenaIndex };

    /// The region that the live block stands in, if it stands in one. It stands for pliron's `BasicBlock::get_parent_region`.
    fn get_parent_region(self, ctx: &Context<D>) -> Option<Ptr<Region>>
        requires { IsLive (forest_of ctx.now) (a_block (index_of self)) }
        ensures parent { IsParent (forest_of ctx.now) (a_block (index_of self)) (option_map (λ p. a_region p.index) result) }
        ensures live { IfSome result (λ p. IsLive (forest_of ctx.now) (a_region p.index)) };

    /// The operation of the region that the live block stands in, if there is one. It stands for pliron's `BasicBlock::get_parent_op`.
    fn get_parent_op(self, ctx: &Context<D>) -> Option<Ptr<Operation<D>>>
        requires { IsLive (forest_of ctx.now) (a_block (index_of self)) }
        ensures above { IsAbove (forest_of ctx.now) 2 (a_block (index_of self)) (option_map (λ p. an_op p.index) result) }
        ensures live { IfSome result (λ p. IsLive (forest_of ctx.now) (an_op p.index)) };

    /// The block that the operation of the live block's region stands in, if there is one. It stands for pliron's `BasicBlock::get_parent_block`.
    fn get_parent_block(self, ctx: &Context<D>) -> Option<Ptr<BasicBlock<D>>>
        requires { IsLive (forest_of ctx.now) (a_block (index_of self)) }
        ensures above { IsAbove (forest_of ctx.now) 3 (a_block (index_of self)) (option_map (λ p. a_block p.index) result) }
        ensures live { IfSome result (λ p. IsLive (forest_of ctx.now) (a_block p.index)) };

    /// Whether the block stands in a region. It doesn't where the handle is dead. It stands for pliron's `is_linked`.
    fn is_linked(self, ctx: &Context<D>) -> bool
        ensures { IsTrue result ↔ IsLinked (forest_of ctx.now) (a_block (index_of self)) };

    /// Whether each operation that names the live block stands in a block. So it is where none names it.
    fn preds_are_linked(self, ctx: &Context<D>) -> bool
        requires { IsLive (forest_of ctx.now) (a_block (index_of self)) }
        ensures { IsTrue result ↔ UsersLinked (forest_of ctx.now) (index_of self) };

    /// The block right after the live one in its region, if there is one. It stands for pliron's `get_next`.
    fn get_next(self, ctx: &Context<D>) -> Option<Ptr<BasicBlock<D>>>
        requires { IsLive (forest_of ctx.now) (a_block (index_of self)) }
        ensures next { IsNext (forest_of ctx.now) (a_block (index_of self)) (option_map (λ p. a_block p.index) result) }
        ensures live { IfSome result (λ p. IsLive (forest_of ctx.now) (a_block p.index)) };

    /// The block right before the live one in its region, if there is one. It stands for pliron's `get_prev`.
    fn get_prev(self, ctx: &Context<D>) -> Option<Ptr<BasicBlock<D>>>
        requires { IsLive (forest_of ctx.now) (a_block (index_of self)) }
        ensures previous { IsPrevious (forest_of ctx.now) (a_block (index_of self)) (option_map (λ p. a_block p.index) result) }
        ensures live { IfSome result (λ p. IsLive (forest_of ctx.now) (a_block p.index)) };

    /// The first operation of the live block, if it has one. It stands for pliron's `get_head`.
    fn get_head(self, ctx: &Context<D>) -> Option<Ptr<Operation<D>>>
        requires { IsLive (forest_of ctx.now) (a_block (index_of self)) }
        ensures first { option_map (λ p. p.index) result ≡ first_of (ops_of (forest_of ctx.now) (index_of self)) }
        ensures live { IfSome result (λ p. IsLive (forest_of ctx.now) (an_op p.index)) };

    /// The last operation of the live block, if it has one. It stands for pliron's `get_tail`.
    fn get_tail(self, ctx: &Context<D>) -> Option<Ptr<Operation<D>>>
        requires { IsLive (forest_of ctx.now) (a_block (index_of self)) }
        ensures last { option_map (λ p. p.index) result ≡ last_of (ops_of (forest_of ctx.now) (index_of self)) }
        ensures live { IfSome result (λ p. IsLive (forest_of ctx.now) (an_op p.index)) };

    /// The operations of the live block in order, walked from both ends. It stands for pliron's `iter`.
    fn iter(self, ctx: &Context<D>) -> Iter<'_, Operation<D>>
        requires { IsLive (forest_of ctx.now) (a_block (index_of self)) }
        ensures items { result ≡ ops_of (forest_of ctx.now) (index_of self) }
        ensures live { All (λ o. IsLive (forest_of ctx.now) (an_op o)) result };
}

impl<D: Dialects> BlockPlace<D> for Ptr<BasicBlock<D>> {
    ghost index_of = { λ p. p.index };

    fn get_parent_region(self, ctx: &Context<D>) -> Option<Ptr<Region>> {
        handle(block(ctx, self).parent)
    }

    fn get_parent_op(self, ctx: &Context<D>) -> Option<Ptr<Operation<D>>> {
        ctx.recall_well_formed();
        let region = self.get_parent_region(ctx)?;
        Some(region.get_parent_op(ctx))
    }

    fn get_parent_block(self, ctx: &Context<D>) -> Option<Ptr<BasicBlock<D>>> {
        ctx.recall_well_formed();
        let region = self.get_parent_region(ctx)?;
        let op = region.get_parent_op(ctx);
        op.get_parent_block(ctx)
    }

    fn is_linked(self, ctx: &Context<D>) -> bool {
        is_linked(ctx, EntityIndex::Block(self.index()))
    }

    fn preds_are_linked(self, ctx: &Context<D>) -> bool {
        all_linked(ctx, kept_uses(ctx, self))
    }

    fn get_next(self, ctx: &Context<D>) -> Option<Ptr<BasicBlock<D>>> {
        handle(block(ctx, self).next)
    }

    fn get_prev(self, ctx: &Context<D>) -> Option<Ptr<BasicBlock<D>>> {
        handle(block(ctx, self).prev)
    }

    fn get_head(self, ctx: &Context<D>) -> Option<Ptr<Operation<D>>> {
        handle(block(ctx, self).ops_list.first)
    }

    fn get_tail(self, ctx: &Context<D>) -> Option<Ptr<Operation<D>>> {
        handle(block(ctx, self).ops_list.last)
    }

    fn iter(self, ctx: &Context<D>) -> Iter<'_, Operation<D>> {
        ctx.recall_well_formed();
        ctx.recall_holds_together();
        let records = ctx.records();
        linked_list::iter(&records.ops, &records.blocks, self)
    }
}
