//! Where an operation stands.

ghost use Rattle.std.specs.Prelude.{◌↔◌, IsTrue, IfSome};
ghost use Rattle.std.specs.Option.{option_map};
ghost use Rattle.ir_model.specs.Forest.{a_block, a_region, an_op};
ghost use Rattle.ir_model.specs.Nesting.{IsLinked, IsLive};
ghost use Rattle.ir_model.specs.Parent.{IsNext, IsParent, IsPrevious};
ghost use Rattle.ir_core_context.specs.State.{forest_of};
ghost use Rattle.ir_core_queries.specs.Above.{IsAbove};

use crate::block::BlockPlace;
use crate::entity::is_linked;
use crate::links::{handle, operation};
use ir_base_dialects::{Dialects, Ptr};
use ir_core_context::Context;
use ir_core_records::{BasicBlock, EntityIndex, Operation, Region};

/// Where an operation stands. It stands for pliron's calls of `Operation` and of `LinkedList` on `Ptr<Operation>`.
pub trait OperationPlace<D: Dialects> {
    ghost use Rattle.ir_model.specs.declared.ids.ArenaIndex.{ArenaIndex};

    ghost index_of: { Self → ArenaIndex };

    /// The block that the live operation stands in, if it stands in one. It stands for pliron's `Operation::get_parent_block`.
    fn get_parent_block(self, ctx: &Context<D>) -> Option<Ptr<BasicBlock<D>>>
        requires { IsLive (forest_of ctx.now) (an_op (index_of self)) }
        ensures parent { IsParent (forest_of ctx.now) (an_op (index_of self)) (option_map (λ p. a_block p.index) result) }
        ensures live { IfSome result (λ p. IsLive (forest_of ctx.now) (a_block p.index)) };

    /// The region that the block of the live operation stands in, if there is one. It stands for pliron's `Operation::get_parent_region`.
    fn get_parent_region(self, ctx: &Context<D>) -> Option<Ptr<Region>>
        requires { IsLive (forest_of ctx.now) (an_op (index_of self)) }
        ensures above { IsAbove (forest_of ctx.now) 2 (an_op (index_of self)) (option_map (λ p. a_region p.index) result) }
        ensures live { IfSome result (λ p. IsLive (forest_of ctx.now) (a_region p.index)) };

    /// The operation of the region that the block of the live operation stands in, if there is one. It stands for pliron's `Operation::get_parent_op`.
    fn get_parent_op(self, ctx: &Context<D>) -> Option<Ptr<Operation<D>>>
        requires { IsLive (forest_of ctx.now) (an_op (index_of self)) }
        ensures above { IsAbove (forest_of ctx.now) 3 (an_op (index_of self)) (option_map (λ p. an_op p.index) result) }
        ensures live { IfSome result (λ p. IsLive (forest_of ctx.now) (an_op p.index)) };

    /// Whether the operation stands in a block. It doesn't where the handle is dead. It stands for pliron's `is_linked`.
    fn is_linked(self, ctx: &Context<D>) -> bool
        ensures { IsTrue result ↔ IsLinked (forest_of ctx.now) (an_op (index_of self)) };

    /// The operation right after the live one in its block, if there is one. It stands for pliron's `get_next`.
    fn get_next(self, ctx: &Context<D>) -> Option<Ptr<Operation<D>>>
        requires { IsLive (forest_of ctx.now) (an_op (index_of self)) }
        ensures next { IsNext (forest_of ctx.now) (an_op (index_of self)) (option_map (λ p. an_op p.index) result) }
        ensures live { IfSome result (λ p. IsLive (forest_of ctx.now) (an_op p.index)) };

    /// The operation right before the live one in its block, if there is one. It stands for pliron's `get_prev`.
    fn get_prev(self, ctx: &Context<D>) -> Option<Ptr<Operation<D>>>
        requires { IsLive (forest_of ctx.now) (an_op (index_of self)) }
        ensures previous { IsPrevious (forest_of ctx.now) (an_op (index_of self)) (option_map (λ p. an_op p.index) result) }
        ensures live { IfSome result (λ p. IsLive (forest_of ctx.now) (an_op p.index)) };
}

impl<D: Dialects> OperationPlace<D> for Ptr<Operation<D>> {
    ghost index_of = { λ p. p.index };

    fn get_parent_block(self, ctx: &Context<D>) -> Option<Ptr<BasicBlock<D>>> {
        handle(operation(ctx, self).parent)
    }

    fn get_parent_region(self, ctx: &Context<D>) -> Option<Ptr<Region>> {
        ctx.recall_well_formed();
        self.get_parent_block(ctx)?.get_parent_region(ctx)
    }

    fn get_parent_op(self, ctx: &Context<D>) -> Option<Ptr<Operation<D>>> {
        ctx.recall_well_formed();
        self.get_parent_block(ctx)?.get_parent_op(ctx)
    }

    fn is_linked(self, ctx: &Context<D>) -> bool {
        is_linked(ctx, EntityIndex::Op(self.index()))
    }

    fn get_next(self, ctx: &Context<D>) -> Option<Ptr<Operation<D>>> {
        handle(operation(ctx, self).next)
    }

    fn get_prev(self, ctx: &Context<D>) -> Option<Ptr<Operation<D>>> {
        handle(operation(ctx, self).prev)
    }
}
