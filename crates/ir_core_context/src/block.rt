//! What a context tells of the handle of a block.

ghost use Rattle.std.specs.Prelude.{◌↔◌, length, IsTrue, IfOk, IsErr};
ghost use Rattle.ir_model.specs.Forest.{a_block};
ghost use Rattle.ir_model.specs.Nesting.{IsLive};
ghost use Rattle.ir_core_context.specs.State.{forest_of, types_of};

use crate::context::Context;
use crate::error::DanglingPtrDerefError;
use ir_base_dialects::{Dialects, Ptr};
use ir_core_records::BasicBlock;

/// What can be asked of the handle of a block. It stands for pliron's calls of `Ptr<BasicBlock>`.
pub trait BlockPtr<D: Dialects> {
    ghost use Rattle.ir_model.specs.declared.ids.ArenaIndex.{ArenaIndex};
    ghost use Rattle.ir_core_context.specs.Calls.{BlockLeadsToLive, IsBlock};

    ghost index_of: { Self → ArenaIndex };

    /// Whether the block is live.
    fn is_live(self, ctx: &Context<D>) -> bool
        ensures { IsTrue result ↔ IsLive (forest_of ctx.now) (a_block (index_of self)) };

    /// The block under a live handle. Its arguments are live, and their types known.
    fn deref(self, ctx: &Context<D>) -> &BasicBlock<D>
        requires { IsLive (forest_of ctx.now) (a_block (index_of self)) }
        ensures found { IsBlock (forest_of ctx.now) (index_of self) result.now }
        ensures leads { BlockLeadsToLive (forest_of ctx.now) (length (types_of ctx.now)) (index_of self) result.now };

    /// The block under a handle. Its arguments are live, and their types known.
    ///
    /// # Errors
    /// `DanglingPtrDerefError` where it isn't live.
    fn try_deref(self, ctx: &Context<D>) -> Result<&BasicBlock<D>, DanglingPtrDerefError>
        ensures found { IfOk result (λ block. IsBlock (forest_of ctx.now) (index_of self) block.now) }
        ensures leads { IfOk result (λ block. BlockLeadsToLive (forest_of ctx.now) (length (types_of ctx.now)) (index_of self) block.now) }
        ensures dangling { IsErr result ↔ (IsLive (forest_of ctx.now) (a_block (index_of self)) → ⊥) };
}

impl<D: Dialects> BlockPtr<D> for Ptr<BasicBlock<D>> {
    ghost index_of = { λ p. p.index };

    #[inline(always)]
    fn is_live(self, ctx: &Context<D>) -> bool {
        ctx.records.blocks.is_live(self)
    }

    fn deref(self, ctx: &Context<D>) -> &BasicBlock<D> {
        ctx.recall_well_formed();
        ctx.records.blocks.at(self)
    }

    #[inline(always)]
    fn try_deref(self, ctx: &Context<D>) -> Result<&BasicBlock<D>, DanglingPtrDerefError> {
        ctx.recall_well_formed();
        ctx.records.blocks.get(self).ok_or(DanglingPtrDerefError)
    }
}
