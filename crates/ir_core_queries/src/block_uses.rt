//! The uses of a block as a successor.

ghost use Rattle.std.specs.Prelude.{◌≡◌, ◌↔◌, All, length, map, IsTrue, IfOk, IfErr};
ghost use Rattle.ir_model.specs.Forest.{a_block, the_block};
ghost use Rattle.ir_model.specs.Nesting.{IsLive};
ghost use Rattle.ir_model.specs.Uses.{AreUses, IsUse};
ghost use Rattle.ir_core_records.specs.Meaning.{use_of};
ghost use Rattle.ir_core_records.specs.Values.{IsLiveBlockUse};
ghost use Rattle.ir_core_context.specs.State.{block_uses_of, forest_of};

use crate::value::copy_uses;
use ir_base_dialects::{CoreError, Dialects, Ptr};
use ir_core_context::Context;
use ir_core_records::{BasicBlock, BlockIndex, Use, block_uses};

/// What can be asked of a block about its uses as a successor. It stands for pliron's calls of `Ptr<BasicBlock>`.
pub trait BlockUses<D: Dialects> {
    ghost use Rattle.ir_model.specs.declared.ids.ArenaIndex.{ArenaIndex};
    ghost use Rattle.ir_model.specs.ContextIds.{context_ids};
    ghost use Rattle.ir_model.specs.Uses.{Use as PlainUse};

    ghost index_of: { Self → ArenaIndex };

    /// Whether an operation names the live block as a successor.
    fn has_pred(self, ctx: &Context<D>) -> bool
        requires { IsLive (forest_of ctx.now) (a_block (index_of self)) }
        ensures { IsTrue result ↔ ((u : PlainUse context_ids) × IsUse (forest_of ctx.now) (the_block (index_of self)) u) };

    /// How many successors name the live block.
    fn num_preds(self, ctx: &Context<D>) -> usize
        requires { IsLive (forest_of ctx.now) (a_block (index_of self)) }
        ensures count { result ≡ length (block_uses_of ctx.now (index_of self)) }
        ensures exact { AreUses (forest_of ctx.now) (the_block (index_of self)) (block_uses_of ctx.now (index_of self)) };

    /// The uses of the live block as a successor, each once. Their order is open, and the same until the context changes.
    ///
    /// # Errors
    /// `OutOfMemory`.
    fn uses(self, ctx: &Context<D>) -> Result<Vec<Use<Ptr<BasicBlock<D>>>>, CoreError>
        requires { IsLive (forest_of ctx.now) (a_block (index_of self)) }
        ensures kept { IfOk result (λ uses. map (λ u. use_of u.index) uses.items ≡ block_uses_of ctx.now (index_of self)) }
        ensures exact { AreUses (forest_of ctx.now) (the_block (index_of self)) (block_uses_of ctx.now (index_of self)) }
        ensures live { IfOk result (λ uses. All (λ u. IsLiveBlockUse (forest_of ctx.now) (use_of u.index)) uses.items) }
        ensures memory { IfErr result (λ e. e ≡ CoreError.OutOfMemory) };
}

impl<D: Dialects> BlockUses<D> for Ptr<BasicBlock<D>> {
    ghost index_of = { λ p. p.index };

    fn has_pred(self, ctx: &Context<D>) -> bool {
        ctx.recall_uses_exact();
        !block_uses(ctx.records(), BlockIndex { index: self.index }).is_empty()
    }

    fn num_preds(self, ctx: &Context<D>) -> usize {
        ctx.recall_uses_exact();
        block_uses(ctx.records(), BlockIndex { index: self.index }).len()
    }

    fn uses(self, ctx: &Context<D>) -> Result<Vec<Use<Ptr<BasicBlock<D>>>>, CoreError> {
        ctx.recall_uses_exact();
        let kept = block_uses(ctx.records(), BlockIndex { index: self.index });
        copy_uses(ctx.alloc(), kept.as_slice())
    }
}
