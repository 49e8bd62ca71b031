//! Uses of a live block as a successor that come to name another block.
//!
//! A use keeps its number and its place among the successors of its user. Where the other block is this one, nothing changes.

ghost use Rattle.std.specs.Prelude.{◌≡◌, ◌≢◌, Bool, IfErr, IfOk, IsOk, OnErr, OnOk};
ghost use Rattle.ir_model.specs.BlockGraph.{IsPredecessor};
ghost use Rattle.ir_model.specs.Changes.{retarget};
ghost use Rattle.ir_model.specs.DefinitionLaws.{TakesUses};
ghost use Rattle.ir_model.specs.Edits.{UsersLinked};
ghost use Rattle.ir_model.specs.Forest.{a_block, the_block};
ghost use Rattle.ir_model.specs.Nesting.{In, IsLive, ops_of};
ghost use Rattle.ir_model.specs.Redirect.{retarget_uses};
ghost use Rattle.ir_model.specs.Uses.{IsUse};
ghost use Rattle.ir_core_records.specs.Table.{block_uses_at};
ghost use Rattle.ir_core_replacing.specs.Chosen.{same_use};
ghost use Rattle.ir_core_context.specs.Asked.{AreAnswers, MaySay, RetargetsChosen};
ghost use Rattle.ir_core_context.specs.Calls.{KeepsAll, SameButForest};
ghost use Rattle.ir_core_context.specs.State.{bare, forest_of};

use crate::asking::{Shown, ShownBlock, answers_for_blocks};
use crate::context::Context;
use ir_base_dialects::{CoreError, Dialects, Ptr};
use ir_core_records::{BasicBlock, BlockIndex, Use, block_uses};
use ir_core_replacing::{retarget_all_preds, retarget_pred, retarget_some_preds};

// What the predicate answers for the block that each user of a live block stands in, in the order of the kept uses.
fn answers_for_preds<D: Dialects, C: Shown<D>, B: ShownBlock<D>, P: Fn(&C, B) -> bool>(
    ctx: &Context<D>,
    block: BlockIndex,
    pred: &P,
) -> Result<Vec<bool>, CoreError>
    requires live { IsLive (forest_of ctx.now) (a_block block.index) }
    requires linked { UsersLinked (forest_of ctx.now) block.index }
    requires callable { (context : _) (pred_block : _) → C.shows context.now ctx.now → IsPredecessor (forest_of ctx.now) block.index (B.index_of pred_block) → P.pre pred.now context pred_block }
    ensures answers { IfOk result (λ answers. AreAnswers (MaySay P.Fn (λ c. C.shows c ctx.now) (λ b u. In u.user (ops_of (forest_of ctx.now) (B.index_of b))) pred.now) (block_uses_at ctx.now.records block) answers.items) }
    ensures memory { IfErr result (λ e. e ≡ CoreError.OutOfMemory) }
{
    ctx.recall_uses_exact();
    answers_for_blocks(ctx, block_uses(ctx.records(), block).as_slice(), pred)
}

/// How what names a live block comes to name another.
pub trait Retarget<D: Dialects> {
    ghost use Rattle.ir_model.specs.declared.ids.ArenaIndex.{ArenaIndex};
    ghost use Rattle.ir_model.specs.ContextIds.{context_ids};
    ghost use Rattle.ir_model.specs.Uses.{Use as PlainUse};

    /// A use of a block as a successor.
    type Use;

    ghost index_of: { Self → ArenaIndex };

    ghost use_of: { Self.Use → PlainUse context_ids };

    /// Lets each successor that names the live block name the other live one, which then has as many uses as both had. Each operation that names the block stands in a block, as `preds_are_linked` tells. It stands for pliron's `retarget_all_preds_to`.
    ///
    /// # Errors
    /// `OutOfMemory` where the list of the other block's uses had to grow and couldn't. Then nothing has changed. It doesn't come where both are one block.
    fn retarget_all_preds_to(self, ctx: &mut Context<D>, other: Self) -> Result<(), CoreError>
        requires live { IsLive (forest_of ctx.old) (a_block (index_of self)) }
        requires other_live { IsLive (forest_of ctx.old) (a_block (index_of other)) }
        requires linked { UsersLinked (forest_of ctx.old) (index_of self) }
        ensures forest { OnOk result (forest_of ctx.new ≡ retarget (forest_of ctx.old) (index_of self) (index_of other)) }
        ensures counts { OnOk result (index_of self ≢ index_of other → TakesUses (forest_of ctx.old) (forest_of ctx.new) (the_block (index_of self)) (the_block (index_of other))) }
        ensures rest { SameButForest (bare ctx.old) (bare ctx.new) }
        ensures keeps { KeepsAll ctx.old ctx.new }
        ensures itself { index_of self ≡ index_of other → IsOk result }
        ensures memory { IfErr result (λ e. e ≡ CoreError.OutOfMemory) }
        ensures err { OnErr result (ctx.new ≡ ctx.old) };

    /// Lets those successors that name the live block name the other live one for whose user's block the predicate answers yes. It is asked once for each use, in the context as it is, before anything changes. Each operation that names the block stands in a block, as `preds_are_linked` tells. It stands for pliron's `retarget_some_preds_to`.
    ///
    /// # Errors
    /// `OutOfMemory` where there was no place for the answers, or the list of the other block's uses had to grow and couldn't. Then nothing has changed.
    fn retarget_some_preds_to<C: Shown<D>, B: ShownBlock<D>, P: Fn(&C, B) -> bool>(
        self,
        ctx: &mut Context<D>,
        pred: P,
        other: Self,
    ) -> Result<(), CoreError>
        requires live { IsLive (forest_of ctx.old) (a_block (index_of self)) }
        requires other_live { IsLive (forest_of ctx.old) (a_block (index_of other)) }
        requires linked { UsersLinked (forest_of ctx.old) (index_of self) }
        requires callable { (context : _) (block : _) → C.shows context.now ctx.old → IsPredecessor (forest_of ctx.old) (index_of self) (B.index_of block) → P.pre pred context block }
        ensures forest { OnOk result (RetargetsChosen (forest_of ctx.old) (forest_of ctx.new) (index_of self) (index_of other) (MaySay P.Fn (λ c. C.shows c ctx.old) (λ b u. In u.user (ops_of (forest_of ctx.old) (B.index_of b))) pred)) }
        ensures rest { SameButForest (bare ctx.old) (bare ctx.new) }
        ensures keeps { KeepsAll ctx.old ctx.new }
        ensures memory { IfErr result (λ e. e ≡ CoreError.OutOfMemory) }
        ensures err { OnErr result (ctx.new ≡ ctx.old) };

    /// Lets the successor of a use of the live block name the other live one. It stands for pliron's `retarget_pred_to`.
    ///
    /// # Errors
    /// `OutOfMemory` where the list of the other block's uses had to grow and couldn't. Then nothing has changed. It doesn't come where both are one block.
    fn retarget_pred_to(
        self,
        ctx: &mut Context<D>,
        used: Self::Use,
        other: Self,
    ) -> Result<(), CoreError>
        requires names { IsUse (forest_of ctx.old) (the_block (index_of self)) (use_of used) }
        requires other_live { IsLive (forest_of ctx.old) (a_block (index_of other)) }
        ensures forest { OnOk result (forest_of ctx.new ≡ retarget_uses (forest_of ctx.old) (same_use (use_of used)) (index_of other)) }
        ensures rest { SameButForest (bare ctx.old) (bare ctx.new) }
        ensures keeps { KeepsAll ctx.old ctx.new }
        ensures itself { index_of self ≡ index_of other → IsOk result }
        ensures memory { IfErr result (λ e. e ≡ CoreError.OutOfMemory) }
        ensures err { OnErr result (ctx.new ≡ ctx.old) };
}

impl<D: Dialects> Retarget<D> for Ptr<BasicBlock<D>> {
    ghost use Rattle.ir_core_records.specs.Meaning.{use_of as use_in};

    type Use = Use<Ptr<BasicBlock<D>>>;

    ghost index_of = { λ p. p.index };

    ghost use_of = { λ u. use_in u.index };

    fn retarget_all_preds_to(self, ctx: &mut Context<D>, other: Self) -> Result<(), CoreError> {
        let from = BlockIndex { index: self.index };
        let to = BlockIndex { index: other.index };
        retarget_all_preds(&mut ctx.records, ctx.alloc, from, to)?;
        Ok(())
    }

    fn retarget_some_preds_to<C: Shown<D>, B: ShownBlock<D>, P: Fn(&C, B) -> bool>(
        self,
        ctx: &mut Context<D>,
        pred: P,
        other: Self,
    ) -> Result<(), CoreError> {
        let from = BlockIndex { index: self.index };
        let to = BlockIndex { index: other.index };
        let answers = answers_for_preds(ctx, from, &pred)?;
        retarget_some_preds(&mut ctx.records, ctx.alloc, from, to, answers.as_slice())?;
        Ok(())
    }

    fn retarget_pred_to(
        self,
        ctx: &mut Context<D>,
        used: Use<Ptr<BasicBlock<D>>>,
        other: Self,
    ) -> Result<(), CoreError> {
        let block = BlockIndex { index: other.index };
        retarget_pred(&mut ctx.records, used.index, block)?;
        Ok(())
    }
}
