//! The uses of blocks as successors, and successors that come to name other blocks.

ghost use Rattle.std.specs.Prelude.{All, IfErr, IfOk, IsOk, IsTrue, OnErr, OnOk, length, map, ◌↔◌, ◌≡◌, ◌≢◌};
ghost use Rattle.ir_checked_core.specs.Answers.{Answers, Made, out_of_memory, own_answer, own_value, unless};
ghost use Rattle.ir_core_context.specs.Asked.{MaySay, RetargetsChosen};
ghost use Rattle.ir_core_context.specs.Calls.{KeepsAll, SameButForest};
ghost use Rattle.ir_core_context.specs.State.{bare, block_uses_of, forest_of};
ghost use Rattle.ir_core_records.specs.Meaning.{use_of};
ghost use Rattle.ir_core_records.specs.Values.{IsLiveBlockUse};
ghost use Rattle.ir_core_replacing.specs.Chosen.{same_use};
ghost use Rattle.ir_model.specs.BlockGraph.{IsPredecessor};
ghost use Rattle.ir_model.specs.Changes.{retarget};
ghost use Rattle.ir_model.specs.ContextIds.{context_ids};
ghost use Rattle.ir_model.specs.DefinitionLaws.{TakesUses};
ghost use Rattle.ir_model.specs.Edits.{UsersLinked};
ghost use Rattle.ir_model.specs.Forest.{a_block, the_block};
ghost use Rattle.ir_model.specs.Nesting.{In, IsLive, ops_of};
ghost use Rattle.ir_model.specs.Redirect.{retarget_uses};
ghost use Rattle.ir_model.specs.Uses.{AreUses, IsUse, Use as PlainUse};

use crate::asked::is_use_of_block;
use crate::error::{Call, CheckedErr, Condition, fault};
use ir_base_dialects::{Dialects, Ptr};
use ir_core_context::{Shown, ShownBlock};
use ir_core_queries::{
    BasicBlock, BlockPlace, BlockPtr, BlockUseQueries, BlockUses, Context, Retarget, Use,
};

/// Whether an operation names the live block as a successor.
///
/// # Errors
/// `Unmet` where the block isn't live.
pub fn has_pred<D: Dialects>(
    block: Ptr<BasicBlock<D>>,
    ctx: &Context<D>,
) -> Result<bool, CheckedErr>
    ensures conditions { Answers Call.BlockHasPred result (unless (IsLive (forest_of ctx.now) (a_block block.index)) Condition.DeadBlock own_value) }
    ensures found { IfOk result (λ answer. IsTrue answer ↔ ((u : PlainUse context_ids) × IsUse (forest_of ctx.now) (the_block block.index) u)) }
{
    if !block.is_live(ctx) {
        return Err(fault!(BlockHasPred, DeadBlock));
    }
    Ok(block.has_pred(ctx))
}

/// How many successors name the live block.
///
/// # Errors
/// `Unmet` where the block isn't live.
pub fn num_preds<D: Dialects>(
    block: Ptr<BasicBlock<D>>,
    ctx: &Context<D>,
) -> Result<usize, CheckedErr>
    ensures conditions { Answers Call.BlockNumPreds result (unless (IsLive (forest_of ctx.now) (a_block block.index)) Condition.DeadBlock own_value) }
    ensures count { IfOk result (λ answer. answer ≡ length (block_uses_of ctx.now block.index)) }
    ensures exact { OnOk result (AreUses (forest_of ctx.now) (the_block block.index) (block_uses_of ctx.now block.index)) }
{
    if !block.is_live(ctx) {
        return Err(fault!(BlockNumPreds, DeadBlock));
    }
    Ok(block.num_preds(ctx))
}

/// The uses of the live block as a successor, each once. Their order is open, and the same until the context changes.
///
/// # Errors
/// `Unmet` where the block isn't live. Else what the call itself is refused for.
pub fn uses<D: Dialects>(
    block: Ptr<BasicBlock<D>>,
    ctx: &Context<D>,
) -> Result<Vec<Use<Ptr<BasicBlock<D>>>>, CheckedErr>
    ensures conditions { Answers Call.BlockUses result (unless (IsLive (forest_of ctx.now) (a_block block.index)) Condition.DeadBlock own_answer) }
    ensures kept { IfOk result (λ uses. map (λ u. use_of u.index) uses.items ≡ block_uses_of ctx.now block.index) }
    ensures exact { Made result (AreUses (forest_of ctx.now) (the_block block.index) (block_uses_of ctx.now block.index)) }
    ensures live { IfOk result (λ uses. All (λ u. IsLiveBlockUse (forest_of ctx.now) (use_of u.index)) uses.items) }
    ensures memory { Made result (IfErr result (λ e. e ≡ out_of_memory)) }
{
    if !block.is_live(ctx) {
        return Err(fault!(BlockUses, DeadBlock));
    }
    match block.uses(ctx) {
        Ok(answer) => Ok(answer),
        Err(error) => Err(CheckedErr::Core(error)),
    }
}

/// Lets each successor that names the live block name the other live one, which then has as many uses as both had. Each operation that names the block stands in a block, as `preds_are_linked` tells.
///
/// # Errors
/// `Unmet` where the block isn't live, the other one isn't live, or an operation that names the block stands in no block. Else what the call itself is refused for.
pub fn retarget_all_preds_to<D: Dialects>(
    block: Ptr<BasicBlock<D>>,
    ctx: &mut Context<D>,
    other: Ptr<BasicBlock<D>>,
) -> Result<(), CheckedErr>
    ensures conditions { Answers Call.BlockRetargetAllPredsTo result (unless (IsLive (forest_of ctx.old) (a_block block.index)) Condition.DeadBlock (unless (IsLive (forest_of ctx.old) (a_block other.index)) Condition.DeadBlock (unless (UsersLinked (forest_of ctx.old) block.index) Condition.UsersUnlinked own_answer))) }
    ensures forest { OnOk result (forest_of ctx.new ≡ retarget (forest_of ctx.old) block.index other.index) }
    ensures counts { OnOk result (block.index ≢ other.index → TakesUses (forest_of ctx.old) (forest_of ctx.new) (the_block block.index) (the_block other.index)) }
    ensures rest { Made result (SameButForest (bare ctx.old) (bare ctx.new)) }
    ensures keeps { Made result (KeepsAll ctx.old ctx.new) }
    ensures itself { Made result (block.index ≡ other.index → IsOk result) }
    ensures memory { Made result (IfErr result (λ e. e ≡ out_of_memory)) }
    ensures err { OnErr result (ctx.new ≡ ctx.old) }
{
    if !block.is_live(ctx) {
        return Err(fault!(BlockRetargetAllPredsTo, DeadBlock));
    }
    if !other.is_live(ctx) {
        return Err(fault!(BlockRetargetAllPredsTo, DeadBlock));
    }
    if !block.preds_are_linked(ctx) {
        return Err(fault!(BlockRetargetAllPredsTo, UsersUnlinked));
    }
    match block.retarget_all_preds_to(ctx, other) {
        Ok(answer) => Ok(answer),
        Err(error) => Err(CheckedErr::Core(error)),
    }
}

/// Lets those successors that name the live block name the other live one for whose user's block the predicate answers yes. It is asked once for each use, in the context as it is, before anything changes. Each operation that names the block stands in a block, as `preds_are_linked` tells.
///
/// # Errors
/// `Unmet` where the block isn't live, the other one isn't live, or an operation that names the block stands in no block. Else what the call itself is refused for.
pub fn retarget_some_preds_to<D: Dialects, C: Shown<D>, B: ShownBlock<D>, P: Fn(&C, B) -> bool>(
    block: Ptr<BasicBlock<D>>,
    ctx: &mut Context<D>,
    pred: P,
    other: Ptr<BasicBlock<D>>,
) -> Result<(), CheckedErr>
    requires { (context : _) (shown : _) → C.shows context.now ctx.old → IsPredecessor (forest_of ctx.old) block.index (B.index_of shown) → P.pre pred context shown }
    ensures conditions { Answers Call.BlockRetargetSomePredsTo result (unless (IsLive (forest_of ctx.old) (a_block block.index)) Condition.DeadBlock (unless (IsLive (forest_of ctx.old) (a_block other.index)) Condition.DeadBlock (unless (UsersLinked (forest_of ctx.old) block.index) Condition.UsersUnlinked own_answer))) }
    ensures forest { OnOk result (RetargetsChosen (forest_of ctx.old) (forest_of ctx.new) block.index other.index (MaySay P.Fn (λ c. C.shows c ctx.old) (λ b u. In u.user (ops_of (forest_of ctx.old) (B.index_of b))) pred)) }
    ensures rest { Made result (SameButForest (bare ctx.old) (bare ctx.new)) }
    ensures keeps { Made result (KeepsAll ctx.old ctx.new) }
    ensures memory { Made result (IfErr result (λ e. e ≡ out_of_memory)) }
    ensures err { OnErr result (ctx.new ≡ ctx.old) }
{
    if !block.is_live(ctx) {
        return Err(fault!(BlockRetargetSomePredsTo, DeadBlock));
    }
    if !other.is_live(ctx) {
        return Err(fault!(BlockRetargetSomePredsTo, DeadBlock));
    }
    if !block.preds_are_linked(ctx) {
        return Err(fault!(BlockRetargetSomePredsTo, UsersUnlinked));
    }
    match block.retarget_some_preds_to(ctx, pred, other) {
        Ok(answer) => Ok(answer),
        Err(error) => Err(CheckedErr::Core(error)),
    }
}

/// Lets the successor of a use of the live block name the other live one.
///
/// # Errors
/// `Unmet` where the block isn't live, the use isn't live, the use is not its own, or the other one isn't live. Else what the call itself is refused for.
pub fn retarget_pred_to<D: Dialects>(
    block: Ptr<BasicBlock<D>>,
    ctx: &mut Context<D>,
    used: Use<Ptr<BasicBlock<D>>>,
    other: Ptr<BasicBlock<D>>,
) -> Result<(), CheckedErr>
    ensures conditions { Answers Call.BlockRetargetPredTo result (unless (IsLive (forest_of ctx.old) (a_block block.index)) Condition.DeadBlock (unless (IsLiveBlockUse (forest_of ctx.old) (use_of used.index)) Condition.DeadUse (unless (IsUse (forest_of ctx.old) (the_block block.index) (use_of used.index)) Condition.NotItsUse (unless (IsLive (forest_of ctx.old) (a_block other.index)) Condition.DeadBlock own_answer)))) }
    ensures forest { OnOk result (forest_of ctx.new ≡ retarget_uses (forest_of ctx.old) (same_use (use_of used.index)) other.index) }
    ensures rest { Made result (SameButForest (bare ctx.old) (bare ctx.new)) }
    ensures keeps { Made result (KeepsAll ctx.old ctx.new) }
    ensures itself { Made result (block.index ≡ other.index → IsOk result) }
    ensures memory { Made result (IfErr result (λ e. e ≡ out_of_memory)) }
    ensures err { OnErr result (ctx.new ≡ ctx.old) }
{
    if !block.is_live(ctx) {
        return Err(fault!(BlockRetargetPredTo, DeadBlock));
    }
    if used.try_find_index(ctx).is_err() {
        return Err(fault!(BlockRetargetPredTo, DeadUse));
    }
    if !is_use_of_block(ctx, used, block) {
        return Err(fault!(BlockRetargetPredTo, NotItsUse));
    }
    if !other.is_live(ctx) {
        return Err(fault!(BlockRetargetPredTo, DeadBlock));
    }
    match block.retarget_pred_to(ctx, used, other) {
        Ok(answer) => Ok(answer),
        Err(error) => Err(CheckedErr::Core(error)),
    }
}
