//! Edges from a block back to its predecessors: the blocks in which the operations that name it stand.

ghost use Rattle.std.specs.Prelude.{All, IfErr, IfOk, IsTrue, List, Some, length, map, slice_get, ◌<◌, ◌↔◌, ◌≡◌};
ghost use Rattle.ir_checked_core.specs.Answers.{Answers, Made, out_of_memory, own_answer, own_value, unless};
ghost use Rattle.ir_core_context.specs.State.{block_uses_of, forest_of};
ghost use Rattle.ir_core_records.specs.DialectAnswers.{behaviour_of};
ghost use Rattle.ir_model.specs.BlockGraph.{IsPredecessor, IsSuccessorOf};
ghost use Rattle.ir_model.specs.Edits.{UsersLinked};
ghost use Rattle.ir_model.specs.Forest.{a_block};
ghost use Rattle.ir_model.specs.Nesting.{IsLive};
ghost use Rattle.ir_model.specs.Predecessors.{ArePredecessorsBy, IsPredecessorAt};
ghost use Rattle.ir_model.specs.declared.ids.ArenaIndex.{ArenaIndex};
ghost use Rattle.ir_view_parts.specs.Edges.{MeetSuccessors};

use ir_base_dialects::{Dialects, Ptr};
use ir_checked_core::{Call, CheckedErr, Condition, fault};
use ir_core_queries::{BasicBlock, BlockPlace, BlockPtr, BlockUses, Context};
use ir_view_parts::BlockPredecessors;

/// Whether an operation in `pred` names the live block. Operations that stand in no block are passed over.
///
/// # Errors
/// `Unmet` where the block isn't live.
pub fn is_pred<D: Dialects>(
    block: Ptr<BasicBlock<D>>,
    ctx: &Context<D>,
    pred: Ptr<BasicBlock<D>>,
) -> Result<bool, CheckedErr>
    ensures conditions { Answers Call.BlockIsPred result (unless (IsLive (forest_of ctx.now) (a_block block.index)) Condition.DeadBlock own_value) }
    ensures found { IfOk result (λ answer. IsTrue answer ↔ IsPredecessor (forest_of ctx.now) block.index pred.index) }
{
    if !block.is_live(ctx) {
        return Err(fault!(BlockIsPred, DeadBlock));
    }
    Ok(block.is_pred(ctx, pred))
}

/// The predecessors of the live block, whose users are linked: one for each use, in the order in which the uses are kept.
///
/// # Errors
/// `Unmet` where the block isn't live, or an operation that names it stands in no block. Else what the call itself is refused for.
pub fn preds<D: Dialects>(
    block: Ptr<BasicBlock<D>>,
    ctx: &Context<D>,
) -> Result<Vec<Ptr<BasicBlock<D>>>, CheckedErr>
    ensures conditions { Answers Call.BlockPreds result (unless (IsLive (forest_of ctx.now) (a_block block.index)) Condition.DeadBlock (unless (UsersLinked (forest_of ctx.now) block.index) Condition.UsersUnlinked own_answer)) }
    ensures exact { IfOk result (λ blocks. ArePredecessorsBy (forest_of ctx.now) block.index (block_uses_of ctx.now block.index) (map (λ p. p.index) blocks.items)) }
    ensures edges { IfOk result (λ blocks. MeetSuccessors (behaviour_of D.Dialects D.TypeKey.eq) (forest_of ctx.now) block.index (map (λ p. p.index) blocks.items)) }
    ensures live { IfOk result (λ blocks. All (λ p. IsLive (forest_of ctx.now) (a_block p.index)) blocks.items) }
    ensures memory { Made result (IfErr result (λ e. e ≡ out_of_memory)) }
{
    if !block.is_live(ctx) {
        return Err(fault!(BlockPreds, DeadBlock));
    }
    if !block.preds_are_linked(ctx) {
        return Err(fault!(BlockPreds, UsersUnlinked));
    }
    match block.preds(ctx) {
        Ok(answer) => Ok(answer),
        Err(error) => Err(CheckedErr::Core(error)),
    }
}

/// The predecessor of the live block at the index: that which `preds` lists there.
///
/// # Errors
/// `Unmet` where the block isn't live, an operation that names it stands in no block, or the index is out of range.
pub fn get_pred<D: Dialects>(
    block: Ptr<BasicBlock<D>>,
    ctx: &Context<D>,
    index: usize,
) -> Result<Ptr<BasicBlock<D>>, CheckedErr>
    ensures conditions { Answers Call.BlockGetPred result (unless (IsLive (forest_of ctx.now) (a_block block.index)) Condition.DeadBlock (unless (UsersLinked (forest_of ctx.now) block.index) Condition.UsersUnlinked (unless (index < length (block_uses_of ctx.now block.index)) Condition.OutOfRange own_value))) }
    ensures found { IfOk result (λ answer. IsPredecessorAt (forest_of ctx.now) (block_uses_of ctx.now block.index) index answer.index) }
    ensures listed { IfOk result (λ answer. (blocks : List ArenaIndex) → ArePredecessorsBy (forest_of ctx.now) block.index (block_uses_of ctx.now block.index) blocks → slice_get blocks index ≡ Some answer.index) }
    ensures live { IfOk result (λ answer. IsLive (forest_of ctx.now) (a_block answer.index)) }
{
    if !block.is_live(ctx) {
        return Err(fault!(BlockGetPred, DeadBlock));
    }
    if !block.preds_are_linked(ctx) {
        return Err(fault!(BlockGetPred, UsersUnlinked));
    }
    if block.num_preds(ctx) <= index {
        return Err(fault!(BlockGetPred, OutOfRange));
    }
    Ok(block.get_pred(ctx, index))
}

/// Whether the last operation of the live block `pred`, terminator or not, names the block.
///
/// # Errors
/// `Unmet` where `pred` isn't live.
pub fn is_succ_of<D: Dialects>(
    block: Ptr<BasicBlock<D>>,
    ctx: &Context<D>,
    pred: Ptr<BasicBlock<D>>,
) -> Result<bool, CheckedErr>
    ensures conditions { Answers Call.BlockIsSuccOf result (unless (IsLive (forest_of ctx.now) (a_block pred.index)) Condition.DeadBlock own_value) }
    ensures found { IfOk result (λ answer. IsTrue answer ↔ IsSuccessorOf (forest_of ctx.now) block.index pred.index) }
{
    if !pred.is_live(ctx) {
        return Err(fault!(BlockIsSuccOf, DeadBlock));
    }
    Ok(block.is_succ_of(ctx, pred))
}
