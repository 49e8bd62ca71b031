//! Where blocks stand, and the lists of their operations.

ghost use Rattle.std.specs.Option.{option_map};
ghost use Rattle.std.specs.Prelude.{All, IfOk, IfSome, IsTrue, ◌↔◌, ◌≡◌};
ghost use Rattle.ir_checked_core.specs.Answers.{Answers, own_value, unless};
ghost use Rattle.ir_core_context.specs.State.{forest_of};
ghost use Rattle.ir_core_queries.specs.Above.{IsAbove};
ghost use Rattle.ir_model.specs.Edits.{UsersLinked};
ghost use Rattle.ir_model.specs.Forest.{a_block, a_region, an_op};
ghost use Rattle.ir_model.specs.Nesting.{IsLive, ops_of};
ghost use Rattle.ir_model.specs.Parent.{IsNext, IsParent, IsPrevious, first_of, last_of};

use crate::error::{Call, CheckedErr, Condition, fault};
use ir_base_dialects::{Dialects, Iter, Ptr};
use ir_core_queries::{BasicBlock, BlockPlace, BlockPtr, Context, Operation, Region};

/// The region that the live block stands in, if it stands in one.
///
/// # Errors
/// `Unmet` where the block isn't live.
pub fn get_parent_region<D: Dialects>(
    block: Ptr<BasicBlock<D>>,
    ctx: &Context<D>,
) -> Result<Option<Ptr<Region>>, CheckedErr>
    ensures conditions { Answers Call.BlockGetParentRegion result (unless (IsLive (forest_of ctx.now) (a_block block.index)) Condition.DeadBlock own_value) }
    ensures parent { IfOk result (λ answer. IsParent (forest_of ctx.now) (a_block block.index) (option_map (λ p. a_region p.index) answer)) }
    ensures live { IfOk result (λ answer. IfSome answer (λ p. IsLive (forest_of ctx.now) (a_region p.index))) }
{
    if !block.is_live(ctx) {
        return Err(fault!(BlockGetParentRegion, DeadBlock));
    }
    Ok(block.get_parent_region(ctx))
}

/// The operation of the region that the live block stands in, if there is one.
///
/// # Errors
/// `Unmet` where the block isn't live.
pub fn get_parent_op<D: Dialects>(
    block: Ptr<BasicBlock<D>>,
    ctx: &Context<D>,
) -> Result<Option<Ptr<Operation<D>>>, CheckedErr>
    ensures conditions { Answers Call.BlockGetParentOp result (unless (IsLive (forest_of ctx.now) (a_block block.index)) Condition.DeadBlock own_value) }
    ensures above { IfOk result (λ answer. IsAbove (forest_of ctx.now) 2 (a_block block.index) (option_map (λ p. an_op p.index) answer)) }
    ensures live { IfOk result (λ answer. IfSome answer (λ p. IsLive (forest_of ctx.now) (an_op p.index))) }
{
    if !block.is_live(ctx) {
        return Err(fault!(BlockGetParentOp, DeadBlock));
    }
    Ok(block.get_parent_op(ctx))
}

/// The block that the operation of the live block's region stands in, if there is one.
///
/// # Errors
/// `Unmet` where the block isn't live.
pub fn get_parent_block<D: Dialects>(
    block: Ptr<BasicBlock<D>>,
    ctx: &Context<D>,
) -> Result<Option<Ptr<BasicBlock<D>>>, CheckedErr>
    ensures conditions { Answers Call.BlockGetParentBlock result (unless (IsLive (forest_of ctx.now) (a_block block.index)) Condition.DeadBlock own_value) }
    ensures above { IfOk result (λ answer. IsAbove (forest_of ctx.now) 3 (a_block block.index) (option_map (λ p. a_block p.index) answer)) }
    ensures live { IfOk result (λ answer. IfSome answer (λ p. IsLive (forest_of ctx.now) (a_block p.index))) }
{
    if !block.is_live(ctx) {
        return Err(fault!(BlockGetParentBlock, DeadBlock));
    }
    Ok(block.get_parent_block(ctx))
}

/// Whether each operation that names the live block stands in a block. So it is where none names it.
///
/// # Errors
/// `Unmet` where the block isn't live.
pub fn preds_are_linked<D: Dialects>(
    block: Ptr<BasicBlock<D>>,
    ctx: &Context<D>,
) -> Result<bool, CheckedErr>
    ensures conditions { Answers Call.BlockPredsAreLinked result (unless (IsLive (forest_of ctx.now) (a_block block.index)) Condition.DeadBlock own_value) }
    ensures found { IfOk result (λ answer. IsTrue answer ↔ UsersLinked (forest_of ctx.now) block.index) }
{
    if !block.is_live(ctx) {
        return Err(fault!(BlockPredsAreLinked, DeadBlock));
    }
    Ok(block.preds_are_linked(ctx))
}

/// The block right after the live one in its region, if there is one.
///
/// # Errors
/// `Unmet` where the block isn't live.
pub fn get_next<D: Dialects>(
    block: Ptr<BasicBlock<D>>,
    ctx: &Context<D>,
) -> Result<Option<Ptr<BasicBlock<D>>>, CheckedErr>
    ensures conditions { Answers Call.BlockGetNext result (unless (IsLive (forest_of ctx.now) (a_block block.index)) Condition.DeadBlock own_value) }
    ensures next { IfOk result (λ answer. IsNext (forest_of ctx.now) (a_block block.index) (option_map (λ p. a_block p.index) answer)) }
    ensures live { IfOk result (λ answer. IfSome answer (λ p. IsLive (forest_of ctx.now) (a_block p.index))) }
{
    if !block.is_live(ctx) {
        return Err(fault!(BlockGetNext, DeadBlock));
    }
    Ok(block.get_next(ctx))
}

/// The block right before the live one in its region, if there is one.
///
/// # Errors
/// `Unmet` where the block isn't live.
pub fn get_prev<D: Dialects>(
    block: Ptr<BasicBlock<D>>,
    ctx: &Context<D>,
) -> Result<Option<Ptr<BasicBlock<D>>>, CheckedErr>
    ensures conditions { Answers Call.BlockGetPrev result (unless (IsLive (forest_of ctx.now) (a_block block.index)) Condition.DeadBlock own_value) }
    ensures previous { IfOk result (λ answer. IsPrevious (forest_of ctx.now) (a_block block.index) (option_map (λ p. a_block p.index) answer)) }
    ensures live { IfOk result (λ answer. IfSome answer (λ p. IsLive (forest_of ctx.now) (a_block p.index))) }
{
    if !block.is_live(ctx) {
        return Err(fault!(BlockGetPrev, DeadBlock));
    }
    Ok(block.get_prev(ctx))
}

/// The first operation of the live block, if it has one.
///
/// # Errors
/// `Unmet` where the block isn't live.
pub fn get_head<D: Dialects>(
    block: Ptr<BasicBlock<D>>,
    ctx: &Context<D>,
) -> Result<Option<Ptr<Operation<D>>>, CheckedErr>
    ensures conditions { Answers Call.BlockGetHead result (unless (IsLive (forest_of ctx.now) (a_block block.index)) Condition.DeadBlock own_value) }
    ensures first { IfOk result (λ answer. option_map (λ p. p.index) answer ≡ first_of (ops_of (forest_of ctx.now) block.index)) }
    ensures live { IfOk result (λ answer. IfSome answer (λ p. IsLive (forest_of ctx.now) (an_op p.index))) }
{
    if !block.is_live(ctx) {
        return Err(fault!(BlockGetHead, DeadBlock));
    }
    Ok(block.get_head(ctx))
}

/// The last operation of the live block, if it has one.
///
/// # Errors
/// `Unmet` where the block isn't live.
pub fn get_tail<D: Dialects>(
    block: Ptr<BasicBlock<D>>,
    ctx: &Context<D>,
) -> Result<Option<Ptr<Operation<D>>>, CheckedErr>
    ensures conditions { Answers Call.BlockGetTail result (unless (IsLive (forest_of ctx.now) (a_block block.index)) Condition.DeadBlock own_value) }
    ensures last { IfOk result (λ answer. option_map (λ p. p.index) answer ≡ last_of (ops_of (forest_of ctx.now) block.index)) }
    ensures live { IfOk result (λ answer. IfSome answer (λ p. IsLive (forest_of ctx.now) (an_op p.index))) }
{
    if !block.is_live(ctx) {
        return Err(fault!(BlockGetTail, DeadBlock));
    }
    Ok(block.get_tail(ctx))
}

/// The operations of the live block in order, walked from both ends.
///
/// # Errors
/// `Unmet` where the block isn't live.
pub fn iter<D: Dialects>(
    block: Ptr<BasicBlock<D>>,
    ctx: &Context<D>,
) -> Result<Iter<'_, Operation<D>>, CheckedErr>
    ensures conditions { Answers Call.BlockIter result (unless (IsLive (forest_of ctx.now) (a_block block.index)) Condition.DeadBlock own_value) }
    ensures items { IfOk result (λ answer. answer ≡ ops_of (forest_of ctx.now) block.index) }
    ensures live { IfOk result (λ answer. All (λ o. IsLive (forest_of ctx.now) (an_op o)) answer) }
{
    if !block.is_live(ctx) {
        return Err(fault!(BlockIter, DeadBlock));
    }
    Ok(block.iter(ctx))
}
