//! Where operations stand, and the uses of their results.

ghost use Rattle.std.specs.Option.{option_map};
ghost use Rattle.std.specs.Prelude.{IfOk, IfSome, IsTrue, OnOk, length, ◌↔◌, ◌≡◌};
ghost use Rattle.ir_checked_core.specs.Answers.{Answers, own_value, unless};
ghost use Rattle.ir_core_context.specs.State.{forest_of};
ghost use Rattle.ir_core_queries.specs.Above.{IsAbove};
ghost use Rattle.ir_core_queries.specs.Values.{AreUsesOfResults, IsUseOfResult, uses_of_results};
ghost use Rattle.ir_model.specs.ContextIds.{context_ids};
ghost use Rattle.ir_model.specs.Forest.{a_block, a_region, an_op};
ghost use Rattle.ir_model.specs.Nesting.{IsLive};
ghost use Rattle.ir_model.specs.Parent.{IsNext, IsParent, IsPrevious};
ghost use Rattle.ir_model.specs.Uses.{Use as PlainUse};

use crate::error::{Call, CheckedErr, Condition, fault};
use ir_base_dialects::{Dialects, Ptr};
use ir_core_queries::{
    BasicBlock, Context, Operation, OperationPlace, OperationPtr, OperationUses, Region, ResultUses,
};

/// The block that the live operation stands in, if it stands in one.
///
/// # Errors
/// `Unmet` where the operation isn't live.
pub fn get_parent_block<D: Dialects>(
    op: Ptr<Operation<D>>,
    ctx: &Context<D>,
) -> Result<Option<Ptr<BasicBlock<D>>>, CheckedErr>
    ensures conditions { Answers Call.OperationGetParentBlock result (unless (IsLive (forest_of ctx.now) (an_op op.index)) Condition.DeadOperation own_value) }
    ensures parent { IfOk result (λ answer. IsParent (forest_of ctx.now) (an_op op.index) (option_map (λ p. a_block p.index) answer)) }
    ensures live { IfOk result (λ answer. IfSome answer (λ p. IsLive (forest_of ctx.now) (a_block p.index))) }
{
    if !op.is_live(ctx) {
        return Err(fault!(OperationGetParentBlock, DeadOperation));
    }
    Ok(op.get_parent_block(ctx))
}

/// The region that the block of the live operation stands in, if there is one.
///
/// # Errors
/// `Unmet` where the operation isn't live.
pub fn get_parent_region<D: Dialects>(
    op: Ptr<Operation<D>>,
    ctx: &Context<D>,
) -> Result<Option<Ptr<Region>>, CheckedErr>
    ensures conditions { Answers Call.OperationGetParentRegion result (unless (IsLive (forest_of ctx.now) (an_op op.index)) Condition.DeadOperation own_value) }
    ensures above { IfOk result (λ answer. IsAbove (forest_of ctx.now) 2 (an_op op.index) (option_map (λ p. a_region p.index) answer)) }
    ensures live { IfOk result (λ answer. IfSome answer (λ p. IsLive (forest_of ctx.now) (a_region p.index))) }
{
    if !op.is_live(ctx) {
        return Err(fault!(OperationGetParentRegion, DeadOperation));
    }
    Ok(op.get_parent_region(ctx))
}

/// The operation of the region that the block of the live operation stands in, if there is one.
///
/// # Errors
/// `Unmet` where the operation isn't live.
pub fn get_parent_op<D: Dialects>(
    op: Ptr<Operation<D>>,
    ctx: &Context<D>,
) -> Result<Option<Ptr<Operation<D>>>, CheckedErr>
    ensures conditions { Answers Call.OperationGetParentOp result (unless (IsLive (forest_of ctx.now) (an_op op.index)) Condition.DeadOperation own_value) }
    ensures above { IfOk result (λ answer. IsAbove (forest_of ctx.now) 3 (an_op op.index) (option_map (λ p. an_op p.index) answer)) }
    ensures live { IfOk result (λ answer. IfSome answer (λ p. IsLive (forest_of ctx.now) (an_op p.index))) }
{
    if !op.is_live(ctx) {
        return Err(fault!(OperationGetParentOp, DeadOperation));
    }
    Ok(op.get_parent_op(ctx))
}

/// The operation right after the live one in its block, if there is one.
///
/// # Errors
/// `Unmet` where the operation isn't live.
pub fn get_next<D: Dialects>(
    op: Ptr<Operation<D>>,
    ctx: &Context<D>,
) -> Result<Option<Ptr<Operation<D>>>, CheckedErr>
    ensures conditions { Answers Call.OperationGetNext result (unless (IsLive (forest_of ctx.now) (an_op op.index)) Condition.DeadOperation own_value) }
    ensures next { IfOk result (λ answer. IsNext (forest_of ctx.now) (an_op op.index) (option_map (λ p. an_op p.index) answer)) }
    ensures live { IfOk result (λ answer. IfSome answer (λ p. IsLive (forest_of ctx.now) (an_op p.index))) }
{
    if !op.is_live(ctx) {
        return Err(fault!(OperationGetNext, DeadOperation));
    }
    Ok(op.get_next(ctx))
}

/// The operation right before the live one in its block, if there is one.
///
/// # Errors
/// `Unmet` where the operation isn't live.
pub fn get_prev<D: Dialects>(
    op: Ptr<Operation<D>>,
    ctx: &Context<D>,
) -> Result<Option<Ptr<Operation<D>>>, CheckedErr>
    ensures conditions { Answers Call.OperationGetPrev result (unless (IsLive (forest_of ctx.now) (an_op op.index)) Condition.DeadOperation own_value) }
    ensures previous { IfOk result (λ answer. IsPrevious (forest_of ctx.now) (an_op op.index) (option_map (λ p. an_op p.index) answer)) }
    ensures live { IfOk result (λ answer. IfSome answer (λ p. IsLive (forest_of ctx.now) (an_op p.index))) }
{
    if !op.is_live(ctx) {
        return Err(fault!(OperationGetPrev, DeadOperation));
    }
    Ok(op.get_prev(ctx))
}

/// Whether a result of the live operation has a use.
///
/// # Errors
/// `Unmet` where the operation isn't live.
pub fn has_use<D: Dialects>(op: Ptr<Operation<D>>, ctx: &Context<D>) -> Result<bool, CheckedErr>
    ensures conditions { Answers Call.OperationHasUse result (unless (IsLive (forest_of ctx.now) (an_op op.index)) Condition.DeadOperation own_value) }
    ensures found { IfOk result (λ answer. IsTrue answer ↔ ((u : PlainUse context_ids) × IsUseOfResult (forest_of ctx.now) op.index u)) }
{
    if !op.is_live(ctx) {
        return Err(fault!(OperationHasUse, DeadOperation));
    }
    Ok(op.has_use(ctx))
}

/// How many uses the results of the live operation have together.
///
/// # Errors
/// `Unmet` where the operation isn't live.
pub fn num_uses<D: Dialects>(op: Ptr<Operation<D>>, ctx: &Context<D>) -> Result<usize, CheckedErr>
    ensures conditions { Answers Call.OperationNumUses result (unless (IsLive (forest_of ctx.now) (an_op op.index)) Condition.DeadOperation own_value) }
    ensures count { IfOk result (λ answer. answer ≡ length (uses_of_results ctx.now op.index)) }
    ensures exact { OnOk result (AreUsesOfResults (forest_of ctx.now) op.index (uses_of_results ctx.now op.index)) }
{
    if !op.is_live(ctx) {
        return Err(fault!(OperationNumUses, DeadOperation));
    }
    Ok(op.num_uses(ctx))
}

/// The uses of all results of the live operation, each once, without taking memory.
///
/// # Errors
/// `Unmet` where the operation isn't live.
pub fn uses<D: Dialects>(
    op: Ptr<Operation<D>>,
    ctx: &Context<D>,
) -> Result<OperationUses<'_, D>, CheckedErr>
    ensures conditions { Answers Call.OperationUses result (unless (IsLive (forest_of ctx.now) (an_op op.index)) Condition.DeadOperation own_value) }
    ensures kept { IfOk result (λ answer. answer ≡ uses_of_results ctx.now op.index) }
    ensures exact { OnOk result (AreUsesOfResults (forest_of ctx.now) op.index (uses_of_results ctx.now op.index)) }
{
    if !op.is_live(ctx) {
        return Err(fault!(OperationUses, DeadOperation));
    }
    Ok(op.uses(ctx))
}
