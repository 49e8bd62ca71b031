//! Edges from a block to its successors: the blocks that its terminator names.

ghost use Rattle.std.specs.Option.{option_map};
ghost use Rattle.std.specs.Prelude.{All, IfErr, IfOk, IfSome, IsSome, IsTrue, Some, length, map, slice_get, ◌<◌, ◌↔◌, ◌≡◌};
ghost use Rattle.ir_checked_core.specs.Answers.{Answers, Made, out_of_memory, own_answer, own_value, unless};
ghost use Rattle.ir_core_context.specs.State.{forest_of};
ghost use Rattle.ir_core_records.specs.DialectAnswers.{behaviour_of};
ghost use Rattle.ir_model.specs.BlockGraph.{IsSuccessor, succs, terminator};
ghost use Rattle.ir_model.specs.Forest.{a_block, an_op};
ghost use Rattle.ir_model.specs.Nesting.{IsLive};
ghost use Rattle.ir_model.specs.declared.ids.ArenaIndex.{ArenaIndex};

use ir_base_dialects::{Dialects, Ptr};
use ir_checked_core::{Call, CheckedErr, Condition, fault};
use ir_core_queries::{BasicBlock, BlockPtr, Context, Operation};
use ir_view_parts::BlockSuccessors;

// Whether the live block has a terminator.
fn has_terminator<D: Dialects>(ctx: &Context<D>, block: Ptr<BasicBlock<D>>) -> bool
    requires { IsLive (forest_of ctx.now) (a_block block.index) }
    ensures { IsTrue result ↔ IsSome (terminator (behaviour_of D.Dialects D.TypeKey.eq) (forest_of ctx.now) block.index) }
{
    block.get_terminator(ctx).is_some()
}

/// The terminator of the live block: its last operation, where the kind of this says that it ends blocks.
///
/// # Errors
/// `Unmet` where the block isn't live.
pub fn get_terminator<D: Dialects>(
    block: Ptr<BasicBlock<D>>,
    ctx: &Context<D>,
) -> Result<Option<Ptr<Operation<D>>>, CheckedErr>
    ensures conditions { Answers Call.BlockGetTerminator result (unless (IsLive (forest_of ctx.now) (a_block block.index)) Condition.DeadBlock own_value) }
    ensures found { IfOk result (λ answer. option_map (λ p. p.index) answer ≡ terminator (behaviour_of D.Dialects D.TypeKey.eq) (forest_of ctx.now) block.index) }
    ensures live { IfOk result (λ answer. IfSome answer (λ p. IsLive (forest_of ctx.now) (an_op p.index))) }
{
    if !block.is_live(ctx) {
        return Err(fault!(BlockGetTerminator, DeadBlock));
    }
    Ok(block.get_terminator(ctx))
}

/// The successors of the live block, in order; none without a terminator.
///
/// # Errors
/// `Unmet` where the block isn't live. Else what the call itself is refused for.
pub fn succs<D: Dialects>(
    block: Ptr<BasicBlock<D>>,
    ctx: &Context<D>,
) -> Result<Vec<Ptr<BasicBlock<D>>>, CheckedErr>
    ensures conditions { Answers Call.BlockSuccs result (unless (IsLive (forest_of ctx.now) (a_block block.index)) Condition.DeadBlock own_answer) }
    ensures exact { IfOk result (λ blocks. map (λ p. p.index) blocks.items ≡ succs (behaviour_of D.Dialects D.TypeKey.eq) (forest_of ctx.now) block.index) }
    ensures live { IfOk result (λ blocks. All (λ p. IsLive (forest_of ctx.now) (a_block p.index)) blocks.items) }
    ensures memory { Made result (IfErr result (λ e. e ≡ out_of_memory)) }
{
    if !block.is_live(ctx) {
        return Err(fault!(BlockSuccs, DeadBlock));
    }
    match block.succs(ctx) {
        Ok(answer) => Ok(answer),
        Err(error) => Err(CheckedErr::Core(error)),
    }
}

/// Whether the live block has a successor.
///
/// # Errors
/// `Unmet` where the block isn't live.
pub fn has_succ<D: Dialects>(
    block: Ptr<BasicBlock<D>>,
    ctx: &Context<D>,
) -> Result<bool, CheckedErr>
    ensures conditions { Answers Call.BlockHasSucc result (unless (IsLive (forest_of ctx.now) (a_block block.index)) Condition.DeadBlock own_value) }
    ensures found { IfOk result (λ answer. IsTrue answer ↔ ((b : ArenaIndex) × IsSuccessor (behaviour_of D.Dialects D.TypeKey.eq) (forest_of ctx.now) block.index b)) }
{
    if !block.is_live(ctx) {
        return Err(fault!(BlockHasSucc, DeadBlock));
    }
    Ok(block.has_succ(ctx))
}

/// Whether the other block is among the successors of the live one.
///
/// # Errors
/// `Unmet` where the block isn't live.
pub fn is_succ<D: Dialects>(
    block: Ptr<BasicBlock<D>>,
    ctx: &Context<D>,
    succ: Ptr<BasicBlock<D>>,
) -> Result<bool, CheckedErr>
    ensures conditions { Answers Call.BlockIsSucc result (unless (IsLive (forest_of ctx.now) (a_block block.index)) Condition.DeadBlock own_value) }
    ensures found { IfOk result (λ answer. IsTrue answer ↔ IsSuccessor (behaviour_of D.Dialects D.TypeKey.eq) (forest_of ctx.now) block.index succ.index) }
{
    if !block.is_live(ctx) {
        return Err(fault!(BlockIsSucc, DeadBlock));
    }
    Ok(block.is_succ(ctx, succ))
}

/// How many successors the live block has.
///
/// # Errors
/// `Unmet` where the block isn't live.
pub fn num_succ<D: Dialects>(
    block: Ptr<BasicBlock<D>>,
    ctx: &Context<D>,
) -> Result<usize, CheckedErr>
    ensures conditions { Answers Call.BlockNumSucc result (unless (IsLive (forest_of ctx.now) (a_block block.index)) Condition.DeadBlock own_value) }
    ensures count { IfOk result (λ answer. answer ≡ length (succs (behaviour_of D.Dialects D.TypeKey.eq) (forest_of ctx.now) block.index)) }
{
    if !block.is_live(ctx) {
        return Err(fault!(BlockNumSucc, DeadBlock));
    }
    Ok(block.num_succ(ctx))
}

/// The successor of the live block at the index.
///
/// # Errors
/// `Unmet` where the block isn't live, it has no terminator, or the index is out of range.
pub fn get_succ<D: Dialects>(
    block: Ptr<BasicBlock<D>>,
    ctx: &Context<D>,
    index: usize,
) -> Result<Ptr<BasicBlock<D>>, CheckedErr>
    ensures conditions { Answers Call.BlockGetSucc result (unless (IsLive (forest_of ctx.now) (a_block block.index)) Condition.DeadBlock (unless (IsSome (terminator (behaviour_of D.Dialects D.TypeKey.eq) (forest_of ctx.now) block.index)) Condition.NoTerminator (unless (index < length (succs (behaviour_of D.Dialects D.TypeKey.eq) (forest_of ctx.now) block.index)) Condition.OutOfRange own_value))) }
    ensures found { IfOk result (λ answer. slice_get (succs (behaviour_of D.Dialects D.TypeKey.eq) (forest_of ctx.now) block.index) index ≡ Some answer.index) }
    ensures live { IfOk result (λ answer. IsLive (forest_of ctx.now) (a_block answer.index)) }
{
    if !block.is_live(ctx) {
        return Err(fault!(BlockGetSucc, DeadBlock));
    }
    if !has_terminator(ctx, block) {
        return Err(fault!(BlockGetSucc, NoTerminator));
    }
    if block.num_succ(ctx) <= index {
        return Err(fault!(BlockGetSucc, OutOfRange));
    }
    Ok(block.get_succ(ctx, index))
}
