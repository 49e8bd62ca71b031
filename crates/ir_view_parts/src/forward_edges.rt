//! Edges from a block to its successors: the blocks that its terminator names.

ghost use Rattle.std.specs.Prelude.{◌≡◌, ◌<◌, ◌↔◌, All, length, map, Some, IsTrue, IfOk, IfErr, IfSome, slice_get};
ghost use Rattle.std.specs.Option.{option_map};
ghost use Rattle.ir_model.specs.BlockGraph.{last_op, succs, terminator, IsSuccessor};
ghost use Rattle.ir_model.specs.Forest.{a_block, an_op};
ghost use Rattle.ir_model.specs.Nesting.{In, IsLive};
ghost use Rattle.ir_core_queries.specs.Calls.{LeadsToLive};
ghost use Rattle.ir_core_queries.specs.State.{forest_of};
ghost use Rattle.ir_view_parts.specs.Parts.{successor_blocks_of};
ghost use Rattle.ir_core_records.specs.DialectAnswers.{behaviour_of};

use crate::operation_parts::OperationParts;
use ir_base_dialects::interfaces::TERMINATOR;
use ir_base_dialects::{CoreError, Dialects, Ptr};
use ir_core_queries::{BasicBlock, Context, Operation, OperationPtr};
use std::alloc::Global;

// The last operation of a live block.
pub(crate) fn tail<D: Dialects>(
    ctx: &Context<D>,
    block: Ptr<BasicBlock<D>>,
) -> Option<Ptr<Operation<D>>>
    requires { IsLive (forest_of ctx.now) (a_block block.index) }
    ensures found { option_map (λ p. p.index) result ≡ last_op (forest_of ctx.now) block.index }
    ensures live { IfSome result (λ p. IsLive (forest_of ctx.now) (an_op p.index)) }
{
    ctx.recall_holds_together();
    ctx.recall_well_formed();
    let last = ctx.records().blocks.at(block).ops_list.last.get()?;
    Some(Ptr::from_index(last))
}

// Whether an operation names a block.
pub(crate) fn names_block<D: Dialects>(op: &Operation<D>, block: Ptr<BasicBlock<D>>) -> bool
    ensures { IsTrue result ↔ In block.index (successor_blocks_of op.now) }
{
    op.successors().any(|successor| successor == block)
}

// The blocks that an operation names, in order.
fn targets<D: Dialects>(
    op: &Operation<D>,
    alloc: Global,
) -> Result<Vec<Ptr<BasicBlock<D>>>, CoreError>
    ensures exact { IfOk result (λ blocks. map (λ p. p.index) blocks.items ≡ successor_blocks_of op.now) }
    ensures memory { IfErr result (λ e. e ≡ CoreError.OutOfMemory) }
{
    Ok(op.successors().collect(alloc)?)
}

/// What can be asked of a live block about its successors: the blocks that its terminator names, in order. It stands for pliron's calls of `BasicBlock`.
pub trait BlockSuccessors<D: Dialects> {
    ghost use Rattle.ir_model.specs.declared.ids.ArenaIndex.{ArenaIndex};

    ghost index_of: { Self → ArenaIndex };

    /// The terminator: the last operation, where its kind says that it ends blocks. It stands for pliron's `BasicBlock::get_terminator`.
    fn get_terminator(self, ctx: &Context<D>) -> Option<Ptr<Operation<D>>>
        requires { IsLive (forest_of ctx.now) (a_block (index_of self)) }
        ensures found { option_map (λ p. p.index) result ≡ terminator (behaviour_of D.Dialects D.TypeKey.eq) (forest_of ctx.now) (index_of self) }
        ensures live { IfSome result (λ p. IsLive (forest_of ctx.now) (an_op p.index)) };

    /// The successors, in order; none without a terminator. It stands for pliron's `BasicBlock::succs`.
    ///
    /// # Errors
    /// `OutOfMemory`.
    fn succs(self, ctx: &Context<D>) -> Result<Vec<Ptr<BasicBlock<D>>>, CoreError>
        requires { IsLive (forest_of ctx.now) (a_block (index_of self)) }
        ensures exact { IfOk result (λ blocks. map (λ p. p.index) blocks.items ≡ succs (behaviour_of D.Dialects D.TypeKey.eq) (forest_of ctx.now) (index_of self)) }
        ensures live { IfOk result (λ blocks. All (λ p. IsLive (forest_of ctx.now) (a_block p.index)) blocks.items) }
        ensures memory { IfErr result (λ e. e ≡ CoreError.OutOfMemory) };

    /// Whether there is a successor. It stands for pliron's `BasicBlock::has_succ`.
    fn has_succ(self, ctx: &Context<D>) -> bool
        requires { IsLive (forest_of ctx.now) (a_block (index_of self)) }
        ensures { IsTrue result ↔ ((b : ArenaIndex) × IsSuccessor (behaviour_of D.Dialects D.TypeKey.eq) (forest_of ctx.now) (index_of self) b) };

    /// Whether this block is among the successors. It stands for pliron's `BasicBlock::is_succ`.
    fn is_succ(self, ctx: &Context<D>, succ: Self) -> bool
        requires { IsLive (forest_of ctx.now) (a_block (index_of self)) }
        ensures { IsTrue result ↔ IsSuccessor (behaviour_of D.Dialects D.TypeKey.eq) (forest_of ctx.now) (index_of self) (index_of succ) };

    /// How many successors there are. It stands for pliron's `BasicBlock::num_succ`.
    fn num_succ(self, ctx: &Context<D>) -> usize
        requires { IsLive (forest_of ctx.now) (a_block (index_of self)) }
        ensures { result ≡ length (succs (behaviour_of D.Dialects D.TypeKey.eq) (forest_of ctx.now) (index_of self)) };

    /// The successor at an index below their number. It stands for pliron's `BasicBlock::get_succ`.
    fn get_succ(self, ctx: &Context<D>, index: usize) -> Ptr<BasicBlock<D>>
        requires live { IsLive (forest_of ctx.now) (a_block (index_of self)) }
        requires within { index < length (succs (behaviour_of D.Dialects D.TypeKey.eq) (forest_of ctx.now) (index_of self)) }
        ensures found { slice_get (succs (behaviour_of D.Dialects D.TypeKey.eq) (forest_of ctx.now) (index_of self)) index ≡ Some result.index }
        ensures live { IsLive (forest_of ctx.now) (a_block result.index) };
}

impl<D: Dialects> BlockSuccessors<D> for Ptr<BasicBlock<D>> {
    ghost index_of = { λ p. p.index };

    fn get_terminator(self, ctx: &Context<D>) -> Option<Ptr<Operation<D>>> {
        let last = tail(ctx, self)?;
        if D::op_impls(last.deref(ctx).kind(), TERMINATOR) {
            Some(last)
        } else {
            None
        }
    }

    fn succs(self, ctx: &Context<D>) -> Result<Vec<Ptr<BasicBlock<D>>>, CoreError> {
        match self.get_terminator(ctx) {
            Some(terminator) => targets(terminator.deref(ctx), ctx.alloc()),
            None => Ok(Vec::new(ctx.alloc())),
        }
    }

    fn has_succ(self, ctx: &Context<D>) -> bool {
        self.num_succ(ctx) > 0
    }

    fn is_succ(self, ctx: &Context<D>, succ: Self) -> bool {
        match self.get_terminator(ctx) {
            Some(terminator) => names_block(terminator.deref(ctx), succ),
            None => false,
        }
    }

    fn num_succ(self, ctx: &Context<D>) -> usize {
        match self.get_terminator(ctx) {
            Some(terminator) => terminator.deref(ctx).get_num_successors(),
            None => 0,
        }
    }

    fn get_succ(self, ctx: &Context<D>, index: usize) -> Ptr<BasicBlock<D>> {
        match self.get_terminator(ctx) {
            Some(terminator) => terminator.deref(ctx).get_successor(index),
            None => unreachable!(),
        }
    }
}
