//! Edges from a block back to its predecessors: the blocks in which the operations that name it stand.
//!
//! They follow the kept list of the block's uses, one for each use and in its order, so that a block which names it twice is listed twice. An operation that stands in no block is passed over by `is_pred`, and the calls that list predecessors ask that there is none.

ghost use Rattle.std.specs.Prelude.{◌≡◌, ◌<◌, ◌↔◌, All, Any, List, length, map, Some, IsTrue, IfOk, IfErr, slice_get};
ghost use Rattle.std.specs.List.{AllZip};
ghost use Rattle.ir_model.specs.declared.ids.ArenaIndex.{ArenaIndex as Index};
ghost use Rattle.ir_model.specs.BlockGraph.{IsPredecessor, IsSuccessorOf};
ghost use Rattle.ir_model.specs.Edits.{UsersLinked};
ghost use Rattle.ir_model.specs.Forest.{a_block, an_op};
ghost use Rattle.ir_model.specs.Nesting.{In, IsLinked, IsLive, ops_of};
ghost use Rattle.ir_model.specs.Parent.{FindsOne};
ghost use Rattle.ir_model.specs.Predecessors.{ArePredecessorsBy, IsPredecessorAt};
ghost use Rattle.ir_core_queries.specs.State.{block_uses_of, forest_of};
ghost use Rattle.ir_core_records.specs.DialectAnswers.{behaviour_of};
ghost use Rattle.ir_view_parts.specs.Edges.{MeetSuccessors};

use crate::forward_edges::{names_block, tail};
use ir_base_dialects::{ArenaIndex, CoreError, Dialects, Ptr};
use ir_core_nesting::parent_of;
use ir_core_queries::{BasicBlock, Context, OperationPtr, kept_uses};
use ir_core_records::{EntityIndex, KeptUse};

// The block that an operation stands in.
fn parent_block<D: Dialects>(ctx: &Context<D>, op: ArenaIndex) -> Option<ArenaIndex>
    ensures { FindsOne (λ a. In op (ops_of (forest_of ctx.now) a)) result }
{
    ctx.recall_holds_together();
    ctx.recall_well_formed();
    let parent = parent_of(ctx.records(), EntityIndex::Op(op))?;
    match parent {
        EntityIndex::Op(_) => None,
        EntityIndex::Block(block) => Some(block),
        EntityIndex::Region(_) => None,
    }
}

// Whether an operation stands in a block.
fn stands_in<D: Dialects>(ctx: &Context<D>, op: ArenaIndex, block: ArenaIndex) -> bool
    ensures { IsTrue result ↔ In op (ops_of (forest_of ctx.now) block) }
{
    ctx.recall_well_formed();
    match parent_block(ctx, op) {
        Some(parent) => parent == block,
        None => false,
    }
}

// Whether one of the users of these uses stands in a block.
fn any_stands_in<D: Dialects>(ctx: &Context<D>, uses: &[KeptUse], block: ArenaIndex) -> bool
    ensures { IsTrue result ↔ Any (λ u. In u.user (ops_of (forest_of ctx.now) block)) uses.now }
{
    uses.iter().any(|used| stands_in(ctx, used.user(), block))
}

// The block that a linked operation stands in.
fn linked_block<D: Dialects>(ctx: &Context<D>, op: ArenaIndex) -> Ptr<BasicBlock<D>>
    requires linked { IsLinked (forest_of ctx.now) (an_op op) }
    ensures found { In op (ops_of (forest_of ctx.now) result.index) }
    ensures live { IsLive (forest_of ctx.now) (a_block result.index) }
{
    match parent_block(ctx, op) {
        Some(block) => Ptr::from_index(block),
        None => unreachable!(),
    }
}

// The blocks that the users of these uses stand in, one for each use.
fn blocks_of_users<D: Dialects>(
    ctx: &Context<D>,
    uses: &[KeptUse],
) -> Result<Vec<Ptr<BasicBlock<D>>>, CoreError>
    requires linked { All (λ u. IsLinked (forest_of ctx.now) (an_op u.user)) uses.now }
    ensures found { IfOk result (λ blocks. AllZip (λ u p. In u.user (ops_of (forest_of ctx.now) p.index)) uses.now blocks.items) }
    ensures live { IfOk result (λ blocks. All (λ p. IsLive (forest_of ctx.now) (a_block p.index)) blocks.items) }
    ensures memory { IfErr result (λ e. e ≡ CoreError.OutOfMemory) }
{
    let mut blocks = Vec::with_capacity(ctx.alloc(), uses.len())?;
    for used in uses {
        blocks.push(linked_block(ctx, used.user()))?;
    }
    Ok(blocks)
}

/// What can be asked of a block about its predecessors: the blocks in which its users stand, one for each use. It stands for pliron's calls of `Ptr<BasicBlock>`.
pub trait BlockPredecessors<D: Dialects> {
    ghost use Rattle.ir_model.specs.declared.ids.ArenaIndex.{ArenaIndex};

    ghost index_of: { Self → ArenaIndex };

    /// Whether an operation in `pred` names the live block. It stands for pliron's `is_pred`.
    ///
    /// Operations that stand in no block are passed over.
    fn is_pred(self, ctx: &Context<D>, pred: Self) -> bool
        requires { IsLive (forest_of ctx.now) (a_block (index_of self)) }
        ensures { IsTrue result ↔ IsPredecessor (forest_of ctx.now) (index_of self) (index_of pred) };

    /// The predecessors of the live block, whose users are linked: one for each use, in the order in which the uses are kept. Where terminators alone name successors, they are exactly the blocks that have it among their successors. It stands for pliron's `preds`.
    ///
    /// # Errors
    /// `OutOfMemory`.
    fn preds(self, ctx: &Context<D>) -> Result<Vec<Ptr<BasicBlock<D>>>, CoreError>
        requires live { IsLive (forest_of ctx.now) (a_block (index_of self)) }
        requires linked { UsersLinked (forest_of ctx.now) (index_of self) }
        ensures exact { IfOk result (λ blocks. ArePredecessorsBy (forest_of ctx.now) (index_of self) (block_uses_of ctx.now (index_of self)) (map (λ p. p.index) blocks.items)) }
        ensures edges { IfOk result (λ blocks. MeetSuccessors (behaviour_of D.Dialects D.TypeKey.eq) (forest_of ctx.now) (index_of self) (map (λ p. p.index) blocks.items)) }
        ensures live { IfOk result (λ blocks. All (λ p. IsLive (forest_of ctx.now) (a_block p.index)) blocks.items) }
        ensures memory { IfErr result (λ e. e ≡ CoreError.OutOfMemory) };

    /// The predecessor at an index below the number of uses: that which `preds` lists there. It stands for pliron's `get_pred`.
    fn get_pred(self, ctx: &Context<D>, index: usize) -> Ptr<BasicBlock<D>>
        requires live { IsLive (forest_of ctx.now) (a_block (index_of self)) }
        requires linked { UsersLinked (forest_of ctx.now) (index_of self) }
        requires within { index < length (block_uses_of ctx.now (index_of self)) }
        ensures found { IsPredecessorAt (forest_of ctx.now) (block_uses_of ctx.now (index_of self)) index result.index }
        ensures listed { (blocks : List Index) → ArePredecessorsBy (forest_of ctx.now) (index_of self) (block_uses_of ctx.now (index_of self)) blocks → slice_get blocks index ≡ Some result.index }
        ensures live { IsLive (forest_of ctx.now) (a_block result.index) };

    /// Whether the last operation of the live block `pred`, terminator or not, names the block. It stands for pliron's `is_succ_of`.
    fn is_succ_of(self, ctx: &Context<D>, pred: Self) -> bool
        requires { IsLive (forest_of ctx.now) (a_block (index_of pred)) }
        ensures { IsTrue result ↔ IsSuccessorOf (forest_of ctx.now) (index_of self) (index_of pred) };
}

impl<D: Dialects> BlockPredecessors<D> for Ptr<BasicBlock<D>> {
    ghost index_of = { λ p. p.index };

    fn is_pred(self, ctx: &Context<D>, pred: Self) -> bool {
        any_stands_in(ctx, kept_uses(ctx, self), pred.index)
    }

    fn preds(self, ctx: &Context<D>) -> Result<Vec<Ptr<BasicBlock<D>>>, CoreError> {
        ctx.recall_well_formed();
        blocks_of_users(ctx, kept_uses(ctx, self))
    }

    fn get_pred(self, ctx: &Context<D>, index: usize) -> Ptr<BasicBlock<D>> {
        ctx.recall_well_formed();
        let uses = kept_uses(ctx, self);
        linked_block(ctx, uses[index].user())
    }

    fn is_succ_of(self, ctx: &Context<D>, pred: Self) -> bool {
        match tail(ctx, pred) {
            Some(last) => names_block(last.deref(ctx), self),
            None => false,
        }
    }
}
