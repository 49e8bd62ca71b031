//! The edits of lists and nesting: each tests its condition, and then is one call of the context.
//!
//! None of them needs numbers or slots, and but for the move of a region none takes memory.

ghost use Rattle.ir_model.specs.Edits.{AppendBlocks as PlainAppendBlocks, AppendOps as PlainAppendOps, BlockAfter as PlainBlockAfter, BlockBack as PlainBlockBack, BlockBefore as PlainBlockBefore, BlockFront as PlainBlockFront, MoveRegion as PlainMoveRegion, OpAfter as PlainOpAfter, OpBack as PlainOpBack, OpBefore as PlainOpBefore, OpFront as PlainOpFront, UnlinkBlock as PlainUnlinkBlock, UnlinkOp as PlainUnlinkOp};
ghost use Rattle.ir_model.specs.Sessions.{Step};
ghost use Rattle.ir_run_sessions.specs.SessionTables.{session_in};
ghost use Rattle.ir_core_records.specs.DialectAnswers.{behaviour_of};

use crate::list_conditions::{find_beside, find_into, find_joined, find_linked, find_outside};
use crate::session_tables::Tables;
use crate::steps::recall_needs_nothing;
use ir_base_dialects::{Answer, Dialects, Ptr, Refused};
use ir_core_queries::{
    BasicBlock, BlockContainer, BlockList, Context, Operation, OperationContainer, OperationList,
    Region, RegionMoves,
};

/// Puts the operation at the front of the block.
pub fn op_front<D: Dialects>(
    ctx: &mut Context<D>,
    tables: &Tables<D>,
    op: usize,
    block: usize,
) -> Answer
    ensures { Step (behaviour_of D.Dialects D.TypeKey.eq) (session_in ctx.old tables.now) (PlainOpFront op block) result (session_in ctx.new tables.now) }
{
    recall_needs_nothing(ctx);
    match find_into::<D, Ptr<Operation<D>>, Ptr<BasicBlock<D>>>(ctx, tables, op, block) {
        Some((op, block)) => {
            op.insert_at_front(block, ctx);
            Answer::Done
        }
        None => Answer::Refused(Refused::Condition),
    }
}

/// Puts the operation at the back of the block.
pub fn op_back<D: Dialects>(
    ctx: &mut Context<D>,
    tables: &Tables<D>,
    op: usize,
    block: usize,
) -> Answer
    ensures { Step (behaviour_of D.Dialects D.TypeKey.eq) (session_in ctx.old tables.now) (PlainOpBack op block) result (session_in ctx.new tables.now) }
{
    recall_needs_nothing(ctx);
    match find_into::<D, Ptr<Operation<D>>, Ptr<BasicBlock<D>>>(ctx, tables, op, block) {
        Some((op, block)) => {
            op.insert_at_back(block, ctx);
            Answer::Done
        }
        None => Answer::Refused(Refused::Condition),
    }
}

/// Puts the operation right before the mark.
pub fn op_before<D: Dialects>(
    ctx: &mut Context<D>,
    tables: &Tables<D>,
    op: usize,
    mark: usize,
) -> Answer
    ensures { Step (behaviour_of D.Dialects D.TypeKey.eq) (session_in ctx.old tables.now) (PlainOpBefore op mark) result (session_in ctx.new tables.now) }
{
    recall_needs_nothing(ctx);
    match find_beside::<D, Ptr<Operation<D>>>(ctx, tables, op, mark) {
        Some((op, mark)) => {
            op.insert_before(ctx, mark);
            Answer::Done
        }
        None => Answer::Refused(Refused::Condition),
    }
}

/// Puts the operation right after the mark.
pub fn op_after<D: Dialects>(
    ctx: &mut Context<D>,
    tables: &Tables<D>,
    op: usize,
    mark: usize,
) -> Answer
    ensures { Step (behaviour_of D.Dialects D.TypeKey.eq) (session_in ctx.old tables.now) (PlainOpAfter op mark) result (session_in ctx.new tables.now) }
{
    recall_needs_nothing(ctx);
    match find_beside::<D, Ptr<Operation<D>>>(ctx, tables, op, mark) {
        Some((op, mark)) => {
            op.insert_after(ctx, mark);
            Answer::Done
        }
        None => Answer::Refused(Refused::Condition),
    }
}

/// Takes the operation out of its block.
pub fn unlink_op<D: Dialects>(ctx: &mut Context<D>, tables: &Tables<D>, op: usize) -> Answer
    ensures { Step (behaviour_of D.Dialects D.TypeKey.eq) (session_in ctx.old tables.now) (PlainUnlinkOp op) result (session_in ctx.new tables.now) }
{
    recall_needs_nothing(ctx);
    match find_linked::<D, Ptr<Operation<D>>>(ctx, tables, op) {
        Some(op) => {
            op.unlink(ctx);
            Answer::Done
        }
        None => Answer::Refused(Refused::Condition),
    }
}

/// Puts the block at the front of the region.
pub fn block_front<D: Dialects>(
    ctx: &mut Context<D>,
    tables: &Tables<D>,
    block: usize,
    region: usize,
) -> Answer
    ensures { Step (behaviour_of D.Dialects D.TypeKey.eq) (session_in ctx.old tables.now) (PlainBlockFront block region) result (session_in ctx.new tables.now) }
{
    recall_needs_nothing(ctx);
    match find_into::<D, Ptr<BasicBlock<D>>, Ptr<Region>>(ctx, tables, block, region) {
        Some((block, region)) => {
            block.insert_at_front(region, ctx);
            Answer::Done
        }
        None => Answer::Refused(Refused::Condition),
    }
}

/// Puts the block at the back of the region.
pub fn block_back<D: Dialects>(
    ctx: &mut Context<D>,
    tables: &Tables<D>,
    block: usize,
    region: usize,
) -> Answer
    ensures { Step (behaviour_of D.Dialects D.TypeKey.eq) (session_in ctx.old tables.now) (PlainBlockBack block region) result (session_in ctx.new tables.now) }
{
    recall_needs_nothing(ctx);
    match find_into::<D, Ptr<BasicBlock<D>>, Ptr<Region>>(ctx, tables, block, region) {
        Some((block, region)) => {
            block.insert_at_back(region, ctx);
            Answer::Done
        }
        None => Answer::Refused(Refused::Condition),
    }
}

/// Puts the block right before the mark.
pub fn block_before<D: Dialects>(
    ctx: &mut Context<D>,
    tables: &Tables<D>,
    block: usize,
    mark: usize,
) -> Answer
    ensures { Step (behaviour_of D.Dialects D.TypeKey.eq) (session_in ctx.old tables.now) (PlainBlockBefore block mark) result (session_in ctx.new tables.now) }
{
    recall_needs_nothing(ctx);
    match find_beside::<D, Ptr<BasicBlock<D>>>(ctx, tables, block, mark) {
        Some((block, mark)) => {
            block.insert_before(ctx, mark);
            Answer::Done
        }
        None => Answer::Refused(Refused::Condition),
    }
}

/// Puts the block right after the mark.
pub fn block_after<D: Dialects>(
    ctx: &mut Context<D>,
    tables: &Tables<D>,
    block: usize,
    mark: usize,
) -> Answer
    ensures { Step (behaviour_of D.Dialects D.TypeKey.eq) (session_in ctx.old tables.now) (PlainBlockAfter block mark) result (session_in ctx.new tables.now) }
{
    recall_needs_nothing(ctx);
    match find_beside::<D, Ptr<BasicBlock<D>>>(ctx, tables, block, mark) {
        Some((block, mark)) => {
            block.insert_after(ctx, mark);
            Answer::Done
        }
        None => Answer::Refused(Refused::Condition),
    }
}

/// Takes the block out of its region.
pub fn unlink_block<D: Dialects>(ctx: &mut Context<D>, tables: &Tables<D>, block: usize) -> Answer
    ensures { Step (behaviour_of D.Dialects D.TypeKey.eq) (session_in ctx.old tables.now) (PlainUnlinkBlock block) result (session_in ctx.new tables.now) }
{
    recall_needs_nothing(ctx);
    match find_linked::<D, Ptr<BasicBlock<D>>>(ctx, tables, block) {
        Some(block) => {
            block.unlink(ctx);
            Answer::Done
        }
        None => Answer::Refused(Refused::Condition),
    }
}

/// Moves the operations of the donor behind those of the donee.
pub fn append_ops<D: Dialects>(
    ctx: &mut Context<D>,
    tables: &Tables<D>,
    donee: usize,
    donor: usize,
) -> Answer
    ensures { Step (behaviour_of D.Dialects D.TypeKey.eq) (session_in ctx.old tables.now) (PlainAppendOps donee donor) result (session_in ctx.new tables.now) }
{
    recall_needs_nothing(ctx);
    match find_joined::<D, Ptr<BasicBlock<D>>>(ctx, tables, donee, donor) {
        Some((donee, donor)) => {
            donee.append_linked_list(ctx, donor);
            Answer::Done
        }
        None => Answer::Refused(Refused::Condition),
    }
}

/// Moves the blocks of the donor behind those of the donee.
pub fn append_blocks<D: Dialects>(
    ctx: &mut Context<D>,
    tables: &Tables<D>,
    donee: usize,
    donor: usize,
) -> Answer
    ensures { Step (behaviour_of D.Dialects D.TypeKey.eq) (session_in ctx.old tables.now) (PlainAppendBlocks donee donor) result (session_in ctx.new tables.now) }
{
    recall_needs_nothing(ctx);
    match find_joined::<D, Ptr<Region>>(ctx, tables, donee, donor) {
        Some((donee, donor)) => {
            donee.append_linked_list(ctx, donor);
            Answer::Done
        }
        None => Answer::Refused(Refused::Condition),
    }
}

/// Moves the region to the back of the operation's regions. One that is there already stays where it is.
pub fn move_region<D: Dialects>(
    ctx: &mut Context<D>,
    tables: &Tables<D>,
    region: usize,
    op: usize,
) -> Answer
    ensures { Step (behaviour_of D.Dialects D.TypeKey.eq) (session_in ctx.old tables.now) (PlainMoveRegion region op) result (session_in ctx.new tables.now) }
{
    recall_needs_nothing(ctx);
    match find_outside(ctx, tables, region, op) {
        Some((region, op)) => match region.move_to_op(op, ctx) {
            Ok(()) => Answer::Done,
            Err(_) => Answer::Refused(Refused::Memory),
        },
        None => Answer::Refused(Refused::Condition),
    }
}
