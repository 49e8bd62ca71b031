//! The edits that drop uses and erase: each tests its condition, and then is one call of the context.
//!
//! None of them needs numbers or slots, and none takes memory.

ghost use Rattle.ir_model.specs.Edits.{DropBlockUses as PlainDropBlockUses, DropOpUses as PlainDropOpUses, DropRegionUses as PlainDropRegionUses, EraseBlock as PlainEraseBlock, EraseOp as PlainEraseOp, EraseRegion as PlainEraseRegion};
ghost use Rattle.ir_model.specs.Sessions.{Step};
ghost use Rattle.ir_run_sessions.specs.SessionTables.{session_in};
ghost use Rattle.ir_core_records.specs.DialectAnswers.{behaviour_of};

use crate::entities::find;
use crate::erase_conditions::{find_closed, find_closed_region};
use crate::session_tables::Tables;
use crate::steps::recall_needs_nothing;
use ir_base_dialects::{Answer, Dialects, Ptr, Refused};
use ir_core_queries::{BasicBlock, Context, DropUses, Erase, EraseRegion, Operation, Region};

/// Takes the operands and successors of all operations inside the operation out, also its own.
pub fn drop_op_uses<D: Dialects>(ctx: &mut Context<D>, tables: &Tables<D>, op: usize) -> Answer
    ensures { Step (behaviour_of D.Dialects D.TypeKey.eq) (session_in ctx.old tables.now) (PlainDropOpUses op) result (session_in ctx.new tables.now) }
{
    recall_needs_nothing(ctx);
    match find::<D, Ptr<Operation<D>>>(ctx, tables, op) {
        Some(op) => {
            op.drop_all_uses(ctx);
            Answer::Done
        }
        None => Answer::Refused(Refused::Condition),
    }
}

/// Takes the operands and successors of all operations inside the block out.
pub fn drop_block_uses<D: Dialects>(
    ctx: &mut Context<D>,
    tables: &Tables<D>,
    block: usize,
) -> Answer
    ensures { Step (behaviour_of D.Dialects D.TypeKey.eq) (session_in ctx.old tables.now) (PlainDropBlockUses block) result (session_in ctx.new tables.now) }
{
    recall_needs_nothing(ctx);
    match find::<D, Ptr<BasicBlock<D>>>(ctx, tables, block) {
        Some(block) => {
            block.drop_all_uses(ctx);
            Answer::Done
        }
        None => Answer::Refused(Refused::Condition),
    }
}

/// Takes the operands and successors of all operations inside the region out.
pub fn drop_region_uses<D: Dialects>(
    ctx: &mut Context<D>,
    tables: &Tables<D>,
    region: usize,
) -> Answer
    ensures { Step (behaviour_of D.Dialects D.TypeKey.eq) (session_in ctx.old tables.now) (PlainDropRegionUses region) result (session_in ctx.new tables.now) }
{
    recall_needs_nothing(ctx);
    match find::<D, Ptr<Region>>(ctx, tables, region) {
        Some(region) => {
            region.drop_all_uses(ctx);
            Answer::Done
        }
        None => Answer::Refused(Refused::Condition),
    }
}

/// Erases the operation with all that stands inside it.
pub fn erase_op<D: Dialects>(ctx: &mut Context<D>, tables: &Tables<D>, op: usize) -> Answer
    ensures { Step (behaviour_of D.Dialects D.TypeKey.eq) (session_in ctx.old tables.now) (PlainEraseOp op) result (session_in ctx.new tables.now) }
{
    recall_needs_nothing(ctx);
    match find_closed::<D, Ptr<Operation<D>>>(ctx, tables, op) {
        Some(op) => {
            op.erase(ctx);
            Answer::Done
        }
        None => Answer::Refused(Refused::Condition),
    }
}

/// Erases the block with all that stands inside it.
pub fn erase_block<D: Dialects>(ctx: &mut Context<D>, tables: &Tables<D>, block: usize) -> Answer
    ensures { Step (behaviour_of D.Dialects D.TypeKey.eq) (session_in ctx.old tables.now) (PlainEraseBlock block) result (session_in ctx.new tables.now) }
{
    recall_needs_nothing(ctx);
    match find_closed::<D, Ptr<BasicBlock<D>>>(ctx, tables, block) {
        Some(block) => {
            block.erase(ctx);
            Answer::Done
        }
        None => Answer::Refused(Refused::Condition),
    }
}

/// Erases the region at the place of the operation with all that stands inside it.
pub fn erase_region<D: Dialects>(
    ctx: &mut Context<D>,
    tables: &Tables<D>,
    op: usize,
    at: usize,
) -> Answer
    ensures { Step (behaviour_of D.Dialects D.TypeKey.eq) (session_in ctx.old tables.now) (PlainEraseRegion op at) result (session_in ctx.new tables.now) }
{
    recall_needs_nothing(ctx);
    match find_closed_region(ctx, tables, op, at) {
        Some(op) => {
            op.erase_region(ctx, at);
            Answer::Done
        }
        None => Answer::Refused(Refused::Condition),
    }
}
