//! The edits of operands and successors: each tests its condition, and then is one call of the context.
//!
//! What is put in needs one use number, and may be refused for memory. What is taken out needs nothing.

ghost use Rattle.ir_model.specs.Edits.{InsertOperand as PlainInsertOperand, InsertSuccessor as PlainInsertSuccessor, PushOperand as PlainPushOperand, PushSuccessor as PlainPushSuccessor, RemoveOperand as PlainRemoveOperand, RemoveSuccessor as PlainRemoveSuccessor, ReplaceOperand as PlainReplaceOperand, ReplaceSuccessor as PlainReplaceSuccessor};
ghost use Rattle.ir_model.specs.Sessions.{Step};
ghost use Rattle.ir_run_sessions.specs.SessionTables.{session_in};
ghost use Rattle.ir_core_records.specs.DialectAnswers.{behaviour_of};

use crate::entities::find;
use crate::session_tables::Tables;
use crate::steps::{done, recall_needs_nothing};
use crate::use_conditions::{find_both, find_op_and_value};
use ir_base_dialects::{Answer, Dialects, Ptr, Refused};
use ir_core_queries::{BasicBlock, Context, OperandEdits, Operation, OperationPtr, SuccessorEdits};

/// Gives the operation another operand, the last, which names the value.
pub fn push_operand<D: Dialects>(
    ctx: &mut Context<D>,
    tables: &Tables<D>,
    op: usize,
    value: usize,
) -> Answer
    ensures { Step (behaviour_of D.Dialects D.TypeKey.eq) (session_in ctx.old tables.now) (PlainPushOperand op value) result (session_in ctx.new tables.now) }
{
    recall_needs_nothing(ctx);
    match find_op_and_value(ctx, tables, op, value) {
        Some((op, value)) => done(op.push_operand(ctx, value)),
        None => Answer::Refused(Refused::Condition),
    }
}

/// Gives the operation another operand at a place up to their number, which names the value.
pub fn insert_operand<D: Dialects>(
    ctx: &mut Context<D>,
    tables: &Tables<D>,
    op: usize,
    at: usize,
    value: usize,
) -> Answer
    ensures { Step (behaviour_of D.Dialects D.TypeKey.eq) (session_in ctx.old tables.now) (PlainInsertOperand op at value) result (session_in ctx.new tables.now) }
{
    recall_needs_nothing(ctx);
    match find_op_and_value(ctx, tables, op, value) {
        Some((op, value)) if at <= op.deref(ctx).get_num_operands() => {
            done(op.insert_operand(ctx, at, value))
        }
        _ => Answer::Refused(Refused::Condition),
    }
}

/// Takes the operand at the place out.
pub fn remove_operand<D: Dialects>(
    ctx: &mut Context<D>,
    tables: &Tables<D>,
    op: usize,
    at: usize,
) -> Answer
    ensures { Step (behaviour_of D.Dialects D.TypeKey.eq) (session_in ctx.old tables.now) (PlainRemoveOperand op at) result (session_in ctx.new tables.now) }
{
    recall_needs_nothing(ctx);
    match find::<D, Ptr<Operation<D>>>(ctx, tables, op) {
        Some(op) if at < op.deref(ctx).get_num_operands() => {
            op.remove_operand(ctx, at);
            Answer::Done
        }
        _ => Answer::Refused(Refused::Condition),
    }
}

/// Puts an operand that names the value in the place of another one.
pub fn replace_operand<D: Dialects>(
    ctx: &mut Context<D>,
    tables: &Tables<D>,
    op: usize,
    at: usize,
    value: usize,
) -> Answer
    ensures { Step (behaviour_of D.Dialects D.TypeKey.eq) (session_in ctx.old tables.now) (PlainReplaceOperand op at value) result (session_in ctx.new tables.now) }
{
    recall_needs_nothing(ctx);
    match find_op_and_value(ctx, tables, op, value) {
        Some((op, value)) if at < op.deref(ctx).get_num_operands() => {
            done(op.replace_operand(ctx, at, value))
        }
        _ => Answer::Refused(Refused::Condition),
    }
}

/// Gives the operation another successor, the last, which names the block.
pub fn push_successor<D: Dialects>(
    ctx: &mut Context<D>,
    tables: &Tables<D>,
    op: usize,
    block: usize,
) -> Answer
    ensures { Step (behaviour_of D.Dialects D.TypeKey.eq) (session_in ctx.old tables.now) (PlainPushSuccessor op block) result (session_in ctx.new tables.now) }
{
    recall_needs_nothing(ctx);
    match find_both::<D, Ptr<Operation<D>>, Ptr<BasicBlock<D>>>(ctx, tables, op, block) {
        Some((op, block)) => done(op.push_successor(ctx, block)),
        None => Answer::Refused(Refused::Condition),
    }
}

/// Gives the operation another successor at a place up to their number, which names the block.
pub fn insert_successor<D: Dialects>(
    ctx: &mut Context<D>,
    tables: &Tables<D>,
    op: usize,
    at: usize,
    block: usize,
) -> Answer
    ensures { Step (behaviour_of D.Dialects D.TypeKey.eq) (session_in ctx.old tables.now) (PlainInsertSuccessor op at block) result (session_in ctx.new tables.now) }
{
    recall_needs_nothing(ctx);
    match find_both::<D, Ptr<Operation<D>>, Ptr<BasicBlock<D>>>(ctx, tables, op, block) {
        Some((op, block)) if at <= op.deref(ctx).get_num_successors() => {
            done(op.insert_successor(ctx, at, block))
        }
        _ => Answer::Refused(Refused::Condition),
    }
}

/// Takes the successor at the place out.
pub fn remove_successor<D: Dialects>(
    ctx: &mut Context<D>,
    tables: &Tables<D>,
    op: usize,
    at: usize,
) -> Answer
    ensures { Step (behaviour_of D.Dialects D.TypeKey.eq) (session_in ctx.old tables.now) (PlainRemoveSuccessor op at) result (session_in ctx.new tables.now) }
{
    recall_needs_nothing(ctx);
    match find::<D, Ptr<Operation<D>>>(ctx, tables, op) {
        Some(op) if at < op.deref(ctx).get_num_successors() => {
            op.remove_successor(ctx, at);
            Answer::Done
        }
        _ => Answer::Refused(Refused::Condition),
    }
}

/// Puts a successor that names the block in the place of another one.
pub fn replace_successor<D: Dialects>(
    ctx: &mut Context<D>,
    tables: &Tables<D>,
    op: usize,
    at: usize,
    block: usize,
) -> Answer
    ensures { Step (behaviour_of D.Dialects D.TypeKey.eq) (session_in ctx.old tables.now) (PlainReplaceSuccessor op at block) result (session_in ctx.new tables.now) }
{
    recall_needs_nothing(ctx);
    match find_both::<D, Ptr<Operation<D>>, Ptr<BasicBlock<D>>>(ctx, tables, op, block) {
        Some((op, block)) if at < op.deref(ctx).get_num_successors() => {
            done(op.replace_successor(ctx, at, block))
        }
        _ => Answer::Refused(Refused::Condition),
    }
}
