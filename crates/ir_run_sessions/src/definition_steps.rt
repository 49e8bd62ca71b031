//! The edits of results and arguments: each tests its condition, and then is one call of the context.
//!
//! What is put in needs one value number, may be refused for memory, and is entered behind the values. What is taken out needs nothing, and stays in the table.

ghost use Rattle.std.specs.Prelude.{◌≡◌, ◌+◌, ◌<◌, ◌≤◌, ℕ, Some, length, slice_get, vec_capacity, vec_len};
ghost use Rattle.ir_model.specs.Edits.{InsertArgument as PlainInsertArgument, InsertResult as PlainInsertResult, PushArgument as PlainPushArgument, PushResult as PlainPushResult, RemoveArgument as PlainRemoveArgument, RemoveResult as PlainRemoveResult, The, one_number};
ghost use Rattle.ir_model.specs.Forest.{a_block, an_op, of_block, of_op};
ghost use Rattle.ir_model.specs.Nesting.{IsLive, definitions_of, numbers_of};
ghost use Rattle.ir_model.specs.Sessions.{Step};
ghost use Rattle.ir_model.specs.Soundness.{Sound};
ghost use Rattle.ir_core_queries.specs.Calls.{counts_of};
ghost use Rattle.ir_core_queries.specs.State.{forest_of, types_of};
ghost use Rattle.ir_run_sessions.specs.SessionTables.{answer_of, entries_of, with_value, session_in, ForOpAndType, ForBlockAndType};
ghost use Rattle.ir_core_records.specs.DialectAnswers.{behaviour_of};

use crate::definition_conditions::{find_unused_argument, find_unused_result, find_with_type};
use crate::session_tables::Tables;
use crate::steps::{answer, make_room, recall_needs_nothing};
use ir_base_dialects::{Answer, CoreError, Dialects, Ptr, Refused, TypeHandle};
use ir_core_queries::{
    ArgumentEdits, BasicBlock, BlockPtr, Context, Needs, Operation, OperationPtr, ResultEdits,
};

/// Gives the operation another result, the last, of the type, and enters it.
pub fn push_result<D: Dialects>(
    ctx: &mut Context<D>,
    tables: &mut Tables<D>,
    op: usize,
    ty: usize,
) -> Answer
    requires { Sound (session_in ctx.old tables.old) }
    ensures { Step (behaviour_of D.Dialects D.TypeKey.eq) (session_in ctx.old tables.old) (PlainPushResult op ty) result (session_in ctx.new tables.new) }
{
    match find_with_type::<D, Ptr<Operation<D>>>(ctx, tables, op, ty) {
        Some((op, ty)) => answer(make_last_result(ctx, tables, op, ty)),
        None => Answer::Refused(Refused::Condition),
    }
}

/// Gives the operation another result of the type, at a place up to their number, and enters it.
pub fn insert_result<D: Dialects>(
    ctx: &mut Context<D>,
    tables: &mut Tables<D>,
    op: usize,
    at: usize,
    ty: usize,
) -> Answer
    requires { Sound (session_in ctx.old tables.old) }
    ensures { Step (behaviour_of D.Dialects D.TypeKey.eq) (session_in ctx.old tables.old) (PlainInsertResult op at ty) result (session_in ctx.new tables.new) }
{
    match find_with_type::<D, Ptr<Operation<D>>>(ctx, tables, op, ty) {
        Some((op, ty)) if at <= op.deref(ctx).get_num_results() => {
            answer(make_result(ctx, tables, op, at, ty))
        }
        _ => Answer::Refused(Refused::Condition),
    }
}

/// Takes the result at the place out, which no operation names.
pub fn remove_result<D: Dialects>(
    ctx: &mut Context<D>,
    tables: &Tables<D>,
    op: usize,
    at: usize,
) -> Answer
    ensures { Step (behaviour_of D.Dialects D.TypeKey.eq) (session_in ctx.old tables.now) (PlainRemoveResult op at) result (session_in ctx.new tables.now) }
{
    recall_needs_nothing(ctx);
    match find_unused_result(ctx, tables, op, at) {
        Some(op) => {
            op.remove_result(ctx, at);
            Answer::Done
        }
        None => Answer::Refused(Refused::Condition),
    }
}

/// Gives the block another argument, the last, of the type, and enters it.
pub fn push_argument<D: Dialects>(
    ctx: &mut Context<D>,
    tables: &mut Tables<D>,
    block: usize,
    ty: usize,
) -> Answer
    requires { Sound (session_in ctx.old tables.old) }
    ensures { Step (behaviour_of D.Dialects D.TypeKey.eq) (session_in ctx.old tables.old) (PlainPushArgument block ty) result (session_in ctx.new tables.new) }
{
    match find_with_type::<D, Ptr<BasicBlock<D>>>(ctx, tables, block, ty) {
        Some((block, ty)) => answer(make_last_argument(ctx, tables, block, ty)),
        None => Answer::Refused(Refused::Condition),
    }
}

/// Gives the block another argument of the type, at a place up to their number, and enters it.
pub fn insert_argument<D: Dialects>(
    ctx: &mut Context<D>,
    tables: &mut Tables<D>,
    block: usize,
    at: usize,
    ty: usize,
) -> Answer
    requires { Sound (session_in ctx.old tables.old) }
    ensures { Step (behaviour_of D.Dialects D.TypeKey.eq) (session_in ctx.old tables.old) (PlainInsertArgument block at ty) result (session_in ctx.new tables.new) }
{
    match find_with_type::<D, Ptr<BasicBlock<D>>>(ctx, tables, block, ty) {
        Some((block, ty)) if at <= block.deref(ctx).get_num_arguments() => {
            answer(make_argument(ctx, tables, block, at, ty))
        }
        _ => Answer::Refused(Refused::Condition),
    }
}

/// Takes the argument at the place out, which no operation names.
pub fn remove_argument<D: Dialects>(
    ctx: &mut Context<D>,
    tables: &Tables<D>,
    block: usize,
    at: usize,
) -> Answer
    ensures { Step (behaviour_of D.Dialects D.TypeKey.eq) (session_in ctx.old tables.now) (PlainRemoveArgument block at) result (session_in ctx.new tables.now) }
{
    recall_needs_nothing(ctx);
    match find_unused_argument(ctx, tables, block, at) {
        Some(block) => {
            block.remove_argument(ctx, at);
            Answer::Done
        }
        None => Answer::Refused(Refused::Condition),
    }
}

// What a result or an argument needs.
fn one_value() -> Needs
    ensures { counts_of result ≡ one_number }
{
    Needs {
        values: 1,
        ..Needs::none()
    }
}

// Makes the last result of the operation, and answers its number in the table.
fn make_last_result<D: Dialects>(
    ctx: &mut Context<D>,
    tables: &mut Tables<D>,
    op: Ptr<Operation<D>>,
    ty: TypeHandle,
) -> Result<usize, CoreError>
    requires sound { Sound (session_in ctx.old tables.old) }
    requires live { IsLive (forest_of ctx.old) (an_op op.index) }
    requires known { ty.place < length (types_of ctx.old) }
    ensures { ForOpAndType tables.old op.index ty.place (λ n m. Step (behaviour_of D.Dialects D.TypeKey.eq) (session_in ctx.old tables.old) (PlainPushResult n m) (answer_of result) (session_in ctx.new tables.new)) }
{
    make_room(ctx, tables, one_value())?;
    let at = op.push_result(ctx, ty)?;
    Ok(enter_result(ctx, tables, op, at))
}

// Makes a result of the operation at this place, and answers its number in the table.
fn make_result<D: Dialects>(
    ctx: &mut Context<D>,
    tables: &mut Tables<D>,
    op: Ptr<Operation<D>>,
    at: usize,
    ty: TypeHandle,
) -> Result<usize, CoreError>
    requires sound { Sound (session_in ctx.old tables.old) }
    requires live { IsLive (forest_of ctx.old) (an_op op.index) }
    requires in_range { at ≤ length (definitions_of (forest_of ctx.old) (of_op op.index)) }
    requires known { ty.place < length (types_of ctx.old) }
    ensures { ForOpAndType tables.old op.index ty.place (λ n m. Step (behaviour_of D.Dialects D.TypeKey.eq) (session_in ctx.old tables.old) (PlainInsertResult n at m) (answer_of result) (session_in ctx.new tables.new)) }
{
    make_room(ctx, tables, one_value())?;
    op.insert_result(ctx, at, ty)?;
    Ok(enter_result(ctx, tables, op, at))
}

// Makes the last argument of the block, and answers its number in the table.
fn make_last_argument<D: Dialects>(
    ctx: &mut Context<D>,
    tables: &mut Tables<D>,
    block: Ptr<BasicBlock<D>>,
    ty: TypeHandle,
) -> Result<usize, CoreError>
    requires sound { Sound (session_in ctx.old tables.old) }
    requires live { IsLive (forest_of ctx.old) (a_block block.index) }
    requires known { ty.place < length (types_of ctx.old) }
    ensures { ForBlockAndType tables.old block.index ty.place (λ n m. Step (behaviour_of D.Dialects D.TypeKey.eq) (session_in ctx.old tables.old) (PlainPushArgument n m) (answer_of result) (session_in ctx.new tables.new)) }
{
    make_room(ctx, tables, one_value())?;
    let at = block.push_argument(ctx, ty)?;
    Ok(enter_argument(ctx, tables, block, at))
}

// Makes an argument of the block at this place, and answers its number in the table.
fn make_argument<D: Dialects>(
    ctx: &mut Context<D>,
    tables: &mut Tables<D>,
    block: Ptr<BasicBlock<D>>,
    at: usize,
    ty: TypeHandle,
) -> Result<usize, CoreError>
    requires sound { Sound (session_in ctx.old tables.old) }
    requires live { IsLive (forest_of ctx.old) (a_block block.index) }
    requires in_range { at ≤ length (definitions_of (forest_of ctx.old) (of_block block.index)) }
    requires known { ty.place < length (types_of ctx.old) }
    ensures { ForBlockAndType tables.old block.index ty.place (λ n m. Step (behaviour_of D.Dialects D.TypeKey.eq) (session_in ctx.old tables.old) (PlainInsertArgument n at m) (answer_of result) (session_in ctx.new tables.new)) }
{
    make_room(ctx, tables, one_value())?;
    block.insert_argument(ctx, at, ty)?;
    Ok(enter_argument(ctx, tables, block, at))
}

// Enters the operation's result at this place, and answers its number in the table.
fn enter_result<D: Dialects>(
    ctx: &Context<D>,
    tables: &mut Tables<D>,
    op: Ptr<Operation<D>>,
    at: usize,
) -> usize
    requires live { IsLive (forest_of ctx.now) (an_op op.index) }
    requires there { at < length (definitions_of (forest_of ctx.now) (of_op op.index)) }
    requires place { vec_len tables.old.values + 1 ≤ vec_capacity tables.old.values }
    ensures number { result ≡ length (entries_of tables.old).values }
    ensures entered { The (slice_get (numbers_of (forest_of ctx.now) (of_op op.index)) at) (λ n. entries_of tables.new ≡ with_value (entries_of tables.old) (record { definer = of_op op.index; number = n })) }
{
    let number = tables.values.len();
    tables.enter_value(op.deref(ctx).get_result(at));
    number
}

// Enters the block's argument at this place, and answers its number in the table.
fn enter_argument<D: Dialects>(
    ctx: &Context<D>,
    tables: &mut Tables<D>,
    block: Ptr<BasicBlock<D>>,
    at: usize,
) -> usize
    requires live { IsLive (forest_of ctx.now) (a_block block.index) }
    requires there { at < length (definitions_of (forest_of ctx.now) (of_block block.index)) }
    requires place { vec_len tables.old.values + 1 ≤ vec_capacity tables.old.values }
    ensures number { result ≡ length (entries_of tables.old).values }
    ensures entered { The (slice_get (numbers_of (forest_of ctx.now) (of_block block.index)) at) (λ n. entries_of tables.new ≡ with_value (entries_of tables.old) (record { definer = of_block block.index; number = n })) }
{
    let number = tables.values.len();
    tables.enter_value(block.deref(ctx).get_argument(at));
    number
}
