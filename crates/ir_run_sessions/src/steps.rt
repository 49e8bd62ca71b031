//! How each edit is carried out: made whole or refused, and never half.
//!
//! Its condition is tested first. Then it is asked whether the context has numbers and slots enough, and only then is memory taken, for the tables and for what the edit names.

ghost use Rattle.std.specs.Prelude.{◌≡◌, ◌<◌, ◌↔◌, ℕ, length, Err, IfOk, IsTrue, OnOk, Some, slice_get};
ghost use Rattle.ir_model.specs.Edits.{AddRegion as PlainAddRegion, Condition, Each, NewBlock as PlainNewBlock, NewType as PlainNewType, no_needs, these};
ghost use Rattle.ir_model.specs.Forest.{an_op};
ghost use Rattle.ir_model.specs.Nesting.{IsLive};
ghost use Rattle.ir_model.specs.Sessions.{HasNumbers, HasSlots, LacksNumbers, Step};
ghost use Rattle.ir_model.specs.Soundness.{Sound};
ghost use Rattle.ir_core_queries.specs.Calls.{HasAll, counts_of, LacksOnlySlots};
ghost use Rattle.ir_core_queries.specs.State.{bare, forest_of};
ghost use Rattle.ir_run_sessions.specs.SessionTables.{HasPlace, answer_of, done_of, entries_of, session_in};
ghost use Rattle.ir_core_records.specs.DialectAnswers.{behaviour_of};
ghost use Rattle.ir_run_sessions.specs.NewOps.{edit_of_parts};

use crate::lookups::{all_below, all_live, live_entry, picked};
use crate::session_tables::Tables;
use ir_base_dialects::{Answer, CoreError, Dialects, Identifier, Ptr, Refused, TypeHandle};
use ir_core_queries::{
    AddRegion, BasicBlock, BlockPtr, Context, Needs, NewBlock, NewOperation, Operation,
    OperationPtr, Value,
};
use std::alloc::{AllocError, Global};

/// What an operation is made of, by numbers in the tables.
#[derive(Drop)]
pub struct OpParts<'a> {
    /// Its kind.
    pub kind: u32,
    /// The types of its results.
    pub types: &'a [usize],
    /// The values that its operands name.
    pub operands: &'a [usize],
    /// The blocks that its successors name.
    pub successors: &'a [usize],
    /// How many regions it has.
    pub regions: usize,
}

// What an operation is made of, as its parts name it.
#[derive(Drop)]
struct Found<D: Dialects> {
    types: Vec<TypeHandle>,
    operands: Vec<Value<D>>,
    successors: Vec<Ptr<BasicBlock<D>>>,
}

/// Stores the type with this key, or finds it, and enters it.
pub fn new_type<D: Dialects>(
    ctx: &mut Context<D>,
    tables: &mut Tables<D>,
    key: D::TypeKey,
) -> Answer
    ensures { Step (behaviour_of D.Dialects D.TypeKey.eq) (session_in ctx.old tables.old) (PlainNewType key) result (session_in ctx.new tables.new) }
{
    recall_needs_nothing(ctx);
    answer(store_type(ctx, tables, key))
}

/// Makes an operation of these parts, and enters it, its regions and its results.
pub fn new_op<D: Dialects>(
    ctx: &mut Context<D>,
    tables: &mut Tables<D>,
    parts: &OpParts<'_>,
) -> Answer
    requires { Sound (session_in ctx.old tables.old) }
    ensures { Step (behaviour_of D.Dialects D.TypeKey.eq) (session_in ctx.old tables.old) (edit_of_parts parts.now) result (session_in ctx.new tables.new) }
{
    if may_be_made(ctx, tables, parts) {
        answer(make_op(ctx, tables, parts))
    } else {
        Answer::Refused(Refused::Condition)
    }
}

/// Makes a block with this label and arguments of these types, and enters it and its arguments.
pub fn new_block<D: Dialects>(
    ctx: &mut Context<D>,
    tables: &mut Tables<D>,
    label: Option<Identifier>,
    types: &[usize],
) -> Answer
    requires { Sound (session_in ctx.old tables.old) }
    ensures { Step (behaviour_of D.Dialects D.TypeKey.eq) (session_in ctx.old tables.old) (PlainNewBlock label types.now) result (session_in ctx.new tables.new) }
{
    if all_below(types, tables.types.len()) {
        answer(make_block(ctx, tables, label, types))
    } else {
        Answer::Refused(Refused::Condition)
    }
}

/// Gives the operation with this number another region, and enters that.
pub fn add_region<D: Dialects>(
    ctx: &mut Context<D>,
    tables: &mut Tables<D>,
    number: usize,
) -> Answer
    requires { Sound (session_in ctx.old tables.old) }
    ensures { Step (behaviour_of D.Dialects D.TypeKey.eq) (session_in ctx.old tables.old) (PlainAddRegion number) result (session_in ctx.new tables.new) }
{
    match live_entry(ctx, &tables.ops, number) {
        Some(op) => answer(make_region(ctx, tables, op)),
        None => Answer::Refused(Refused::Condition),
    }
}

/// How an edit is answered that made an entry with this number, or was refused.
pub(crate) fn answer(made: Result<usize, CoreError>) -> Answer
    ensures { result ≡ answer_of made }
{
    match made {
        Ok(number) => Answer::Made(number),
        Err(CoreError::OutOfMemory) => Answer::Refused(Refused::Memory),
        Err(CoreError::CounterSpent) => Answer::Refused(Refused::Counter),
        Err(CoreError::SlotsSpent) => Answer::Refused(Refused::Slots),
    }
}

/// How an edit is answered that was done, or was refused.
pub(crate) fn done<T: Drop>(made: Result<T, CoreError>) -> Answer
    ensures { result ≡ done_of made }
{
    match made {
        Ok(_) => Answer::Done,
        Err(error) => answer(Err(error)),
    }
}

// Whether the types are known, and the values and blocks live.
fn may_be_made<D: Dialects>(ctx: &Context<D>, tables: &Tables<D>, parts: &OpParts<'_>) -> bool
    ensures { IsTrue result ↔ Condition (session_in ctx.now tables.now).state (edit_of_parts parts.now) }
{
    all_below(parts.types, tables.types.len())
        && all_live(ctx, &tables.values, parts.operands)
        && all_live(ctx, &tables.blocks, parts.successors)
}

/// What holds of every context: there is room for nothing.
pub(crate) fn recall_needs_nothing<D: Dialects>(ctx: &Context<D>)
    ensures numbers { HasNumbers (bare ctx.now) no_needs }
    ensures slots { HasSlots (bare ctx.now) no_needs }
{
    let _room = ctx.room();
}

/// Asks whether the context has numbers and slots enough, and makes place in the tables.
///
/// # Errors
/// As `Context::covers`, and then `OutOfMemory`.
pub(crate) fn make_room<D: Dialects>(
    ctx: &Context<D>,
    tables: &mut Tables<D>,
    needs: Needs,
) -> Result<(), CoreError>
    ensures same { entries_of tables.new ≡ entries_of tables.old }
    ensures place { OnOk result (HasPlace tables.new (counts_of needs)) }
    ensures enough { OnOk result (HasAll ctx.now (counts_of needs)) }
    ensures counter { (result ≡ Err CoreError.CounterSpent) ↔ LacksNumbers (bare ctx.now) (counts_of needs) }
    ensures slots { (result ≡ Err CoreError.SlotsSpent) ↔ LacksOnlySlots (bare ctx.now) (counts_of needs) }
{
    ctx.covers(needs)?;
    tables.reserve(needs)?;
    Ok(())
}

// Stores the type with this key, or finds it, and answers its number in the table.
fn store_type<D: Dialects>(
    ctx: &mut Context<D>,
    tables: &mut Tables<D>,
    key: D::TypeKey,
) -> Result<usize, CoreError>
    requires numbers { HasNumbers (bare ctx.old) no_needs }
    requires slots { HasSlots (bare ctx.old) no_needs }
    ensures { Step (behaviour_of D.Dialects D.TypeKey.eq) (session_in ctx.old tables.old) (PlainNewType key) (answer_of result) (session_in ctx.new tables.new) }
{
    tables.reserve_type()?;
    let ty = ctx.instantiate_key(key)?;
    let number = tables.types.len();
    tables.enter_type(ty);
    Ok(number)
}

// What the parts name.
//
// # Errors
// Where there is no memory for the lists.
fn find_parts<D: Dialects>(
    alloc: Global,
    tables: &Tables<D>,
    parts: &OpParts<'_>,
) -> Result<Found<D>, AllocError>
    requires types { Each (λ n. n < length tables.now.types.items) parts.now.types.now }
    requires operands { Each (λ n. n < length tables.now.values.items) parts.now.operands.now }
    requires successors { Each (λ n. n < length tables.now.blocks.items) parts.now.successors.now }
    ensures types { IfOk result (λ found. found.types.items ≡ these tables.now.types.items parts.now.types.now) }
    ensures operands { IfOk result (λ found. found.operands.items ≡ these tables.now.values.items parts.now.operands.now) }
    ensures successors { IfOk result (λ found. found.successors.items ≡ these tables.now.blocks.items parts.now.successors.now) }
{
    Ok(Found {
        types: picked(alloc, &tables.types, parts.types)?,
        operands: picked(alloc, &tables.values, parts.operands)?,
        successors: picked(alloc, &tables.blocks, parts.successors)?,
    })
}

// Makes the operation, and answers its number in the table.
fn make_op<D: Dialects>(
    ctx: &mut Context<D>,
    tables: &mut Tables<D>,
    parts: &OpParts<'_>,
) -> Result<usize, CoreError>
    requires sound { Sound (session_in ctx.old tables.old) }
    requires condition { Condition (session_in ctx.old tables.old).state (edit_of_parts parts.now) }
    ensures { Step (behaviour_of D.Dialects D.TypeKey.eq) (session_in ctx.old tables.old) (edit_of_parts parts.now) (answer_of result) (session_in ctx.new tables.new) }
{
    let needs = Needs {
        ops: 1,
        regions: parts.regions,
        values: parts.types.len(),
        operands: parts.operands.len(),
        successors: parts.successors.len(),
        ..Needs::none()
    };
    make_room(ctx, tables, needs)?;
    let found = find_parts(ctx.alloc(), tables, parts)?;
    let op = Operation::new(
        ctx,
        parts.kind,
        &found.types,
        &found.operands,
        &found.successors,
        parts.regions,
    )?;
    let number = tables.ops.len();
    tables.enter_op(op.deref(ctx));
    Ok(number)
}

// Makes the block, and answers its number in the table.
fn make_block<D: Dialects>(
    ctx: &mut Context<D>,
    tables: &mut Tables<D>,
    label: Option<Identifier>,
    types: &[usize],
) -> Result<usize, CoreError>
    requires sound { Sound (session_in ctx.old tables.old) }
    requires condition { Condition (session_in ctx.old tables.old).state (PlainNewBlock label types.now) }
    ensures { Step (behaviour_of D.Dialects D.TypeKey.eq) (session_in ctx.old tables.old) (PlainNewBlock label types.now) (answer_of result) (session_in ctx.new tables.new) }
{
    let needs = Needs {
        blocks: 1,
        values: types.len(),
        ..Needs::none()
    };
    make_room(ctx, tables, needs)?;
    let arg_types = picked(ctx.alloc(), &tables.types, types)?;
    let block = BasicBlock::new(ctx, label, &arg_types)?;
    let number = tables.blocks.len();
    tables.enter_block(block.deref(ctx));
    Ok(number)
}

// Makes the last region of the operation, and answers its number in the table.
fn make_region<D: Dialects>(
    ctx: &mut Context<D>,
    tables: &mut Tables<D>,
    op: Ptr<Operation<D>>,
) -> Result<usize, CoreError>
    requires sound { Sound (session_in ctx.old tables.old) }
    requires live { IsLive (forest_of ctx.old) (an_op op.index) }
    ensures { (n : ℕ) → slice_get (entries_of tables.old).ops n ≡ Some op.index → Step (behaviour_of D.Dialects D.TypeKey.eq) (session_in ctx.old tables.old) (PlainAddRegion n) (answer_of result) (session_in ctx.new tables.new) }
{
    let needs = Needs {
        regions: 1,
        ..Needs::none()
    };
    make_room(ctx, tables, needs)?;
    let region = op.add_region(ctx)?;
    let number = tables.regions.len();
    tables.enter_region(region);
    Ok(number)
}
