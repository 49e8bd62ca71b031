//! What the edits of operands and successors name: an operation, and a value or a block; and what those name by which uses come to name something else: two values or two blocks.

ghost use Rattle.std.specs.Prelude.{IfSome, IsNone, MatchOption};
ghost use Rattle.ir_model.specs.declared.ids.ArenaIndex.{ArenaIndex};
ghost use Rattle.ir_model.specs.ContextIds.{context_ids};
ghost use Rattle.ir_model.specs.Edits.{UsersLinked};
ghost use Rattle.ir_model.specs.Forest.{Value as PlainValue, a_block, an_op};
ghost use Rattle.ir_core_records.specs.Meaning.{value_of};
ghost use Rattle.ir_core_queries.specs.State.{forest_of};
ghost use Rattle.ir_run_sessions.specs.Named.{NamesLive, NamesLiveValue};
ghost use Rattle.ir_run_sessions.specs.SessionTables.{entries_of, NoTwoLive};

use crate::entities::{EntityEntry, find};
use crate::lookups::live_entry;
use crate::session_tables::Tables;
use ir_base_dialects::{Dialects, Ptr};
use ir_core_queries::{BasicBlock, BlockPlace, Context, Operation, Value};

/// The live value with this number; none where no live one has it.
pub(crate) fn find_value<D: Dialects>(
    ctx: &Context<D>,
    tables: &Tables<D>,
    number: usize,
) -> Option<Value<D>>
    ensures { MatchOption result ((v : PlainValue context_ids) → NamesLiveValue (forest_of ctx.now) (entries_of tables.now).values number v → ⊥) (λ v. NamesLiveValue (forest_of ctx.now) (entries_of tables.now).values number (value_of v.index)) }
{
    live_entry(ctx, &tables.values, number)
}

/// The live operation and the live value with these numbers.
pub(crate) fn find_op_and_value<D: Dialects>(
    ctx: &Context<D>,
    tables: &Tables<D>,
    op: usize,
    value: usize,
) -> Option<(Ptr<Operation<D>>, Value<D>)>
    ensures op { IfSome result (λ pair. NamesLive (forest_of ctx.now) an_op (entries_of tables.now).ops op pair.0.index) }
    ensures value { IfSome result (λ pair. NamesLiveValue (forest_of ctx.now) (entries_of tables.now).values value (value_of pair.1.index)) }
    ensures missing { IsNone result → (i : ArenaIndex) (v : PlainValue context_ids) → NamesLive (forest_of ctx.now) an_op (entries_of tables.now).ops op i → NamesLiveValue (forest_of ctx.now) (entries_of tables.now).values value v → ⊥ }
{
    let op: Ptr<Operation<D>> = find(ctx, tables, op)?;
    let value = find_value(ctx, tables, value)?;
    Some((op, value))
}

/// The live entities with these numbers.
pub(crate) fn find_both<D: Dialects, N: EntityEntry<D>, M: EntityEntry<D>>(
    ctx: &Context<D>,
    tables: &Tables<D>,
    first: usize,
    second: usize,
) -> Option<(N, M)>
    ensures first { IfSome result (λ pair. NamesLive (forest_of ctx.now) N.entity_at (N.column (entries_of tables.now)) first (N.index_of pair.0)) }
    ensures second { IfSome result (λ pair. NamesLive (forest_of ctx.now) M.entity_at (M.column (entries_of tables.now)) second (M.index_of pair.1)) }
    ensures missing { IsNone result → NoTwoLive ctx.now tables.now N.entity_at N.column first M.entity_at M.column second }
{
    let first: N = find(ctx, tables, first)?;
    let second: M = find(ctx, tables, second)?;
    Some((first, second))
}

/// The live values with these numbers.
pub(crate) fn find_values<D: Dialects>(
    ctx: &Context<D>,
    tables: &Tables<D>,
    first: usize,
    second: usize,
) -> Option<(Value<D>, Value<D>)>
    ensures first { IfSome result (λ pair. NamesLiveValue (forest_of ctx.now) (entries_of tables.now).values first (value_of pair.0.index)) }
    ensures second { IfSome result (λ pair. NamesLiveValue (forest_of ctx.now) (entries_of tables.now).values second (value_of pair.1.index)) }
    ensures missing { IsNone result → (v w : PlainValue context_ids) → NamesLiveValue (forest_of ctx.now) (entries_of tables.now).values first v → NamesLiveValue (forest_of ctx.now) (entries_of tables.now).values second w → ⊥ }
{
    let first = find_value(ctx, tables, first)?;
    let second = find_value(ctx, tables, second)?;
    Some((first, second))
}

/// The live blocks with these numbers, where each operation that names the first as a successor stands in a block.
pub(crate) fn find_retargeted<D: Dialects>(
    ctx: &Context<D>,
    tables: &Tables<D>,
    block: usize,
    other: usize,
) -> Option<(Ptr<BasicBlock<D>>, Ptr<BasicBlock<D>>)>
    ensures block { IfSome result (λ pair. NamesLive (forest_of ctx.now) a_block (entries_of tables.now).blocks block pair.0.index) }
    ensures other { IfSome result (λ pair. NamesLive (forest_of ctx.now) a_block (entries_of tables.now).blocks other pair.1.index) }
    ensures linked { IfSome result (λ pair. UsersLinked (forest_of ctx.now) pair.0.index) }
    ensures missing { IsNone result → (i j : ArenaIndex) → NamesLive (forest_of ctx.now) a_block (entries_of tables.now).blocks block i → NamesLive (forest_of ctx.now) a_block (entries_of tables.now).blocks other j → UsersLinked (forest_of ctx.now) i → ⊥ }
{
    let block: Ptr<BasicBlock<D>> = find(ctx, tables, block)?;
    let other: Ptr<BasicBlock<D>> = find(ctx, tables, other)?;
    if block.preds_are_linked(ctx) {
        Some((block, other))
    } else {
        None
    }
}
