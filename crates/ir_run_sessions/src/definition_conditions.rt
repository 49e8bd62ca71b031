//! What the edits of results and arguments name: an operation or a block with a type, and a result or an argument that no operation names.

ghost use Rattle.std.specs.Prelude.{◌≡◌, ℕ, IfSome, IsNone, Some, slice_get};
ghost use Rattle.std.specs.Option.{option_map};
ghost use Rattle.ir_model.specs.declared.ids.ArenaIndex.{ArenaIndex};
ghost use Rattle.ir_model.specs.Forest.{a_block, an_op, of_block, of_op};
ghost use Rattle.ir_core_queries.specs.Definitions.{UnusedAt};
ghost use Rattle.ir_core_queries.specs.State.{forest_of};
ghost use Rattle.ir_run_sessions.specs.Named.{NamesLive};
ghost use Rattle.ir_run_sessions.specs.SessionTables.{entries_of};

use crate::entities::{EntityEntry, find};
use crate::session_tables::Tables;
use ir_base_dialects::{Dialects, Ptr, TypeHandle};
use ir_core_queries::{BasicBlock, BlockPtr, Context, Operation, OperationPtr, ValueQueries};

/// The type with this number; none where no type has it. A type is known for good.
pub(crate) fn find_type<D: Dialects>(tables: &Tables<D>, number: usize) -> Option<TypeHandle>
    ensures { option_map (λ t. t.place) result ≡ slice_get (entries_of tables.now).types number }
{
    tables.types.get(number).copied()
}

/// The live entity with the first number, and the type with the second.
pub(crate) fn find_with_type<D: Dialects, E: EntityEntry<D>>(
    ctx: &Context<D>,
    tables: &Tables<D>,
    number: usize,
    ty: usize,
) -> Option<(E, TypeHandle)>
    ensures entity { IfSome result (λ pair. NamesLive (forest_of ctx.now) E.entity_at (E.column (entries_of tables.now)) number (E.index_of pair.0)) }
    ensures ty { IfSome result (λ pair. slice_get (entries_of tables.now).types ty ≡ Some pair.1.place) }
    ensures missing { IsNone result → (i : ArenaIndex) (t : ℕ) → NamesLive (forest_of ctx.now) E.entity_at (E.column (entries_of tables.now)) number i → slice_get (entries_of tables.now).types ty ≡ Some t → ⊥ }
{
    let entity: E = find(ctx, tables, number)?;
    let ty = find_type(tables, ty)?;
    Some((entity, ty))
}

/// The live operation with this number, where it has a result at this place that no operation names.
pub(crate) fn find_unused_result<D: Dialects>(
    ctx: &Context<D>,
    tables: &Tables<D>,
    number: usize,
    at: usize,
) -> Option<Ptr<Operation<D>>>
    ensures named { IfSome result (λ op. NamesLive (forest_of ctx.now) an_op (entries_of tables.now).ops number op.index) }
    ensures unused { IfSome result (λ op. UnusedAt (forest_of ctx.now) (of_op op.index) at) }
    ensures missing { IsNone result → (id : ArenaIndex) → NamesLive (forest_of ctx.now) an_op (entries_of tables.now).ops number id → UnusedAt (forest_of ctx.now) (of_op id) at → ⊥ }
{
    let op: Ptr<Operation<D>> = find(ctx, tables, number)?;
    let record = op.deref(ctx);
    if at < record.get_num_results() && !record.get_result(at).is_used(ctx) {
        Some(op)
    } else {
        None
    }
}

/// The live block with this number, where it has an argument at this place that no operation names.
pub(crate) fn find_unused_argument<D: Dialects>(
    ctx: &Context<D>,
    tables: &Tables<D>,
    number: usize,
    at: usize,
) -> Option<Ptr<BasicBlock<D>>>
    ensures named { IfSome result (λ block. NamesLive (forest_of ctx.now) a_block (entries_of tables.now).blocks number block.index) }
    ensures unused { IfSome result (λ block. UnusedAt (forest_of ctx.now) (of_block block.index) at) }
    ensures missing { IsNone result → (id : ArenaIndex) → NamesLive (forest_of ctx.now) a_block (entries_of tables.now).blocks number id → UnusedAt (forest_of ctx.now) (of_block id) at → ⊥ }
{
    let block: Ptr<BasicBlock<D>> = find(ctx, tables, number)?;
    let record = block.deref(ctx);
    if at < record.get_num_arguments() && !record.get_argument(at).is_used(ctx) {
        Some(block)
    } else {
        None
    }
}
