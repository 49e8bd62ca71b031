//! The conditions of the edits that erase: whether what an edit names is live, and nothing outside names what is defined inside.

ghost use Rattle.std.specs.Prelude.{◌↔◌, IfSome, IsNone, slice_get};
ghost use Rattle.ir_model.specs.declared.ids.ArenaIndex.{ArenaIndex};
ghost use Rattle.ir_model.specs.Edits.{The};
ghost use Rattle.ir_model.specs.Forest.{an_op};
ghost use Rattle.ir_model.specs.Nesting.{IsClosed};
ghost use Rattle.ir_core_queries.specs.State.{forest_of};
ghost use Rattle.ir_run_sessions.specs.Named.{NamesLive};
ghost use Rattle.ir_run_sessions.specs.SessionTables.{entries_of};
ghost use Rattle.ir_core_queries.specs.Definitions.{ClosedAt};

use crate::entities::{EntityEntry, find};
use crate::session_tables::Tables;
use ir_base_dialects::{Dialects, Ptr};
use ir_core_queries::{Context, Entity, Operation, OperationPtr, can_erase};

/// The live entity with this number, where it can be erased.
pub(crate) fn find_closed<D: Dialects, E: EntityEntry<D>>(
    ctx: &Context<D>,
    tables: &Tables<D>,
    number: usize,
) -> Option<E>
    ensures named { IfSome result (λ entry. NamesLive (forest_of ctx.now) E.entity_at (E.column (entries_of tables.now)) number (E.index_of entry)) }
    ensures closed { IfSome result (λ entry. IsClosed (forest_of ctx.now) (E.entity_at (E.index_of entry))) }
    ensures missing { IsNone result → (id : ArenaIndex) → NamesLive (forest_of ctx.now) E.entity_at (E.column (entries_of tables.now)) number id → IsClosed (forest_of ctx.now) (E.entity_at id) → ⊥ }
{
    let entry: E = find(ctx, tables, number)?;
    if can_erase(ctx, entry.entity()) {
        Some(entry)
    } else {
        None
    }
}

/// The live operation with this number, where it has a region at this place, and that can be erased.
pub(crate) fn find_closed_region<D: Dialects>(
    ctx: &Context<D>,
    tables: &Tables<D>,
    number: usize,
    at: usize,
) -> Option<Ptr<Operation<D>>>
    ensures named { IfSome result (λ op. NamesLive (forest_of ctx.now) an_op (entries_of tables.now).ops number op.index) }
    ensures closed { IfSome result (λ op. ClosedAt (forest_of ctx.now) op.index at) }
    ensures missing { IsNone result → (id : ArenaIndex) → NamesLive (forest_of ctx.now) an_op (entries_of tables.now).ops number id → ClosedAt (forest_of ctx.now) id at → ⊥ }
{
    let op: Ptr<Operation<D>> = find(ctx, tables, number)?;
    let record = op.deref(ctx);
    if at < record.num_regions() && can_erase(ctx, Entity::Region(record.get_region(at))) {
        Some(op)
    } else {
        None
    }
}
