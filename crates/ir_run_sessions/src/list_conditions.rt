//! The conditions of the edits of lists and nesting: whether what an edit names is live, and may stand where the edit puts it.
//!
//! Each test is written once, over operations, blocks and regions alike.

ghost use Rattle.std.specs.Prelude.{◌↔◌, IfSome, IsNone, IsTrue};
ghost use Rattle.std.specs.Option.{option_map};
ghost use Rattle.ir_model.specs.declared.ids.ArenaIndex.{ArenaIndex};
ghost use Rattle.ir_model.specs.Edits.{MayGoBeside, MayGoInto, MayJoin};
ghost use Rattle.ir_model.specs.Forest.{a_region, an_op};
ghost use Rattle.ir_model.specs.Nesting.{Inside, IsLinked, IsLive};
ghost use Rattle.ir_model.specs.Parent.{IsParent, IsUnlinked};
ghost use Rattle.ir_core_queries.specs.State.{forest_of};
ghost use Rattle.ir_core_queries.specs.Entities.{meant};
ghost use Rattle.ir_run_sessions.specs.Named.{NamesLive};
ghost use Rattle.ir_run_sessions.specs.SessionTables.{entries_of, NoPairLive};

use crate::entities::{EntityEntry, find};
use crate::session_tables::Tables;
use ir_base_dialects::{Dialects, Ptr};
use ir_core_queries::{
    BlockPlace, Context, Entity, Operation, OperationPlace, Region, RegionPtr, is_inside,
};

/// The live entity with this number, where it stands in a list.
pub(crate) fn find_linked<D: Dialects, E: EntityEntry<D>>(
    ctx: &Context<D>,
    tables: &Tables<D>,
    number: usize,
) -> Option<E>
    ensures named { IfSome result (λ entry. NamesLive (forest_of ctx.now) E.entity_at (E.column (entries_of tables.now)) number (E.index_of entry)) }
    ensures linked { IfSome result (λ entry. IsLinked (forest_of ctx.now) (E.entity_at (E.index_of entry))) }
    ensures missing { IsNone result → (id : ArenaIndex) → NamesLive (forest_of ctx.now) E.entity_at (E.column (entries_of tables.now)) number id → IsLinked (forest_of ctx.now) (E.entity_at id) → ⊥ }
{
    let entry: E = find(ctx, tables, number)?;
    let _container = parent_of(ctx, entry.entity())?;
    Some(entry)
}

/// The live entities with these numbers, where the first may go into the list of the second.
pub(crate) fn find_into<D: Dialects, N: EntityEntry<D>, C: EntityEntry<D>>(
    ctx: &Context<D>,
    tables: &Tables<D>,
    node: usize,
    container: usize,
) -> Option<(N, C)>
    ensures node { IfSome result (λ pair. NamesLive (forest_of ctx.now) N.entity_at (N.column (entries_of tables.now)) node (N.index_of pair.0)) }
    ensures container { IfSome result (λ pair. NamesLive (forest_of ctx.now) C.entity_at (C.column (entries_of tables.now)) container (C.index_of pair.1)) }
    ensures may_go { IfSome result (λ pair. MayGoInto (forest_of ctx.now) (N.entity_at (N.index_of pair.0)) (C.entity_at (C.index_of pair.1))) }
    ensures missing { IsNone result → NoPairLive ctx.now tables.now N.entity_at N.column node C.entity_at C.column container (MayGoInto (forest_of ctx.now)) }
{
    let node: N = find(ctx, tables, node)?;
    let container: C = find(ctx, tables, container)?;
    if may_go_into(ctx, node.entity(), container.entity()) {
        Some((node, container))
    } else {
        None
    }
}

/// The live entities with these numbers, where the first may go beside the second.
pub(crate) fn find_beside<D: Dialects, N: EntityEntry<D>>(
    ctx: &Context<D>,
    tables: &Tables<D>,
    node: usize,
    mark: usize,
) -> Option<(N, N)>
    ensures node { IfSome result (λ pair. NamesLive (forest_of ctx.now) N.entity_at (N.column (entries_of tables.now)) node (N.index_of pair.0)) }
    ensures mark { IfSome result (λ pair. NamesLive (forest_of ctx.now) N.entity_at (N.column (entries_of tables.now)) mark (N.index_of pair.1)) }
    ensures may_go { IfSome result (λ pair. MayGoBeside (forest_of ctx.now) (N.entity_at (N.index_of pair.0)) (N.entity_at (N.index_of pair.1))) }
    ensures missing { IsNone result → NoPairLive ctx.now tables.now N.entity_at N.column node N.entity_at N.column mark (MayGoBeside (forest_of ctx.now)) }
{
    let node: N = find(ctx, tables, node)?;
    let mark: N = find(ctx, tables, mark)?;
    if may_go_beside(ctx, node.entity(), mark.entity()) {
        Some((node, mark))
    } else {
        None
    }
}

/// The live entities with these numbers, where the list of the second may be joined to that of the first.
pub(crate) fn find_joined<D: Dialects, C: EntityEntry<D>>(
    ctx: &Context<D>,
    tables: &Tables<D>,
    donee: usize,
    donor: usize,
) -> Option<(C, C)>
    ensures donee { IfSome result (λ pair. NamesLive (forest_of ctx.now) C.entity_at (C.column (entries_of tables.now)) donee (C.index_of pair.0)) }
    ensures donor { IfSome result (λ pair. NamesLive (forest_of ctx.now) C.entity_at (C.column (entries_of tables.now)) donor (C.index_of pair.1)) }
    ensures may_join { IfSome result (λ pair. MayJoin (forest_of ctx.now) (C.entity_at (C.index_of pair.0)) (C.entity_at (C.index_of pair.1))) }
    ensures missing { IsNone result → NoPairLive ctx.now tables.now C.entity_at C.column donee C.entity_at C.column donor (MayJoin (forest_of ctx.now)) }
{
    let donee: C = find(ctx, tables, donee)?;
    let donor: C = find(ctx, tables, donor)?;
    if may_join(ctx, donee.entity(), donor.entity()) {
        Some((donee, donor))
    } else {
        None
    }
}

/// The live region and the live operation with these numbers, where the operation isn't inside the region.
pub(crate) fn find_outside<D: Dialects>(
    ctx: &Context<D>,
    tables: &Tables<D>,
    region: usize,
    op: usize,
) -> Option<(Ptr<Region>, Ptr<Operation<D>>)>
    ensures region { IfSome result (λ pair. NamesLive (forest_of ctx.now) a_region (entries_of tables.now).regions region pair.0.index) }
    ensures op { IfSome result (λ pair. NamesLive (forest_of ctx.now) an_op (entries_of tables.now).ops op pair.1.index) }
    ensures outside { IfSome result (λ pair. ¬ Inside (forest_of ctx.now) (a_region pair.0.index) (an_op pair.1.index)) }
    ensures missing { IsNone result → NoPairLive ctx.now tables.now a_region (λ t. t.regions) region an_op (λ t. t.ops) op (λ r o. ¬ Inside (forest_of ctx.now) r o) }
{
    let region: Ptr<Region> = find(ctx, tables, region)?;
    let op: Ptr<Operation<D>> = find(ctx, tables, op)?;
    if is_inside(ctx, Entity::Op(op), Entity::Region(region)) {
        None
    } else {
        Some((region, op))
    }
}

// What the live entity stands in, if it stands in something.
fn parent_of<D: Dialects>(ctx: &Context<D>, entity: Entity<D>) -> Option<Entity<D>>
    requires { IsLive (forest_of ctx.now) (meant entity) }
    ensures { IsParent (forest_of ctx.now) (meant entity) (option_map meant result) }
{
    match entity {
        Entity::Op(op) => Some(Entity::Block(op.get_parent_block(ctx)?)),
        Entity::Block(block) => Some(Entity::Region(block.get_parent_region(ctx)?)),
        Entity::Region(region) => Some(Entity::Op(region.get_parent_op(ctx))),
    }
}

// Whether the live entity stands in no list.
fn is_unlinked<D: Dialects>(ctx: &Context<D>, entity: Entity<D>) -> bool
    requires { IsLive (forest_of ctx.now) (meant entity) }
    ensures { IsTrue result ↔ IsUnlinked (forest_of ctx.now) (meant entity) }
{
    parent_of(ctx, entity).is_none()
}

// Whether the live entity is unlinked, and may go into the list of the other.
fn may_go_into<D: Dialects>(ctx: &Context<D>, node: Entity<D>, container: Entity<D>) -> bool
    requires { IsLive (forest_of ctx.now) (meant node) }
    ensures { IsTrue result ↔ MayGoInto (forest_of ctx.now) (meant node) (meant container) }
{
    is_unlinked(ctx, node) && !is_inside(ctx, container, node)
}

// Whether the first is unlinked, and may go beside the second, which stands in a list.
fn may_go_beside<D: Dialects>(ctx: &Context<D>, node: Entity<D>, mark: Entity<D>) -> bool
    requires node { IsLive (forest_of ctx.now) (meant node) }
    requires mark { IsLive (forest_of ctx.now) (meant mark) }
    ensures { IsTrue result ↔ MayGoBeside (forest_of ctx.now) (meant node) (meant mark) }
{
    ctx.recall_well_formed();
    match parent_of(ctx, mark) {
        Some(container) => may_go_into(ctx, node, container),
        None => false,
    }
}

// Whether the list of the donor may be joined to that of the donee: the donee is neither the donor nor inside it.
fn may_join<D: Dialects>(ctx: &Context<D>, donee: Entity<D>, donor: Entity<D>) -> bool
    ensures { IsTrue result ↔ MayJoin (forest_of ctx.now) (meant donee) (meant donor) }
{
    ctx.recall_well_formed();
    !is_inside(ctx, donee, donor)
}
