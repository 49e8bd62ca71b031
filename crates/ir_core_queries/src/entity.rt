//! Operations, blocks and regions alike: what each stands in, and whether it stands inside another.

ghost use Rattle.std.specs.Prelude.{◌≡◌, ◌↔◌, [], All, IsTrue};
ghost use Rattle.ir_model.specs.Forest.{a_region};
ghost use Rattle.ir_model.specs.Nesting.{children, Inside, IsClosed, IsLinked, IsLive, Nested};
ghost use Rattle.ir_core_records.specs.Meaning.{entity_of, forest_in};
ghost use Rattle.ir_core_records.specs.Nested.{AreNested};
ghost use Rattle.ir_core_records.specs.Tree.{tree_of};
ghost use Rattle.ir_core_context.specs.State.{forest_of};
ghost use Rattle.ir_core_queries.specs.Entities.{meant};
ghost use Rattle.ir_core_queries.specs.Shallow.{IsAt, IsShallow};

use ir_base_dialects::{ArenaIndex, Dialects, Ptr};
use ir_core_context::Context;
use ir_core_nesting::{are_one, parent_of};
use ir_core_records::{BasicBlock, EntityIndex, Operation, Records, Region};

/// An operation, a block or a region, as a handle.
#[derive_where(Clone, Copy, PartialEq, Eq, Hash)]
#[derive(Drop)]
pub enum Entity<D: Dialects> {
    /// An operation.
    Op(Ptr<Operation<D>>),
    /// A block.
    Block(Ptr<BasicBlock<D>>),
    /// A region.
    Region(Ptr<Region>),
}

impl<D: Dialects> Entity<D> {
    /// The entity as an index.
    #[inline(always)]
    pub fn index(self) -> EntityIndex
        ensures { entity_of result ≡ meant self }
    {
        match self {
            Entity::Op(op) => EntityIndex::Op(op.index()),
            Entity::Block(block) => EntityIndex::Block(block.index()),
            Entity::Region(region) => EntityIndex::Region(region.index()),
        }
    }
}

// Whether an entity stands in a list.
#[inline(always)]
pub(crate) fn is_linked<D: Dialects>(ctx: &Context<D>, entity: EntityIndex) -> bool
    ensures { IsTrue result ↔ IsLinked (forest_of ctx.now) (entity_of entity) }
{
    ctx.recall_well_formed();
    ctx.recall_holds_together();
    parent_of(ctx.records(), entity).is_some()
}

// Whether nothing stands in an entity.
#[inline(always)]
fn is_childless<D: Dialects>(records: &Records<D>, entity: EntityIndex) -> bool
    requires { AreNested (tree_of records.now) }
    ensures { IsTrue result → children (forest_in records.now) (entity_of entity) ≡ [] }
{
    match entity {
        EntityIndex::Op(op) => match records.ops.get(Ptr::from_index(op)) {
            Some(op) => op.regions.is_empty(),
            None => true,
        },
        EntityIndex::Block(block) => match records.blocks.get(Ptr::from_index(block)) {
            Some(block) => block.ops_list.first.get().is_none(),
            None => true,
        },
        EntityIndex::Region(region) => match records.regions.get(Ptr::from_index(region)) {
            Some(region) => region.first.get().is_none(),
            None => true,
        },
    }
}

// Whether nothing stands in any of these regions.
#[inline(always)]
fn are_childless<D: Dialects>(records: &Records<D>, regions: &[ArenaIndex]) -> bool
    requires { AreNested (tree_of records.now) }
    ensures { IsTrue result → All (λ g. children (forest_in records.now) (a_region g) ≡ []) regions.now }
{
    regions.iter().all(|region| is_childless(records, EntityIndex::Region(*region)))
}

// Whether nothing stands in what stands in an entity: an operation has no region with a block, a block no operation, a region no block.
#[inline(always)]
fn is_shallow<D: Dialects>(records: &Records<D>, entity: EntityIndex) -> bool
    requires { AreNested (tree_of records.now) }
    ensures { IsTrue result → IsShallow (children (forest_in records.now)) (entity_of entity) }
{
    match entity {
        EntityIndex::Op(op) => match records.ops.get(Ptr::from_index(op)) {
            Some(op) => are_childless(records, op.regions.as_slice()),
            None => true,
        },
        _ => is_childless(records, entity),
    }
}

// Whether `inner` is `outer` or stands in its list.
#[inline(always)]
fn is_at<D: Dialects>(records: &Records<D>, inner: EntityIndex, outer: EntityIndex) -> bool
    requires nested { AreNested (tree_of records.now) }
    requires formed { Nested (forest_in records.now) }
    ensures { IsTrue result ↔ IsAt (children (forest_in records.now)) (entity_of outer) (entity_of inner) }
{
    if are_one(inner, outer) {
        return true;
    }
    match parent_of(records, inner) {
        Some(parent) => are_one(parent, outer),
        None => false,
    }
}

/// Whether `inner` is `outer` or stands inside it, however deep. It asks for no live handles: in a dead one nothing stands but itself.
///
/// It climbs from `inner`, a step a level, and one step at most where nothing but empty regions stands in `outer`.
#[inline(always)]
pub fn is_inside<D: Dialects>(ctx: &Context<D>, inner: Entity<D>, outer: Entity<D>) -> bool
    ensures { IsTrue result ↔ Inside (forest_of ctx.now) (meant outer) (meant inner) }
{
    ctx.recall_well_formed();
    ctx.recall_holds_together();
    let records = ctx.records();
    let outer = outer.index();
    let inner = inner.index();
    if is_shallow(records, outer) {
        return is_at(records, inner, outer);
    }
    ir_core_nesting::is_inside(records, outer, inner)
}

/// Whether a live entity can be erased: exactly where each operand or successor that names a definition of its subtree belongs to an operation of the subtree. It takes no memory, and asks each use of what is inside once.
#[inline(always)]
pub fn can_erase<D: Dialects>(ctx: &Context<D>, entity: Entity<D>) -> bool
    requires { IsLive (forest_of ctx.now) (meant entity) }
    ensures { IsTrue result ↔ IsClosed (forest_of ctx.now) (meant entity) }
{
    ctx.recall_well_formed();
    ctx.recall_holds_together();
    ir_core_erasing::can_erase(ctx.records(), entity.index())
}
