//! What stands beside, in and around an operation, a block or a region, whichever it is.

ghost use Rattle.std.specs.Prelude.{◌≡◌, ◌↔◌, IsTrue};
ghost use Rattle.std.specs.Option.{option_map};
ghost use Rattle.ir_model.specs.Forest.{a_region, an_op};
ghost use Rattle.ir_model.specs.Nesting.{children, IsLive};
ghost use Rattle.ir_model.specs.Parent.{first_of, IsNext, IsParent};
ghost use Rattle.ir_core_context.specs.State.{forest_of};
ghost use Rattle.ir_core_queries.specs.Entities.{meant};

use ir_base_dialects::{Dialects, Ptr};
use ir_core_nesting::are_one;
use ir_core_queries::{
    BlockPlace, BlockPtr, Context, Entity, Operation, OperationPlace, OperationPtr, Region,
    RegionPlace, RegionPtr,
};

/// Whether the operation, block or region is live.
pub fn is_live<D: Dialects>(ctx: &Context<D>, entity: Entity<D>) -> bool
    ensures { IsTrue result ↔ IsLive (forest_of ctx.now) (meant entity) }
{
    match entity {
        Entity::Op(op) => op.is_live(ctx),
        Entity::Block(block) => block.is_live(ctx),
        Entity::Region(region) => region.is_live(ctx),
    }
}

// Whether the handles are of one entity.
pub(crate) fn is_same<D: Dialects>(a: Entity<D>, b: Entity<D>) -> bool
    ensures { IsTrue result ↔ (meant a ≡ meant b) }
{
    are_one(a.index(), b.index())
}

// The first region of a live operation, if it has one.
fn first_region<D: Dialects>(ctx: &Context<D>, op: Ptr<Operation<D>>) -> Option<Ptr<Region>>
    requires { IsLive (forest_of ctx.now) (an_op op.index) }
    ensures { option_map (λ p. a_region p.index) result ≡ first_of (children (forest_of ctx.now) (an_op op.index)) }
{
    let op = op.deref(ctx);
    if op.num_regions() == 0 {
        return None;
    }
    Some(op.get_region(0))
}

// The region after a live one in its operation, if there is one.
fn next_region<D: Dialects>(ctx: &Context<D>, region: Ptr<Region>) -> Option<Ptr<Region>>
    requires { IsLive (forest_of ctx.now) (a_region region.index) }
    ensures { IsNext (forest_of ctx.now) (a_region region.index) (option_map (λ p. a_region p.index) result) }
{
    ctx.recall_well_formed();
    let op = region.get_parent_op(ctx).deref(ctx);
    let count = op.num_regions();
    let next = region.find_index_in_parent(ctx) + 1;
    if next == count {
        return None;
    }
    Some(op.get_region(next))
}

// The first of what stands in a live entity, if something does.
pub(crate) fn first_child<D: Dialects>(ctx: &Context<D>, entity: Entity<D>) -> Option<Entity<D>>
    requires { IsLive (forest_of ctx.now) (meant entity) }
    ensures { option_map meant result ≡ first_of (children (forest_of ctx.now) (meant entity)) }
{
    match entity {
        Entity::Op(op) => Some(Entity::Region(first_region(ctx, op)?)),
        Entity::Block(block) => Some(Entity::Op(block.get_head(ctx)?)),
        Entity::Region(region) => Some(Entity::Block(region.get_head(ctx)?)),
    }
}

// What comes right after a live entity in its list, if something does.
pub(crate) fn next_beside<D: Dialects>(ctx: &Context<D>, entity: Entity<D>) -> Option<Entity<D>>
    requires { IsLive (forest_of ctx.now) (meant entity) }
    ensures { IsNext (forest_of ctx.now) (meant entity) (option_map meant result) }
{
    match entity {
        Entity::Op(op) => Some(Entity::Op(op.get_next(ctx)?)),
        Entity::Block(block) => Some(Entity::Block(block.get_next(ctx)?)),
        Entity::Region(region) => Some(Entity::Region(next_region(ctx, region)?)),
    }
}

// What a live entity stands in, if it stands in something.
pub(crate) fn owner<D: Dialects>(ctx: &Context<D>, entity: Entity<D>) -> Option<Entity<D>>
    requires { IsLive (forest_of ctx.now) (meant entity) }
    ensures { IsParent (forest_of ctx.now) (meant entity) (option_map meant result) }
{
    match entity {
        Entity::Op(op) => Some(Entity::Block(op.get_parent_block(ctx)?)),
        Entity::Block(block) => Some(Entity::Region(block.get_parent_region(ctx)?)),
        Entity::Region(region) => Some(Entity::Op(region.get_parent_op(ctx))),
    }
}
