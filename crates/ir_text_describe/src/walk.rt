//! The walk over all inside an operation, which puts each part where it begins and where it ends. It goes by links and climbs back, and keeps for each open region its index alone. Where something was refused it stops.

ghost use Rattle.std.specs.Prelude.{◌≡◌, ◌↔◌, IfOk, IfSome, IsTrue};
ghost use Rattle.ir_model.specs.Forest.{a_region, an_op};
ghost use Rattle.ir_model.specs.Nesting.{IsLive};
ghost use Rattle.ir_core_queries.specs.Entities.{meant};
ghost use Rattle.ir_core_queries.specs.State.{forest_of};

use crate::draft::Draft;
use crate::naming::{name_region, name_results};
use crate::parts::{put_block_head, put_head, put_tail};
use crate::spelling::Spelling;
use crate::writing::Source;
use ir_base_dialects::{Dialects, Ptr};
use ir_core_nesting::are_one;
use ir_core_queries::{
    BlockPlace, Context, Entity, Operation, OperationPlace, OperationPtr, Region, RegionPlace,
    RegionPtr,
};
use ir_text_pieces::{DescribeErr, Description};
use std::alloc::Global;

/// Whether locations are put.
#[derive(Clone, Copy, Debug, Drop, PartialEq, Eq)]
pub enum Locations {
    /// None of them.
    Left,
    /// Those of operations and of arguments, where they are known.
    Put,
}

// What is put, and the index of each open region in its operation.
#[derive(Drop)]
struct Walk {
    draft: Draft,
    open: Vec<usize>,
}

// Whether the handles are of one entity.
fn is_same<D: Dialects>(a: Entity<D>, b: Entity<D>) -> bool
    ensures { IsTrue result ↔ (meant a ≡ meant b) }
{
    are_one(a.index(), b.index())
}

// What a live entity stands in, if it stands in something.
fn owner<D: Dialects>(ctx: &Context<D>, entity: Entity<D>) -> Option<Entity<D>>
    requires { IsLive (forest_of ctx.now) (meant entity) }
    ensures { IfSome result (λ owner. IsLive (forest_of ctx.now) (meant owner)) }
{
    ctx.recall_well_formed();
    match entity {
        Entity::Op(op) => Some(Entity::Block(op.get_parent_block(ctx)?)),
        Entity::Block(block) => Some(Entity::Region(block.get_parent_region(ctx)?)),
        Entity::Region(region) => Some(Entity::Op(region.get_parent_op(ctx))),
    }
}

// The region at this index of a live operation, if there is one, which is open then.
fn region_at<D: Dialects>(
    ctx: &Context<D>,
    walk: &mut Walk,
    op: Ptr<Operation<D>>,
    index: usize,
) -> Option<Entity<D>>
    requires { IsLive (forest_of ctx.now) (an_op op.index) }
    ensures { IfSome result (λ e. IsLive (forest_of ctx.now) (meant e)) }
{
    let record = op.deref(ctx);
    if index >= record.num_regions() {
        return None;
    }
    if walk.open.push(index).is_err() {
        walk.draft.keep(Err(DescribeErr::OutOfMemory));
    }
    Some(Entity::Region(record.get_region(index)))
}

// The first of what stands in a live entity, if something does.
fn first_inside<D: Dialects>(
    ctx: &Context<D>,
    walk: &mut Walk,
    entity: Entity<D>,
) -> Option<Entity<D>>
    requires { IsLive (forest_of ctx.now) (meant entity) }
    ensures { IfSome result (λ e. IsLive (forest_of ctx.now) (meant e)) }
{
    match entity {
        Entity::Op(op) => region_at(ctx, walk, op, 0),
        Entity::Block(block) => Some(Entity::Op(block.get_head(ctx)?)),
        Entity::Region(region) => Some(Entity::Block(region.get_head(ctx)?)),
    }
}

// Puts what stands where a live entity begins.
fn enter<D: Dialects, S: Spelling<D>>(from: &Source<'_, D, S>, draft: &mut Draft, entity: Entity<D>)
    requires { IsLive (forest_of from.now.ctx.now) (meant entity) }
{
    match entity {
        Entity::Op(op) => put_head(from, draft, op),
        Entity::Block(block) => put_block_head(from, draft, block),
        Entity::Region(region) => {
            draft.open_region();
            name_region(from.ctx, draft, region);
        }
    }
}

// Closes a live region, and answers the one after it in its operation, if there is one.
fn leave_region<D: Dialects>(
    ctx: &Context<D>,
    walk: &mut Walk,
    region: Ptr<Region>,
) -> Option<Entity<D>>
    requires { IsLive (forest_of ctx.now) (a_region region.index) }
    ensures { IfSome result (λ e. IsLive (forest_of ctx.now) (meant e)) }
{
    walk.draft.close_region();
    let index = walk.open.pop()?;
    region_at(
        ctx,
        walk,
        region.get_parent_op(ctx),
        index.saturating_add(1),
    )
}

// Puts what stands where a live entity ends, and answers what comes after it in its list, if something does.
fn leave<D: Dialects, S: Spelling<D>>(
    from: &Source<'_, D, S>,
    walk: &mut Walk,
    entity: Entity<D>,
) -> Option<Entity<D>>
    requires { IsLive (forest_of from.now.ctx.now) (meant entity) }
    ensures { IfSome result (λ e. IsLive (forest_of from.now.ctx.now) (meant e)) }
{
    match entity {
        Entity::Op(op) => {
            put_tail(from, &mut walk.draft, op);
            Some(Entity::Op(op.get_next(from.ctx)?))
        }
        Entity::Block(block) => Some(Entity::Block(block.get_next(from.ctx)?)),
        Entity::Region(region) => leave_region(from.ctx, walk, region),
    }
}

// Leaves a live entity, and what it stands in, until something comes after one of them; none where the root was left.
fn go_on<D: Dialects, S: Spelling<D>>(
    from: &Source<'_, D, S>,
    walk: &mut Walk,
    root: Entity<D>,
    here: Entity<D>,
) -> Option<Entity<D>>
    requires { IsLive (forest_of from.now.ctx.now) (meant here) }
    ensures { IfSome result (λ e. IsLive (forest_of from.now.ctx.now) (meant e)) }
{
    let mut current = here;
    for _ in 0..u64::MAX {
        let next = leave(from, walk, current);
        if is_same(current, root) || walk.draft.is_refused() {
            return None;
        }
        if next.is_some() {
            return next;
        }
        current = owner(from.ctx, current)?;
    }
    walk.draft.keep(Err(DescribeErr::TooLong));
    None
}

// What comes after a live entity in the walk: the first inside it, or what comes after it or after what it stands in.
fn next_of<D: Dialects, S: Spelling<D>>(
    from: &Source<'_, D, S>,
    walk: &mut Walk,
    root: Entity<D>,
    here: Entity<D>,
) -> Option<Entity<D>>
    requires { IsLive (forest_of from.now.ctx.now) (meant here) }
    ensures { IfSome result (λ e. IsLive (forest_of from.now.ctx.now) (meant e)) }
{
    match first_inside(from.ctx, walk, here) {
        Some(first) => Some(first),
        None => go_on(from, walk, root, here),
    }
}

// Puts all that is inside a live entity, the entity among them, up to where something is refused.
fn put_all<D: Dialects, S: Spelling<D>>(from: &Source<'_, D, S>, walk: &mut Walk, root: Entity<D>)
    requires { IsLive (forest_of from.now.ctx.now) (meant root) }
{
    let mut here = root;
    for _ in 0..u64::MAX {
        enter(from, &mut walk.draft, here);
        if walk.draft.is_refused() {
            return;
        }
        match next_of(from, walk, root, here) {
            Some(next) => here = next,
            None => return,
        }
    }
    walk.draft.keep(Err(DescribeErr::TooLong));
}

/// The live operation with all that is inside it, as a flat tree.
///
/// # Errors
/// `OutOfMemory`, or `TooLong` where the text or a number in it passes 4,294,967,295.
pub fn describe<D: Dialects, S: Spelling<D>>(
    alloc: Global,
    ctx: &Context<D>,
    op: Ptr<Operation<D>>,
    spelling: &S,
    locations: Locations,
) -> Result<Description, DescribeErr>
    requires { IsLive (forest_of ctx.now) (an_op op.index) }
{
    let from = Source {
        ctx,
        spelling,
        located: locations == Locations::Put,
    };
    let mut walk = Walk {
        draft: Draft::new(alloc)?,
        open: Vec::new(alloc),
    };
    name_results(&mut walk.draft, op.deref(ctx));
    put_all(&from, &mut walk, Entity::Op(op));
    walk.draft.end()
}
