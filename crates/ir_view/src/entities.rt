//! Iterators over all that stands inside an entity.

ghost use Rattle.std.specs.Prelude.{◌≡◌, ⊤, All};
ghost use Rattle.std.specs.Iterator.{YieldsFirstBy, item_count};
ghost use Rattle.ir_model.specs.Nesting.{IsLive};
ghost use Rattle.ir_model.specs.Subtree.{ListsSubtree};
ghost use Rattle.ir_core_context.specs.State.{forest_of};
ghost use Rattle.ir_core_queries.specs.Entities.{meant};
ghost use Rattle.ir_view.specs.Listings.{IsInOrder};
ghost use Rattle.ir_view.specs.Orders.{IsPostOrder, IsPreorder};

use crate::next::{first_inside, next_inside};
use crate::order::WalkOrder;
use ir_base_dialects::Dialects;
use ir_core_nesting::recall_depths_follow;
use ir_core_queries::{Context, Entity};
use std::alloc::AllocError;
use std::marker::Model;

/// All that stands inside an entity, each once, the entity among them. It stands for pliron's walkers, which go forward in preorder or post-order.
///
/// A contract sees it as the list of the entities that are left.
pub struct EntitiesInside<'a, D: Dialects> {
    ctx: &'a Context<D>,
    order: WalkOrder,
    root: Entity<D>,
    next: Option<Entity<D>>,
}

impl<'a, D: Dialects> Model for EntitiesInside<'a, D> {
    ghost use Rattle.std.specs.Prelude.{List, IfSome};
    ghost use Rattle.std.specs.Option.{option_map};
    ghost use Rattle.ir_model.specs.ContextIds.{context_ids};
    ghost use Rattle.ir_model.specs.Forest.{Entity as PlainEntity};
    ghost use Rattle.ir_model.specs.Nesting.{Inside as IsInside, IsLive};
    ghost use Rattle.ir_core_context.specs.State.{forest_of};
    ghost use Rattle.ir_core_queries.specs.Entities.{meant};
    ghost use Rattle.ir_view.specs.Left.{left_from};
    ghost use Rattle.ir_view.specs.Listings.{listing};

    ghost Value = { List (PlainEntity context_ids) };

    ghost view = { λ it. left_from (option_map meant it.next) (listing it.order it.ctx.now (meant it.root)) };

    ghost invariant = { λ it. IsLive (forest_of it.ctx.now) (meant it.root) × IfSome it.next (λ next. IsInside (forest_of it.ctx.now) (meant it.root) (meant next)) };
}

impl<'a, D: Dialects> Drop for EntitiesInside<'a, D> {
    fn drop(self) {
        let EntitiesInside {
            ctx: _,
            order: _,
            root: _,
            next: _,
        } = self;
    }
}

// The walk over all inside a live entity.
fn walk<D: Dialects>(ctx: &Context<D>, order: WalkOrder, root: Entity<D>) -> EntitiesInside<'_, D>
    requires { IsLive (forest_of ctx.now) (meant root) }
    ensures order { IsInOrder order (forest_of ctx.now) (meant root) result }
    ensures each { ListsSubtree (forest_of ctx.now) (meant root) result }
    ensures live { All (λ e. IsLive (forest_of ctx.now) e) result }
{
    recall_depths_follow::<D>();
    ctx.recall_well_formed();
    ctx.recall_holds_together();
    let next = Some(first_inside(ctx, order, root));
    EntitiesInside {
        ctx,
        order,
        root,
        next,
    }
}

/// All that stands inside a live entity, the entity among them, in post-order: what stands in an entity comes before it. So an operation comes after its regions, and the entity itself is the last.
pub fn inside<D: Dialects>(ctx: &Context<D>, entity: Entity<D>) -> EntitiesInside<'_, D>
    requires { IsLive (forest_of ctx.now) (meant entity) }
    ensures order { IsPostOrder (forest_of ctx.now) (meant entity) result }
    ensures each { ListsSubtree (forest_of ctx.now) (meant entity) result }
    ensures live { All (λ e. IsLive (forest_of ctx.now) e) result }
{
    walk(ctx, WalkOrder::PostOrder, entity)
}

/// All that stands inside a live entity, the entity among them, in preorder: an entity comes before what stands in it. So an operation comes before its regions, and the entity itself is the first.
pub fn inside_preorder<D: Dialects>(ctx: &Context<D>, entity: Entity<D>) -> EntitiesInside<'_, D>
    requires { IsLive (forest_of ctx.now) (meant entity) }
    ensures order { IsPreorder (forest_of ctx.now) (meant entity) result }
    ensures each { ListsSubtree (forest_of ctx.now) (meant entity) result }
    ensures live { All (λ e. IsLive (forest_of ctx.now) e) result }
{
    walk(ctx, WalkOrder::Preorder, entity)
}

impl<'a, D: Dialects> Iterator for EntitiesInside<'a, D> {
    type Item = Entity<D>;

    ghost can_next = { λ _. ⊤ };

    ghost next_gives = { YieldsFirstBy meant (λ xs. xs) };

    ghost remaining = { item_count (λ xs. xs) };

    fn next(&mut self) -> Option<Entity<D>> {
        recall_depths_follow::<D>();
        self.ctx.recall_well_formed();
        self.ctx.recall_holds_together();
        let here = self.next?;
        self.next = next_inside(self.ctx, self.order, self.root, here);
        Some(here)
    }
}

impl<'a, D: Dialects> Clone for EntitiesInside<'a, D> {
    ghost is_clone = { λ it copy. copy ≡ it };

    ghost is_infallible = { λ _. ⊤ };

    fn clone(&self) -> Result<Self, AllocError> {
        Ok(EntitiesInside {
            ctx: self.ctx,
            order: self.order,
            root: self.root,
            next: self.next,
        })
    }
}
