//! Where a walk begins, and what comes after an entity.

ghost use Rattle.std.specs.Prelude.{◌≡◌, ◌++◌, ◌∷◌, [], List, Some, IfSome};
ghost use Rattle.std.specs.Option.{option_map};
ghost use Rattle.ir_model.specs.ContextIds.{context_ids};
ghost use Rattle.ir_model.specs.Forest.{Entity as PlainEntity};
ghost use Rattle.ir_model.specs.Nesting.{children, Inside, IsLive};
ghost use Rattle.ir_model.specs.Parent.{first_of};
ghost use Rattle.ir_core_context.specs.State.{forest_of};
ghost use Rattle.ir_core_queries.specs.Entities.{meant};
ghost use Rattle.ir_view.specs.Listings.{IsInOrder};
ghost use Rattle.ir_view.specs.Orders.{IsPostOrder, IsPreorder};

use crate::neighbours::{first_child, is_same, next_beside, owner};
use crate::order::WalkOrder;
use ir_base_dialects::Dialects;
use ir_core_nesting::recall_depths_follow;
use ir_core_queries::{Context, Entity};

// The entity that first children lead to, in which nothing stands.
#[tactic(auto, using(crate::proofs::Forests::inside_live))]
fn innermost<D: Dialects>(ctx: &Context<D>, start: Entity<D>) -> Entity<D>
    requires { IsLive (forest_of ctx.now) (meant start) }
    ensures inside { Inside (forest_of ctx.now) (meant start) (meant result) }
    ensures first { (xs : List (PlainEntity context_ids)) → IsPostOrder (forest_of ctx.now) (meant start) xs → first_of xs ≡ Some (meant result) }
{
    recall_depths_follow::<D>();
    ctx.recall_well_formed();
    ctx.recall_holds_together();
    let mut current = start;
    while let Some(child) = first_child(ctx, current) {
        current = child;
    }
    current
}

// What comes after an entity in post-order: the innermost of the one beside it, or else what it stands in.
#[tactic(auto, using(crate::proofs::Forests::inside_live))]
fn next_in_post_order<D: Dialects>(
    ctx: &Context<D>,
    root: Entity<D>,
    here: Entity<D>,
) -> Option<Entity<D>>
    requires live { IsLive (forest_of ctx.now) (meant root) }
    requires inside { Inside (forest_of ctx.now) (meant root) (meant here) }
    ensures inside { IfSome result (λ next. Inside (forest_of ctx.now) (meant root) (meant next)) }
    ensures next { (xs before behind : List (PlainEntity context_ids)) → IsPostOrder (forest_of ctx.now) (meant root) xs
        → xs ≡ before ++ meant here ∷ behind → option_map meant result ≡ first_of behind }
{
    ctx.recall_well_formed();
    if is_same(here, root) {
        return None;
    }
    match next_beside(ctx, here) {
        Some(sibling) => Some(innermost(ctx, sibling)),
        None => owner(ctx, here),
    }
}

// What comes in preorder after an entity in which nothing stands: the one beside it, or beside the first around it that has one beside it.
#[tactic(auto, using(crate::proofs::Forests::inside_live))]
fn next_after_leaf<D: Dialects>(
    ctx: &Context<D>,
    root: Entity<D>,
    here: Entity<D>,
) -> Option<Entity<D>>
    requires live { IsLive (forest_of ctx.now) (meant root) }
    requires inside { Inside (forest_of ctx.now) (meant root) (meant here) }
    requires leaf { children (forest_of ctx.now) (meant here) ≡ [] }
    ensures inside { IfSome result (λ next. Inside (forest_of ctx.now) (meant root) (meant next)) }
    ensures next { (xs before behind : List (PlainEntity context_ids)) → IsPreorder (forest_of ctx.now) (meant root) xs
        → xs ≡ before ++ meant here ∷ behind → option_map meant result ≡ first_of behind }
{
    recall_depths_follow::<D>();
    ctx.recall_well_formed();
    ctx.recall_holds_together();
    let mut current = here;
    while !is_same(current, root) {
        if let Some(sibling) = next_beside(ctx, current) {
            return Some(sibling);
        }
        current = owner(ctx, current)?;
    }
    None
}

// What comes after an entity in preorder: what stands in it first, or else what comes after a leaf.
#[tactic(auto, using(crate::proofs::Forests::inside_live))]
fn next_in_preorder<D: Dialects>(
    ctx: &Context<D>,
    root: Entity<D>,
    here: Entity<D>,
) -> Option<Entity<D>>
    requires live { IsLive (forest_of ctx.now) (meant root) }
    requires inside { Inside (forest_of ctx.now) (meant root) (meant here) }
    ensures inside { IfSome result (λ next. Inside (forest_of ctx.now) (meant root) (meant next)) }
    ensures next { (xs before behind : List (PlainEntity context_ids)) → IsPreorder (forest_of ctx.now) (meant root) xs
        → xs ≡ before ++ meant here ∷ behind → option_map meant result ≡ first_of behind }
{
    ctx.recall_well_formed();
    match first_child(ctx, here) {
        Some(child) => Some(child),
        None => next_after_leaf(ctx, root, here),
    }
}

// With which entity a walk begins.
pub(crate) fn first_inside<D: Dialects>(
    ctx: &Context<D>,
    order: WalkOrder,
    root: Entity<D>,
) -> Entity<D>
    requires { IsLive (forest_of ctx.now) (meant root) }
    ensures inside { Inside (forest_of ctx.now) (meant root) (meant result) }
    ensures first { (xs : List (PlainEntity context_ids)) → IsInOrder order (forest_of ctx.now) (meant root) xs → first_of xs ≡ Some (meant result) }
{
    match order {
        WalkOrder::PostOrder => innermost(ctx, root),
        WalkOrder::Preorder => root,
    }
}

// What comes after an entity in a walk over all inside the root, if something does.
pub(crate) fn next_inside<D: Dialects>(
    ctx: &Context<D>,
    order: WalkOrder,
    root: Entity<D>,
    here: Entity<D>,
) -> Option<Entity<D>>
    requires live { IsLive (forest_of ctx.now) (meant root) }
    requires inside { Inside (forest_of ctx.now) (meant root) (meant here) }
    ensures inside { IfSome result (λ next. Inside (forest_of ctx.now) (meant root) (meant next)) }
    ensures next { (xs before behind : List (PlainEntity context_ids)) → IsInOrder order (forest_of ctx.now) (meant root) xs
        → xs ≡ before ++ meant here ∷ behind → option_map meant result ≡ first_of behind }
{
    match order {
        WalkOrder::PostOrder => next_in_post_order(ctx, root, here),
        WalkOrder::Preorder => next_in_preorder(ctx, root, here),
    }
}
