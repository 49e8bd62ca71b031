//! Iterators over the operations inside an entity.

ghost use Rattle.std.specs.Prelude.{◌≡◌, ⊤, All, List};
ghost use Rattle.std.specs.Iterator.{YieldsFirstBy, item_count};
ghost use Rattle.std.specs.List.{filter_map};
ghost use Rattle.ir_model.specs.ContextIds.{context_ids};
ghost use Rattle.ir_model.specs.Forest.{an_op, Entity as PlainEntity};
ghost use Rattle.ir_model.specs.Nesting.{IsLive};
ghost use Rattle.ir_core_context.specs.State.{forest_of};
ghost use Rattle.ir_core_queries.specs.Entities.{meant};
ghost use Rattle.ir_view.specs.Operations.{op_of};
ghost use Rattle.ir_view.specs.Orders.{IsPostOrder, IsPreorder};

use crate::entities::{EntitiesInside, inside, inside_preorder};
use ir_base_dialects::{Dialects, Ptr};
use ir_core_queries::{Context, Entity, Operation};
use std::marker::Model;

/// The operations inside an entity, each once.
///
/// A contract sees it as the list of the operations that are left.
pub struct OpsInside<'a, D: Dialects> {
    entities: EntitiesInside<'a, D>,
}

impl<'a, D: Dialects> Model for OpsInside<'a, D> {
    ghost use Rattle.std.specs.Prelude.{List};
    ghost use Rattle.std.specs.List.{filter_map};
    ghost use Rattle.ir_model.specs.declared.ids.ArenaIndex.{ArenaIndex};
    ghost use Rattle.ir_view.specs.Operations.{op_of};

    ghost Value = { List ArenaIndex };

    ghost view = { λ it. filter_map op_of it.entities };
}

impl<'a, D: Dialects> Drop for OpsInside<'a, D> {
    fn drop(self) {
        let OpsInside { entities: _ } = self;
    }
}

/// The operations inside a live entity in post-order: each after those inside it. Where the entity is an operation, it is the last.
pub fn ops_inside<D: Dialects>(ctx: &Context<D>, entity: Entity<D>) -> OpsInside<'_, D>
    requires { IsLive (forest_of ctx.now) (meant entity) }
    ensures order { (all : List (PlainEntity context_ids)) × IsPostOrder (forest_of ctx.now) (meant entity) all × (result ≡ filter_map op_of all) }
    ensures live { All (λ o. IsLive (forest_of ctx.now) (an_op o)) result }
{
    OpsInside {
        entities: inside(ctx, entity),
    }
}

/// The operations inside a live entity in preorder: each before those inside it. Where the entity is an operation, it is the first.
pub fn ops_inside_preorder<D: Dialects>(ctx: &Context<D>, entity: Entity<D>) -> OpsInside<'_, D>
    requires { IsLive (forest_of ctx.now) (meant entity) }
    ensures order { (all : List (PlainEntity context_ids)) × IsPreorder (forest_of ctx.now) (meant entity) all × (result ≡ filter_map op_of all) }
    ensures live { All (λ o. IsLive (forest_of ctx.now) (an_op o)) result }
{
    OpsInside {
        entities: inside_preorder(ctx, entity),
    }
}

impl<'a, D: Dialects> Iterator for OpsInside<'a, D> {
    type Item = Ptr<Operation<D>>;

    ghost can_next = { λ _. ⊤ };

    ghost next_gives = { YieldsFirstBy (λ p. p.index) (λ xs. xs) };

    ghost remaining = { item_count (λ xs. xs) };

    fn next(&mut self) -> Option<Ptr<Operation<D>>> {
        while let Some(entity) = self.entities.next() {
            if let Entity::Op(op) = entity {
                return Some(op);
            }
        }
        None
    }
}
