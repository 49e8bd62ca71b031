//! Walks over all that stands inside an entity, and lists that a pass may keep while it edits.

ghost use Rattle.std.specs.List.{filter_map};
ghost use Rattle.std.specs.Prelude.{All, IfErr, IfOk, List, map, ◌≡◌};
ghost use Rattle.ir_checked_core.specs.Answers.{Answers, Made, out_of_memory, own_answer, own_value, unless};
ghost use Rattle.ir_checked_core.specs.Dead.{dead_entity};
ghost use Rattle.ir_core_context.specs.State.{forest_of};
ghost use Rattle.ir_core_queries.specs.Entities.{meant};
ghost use Rattle.ir_model.specs.ContextIds.{context_ids};
ghost use Rattle.ir_model.specs.Forest.{Entity as PlainEntity, a_block, a_region, an_op};
ghost use Rattle.ir_model.specs.Nesting.{IsLive, blocks_of, ops_of};
ghost use Rattle.ir_model.specs.Subtree.{ListsSubtree};
ghost use Rattle.ir_view.specs.Operations.{op_of};
ghost use Rattle.ir_view.specs.Orders.{IsPostOrder, IsPreorder};

use ir_base_dialects::{Dialects, Ptr};
use ir_checked_core::{Call, CheckedErr, Condition, Unmet, fault};
use ir_core_queries::{BasicBlock, BlockPtr, Context, Entity, Operation, Region, RegionPtr};
use ir_view::walk::{EntitiesInside, OpsInside, is_live};

/// All that stands inside a live entity, the entity among them, in post-order: what stands in an entity comes before it.
///
/// # Errors
/// `Unmet` where the entity isn't live.
pub fn inside<D: Dialects>(
    ctx: &Context<D>,
    entity: Entity<D>,
) -> Result<EntitiesInside<'_, D>, CheckedErr>
    ensures conditions { Answers Call.WalkInside result (unless (IsLive (forest_of ctx.now) (meant entity)) (dead_entity entity) own_value) }
    ensures order { IfOk result (λ answer. IsPostOrder (forest_of ctx.now) (meant entity) answer) }
    ensures each { IfOk result (λ answer. ListsSubtree (forest_of ctx.now) (meant entity) answer) }
    ensures live { IfOk result (λ answer. All (λ e. IsLive (forest_of ctx.now) e) answer) }
{
    if !is_live(ctx, entity) {
        return Err(CheckedErr::Unmet(Unmet {
            call: Call::WalkInside,
            condition: Condition::dead(entity),
        }));
    }
    Ok(ir_view::walk::inside(ctx, entity))
}

/// All that stands inside a live entity, the entity among them, in preorder: an entity comes before what stands in it.
///
/// # Errors
/// `Unmet` where the entity isn't live.
pub fn inside_preorder<D: Dialects>(
    ctx: &Context<D>,
    entity: Entity<D>,
) -> Result<EntitiesInside<'_, D>, CheckedErr>
    ensures conditions { Answers Call.WalkInsidePreorder result (unless (IsLive (forest_of ctx.now) (meant entity)) (dead_entity entity) own_value) }
    ensures order { IfOk result (λ answer. IsPreorder (forest_of ctx.now) (meant entity) answer) }
    ensures each { IfOk result (λ answer. ListsSubtree (forest_of ctx.now) (meant entity) answer) }
    ensures live { IfOk result (λ answer. All (λ e. IsLive (forest_of ctx.now) e) answer) }
{
    if !is_live(ctx, entity) {
        return Err(CheckedErr::Unmet(Unmet {
            call: Call::WalkInsidePreorder,
            condition: Condition::dead(entity),
        }));
    }
    Ok(ir_view::walk::inside_preorder(ctx, entity))
}

/// The operations inside a live entity in post-order: each after those inside it.
///
/// # Errors
/// `Unmet` where the entity isn't live.
pub fn ops_inside<D: Dialects>(
    ctx: &Context<D>,
    entity: Entity<D>,
) -> Result<OpsInside<'_, D>, CheckedErr>
    ensures conditions { Answers Call.WalkOpsInside result (unless (IsLive (forest_of ctx.now) (meant entity)) (dead_entity entity) own_value) }
    ensures order { IfOk result (λ answer. (all : List (PlainEntity context_ids)) × IsPostOrder (forest_of ctx.now) (meant entity) all × (answer ≡ filter_map op_of all)) }
    ensures live { IfOk result (λ answer. All (λ o. IsLive (forest_of ctx.now) (an_op o)) answer) }
{
    if !is_live(ctx, entity) {
        return Err(CheckedErr::Unmet(Unmet {
            call: Call::WalkOpsInside,
            condition: Condition::dead(entity),
        }));
    }
    Ok(ir_view::walk::ops_inside(ctx, entity))
}

/// The operations inside a live entity in preorder: each before those inside it.
///
/// # Errors
/// `Unmet` where the entity isn't live.
pub fn ops_inside_preorder<D: Dialects>(
    ctx: &Context<D>,
    entity: Entity<D>,
) -> Result<OpsInside<'_, D>, CheckedErr>
    ensures conditions { Answers Call.WalkOpsInsidePreorder result (unless (IsLive (forest_of ctx.now) (meant entity)) (dead_entity entity) own_value) }
    ensures order { IfOk result (λ answer. (all : List (PlainEntity context_ids)) × IsPreorder (forest_of ctx.now) (meant entity) all × (answer ≡ filter_map op_of all)) }
    ensures live { IfOk result (λ answer. All (λ o. IsLive (forest_of ctx.now) (an_op o)) answer) }
{
    if !is_live(ctx, entity) {
        return Err(CheckedErr::Unmet(Unmet {
            call: Call::WalkOpsInsidePreorder,
            condition: Condition::dead(entity),
        }));
    }
    Ok(ir_view::walk::ops_inside_preorder(ctx, entity))
}

/// The operations of a live block, in order.
///
/// # Errors
/// `Unmet` where the block isn't live. Else what the call itself is refused for.
pub fn ops_of<D: Dialects>(
    ctx: &Context<D>,
    block: Ptr<BasicBlock<D>>,
) -> Result<Vec<Ptr<Operation<D>>>, CheckedErr>
    ensures conditions { Answers Call.WalkOpsOf result (unless (IsLive (forest_of ctx.now) (a_block block.index)) Condition.DeadBlock own_answer) }
    ensures listed { IfOk result (λ ops. map (λ p. p.index) ops.items ≡ ops_of (forest_of ctx.now) block.index) }
    ensures live { IfOk result (λ ops. All (λ p. IsLive (forest_of ctx.now) (an_op p.index)) ops.items) }
    ensures memory { Made result (IfErr result (λ e. e ≡ out_of_memory)) }
{
    if !block.is_live(ctx) {
        return Err(fault!(WalkOpsOf, DeadBlock));
    }
    match ir_view::walk::ops_of(ctx, block) {
        Ok(answer) => Ok(answer),
        Err(error) => Err(CheckedErr::Core(error)),
    }
}

/// The blocks of a live region, in order.
///
/// # Errors
/// `Unmet` where the region isn't live. Else what the call itself is refused for.
pub fn blocks_of<D: Dialects>(
    ctx: &Context<D>,
    region: Ptr<Region>,
) -> Result<Vec<Ptr<BasicBlock<D>>>, CheckedErr>
    ensures conditions { Answers Call.WalkBlocksOf result (unless (IsLive (forest_of ctx.now) (a_region region.index)) Condition.DeadRegion own_answer) }
    ensures listed { IfOk result (λ blocks. map (λ p. p.index) blocks.items ≡ blocks_of (forest_of ctx.now) region.index) }
    ensures live { IfOk result (λ blocks. All (λ p. IsLive (forest_of ctx.now) (a_block p.index)) blocks.items) }
    ensures memory { Made result (IfErr result (λ e. e ≡ out_of_memory)) }
{
    if !region.is_live(ctx) {
        return Err(fault!(WalkBlocksOf, DeadRegion));
    }
    match ir_view::walk::blocks_of(ctx, region) {
        Ok(answer) => Ok(answer),
        Err(error) => Err(CheckedErr::Core(error)),
    }
}

/// All that stands inside a live entity, the entity among them, in post-order, as `inside` gives it.
///
/// # Errors
/// `Unmet` where the entity isn't live. Else what the call itself is refused for.
pub fn all_inside<D: Dialects>(
    ctx: &Context<D>,
    entity: Entity<D>,
) -> Result<Vec<Entity<D>>, CheckedErr>
    ensures conditions { Answers Call.WalkAllInside result (unless (IsLive (forest_of ctx.now) (meant entity)) (dead_entity entity) own_answer) }
    ensures order { IfOk result (λ entities. IsPostOrder (forest_of ctx.now) (meant entity) (map meant entities.items)) }
    ensures each { IfOk result (λ entities. ListsSubtree (forest_of ctx.now) (meant entity) (map meant entities.items)) }
    ensures live { IfOk result (λ entities. All (λ e. IsLive (forest_of ctx.now) (meant e)) entities.items) }
    ensures memory { Made result (IfErr result (λ e. e ≡ out_of_memory)) }
{
    if !is_live(ctx, entity) {
        return Err(CheckedErr::Unmet(Unmet {
            call: Call::WalkAllInside,
            condition: Condition::dead(entity),
        }));
    }
    match ir_view::walk::all_inside(ctx, entity) {
        Ok(answer) => Ok(answer),
        Err(error) => Err(CheckedErr::Core(error)),
    }
}
