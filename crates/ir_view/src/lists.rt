//! Lists of handles, that a pass may keep while it edits. Each takes memory.

ghost use Rattle.std.specs.Prelude.{◌≡◌, All, map, IfOk, IfErr};
ghost use Rattle.ir_model.specs.Forest.{a_block, a_region, an_op};
ghost use Rattle.ir_model.specs.Nesting.{blocks_of, IsLive, ops_of};
ghost use Rattle.ir_model.specs.Subtree.{ListsSubtree};
ghost use Rattle.ir_core_context.specs.State.{forest_of};
ghost use Rattle.ir_core_queries.specs.Entities.{meant};
ghost use Rattle.ir_view.specs.Orders.{IsPostOrder};

use crate::entities::inside;
use ir_base_dialects::{CoreError, Dialects, Ptr};
use ir_core_queries::{BasicBlock, BlockPlace, Context, Entity, Operation, Region, RegionPlace};

/// The operations of a live block, in order.
///
/// # Errors
/// `OutOfMemory`.
pub fn ops_of<D: Dialects>(
    ctx: &Context<D>,
    block: Ptr<BasicBlock<D>>,
) -> Result<Vec<Ptr<Operation<D>>>, CoreError>
    requires { IsLive (forest_of ctx.now) (a_block block.index) }
    ensures listed { IfOk result (λ ops. map (λ p. p.index) ops.items ≡ ops_of (forest_of ctx.now) block.index) }
    ensures live { IfOk result (λ ops. All (λ p. IsLive (forest_of ctx.now) (an_op p.index)) ops.items) }
    ensures memory { IfErr result (λ e. e ≡ CoreError.OutOfMemory) }
{
    let mut ops = Vec::new(ctx.alloc());
    for op in block.iter(ctx) {
        ops.push(op)?;
    }
    Ok(ops)
}

/// The blocks of a live region, in order.
///
/// # Errors
/// `OutOfMemory`.
pub fn blocks_of<D: Dialects>(
    ctx: &Context<D>,
    region: Ptr<Region>,
) -> Result<Vec<Ptr<BasicBlock<D>>>, CoreError>
    requires { IsLive (forest_of ctx.now) (a_region region.index) }
    ensures listed { IfOk result (λ blocks. map (λ p. p.index) blocks.items ≡ blocks_of (forest_of ctx.now) region.index) }
    ensures live { IfOk result (λ blocks. All (λ p. IsLive (forest_of ctx.now) (a_block p.index)) blocks.items) }
    ensures memory { IfErr result (λ e. e ≡ CoreError.OutOfMemory) }
{
    let mut blocks = Vec::new(ctx.alloc());
    for block in region.iter(ctx) {
        blocks.push(block)?;
    }
    Ok(blocks)
}

/// All that stands inside a live entity, the entity among them, in post-order, as `inside` gives it.
///
/// # Errors
/// `OutOfMemory`.
pub fn all_inside<D: Dialects>(
    ctx: &Context<D>,
    entity: Entity<D>,
) -> Result<Vec<Entity<D>>, CoreError>
    requires { IsLive (forest_of ctx.now) (meant entity) }
    ensures order { IfOk result (λ entities. IsPostOrder (forest_of ctx.now) (meant entity) (map meant entities.items)) }
    ensures each { IfOk result (λ entities. ListsSubtree (forest_of ctx.now) (meant entity) (map meant entities.items)) }
    ensures live { IfOk result (λ entities. All (λ e. IsLive (forest_of ctx.now) (meant e)) entities.items) }
    ensures memory { IfErr result (λ e. e ≡ CoreError.OutOfMemory) }
{
    let mut entities = Vec::new(ctx.alloc());
    for found in inside(ctx, entity) {
        entities.push(found)?;
    }
    Ok(entities)
}
