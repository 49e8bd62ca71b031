//! The removal of unreached blocks from all regions inside an operation.
//!
//! The regions are listed first, each before those inside it, and then treated in that order. A region that went with an unreached block around it isn't treated.

ghost use Rattle.std.specs.Prelude.{◌≡◌, ◌↔◌, ℕ, All, IfErr, IfOk, IsTrue, OnErr, OnOk, map};
ghost use Rattle.ir_model.specs.declared.error.CoreError.TheVariants.{OutOfMemory};
ghost use Rattle.ir_model.specs.declared.ids.ArenaIndex.{ArenaIndex};
ghost use Rattle.ir_model.specs.Forest.{a_region, an_op};
ghost use Rattle.ir_model.specs.Nesting.{In, Inside, IsLive};
ghost use Rattle.ir_core_queries.specs.Calls.{SameButForest};
ghost use Rattle.ir_model_passes.specs.Unreached.{NamesStayInside};
ghost use Rattle.ir_core_queries.specs.Entities.{meant};
ghost use Rattle.ir_core_queries.specs.State.{bare, forest_of};
ghost use Rattle.ir_run_unreached.specs.Inside.{NamesStayInsideEach, RemovesSomeInside, RemovesUnreachedInside, Treats};
ghost use Rattle.ir_run_unreached.specs.Marks.{Adds};

use crate::condition::can_remove_unreached;
use crate::removing::{recall_nested, remove_unreached};
use ir_base_dialects::{CoreError, Dialects, Ptr};
use ir_core_queries::{Context, Entity, Operation, Region, RegionPtr};
use ir_view::walk::inside_preorder;

// Puts an entity that is a region at the end of the list.
fn push_region<D: Dialects>(
    entity: Entity<D>,
    regions: &mut Vec<Ptr<Region>>,
) -> Result<(), CoreError>
    ensures pushed { OnOk result (Adds (λ r. a_region r ≡ meant entity) (map (λ p. p.index) regions.old.items) (map (λ p. p.index) regions.new.items)) }
    ensures memory { IfErr result (λ e. e ≡ OutOfMemory) }
{
    match entity {
        Entity::Region(region) => {
            regions.push(region)?;
            Ok(())
        }
        Entity::Op(_) => Ok(()),
        Entity::Block(_) => Ok(()),
    }
}

// The regions inside a live operation, each before those inside it.
fn regions_inside<D: Dialects>(
    ctx: &Context<D>,
    root: Ptr<Operation<D>>,
) -> Result<Vec<Ptr<Region>>, CoreError>
    requires { IsLive (forest_of ctx.now) (an_op root.index) }
    ensures listed { IfOk result (λ regions. (r : ArenaIndex) → In r (map (λ p. p.index) regions.items) ↔ Inside (forest_of ctx.now) (an_op root.index) (a_region r)) }
    ensures memory { IfErr result (λ e. e ≡ OutOfMemory) }
{
    let mut regions = Vec::new(ctx.alloc());
    for entity in inside_preorder(ctx, Entity::Op(root)) {
        push_region(entity, &mut regions)?;
    }
    Ok(regions)
}

// Whether the unreached blocks of each of these live regions can be removed.
fn can_remove_each<D: Dialects>(
    ctx: &Context<D>,
    regions: &[Ptr<Region>],
) -> Result<bool, CoreError>
    requires { All (λ p. IsLive (forest_of ctx.now) (a_region p.index)) regions.now }
    ensures exact { IfOk result (λ can. IsTrue can ↔ ((r : ArenaIndex) → In r (map (λ p. p.index) regions.now) → NamesStayInside (forest_of ctx.now) r)) }
    ensures memory { IfErr result (λ e. e ≡ OutOfMemory) }
{
    for region in regions {
        let can = can_remove_unreached(*region, ctx)?;
        if !can {
            return Ok(false);
        }
    }
    Ok(true)
}

/// Whether the unreached blocks of each region inside a live operation can be removed: of each, whether whatever names a definition inside an unreached block is inside one. It tests what `remove_unreached_inside` asks for.
///
/// It asks `can_remove_unreached` of each region.
///
/// # Errors
/// `OutOfMemory`.
pub fn can_remove_unreached_inside<D: Dialects>(
    root: Ptr<Operation<D>>,
    ctx: &Context<D>,
) -> Result<bool, CoreError>
    requires { IsLive (forest_of ctx.now) (an_op root.index) }
    ensures exact { IfOk result (λ can. IsTrue can ↔ NamesStayInsideEach (an_op root.index) (forest_of ctx.now)) }
    ensures memory { IfErr result (λ e. e ≡ OutOfMemory) }
{
    ctx.recall_well_formed();
    let regions = regions_inside(ctx, root)?;
    let can = can_remove_each(ctx, regions.as_slice())?;
    Ok(can)
}

// Removes the unreached blocks of a region, if it is live.
fn treat<D: Dialects>(region: Ptr<Region>, ctx: &mut Context<D>) -> Result<(), CoreError>
    requires { IsLive (forest_of ctx.old) (a_region region.index) → NamesStayInside (forest_of ctx.old) region.index }
    ensures treated { OnOk result (Treats (forest_of ctx.old) region.index (forest_of ctx.new)) }
    ensures unchanged { OnErr result (ctx.new ≡ ctx.old) }
    ensures memory { IfErr result (λ e. e ≡ OutOfMemory) }
    ensures rest { SameButForest (bare ctx.old) (bare ctx.new) }
{
    if !region.is_live(ctx) {
        return Ok(());
    }
    remove_unreached(region, ctx)?;
    Ok(())
}

// Removes the unreached blocks of these regions, which are all inside the root, in this order.
fn treat_each<D: Dialects>(
    ctx: &mut Context<D>,
    root: Ptr<Operation<D>>,
    regions: &[Ptr<Region>],
) -> Result<(), CoreError>
    requires listed { (r : ArenaIndex) → In r (map (λ p. p.index) regions.now) ↔ Inside (forest_of ctx.old) (an_op root.index) (a_region r) }
    requires names { NamesStayInsideEach (an_op root.index) (forest_of ctx.old) }
    ensures removed { OnOk result ((count : ℕ) × RemovesUnreachedInside (an_op root.index) (forest_of ctx.old) (forest_of ctx.new) count) }
    ensures partly { OnErr result ((count : ℕ) × RemovesSomeInside (an_op root.index) (forest_of ctx.old) (forest_of ctx.new) count) }
    ensures memory { IfErr result (λ e. e ≡ OutOfMemory) }
    ensures rest { SameButForest (bare ctx.old) (bare ctx.new) }
{
    let _root = root.index;
    for region in regions {
        ctx.recall_well_formed();
        treat(*region, ctx)?;
        recall_nested(ctx);
    }
    Ok(())
}

/// Removes the unreached blocks of all regions inside a live operation, of each as `remove_unreached` does.
///
/// An outer region is treated before those inside it, and what is inside an unreached block isn't treated but goes. Afterwards no region inside the operation has an unreached block. Effects in unreached blocks go. pliron has no such call.
///
/// # Errors
/// `OutOfMemory`. Then some of the regions were treated, and the others are as they were.
pub fn remove_unreached_inside<D: Dialects>(
    root: Ptr<Operation<D>>,
    ctx: &mut Context<D>,
) -> Result<(), CoreError>
    requires live { IsLive (forest_of ctx.old) (an_op root.index) }
    requires names { NamesStayInsideEach (an_op root.index) (forest_of ctx.old) }
    ensures removed { OnOk result ((count : ℕ) × RemovesUnreachedInside (an_op root.index) (forest_of ctx.old) (forest_of ctx.new) count) }
    ensures partly { OnErr result ((count : ℕ) × RemovesSomeInside (an_op root.index) (forest_of ctx.old) (forest_of ctx.new) count) }
    ensures memory { IfErr result (λ e. e ≡ OutOfMemory) }
    ensures rest { SameButForest (bare ctx.old) (bare ctx.new) }
{
    let regions = regions_inside(ctx, root)?;
    treat_each(ctx, root, regions.as_slice())
}
