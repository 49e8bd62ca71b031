//! Passes: sweeps and mergings of all that stands inside an operation or a block, and removals of unreached blocks.

ghost use Rattle.std.specs.Prelude.{IfErr, IfOk, IsTrue, OnErr, OnOk, ℕ, ◌≡◌, ◌↔◌};
ghost use Rattle.ir_base_dialects.specs.Attributes.{same_pairs};
ghost use Rattle.ir_checked_core.specs.Answers.{Answers, Made, OnRefused, OnUnmet, or_out_of_memory, out_of_memory, own_answer, own_value, unless};
ghost use Rattle.ir_core_context.specs.Calls.{SameButForest};
ghost use Rattle.ir_core_context.specs.State.{bare, forest_of};
ghost use Rattle.ir_core_records.specs.DialectAnswers.{behaviour_of};
ghost use Rattle.ir_model.specs.declared.ids.ArenaIndex.{ArenaIndex};
ghost use Rattle.ir_model.specs.Forest.{a_block, a_region, an_op};
ghost use Rattle.ir_model.specs.Nesting.{IsLive};
ghost use Rattle.ir_model_passes.specs.Merging.{MergesBrokenOff};
ghost use Rattle.ir_model_passes.specs.MergingInside.{MergesCommon, MergesInside, MergesInsideBrokenOff};
ghost use Rattle.ir_model_passes.specs.SweepInside.{NoneIsClosedInside, SweepsInside};
ghost use Rattle.ir_model_passes.specs.Unreached.{IsUnreached, NamesStayInside, RemovesUnreached};
ghost use Rattle.ir_run_unreached.specs.Inside.{NamesStayInsideEach, RemovesSomeInside, RemovesUnreachedInside};

use ir_base_dialects::{Dialects, Ptr};
use ir_checked_core::{Call, CheckedErr, Condition, fault};
use ir_core_queries::{BasicBlock, BlockPtr, Context, Operation, OperationPtr, Region, RegionPtr};

/// Removes the dead operations anywhere inside a live operation, with all that stands inside them, and answers how many operations are gone.
///
/// # Errors
/// `Unmet` where the root isn't live.
pub fn sweep_inside<D: Dialects>(
    root: Ptr<Operation<D>>,
    ctx: &mut Context<D>,
) -> Result<usize, CheckedErr>
    ensures conditions { Answers Call.PassesSweepInside result (unless (IsLive (forest_of ctx.old) (an_op root.index)) Condition.DeadOperation own_value) }
    ensures swept { IfOk result (λ gone. SweepsInside (behaviour_of D.Dialects D.TypeKey.eq) (forest_of ctx.old) (an_op root.index) (forest_of ctx.new) gone) }
    ensures none_can_go { OnOk result (NoneIsClosedInside (behaviour_of D.Dialects D.TypeKey.eq) (an_op root.index) (forest_of ctx.new)) }
    ensures rest { OnOk result (SameButForest (bare ctx.old) (bare ctx.new)) }
    ensures live { OnOk result (IsLive (forest_of ctx.new) (an_op root.index)) }
    ensures err { OnErr result (ctx.new ≡ ctx.old) }
{
    if !root.is_live(ctx) {
        return Err(fault!(PassesSweepInside, DeadOperation));
    }
    Ok(ir_run_passes::sweep_inside(root, ctx))
}

/// Merges the alike operations of a live block that is in order, and answers how many went; `None` where the block isn't in order, and then nothing is done.
///
/// # Errors
/// `Unmet` where the block isn't live. Else what the call itself is refused for, which may leave some merged.
pub fn merge_common<D: Dialects>(
    block: Ptr<BasicBlock<D>>,
    ctx: &mut Context<D>,
) -> Result<Option<usize>, CheckedErr>
    ensures conditions { Answers Call.PassesMergeCommon result (unless (IsLive (forest_of ctx.old) (a_block block.index)) Condition.DeadBlock own_answer) }
    ensures merged { IfOk result (MergesCommon (behaviour_of D.Dialects D.TypeKey.eq) (same_pairs D.Attr.eq) (forest_of ctx.old) block.index (forest_of ctx.new)) }
    ensures broken_off { OnRefused result (MergesBrokenOff (behaviour_of D.Dialects D.TypeKey.eq) (same_pairs D.Attr.eq) block.index (forest_of ctx.old) (forest_of ctx.new)) }
    ensures memory { Made result (IfErr result (λ e. e ≡ out_of_memory)) }
    ensures rest { Made result (SameButForest (bare ctx.old) (bare ctx.new)) }
    ensures live { Made result (IsLive (forest_of ctx.new) (a_block block.index)) }
    ensures unmet { OnUnmet result (ctx.new ≡ ctx.old) }
{
    if !block.is_live(ctx) {
        return Err(fault!(PassesMergeCommon, DeadBlock));
    }
    match ir_run_passes::merge_common(block, ctx) {
        Ok(merged) => Ok(merged),
        Err(error) => Err(CheckedErr::Core(error)),
    }
}

/// Merges the alike operations of each block inside a live operation, and answers how many went in all.
///
/// # Errors
/// `Unmet` where the root isn't live. Else what the call itself is refused for, which may leave some merged.
pub fn merge_common_inside<D: Dialects>(
    root: Ptr<Operation<D>>,
    ctx: &mut Context<D>,
) -> Result<usize, CheckedErr>
    ensures conditions { Answers Call.PassesMergeCommonInside result (unless (IsLive (forest_of ctx.old) (an_op root.index)) Condition.DeadOperation own_answer) }
    ensures merged { IfOk result (MergesInside (behaviour_of D.Dialects D.TypeKey.eq) (same_pairs D.Attr.eq) (forest_of ctx.old) (an_op root.index) (forest_of ctx.new)) }
    ensures broken_off { OnRefused result (MergesInsideBrokenOff (behaviour_of D.Dialects D.TypeKey.eq) (same_pairs D.Attr.eq) (forest_of ctx.old) (an_op root.index) (forest_of ctx.new)) }
    ensures memory { Made result (IfErr result (λ e. e ≡ out_of_memory)) }
    ensures rest { Made result (SameButForest (bare ctx.old) (bare ctx.new)) }
    ensures live { Made result (IsLive (forest_of ctx.new) (an_op root.index)) }
    ensures unmet { OnUnmet result (ctx.new ≡ ctx.old) }
{
    if !root.is_live(ctx) {
        return Err(fault!(PassesMergeCommonInside, DeadOperation));
    }
    match ir_run_passes::merge_common_inside(root, ctx) {
        Ok(merged) => Ok(merged),
        Err(error) => Err(CheckedErr::Core(error)),
    }
}

/// Whether the unreached blocks of a live region can be removed: whether whatever names a definition inside one is inside one.
///
/// # Errors
/// `Unmet` where the region isn't live. Else what the call itself is refused for.
pub fn can_remove_unreached<D: Dialects>(
    region: Ptr<Region>,
    ctx: &Context<D>,
) -> Result<bool, CheckedErr>
    ensures conditions { Answers Call.PassesCanRemoveUnreached result (unless (IsLive (forest_of ctx.now) (a_region region.index)) Condition.DeadRegion own_answer) }
    ensures exact { IfOk result (λ can. IsTrue can ↔ NamesStayInside (forest_of ctx.now) region.index) }
    ensures memory { Made result (IfErr result (λ e. e ≡ out_of_memory)) }
{
    if !region.is_live(ctx) {
        return Err(fault!(PassesCanRemoveUnreached, DeadRegion));
    }
    match ir_run_unreached::can_remove_unreached(region, ctx) {
        Ok(can) => Ok(can),
        Err(error) => Err(CheckedErr::Core(error)),
    }
}

/// Whether the unreached blocks of each region inside a live operation can be removed.
///
/// # Errors
/// `Unmet` where the root isn't live. Else what the call itself is refused for.
pub fn can_remove_unreached_inside<D: Dialects>(
    root: Ptr<Operation<D>>,
    ctx: &Context<D>,
) -> Result<bool, CheckedErr>
    ensures conditions { Answers Call.PassesCanRemoveUnreachedInside result (unless (IsLive (forest_of ctx.now) (an_op root.index)) Condition.DeadOperation own_answer) }
    ensures exact { IfOk result (λ can. IsTrue can ↔ NamesStayInsideEach (an_op root.index) (forest_of ctx.now)) }
    ensures memory { Made result (IfErr result (λ e. e ≡ out_of_memory)) }
{
    if !root.is_live(ctx) {
        return Err(fault!(PassesCanRemoveUnreachedInside, DeadOperation));
    }
    match ir_run_unreached::can_remove_unreached_inside(root, ctx) {
        Ok(can) => Ok(can),
        Err(error) => Err(CheckedErr::Core(error)),
    }
}

/// Removes the blocks of a live region that are not reached, with all that stands inside them, and answers how many blocks of the region went.
///
/// # Errors
/// `Unmet` where the region isn't live, and where something else names what is defined inside an unreached block, which it tests with memory. Else what the call itself is refused for. Nothing has changed then.
pub fn remove_unreached<D: Dialects>(
    region: Ptr<Region>,
    ctx: &mut Context<D>,
) -> Result<usize, CheckedErr>
    ensures conditions { Answers Call.PassesRemoveUnreached result (unless (IsLive (forest_of ctx.old) (a_region region.index)) Condition.DeadRegion (or_out_of_memory (unless (NamesStayInside (forest_of ctx.old) region.index) Condition.NotClosed own_answer))) }
    ensures removed { IfOk result (λ count. RemovesUnreached (forest_of ctx.old) region.index (forest_of ctx.new) count) }
    ensures none_left { OnOk result ((b : ArenaIndex) → IsUnreached (forest_of ctx.new) region.index b → ⊥) }
    ensures memory { Made result (IfErr result (λ e. e ≡ out_of_memory)) }
    ensures rest { OnOk result (SameButForest (bare ctx.old) (bare ctx.new)) }
    ensures err { OnErr result (ctx.new ≡ ctx.old) }
{
    if !region.is_live(ctx) {
        return Err(fault!(PassesRemoveUnreached, DeadRegion));
    }
    let can = match ir_run_unreached::can_remove_unreached(region, ctx) {
        Ok(can) => can,
        Err(error) => return Err(CheckedErr::Core(error)),
    };
    if !can {
        return Err(fault!(PassesRemoveUnreached, NotClosed));
    }
    match ir_run_unreached::remove_unreached(region, ctx) {
        Ok(count) => Ok(count),
        Err(error) => Err(CheckedErr::Core(error)),
    }
}

/// Removes the unreached blocks of all regions inside a live operation.
///
/// # Errors
/// `Unmet` where the root isn't live, and where something else names what is defined inside an unreached block, which it tests with memory: then nothing has changed. Else what the call itself is refused for, which may leave some regions treated.
pub fn remove_unreached_inside<D: Dialects>(
    root: Ptr<Operation<D>>,
    ctx: &mut Context<D>,
) -> Result<(), CheckedErr>
    ensures conditions { Answers Call.PassesRemoveUnreachedInside result (unless (IsLive (forest_of ctx.old) (an_op root.index)) Condition.DeadOperation (or_out_of_memory (unless (NamesStayInsideEach (an_op root.index) (forest_of ctx.old)) Condition.NotClosed own_answer))) }
    ensures removed { OnOk result ((count : ℕ) × RemovesUnreachedInside (an_op root.index) (forest_of ctx.old) (forest_of ctx.new) count) }
    ensures partly { OnRefused result ((count : ℕ) × RemovesSomeInside (an_op root.index) (forest_of ctx.old) (forest_of ctx.new) count) }
    ensures memory { Made result (IfErr result (λ e. e ≡ out_of_memory)) }
    ensures rest { Made result (SameButForest (bare ctx.old) (bare ctx.new)) }
    ensures unmet { OnUnmet result (ctx.new ≡ ctx.old) }
{
    if !root.is_live(ctx) {
        return Err(fault!(PassesRemoveUnreachedInside, DeadOperation));
    }
    let can = match ir_run_unreached::can_remove_unreached_inside(root, ctx) {
        Ok(can) => can,
        Err(error) => return Err(CheckedErr::Core(error)),
    };
    if !can {
        return Err(fault!(PassesRemoveUnreachedInside, NotClosed));
    }
    match ir_run_unreached::remove_unreached_inside(root, ctx) {
        Ok(()) => Ok(()),
        Err(error) => Err(CheckedErr::Core(error)),
    }
}
