//! The calls of a region, by its handle.

ghost use Rattle.std.specs.List.{list_any};
ghost use Rattle.std.specs.Option.{option_map};
ghost use Rattle.std.specs.Prelude.{All, IfErr, IfOk, IfSome, OnErr, OnOk, Some, if◌then◌else◌, ◌≡◌};
ghost use Rattle.ir_checked_core.specs.Answers.{Answers, Made, OnRefused, OnUnmet, out_of_memory, own_answer, own_value, unless};
ghost use Rattle.ir_core_context.specs.Calls.{IsRegion, KeepsAll, SameButForest};
ghost use Rattle.ir_core_context.specs.State.{bare, forest_of};
ghost use Rattle.ir_core_queries.specs.Above.{IsAbove};
ghost use Rattle.ir_core_records.specs.DialectAnswers.{behaviour_of, kinds_of};
ghost use Rattle.ir_model.specs.Changes.{DropsUses, append_blocks, move_region as moved};
ghost use Rattle.ir_model.specs.ContextIds.{same_id};
ghost use Rattle.ir_model.specs.Edits.{MayJoin};
ghost use Rattle.ir_model.specs.Forest.{a_block, a_region, an_op};
ghost use Rattle.ir_model.specs.Kinds.{IsDominance};
ghost use Rattle.ir_model.specs.Nesting.{In, Inside, IsLive, blocks_of, regions_of};
ghost use Rattle.ir_model.specs.Parent.{IsIndex, IsParent, first_of, last_of};

use crate::asked::may_join;
use crate::error::{Call, CheckedErr, Condition, fault};
use ir_base_dialects::{Dialects, Iter, Ptr};
use ir_core_queries::{
    BasicBlock, BlockContainer, Context, DropUses, Entity, Operation, OperationPtr, Region,
    RegionMoves, RegionPlace, RegionPtr, is_inside,
};

/// The region under a live handle. The operation that it belongs to is live.
///
/// # Errors
/// `Unmet` where the region isn't live.
pub fn deref<D: Dialects>(region: Ptr<Region>, ctx: &Context<D>) -> Result<&Region, CheckedErr>
    ensures conditions { Answers Call.RegionDeref result (unless (IsLive (forest_of ctx.now) (a_region region.index)) Condition.DeadRegion own_value) }
    ensures found { IfOk result (λ answer. IsRegion (forest_of ctx.now) region.index answer.now) }
{
    if !region.is_live(ctx) {
        return Err(fault!(RegionDeref, DeadRegion));
    }
    Ok(region.deref(ctx))
}

/// The operation that a live region belongs to.
///
/// # Errors
/// `Unmet` where the region isn't live.
pub fn get_parent_op<D: Dialects>(
    region: Ptr<Region>,
    ctx: &Context<D>,
) -> Result<Ptr<Operation<D>>, CheckedErr>
    ensures conditions { Answers Call.RegionGetParentOp result (unless (IsLive (forest_of ctx.now) (a_region region.index)) Condition.DeadRegion own_value) }
    ensures parent { IfOk result (λ answer. IsParent (forest_of ctx.now) (a_region region.index) (Some (an_op answer.index))) }
    ensures live { IfOk result (λ answer. IsLive (forest_of ctx.now) (an_op answer.index)) }
{
    if !region.is_live(ctx) {
        return Err(fault!(RegionGetParentOp, DeadRegion));
    }
    Ok(region.get_parent_op(ctx))
}

/// The block that the operation of the live region stands in, if there is one.
///
/// # Errors
/// `Unmet` where the region isn't live.
pub fn get_parent_block<D: Dialects>(
    region: Ptr<Region>,
    ctx: &Context<D>,
) -> Result<Option<Ptr<BasicBlock<D>>>, CheckedErr>
    ensures conditions { Answers Call.RegionGetParentBlock result (unless (IsLive (forest_of ctx.now) (a_region region.index)) Condition.DeadRegion own_value) }
    ensures above { IfOk result (λ answer. IsAbove (forest_of ctx.now) 2 (a_region region.index) (option_map (λ p. a_block p.index) answer)) }
    ensures live { IfOk result (λ answer. IfSome answer (λ p. IsLive (forest_of ctx.now) (a_block p.index))) }
{
    if !region.is_live(ctx) {
        return Err(fault!(RegionGetParentBlock, DeadRegion));
    }
    Ok(region.get_parent_block(ctx))
}

/// The region that the operation of the live region stands in, if there is one.
///
/// # Errors
/// `Unmet` where the region isn't live.
pub fn get_parent_region<D: Dialects>(
    region: Ptr<Region>,
    ctx: &Context<D>,
) -> Result<Option<Ptr<Region>>, CheckedErr>
    ensures conditions { Answers Call.RegionGetParentRegion result (unless (IsLive (forest_of ctx.now) (a_region region.index)) Condition.DeadRegion own_value) }
    ensures above { IfOk result (λ answer. IsAbove (forest_of ctx.now) 3 (a_region region.index) (option_map (λ p. a_region p.index) answer)) }
    ensures live { IfOk result (λ answer. IfSome answer (λ p. IsLive (forest_of ctx.now) (a_region p.index))) }
{
    if !region.is_live(ctx) {
        return Err(fault!(RegionGetParentRegion, DeadRegion));
    }
    Ok(region.get_parent_region(ctx))
}

/// The entry of the live region: its first block, if it has one.
///
/// # Errors
/// `Unmet` where the region isn't live.
pub fn get_entry_block<D: Dialects>(
    region: Ptr<Region>,
    ctx: &Context<D>,
) -> Result<Option<Ptr<BasicBlock<D>>>, CheckedErr>
    ensures conditions { Answers Call.RegionGetEntryBlock result (unless (IsLive (forest_of ctx.now) (a_region region.index)) Condition.DeadRegion own_value) }
    ensures first { IfOk result (λ answer. option_map (λ p. p.index) answer ≡ first_of (blocks_of (forest_of ctx.now) region.index)) }
    ensures live { IfOk result (λ answer. IfSome answer (λ p. IsLive (forest_of ctx.now) (a_block p.index))) }
{
    if !region.is_live(ctx) {
        return Err(fault!(RegionGetEntryBlock, DeadRegion));
    }
    Ok(region.get_entry_block(ctx))
}

/// The first block of the live region, if it has one.
///
/// # Errors
/// `Unmet` where the region isn't live.
pub fn get_head<D: Dialects>(
    region: Ptr<Region>,
    ctx: &Context<D>,
) -> Result<Option<Ptr<BasicBlock<D>>>, CheckedErr>
    ensures conditions { Answers Call.RegionGetHead result (unless (IsLive (forest_of ctx.now) (a_region region.index)) Condition.DeadRegion own_value) }
    ensures first { IfOk result (λ answer. option_map (λ p. p.index) answer ≡ first_of (blocks_of (forest_of ctx.now) region.index)) }
    ensures live { IfOk result (λ answer. IfSome answer (λ p. IsLive (forest_of ctx.now) (a_block p.index))) }
{
    if !region.is_live(ctx) {
        return Err(fault!(RegionGetHead, DeadRegion));
    }
    Ok(region.get_head(ctx))
}

/// The last block of the live region, if it has one.
///
/// # Errors
/// `Unmet` where the region isn't live.
pub fn get_tail<D: Dialects>(
    region: Ptr<Region>,
    ctx: &Context<D>,
) -> Result<Option<Ptr<BasicBlock<D>>>, CheckedErr>
    ensures conditions { Answers Call.RegionGetTail result (unless (IsLive (forest_of ctx.now) (a_region region.index)) Condition.DeadRegion own_value) }
    ensures last { IfOk result (λ answer. option_map (λ p. p.index) answer ≡ last_of (blocks_of (forest_of ctx.now) region.index)) }
    ensures live { IfOk result (λ answer. IfSome answer (λ p. IsLive (forest_of ctx.now) (a_block p.index))) }
{
    if !region.is_live(ctx) {
        return Err(fault!(RegionGetTail, DeadRegion));
    }
    Ok(region.get_tail(ctx))
}

/// The blocks of the live region in order, walked from both ends.
///
/// # Errors
/// `Unmet` where the region isn't live.
pub fn iter<D: Dialects>(
    region: Ptr<Region>,
    ctx: &Context<D>,
) -> Result<Iter<'_, BasicBlock<D>>, CheckedErr>
    ensures conditions { Answers Call.RegionIter result (unless (IsLive (forest_of ctx.now) (a_region region.index)) Condition.DeadRegion own_value) }
    ensures items { IfOk result (λ answer. answer ≡ blocks_of (forest_of ctx.now) region.index) }
    ensures live { IfOk result (λ answer. All (λ b. IsLive (forest_of ctx.now) (a_block b)) answer) }
{
    if !region.is_live(ctx) {
        return Err(fault!(RegionIter, DeadRegion));
    }
    Ok(region.iter(ctx))
}

/// Where the live region stands among the regions of its operation, counted from 0.
///
/// # Errors
/// `Unmet` where the region isn't live.
pub fn find_index_in_parent<D: Dialects>(
    region: Ptr<Region>,
    ctx: &Context<D>,
) -> Result<usize, CheckedErr>
    ensures conditions { Answers Call.RegionFindIndexInParent result (unless (IsLive (forest_of ctx.now) (a_region region.index)) Condition.DeadRegion own_value) }
    ensures found { IfOk result (λ answer. IsIndex (forest_of ctx.now) (a_region region.index) answer) }
{
    if !region.is_live(ctx) {
        return Err(fault!(RegionFindIndexInParent, DeadRegion));
    }
    Ok(region.find_index_in_parent(ctx))
}

/// Whether the live region has SSA dominance: yes where the kind of its operation doesn't implement `REGION_KIND`, and else what the dialect answers for that kind and the region's index.
///
/// # Errors
/// `Unmet` where the region isn't live.
pub fn has_ssa_dominance<D: Dialects>(
    region: Ptr<Region>,
    ctx: &Context<D>,
) -> Result<bool, CheckedErr>
    ensures conditions { Answers Call.RegionHasSsaDominance result (unless (IsLive (forest_of ctx.now) (a_region region.index)) Condition.DeadRegion own_value) }
    ensures found { IfOk result (λ answer. IsDominance (behaviour_of D.Dialects D.TypeKey.eq) (kinds_of D.Dialects D.Saved.eq) (forest_of ctx.now) region.index answer) }
{
    if !region.is_live(ctx) {
        return Err(fault!(RegionHasSsaDominance, DeadRegion));
    }
    Ok(region.has_ssa_dominance(ctx))
}

/// Moves all blocks of the donor behind those of this region, and leaves the donor empty. They are two regions, of which neither is inside a block of the donor.
///
/// # Errors
/// `Unmet` where the region isn't live, the donor isn't live, or it is the donor or stands inside it.
pub fn append_linked_list<D: Dialects>(
    region: Ptr<Region>,
    ctx: &mut Context<D>,
    donor: Ptr<Region>,
) -> Result<(), CheckedErr>
    ensures conditions { Answers Call.RegionAppendLinkedList result (unless (IsLive (forest_of ctx.old) (a_region region.index)) Condition.DeadRegion (unless (IsLive (forest_of ctx.old) (a_region donor.index)) Condition.DeadRegion (unless (MayJoin (forest_of ctx.old) (a_region region.index) (a_region donor.index)) Condition.InsideItself own_value))) }
    ensures forest { OnOk result (forest_of ctx.new ≡ append_blocks (forest_of ctx.old) region.index donor.index (blocks_of (forest_of ctx.old) donor.index)) }
    ensures rest { OnOk result (SameButForest (bare ctx.old) (bare ctx.new)) }
    ensures keeps { OnOk result (KeepsAll ctx.old ctx.new) }
    ensures err { OnErr result (ctx.new ≡ ctx.old) }
{
    if !region.is_live(ctx) {
        return Err(fault!(RegionAppendLinkedList, DeadRegion));
    }
    if !donor.is_live(ctx) {
        return Err(fault!(RegionAppendLinkedList, DeadRegion));
    }
    if !may_join(ctx, Entity::Region(region), Entity::Region(donor)) {
        return Err(fault!(RegionAppendLinkedList, InsideItself));
    }
    region.append_linked_list(ctx, donor);
    Ok(())
}

/// Moves the region to the back of the regions of a live operation that isn't inside it; one that is there already stays where it is. The regions left behind keep their order.
///
/// # Errors
/// `Unmet` where the region isn't live, the operation isn't live, or it would stand inside itself. Else what the call itself is refused for.
pub fn move_to_op<D: Dialects>(
    region: Ptr<Region>,
    op: Ptr<Operation<D>>,
    ctx: &mut Context<D>,
) -> Result<(), CheckedErr>
    ensures conditions { Answers Call.RegionMoveToOp result (unless (IsLive (forest_of ctx.old) (a_region region.index)) Condition.DeadRegion (unless (IsLive (forest_of ctx.old) (an_op op.index)) Condition.DeadOperation (unless (¬ Inside (forest_of ctx.old) (a_region region.index) (an_op op.index)) Condition.InsideItself own_answer))) }
    ensures forest { OnOk result (forest_of ctx.new ≡ (if list_any (λ g. same_id g region.index) (regions_of (forest_of ctx.old) op.index) then forest_of ctx.old else moved (forest_of ctx.old) region.index op.index)) }
    ensures same { OnRefused result (forest_of ctx.new ≡ forest_of ctx.old) }
    ensures elsewhere { OnRefused result (¬ In region.index (regions_of (forest_of ctx.old) op.index)) }
    ensures rest { Made result (SameButForest (bare ctx.old) (bare ctx.new)) }
    ensures keeps { Made result (KeepsAll ctx.old ctx.new) }
    ensures memory { Made result (IfErr result (λ e. e ≡ out_of_memory)) }
    ensures unmet { OnUnmet result (ctx.new ≡ ctx.old) }
{
    if !region.is_live(ctx) {
        return Err(fault!(RegionMoveToOp, DeadRegion));
    }
    if !op.is_live(ctx) {
        return Err(fault!(RegionMoveToOp, DeadOperation));
    }
    if is_inside(ctx, Entity::Op(op), Entity::Region(region)) {
        return Err(fault!(RegionMoveToOp, InsideItself));
    }
    match region.move_to_op(op, ctx) {
        Ok(answer) => Ok(answer),
        Err(error) => Err(CheckedErr::Core(error)),
    }
}

/// Takes the operands and successors of all operations inside out.
///
/// # Errors
/// `Unmet` where the region isn't live.
pub fn drop_all_uses<D: Dialects>(
    region: Ptr<Region>,
    ctx: &mut Context<D>,
) -> Result<(), CheckedErr>
    ensures conditions { Answers Call.RegionDropAllUses result (unless (IsLive (forest_of ctx.old) (a_region region.index)) Condition.DeadRegion own_value) }
    ensures forest { OnOk result (DropsUses (forest_of ctx.old) (a_region region.index) (forest_of ctx.new)) }
    ensures rest { OnOk result (SameButForest (bare ctx.old) (bare ctx.new)) }
    ensures keeps { OnOk result (KeepsAll ctx.old ctx.new) }
    ensures err { OnErr result (ctx.new ≡ ctx.old) }
{
    if !region.is_live(ctx) {
        return Err(fault!(RegionDropAllUses, DeadRegion));
    }
    region.drop_all_uses(ctx);
    Ok(())
}
