//! Blocks in the lists of regions: put in, taken out, and moved from one list to another.

ghost use Rattle.std.specs.Prelude.{OnErr, OnOk, [], ◌++◌, ◌∷◌, ◌≡◌};
ghost use Rattle.ir_checked_core.specs.Answers.{Answers, own_value, unless};
ghost use Rattle.ir_core_context.specs.Calls.{KeepsAll, SameButForest};
ghost use Rattle.ir_core_context.specs.GoingBack.{BlockGoesBack, BlockMayGoBack};
ghost use Rattle.ir_core_context.specs.State.{bare, forest_of};
ghost use Rattle.ir_model.specs.Changes.{in_regions, on_region, put_after, put_before, without};
ghost use Rattle.ir_model.specs.ContextIds.{same_id};
ghost use Rattle.ir_model.specs.Edits.{MayGoBeside};
ghost use Rattle.ir_model.specs.Forest.{a_block, a_region};
ghost use Rattle.ir_model.specs.Nesting.{Inside, IsLinked, IsLive};

use crate::asked::block_may_go_beside;
use crate::error::{Call, CheckedErr, Condition, fault};
use ir_base_dialects::{Dialects, Ptr};
use ir_core_queries::{
    BasicBlock, BlockList, BlockPlace, BlockPtr, Context, Entity, Region, RegionPtr, is_inside,
};

/// Puts the block at the front of the region's list. It is in no list yet, and the region isn't inside it.
///
/// # Errors
/// `Unmet` where the block isn't live, the region that it would stand in isn't live, it stands in a list already, or it would stand inside itself.
pub fn insert_at_front<D: Dialects>(
    block: Ptr<BasicBlock<D>>,
    container: Ptr<Region>,
    ctx: &mut Context<D>,
) -> Result<(), CheckedErr>
    ensures conditions { Answers Call.BlockInsertAtFront result (unless (IsLive (forest_of ctx.old) (a_block block.index)) Condition.DeadBlock (unless (IsLive (forest_of ctx.old) (a_region container.index)) Condition.DeadRegion (unless (¬ IsLinked (forest_of ctx.old) (a_block block.index)) Condition.Linked (unless (¬ Inside (forest_of ctx.old) (a_block block.index) (a_region container.index)) Condition.InsideItself own_value)))) }
    ensures forest { OnOk result (forest_of ctx.new ≡ on_region (forest_of ctx.old) container.index (λ bs. block.index ∷ bs)) }
    ensures rest { OnOk result (SameButForest (bare ctx.old) (bare ctx.new)) }
    ensures keeps { OnOk result (KeepsAll ctx.old ctx.new) }
    ensures err { OnErr result (ctx.new ≡ ctx.old) }
{
    if !block.is_live(ctx) {
        return Err(fault!(BlockInsertAtFront, DeadBlock));
    }
    if !container.is_live(ctx) {
        return Err(fault!(BlockInsertAtFront, DeadRegion));
    }
    if block.is_linked(ctx) {
        return Err(fault!(BlockInsertAtFront, Linked));
    }
    if is_inside(ctx, Entity::Region(container), Entity::Block(block)) {
        return Err(fault!(BlockInsertAtFront, InsideItself));
    }
    block.insert_at_front(container, ctx);
    Ok(())
}

/// Puts the block at the back of the region's list. It is in no list yet, and the region isn't inside it.
///
/// # Errors
/// `Unmet` where the block isn't live, the region that it would stand in isn't live, it stands in a list already, or it would stand inside itself.
pub fn insert_at_back<D: Dialects>(
    block: Ptr<BasicBlock<D>>,
    container: Ptr<Region>,
    ctx: &mut Context<D>,
) -> Result<(), CheckedErr>
    ensures conditions { Answers Call.BlockInsertAtBack result (unless (IsLive (forest_of ctx.old) (a_block block.index)) Condition.DeadBlock (unless (IsLive (forest_of ctx.old) (a_region container.index)) Condition.DeadRegion (unless (¬ IsLinked (forest_of ctx.old) (a_block block.index)) Condition.Linked (unless (¬ Inside (forest_of ctx.old) (a_block block.index) (a_region container.index)) Condition.InsideItself own_value)))) }
    ensures forest { OnOk result (forest_of ctx.new ≡ on_region (forest_of ctx.old) container.index (λ bs. bs ++ block.index ∷ [])) }
    ensures rest { OnOk result (SameButForest (bare ctx.old) (bare ctx.new)) }
    ensures keeps { OnOk result (KeepsAll ctx.old ctx.new) }
    ensures err { OnErr result (ctx.new ≡ ctx.old) }
{
    if !block.is_live(ctx) {
        return Err(fault!(BlockInsertAtBack, DeadBlock));
    }
    if !container.is_live(ctx) {
        return Err(fault!(BlockInsertAtBack, DeadRegion));
    }
    if block.is_linked(ctx) {
        return Err(fault!(BlockInsertAtBack, Linked));
    }
    if is_inside(ctx, Entity::Region(container), Entity::Block(block)) {
        return Err(fault!(BlockInsertAtBack, InsideItself));
    }
    block.insert_at_back(container, ctx);
    Ok(())
}

/// Puts the block right before the mark, which is in a list. It is in no list yet, and the mark's region isn't inside it.
///
/// # Errors
/// `Unmet` where the block isn't live, the mark isn't live, the mark stands in no list, it stands in a list already, or it would stand inside itself.
pub fn insert_before<D: Dialects>(
    block: Ptr<BasicBlock<D>>,
    ctx: &mut Context<D>,
    mark: Ptr<BasicBlock<D>>,
) -> Result<(), CheckedErr>
    ensures conditions { Answers Call.BlockInsertBefore result (unless (IsLive (forest_of ctx.old) (a_block block.index)) Condition.DeadBlock (unless (IsLive (forest_of ctx.old) (a_block mark.index)) Condition.DeadBlock (unless (IsLinked (forest_of ctx.old) (a_block mark.index)) Condition.Unlinked (unless (¬ IsLinked (forest_of ctx.old) (a_block block.index)) Condition.Linked (unless (MayGoBeside (forest_of ctx.old) (a_block block.index) (a_block mark.index)) Condition.InsideItself own_value))))) }
    ensures forest { OnOk result (forest_of ctx.new ≡ in_regions (forest_of ctx.old) (put_before same_id block.index mark.index)) }
    ensures rest { OnOk result (SameButForest (bare ctx.old) (bare ctx.new)) }
    ensures keeps { OnOk result (KeepsAll ctx.old ctx.new) }
    ensures err { OnErr result (ctx.new ≡ ctx.old) }
{
    if !block.is_live(ctx) {
        return Err(fault!(BlockInsertBefore, DeadBlock));
    }
    if !mark.is_live(ctx) {
        return Err(fault!(BlockInsertBefore, DeadBlock));
    }
    if !mark.is_linked(ctx) {
        return Err(fault!(BlockInsertBefore, Unlinked));
    }
    if block.is_linked(ctx) {
        return Err(fault!(BlockInsertBefore, Linked));
    }
    if !block_may_go_beside(ctx, block, mark) {
        return Err(fault!(BlockInsertBefore, InsideItself));
    }
    block.insert_before(ctx, mark);
    Ok(())
}

/// Puts the block right after the mark, which is in a list. It is in no list yet, and the mark's region isn't inside it.
///
/// # Errors
/// `Unmet` where the block isn't live, the mark isn't live, the mark stands in no list, it stands in a list already, or it would stand inside itself.
pub fn insert_after<D: Dialects>(
    block: Ptr<BasicBlock<D>>,
    ctx: &mut Context<D>,
    mark: Ptr<BasicBlock<D>>,
) -> Result<(), CheckedErr>
    ensures conditions { Answers Call.BlockInsertAfter result (unless (IsLive (forest_of ctx.old) (a_block block.index)) Condition.DeadBlock (unless (IsLive (forest_of ctx.old) (a_block mark.index)) Condition.DeadBlock (unless (IsLinked (forest_of ctx.old) (a_block mark.index)) Condition.Unlinked (unless (¬ IsLinked (forest_of ctx.old) (a_block block.index)) Condition.Linked (unless (MayGoBeside (forest_of ctx.old) (a_block block.index) (a_block mark.index)) Condition.InsideItself own_value))))) }
    ensures forest { OnOk result (forest_of ctx.new ≡ in_regions (forest_of ctx.old) (put_after same_id block.index mark.index)) }
    ensures rest { OnOk result (SameButForest (bare ctx.old) (bare ctx.new)) }
    ensures keeps { OnOk result (KeepsAll ctx.old ctx.new) }
    ensures err { OnErr result (ctx.new ≡ ctx.old) }
{
    if !block.is_live(ctx) {
        return Err(fault!(BlockInsertAfter, DeadBlock));
    }
    if !mark.is_live(ctx) {
        return Err(fault!(BlockInsertAfter, DeadBlock));
    }
    if !mark.is_linked(ctx) {
        return Err(fault!(BlockInsertAfter, Unlinked));
    }
    if block.is_linked(ctx) {
        return Err(fault!(BlockInsertAfter, Linked));
    }
    if !block_may_go_beside(ctx, block, mark) {
        return Err(fault!(BlockInsertAfter, InsideItself));
    }
    block.insert_after(ctx, mark);
    Ok(())
}

/// Takes the block out of the list that it is in.
///
/// # Errors
/// `Unmet` where the block isn't live, or it stands in no list.
pub fn unlink<D: Dialects>(
    block: Ptr<BasicBlock<D>>,
    ctx: &mut Context<D>,
) -> Result<(), CheckedErr>
    ensures conditions { Answers Call.BlockUnlink result (unless (IsLive (forest_of ctx.old) (a_block block.index)) Condition.DeadBlock (unless (IsLinked (forest_of ctx.old) (a_block block.index)) Condition.Unlinked own_value)) }
    ensures forest { OnOk result (forest_of ctx.new ≡ in_regions (forest_of ctx.old) (without same_id block.index)) }
    ensures rest { OnOk result (SameButForest (bare ctx.old) (bare ctx.new)) }
    ensures keeps { OnOk result (KeepsAll ctx.old ctx.new) }
    ensures may_go_back { OnOk result (BlockMayGoBack (forest_of ctx.old) (forest_of ctx.new) block.index) }
    ensures goes_back { OnOk result (BlockGoesBack (forest_of ctx.old) (forest_of ctx.new) block.index) }
    ensures err { OnErr result (ctx.new ≡ ctx.old) }
{
    if !block.is_live(ctx) {
        return Err(fault!(BlockUnlink, DeadBlock));
    }
    if !block.is_linked(ctx) {
        return Err(fault!(BlockUnlink, Unlinked));
    }
    block.unlink(ctx);
    Ok(())
}
