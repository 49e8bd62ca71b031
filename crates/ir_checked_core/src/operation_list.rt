//! Operations in the lists of blocks: put in, taken out, and moved from one list to another.

ghost use Rattle.std.specs.Prelude.{OnErr, OnOk, [], ◌++◌, ◌∷◌, ◌≡◌};
ghost use Rattle.ir_checked_core.specs.Answers.{Answers, own_value, unless};
ghost use Rattle.ir_core_context.specs.Calls.{KeepsAll, SameButForest};
ghost use Rattle.ir_core_context.specs.GoingBack.{OpGoesBack, OpMayGoBack};
ghost use Rattle.ir_core_context.specs.State.{bare, forest_of};
ghost use Rattle.ir_model.specs.Changes.{append_ops, in_blocks, on_block, on_ops, put_after, put_before, without};
ghost use Rattle.ir_model.specs.ContextIds.{same_id};
ghost use Rattle.ir_model.specs.Edits.{MayGoBeside, MayJoin};
ghost use Rattle.ir_model.specs.Forest.{a_block, an_op};
ghost use Rattle.ir_model.specs.Nesting.{Inside, IsLinked, IsLive, ops_of};

use crate::asked::{may_join, op_may_go_beside};
use crate::error::{Call, CheckedErr, Condition, fault};
use ir_base_dialects::{Dialects, Ptr};
use ir_core_queries::{
    BasicBlock, BlockPtr, Context, Entity, Operation, OperationContainer, OperationList,
    OperationPlace, OperationPtr, is_inside,
};

/// Puts the operation at the front of the block's list. It is in no list yet, and the block isn't inside it.
///
/// # Errors
/// `Unmet` where the operation isn't live, the block that it would stand in isn't live, it stands in a list already, or it would stand inside itself.
pub fn insert_at_front<D: Dialects>(
    op: Ptr<Operation<D>>,
    container: Ptr<BasicBlock<D>>,
    ctx: &mut Context<D>,
) -> Result<(), CheckedErr>
    ensures conditions { Answers Call.OperationInsertAtFront result (unless (IsLive (forest_of ctx.old) (an_op op.index)) Condition.DeadOperation (unless (IsLive (forest_of ctx.old) (a_block container.index)) Condition.DeadBlock (unless (¬ IsLinked (forest_of ctx.old) (an_op op.index)) Condition.Linked (unless (¬ Inside (forest_of ctx.old) (an_op op.index) (a_block container.index)) Condition.InsideItself own_value)))) }
    ensures forest { OnOk result (forest_of ctx.new ≡ on_block (forest_of ctx.old) container.index (on_ops (λ os. op.index ∷ os))) }
    ensures rest { OnOk result (SameButForest (bare ctx.old) (bare ctx.new)) }
    ensures keeps { OnOk result (KeepsAll ctx.old ctx.new) }
    ensures err { OnErr result (ctx.new ≡ ctx.old) }
{
    if !op.is_live(ctx) {
        return Err(fault!(OperationInsertAtFront, DeadOperation));
    }
    if !container.is_live(ctx) {
        return Err(fault!(OperationInsertAtFront, DeadBlock));
    }
    if op.is_linked(ctx) {
        return Err(fault!(OperationInsertAtFront, Linked));
    }
    if is_inside(ctx, Entity::Block(container), Entity::Op(op)) {
        return Err(fault!(OperationInsertAtFront, InsideItself));
    }
    op.insert_at_front(container, ctx);
    Ok(())
}

/// Puts the operation at the back of the block's list. It is in no list yet, and the block isn't inside it.
///
/// # Errors
/// `Unmet` where the operation isn't live, the block that it would stand in isn't live, it stands in a list already, or it would stand inside itself.
pub fn insert_at_back<D: Dialects>(
    op: Ptr<Operation<D>>,
    container: Ptr<BasicBlock<D>>,
    ctx: &mut Context<D>,
) -> Result<(), CheckedErr>
    ensures conditions { Answers Call.OperationInsertAtBack result (unless (IsLive (forest_of ctx.old) (an_op op.index)) Condition.DeadOperation (unless (IsLive (forest_of ctx.old) (a_block container.index)) Condition.DeadBlock (unless (¬ IsLinked (forest_of ctx.old) (an_op op.index)) Condition.Linked (unless (¬ Inside (forest_of ctx.old) (an_op op.index) (a_block container.index)) Condition.InsideItself own_value)))) }
    ensures forest { OnOk result (forest_of ctx.new ≡ on_block (forest_of ctx.old) container.index (on_ops (λ os. os ++ op.index ∷ []))) }
    ensures rest { OnOk result (SameButForest (bare ctx.old) (bare ctx.new)) }
    ensures keeps { OnOk result (KeepsAll ctx.old ctx.new) }
    ensures err { OnErr result (ctx.new ≡ ctx.old) }
{
    if !op.is_live(ctx) {
        return Err(fault!(OperationInsertAtBack, DeadOperation));
    }
    if !container.is_live(ctx) {
        return Err(fault!(OperationInsertAtBack, DeadBlock));
    }
    if op.is_linked(ctx) {
        return Err(fault!(OperationInsertAtBack, Linked));
    }
    if is_inside(ctx, Entity::Block(container), Entity::Op(op)) {
        return Err(fault!(OperationInsertAtBack, InsideItself));
    }
    op.insert_at_back(container, ctx);
    Ok(())
}

/// Puts the operation right before the mark, which is in a list. It is in no list yet, and the mark's block isn't inside it.
///
/// # Errors
/// `Unmet` where the operation isn't live, the mark isn't live, the mark stands in no list, it stands in a list already, or it would stand inside itself.
pub fn insert_before<D: Dialects>(
    op: Ptr<Operation<D>>,
    ctx: &mut Context<D>,
    mark: Ptr<Operation<D>>,
) -> Result<(), CheckedErr>
    ensures conditions { Answers Call.OperationInsertBefore result (unless (IsLive (forest_of ctx.old) (an_op op.index)) Condition.DeadOperation (unless (IsLive (forest_of ctx.old) (an_op mark.index)) Condition.DeadOperation (unless (IsLinked (forest_of ctx.old) (an_op mark.index)) Condition.Unlinked (unless (¬ IsLinked (forest_of ctx.old) (an_op op.index)) Condition.Linked (unless (MayGoBeside (forest_of ctx.old) (an_op op.index) (an_op mark.index)) Condition.InsideItself own_value))))) }
    ensures forest { OnOk result (forest_of ctx.new ≡ in_blocks (forest_of ctx.old) (put_before same_id op.index mark.index)) }
    ensures rest { OnOk result (SameButForest (bare ctx.old) (bare ctx.new)) }
    ensures keeps { OnOk result (KeepsAll ctx.old ctx.new) }
    ensures err { OnErr result (ctx.new ≡ ctx.old) }
{
    if !op.is_live(ctx) {
        return Err(fault!(OperationInsertBefore, DeadOperation));
    }
    if !mark.is_live(ctx) {
        return Err(fault!(OperationInsertBefore, DeadOperation));
    }
    if !mark.is_linked(ctx) {
        return Err(fault!(OperationInsertBefore, Unlinked));
    }
    if op.is_linked(ctx) {
        return Err(fault!(OperationInsertBefore, Linked));
    }
    if !op_may_go_beside(ctx, op, mark) {
        return Err(fault!(OperationInsertBefore, InsideItself));
    }
    op.insert_before(ctx, mark);
    Ok(())
}

/// Puts the operation right after the mark, which is in a list. It is in no list yet, and the mark's block isn't inside it.
///
/// # Errors
/// `Unmet` where the operation isn't live, the mark isn't live, the mark stands in no list, it stands in a list already, or it would stand inside itself.
pub fn insert_after<D: Dialects>(
    op: Ptr<Operation<D>>,
    ctx: &mut Context<D>,
    mark: Ptr<Operation<D>>,
) -> Result<(), CheckedErr>
    ensures conditions { Answers Call.OperationInsertAfter result (unless (IsLive (forest_of ctx.old) (an_op op.index)) Condition.DeadOperation (unless (IsLive (forest_of ctx.old) (an_op mark.index)) Condition.DeadOperation (unless (IsLinked (forest_of ctx.old) (an_op mark.index)) Condition.Unlinked (unless (¬ IsLinked (forest_of ctx.old) (an_op op.index)) Condition.Linked (unless (MayGoBeside (forest_of ctx.old) (an_op op.index) (an_op mark.index)) Condition.InsideItself own_value))))) }
    ensures forest { OnOk result (forest_of ctx.new ≡ in_blocks (forest_of ctx.old) (put_after same_id op.index mark.index)) }
    ensures rest { OnOk result (SameButForest (bare ctx.old) (bare ctx.new)) }
    ensures keeps { OnOk result (KeepsAll ctx.old ctx.new) }
    ensures err { OnErr result (ctx.new ≡ ctx.old) }
{
    if !op.is_live(ctx) {
        return Err(fault!(OperationInsertAfter, DeadOperation));
    }
    if !mark.is_live(ctx) {
        return Err(fault!(OperationInsertAfter, DeadOperation));
    }
    if !mark.is_linked(ctx) {
        return Err(fault!(OperationInsertAfter, Unlinked));
    }
    if op.is_linked(ctx) {
        return Err(fault!(OperationInsertAfter, Linked));
    }
    if !op_may_go_beside(ctx, op, mark) {
        return Err(fault!(OperationInsertAfter, InsideItself));
    }
    op.insert_after(ctx, mark);
    Ok(())
}

/// Takes the operation out of the list that it is in.
///
/// # Errors
/// `Unmet` where the operation isn't live, or it stands in no list.
pub fn unlink<D: Dialects>(op: Ptr<Operation<D>>, ctx: &mut Context<D>) -> Result<(), CheckedErr>
    ensures conditions { Answers Call.OperationUnlink result (unless (IsLive (forest_of ctx.old) (an_op op.index)) Condition.DeadOperation (unless (IsLinked (forest_of ctx.old) (an_op op.index)) Condition.Unlinked own_value)) }
    ensures forest { OnOk result (forest_of ctx.new ≡ in_blocks (forest_of ctx.old) (without same_id op.index)) }
    ensures rest { OnOk result (SameButForest (bare ctx.old) (bare ctx.new)) }
    ensures keeps { OnOk result (KeepsAll ctx.old ctx.new) }
    ensures may_go_back { OnOk result (OpMayGoBack (forest_of ctx.old) (forest_of ctx.new) op.index) }
    ensures goes_back { OnOk result (OpGoesBack (forest_of ctx.old) (forest_of ctx.new) op.index) }
    ensures err { OnErr result (ctx.new ≡ ctx.old) }
{
    if !op.is_live(ctx) {
        return Err(fault!(OperationUnlink, DeadOperation));
    }
    if !op.is_linked(ctx) {
        return Err(fault!(OperationUnlink, Unlinked));
    }
    op.unlink(ctx);
    Ok(())
}

/// Moves all operations of the donor behind those of this block, and leaves the donor empty. They are two blocks, of which neither is inside an operation of the donor.
///
/// # Errors
/// `Unmet` where the block isn't live, the donor isn't live, or it is the donor or stands inside it.
pub fn append_linked_list<D: Dialects>(
    block: Ptr<BasicBlock<D>>,
    ctx: &mut Context<D>,
    donor: Ptr<BasicBlock<D>>,
) -> Result<(), CheckedErr>
    ensures conditions { Answers Call.BlockAppendLinkedList result (unless (IsLive (forest_of ctx.old) (a_block block.index)) Condition.DeadBlock (unless (IsLive (forest_of ctx.old) (a_block donor.index)) Condition.DeadBlock (unless (MayJoin (forest_of ctx.old) (a_block block.index) (a_block donor.index)) Condition.InsideItself own_value))) }
    ensures forest { OnOk result (forest_of ctx.new ≡ append_ops (forest_of ctx.old) block.index donor.index (ops_of (forest_of ctx.old) donor.index)) }
    ensures rest { OnOk result (SameButForest (bare ctx.old) (bare ctx.new)) }
    ensures keeps { OnOk result (KeepsAll ctx.old ctx.new) }
    ensures err { OnErr result (ctx.new ≡ ctx.old) }
{
    if !block.is_live(ctx) {
        return Err(fault!(BlockAppendLinkedList, DeadBlock));
    }
    if !donor.is_live(ctx) {
        return Err(fault!(BlockAppendLinkedList, DeadBlock));
    }
    if !may_join(ctx, Entity::Block(block), Entity::Block(donor)) {
        return Err(fault!(BlockAppendLinkedList, InsideItself));
    }
    block.append_linked_list(ctx, donor);
    Ok(())
}
