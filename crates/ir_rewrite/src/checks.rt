//! Which condition of a call doesn't hold, if one doesn't. Each is tested once, and nothing changes.

ghost use Rattle.std.specs.Prelude.{◌≡◌, ◌↔◌, All, IsOk, IsTrue, length};
ghost use Rattle.ir_checked_core.specs.Answers.{Made, own_value};
ghost use Rattle.ir_model.specs.ContextIds.{context_ids};
ghost use Rattle.ir_model.specs.Forest.{a_block, a_region, a_value, an_op, definer_entity, of_op};
ghost use Rattle.ir_model.specs.Nesting.{IsClosed, IsLive, IsLiveNamed, definitions_of, regions_of};
ghost use Rattle.ir_core_context.specs.State.{forest_of};
ghost use Rattle.ir_core_queries.specs.Entities.{meant};
ghost use Rattle.ir_core_records.specs.Meaning.{value_of};
ghost use Rattle.ir_rewrite.specs.Answers.{EraseAnswers, InsertAnswers, InsertBesideAnswers, InsertIntoAnswers, MoveAnswers, ReplaceAnswers};
ghost use Rattle.ir_rewrite.specs.Points.{MayGoAt, MayMoveBeside, StandsOutside};
ghost use Rattle.ir_rewrite.specs.Replacing.{IsOutside, MayReplace};

use crate::items::item_at;
use crate::point::InsertionPoint;
use ir_base_dialects::{Dialects, Ptr};
use ir_checked_core::{Call, CheckedErr, Condition, Unmet};
use ir_core_queries::{
    BasicBlock, BlockPtr, Context, DefiningEntity, Entity, Operation, OperationPlace, OperationPtr,
    Value, ValueQueries, can_erase, is_inside,
};

// That this condition of this call doesn't hold.
fn unmet(call: Call, condition: Condition) -> CheckedErr
    ensures { result ≡ CheckedErr.Unmet (record { call = call; condition = condition }) }
{
    CheckedErr::Unmet(Unmet { call, condition })
}

// Whether the mark stands in a block that isn't inside the operation.
fn stands_outside<D: Dialects>(
    ctx: &Context<D>,
    mark: Ptr<Operation<D>>,
    op: Ptr<Operation<D>>,
) -> bool
    requires { IsLive (forest_of ctx.now) (an_op mark.index) }
    ensures { IsTrue result ↔ StandsOutside (forest_of ctx.now) mark.index op.index }
{
    ctx.recall_well_formed();
    match mark.get_parent_block(ctx) {
        Some(block) => !is_inside(ctx, Entity::Block(block), Entity::Op(op)),
        None => false,
    }
}

// That the operation can be put into the list of the block by this call.
fn check_insert_into<D: Dialects>(
    ctx: &Context<D>,
    op: Ptr<Operation<D>>,
    block: Ptr<BasicBlock<D>>,
    call: Call,
) -> Result<(), CheckedErr>
    ensures { InsertIntoAnswers call (forest_of ctx.now) op.index block.index own_value result }
{
    if !op.is_live(ctx) {
        return Err(unmet(call, Condition::DeadOperation));
    }
    if !block.is_live(ctx) {
        return Err(unmet(call, Condition::DeadBlock));
    }
    if op.is_linked(ctx) {
        return Err(unmet(call, Condition::Linked));
    }
    if is_inside(ctx, Entity::Block(block), Entity::Op(op)) {
        return Err(unmet(call, Condition::InsideItself));
    }
    Ok(())
}

// That the operation can be put beside the mark by this call.
fn check_insert_beside<D: Dialects>(
    ctx: &Context<D>,
    op: Ptr<Operation<D>>,
    mark: Ptr<Operation<D>>,
    call: Call,
) -> Result<(), CheckedErr>
    ensures { InsertBesideAnswers call (forest_of ctx.now) op.index mark.index own_value result }
{
    if !op.is_live(ctx) {
        return Err(unmet(call, Condition::DeadOperation));
    }
    if !mark.is_live(ctx) {
        return Err(unmet(call, Condition::DeadOperation));
    }
    if !mark.is_linked(ctx) {
        return Err(unmet(call, Condition::Unlinked));
    }
    if op.is_linked(ctx) {
        return Err(unmet(call, Condition::Linked));
    }
    if !stands_outside(ctx, mark, op) {
        return Err(unmet(call, Condition::InsideItself));
    }
    Ok(())
}

// That the operation can be put in at the point.
pub(crate) fn check_insert<D: Dialects>(
    ctx: &Context<D>,
    op: Ptr<Operation<D>>,
    point: InsertionPoint<D>,
) -> Result<(), CheckedErr>
    ensures conditions { InsertAnswers (forest_of ctx.now) point op.index own_value result }
    ensures may { IsOk result ↔ MayGoAt (forest_of ctx.now) point op.index }
    ensures told { Made result (IsOk result) }
{
    ctx.recall_well_formed();
    match point {
        InsertionPoint::AtBlockStart(block) => {
            check_insert_into(ctx, op, block, Call::OperationInsertAtFront)
        }
        InsertionPoint::AtBlockEnd(block) => {
            check_insert_into(ctx, op, block, Call::OperationInsertAtBack)
        }
        InsertionPoint::BeforeOperation(mark) => {
            check_insert_beside(ctx, op, mark, Call::OperationInsertBefore)
        }
        InsertionPoint::AfterOperation(mark) => {
            check_insert_beside(ctx, op, mark, Call::OperationInsertAfter)
        }
    }
}

// That the operation can be moved beside the mark, into whose list this call puts it.
pub(crate) fn check_move<D: Dialects>(
    ctx: &Context<D>,
    op: Ptr<Operation<D>>,
    mark: Ptr<Operation<D>>,
    call: Call,
) -> Result<(), CheckedErr>
    ensures conditions { MoveAnswers call (forest_of ctx.now) op.index mark.index own_value result }
    ensures may { IsOk result ↔ MayMoveBeside (forest_of ctx.now) op.index mark.index }
    ensures told { Made result (IsOk result) }
{
    ctx.recall_well_formed();
    first_unmet_of_move(ctx, op, mark, call)
}

// Which condition of a move doesn't hold.
fn first_unmet_of_move<D: Dialects>(
    ctx: &Context<D>,
    op: Ptr<Operation<D>>,
    mark: Ptr<Operation<D>>,
    call: Call,
) -> Result<(), CheckedErr>
    ensures { MoveAnswers call (forest_of ctx.now) op.index mark.index own_value result }
{
    if !op.is_live(ctx) {
        return Err(unmet(Call::OperationUnlink, Condition::DeadOperation));
    }
    if !op.is_linked(ctx) {
        return Err(unmet(Call::OperationUnlink, Condition::Unlinked));
    }
    if !mark.is_live(ctx) {
        return Err(unmet(call, Condition::DeadOperation));
    }
    if !mark.is_linked(ctx) {
        return Err(unmet(call, Condition::Unlinked));
    }
    if op == mark {
        return Err(unmet(call, Condition::InsideItself));
    }
    if !stands_outside(ctx, mark, op) {
        return Err(unmet(call, Condition::InsideItself));
    }
    Ok(())
}

// That the operation can be erased.
pub(crate) fn check_erase<D: Dialects>(
    ctx: &Context<D>,
    op: Ptr<Operation<D>>,
) -> Result<(), CheckedErr>
    ensures conditions { EraseAnswers (forest_of ctx.now) op.index own_value result }
    ensures live { IsOk result → IsLive (forest_of ctx.now) (an_op op.index) }
    ensures closed { IsOk result → IsClosed (forest_of ctx.now) (an_op op.index) }
    ensures told { Made result (IsOk result) }
{
    first_unmet_of_erasing(ctx, op)
}

// Which condition of an erasure doesn't hold.
fn first_unmet_of_erasing<D: Dialects>(
    ctx: &Context<D>,
    op: Ptr<Operation<D>>,
) -> Result<(), CheckedErr>
    ensures { EraseAnswers (forest_of ctx.now) op.index own_value result }
{
    if !op.is_live(ctx) {
        return Err(unmet(Call::OperationErase, Condition::DeadOperation));
    }
    if !can_erase(ctx, Entity::Op(op)) {
        return Err(unmet(Call::OperationErase, Condition::NotClosed));
    }
    Ok(())
}

// Whether each of these values is live.
fn are_live<D: Dialects>(ctx: &Context<D>, values: &[Value<D>]) -> bool
    ensures { IsTrue result ↔ All (λ v. IsLiveNamed (forest_of ctx.now) (a_value (value_of v.index))) values.now }
{
    values.iter().all(|value| value.is_live(ctx))
}

// What defines a value.
fn definer<D: Dialects>(value: Value<D>) -> Entity<D>
    ensures { meant result ≡ definer_entity context_ids (value_of value.index).definer }
{
    match value.defining_entity() {
        DefiningEntity::Op(op) => Entity::Op(op),
        DefiningEntity::Block(block) => Entity::Block(block),
    }
}

// Whether what defines the value isn't inside the operation.
fn is_defined_outside<D: Dialects>(ctx: &Context<D>, value: Value<D>, op: Ptr<Operation<D>>) -> bool
    ensures { IsTrue result ↔ IsOutside (forest_of ctx.now) op.index (value_of value.index) }
{
    !is_inside(ctx, definer(value), Entity::Op(op))
}

// Whether none of these values is defined inside the operation, or is a result of it.
fn are_defined_outside<D: Dialects>(
    ctx: &Context<D>,
    values: &[Value<D>],
    op: Ptr<Operation<D>>,
) -> bool
    ensures { IsTrue result ↔ All (λ v. IsOutside (forest_of ctx.now) op.index (value_of v.index)) values.now }
{
    for index in 0..values.len() {
        let value = item_at(values, index);
        if !is_defined_outside(ctx, value, op) {
            return false;
        }
    }
    true
}

// Whether nothing outside a region of the live operation names what is defined inside it, for each of its regions.
fn are_regions_closed<D: Dialects>(ctx: &Context<D>, op: Ptr<Operation<D>>) -> bool
    requires { IsLive (forest_of ctx.now) (an_op op.index) }
    ensures { IsTrue result ↔ All (λ g. IsClosed (forest_of ctx.now) (a_region g)) (regions_of (forest_of ctx.now) op.index) }
{
    let record = op.deref(ctx);
    let count = record.num_regions();
    for index in 0..count {
        let region = record.get_region(index);
        if !can_erase(ctx, Entity::Region(region)) {
            return false;
        }
    }
    true
}

// How many results the live operation has.
fn num_results<D: Dialects>(ctx: &Context<D>, op: Ptr<Operation<D>>) -> usize
    requires { IsLive (forest_of ctx.now) (an_op op.index) }
    ensures { result ≡ length (definitions_of (forest_of ctx.now) (of_op op.index)) }
{
    op.deref(ctx).get_num_results()
}

// Whether the live operation has so many results.
fn has_results<D: Dialects>(ctx: &Context<D>, op: Ptr<Operation<D>>, count: usize) -> bool
    requires { IsLive (forest_of ctx.now) (an_op op.index) }
    ensures { IsTrue result ↔ (count ≡ length (definitions_of (forest_of ctx.now) (of_op op.index))) }
{
    count == num_results(ctx, op)
}

// That the operation can be replaced by these values.
pub(crate) fn check_replace<D: Dialects>(
    ctx: &Context<D>,
    op: Ptr<Operation<D>>,
    values: &[Value<D>],
) -> Result<(), CheckedErr>
    ensures conditions { ReplaceAnswers (forest_of ctx.now) op.index values.now own_value result }
    ensures may { IsOk result ↔ MayReplace (forest_of ctx.now) op.index values.now }
    ensures told { Made result (IsOk result) }
{
    first_unmet_of_replacing(ctx, op, values)
}

// Which condition of a replacement doesn't hold.
fn first_unmet_of_replacing<D: Dialects>(
    ctx: &Context<D>,
    op: Ptr<Operation<D>>,
    values: &[Value<D>],
) -> Result<(), CheckedErr>
    ensures { ReplaceAnswers (forest_of ctx.now) op.index values.now own_value result }
{
    if !op.is_live(ctx) {
        return Err(unmet(Call::OperationErase, Condition::DeadOperation));
    }
    if !has_results(ctx, op, values.len()) {
        return Err(unmet(Call::OperationGetResult, Condition::OutOfRange));
    }
    if !are_live(ctx, values) {
        return Err(unmet(Call::ValueReplaceAllUsesWith, Condition::DeadValue));
    }
    if !are_defined_outside(ctx, values, op) {
        return Err(unmet(Call::ValueReplaceAllUsesWith, Condition::InsideItself));
    }
    if !are_regions_closed(ctx, op) {
        return Err(unmet(Call::OperationErase, Condition::NotClosed));
    }
    Ok(())
}
