//! The sweep of a block: dead operations go, with all that stands inside them, however they use each other.
//!
//! An operation goes only while nothing outside it names what is defined inside. A walk goes from the end of the block to its front, so that what names is met before what it names where definitions stand before their uses, and then from the front to the end, where they stand behind; it turns at each end until it finds none on a whole way. Where an operation goes, the walk follows its last operand whose definer is pure and stands in the block: if that can go then, it goes next, and so on along a chain; then the walk comes back to its place. It takes no memory and doesn't recurse.

ghost use Rattle.std.specs.Prelude.{◌≢◌, ◌↔◌, ◌<◌, ◌^◌, length, IsTrue, IfSome, IsNone};
ghost use Rattle.std.specs.Option.{option_map};
ghost use Rattle.ir_model.specs.Dead.{Sweeps};
ghost use Rattle.ir_model.specs.Forest.{a_block, a_value, an_op};
ghost use Rattle.ir_model.specs.Nesting.{In, IsLive, IsLiveNamed, ops_of};
ghost use Rattle.ir_model.specs.SweepLaws.{NoneIsClosed};
ghost use Rattle.ir_core_records.specs.Meaning.{value_of};
ghost use Rattle.ir_core_queries.specs.State.{bare, forest_of};
ghost use Rattle.ir_core_queries.specs.Calls.{SameButForest};
ghost use Rattle.ir_run_passes.specs.Going.{CanGo, IsBeside, NoneGoesUpTo, rank};
ghost use Rattle.ir_core_records.specs.DialectAnswers.{behaviour_of};

use ir_base_dialects::interfaces::PURE_OPERATION;
use ir_base_dialects::{Dialects, Ptr};
use ir_core_queries::{
    BasicBlock, BlockPlace, Context, Entity, Erase, Operation, OperationPlace, OperationPtr, Value,
    can_erase,
};

// What holds of every block: its list has fewer operations than a `usize` can count.
fn recall_lists_short<D: Dialects>(ctx: &Context<D>, block: Ptr<BasicBlock<D>>)
    ensures { length (ops_of (forest_of ctx.now) block.index) < 2 ^ 64 }
{
    ctx.recall_well_formed();
    let _most = ctx.records().ops.len();
}

/// Whether a live operation can go: its kind is pure, and nothing outside it names what is defined inside.
pub(crate) fn can_go<D: Dialects>(ctx: &Context<D>, op: Ptr<Operation<D>>) -> bool
    requires { IsLive (forest_of ctx.now) (an_op op.index) }
    ensures { IsTrue result ↔ CanGo (behaviour_of D.Dialects D.TypeKey.eq) (forest_of ctx.now) op.index }
{
    if D::op_impls(op.deref(ctx).kind(), PURE_OPERATION) {
        can_erase(ctx, Entity::Op(op))
    } else {
        false
    }
}

// Whether a live operation stands in the block.
fn stands_in<D: Dialects>(
    ctx: &Context<D>,
    op: Ptr<Operation<D>>,
    block: Ptr<BasicBlock<D>>,
) -> bool
    requires { IsLive (forest_of ctx.now) (an_op op.index) }
    ensures { IsTrue result → In op.index (ops_of (forest_of ctx.now) block.index) }
{
    match op.get_parent_block(ctx) {
        Some(parent) => parent == block,
        None => false,
    }
}

// The operation that defines a live value, where it is pure, stands in the block and is another one than the user.
fn definer_beside<D: Dialects>(
    ctx: &Context<D>,
    block: Ptr<BasicBlock<D>>,
    user: Ptr<Operation<D>>,
    value: Value<D>,
) -> Option<Ptr<Operation<D>>>
    requires { IsLiveNamed (forest_of ctx.now) (a_value (value_of value.index)) }
    ensures listed { IfSome result (λ p. In p.index (ops_of (forest_of ctx.now) block.index)) }
    ensures other { IfSome result (λ p. p.index ≢ user.index) }
{
    let definer = value.defining_op()?;
    if definer == user {
        return None;
    }
    if !D::op_impls(definer.deref(ctx).kind(), PURE_OPERATION) {
        return None;
    }
    if stands_in(ctx, definer, block) {
        Some(definer)
    } else {
        None
    }
}

// What defines the last operand of a live operation whose definer is pure, stands in the block and is another operation.
fn last_definer<D: Dialects>(
    ctx: &Context<D>,
    block: Ptr<BasicBlock<D>>,
    op: Ptr<Operation<D>>,
) -> Option<Ptr<Operation<D>>>
    requires { IsLive (forest_of ctx.now) (an_op op.index) }
    ensures listed { IfSome result (λ p. In p.index (ops_of (forest_of ctx.now) block.index)) }
    ensures other { IfSome result (λ p. p.index ≢ op.index) }
{
    let operation = op.deref(ctx);
    for index in (0..operation.get_num_operands()).rev() {
        let definer = definer_beside(ctx, block, op, operation.get_operand(index));
        if definer.is_some() {
            return definer;
        }
    }
    None
}

// The first operation of a live block on the way to its end, or the last one on the way to its front.
fn start_of<D: Dialects>(
    ctx: &Context<D>,
    block: Ptr<BasicBlock<D>>,
    to_end: bool,
) -> Option<Ptr<Operation<D>>>
    requires { IsLive (forest_of ctx.now) (a_block block.index) }
    ensures listed { IfSome result (λ p. In p.index (ops_of (forest_of ctx.now) block.index)) }
    ensures all { NoneGoesUpTo (behaviour_of D.Dialects D.TypeKey.eq) (forest_of ctx.now) to_end block.index (rank to_end (option_map (λ p. p.index) result) (ops_of (forest_of ctx.now) block.index)) → NoneIsClosed (behaviour_of D.Dialects D.TypeKey.eq) (forest_of ctx.now) block.index }
{
    ctx.recall_well_formed();
    if to_end {
        block.get_head(ctx)
    } else {
        block.get_tail(ctx)
    }
}

// The operation beside a live one on the way to the end of its block, or to its front.
fn beside<D: Dialects>(
    ctx: &Context<D>,
    op: Ptr<Operation<D>>,
    to_end: bool,
) -> Option<Ptr<Operation<D>>>
    requires { IsLive (forest_of ctx.now) (an_op op.index) }
    ensures { IsBeside (forest_of ctx.now) to_end op.index (option_map (λ p. an_op p.index) result) }
{
    if to_end {
        op.get_next(ctx)
    } else {
        op.get_prev(ctx)
    }
}

// The first operation that can go, on the way from a place in the block to its end, or to its front.
fn next_to_go<D: Dialects>(
    ctx: &Context<D>,
    block: Ptr<BasicBlock<D>>,
    place: Option<Ptr<Operation<D>>>,
    to_end: bool,
) -> Option<Ptr<Operation<D>>>
    requires { IfSome place (λ p. In p.index (ops_of (forest_of ctx.now) block.index)) }
    ensures listed { IfSome result (λ p. In p.index (ops_of (forest_of ctx.now) block.index)) }
    ensures can_go { IfSome result (λ p. CanGo (behaviour_of D.Dialects D.TypeKey.eq) (forest_of ctx.now) p.index) }
    ensures none { IsNone result → NoneGoesUpTo (behaviour_of D.Dialects D.TypeKey.eq) (forest_of ctx.now) to_end block.index (rank to_end (option_map (λ p. p.index) place) (ops_of (forest_of ctx.now) block.index)) }
{
    ctx.recall_well_formed();
    let mut place = place;
    while let Some(op) = place {
        if can_go(ctx, op) {
            return Some(op);
        }
        place = beside(ctx, op, to_end);
    }
    None
}

// The first operation that can go, on the way from a place in the block, and else, where the way turns, on the whole way back.
fn to_go_from<D: Dialects>(
    ctx: &Context<D>,
    block: Ptr<BasicBlock<D>>,
    place: Option<Ptr<Operation<D>>>,
    to_end: &mut bool,
) -> Option<Ptr<Operation<D>>>
    requires live { IsLive (forest_of ctx.now) (a_block block.index) }
    requires listed { IfSome place (λ p. In p.index (ops_of (forest_of ctx.now) block.index)) }
    ensures listed { IfSome result (λ p. In p.index (ops_of (forest_of ctx.now) block.index)) }
    ensures can_go { IfSome result (λ p. CanGo (behaviour_of D.Dialects D.TypeKey.eq) (forest_of ctx.now) p.index) }
    ensures none { IsNone result → NoneIsClosed (behaviour_of D.Dialects D.TypeKey.eq) (forest_of ctx.now) block.index }
{
    let found = next_to_go(ctx, block, place, *to_end);
    if found.is_some() {
        return found;
    }
    *to_end = !*to_end;
    let start = start_of(ctx, block, *to_end);
    next_to_go(ctx, block, start, *to_end)
}

// A place in the block, or the one beside it on the way where the operation stands there: a place that stays when the operation goes.
fn place_beside<D: Dialects>(
    ctx: &Context<D>,
    block: Ptr<BasicBlock<D>>,
    place: Option<Ptr<Operation<D>>>,
    op: Ptr<Operation<D>>,
    to_end: bool,
) -> Option<Ptr<Operation<D>>>
    requires op { In op.index (ops_of (forest_of ctx.now) block.index) }
    requires place { IfSome place (λ p. In p.index (ops_of (forest_of ctx.now) block.index)) }
    ensures listed { IfSome result (λ p. In p.index (ops_of (forest_of ctx.now) block.index)) }
    ensures other { IfSome result (λ p. p.index ≢ op.index) }
{
    ctx.recall_well_formed();
    if place? == op {
        beside(ctx, op, to_end)
    } else {
        place
    }
}

// The operation, if there is one and it can go.
fn freed<D: Dialects>(
    ctx: &Context<D>,
    block: Ptr<BasicBlock<D>>,
    definer: Option<Ptr<Operation<D>>>,
) -> Option<Ptr<Operation<D>>>
    requires { IfSome definer (λ p. In p.index (ops_of (forest_of ctx.now) block.index)) }
    ensures listed { IfSome result (λ p. In p.index (ops_of (forest_of ctx.now) block.index)) }
    ensures can_go { IfSome result (λ p. CanGo (behaviour_of D.Dialects D.TypeKey.eq) (forest_of ctx.now) p.index) }
{
    ctx.recall_well_formed();
    let op = definer?;
    if can_go(ctx, op) { Some(op) } else { None }
}

/// Removes the dead operations of a live block with all that stands inside them, and answers how many of the block's list these were.
///
/// An operation of the block is dead where its kind implements `PURE_OPERATION`, and each operation that names something defined inside it is inside it too, or inside a dead one. Pure operations that use each other in a ring stay. It takes no memory. pliron has no such call.
pub fn sweep<D: Dialects>(block: Ptr<BasicBlock<D>>, ctx: &mut Context<D>) -> usize
    requires { IsLive (forest_of ctx.old) (a_block block.index) }
    ensures dead_are_gone { Sweeps (behaviour_of D.Dialects D.TypeKey.eq) (forest_of ctx.old) block.index (forest_of ctx.new) result }
    ensures none_can_go { NoneIsClosed (behaviour_of D.Dialects D.TypeKey.eq) (forest_of ctx.new) block.index }
    ensures rest { SameButForest (bare ctx.old) (bare ctx.new) }
    ensures live { IsLive (forest_of ctx.new) (a_block block.index) }
{
    ctx.recall_well_formed();
    recall_lists_short(ctx, block);
    let mut swept = 0;
    let mut to_end = true;
    let mut place = to_go_from(ctx, block, None, &mut to_end);
    let mut next = place;
    while let Some(op) = next {
        place = place_beside(ctx, block, place, op, to_end);
        let definer = last_definer(ctx, block, op);
        op.erase(ctx);
        swept += 1;
        next = freed(ctx, block, definer);
        if next.is_none() {
            place = to_go_from(ctx, block, place, &mut to_end);
            next = place;
        }
    }
    swept
}
