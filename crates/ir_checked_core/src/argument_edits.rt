//! The arguments of blocks: put in and taken out, one at a time.

ghost use Rattle.std.specs.Prelude.{Err, IfOk, OnErr, OnOk, length, ◌<◌, ◌↔◌, ◌≡◌, ◌≤◌};
ghost use Rattle.ir_checked_core.specs.Answers.{Answers, Made, out_of_numbers, out_of_slots, own_answer, own_value, unless};
ghost use Rattle.ir_core_context.specs.Calls.{EntitiesStayLive, KeepsAll, SameButForest};
ghost use Rattle.ir_core_context.specs.Definitions.{MakesValue, StayLiveBut, UnusedAt, ValueAt, definition_inserted, definition_popped, definition_pushed, definition_removed, last_place};
ghost use Rattle.ir_core_context.specs.State.{bare, forest_of, types_of};
ghost use Rattle.ir_model.specs.Edits.{one_number};
ghost use Rattle.ir_model.specs.Forest.{a_block, of_block};
ghost use Rattle.ir_model.specs.Nesting.{IsLive, definitions_of};
ghost use Rattle.ir_model.specs.Sessions.{LacksNumbers};

use crate::asked::{is_unused_argument, is_unused_last_argument};
use crate::error::{Call, CheckedErr, Condition, fault};
use ir_base_dialects::{Dialects, Ptr, TypeHandle};
use ir_core_queries::{ArgumentEdits, BasicBlock, BlockPtr, Context, TypeQueries};

/// Puts an argument of the known type at the end, and answers its index. It has a new number, no name and no uses.
///
/// # Errors
/// `Unmet` where the block isn't live, or the type isn't known. Else what the call itself is refused for.
pub fn push_argument<D: Dialects>(
    block: Ptr<BasicBlock<D>>,
    ctx: &mut Context<D>,
    ty: TypeHandle,
) -> Result<usize, CheckedErr>
    ensures conditions { Answers Call.BlockPushArgument result (unless (IsLive (forest_of ctx.old) (a_block block.index)) Condition.DeadBlock (unless (ty.place < length (types_of ctx.old)) Condition.UnknownType own_answer)) }
    ensures index { IfOk result (λ at. at ≡ length (definitions_of (forest_of ctx.old) (of_block block.index))) }
    ensures made { OnOk result (MakesValue (bare ctx.old) (bare ctx.new) (definition_pushed (forest_of ctx.old) (of_block block.index) ty.place)) }
    ensures keeps { Made result (KeepsAll ctx.old ctx.new) }
    ensures counter { Made result ((result ≡ Err out_of_numbers) ↔ LacksNumbers (bare ctx.old) one_number) }
    ensures slots { ¬ (result ≡ Err out_of_slots) }
    ensures err { OnErr result (ctx.new ≡ ctx.old) }
{
    if !block.is_live(ctx) {
        return Err(fault!(BlockPushArgument, DeadBlock));
    }
    if !ty.is_known(ctx) {
        return Err(fault!(BlockPushArgument, UnknownType));
    }
    match block.push_argument(ctx, ty) {
        Ok(answer) => Ok(answer),
        Err(error) => Err(CheckedErr::Core(error)),
    }
}

/// Puts an argument of the known type at an index up to their number; what stood there and behind it moves one place on. It has a new number, no name and no uses.
///
/// # Errors
/// `Unmet` where the block isn't live, the index is out of range, or the type isn't known. Else what the call itself is refused for.
pub fn insert_argument<D: Dialects>(
    block: Ptr<BasicBlock<D>>,
    ctx: &mut Context<D>,
    index: usize,
    ty: TypeHandle,
) -> Result<(), CheckedErr>
    ensures conditions { Answers Call.BlockInsertArgument result (unless (IsLive (forest_of ctx.old) (a_block block.index)) Condition.DeadBlock (unless (index ≤ length (definitions_of (forest_of ctx.old) (of_block block.index))) Condition.OutOfRange (unless (ty.place < length (types_of ctx.old)) Condition.UnknownType own_answer))) }
    ensures made { OnOk result (MakesValue (bare ctx.old) (bare ctx.new) (definition_inserted (forest_of ctx.old) (of_block block.index) index ty.place)) }
    ensures keeps { Made result (KeepsAll ctx.old ctx.new) }
    ensures counter { Made result ((result ≡ Err out_of_numbers) ↔ LacksNumbers (bare ctx.old) one_number) }
    ensures slots { ¬ (result ≡ Err out_of_slots) }
    ensures err { OnErr result (ctx.new ≡ ctx.old) }
{
    if !block.is_live(ctx) {
        return Err(fault!(BlockInsertArgument, DeadBlock));
    }
    if block.deref(ctx).get_num_arguments() < index {
        return Err(fault!(BlockInsertArgument, OutOfRange));
    }
    if !ty.is_known(ctx) {
        return Err(fault!(BlockInsertArgument, UnknownType));
    }
    match block.insert_argument(ctx, index, ty) {
        Ok(answer) => Ok(answer),
        Err(error) => Err(CheckedErr::Core(error)),
    }
}

/// Takes the argument at the index out, which is there and which nothing names, as `is_used` tells; those behind it move up. All that was live stays live but this argument.
///
/// # Errors
/// `Unmet` where the block isn't live, the index is out of range, or what would go is used.
pub fn remove_argument<D: Dialects>(
    block: Ptr<BasicBlock<D>>,
    ctx: &mut Context<D>,
    index: usize,
) -> Result<(), CheckedErr>
    ensures conditions { Answers Call.BlockRemoveArgument result (unless (IsLive (forest_of ctx.old) (a_block block.index)) Condition.DeadBlock (unless (index < length (definitions_of (forest_of ctx.old) (of_block block.index))) Condition.OutOfRange (unless (UnusedAt (forest_of ctx.old) (of_block block.index) index) Condition.Used own_value))) }
    ensures forest { OnOk result (forest_of ctx.new ≡ definition_removed (forest_of ctx.old) (of_block block.index) index) }
    ensures rest { OnOk result (SameButForest (bare ctx.old) (bare ctx.new)) }
    ensures stay_live { OnOk result (ValueAt (forest_of ctx.old) (of_block block.index) index (StayLiveBut (forest_of ctx.old) (forest_of ctx.new))) }
    ensures entities_stay_live { OnOk result (EntitiesStayLive (forest_of ctx.old) (forest_of ctx.new)) }
    ensures err { OnErr result (ctx.new ≡ ctx.old) }
{
    if !block.is_live(ctx) {
        return Err(fault!(BlockRemoveArgument, DeadBlock));
    }
    if block.deref(ctx).get_num_arguments() <= index {
        return Err(fault!(BlockRemoveArgument, OutOfRange));
    }
    if !is_unused_argument(ctx, block, index) {
        return Err(fault!(BlockRemoveArgument, Used));
    }
    block.remove_argument(ctx, index);
    Ok(())
}

/// Takes the last argument out, which is there and which nothing names, as `is_used` tells. All that was live stays live but this argument.
///
/// # Errors
/// `Unmet` where the block isn't live, there is none, or what would go is used.
pub fn pop_argument<D: Dialects>(
    block: Ptr<BasicBlock<D>>,
    ctx: &mut Context<D>,
) -> Result<(), CheckedErr>
    ensures conditions { Answers Call.BlockPopArgument result (unless (IsLive (forest_of ctx.old) (a_block block.index)) Condition.DeadBlock (unless (0 < length (definitions_of (forest_of ctx.old) (of_block block.index))) Condition.OutOfRange (unless (UnusedAt (forest_of ctx.old) (of_block block.index) (last_place (forest_of ctx.old) (of_block block.index))) Condition.Used own_value))) }
    ensures forest { OnOk result (forest_of ctx.new ≡ definition_popped (forest_of ctx.old) (of_block block.index)) }
    ensures rest { OnOk result (SameButForest (bare ctx.old) (bare ctx.new)) }
    ensures stay_live { OnOk result (ValueAt (forest_of ctx.old) (of_block block.index) (last_place (forest_of ctx.old) (of_block block.index)) (StayLiveBut (forest_of ctx.old) (forest_of ctx.new))) }
    ensures entities_stay_live { OnOk result (EntitiesStayLive (forest_of ctx.old) (forest_of ctx.new)) }
    ensures err { OnErr result (ctx.new ≡ ctx.old) }
{
    if !block.is_live(ctx) {
        return Err(fault!(BlockPopArgument, DeadBlock));
    }
    if block.deref(ctx).get_num_arguments() == 0 {
        return Err(fault!(BlockPopArgument, OutOfRange));
    }
    if !is_unused_last_argument(ctx, block) {
        return Err(fault!(BlockPopArgument, Used));
    }
    block.pop_argument(ctx);
    Ok(())
}
