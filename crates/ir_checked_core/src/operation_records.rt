//! Operations made, and what their records tell and let be written.

ghost use Rattle.std.specs.Borrow.{sem};
ghost use Rattle.std.specs.Option.{option_map};
ghost use Rattle.std.specs.Prelude.{All, Err, IfOk, OnOk, Some, length, map, slice_get, ◌<◌, ◌↔◌, ◌≡◌};
ghost use Rattle.ir_checked_core.specs.Answers.{Answers, Made, OnRefused, OnUnmet, out_of_numbers, out_of_slots, own_answer, own_value, unless};
ghost use Rattle.ir_checked_core.specs.Lending.{lends_checked_op};
ghost use Rattle.ir_core_context.specs.Calls.{HasCounts, IsOperation, KeepsAll, LacksOnlySlots, LeadsToLive, MakesOperation, MakesRegion, SkipsAtMost, needs_of, region_needs};
ghost use Rattle.ir_core_context.specs.Lending.{WritesOp};
ghost use Rattle.ir_core_context.specs.State.{bare, forest_of, types_of};
ghost use Rattle.ir_core_records.specs.Meaning.{definer_of, use_of, value_of};
ghost use Rattle.ir_core_records.specs.Values.{IsLiveBlockUse, IsLiveUse};
ghost use Rattle.ir_model.specs.Calls.{attributes_of, loc_of};
ghost use Rattle.ir_model.specs.Forest.{a_block, a_region, a_value, an_op, of_op};
ghost use Rattle.ir_model.specs.Nesting.{IsLive, IsLiveNamed, definitions_of, operands_of, regions_of, successors_of};
ghost use Rattle.ir_model.specs.Sessions.{LacksNumbers, LacksSlots};

use crate::asked::{are_known, are_live, are_live_blocks};
use crate::error::{Call, CheckedErr, Condition, fault};
use ir_base_dialects::{Dialects, Ptr, TypeHandle};
use ir_core_queries::{
    AddRegion, BasicBlock, Context, NewOperation, Operation, OperationMut, OperationPtr,
    OperationPtrMut, Region, Use, Value,
};

/// The operation under a live handle. What it gives is live, and its types are known.
///
/// # Errors
/// `Unmet` where the operation isn't live.
pub fn deref<D: Dialects>(
    op: Ptr<Operation<D>>,
    ctx: &Context<D>,
) -> Result<&Operation<D>, CheckedErr>
    ensures conditions { Answers Call.OperationDeref result (unless (IsLive (forest_of ctx.now) (an_op op.index)) Condition.DeadOperation own_value) }
    ensures found { IfOk result (λ answer. IsOperation (forest_of ctx.now) op.index answer.now) }
    ensures leads { IfOk result (λ answer. LeadsToLive (forest_of ctx.now) (length (types_of ctx.now)) answer.now) }
{
    if !op.is_live(ctx) {
        return Err(fault!(OperationDeref, DeadOperation));
    }
    Ok(op.deref(ctx))
}

/// What may be written of the operation: its attributes and its location.
///
/// # Errors
/// `Unmet` where the operation isn't live.
pub fn deref_mut<D: Dialects>(
    ctx: &mut Context<D>,
    op: Ptr<Operation<D>>,
) -> Result<&mut OperationMut<D>, CheckedErr>
    ensures conditions { Answers Call.OperationDerefMut result (unless (IsLive (forest_of ctx.old) (an_op op.index)) Condition.DeadOperation own_value) }
    ensures* writes_back { sem 𝓛 (lends_checked_op D.row D.Attr.row D.TypeKey.row D.TypeBody.row D.Saved.row D.Aux.row D.Loc.row D.Dialects D.Attr.Hash D.TypeKey.Hash D.TypeBody.Default D.Saved.Hash D.Loc.Default ctx.entry op.index result) }
    ensures attributes { IfOk result (λ rest. attributes_of (forest_of ctx.old) (of_op op.index) ≡ Some rest.now.attributes) }
    ensures loc { IfOk result (λ rest. loc_of (forest_of ctx.old) (of_op op.index) ≡ Some rest.now.loc) }
    ensures written { OnOk result (WritesOp ctx.old op.index) }
{
    if !op.is_live(ctx) {
        return Err(fault!(OperationDerefMut, DeadOperation));
    }
    Ok(OperationPtrMut::deref_mut(ctx, op))
}

/// The result at the index.
///
/// # Errors
/// `Unmet` where the operation isn't live, or the index is out of range.
pub fn get_result<D: Dialects>(
    op: Ptr<Operation<D>>,
    ctx: &Context<D>,
    index: usize,
) -> Result<Value<D>, CheckedErr>
    ensures conditions { Answers Call.OperationGetResult result (unless (IsLive (forest_of ctx.now) (an_op op.index)) Condition.DeadOperation (unless (index < length (definitions_of (forest_of ctx.now) (of_op op.index))) Condition.OutOfRange own_value)) }
    ensures definer { IfOk result (λ answer. definer_of answer.index.definer ≡ of_op op.index) }
    ensures number { IfOk result (λ answer. option_map (λ d. d.number) (slice_get (definitions_of (forest_of ctx.now) (of_op op.index)) index) ≡ Some answer.index.number) }
    ensures live { IfOk result (λ answer. IsLiveNamed (forest_of ctx.now) (a_value (value_of answer.index))) }
{
    if !op.is_live(ctx) {
        return Err(fault!(OperationGetResult, DeadOperation));
    }
    if op.deref(ctx).get_num_results() <= index {
        return Err(fault!(OperationGetResult, OutOfRange));
    }
    Ok(op.deref(ctx).get_result(index))
}

/// The value that the operand at the index names.
///
/// # Errors
/// `Unmet` where the operation isn't live, or the index is out of range.
pub fn get_operand<D: Dialects>(
    op: Ptr<Operation<D>>,
    ctx: &Context<D>,
    index: usize,
) -> Result<Value<D>, CheckedErr>
    ensures conditions { Answers Call.OperationGetOperand result (unless (IsLive (forest_of ctx.now) (an_op op.index)) Condition.DeadOperation (unless (index < length (operands_of (forest_of ctx.now) op.index)) Condition.OutOfRange own_value)) }
    ensures named { IfOk result (λ answer. option_map (λ a. a.value) (slice_get (operands_of (forest_of ctx.now) op.index) index) ≡ Some (value_of answer.index)) }
    ensures live { IfOk result (λ answer. IsLiveNamed (forest_of ctx.now) (a_value (value_of answer.index))) }
{
    if !op.is_live(ctx) {
        return Err(fault!(OperationGetOperand, DeadOperation));
    }
    if op.deref(ctx).get_num_operands() <= index {
        return Err(fault!(OperationGetOperand, OutOfRange));
    }
    Ok(op.deref(ctx).get_operand(index))
}

/// The operand at the index, as a use.
///
/// # Errors
/// `Unmet` where the operation isn't live, or the index is out of range.
pub fn get_operand_as_use<D: Dialects>(
    op: Ptr<Operation<D>>,
    ctx: &Context<D>,
    index: usize,
) -> Result<Use<Value<D>>, CheckedErr>
    ensures conditions { Answers Call.OperationGetOperandAsUse result (unless (IsLive (forest_of ctx.now) (an_op op.index)) Condition.DeadOperation (unless (index < length (operands_of (forest_of ctx.now) op.index)) Condition.OutOfRange own_value)) }
    ensures user { IfOk result (λ answer. answer.index.user ≡ op.index) }
    ensures number { IfOk result (λ answer. option_map (λ a. a.use_number) (slice_get (operands_of (forest_of ctx.now) op.index) index) ≡ Some answer.index.number) }
    ensures live { IfOk result (λ answer. IsLiveUse (forest_of ctx.now) (use_of answer.index)) }
{
    if !op.is_live(ctx) {
        return Err(fault!(OperationGetOperandAsUse, DeadOperation));
    }
    if op.deref(ctx).get_num_operands() <= index {
        return Err(fault!(OperationGetOperandAsUse, OutOfRange));
    }
    Ok(op.deref(ctx).get_operand_as_use(index))
}

/// The block that the successor at the index names.
///
/// # Errors
/// `Unmet` where the operation isn't live, or the index is out of range.
pub fn get_successor<D: Dialects>(
    op: Ptr<Operation<D>>,
    ctx: &Context<D>,
    index: usize,
) -> Result<Ptr<BasicBlock<D>>, CheckedErr>
    ensures conditions { Answers Call.OperationGetSuccessor result (unless (IsLive (forest_of ctx.now) (an_op op.index)) Condition.DeadOperation (unless (index < length (successors_of (forest_of ctx.now) op.index)) Condition.OutOfRange own_value)) }
    ensures named { IfOk result (λ answer. option_map (λ a. a.block) (slice_get (successors_of (forest_of ctx.now) op.index) index) ≡ Some answer.index) }
    ensures live { IfOk result (λ answer. IsLive (forest_of ctx.now) (a_block answer.index)) }
{
    if !op.is_live(ctx) {
        return Err(fault!(OperationGetSuccessor, DeadOperation));
    }
    if op.deref(ctx).get_num_successors() <= index {
        return Err(fault!(OperationGetSuccessor, OutOfRange));
    }
    Ok(op.deref(ctx).get_successor(index))
}

/// The successor at the index, as a use.
///
/// # Errors
/// `Unmet` where the operation isn't live, or the index is out of range.
pub fn get_successor_as_use<D: Dialects>(
    op: Ptr<Operation<D>>,
    ctx: &Context<D>,
    index: usize,
) -> Result<Use<Ptr<BasicBlock<D>>>, CheckedErr>
    ensures conditions { Answers Call.OperationGetSuccessorAsUse result (unless (IsLive (forest_of ctx.now) (an_op op.index)) Condition.DeadOperation (unless (index < length (successors_of (forest_of ctx.now) op.index)) Condition.OutOfRange own_value)) }
    ensures user { IfOk result (λ answer. answer.index.user ≡ op.index) }
    ensures number { IfOk result (λ answer. option_map (λ a. a.use_number) (slice_get (successors_of (forest_of ctx.now) op.index) index) ≡ Some answer.index.number) }
    ensures live { IfOk result (λ answer. IsLiveBlockUse (forest_of ctx.now) (use_of answer.index)) }
{
    if !op.is_live(ctx) {
        return Err(fault!(OperationGetSuccessorAsUse, DeadOperation));
    }
    if op.deref(ctx).get_num_successors() <= index {
        return Err(fault!(OperationGetSuccessorAsUse, OutOfRange));
    }
    Ok(op.deref(ctx).get_successor_as_use(index))
}

/// The type of the result at the index.
///
/// # Errors
/// `Unmet` where the operation isn't live, or the index is out of range.
pub fn get_type<D: Dialects>(
    op: Ptr<Operation<D>>,
    ctx: &Context<D>,
    index: usize,
) -> Result<TypeHandle, CheckedErr>
    ensures conditions { Answers Call.OperationGetType result (unless (IsLive (forest_of ctx.now) (an_op op.index)) Condition.DeadOperation (unless (index < length (definitions_of (forest_of ctx.now) (of_op op.index))) Condition.OutOfRange own_value)) }
    ensures found { IfOk result (λ answer. option_map (λ d. d.ty) (slice_get (definitions_of (forest_of ctx.now) (of_op op.index)) index) ≡ Some answer.place) }
    ensures known { IfOk result (λ answer. answer.place < length (types_of ctx.now)) }
{
    if !op.is_live(ctx) {
        return Err(fault!(OperationGetType, DeadOperation));
    }
    if op.deref(ctx).get_num_results() <= index {
        return Err(fault!(OperationGetType, OutOfRange));
    }
    Ok(op.deref(ctx).get_type(index))
}

/// The region at the index.
///
/// # Errors
/// `Unmet` where the operation isn't live, or the index is out of range.
pub fn get_region<D: Dialects>(
    op: Ptr<Operation<D>>,
    ctx: &Context<D>,
    index: usize,
) -> Result<Ptr<Region>, CheckedErr>
    ensures conditions { Answers Call.OperationGetRegion result (unless (IsLive (forest_of ctx.now) (an_op op.index)) Condition.DeadOperation (unless (index < length (regions_of (forest_of ctx.now) op.index)) Condition.OutOfRange own_value)) }
    ensures found { IfOk result (λ answer. slice_get (regions_of (forest_of ctx.now) op.index) index ≡ Some answer.index) }
    ensures live { IfOk result (λ answer. IsLive (forest_of ctx.now) (a_region answer.index)) }
{
    if !op.is_live(ctx) {
        return Err(fault!(OperationGetRegion, DeadOperation));
    }
    if op.deref(ctx).num_regions() <= index {
        return Err(fault!(OperationGetRegion, OutOfRange));
    }
    Ok(op.deref(ctx).get_region(index))
}

/// Makes an unlinked operation of this kind, with results of these types, these operands and successors, and so many empty regions. Results get new numbers in order, and so do operands and then successors.
///
/// # Errors
/// `Unmet` where a type isn't known, a value isn't live, or a block isn't live. Else what the call itself is refused for.
pub fn new<D: Dialects>(
    ctx: &mut Context<D>,
    kind: u32,
    result_types: &[TypeHandle],
    operands: &[Value<D>],
    successors: &[Ptr<BasicBlock<D>>],
    num_regions: usize,
) -> Result<Ptr<Operation<D>>, CheckedErr>
    ensures conditions { Answers Call.OperationNew result (unless (All (λ t. t.place < length (types_of ctx.old)) result_types.now) Condition.UnknownType (unless (All (λ v. IsLiveNamed (forest_of ctx.old) (a_value (value_of v.index))) operands.now) Condition.DeadValue (unless (All (λ b. IsLive (forest_of ctx.old) (a_block b.index)) successors.now) Condition.DeadBlock own_answer))) }
    ensures made { IfOk result (λ op. MakesOperation D.unknown (bare ctx.old) (bare ctx.new) op.index kind (map (λ t. t.place) result_types.now) (map (λ v. value_of v.index) operands.now) (map (λ b. b.index) successors.now) num_regions) }
    ensures live { IfOk result (λ op. IsLive (forest_of ctx.new) (an_op op.index)) }
    ensures counts { IfOk result (λ op. HasCounts (forest_of ctx.new) op.index (length result_types.now) (length operands.now) (length successors.now) num_regions) }
    ensures keeps { Made result (KeepsAll ctx.old ctx.new) }
    ensures counter { Made result ((result ≡ Err out_of_numbers) ↔ LacksNumbers (bare ctx.old) (needs_of result_types.now operands.now successors.now num_regions)) }
    ensures slots { Made result ((result ≡ Err out_of_slots) ↔ LacksOnlySlots (bare ctx.old) (needs_of result_types.now operands.now successors.now num_regions)) }
    ensures refused { OnRefused result (SkipsAtMost (bare ctx.old) (bare ctx.new) (needs_of result_types.now operands.now successors.now num_regions)) }
    ensures unmet { OnUnmet result (ctx.new ≡ ctx.old) }
{
    if !are_known(ctx, result_types) {
        return Err(fault!(OperationNew, UnknownType));
    }
    if !are_live(ctx, operands) {
        return Err(fault!(OperationNew, DeadValue));
    }
    if !are_live_blocks(ctx, successors) {
        return Err(fault!(OperationNew, DeadBlock));
    }
    match Operation::new(ctx, kind, result_types, operands, successors, num_regions) {
        Ok(answer) => Ok(answer),
        Err(error) => Err(CheckedErr::Core(error)),
    }
}

/// Makes an empty region, the last of the live operation.
///
/// # Errors
/// `Unmet` where the operation isn't live. Else what the call itself is refused for.
pub fn add_region<D: Dialects>(
    op: Ptr<Operation<D>>,
    ctx: &mut Context<D>,
) -> Result<Ptr<Region>, CheckedErr>
    ensures conditions { Answers Call.OperationAddRegion result (unless (IsLive (forest_of ctx.old) (an_op op.index)) Condition.DeadOperation own_answer) }
    ensures made { IfOk result (λ region. MakesRegion (bare ctx.old) (bare ctx.new) op.index region.index) }
    ensures live { IfOk result (λ region. IsLive (forest_of ctx.new) (a_region region.index)) }
    ensures op_live { Made result (IsLive (forest_of ctx.new) (an_op op.index)) }
    ensures keeps { Made result (KeepsAll ctx.old ctx.new) }
    ensures counter { ¬ (result ≡ Err out_of_numbers) }
    ensures slots { Made result ((result ≡ Err out_of_slots) ↔ LacksSlots (bare ctx.old) region_needs) }
    ensures refused { OnRefused result (SkipsAtMost (bare ctx.old) (bare ctx.new) region_needs) }
    ensures unmet { OnUnmet result (ctx.new ≡ ctx.old) }
{
    if !op.is_live(ctx) {
        return Err(fault!(OperationAddRegion, DeadOperation));
    }
    match op.add_region(ctx) {
        Ok(answer) => Ok(answer),
        Err(error) => Err(CheckedErr::Core(error)),
    }
}
