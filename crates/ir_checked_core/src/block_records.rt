//! What the records of blocks tell and let be written, and the names of blocks.

ghost use Rattle.std.specs.Borrow.{sem};
ghost use Rattle.std.specs.Option.{option_map};
ghost use Rattle.std.specs.Prelude.{All, Err, IfErr, IfOk, OnErr, OnOk, Some, length, map, slice_get, ◌<◌, ◌↔◌, ◌≡◌};
ghost use Rattle.ir_checked_core.specs.Answers.{Answers, Made, out_of_memory, out_of_numbers, out_of_slots, own_answer, own_value, unless};
ghost use Rattle.ir_checked_core.specs.Lending.{lends_checked_block};
ghost use Rattle.ir_core_context.specs.Calls.{BlockLeadsToLive, HasArguments, IsBlock, KeepsAll, LacksOnlySlots, MakesBlock, block_needs};
ghost use Rattle.ir_core_context.specs.Lending.{WritesBlock};
ghost use Rattle.ir_core_context.specs.State.{bare, forest_of, types_of};
ghost use Rattle.ir_core_records.specs.Meaning.{definer_of, value_of};
ghost use Rattle.ir_model.specs.Calls.{attributes_of, label_of, loc_of};
ghost use Rattle.ir_model.specs.Edits.{The};
ghost use Rattle.ir_model.specs.Forest.{a_block, a_value, of_block};
ghost use Rattle.ir_model.specs.Names.{IsBlockName, block_id};
ghost use Rattle.ir_model.specs.Nesting.{IsLive, IsLiveNamed, definitions_of};
ghost use Rattle.ir_model.specs.Sessions.{LacksNumbers};

use crate::asked::are_known;
use crate::error::{Call, CheckedErr, Condition, fault};
use ir_base_dialects::{Dialects, Identifier, Ptr, TypeHandle};
use ir_core_queries::{
    BasicBlock, BasicBlockMut, BlockPtr, BlockPtrMut, Context, Named, NewBlock, Value,
};

/// Makes an unlinked block with this label, and arguments of these known types, which get new numbers in order.
///
/// # Errors
/// `Unmet` where a type isn't known. Else what the call itself is refused for.
pub fn new<D: Dialects>(
    ctx: &mut Context<D>,
    label: Option<Identifier>,
    arg_types: &[TypeHandle],
) -> Result<Ptr<BasicBlock<D>>, CheckedErr>
    ensures conditions { Answers Call.BlockNew result (unless (All (λ t. t.place < length (types_of ctx.old)) arg_types.now) Condition.UnknownType own_answer) }
    ensures made { IfOk result (λ block. MakesBlock D.unknown (bare ctx.old) (bare ctx.new) block.index label (map (λ t. t.place) arg_types.now)) }
    ensures live { IfOk result (λ block. IsLive (forest_of ctx.new) (a_block block.index)) }
    ensures counts { IfOk result (λ block. HasArguments (forest_of ctx.new) block.index (length arg_types.now)) }
    ensures keeps { Made result (KeepsAll ctx.old ctx.new) }
    ensures counter { Made result ((result ≡ Err out_of_numbers) ↔ LacksNumbers (bare ctx.old) (block_needs (length arg_types.now))) }
    ensures slots { Made result ((result ≡ Err out_of_slots) ↔ LacksOnlySlots (bare ctx.old) (block_needs (length arg_types.now))) }
    ensures err { OnErr result (ctx.new ≡ ctx.old) }
{
    if !are_known(ctx, arg_types) {
        return Err(fault!(BlockNew, UnknownType));
    }
    match BasicBlock::new(ctx, label, arg_types) {
        Ok(answer) => Ok(answer),
        Err(error) => Err(CheckedErr::Core(error)),
    }
}

/// The block under a live handle. Its arguments are live, and their types known.
///
/// # Errors
/// `Unmet` where the block isn't live.
pub fn deref<D: Dialects>(
    block: Ptr<BasicBlock<D>>,
    ctx: &Context<D>,
) -> Result<&BasicBlock<D>, CheckedErr>
    ensures conditions { Answers Call.BlockDeref result (unless (IsLive (forest_of ctx.now) (a_block block.index)) Condition.DeadBlock own_value) }
    ensures found { IfOk result (λ answer. IsBlock (forest_of ctx.now) block.index answer.now) }
    ensures leads { IfOk result (λ answer. BlockLeadsToLive (forest_of ctx.now) (length (types_of ctx.now)) block.index answer.now) }
{
    if !block.is_live(ctx) {
        return Err(fault!(BlockDeref, DeadBlock));
    }
    Ok(block.deref(ctx))
}

/// What may be written of the block: its attributes, its label and its location.
///
/// # Errors
/// `Unmet` where the block isn't live.
pub fn deref_mut<D: Dialects>(
    ctx: &mut Context<D>,
    block: Ptr<BasicBlock<D>>,
) -> Result<&mut BasicBlockMut<D>, CheckedErr>
    ensures conditions { Answers Call.BlockDerefMut result (unless (IsLive (forest_of ctx.old) (a_block block.index)) Condition.DeadBlock own_value) }
    ensures* writes_back { sem 𝓛 (lends_checked_block D.row D.Attr.row D.TypeKey.row D.TypeBody.row D.Saved.row D.Aux.row D.Loc.row D.Dialects D.Attr.Hash D.TypeKey.Hash D.TypeBody.Default D.Saved.Hash D.Loc.Default ctx.entry block.index result) }
    ensures attributes { IfOk result (λ rest. attributes_of (forest_of ctx.old) (of_block block.index) ≡ Some rest.now.attributes) }
    ensures label { IfOk result (λ rest. label_of (forest_of ctx.old) block.index ≡ Some rest.now.label) }
    ensures loc { IfOk result (λ rest. loc_of (forest_of ctx.old) (of_block block.index) ≡ Some rest.now.loc) }
    ensures written { OnOk result (WritesBlock ctx.old block.index) }
{
    if !block.is_live(ctx) {
        return Err(fault!(BlockDerefMut, DeadBlock));
    }
    Ok(BlockPtrMut::deref_mut(ctx, block))
}

/// The argument at the index.
///
/// # Errors
/// `Unmet` where the block isn't live, or the index is out of range.
pub fn get_argument<D: Dialects>(
    block: Ptr<BasicBlock<D>>,
    ctx: &Context<D>,
    index: usize,
) -> Result<Value<D>, CheckedErr>
    ensures conditions { Answers Call.BlockGetArgument result (unless (IsLive (forest_of ctx.now) (a_block block.index)) Condition.DeadBlock (unless (index < length (definitions_of (forest_of ctx.now) (of_block block.index))) Condition.OutOfRange own_value)) }
    ensures definer { IfOk result (λ answer. definer_of answer.index.definer ≡ of_block block.index) }
    ensures number { IfOk result (λ answer. option_map (λ d. d.number) (slice_get (definitions_of (forest_of ctx.now) (of_block block.index)) index) ≡ Some answer.index.number) }
    ensures live { IfOk result (λ answer. IsLiveNamed (forest_of ctx.now) (a_value (value_of answer.index))) }
{
    if !block.is_live(ctx) {
        return Err(fault!(BlockGetArgument, DeadBlock));
    }
    if block.deref(ctx).get_num_arguments() <= index {
        return Err(fault!(BlockGetArgument, OutOfRange));
    }
    Ok(block.deref(ctx).get_argument(index))
}

/// A copy of the name that a live value or block was given, if it was given one: a value's name, a block's label.
///
/// # Errors
/// `Unmet` where the block isn't live. Else what the call itself is refused for.
pub fn given_name<D: Dialects>(
    block: Ptr<BasicBlock<D>>,
    ctx: &Context<D>,
) -> Result<Option<Identifier>, CheckedErr>
    ensures conditions { Answers Call.BlockGivenName result (unless (IsLive (forest_of ctx.now) (a_block block.index)) Condition.DeadBlock own_answer) }
    ensures given { IfOk result (λ name. The ((forest_of ctx.now).blocks block.index) (λ r. name ≡ r.label)) }
    ensures memory { Made result (IfErr result (λ e. e ≡ out_of_memory)) }
{
    if !block.is_live(ctx) {
        return Err(fault!(BlockGivenName, DeadBlock));
    }
    match block.given_name(ctx) {
        Ok(answer) => Ok(answer),
        Err(error) => Err(CheckedErr::Core(error)),
    }
}

/// The id of a live value or block: `v` and the value's number, or `block`, slot, `v` and version.
///
/// # Errors
/// `Unmet` where the block isn't live. Else what the call itself is refused for.
pub fn id<D: Dialects>(
    block: Ptr<BasicBlock<D>>,
    ctx: &Context<D>,
) -> Result<Identifier, CheckedErr>
    ensures conditions { Answers Call.BlockId result (unless (IsLive (forest_of ctx.now) (a_block block.index)) Condition.DeadBlock own_answer) }
    ensures text { IfOk result (λ id. id ≡ block_id block.index) }
    ensures memory { Made result (IfErr result (λ e. e ≡ out_of_memory)) }
{
    if !block.is_live(ctx) {
        return Err(fault!(BlockId, DeadBlock));
    }
    match block.id(ctx) {
        Ok(answer) => Ok(answer),
        Err(error) => Err(CheckedErr::Core(error)),
    }
}

/// The unique name of a live value or block: its id, behind the given name and `_` where it was given one.
///
/// # Errors
/// `Unmet` where the block isn't live. Else what the call itself is refused for.
pub fn unique_name<D: Dialects>(
    block: Ptr<BasicBlock<D>>,
    ctx: &Context<D>,
) -> Result<Identifier, CheckedErr>
    ensures conditions { Answers Call.BlockUniqueName result (unless (IsLive (forest_of ctx.now) (a_block block.index)) Condition.DeadBlock own_answer) }
    ensures text { IfOk result (λ name. IsBlockName (forest_of ctx.now) block.index name) }
    ensures memory { Made result (IfErr result (λ e. e ≡ out_of_memory)) }
{
    if !block.is_live(ctx) {
        return Err(fault!(BlockUniqueName, DeadBlock));
    }
    match block.unique_name(ctx) {
        Ok(answer) => Ok(answer),
        Err(error) => Err(CheckedErr::Core(error)),
    }
}
