//! What is told of a value: its uses, its type, its names and where it stands.

ghost use Rattle.std.specs.Option.{option_map};
ghost use Rattle.std.specs.Prelude.{All, IfErr, IfOk, IfSome, IsTrue, OnOk, Some, length, map, slice_get, ◌<◌, ◌↔◌, ◌≡◌};
ghost use Rattle.ir_checked_core.specs.Answers.{Answers, Made, out_of_memory, own_answer, own_value, unless};
ghost use Rattle.ir_core_context.specs.State.{forest_of, types_of, uses_of};
ghost use Rattle.ir_core_queries.specs.Values.{IsOfType};
ghost use Rattle.ir_core_records.specs.Meaning.{definer_of, use_of, value_of};
ghost use Rattle.ir_core_records.specs.Values.{IsLiveUse};
ghost use Rattle.ir_model.specs.Calls.{loc_of};
ghost use Rattle.ir_model.specs.ContextIds.{context_ids};
ghost use Rattle.ir_model.specs.Forest.{a_block, a_region, a_value};
ghost use Rattle.ir_model.specs.Names.{IsGivenName, IsValueName, value_id};
ghost use Rattle.ir_model.specs.Nesting.{IsLive, IsLiveNamed, numbers_of};
ghost use Rattle.ir_model.specs.Uses.{AreUses, IsUse, Use as PlainUse};
ghost use Rattle.ir_model.specs.ValueParents.{IsParentBlock, IsParentRegion};

use crate::error::{Call, CheckedErr, Condition, fault};
use ir_base_dialects::{Dialects, Identifier, Ptr, TypeHandle};
use ir_core_queries::{BasicBlock, Context, Named, Region, Use, Value, ValuePlace, ValueQueries};

/// Where a live value stands among the results of its operation, or the arguments of its block.
///
/// # Errors
/// `Unmet` where the value isn't live.
pub fn find_index<D: Dialects>(value: Value<D>, ctx: &Context<D>) -> Result<usize, CheckedErr>
    ensures conditions { Answers Call.ValueFindIndex result (unless (IsLiveNamed (forest_of ctx.now) (a_value (value_of value.index))) Condition.DeadValue own_value) }
    ensures found { IfOk result (λ answer. slice_get (numbers_of (forest_of ctx.now) (definer_of value.index.definer)) answer ≡ Some value.index.number) }
{
    if !value.is_live(ctx) {
        return Err(fault!(ValueFindIndex, DeadValue));
    }
    Ok(value.find_index(ctx))
}

/// How many uses a live value has.
///
/// # Errors
/// `Unmet` where the value isn't live.
pub fn num_uses<D: Dialects>(value: Value<D>, ctx: &Context<D>) -> Result<usize, CheckedErr>
    ensures conditions { Answers Call.ValueNumUses result (unless (IsLiveNamed (forest_of ctx.now) (a_value (value_of value.index))) Condition.DeadValue own_value) }
    ensures count { IfOk result (λ answer. answer ≡ length (uses_of ctx.now value.index)) }
    ensures exact { OnOk result (AreUses (forest_of ctx.now) (a_value (value_of value.index)) (uses_of ctx.now value.index)) }
{
    if !value.is_live(ctx) {
        return Err(fault!(ValueNumUses, DeadValue));
    }
    Ok(value.num_uses(ctx))
}

/// Whether a live value has a use.
///
/// # Errors
/// `Unmet` where the value isn't live.
pub fn is_used<D: Dialects>(value: Value<D>, ctx: &Context<D>) -> Result<bool, CheckedErr>
    ensures conditions { Answers Call.ValueIsUsed result (unless (IsLiveNamed (forest_of ctx.now) (a_value (value_of value.index))) Condition.DeadValue own_value) }
    ensures found { IfOk result (λ answer. IsTrue answer ↔ ((u : PlainUse context_ids) × IsUse (forest_of ctx.now) (a_value (value_of value.index)) u)) }
{
    if !value.is_live(ctx) {
        return Err(fault!(ValueIsUsed, DeadValue));
    }
    Ok(value.is_used(ctx))
}

/// The uses of a live value, each once. Their order is open, and the same until the context changes.
///
/// # Errors
/// `Unmet` where the value isn't live. Else what the call itself is refused for.
pub fn uses<D: Dialects>(
    value: Value<D>,
    ctx: &Context<D>,
) -> Result<Vec<Use<Value<D>>>, CheckedErr>
    ensures conditions { Answers Call.ValueUses result (unless (IsLiveNamed (forest_of ctx.now) (a_value (value_of value.index))) Condition.DeadValue own_answer) }
    ensures kept { IfOk result (λ uses. map (λ u. use_of u.index) uses.items ≡ uses_of ctx.now value.index) }
    ensures exact { Made result (AreUses (forest_of ctx.now) (a_value (value_of value.index)) (uses_of ctx.now value.index)) }
    ensures live { IfOk result (λ uses. All (λ u. IsLiveUse (forest_of ctx.now) (use_of u.index)) uses.items) }
    ensures memory { Made result (IfErr result (λ e. e ≡ out_of_memory)) }
{
    if !value.is_live(ctx) {
        return Err(fault!(ValueUses, DeadValue));
    }
    match value.uses(ctx) {
        Ok(answer) => Ok(answer),
        Err(error) => Err(CheckedErr::Core(error)),
    }
}

/// The type of a live value.
///
/// # Errors
/// `Unmet` where the value isn't live.
pub fn get_type<D: Dialects>(value: Value<D>, ctx: &Context<D>) -> Result<TypeHandle, CheckedErr>
    ensures conditions { Answers Call.ValueGetType result (unless (IsLiveNamed (forest_of ctx.now) (a_value (value_of value.index))) Condition.DeadValue own_value) }
    ensures found { IfOk result (λ answer. IsOfType (forest_of ctx.now) (value_of value.index) answer.place) }
    ensures known { IfOk result (λ answer. answer.place < length (types_of ctx.now)) }
{
    if !value.is_live(ctx) {
        return Err(fault!(ValueGetType, DeadValue));
    }
    Ok(value.get_type(ctx))
}

/// The location of what defines a live value.
///
/// # Errors
/// `Unmet` where the value isn't live.
pub fn loc<D: Dialects>(value: Value<D>, ctx: &Context<D>) -> Result<&D::Loc, CheckedErr>
    ensures conditions { Answers Call.ValueLoc result (unless (IsLiveNamed (forest_of ctx.now) (a_value (value_of value.index))) Condition.DeadValue own_value) }
    ensures found { IfOk result (λ answer. loc_of (forest_of ctx.now) (definer_of value.index.definer) ≡ Some answer.now) }
{
    if !value.is_live(ctx) {
        return Err(fault!(ValueLoc, DeadValue));
    }
    Ok(value.loc(ctx))
}

/// The block of a live argument, or the block that the operation of a live result stands in, if it stands in one.
///
/// # Errors
/// `Unmet` where the value isn't live.
pub fn get_parent_block<D: Dialects>(
    value: Value<D>,
    ctx: &Context<D>,
) -> Result<Option<Ptr<BasicBlock<D>>>, CheckedErr>
    ensures conditions { Answers Call.ValueGetParentBlock result (unless (IsLiveNamed (forest_of ctx.now) (a_value (value_of value.index))) Condition.DeadValue own_value) }
    ensures parent { IfOk result (λ answer. IsParentBlock (forest_of ctx.now) (value_of value.index) (option_map (λ p. p.index) answer)) }
    ensures live { IfOk result (λ answer. IfSome answer (λ p. IsLive (forest_of ctx.now) (a_block p.index))) }
{
    if !value.is_live(ctx) {
        return Err(fault!(ValueGetParentBlock, DeadValue));
    }
    Ok(value.get_parent_block(ctx))
}

/// The region that the block of a live value stands in, if there is one.
///
/// # Errors
/// `Unmet` where the value isn't live.
pub fn get_parent_region<D: Dialects>(
    value: Value<D>,
    ctx: &Context<D>,
) -> Result<Option<Ptr<Region>>, CheckedErr>
    ensures conditions { Answers Call.ValueGetParentRegion result (unless (IsLiveNamed (forest_of ctx.now) (a_value (value_of value.index))) Condition.DeadValue own_value) }
    ensures parent { IfOk result (λ answer. IsParentRegion (forest_of ctx.now) (value_of value.index) (option_map (λ p. p.index) answer)) }
    ensures live { IfOk result (λ answer. IfSome answer (λ p. IsLive (forest_of ctx.now) (a_region p.index))) }
{
    if !value.is_live(ctx) {
        return Err(fault!(ValueGetParentRegion, DeadValue));
    }
    Ok(value.get_parent_region(ctx))
}

/// A copy of the name that a live value or block was given, if it was given one: a value's name, a block's label.
///
/// # Errors
/// `Unmet` where the value isn't live. Else what the call itself is refused for.
pub fn given_name<D: Dialects>(
    value: Value<D>,
    ctx: &Context<D>,
) -> Result<Option<Identifier>, CheckedErr>
    ensures conditions { Answers Call.ValueGivenName result (unless (IsLiveNamed (forest_of ctx.now) (a_value (value_of value.index))) Condition.DeadValue own_answer) }
    ensures given { IfOk result (λ name. IsGivenName (forest_of ctx.now) (value_of value.index) name) }
    ensures memory { Made result (IfErr result (λ e. e ≡ out_of_memory)) }
{
    if !value.is_live(ctx) {
        return Err(fault!(ValueGivenName, DeadValue));
    }
    match value.given_name(ctx) {
        Ok(answer) => Ok(answer),
        Err(error) => Err(CheckedErr::Core(error)),
    }
}

/// The id of a live value or block: `v` and the value's number, or `block`, slot, `v` and version.
///
/// # Errors
/// `Unmet` where the value isn't live. Else what the call itself is refused for.
pub fn id<D: Dialects>(value: Value<D>, ctx: &Context<D>) -> Result<Identifier, CheckedErr>
    ensures conditions { Answers Call.ValueId result (unless (IsLiveNamed (forest_of ctx.now) (a_value (value_of value.index))) Condition.DeadValue own_answer) }
    ensures text { IfOk result (λ id. id ≡ value_id value.index.number) }
    ensures memory { Made result (IfErr result (λ e. e ≡ out_of_memory)) }
{
    if !value.is_live(ctx) {
        return Err(fault!(ValueId, DeadValue));
    }
    match value.id(ctx) {
        Ok(answer) => Ok(answer),
        Err(error) => Err(CheckedErr::Core(error)),
    }
}

/// The unique name of a live value or block: its id, behind the given name and `_` where it was given one.
///
/// # Errors
/// `Unmet` where the value isn't live. Else what the call itself is refused for.
pub fn unique_name<D: Dialects>(value: Value<D>, ctx: &Context<D>) -> Result<Identifier, CheckedErr>
    ensures conditions { Answers Call.ValueUniqueName result (unless (IsLiveNamed (forest_of ctx.now) (a_value (value_of value.index))) Condition.DeadValue own_answer) }
    ensures text { IfOk result (λ name. IsValueName (forest_of ctx.now) (value_of value.index) name) }
    ensures memory { Made result (IfErr result (λ e. e ≡ out_of_memory)) }
{
    if !value.is_live(ctx) {
        return Err(fault!(ValueUniqueName, DeadValue));
    }
    match value.unique_name(ctx) {
        Ok(answer) => Ok(answer),
        Err(error) => Err(CheckedErr::Core(error)),
    }
}
