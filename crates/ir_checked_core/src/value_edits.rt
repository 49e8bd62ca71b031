//! The edits of a value: another type, another name, and uses that come to name another value.

ghost use Rattle.std.specs.Option.{option_map};
ghost use Rattle.std.specs.Prelude.{IfErr, IsOk, OnErr, OnOk, length, ◌<◌, ◌≡◌, ◌≢◌};
ghost use Rattle.ir_checked_core.specs.Answers.{Answers, Made, out_of_memory, own_answer, own_value, unless};
ghost use Rattle.ir_core_context.specs.Asked.{MaySay, RedirectsChosen};
ghost use Rattle.ir_core_context.specs.Calls.{KeepsAll, SameButForest};
ghost use Rattle.ir_core_context.specs.State.{bare, forest_of, types_of};
ghost use Rattle.ir_core_records.specs.Meaning.{use_of, value_of};
ghost use Rattle.ir_core_records.specs.Values.{IsLiveUse};
ghost use Rattle.ir_core_replacing.specs.Chosen.{same_use};
ghost use Rattle.ir_model.specs.Calls.{set_name as with_value_name, set_type as with_value_type};
ghost use Rattle.ir_model.specs.Changes.{redirect};
ghost use Rattle.ir_model.specs.DefinitionLaws.{TakesUses};
ghost use Rattle.ir_model.specs.Forest.{a_value};
ghost use Rattle.ir_model.specs.Nesting.{IsLiveNamed};
ghost use Rattle.ir_model.specs.Redirect.{redirect_uses};
ghost use Rattle.ir_model.specs.Uses.{IsUse};

use crate::asked::is_use_of_value;
use crate::error::{Call, CheckedErr, Condition, fault};
use ir_base_dialects::{Dialects, Identifier, TypeHandle};
use ir_core_context::Shown;
use ir_core_queries::{Context, TypeQueries, Use, UseQueries, Value, ValueEdits, ValueQueries};

/// Gives the live value this known type. Its number, its name and its uses stay.
///
/// # Errors
/// `Unmet` where the value isn't live, or the type isn't known.
pub fn set_type<D: Dialects>(
    value: Value<D>,
    ctx: &mut Context<D>,
    ty: TypeHandle,
) -> Result<(), CheckedErr>
    ensures conditions { Answers Call.ValueSetType result (unless (IsLiveNamed (forest_of ctx.old) (a_value (value_of value.index))) Condition.DeadValue (unless (ty.place < length (types_of ctx.old)) Condition.UnknownType own_value)) }
    ensures forest { OnOk result (forest_of ctx.new ≡ with_value_type (forest_of ctx.old) (value_of value.index) ty.place) }
    ensures rest { OnOk result (SameButForest (bare ctx.old) (bare ctx.new)) }
    ensures keeps { OnOk result (KeepsAll ctx.old ctx.new) }
    ensures err { OnErr result (ctx.new ≡ ctx.old) }
{
    if !value.is_live(ctx) {
        return Err(fault!(ValueSetType, DeadValue));
    }
    if !ty.is_known(ctx) {
        return Err(fault!(ValueSetType, UnknownType));
    }
    value.set_type(ctx, ty);
    Ok(())
}

/// Gives the live value this name, or none. Its number, its type and its uses stay. A name lies outside the record of what defines the value, so the caller boxes it, and this takes no memory.
///
/// # Errors
/// `Unmet` where the value isn't live.
pub fn set_name<D: Dialects>(
    value: Value<D>,
    ctx: &mut Context<D>,
    name: Option<Box<Identifier>>,
) -> Result<(), CheckedErr>
    ensures conditions { Answers Call.ValueSetName result (unless (IsLiveNamed (forest_of ctx.old) (a_value (value_of value.index))) Condition.DeadValue own_value) }
    ensures forest { OnOk result (forest_of ctx.new ≡ with_value_name (forest_of ctx.old) (value_of value.index) (option_map (λ b. b.value) name)) }
    ensures rest { OnOk result (SameButForest (bare ctx.old) (bare ctx.new)) }
    ensures keeps { OnOk result (KeepsAll ctx.old ctx.new) }
    ensures err { OnErr result (ctx.new ≡ ctx.old) }
{
    if !value.is_live(ctx) {
        return Err(fault!(ValueSetName, DeadValue));
    }
    value.set_name(ctx, name);
    Ok(())
}

/// Lets each operand that names the live value name the other live one, which then has as many uses as both had.
///
/// # Errors
/// `Unmet` where the value isn't live, or the other one isn't live. Else what the call itself is refused for.
pub fn replace_all_uses_with<D: Dialects>(
    value: Value<D>,
    ctx: &mut Context<D>,
    other: Value<D>,
) -> Result<(), CheckedErr>
    ensures conditions { Answers Call.ValueReplaceAllUsesWith result (unless (IsLiveNamed (forest_of ctx.old) (a_value (value_of value.index))) Condition.DeadValue (unless (IsLiveNamed (forest_of ctx.old) (a_value (value_of other.index))) Condition.DeadValue own_answer)) }
    ensures forest { OnOk result (forest_of ctx.new ≡ redirect (forest_of ctx.old) (value_of value.index) (value_of other.index)) }
    ensures counts { OnOk result (value_of value.index ≢ value_of other.index → TakesUses (forest_of ctx.old) (forest_of ctx.new) (a_value (value_of value.index)) (a_value (value_of other.index))) }
    ensures rest { Made result (SameButForest (bare ctx.old) (bare ctx.new)) }
    ensures keeps { Made result (KeepsAll ctx.old ctx.new) }
    ensures itself { Made result (value_of value.index ≡ value_of other.index → IsOk result) }
    ensures memory { Made result (IfErr result (λ e. e ≡ out_of_memory)) }
    ensures err { OnErr result (ctx.new ≡ ctx.old) }
{
    if !value.is_live(ctx) {
        return Err(fault!(ValueReplaceAllUsesWith, DeadValue));
    }
    if !other.is_live(ctx) {
        return Err(fault!(ValueReplaceAllUsesWith, DeadValue));
    }
    match value.replace_all_uses_with(ctx, other) {
        Ok(answer) => Ok(answer),
        Err(error) => Err(CheckedErr::Core(error)),
    }
}

/// Lets those operands that name the live value name the other live one for whose use the predicate answers yes. It is asked once for each use, in the context as it is, before anything changes.
///
/// # Errors
/// `Unmet` where the value isn't live, or the other one isn't live. Else what the call itself is refused for.
pub fn replace_some_uses_with<D: Dialects, C: Shown<D>, P: Fn(&C, Use<Value<D>>) -> bool>(
    value: Value<D>,
    ctx: &mut Context<D>,
    pred: P,
    other: Value<D>,
) -> Result<(), CheckedErr>
    requires { (context : _) (used : _) → C.shows context.now ctx.old → IsUse (forest_of ctx.old) (a_value (value_of value.index)) (use_of used.index) → P.pre pred context used }
    ensures conditions { Answers Call.ValueReplaceSomeUsesWith result (unless (IsLiveNamed (forest_of ctx.old) (a_value (value_of value.index))) Condition.DeadValue (unless (IsLiveNamed (forest_of ctx.old) (a_value (value_of other.index))) Condition.DeadValue own_answer)) }
    ensures forest { OnOk result (RedirectsChosen (forest_of ctx.old) (forest_of ctx.new) (value_of value.index) (value_of other.index) (MaySay P.Fn (λ c. C.shows c ctx.old) (λ h u. use_of h.index ≡ u) pred)) }
    ensures rest { Made result (SameButForest (bare ctx.old) (bare ctx.new)) }
    ensures keeps { Made result (KeepsAll ctx.old ctx.new) }
    ensures memory { Made result (IfErr result (λ e. e ≡ out_of_memory)) }
    ensures err { OnErr result (ctx.new ≡ ctx.old) }
{
    if !value.is_live(ctx) {
        return Err(fault!(ValueReplaceSomeUsesWith, DeadValue));
    }
    if !other.is_live(ctx) {
        return Err(fault!(ValueReplaceSomeUsesWith, DeadValue));
    }
    match value.replace_some_uses_with(ctx, pred, other) {
        Ok(answer) => Ok(answer),
        Err(error) => Err(CheckedErr::Core(error)),
    }
}

/// Lets the operand of a use of the live value name the other live one.
///
/// # Errors
/// `Unmet` where the value isn't live, the use isn't live, the use is not its own, or the other one isn't live. Else what the call itself is refused for.
pub fn replace_use_with<D: Dialects>(
    value: Value<D>,
    ctx: &mut Context<D>,
    used: Use<Value<D>>,
    other: Value<D>,
) -> Result<(), CheckedErr>
    ensures conditions { Answers Call.ValueReplaceUseWith result (unless (IsLiveNamed (forest_of ctx.old) (a_value (value_of value.index))) Condition.DeadValue (unless (IsLiveUse (forest_of ctx.old) (use_of used.index)) Condition.DeadUse (unless (IsUse (forest_of ctx.old) (a_value (value_of value.index)) (use_of used.index)) Condition.NotItsUse (unless (IsLiveNamed (forest_of ctx.old) (a_value (value_of other.index))) Condition.DeadValue own_answer)))) }
    ensures forest { OnOk result (forest_of ctx.new ≡ redirect_uses (forest_of ctx.old) (same_use (use_of used.index)) (value_of other.index)) }
    ensures rest { Made result (SameButForest (bare ctx.old) (bare ctx.new)) }
    ensures keeps { Made result (KeepsAll ctx.old ctx.new) }
    ensures itself { Made result (value_of value.index ≡ value_of other.index → IsOk result) }
    ensures memory { Made result (IfErr result (λ e. e ≡ out_of_memory)) }
    ensures err { OnErr result (ctx.new ≡ ctx.old) }
{
    if !value.is_live(ctx) {
        return Err(fault!(ValueReplaceUseWith, DeadValue));
    }
    if used.try_find_index(ctx).is_err() {
        return Err(fault!(ValueReplaceUseWith, DeadUse));
    }
    if !is_use_of_value(ctx, used, value) {
        return Err(fault!(ValueReplaceUseWith, NotItsUse));
    }
    if !other.is_live(ctx) {
        return Err(fault!(ValueReplaceUseWith, DeadValue));
    }
    match value.replace_use_with(ctx, used, other) {
        Ok(answer) => Ok(answer),
        Err(error) => Err(CheckedErr::Core(error)),
    }
}
