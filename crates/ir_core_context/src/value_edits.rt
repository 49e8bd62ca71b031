//! The edits of a live value: another type, another name, and uses that come to name another value.
//!
//! A use keeps its number and its place among the operands of its user. Where the other value is this one, nothing changes.

ghost use Rattle.std.specs.Prelude.{◌≡◌, ◌≢◌, ◌<◌, length, option_map, Bool, IfErr, IfOk, IsOk, OnErr, OnOk};
ghost use Rattle.ir_model.specs.Calls.{set_name as with_value_name, set_type as with_value_type};
ghost use Rattle.ir_model.specs.Changes.{redirect};
ghost use Rattle.ir_model.specs.DefinitionLaws.{TakesUses};
ghost use Rattle.ir_model.specs.Forest.{a_value};
ghost use Rattle.ir_model.specs.Nesting.{IsLiveNamed};
ghost use Rattle.ir_model.specs.Redirect.{redirect_uses};
ghost use Rattle.ir_model.specs.Uses.{AreUses, IsUse};
ghost use Rattle.ir_core_records.specs.Meaning.{use_of as use_in, value_of as value_in};
ghost use Rattle.ir_core_records.specs.Table.{uses_at};
ghost use Rattle.ir_core_replacing.specs.Chosen.{same_use};
ghost use Rattle.ir_core_context.specs.Asked.{AreAnswers, MaySay, RedirectsChosen};
ghost use Rattle.ir_core_context.specs.Calls.{KeepsAll, SameButForest};
ghost use Rattle.ir_core_context.specs.State.{bare, forest_of, types_of, uses_of};

use crate::asking::{Shown, answers};
use crate::context::Context;
use ir_base_dialects::{CoreError, Dialects, Identifier, TypeHandle};
use ir_core_chains::{set_name, set_type};
use ir_core_records::{Use, UseIndex, Value, ValueIndex, uses};
use ir_core_replacing::{replace_all_uses, replace_some_uses, replace_use};

// What the predicate answers for each kept use of a live value, in their order.
fn answers_for_uses<D: Dialects, C: Shown<D>, P: Fn(&C, Use<Value<D>>) -> bool>(
    ctx: &Context<D>,
    value: ValueIndex,
    pred: &P,
) -> Result<Vec<bool>, CoreError>
    requires live { IsLiveNamed (forest_of ctx.now) (a_value (value_in value)) }
    requires callable { (context : _) (used : _) → C.shows context.now ctx.now → IsUse (forest_of ctx.now) (a_value (value_in value)) (use_in used.index) → P.pre pred.now context used }
    ensures answers { IfOk result (λ answers. AreAnswers (MaySay P.Fn (λ c. C.shows c ctx.now) (λ h u. use_in h.index ≡ u) pred.now) (uses_at ctx.now.records value) answers.items) }
    ensures exact { AreUses (forest_of ctx.now) (a_value (value_in value)) (uses_of ctx.now value) }
    ensures memory { IfErr result (λ e. e ≡ CoreError.OutOfMemory) }
{
    ctx.recall_uses_exact();
    answers(ctx, uses(&ctx.records, value).as_slice(), pred)
}

/// How a live value is changed, and what names it.
pub trait ValueEdits<D: Dialects> {
    ghost use Rattle.ir_model.specs.ContextIds.{context_ids};
    ghost use Rattle.ir_model.specs.Forest.{Value as PlainValue};
    ghost use Rattle.ir_model.specs.Uses.{Use as PlainUse};

    /// A use of a value.
    type Use;

    ghost value_of: { Self → PlainValue context_ids };

    ghost use_of: { Self.Use → PlainUse context_ids };

    /// Gives the live value this known type. Its number, its name and its uses stay. It stands for pliron's `Value::set_type`.
    fn set_type(self, ctx: &mut Context<D>, ty: TypeHandle)
        requires live { IsLiveNamed (forest_of ctx.old) (a_value (value_of self)) }
        requires known { ty.place < length (types_of ctx.old) }
        ensures forest { forest_of ctx.new ≡ with_value_type (forest_of ctx.old) (value_of self) ty.place }
        ensures rest { SameButForest (bare ctx.old) (bare ctx.new) }
        ensures keeps { KeepsAll ctx.old ctx.new };

    /// Gives the live value this name, or none. Its number, its type and its uses stay. A name lies outside the record of what defines the value, so the caller boxes it, and this takes no memory. It stands for pliron's `Value::set_name`.
    fn set_name(self, ctx: &mut Context<D>, name: Option<Box<Identifier>>)
        requires { IsLiveNamed (forest_of ctx.old) (a_value (value_of self)) }
        ensures forest { forest_of ctx.new ≡ with_value_name (forest_of ctx.old) (value_of self) (option_map (λ b. b.value) name) }
        ensures rest { SameButForest (bare ctx.old) (bare ctx.new) }
        ensures keeps { KeepsAll ctx.old ctx.new };

    /// Lets each operand that names the live value name the other live one, which then has as many uses as both had. It stands for pliron's `Value::replace_all_uses_with`.
    ///
    /// # Errors
    /// `OutOfMemory` where the list of the other value's uses had to grow and couldn't. Then nothing has changed. It doesn't come where both are one value.
    fn replace_all_uses_with(self, ctx: &mut Context<D>, other: Self) -> Result<(), CoreError>
        requires live { IsLiveNamed (forest_of ctx.old) (a_value (value_of self)) }
        requires other_live { IsLiveNamed (forest_of ctx.old) (a_value (value_of other)) }
        ensures forest { OnOk result (forest_of ctx.new ≡ redirect (forest_of ctx.old) (value_of self) (value_of other)) }
        ensures counts { OnOk result (value_of self ≢ value_of other → TakesUses (forest_of ctx.old) (forest_of ctx.new) (a_value (value_of self)) (a_value (value_of other))) }
        ensures rest { SameButForest (bare ctx.old) (bare ctx.new) }
        ensures keeps { KeepsAll ctx.old ctx.new }
        ensures itself { value_of self ≡ value_of other → IsOk result }
        ensures memory { IfErr result (λ e. e ≡ CoreError.OutOfMemory) }
        ensures err { OnErr result (ctx.new ≡ ctx.old) };

    /// Lets those operands that name the live value name the other live one for whose use the predicate answers yes. It is asked once for each use, in the context as it is, before anything changes. It stands for pliron's `Value::replace_some_uses_with`.
    ///
    /// # Errors
    /// `OutOfMemory` where there was no place for the answers, or the list of the other value's uses had to grow and couldn't. Then nothing has changed.
    fn replace_some_uses_with<C: Shown<D>, P: Fn(&C, Use<Value<D>>) -> bool>(
        self,
        ctx: &mut Context<D>,
        pred: P,
        other: Self,
    ) -> Result<(), CoreError>
        requires live { IsLiveNamed (forest_of ctx.old) (a_value (value_of self)) }
        requires other_live { IsLiveNamed (forest_of ctx.old) (a_value (value_of other)) }
        requires callable { (context : _) (used : _) → C.shows context.now ctx.old → IsUse (forest_of ctx.old) (a_value (value_of self)) (use_in used.index) → P.pre pred context used }
        ensures forest { OnOk result (RedirectsChosen (forest_of ctx.old) (forest_of ctx.new) (value_of self) (value_of other) (MaySay P.Fn (λ c. C.shows c ctx.old) (λ h u. use_in h.index ≡ u) pred)) }
        ensures rest { SameButForest (bare ctx.old) (bare ctx.new) }
        ensures keeps { KeepsAll ctx.old ctx.new }
        ensures memory { IfErr result (λ e. e ≡ CoreError.OutOfMemory) }
        ensures err { OnErr result (ctx.new ≡ ctx.old) };

    /// Lets the operand of a use of the live value name the other live one. It stands for pliron's `Value::replace_use_with`.
    ///
    /// # Errors
    /// `OutOfMemory` where the list of the other value's uses had to grow and couldn't. Then nothing has changed. It doesn't come where both are one value.
    fn replace_use_with(
        self,
        ctx: &mut Context<D>,
        used: Self::Use,
        other: Self,
    ) -> Result<(), CoreError>
        requires names { IsUse (forest_of ctx.old) (a_value (value_of self)) (use_of used) }
        requires other_live { IsLiveNamed (forest_of ctx.old) (a_value (value_of other)) }
        ensures forest { OnOk result (forest_of ctx.new ≡ redirect_uses (forest_of ctx.old) (same_use (use_of used)) (value_of other)) }
        ensures rest { SameButForest (bare ctx.old) (bare ctx.new) }
        ensures keeps { KeepsAll ctx.old ctx.new }
        ensures itself { value_of self ≡ value_of other → IsOk result }
        ensures memory { IfErr result (λ e. e ≡ CoreError.OutOfMemory) }
        ensures err { OnErr result (ctx.new ≡ ctx.old) };
}

impl<D: Dialects> ValueEdits<D> for Value<D> {
    type Use = Use<Value<D>>;

    ghost value_of = { λ v. value_in v.index };

    ghost use_of = { λ u. use_in u.index };

    fn set_type(self, ctx: &mut Context<D>, ty: TypeHandle) {
        set_type(&mut ctx.records, self.index, ty);
    }

    fn set_name(self, ctx: &mut Context<D>, name: Option<Box<Identifier>>) {
        set_name(&mut ctx.records, self.index, name);
    }

    fn replace_all_uses_with(self, ctx: &mut Context<D>, other: Value<D>) -> Result<(), CoreError> {
        replace_all_uses(&mut ctx.records, ctx.alloc, self.index, other.index)?;
        Ok(())
    }

    fn replace_some_uses_with<C: Shown<D>, P: Fn(&C, Use<Value<D>>) -> bool>(
        self,
        ctx: &mut Context<D>,
        pred: P,
        other: Value<D>,
    ) -> Result<(), CoreError> {
        let answers = answers_for_uses(ctx, self.index, &pred)?;
        replace_some_uses(
            &mut ctx.records,
            ctx.alloc,
            self.index,
            other.index,
            answers.as_slice(),
        )?;
        Ok(())
    }

    fn replace_use_with(
        self,
        ctx: &mut Context<D>,
        used: Use<Value<D>>,
        other: Value<D>,
    ) -> Result<(), CoreError> {
        replace_use(&mut ctx.records, used.index, other.index)?;
        Ok(())
    }
}
