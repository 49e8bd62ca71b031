//! The operands of live operations: put in, taken out, and put in the place of others, one at a time.
//!
//! Each is registered with the value that it names, and taken off there again. All other operands, successors, lists and numbers stay, and what was live stays live.

ghost use Rattle.std.specs.Prelude.{◌≡◌, ◌<◌, ◌≤◌, ◌↔◌, ◌-◌, length, Err, Some, IfOk, OnErr, OnOk, slice_get};
ghost use Rattle.std.specs.List.{remove};
ghost use Rattle.std.specs.Option.{option_map};
ghost use Rattle.ir_model.specs.Changes.{on_op, on_operands};
ghost use Rattle.ir_model.specs.Edits.{one_use};
ghost use Rattle.ir_model.specs.Forest.{a_value, an_op};
ghost use Rattle.ir_model.specs.Nesting.{IsLive, IsLiveNamed, operands_of};
ghost use Rattle.ir_model.specs.Sessions.{LacksNumbers};
ghost use Rattle.ir_core_context.specs.Calls.{KeepsAll, SameButForest};
ghost use Rattle.ir_core_context.specs.Places.{MakesUse, operand_inserted, operand_pushed, operand_replaced};
ghost use Rattle.ir_core_context.specs.State.{bare, forest_of};

use crate::context::Context;
use crate::needs::has_use_number;
use ir_base_dialects::{CoreError, Dialects, Ptr};
use ir_core_chains::{insert_operand, pop_operand, push_operand, remove_operand, replace_operand};
use ir_core_records::{Operation, Value};

/// How the operands of a live operation are changed one at a time. A place is the operand's index.
pub trait OperandEdits<D: Dialects> {
    ghost use Rattle.ir_model.specs.declared.ids.ArenaIndex.{ArenaIndex};
    ghost use Rattle.ir_model.specs.ContextIds.{context_ids};
    ghost use Rattle.ir_model.specs.Forest.{Value as PlainValue};

    /// What an operand names.
    type Value;

    ghost index_of: { Self → ArenaIndex };

    ghost value_of: { Self.Value → PlainValue context_ids };

    /// Puts an operand that names the live value at the end, and answers its index. It stands for pliron's `Operation::push_operand`.
    ///
    /// # Errors
    /// `CounterSpent` where no use number is left, else `OutOfMemory` where a growth was refused. Then nothing has changed.
    fn push_operand(self, ctx: &mut Context<D>, value: Self::Value) -> Result<usize, CoreError>
        requires live { IsLive (forest_of ctx.old) (an_op (index_of self)) }
        requires value_live { IsLiveNamed (forest_of ctx.old) (a_value (value_of value)) }
        ensures index { IfOk result (λ at. at ≡ length (operands_of (forest_of ctx.old) (index_of self))) }
        ensures made { OnOk result (MakesUse (bare ctx.old) (bare ctx.new) (operand_pushed (forest_of ctx.old) (index_of self) (value_of value))) }
        ensures keeps { KeepsAll ctx.old ctx.new }
        ensures counter { (result ≡ Err CoreError.CounterSpent) ↔ LacksNumbers (bare ctx.old) one_use }
        ensures slots { ¬ (result ≡ Err CoreError.SlotsSpent) }
        ensures err { OnErr result (ctx.new ≡ ctx.old) };

    /// Puts an operand that names the live value at an index up to their number; what stood there and behind it moves one place on. It stands for pliron's `Operation::insert_operand`.
    ///
    /// # Errors
    /// `CounterSpent` where no use number is left, else `OutOfMemory` where a growth was refused. Then nothing has changed.
    fn insert_operand(
        self,
        ctx: &mut Context<D>,
        index: usize,
        value: Self::Value,
    ) -> Result<(), CoreError>
        requires live { IsLive (forest_of ctx.old) (an_op (index_of self)) }
        requires value_live { IsLiveNamed (forest_of ctx.old) (a_value (value_of value)) }
        requires in_range { index ≤ length (operands_of (forest_of ctx.old) (index_of self)) }
        ensures made { OnOk result (MakesUse (bare ctx.old) (bare ctx.new) (operand_inserted (forest_of ctx.old) (index_of self) index (value_of value))) }
        ensures keeps { KeepsAll ctx.old ctx.new }
        ensures counter { (result ≡ Err CoreError.CounterSpent) ↔ LacksNumbers (bare ctx.old) one_use }
        ensures slots { ¬ (result ≡ Err CoreError.SlotsSpent) }
        ensures err { OnErr result (ctx.new ≡ ctx.old) };

    /// Puts an operand that names the live value in the place of the one at the index, under a new number; the old use finds no index from then on. It stands for pliron's `Operation::replace_operand`.
    ///
    /// # Errors
    /// `CounterSpent` where no use number is left, else `OutOfMemory` where a growth was refused. Then nothing has changed.
    fn replace_operand(
        self,
        ctx: &mut Context<D>,
        index: usize,
        value: Self::Value,
    ) -> Result<(), CoreError>
        requires live { IsLive (forest_of ctx.old) (an_op (index_of self)) }
        requires value_live { IsLiveNamed (forest_of ctx.old) (a_value (value_of value)) }
        requires in_range { index < length (operands_of (forest_of ctx.old) (index_of self)) }
        ensures made { OnOk result (MakesUse (bare ctx.old) (bare ctx.new) (operand_replaced (forest_of ctx.old) (index_of self) index (value_of value))) }
        ensures keeps { KeepsAll ctx.old ctx.new }
        ensures counter { (result ≡ Err CoreError.CounterSpent) ↔ LacksNumbers (bare ctx.old) one_use }
        ensures slots { ¬ (result ≡ Err CoreError.SlotsSpent) }
        ensures err { OnErr result (ctx.new ≡ ctx.old) };

    /// Takes the operand at the index out, and answers the value that it named, which is live; those behind it move up. It stands for pliron's `Operation::remove_operand`.
    fn remove_operand(self, ctx: &mut Context<D>, index: usize) -> Self::Value
        requires live { IsLive (forest_of ctx.old) (an_op (index_of self)) }
        requires in_range { index < length (operands_of (forest_of ctx.old) (index_of self)) }
        ensures named { option_map (λ p. p.value) (slice_get (operands_of (forest_of ctx.old) (index_of self)) index) ≡ Some (value_of result) }
        ensures still_live { IsLiveNamed (forest_of ctx.new) (a_value (value_of result)) }
        ensures forest { forest_of ctx.new ≡ on_op (forest_of ctx.old) (index_of self) (on_operands (λ ps. remove ps index)) }
        ensures rest { SameButForest (bare ctx.old) (bare ctx.new) }
        ensures keeps { KeepsAll ctx.old ctx.new };

    /// Takes the last operand out, and answers the value that it named, which is live. It stands for pliron's `Operation::pop_operand`.
    fn pop_operand(self, ctx: &mut Context<D>) -> Self::Value
        requires live { IsLive (forest_of ctx.old) (an_op (index_of self)) }
        requires some { 0 < length (operands_of (forest_of ctx.old) (index_of self)) }
        ensures named { option_map (λ p. p.value) (slice_get (operands_of (forest_of ctx.old) (index_of self)) (length (operands_of (forest_of ctx.old) (index_of self)) - 1)) ≡ Some (value_of result) }
        ensures still_live { IsLiveNamed (forest_of ctx.new) (a_value (value_of result)) }
        ensures forest { forest_of ctx.new ≡ on_op (forest_of ctx.old) (index_of self) (on_operands (λ ps. remove ps (length ps - 1))) }
        ensures rest { SameButForest (bare ctx.old) (bare ctx.new) }
        ensures keeps { KeepsAll ctx.old ctx.new };
}

impl<D: Dialects> OperandEdits<D> for Ptr<Operation<D>> {
    ghost use Rattle.ir_core_records.specs.Meaning.{value_of as value_in};

    type Value = Value<D>;

    ghost index_of = { λ p. p.index };

    ghost value_of = { λ v. value_in v.index };

    #[inline(always)]
    fn push_operand(self, ctx: &mut Context<D>, value: Value<D>) -> Result<usize, CoreError> {
        has_use_number(ctx)?;
        let index = ctx.records.ops.at(self).get_num_operands();
        push_operand(&mut ctx.records, self.index, ctx.next_use, value.index)?;
        ctx.next_use += 1;
        Ok(index)
    }

    fn insert_operand(
        self,
        ctx: &mut Context<D>,
        index: usize,
        value: Value<D>,
    ) -> Result<(), CoreError> {
        has_use_number(ctx)?;
        insert_operand(
            &mut ctx.records,
            self.index,
            index,
            ctx.next_use,
            value.index,
        )?;
        ctx.next_use += 1;
        Ok(())
    }

    #[inline(always)]
    fn replace_operand(
        self,
        ctx: &mut Context<D>,
        index: usize,
        value: Value<D>,
    ) -> Result<(), CoreError> {
        has_use_number(ctx)?;
        replace_operand(
            &mut ctx.records,
            self.index,
            index,
            ctx.next_use,
            value.index,
        )?;
        ctx.next_use += 1;
        Ok(())
    }

    #[inline(always)]
    fn remove_operand(self, ctx: &mut Context<D>, index: usize) -> Value<D> {
        let value = remove_operand(&mut ctx.records, self.index, index);
        Value::from_index(value)
    }

    fn pop_operand(self, ctx: &mut Context<D>) -> Value<D> {
        let value = pop_operand(&mut ctx.records, self.index);
        Value::from_index(value)
    }
}
