//! The arguments of live blocks: put in and taken out, one at a time.
//!
//! One that comes in has a new number, no name and no uses, and only one that nothing names goes. All other arguments, all uses, lists and numbers stay.

ghost use Rattle.std.specs.Prelude.{◌≡◌, ◌<◌, ◌≤◌, ◌↔◌, length, Err, IfOk, OnErr, OnOk};
ghost use Rattle.ir_model.specs.Edits.{one_number};
ghost use Rattle.ir_model.specs.Forest.{a_block, of_block};
ghost use Rattle.ir_model.specs.Nesting.{IsLive, definitions_of};
ghost use Rattle.ir_model.specs.Sessions.{LacksNumbers};
ghost use Rattle.ir_core_context.specs.Calls.{EntitiesStayLive, KeepsAll, SameButForest};
ghost use Rattle.ir_core_context.specs.Definitions.{MakesValue, StayLiveBut, UnusedAt, ValueAt, definition_inserted, definition_popped, definition_pushed, definition_removed, last_place};
ghost use Rattle.ir_core_context.specs.State.{bare, forest_of, types_of};

use crate::context::Context;
use crate::definition_edits::{insert_value, pop_value, push_value, remove_value};
use ir_base_dialects::{CoreError, Dialects, Ptr, TypeHandle};
use ir_core_records::{BasicBlock, Definer};

/// How the arguments of a live block are changed one at a time. A place is the argument's index.
pub trait ArgumentEdits<D: Dialects> {
    ghost use Rattle.ir_model.specs.declared.ids.ArenaIndex.{ArenaIndex};

    ghost index_of: { Self → ArenaIndex };

    /// Puts an argument of the known type at the end, and answers its index. It has a new number, no name and no uses. It stands for pliron's `BasicBlock::push_argument`.
    ///
    /// # Errors
    /// `CounterSpent` where no value number is left, else `OutOfMemory` where a growth was refused. Then nothing has changed.
    fn push_argument(self, ctx: &mut Context<D>, ty: TypeHandle) -> Result<usize, CoreError>
        requires live { IsLive (forest_of ctx.old) (a_block (index_of self)) }
        requires known { ty.place < length (types_of ctx.old) }
        ensures index { IfOk result (λ at. at ≡ length (definitions_of (forest_of ctx.old) (of_block (index_of self)))) }
        ensures made { OnOk result (MakesValue (bare ctx.old) (bare ctx.new) (definition_pushed (forest_of ctx.old) (of_block (index_of self)) ty.place)) }
        ensures keeps { KeepsAll ctx.old ctx.new }
        ensures counter { (result ≡ Err CoreError.CounterSpent) ↔ LacksNumbers (bare ctx.old) one_number }
        ensures slots { ¬ (result ≡ Err CoreError.SlotsSpent) }
        ensures err { OnErr result (ctx.new ≡ ctx.old) };

    /// Puts an argument of the known type at an index up to their number; what stood there and behind it moves one place on. It has a new number, no name and no uses. It stands for pliron's `BasicBlock::insert_argument`.
    ///
    /// # Errors
    /// `CounterSpent` where no value number is left, else `OutOfMemory` where a growth was refused. Then nothing has changed.
    fn insert_argument(
        self,
        ctx: &mut Context<D>,
        index: usize,
        ty: TypeHandle,
    ) -> Result<(), CoreError>
        requires live { IsLive (forest_of ctx.old) (a_block (index_of self)) }
        requires in_range { index ≤ length (definitions_of (forest_of ctx.old) (of_block (index_of self))) }
        requires known { ty.place < length (types_of ctx.old) }
        ensures made { OnOk result (MakesValue (bare ctx.old) (bare ctx.new) (definition_inserted (forest_of ctx.old) (of_block (index_of self)) index ty.place)) }
        ensures keeps { KeepsAll ctx.old ctx.new }
        ensures counter { (result ≡ Err CoreError.CounterSpent) ↔ LacksNumbers (bare ctx.old) one_number }
        ensures slots { ¬ (result ≡ Err CoreError.SlotsSpent) }
        ensures err { OnErr result (ctx.new ≡ ctx.old) };

    /// Takes the argument at the index out, which is there and which nothing names, as `is_used` tells; those behind it move up. All that was live stays live but this argument. It stands for pliron's `BasicBlock::remove_argument`.
    fn remove_argument(self, ctx: &mut Context<D>, index: usize)
        requires live { IsLive (forest_of ctx.old) (a_block (index_of self)) }
        requires unused { UnusedAt (forest_of ctx.old) (of_block (index_of self)) index }
        ensures forest { forest_of ctx.new ≡ definition_removed (forest_of ctx.old) (of_block (index_of self)) index }
        ensures rest { SameButForest (bare ctx.old) (bare ctx.new) }
        ensures stay_live { ValueAt (forest_of ctx.old) (of_block (index_of self)) index (StayLiveBut (forest_of ctx.old) (forest_of ctx.new)) }
        ensures entities_stay_live { EntitiesStayLive (forest_of ctx.old) (forest_of ctx.new) };

    /// Takes the last argument out, which is there and which nothing names, as `is_used` tells. All that was live stays live but this argument. It stands for pliron's `BasicBlock::pop_argument`.
    fn pop_argument(self, ctx: &mut Context<D>)
        requires live { IsLive (forest_of ctx.old) (a_block (index_of self)) }
        requires unused { UnusedAt (forest_of ctx.old) (of_block (index_of self)) (last_place (forest_of ctx.old) (of_block (index_of self))) }
        ensures forest { forest_of ctx.new ≡ definition_popped (forest_of ctx.old) (of_block (index_of self)) }
        ensures rest { SameButForest (bare ctx.old) (bare ctx.new) }
        ensures stay_live { ValueAt (forest_of ctx.old) (of_block (index_of self)) (last_place (forest_of ctx.old) (of_block (index_of self))) (StayLiveBut (forest_of ctx.old) (forest_of ctx.new)) }
        ensures entities_stay_live { EntitiesStayLive (forest_of ctx.old) (forest_of ctx.new) };
}

impl<D: Dialects> ArgumentEdits<D> for Ptr<BasicBlock<D>> {
    ghost index_of = { λ p. p.index };

    fn push_argument(self, ctx: &mut Context<D>, ty: TypeHandle) -> Result<usize, CoreError> {
        push_value(ctx, Definer::Block(self.index), ty)
    }

    fn insert_argument(
        self,
        ctx: &mut Context<D>,
        index: usize,
        ty: TypeHandle,
    ) -> Result<(), CoreError> {
        insert_value(ctx, Definer::Block(self.index), index, ty)
    }

    fn remove_argument(self, ctx: &mut Context<D>, index: usize) {
        remove_value(ctx, Definer::Block(self.index), index);
    }

    fn pop_argument(self, ctx: &mut Context<D>) {
        pop_value(ctx, Definer::Block(self.index));
    }
}
