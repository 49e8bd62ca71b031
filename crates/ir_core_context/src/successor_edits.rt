//! The successors of live operations: put in, taken out, and put in the place of others, one at a time.
//!
//! Each is registered with the block that it names, and taken off there again. All other operands, successors, lists and numbers stay, and what was live stays live.

ghost use Rattle.std.specs.Prelude.{◌≡◌, ◌<◌, ◌≤◌, ◌↔◌, ◌-◌, length, Err, Some, IfOk, OnErr, OnOk, slice_get};
ghost use Rattle.std.specs.List.{remove};
ghost use Rattle.std.specs.Option.{option_map};
ghost use Rattle.ir_model.specs.Changes.{on_op, on_successors};
ghost use Rattle.ir_model.specs.Edits.{one_use};
ghost use Rattle.ir_model.specs.Forest.{a_block, an_op};
ghost use Rattle.ir_model.specs.Nesting.{IsLive, successors_of};
ghost use Rattle.ir_model.specs.Sessions.{LacksNumbers};
ghost use Rattle.ir_core_context.specs.Calls.{KeepsAll, SameButForest};
ghost use Rattle.ir_core_context.specs.Places.{MakesUse, successor_inserted, successor_pushed, successor_replaced};
ghost use Rattle.ir_core_context.specs.State.{bare, forest_of};

use crate::context::Context;
use crate::needs::has_use_number;
use ir_base_dialects::{CoreError, Dialects, Ptr};
use ir_core_chains::{
    insert_successor, pop_successor, push_successor, remove_successor, replace_successor,
};
use ir_core_records::{BasicBlock, BlockIndex, Operation};

/// How the successors of a live operation are changed one at a time. A place is the successor's index.
pub trait SuccessorEdits<D: Dialects> {
    ghost use Rattle.ir_model.specs.declared.ids.ArenaIndex.{ArenaIndex};

    /// What a successor names.
    type Block;

    ghost index_of: { Self → ArenaIndex };

    ghost block_of: { Self.Block → ArenaIndex };

    /// Puts a successor that names the live block at the end, and answers its index. It stands for pliron's `Operation::push_successor`.
    ///
    /// # Errors
    /// `CounterSpent` where no use number is left, else `OutOfMemory` where a growth was refused. Then nothing has changed.
    fn push_successor(self, ctx: &mut Context<D>, block: Self::Block) -> Result<usize, CoreError>
        requires live { IsLive (forest_of ctx.old) (an_op (index_of self)) }
        requires block_live { IsLive (forest_of ctx.old) (a_block (block_of block)) }
        ensures index { IfOk result (λ at. at ≡ length (successors_of (forest_of ctx.old) (index_of self))) }
        ensures made { OnOk result (MakesUse (bare ctx.old) (bare ctx.new) (successor_pushed (forest_of ctx.old) (index_of self) (block_of block))) }
        ensures keeps { KeepsAll ctx.old ctx.new }
        ensures counter { (result ≡ Err CoreError.CounterSpent) ↔ LacksNumbers (bare ctx.old) one_use }
        ensures slots { ¬ (result ≡ Err CoreError.SlotsSpent) }
        ensures err { OnErr result (ctx.new ≡ ctx.old) };

    /// Puts a successor that names the live block at an index up to their number; what stood there and behind it moves one place on. It stands for pliron's `Operation::insert_successor`.
    ///
    /// # Errors
    /// `CounterSpent` where no use number is left, else `OutOfMemory` where a growth was refused. Then nothing has changed.
    fn insert_successor(
        self,
        ctx: &mut Context<D>,
        index: usize,
        block: Self::Block,
    ) -> Result<(), CoreError>
        requires live { IsLive (forest_of ctx.old) (an_op (index_of self)) }
        requires block_live { IsLive (forest_of ctx.old) (a_block (block_of block)) }
        requires in_range { index ≤ length (successors_of (forest_of ctx.old) (index_of self)) }
        ensures made { OnOk result (MakesUse (bare ctx.old) (bare ctx.new) (successor_inserted (forest_of ctx.old) (index_of self) index (block_of block))) }
        ensures keeps { KeepsAll ctx.old ctx.new }
        ensures counter { (result ≡ Err CoreError.CounterSpent) ↔ LacksNumbers (bare ctx.old) one_use }
        ensures slots { ¬ (result ≡ Err CoreError.SlotsSpent) }
        ensures err { OnErr result (ctx.new ≡ ctx.old) };

    /// Puts a successor that names the live block in the place of the one at the index, under a new number; the old use finds no index from then on. It stands for pliron's `Operation::replace_successor`.
    ///
    /// # Errors
    /// `CounterSpent` where no use number is left, else `OutOfMemory` where a growth was refused. Then nothing has changed.
    fn replace_successor(
        self,
        ctx: &mut Context<D>,
        index: usize,
        block: Self::Block,
    ) -> Result<(), CoreError>
        requires live { IsLive (forest_of ctx.old) (an_op (index_of self)) }
        requires block_live { IsLive (forest_of ctx.old) (a_block (block_of block)) }
        requires in_range { index < length (successors_of (forest_of ctx.old) (index_of self)) }
        ensures made { OnOk result (MakesUse (bare ctx.old) (bare ctx.new) (successor_replaced (forest_of ctx.old) (index_of self) index (block_of block))) }
        ensures keeps { KeepsAll ctx.old ctx.new }
        ensures counter { (result ≡ Err CoreError.CounterSpent) ↔ LacksNumbers (bare ctx.old) one_use }
        ensures slots { ¬ (result ≡ Err CoreError.SlotsSpent) }
        ensures err { OnErr result (ctx.new ≡ ctx.old) };

    /// Takes the successor at the index out, and answers the block that it named, which is live; those behind it move up. It stands for pliron's `Operation::remove_successor`.
    fn remove_successor(self, ctx: &mut Context<D>, index: usize) -> Self::Block
        requires live { IsLive (forest_of ctx.old) (an_op (index_of self)) }
        requires in_range { index < length (successors_of (forest_of ctx.old) (index_of self)) }
        ensures named { option_map (λ p. p.block) (slice_get (successors_of (forest_of ctx.old) (index_of self)) index) ≡ Some (block_of result) }
        ensures still_live { IsLive (forest_of ctx.new) (a_block (block_of result)) }
        ensures forest { forest_of ctx.new ≡ on_op (forest_of ctx.old) (index_of self) (on_successors (λ ps. remove ps index)) }
        ensures rest { SameButForest (bare ctx.old) (bare ctx.new) }
        ensures keeps { KeepsAll ctx.old ctx.new };

    /// Takes the last successor out, and answers the block that it named, which is live. It stands for pliron's `Operation::pop_successor`.
    fn pop_successor(self, ctx: &mut Context<D>) -> Self::Block
        requires live { IsLive (forest_of ctx.old) (an_op (index_of self)) }
        requires some { 0 < length (successors_of (forest_of ctx.old) (index_of self)) }
        ensures named { option_map (λ p. p.block) (slice_get (successors_of (forest_of ctx.old) (index_of self)) (length (successors_of (forest_of ctx.old) (index_of self)) - 1)) ≡ Some (block_of result) }
        ensures still_live { IsLive (forest_of ctx.new) (a_block (block_of result)) }
        ensures forest { forest_of ctx.new ≡ on_op (forest_of ctx.old) (index_of self) (on_successors (λ ps. remove ps (length ps - 1))) }
        ensures rest { SameButForest (bare ctx.old) (bare ctx.new) }
        ensures keeps { KeepsAll ctx.old ctx.new };
}

impl<D: Dialects> SuccessorEdits<D> for Ptr<Operation<D>> {
    type Block = Ptr<BasicBlock<D>>;

    ghost index_of = { λ p. p.index };

    ghost block_of = { λ p. p.index };

    fn push_successor(
        self,
        ctx: &mut Context<D>,
        block: Ptr<BasicBlock<D>>,
    ) -> Result<usize, CoreError> {
        has_use_number(ctx)?;
        let index = ctx.records.ops.at(self).get_num_successors();
        push_successor(
            &mut ctx.records,
            self.index,
            ctx.next_use,
            BlockIndex { index: block.index },
        )?;
        ctx.next_use += 1;
        Ok(index)
    }

    fn insert_successor(
        self,
        ctx: &mut Context<D>,
        index: usize,
        block: Ptr<BasicBlock<D>>,
    ) -> Result<(), CoreError> {
        has_use_number(ctx)?;
        insert_successor(
            &mut ctx.records,
            self.index,
            index,
            ctx.next_use,
            BlockIndex { index: block.index },
        )?;
        ctx.next_use += 1;
        Ok(())
    }

    fn replace_successor(
        self,
        ctx: &mut Context<D>,
        index: usize,
        block: Ptr<BasicBlock<D>>,
    ) -> Result<(), CoreError> {
        has_use_number(ctx)?;
        replace_successor(
            &mut ctx.records,
            self.index,
            index,
            ctx.next_use,
            BlockIndex { index: block.index },
        )?;
        ctx.next_use += 1;
        Ok(())
    }

    fn remove_successor(self, ctx: &mut Context<D>, index: usize) -> Ptr<BasicBlock<D>> {
        let block = remove_successor(&mut ctx.records, self.index, index);
        Ptr::from_index(block.index)
    }

    fn pop_successor(self, ctx: &mut Context<D>) -> Ptr<BasicBlock<D>> {
        let block = pop_successor(&mut ctx.records, self.index);
        Ptr::from_index(block.index)
    }
}
