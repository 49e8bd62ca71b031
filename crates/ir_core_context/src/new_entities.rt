//! How callers make operations, blocks and regions: whole or not at all.
//!
//! Each call asks first whether there are numbers and slots enough. What was live stays live, whether it is done or refused.

ghost use Rattle.std.specs.Prelude.{◌≡◌, ◌+◌, ◌<◌, ◌↔◌, All, length, map, Err, IfOk, OnErr};
ghost use Rattle.ir_model.specs.Forest.{a_block, a_region, a_value, an_op};
ghost use Rattle.ir_model.specs.Nesting.{IsLive, IsLiveNamed};
ghost use Rattle.ir_model.specs.Sessions.{LacksNumbers, LacksSlots};
ghost use Rattle.ir_core_records.specs.Meaning.{value_of};
ghost use Rattle.ir_core_context.specs.Calls.{HasArguments, HasCounts, KeepsAll, MakesBlock, MakesOperation, MakesRegion, SkipsAtMost, block_needs, region_needs, needs_of, LacksOnlySlots};
ghost use Rattle.ir_core_context.specs.State.{bare, forest_of, types_of};

use crate::context::Context;
use crate::creation::{Parts, create_block, create_operation, create_region};
use crate::needs::Needs;
use ir_base_dialects::{CoreError, Dialects, Identifier, Ptr, TypeHandle};
use ir_core_records::{BasicBlock, Operation, Region, Value};

/// How an operation is made. It stands for pliron's `Operation::new`.
pub trait NewOperation<D: Dialects> {
    /// Makes an unlinked operation of this kind, with results of these types, these operands and successors, and so many empty regions. Results get new numbers in order, and so do operands and then successors.
    ///
    /// The types are known, and the values and blocks live.
    ///
    /// # Errors
    /// `CounterSpent` where too few value or use numbers are left, else `SlotsSpent` where too few slots are, else `OutOfMemory` where a growth was refused. Then the context means what it meant before, though numbers and slots may have been skipped.
    fn new(
        ctx: &mut Context<D>,
        kind: u32,
        result_types: &[TypeHandle],
        operands: &[Value<D>],
        successors: &[Ptr<BasicBlock<D>>],
        num_regions: usize,
    ) -> Result<Ptr<Operation<D>>, CoreError>
        requires types { All (λ t. t.place < length (types_of ctx.old)) result_types.now }
        requires operands { All (λ v. IsLiveNamed (forest_of ctx.old) (a_value (value_of v.index))) operands.now }
        requires successors { All (λ b. IsLive (forest_of ctx.old) (a_block b.index)) successors.now }
        ensures made { IfOk result (λ op. MakesOperation D.unknown (bare ctx.old) (bare ctx.new) op.index kind (map (λ t. t.place) result_types.now) (map (λ v. value_of v.index) operands.now) (map (λ b. b.index) successors.now) num_regions) }
        ensures live { IfOk result (λ op. IsLive (forest_of ctx.new) (an_op op.index)) }
        ensures counts { IfOk result (λ op. HasCounts (forest_of ctx.new) op.index (length result_types.now) (length operands.now) (length successors.now) num_regions) }
        ensures keeps { KeepsAll ctx.old ctx.new }
        ensures counter { (result ≡ Err CoreError.CounterSpent) ↔ LacksNumbers (bare ctx.old) (needs_of result_types.now operands.now successors.now num_regions) }
        ensures slots { (result ≡ Err CoreError.SlotsSpent) ↔ LacksOnlySlots (bare ctx.old) (needs_of result_types.now operands.now successors.now num_regions) }
        ensures refused { OnErr result (SkipsAtMost (bare ctx.old) (bare ctx.new) (needs_of result_types.now operands.now successors.now num_regions)) };
}

impl<D: Dialects> NewOperation<D> for Operation<D> {
    fn new(
        ctx: &mut Context<D>,
        kind: u32,
        result_types: &[TypeHandle],
        operands: &[Value<D>],
        successors: &[Ptr<BasicBlock<D>>],
        num_regions: usize,
    ) -> Result<Ptr<Operation<D>>, CoreError> {
        ctx.covers(Needs {
            ops: 1,
            regions: num_regions,
            values: result_types.len(),
            operands: operands.len(),
            successors: successors.len(),
            ..Needs::none()
        })?;
        let parts = Parts {
            kind,
            types: result_types,
            operands,
            successors,
            num_regions,
        };
        Ok(Ptr::from_index(create_operation(ctx, &parts)?))
    }
}

/// How a block is made. It stands for pliron's `BasicBlock::new`.
pub trait NewBlock<D: Dialects> {
    /// Makes an unlinked block with this label, and arguments of these known types, which get new numbers in order.
    ///
    /// # Errors
    /// `CounterSpent` where too few value numbers are left, else `SlotsSpent` where no slot is, else `OutOfMemory` where a growth was refused. Then nothing has changed.
    fn new(
        ctx: &mut Context<D>,
        label: Option<Identifier>,
        arg_types: &[TypeHandle],
    ) -> Result<Ptr<BasicBlock<D>>, CoreError>
        requires types { All (λ t. t.place < length (types_of ctx.old)) arg_types.now }
        ensures made { IfOk result (λ block. MakesBlock D.unknown (bare ctx.old) (bare ctx.new) block.index label (map (λ t. t.place) arg_types.now)) }
        ensures live { IfOk result (λ block. IsLive (forest_of ctx.new) (a_block block.index)) }
        ensures counts { IfOk result (λ block. HasArguments (forest_of ctx.new) block.index (length arg_types.now)) }
        ensures keeps { KeepsAll ctx.old ctx.new }
        ensures counter { (result ≡ Err CoreError.CounterSpent) ↔ LacksNumbers (bare ctx.old) (block_needs (length arg_types.now)) }
        ensures slots { (result ≡ Err CoreError.SlotsSpent) ↔ LacksOnlySlots (bare ctx.old) (block_needs (length arg_types.now)) }
        ensures err { OnErr result (ctx.new ≡ ctx.old) };
}

impl<D: Dialects> NewBlock<D> for BasicBlock<D> {
    fn new(
        ctx: &mut Context<D>,
        label: Option<Identifier>,
        arg_types: &[TypeHandle],
    ) -> Result<Ptr<BasicBlock<D>>, CoreError> {
        ctx.covers(Needs {
            blocks: 1,
            values: arg_types.len(),
            ..Needs::none()
        })?;
        Ok(Ptr::from_index(create_block(ctx, label, arg_types)?))
    }
}

/// How a live operation gets another region. It stands for pliron's `Operation::add_region`.
pub trait AddRegion<D: Dialects> {
    ghost use Rattle.ir_model.specs.declared.ids.ArenaIndex.{ArenaIndex};

    ghost index_of: { Self → ArenaIndex };

    /// Makes an empty region, the last of the live operation.
    ///
    /// # Errors
    /// `SlotsSpent` where no slot is left, else `OutOfMemory` where a growth was refused. Then the context means what it meant before, though a slot may have been skipped.
    fn add_region(self, ctx: &mut Context<D>) -> Result<Ptr<Region>, CoreError>
        requires { IsLive (forest_of ctx.old) (an_op (index_of self)) }
        ensures made { IfOk result (λ region. MakesRegion (bare ctx.old) (bare ctx.new) (index_of self) region.index) }
        ensures live { IfOk result (λ region. IsLive (forest_of ctx.new) (a_region region.index)) }
        ensures op_live { IsLive (forest_of ctx.new) (an_op (index_of self)) }
        ensures keeps { KeepsAll ctx.old ctx.new }
        ensures counter { ¬ (result ≡ Err CoreError.CounterSpent) }
        ensures slots { (result ≡ Err CoreError.SlotsSpent) ↔ LacksSlots (bare ctx.old) region_needs }
        ensures refused { OnErr result (SkipsAtMost (bare ctx.old) (bare ctx.new) region_needs) };
}

impl<D: Dialects> AddRegion<D> for Ptr<Operation<D>> {
    ghost index_of = { λ p. p.index };

    fn add_region(self, ctx: &mut Context<D>) -> Result<Ptr<Region>, CoreError> {
        ctx.recall_keeps_to_limits();
        ctx.covers(Needs {
            regions: 1,
            ..Needs::none()
        })?;
        Ok(Ptr::from_index(create_region(ctx, self.index())?))
    }
}
