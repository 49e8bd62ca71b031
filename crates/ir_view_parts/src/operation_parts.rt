//! Iterators over the parts of an operation.

ghost use Rattle.std.specs.Prelude.{◌≡◌, ◌<◌, ⊤, All, length, map};
ghost use Rattle.std.specs.List.{AllZip};
ghost use Rattle.ir_model.specs.Forest.{a_block, a_region, a_value};
ghost use Rattle.ir_model.specs.Nesting.{IsLive, IsLiveNamed};
ghost use Rattle.ir_core_records.specs.Meaning.{op_record, use_of, value_of};
ghost use Rattle.ir_core_records.specs.Values.{IsLiveBlockUse, IsLiveUse};
ghost use Rattle.ir_core_queries.specs.State.{forest_of, types_of};
ghost use Rattle.ir_core_queries.specs.Values.{IsOfType};
ghost use Rattle.ir_view_parts.specs.Parts.{OperandsAreLive, operand_uses_of, result_types_of, results_of, successor_uses_of, successor_blocks_of, WhereLive};

use crate::indexed::{HasParts, Parts};
use ir_base_dialects::{ArenaIndex, Dialects, Ptr, TypeHandle};
use ir_core_queries::{
    BasicBlock, Context, Operation, Region, Use, UseIndex, Value, ValueIndex, ValueQueries,
};

/// The results of an operation, in order.
pub type Results<'a, D> = Parts<ValueIndex, ResultsOf<'a, D>>;

/// The types of the results of an operation, in order.
pub type ResultTypes<'a, D> = Parts<usize, ResultTypesOf<'a, D>>;

/// The values that an operation names, in the order of its operands.
pub type Operands<'a, D> = Parts<ValueIndex, OperandsOf<'a, D>>;

/// The operands of an operation as uses, in order.
pub type OperandUses<'a, D> = Parts<UseIndex, OperandUsesOf<'a, D>>;

/// The types of the values that an operation names, in the order of its operands.
pub type OperandTypes<'a, D> = Parts<usize, OperandTypesOf<'a, D>>;

/// The blocks that an operation names, in the order of its successors.
pub type Successors<'a, D> = Parts<ArenaIndex, SuccessorsOf<'a, D>>;

/// The successors of an operation as uses, in order.
pub type SuccessorUses<'a, D> = Parts<UseIndex, SuccessorUsesOf<'a, D>>;

/// The regions of an operation, in order.
pub type Regions<'a, D> = Parts<ArenaIndex, RegionsOf<'a, D>>;

/// What `Results` goes over.
#[derive_where(Clone, Copy)]
#[derive(Drop)]
pub struct ResultsOf<'a, D: Dialects> {
    op: &'a Operation<D>,
}

impl<'a, D: Dialects> HasParts<ValueIndex> for ResultsOf<'a, D> {
    type Item = Value<D>;

    ghost parts = { λ s. results_of s.op.now };

    ghost IsReadable = { λ _. ⊤ };

    ghost seen = { λ v. v.index };

    fn part(&self, index: usize) -> Value<D> {
        self.op.get_result(index)
    }
}

/// What `ResultTypes` goes over.
#[derive_where(Clone, Copy)]
#[derive(Drop)]
pub struct ResultTypesOf<'a, D: Dialects> {
    op: &'a Operation<D>,
}

impl<'a, D: Dialects> HasParts<usize> for ResultTypesOf<'a, D> {
    type Item = TypeHandle;

    ghost parts = { λ s. result_types_of s.op.now };

    ghost IsReadable = { λ _. ⊤ };

    ghost seen = { λ t. t.place };

    fn part(&self, index: usize) -> TypeHandle {
        self.op.get_type(index)
    }
}

/// What `Operands` goes over.
#[derive_where(Clone, Copy)]
#[derive(Drop)]
pub struct OperandsOf<'a, D: Dialects> {
    op: &'a Operation<D>,
}

impl<'a, D: Dialects> HasParts<ValueIndex> for OperandsOf<'a, D> {
    type Item = Value<D>;

    ghost parts = { λ s. map (λ a. a.names) s.op.now.operands };

    ghost IsReadable = { λ _. ⊤ };

    ghost seen = { λ v. v.index };

    fn part(&self, index: usize) -> Value<D> {
        Value::from_index(self.op.operands.at(index).names())
    }
}

/// What `OperandUses` goes over.
#[derive_where(Clone, Copy)]
#[derive(Drop)]
pub struct OperandUsesOf<'a, D: Dialects> {
    op: &'a Operation<D>,
}

impl<'a, D: Dialects> HasParts<UseIndex> for OperandUsesOf<'a, D> {
    type Item = Use<Value<D>>;

    ghost parts = { λ s. operand_uses_of s.op.now };

    ghost IsReadable = { λ _. ⊤ };

    ghost seen = { λ u. u.index };

    fn part(&self, index: usize) -> Use<Value<D>> {
        self.op.get_operand_as_use(index)
    }
}

/// What `OperandTypes` goes over.
#[derive_where(Clone, Copy)]
#[derive(Drop)]
pub struct OperandTypesOf<'a, D: Dialects> {
    op: &'a Operation<D>,
    ctx: &'a Context<D>,
}

impl<'a, D: Dialects> HasParts<usize> for OperandTypesOf<'a, D> {
    ghost use Rattle.ir_view_parts.specs.Types.{operand_types_of};

    type Item = TypeHandle;

    ghost parts = { λ s. operand_types_of (forest_of s.ctx.now) s.op.now };

    ghost IsReadable = { λ s. OperandsAreLive (forest_of s.ctx.now) s.op.now };

    ghost seen = { λ t. t.place };

    fn part(&self, index: usize) -> TypeHandle {
        self.ctx.recall_well_formed();
        self.op.get_operand(index).get_type(self.ctx)
    }
}

/// What `Successors` goes over.
#[derive_where(Clone, Copy)]
#[derive(Drop)]
pub struct SuccessorsOf<'a, D: Dialects> {
    op: &'a Operation<D>,
}

impl<'a, D: Dialects> HasParts<ArenaIndex> for SuccessorsOf<'a, D> {
    type Item = Ptr<BasicBlock<D>>;

    ghost parts = { λ s. successor_blocks_of s.op.now };

    ghost IsReadable = { λ _. ⊤ };

    ghost seen = { λ p. p.index };

    fn part(&self, index: usize) -> Ptr<BasicBlock<D>> {
        self.op.get_successor(index)
    }
}

/// What `SuccessorUses` goes over.
#[derive_where(Clone, Copy)]
#[derive(Drop)]
pub struct SuccessorUsesOf<'a, D: Dialects> {
    op: &'a Operation<D>,
}

impl<'a, D: Dialects> HasParts<UseIndex> for SuccessorUsesOf<'a, D> {
    type Item = Use<Ptr<BasicBlock<D>>>;

    ghost parts = { λ s. successor_uses_of s.op.now };

    ghost IsReadable = { λ _. ⊤ };

    ghost seen = { λ u. u.index };

    fn part(&self, index: usize) -> Use<Ptr<BasicBlock<D>>> {
        self.op.get_successor_as_use(index)
    }
}

/// What `Regions` goes over.
#[derive_where(Clone, Copy)]
#[derive(Drop)]
pub struct RegionsOf<'a, D: Dialects> {
    op: &'a Operation<D>,
}

impl<'a, D: Dialects> HasParts<ArenaIndex> for RegionsOf<'a, D> {
    type Item = Ptr<Region>;

    ghost parts = { λ s. (op_record s.op.now).regions };

    ghost IsReadable = { λ _. ⊤ };

    ghost seen = { λ p. p.index };

    fn part(&self, index: usize) -> Ptr<Region> {
        self.op.get_region(index)
    }
}

/// The parts of an operation, in order, without taking memory. It stands for the calls of pliron's `Operation` that answer iterators.
///
/// What a context gave as the operation under a live handle leads to what is live there, and to known types.
pub trait OperationParts<D: Dialects> {
    ghost use Rattle.ir_core_records.specs.declared.record.Operation.{Operation as Plain};

    ghost operation: { Self → Plain D D.Attr D.TypeKey D.TypeBody D.Saved D.Aux D.Loc };

    /// The results. It stands for pliron's `Operation::results`.
    fn results(&self) -> Results<'_, D>
        ensures exact { result ≡ results_of (operation self.now) }
        ensures live { WhereLive (operation self.now) (λ f known. All (λ v. IsLiveNamed f (a_value (value_of v))) result) };

    /// The types of the results. It stands for pliron's `Operation::result_types`.
    fn result_types(&self) -> ResultTypes<'_, D>
        ensures exact { result ≡ result_types_of (operation self.now) }
        ensures known { WhereLive (operation self.now) (λ f known. All (λ t. t < known) result) };

    /// The values that the operands name. It stands for pliron's `Operation::operands`.
    fn operands(&self) -> Operands<'_, D>
        ensures exact { map value_of result ≡ map (λ a. a.value) (op_record (operation self.now)).operands }
        ensures live { WhereLive (operation self.now) (λ f known. All (λ v. IsLiveNamed f (a_value (value_of v))) result) };

    /// The operands as uses. It stands for pliron's `Operation::operands_as_uses`.
    fn operands_as_uses(&self) -> OperandUses<'_, D>
        ensures exact { result ≡ operand_uses_of (operation self.now) }
        ensures live { WhereLive (operation self.now) (λ f known. All (λ u. IsLiveUse f (use_of u)) result) };

    /// The types of the values that the operands name. Each of these is live in the context: so it is where the context gave the operation, and `is_live` tells it of one. It stands for pliron's `Operation::operand_types`.
    fn operand_types<'a>(&'a self, ctx: &'a Context<D>) -> OperandTypes<'a, D>
        requires { OperandsAreLive (forest_of ctx.now) (operation self.now) }
        ensures exact { AllZip (λ a t. IsOfType (forest_of ctx.now) a.value t) (op_record (operation self.now)).operands result }
        ensures known { All (λ t. t < length (types_of ctx.now)) result };

    /// The blocks that the successors name. It stands for pliron's `Operation::successors`.
    fn successors(&self) -> Successors<'_, D>
        ensures exact { result ≡ successor_blocks_of (operation self.now) }
        ensures live { WhereLive (operation self.now) (λ f known. All (λ b. IsLive f (a_block b)) result) };

    /// The successors as uses. It stands for pliron's `Operation::successors_as_uses`.
    fn successors_as_uses(&self) -> SuccessorUses<'_, D>
        ensures exact { result ≡ successor_uses_of (operation self.now) }
        ensures live { WhereLive (operation self.now) (λ f known. All (λ u. IsLiveBlockUse f (use_of u)) result) };

    /// The regions. It stands for pliron's `Operation::regions`.
    fn regions(&self) -> Regions<'_, D>
        ensures exact { result ≡ (op_record (operation self.now)).regions }
        ensures live { WhereLive (operation self.now) (λ f known. All (λ g. IsLive f (a_region g)) result) };
}

impl<D: Dialects> OperationParts<D> for Operation<D> {
    ghost operation = { λ op. op };

    fn results(&self) -> Results<'_, D> {
        Parts::all(ResultsOf { op: self }, self.get_num_results())
    }

    fn result_types(&self) -> ResultTypes<'_, D> {
        Parts::all(ResultTypesOf { op: self }, self.get_num_results())
    }

    fn operands(&self) -> Operands<'_, D> {
        Parts::all(OperandsOf { op: self }, self.get_num_operands())
    }

    fn operands_as_uses(&self) -> OperandUses<'_, D> {
        Parts::all(OperandUsesOf { op: self }, self.get_num_operands())
    }

    fn operand_types<'a>(&'a self, ctx: &'a Context<D>) -> OperandTypes<'a, D> {
        ctx.recall_well_formed();
        Parts::all(OperandTypesOf { op: self, ctx }, self.get_num_operands())
    }

    fn successors(&self) -> Successors<'_, D> {
        Parts::all(SuccessorsOf { op: self }, self.get_num_successors())
    }

    fn successors_as_uses(&self) -> SuccessorUses<'_, D> {
        Parts::all(SuccessorUsesOf { op: self }, self.get_num_successors())
    }

    fn regions(&self) -> Regions<'_, D> {
        Parts::all(RegionsOf { op: self }, self.num_regions())
    }
}
