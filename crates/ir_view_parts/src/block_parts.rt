//! Iterators over the parts of a block.

ghost use Rattle.std.specs.Prelude.{◌≡◌, ◌<◌, ⊤, All};
ghost use Rattle.ir_model.specs.Forest.{a_value};
ghost use Rattle.ir_model.specs.Nesting.{IsLiveNamed};
ghost use Rattle.ir_core_records.specs.Meaning.{value_of};
ghost use Rattle.ir_view_parts.specs.Parts.{argument_types_of, arguments_of, WhereBlockLive};

use crate::indexed::{HasParts, Parts};
use ir_base_dialects::{Dialects, TypeHandle};
use ir_core_queries::{BasicBlock, Value, ValueIndex};

/// The arguments of a block, in order.
pub type Arguments<'a, D> = Parts<ValueIndex, ArgumentsOf<'a, D>>;

/// The types of the arguments of a block, in order.
pub type ArgumentTypes<'a, D> = Parts<usize, ArgumentTypesOf<'a, D>>;

/// What `Arguments` goes over.
#[derive_where(Clone, Copy)]
#[derive(Drop)]
pub struct ArgumentsOf<'a, D: Dialects> {
    block: &'a BasicBlock<D>,
}

impl<'a, D: Dialects> HasParts<ValueIndex> for ArgumentsOf<'a, D> {
    type Item = Value<D>;

    ghost parts = { λ s. arguments_of s.block.now };

    ghost IsReadable = { λ _. ⊤ };

    ghost seen = { λ v. v.index };

    fn part(&self, index: usize) -> Value<D> {
        self.block.get_argument(index)
    }
}

/// What `ArgumentTypes` goes over.
#[derive_where(Clone, Copy)]
#[derive(Drop)]
pub struct ArgumentTypesOf<'a, D: Dialects> {
    block: &'a BasicBlock<D>,
}

impl<'a, D: Dialects> HasParts<usize> for ArgumentTypesOf<'a, D> {
    type Item = TypeHandle;

    ghost parts = { λ s. argument_types_of s.block.now };

    ghost IsReadable = { λ _. ⊤ };

    ghost seen = { λ t. t.place };

    fn part(&self, index: usize) -> TypeHandle {
        TypeHandle::at(self.block.arguments.at(index).ty)
    }
}

/// The parts of a block, in order, without taking memory. It stands for the calls of pliron's `BasicBlock` that answer iterators.
///
/// What a context gave as the block under a live handle leads to what is live there, and to known types.
pub trait BlockParts<D: Dialects> {
    ghost use Rattle.ir_core_records.specs.declared.record.BasicBlock.{BasicBlock as Plain};

    ghost block: { Self → Plain D D.Attr D.TypeKey D.TypeBody D.Saved D.Aux D.Loc };

    /// The arguments. It stands for pliron's `BasicBlock::arguments`.
    fn arguments(&self) -> Arguments<'_, D>
        ensures exact { result ≡ arguments_of (block self.now) }
        ensures live { WhereBlockLive (block self.now) (λ f known. All (λ v. IsLiveNamed f (a_value (value_of v))) result) };

    /// The types of the arguments.
    fn argument_types(&self) -> ArgumentTypes<'_, D>
        ensures exact { result ≡ argument_types_of (block self.now) }
        ensures known { WhereBlockLive (block self.now) (λ f known. All (λ t. t < known) result) };
}

impl<D: Dialects> BlockParts<D> for BasicBlock<D> {
    ghost block = { λ b. b };

    fn arguments(&self) -> Arguments<'_, D> {
        Parts::all(ArgumentsOf { block: self }, self.get_num_arguments())
    }

    fn argument_types(&self) -> ArgumentTypes<'_, D> {
        Parts::all(ArgumentTypesOf { block: self }, self.get_num_arguments())
    }
}
