//! What an operation tells of itself, and what callers may write of it.

ghost use Rattle.std.specs.Prelude.{◌≡◌, ◌<◌, length, Some, slice_get};
ghost use Rattle.ir_core_records.specs.Meaning.{value_of};

use crate::handles::{Use, Value};
use crate::record::{BasicBlock, Definer, Operation, OperationMut, Region, UseIndex, ValueIndex};
use ir_base_dialects::attribute::AttributeDict;
use ir_base_dialects::{Dialects, Ptr, TypeHandle};

impl<D: Dialects> Operation<D> {
    ghost use Rattle.std.specs.Option.{option_map};
    ghost use Rattle.ir_core_records.specs.Meaning.{op_index, op_record};

    /// The kind.
    pub fn kind(&self) -> u32
        ensures { result ≡ (op_record self.now).kind }
    {
        self.kind
    }

    /// How many results there are.
    pub fn get_num_results(&self) -> usize
        ensures { result ≡ length (op_record self.now).results }
    {
        self.results.len()
    }

    /// How many operands there are.
    pub fn get_num_operands(&self) -> usize
        ensures { result ≡ length (op_record self.now).operands }
    {
        self.operands.len()
    }

    /// How many successors there are.
    pub fn get_num_successors(&self) -> usize
        ensures { result ≡ length (op_record self.now).successors }
    {
        self.successors.len()
    }

    /// How many regions there are.
    pub fn num_regions(&self) -> usize
        ensures { result ≡ length (op_record self.now).regions }
    {
        self.regions.len()
    }

    /// The result at an index below their number.
    pub fn get_result(&self, index: usize) -> Value<D>
        requires { index < length (op_record self.now).results }
        ensures definer { result.index.definer ≡ Definer.Op (op_index self.now) }
        ensures number { option_map (λ d. d.number) (slice_get (op_record self.now).results index) ≡ Some result.index.number }
    {
        Value::from_index(ValueIndex {
            definer: Definer::Op(self.index),
            number: self.results.at(index).number,
        })
    }

    /// The operand at an index below their number.
    pub fn get_operand(&self, index: usize) -> Value<D>
        requires { index < length (op_record self.now).operands }
        ensures { option_map (λ a. a.value) (slice_get (op_record self.now).operands index) ≡ Some (value_of result.index) }
    {
        Value::from_index(self.operands.at(index).names())
    }

    /// The operand at an index below their number, as a use.
    pub fn get_operand_as_use(&self, index: usize) -> Use<Value<D>>
        requires { index < length (op_record self.now).operands }
        ensures user { result.index.user ≡ op_index self.now }
        ensures number { option_map (λ a. a.use_number) (slice_get (op_record self.now).operands index) ≡ Some result.index.number }
    {
        Use::from_index(UseIndex {
            user: self.index,
            number: self.operands.at(index).number(),
        })
    }

    /// The successor at an index below their number.
    pub fn get_successor(&self, index: usize) -> Ptr<BasicBlock<D>>
        requires { index < length (op_record self.now).successors }
        ensures { option_map (λ a. a.block) (slice_get (op_record self.now).successors index) ≡ Some result.index }
    {
        Ptr::from_index(self.successors.at(index).names.index)
    }

    /// The successor at an index below their number, as a use.
    pub fn get_successor_as_use(&self, index: usize) -> Use<Ptr<BasicBlock<D>>>
        requires { index < length (op_record self.now).successors }
        ensures user { result.index.user ≡ op_index self.now }
        ensures number { option_map (λ a. a.use_number) (slice_get (op_record self.now).successors index) ≡ Some result.index.number }
    {
        Use::from_index(UseIndex {
            user: self.index,
            number: self.successors.at(index).number,
        })
    }

    /// The type of the result at an index below their number.
    pub fn get_type(&self, index: usize) -> TypeHandle
        requires { index < length (op_record self.now).results }
        ensures { option_map (λ d. d.ty) (slice_get (op_record self.now).results index) ≡ Some result.place }
    {
        TypeHandle::at(self.results.at(index).ty)
    }

    /// The region at an index below their number.
    pub fn get_region(&self, index: usize) -> Ptr<Region>
        requires { index < length (op_record self.now).regions }
        ensures { slice_get (op_record self.now).regions index ≡ Some result.index }
    {
        Ptr::from_index(*self.regions.at(index))
    }

    /// The location.
    pub fn loc(&self) -> &D::Loc
        ensures { result.now ≡ (op_record self.now).loc }
    {
        &self.rest.loc
    }

    /// The attributes.
    pub fn attributes(&self) -> &AttributeDict<D>
        ensures { result.now ≡ (op_record self.now).attributes }
    {
        &self.rest.attributes
    }
}

impl<D: Dialects> OperationMut<D> {
    /// Gives the operation this location.
    pub fn set_loc(&mut self, loc: D::Loc)
        ensures { self.new ≡ record self.old { loc = loc } }
    {
        self.loc = loc;
    }
}
