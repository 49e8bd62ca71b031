//! Values, what defines them, and uses: what they tell without a context.

ghost use Rattle.std.specs.Prelude.{◌≡◌, IfSome};
ghost use Rattle.std.specs.Option.{option_map};
ghost use Rattle.ir_core_records.specs.Meaning.{closed, use_of, value_of};
ghost use Rattle.ir_core_records.specs.Values.{block_of, op_of, BlockLiveWhereValue, LiveWhereBlockUse, LiveWhereUse, LiveWhereValue};

use crate::record::{BasicBlock, Definer, Operation, UseIndex, ValueIndex};
use ir_base_dialects::{Dialects, Ptr};
use std::marker::PhantomData;

/// What defines a value. It stands for pliron's `DefiningEntity`.
#[derive_where(Clone, Copy, PartialEq, Eq, Hash)]
#[derive(Drop)]
pub enum DefiningEntity<D: Dialects> {
    /// An operation, of which the value is a result.
    Op(Ptr<Operation<D>>),
    /// A block, of which the value is an argument.
    Block(Ptr<BasicBlock<D>>),
}

/// A result of an operation or an argument of a block. It stands for pliron's `Value`.
///
/// It is an index and nothing more: two values with one index are equal, and a value outlives what it names.
#[derive_where(Clone, Copy, PartialEq, Eq, Hash)]
#[derive(Drop)]
pub struct Value<D: Dialects> {
    /// What defines it, and its number.
    pub index: ValueIndex,
    of: PhantomData<D>,
}

/// A use of a definition of type `T`, a value or a block: a user operation and a number. It stands for pliron's `Use`.
#[derive_where(Clone, Copy, PartialEq, Eq, Hash)]
#[derive(Drop)]
pub struct Use<T> {
    /// The user, and the number of the operand or successor.
    pub index: UseIndex,
    of: PhantomData<T>,
}

impl<T> Use<T> {
    /// The use with this index.
    pub fn from_index(index: UseIndex) -> Self
        ensures { result.index ≡ index }
    {
        let of = PhantomData;
        Use { index, of }
    }
}

impl<D: Dialects> Value<D> {
    ghost use Rattle.ir_core_records.specs.Values.{entity_index};

    /// The value with this index.
    pub fn from_index(index: ValueIndex) -> Self
        ensures { result.index ≡ index }
    {
        let of = PhantomData;
        Value { index, of }
    }

    /// What defines the value.
    pub fn defining_entity(self) -> DefiningEntity<D>
        ensures { entity_index result ≡ self.index.definer }
    {
        match self.index.definer {
            Definer::Op(op) => DefiningEntity::Op(Ptr::from_index(op)),
            Definer::Block(block) => DefiningEntity::Block(Ptr::from_index(block)),
        }
    }

    /// The operation of which the value is a result; none for an argument. It is live wherever the value is.
    pub fn defining_op(self) -> Option<Ptr<Operation<D>>>
        ensures op { option_map (λ p. p.index) result ≡ op_of self.index.definer }
        ensures live { IfSome result (λ p. LiveWhereValue (closed D.Attr D.TypeKey D.TypeBody D.Saved D.Aux D.Loc) (value_of self.index) p.index) }
    {
        match self.index.definer {
            Definer::Op(op) => Some(Ptr::from_index(op)),
            Definer::Block(_) => None,
        }
    }

    /// The block of which the value is an argument; none for a result. It is live wherever the value is.
    pub fn defining_block(self) -> Option<Ptr<BasicBlock<D>>>
        ensures block { option_map (λ p. p.index) result ≡ block_of self.index.definer }
        ensures live { IfSome result (λ p. BlockLiveWhereValue (closed D.Attr D.TypeKey D.TypeBody D.Saved D.Aux D.Loc) (value_of self.index) p.index) }
    {
        match self.index.definer {
            Definer::Op(_) => None,
            Definer::Block(block) => Some(Ptr::from_index(block)),
        }
    }
}

impl<D: Dialects> Use<Value<D>> {
    /// The operation that has the use. It is live wherever the use is.
    pub fn user_op(self) -> Ptr<Operation<D>>
        ensures op { result.index ≡ self.index.user }
        ensures live { LiveWhereUse (closed D.Attr D.TypeKey D.TypeBody D.Saved D.Aux D.Loc) (use_of self.index) result.index }
    {
        Ptr::from_index(self.index.user)
    }
}

impl<D: Dialects> Use<Ptr<BasicBlock<D>>> {
    /// The operation that has the use. It is live wherever the use is.
    pub fn user_op(self) -> Ptr<Operation<D>>
        ensures op { result.index ≡ self.index.user }
        ensures live { LiveWhereBlockUse (closed D.Attr D.TypeKey D.TypeBody D.Saved D.Aux D.Loc) (use_of self.index) result.index }
    {
        Ptr::from_index(self.index.user)
    }
}
