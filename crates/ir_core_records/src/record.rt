//! What operations, blocks and regions keep. Records name each other by indices, never by handles.
//!
//! Each definition keeps the list of its uses, and each place that names one the place of its use in that list. Lists of common sizes lie in the record itself.

use crate::definitions::Definitions;
use crate::kept_operand::KeptOperand;
use crate::kept_use::KeptUse;
use crate::use_rank::UseRank;
use ir_base_arenas::Link;
use ir_base_dialects::attribute::AttributeDict;
use ir_base_dialects::{ArenaIndex, Dialects, Identifier, PlainSeq, Seq};

/// An operation, a block or a region, as an index.
#[derive(Clone, Copy, Debug, Drop, PartialEq, Eq, Hash)]
pub enum EntityIndex {
    /// An operation.
    Op(ArenaIndex),
    /// A block.
    Block(ArenaIndex),
    /// A region.
    Region(ArenaIndex),
}

/// What defines a value, as an index.
#[derive(Clone, Copy, Debug, Drop, PartialEq, Eq, Hash)]
pub enum Definer {
    /// An operation, of which the value is a result.
    Op(ArenaIndex),
    /// A block, of which the value is an argument.
    Block(ArenaIndex),
}

/// A value, as an index and a number.
#[derive(Clone, Copy, Debug, Drop, PartialEq, Eq, Hash)]
pub struct ValueIndex {
    /// What defines it.
    pub definer: Definer,
    /// Its number among all values.
    pub number: u64,
}

/// A block as what a successor names.
#[derive(Clone, Copy, Debug, Drop, PartialEq, Eq, Hash)]
pub struct BlockIndex {
    /// Its index.
    pub index: ArenaIndex,
}

/// A use: the operation that names a definition, and the number of the place that names it.
#[derive(Clone, Copy, Debug, Drop, PartialEq, Eq, Hash)]
pub struct UseIndex {
    /// The operation.
    pub user: ArenaIndex,
    /// The number among all uses.
    pub number: u64,
}

/// The uses of a definition, in any order. Two of them take no allocation.
pub type Uses = PlainSeq<KeptUse, 2>;

/// An operand or a successor: a place that names a definition.
#[derive(Clone, Copy, Drop)]
pub struct UsePlace<N> {
    /// Its number among all uses.
    pub number: u64,
    /// What it names.
    pub names: N,
    /// Where its use stands among the uses of what it names.
    pub place: UseRank,
}

/// The operands of an operation, in order. Two of them take no allocation.
pub type Operands = PlainSeq<KeptOperand, 2>;

/// The successors of an operation, in order. Most operations have none, so they lie outside the record.
pub type Successors = Seq<UsePlace<BlockIndex>>;

/// A result of an operation or an argument of a block.
#[derive(Drop)]
pub struct Definition {
    /// Its number among all values.
    pub number: u64,
    /// The place of its type.
    pub ty: usize,
    /// The name that it was given. Few have one, so it lies outside the record.
    pub name: Option<Box<Identifier>>,
    /// Its uses.
    pub uses: Uses,
}

/// What callers may write of an operation. It stands for the public fields of pliron's `Operation`.
#[derive(Drop)]
pub struct OperationMut<D: Dialects> {
    /// The attributes.
    pub attributes: AttributeDict<D>,
    /// The location.
    pub loc: D::Loc,
}

/// An operation: its kind, what it defines, what it uses, and its regions. It stands for pliron's `Operation`.
#[derive(Drop)]
pub struct Operation<D: Dialects> {
    /// Its own place in the arena.
    pub index: ArenaIndex,
    /// Its kind.
    pub kind: u32,
    /// Its results.
    pub results: Definitions,
    /// Its operands.
    pub operands: Operands,
    /// Its successors.
    pub successors: Successors,
    /// Its regions, in order.
    pub regions: Seq<ArenaIndex>,
    /// The operation after it in its block.
    pub next: Link,
    /// The operation before it in its block.
    pub prev: Link,
    /// The block that it stands in.
    pub parent: Link,
    /// Its attributes and location.
    pub rest: OperationMut<D>,
}

/// What callers may write of a block. It stands for the public fields of pliron's `BasicBlock`.
#[derive(Drop)]
pub struct BasicBlockMut<D: Dialects> {
    /// The attributes.
    pub attributes: AttributeDict<D>,
    /// The label.
    pub label: Option<Identifier>,
    /// The location.
    pub loc: D::Loc,
}

/// The operations of a block, by the ends of their list. It stands for pliron's `OpsInBlock`.
#[derive(Clone, Copy, Drop)]
pub struct OpsInBlock {
    /// The first of them.
    pub first: Link,
    /// The last of them.
    pub last: Link,
}

/// A basic block: its arguments, the list of its operations, and its uses as a successor. It stands for pliron's `BasicBlock`.
#[derive(Drop)]
pub struct BasicBlock<D: Dialects> {
    /// Its own place in the arena.
    pub index: ArenaIndex,
    /// Its arguments.
    pub arguments: Definitions,
    /// Its uses as a successor.
    pub uses: Uses,
    /// The block after it in its region.
    pub next: Link,
    /// The block before it in its region.
    pub prev: Link,
    /// The region that it stands in.
    pub parent: Link,
    /// The ends of the list of its operations.
    pub ops_list: OpsInBlock,
    /// Its attributes, label and location.
    pub rest: BasicBlockMut<D>,
}

/// A region: the operation that it belongs to, and the list of its blocks. It stands for pliron's `Region`.
#[derive(Drop)]
pub struct Region {
    /// Its own place in the arena.
    pub index: ArenaIndex,
    /// The operation whose list has it.
    pub parent: ArenaIndex,
    /// The first of its blocks.
    pub first: Link,
    /// The last of its blocks.
    pub last: Link,
    /// Where it stood in the list of its operation when it came there. A search for it begins here, and no clause speaks of it.
    pub place: usize,
}

// No index: what fills the places in a record that no item has.
fn no_index() -> ArenaIndex {
    ArenaIndex {
        slot: 0,
        version: 0,
    }
}

impl Default for UseIndex {
    fn default() -> UseIndex {
        UseIndex {
            user: no_index(),
            number: 0,
        }
    }
}
