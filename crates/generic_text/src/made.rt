//! What is made so far, and what an operation is made of.

ghost use Rattle.std.specs.Prelude.{◌≡◌, ◌++◌, ◌∷◌, [], IfOk, OnErr, OnOk};

use generic_dialect::{Generic, GenericAttr, TextId};
use ir_base_dialects::{Ptr, TypeHandle};
use ir_core_queries::{BasicBlock, Operation, Value};
use ir_text_outline::narrow;
use std::alloc::{AllocError, Global};

/// An operation of the dialect.
pub(crate) type Op = Ptr<Operation<Generic>>;

/// A block of the dialect.
pub(crate) type Block = Ptr<BasicBlock<Generic>>;

// A number that no block and no value has.
const NOT_YET: u32 = u32::MAX;

/// What is made so far.
#[derive(Drop)]
pub(crate) struct Made {
    /// The operations, each behind all inside it, with the rows of their names.
    pub(crate) ops: Vec<(Op, u32)>,
    /// The operations outside all regions, in order.
    pub(crate) tops: Vec<Op>,
    /// The blocks, in the order of the text.
    pub(crate) blocks: Vec<Block>,
    /// The arguments of the blocks, and the results of the operations.
    values: Vec<Value<Generic>>,
    // For each row that is a label the number of its block, and for each that defines values that of the first of them.
    numbers: Vec<u32>,
    /// The operations that name what is defined later, by their places in the outline.
    pub(crate) late: Vec<(Op, u32)>,
}

impl Made {
    /// Nothing is made yet, of a tree of so many rows.
    pub(crate) fn new(alloc: Global, rows: usize) -> Result<Made, AllocError>
        ensures ops { IfOk result (λ m. m.ops.items ≡ []) }
        ensures blocks { IfOk result (λ m. m.blocks.items ≡ []) }
        ensures late { IfOk result (λ m. m.late.items ≡ []) }
    {
        let mut numbers = Vec::new(alloc);
        numbers.resize(rows, NOT_YET)?;
        Ok(Made {
            ops: Vec::new(alloc),
            tops: Vec::new(alloc),
            blocks: Vec::new(alloc),
            values: Vec::new(alloc),
            numbers,
            late: Vec::new(alloc),
        })
    }

    /// Makes place for so many operations and blocks.
    pub(crate) fn reserve(&mut self, ops: usize, blocks: usize) -> Result<(), AllocError>
        ensures ops { self.new.ops.items ≡ self.old.ops.items }
        ensures blocks { self.new.blocks.items ≡ self.old.blocks.items }
        ensures late { self.new.late.items ≡ self.old.late.items }
    {
        self.ops.reserve(ops)?;
        self.blocks.reserve(blocks)
    }

    /// Lets go of what rows define, and of what names what is defined later.
    pub(crate) fn forget_rows(&mut self, alloc: Global)
        ensures tops { self.new.tops ≡ self.old.tops }
        ensures ops { self.new.ops ≡ self.old.ops }
        ensures blocks { self.new.blocks ≡ self.old.blocks }
        ensures late { self.new.late.items ≡ [] }
    {
        self.values = Vec::new(alloc);
        self.numbers = Vec::new(alloc);
        self.late = Vec::new(alloc);
    }

    // The row has that number.
    fn put_number(&mut self, row: usize, number: usize)
        ensures ops { self.new.ops ≡ self.old.ops }
        ensures blocks { self.new.blocks ≡ self.old.blocks }
        ensures late { self.new.late ≡ self.old.late }
    {
        if let Some(place) = self.numbers.get_mut(row) {
            *place = narrow(number);
        }
    }

    // The number of the row, if what it defines is made.
    fn number(&self, row: usize) -> Option<usize> {
        match self.numbers.get(row) {
            Some(number) => Some(*number as usize),
            None => None,
        }
    }

    /// The block of a label, or of the region that begins with that row.
    pub(crate) fn add_block(&mut self, row: usize, block: Block) -> Result<(), AllocError>
        ensures ops { self.new.ops ≡ self.old.ops }
        ensures blocks { OnOk result (self.new.blocks.items ≡ self.old.blocks.items ++ block ∷ []) }
        ensures err { OnErr result (self.new.blocks.items ≡ self.old.blocks.items) }
        ensures late { self.new.late ≡ self.old.late }
    {
        let number = self.blocks.len();
        self.put_number(row, number);
        self.blocks.push(block)?;
        Ok(())
    }

    /// The block of a label.
    pub(crate) fn block(&self, row: usize) -> Option<Block> {
        let number = self.number(row)?;
        self.blocks.get(number).copied()
    }

    /// The values that are put next stand under the name in that row.
    pub(crate) fn begin_values(&mut self, row: usize, ahead: usize)
        ensures ops { self.new.ops ≡ self.old.ops }
        ensures blocks { self.new.blocks ≡ self.old.blocks }
        ensures late { self.new.late ≡ self.old.late }
    {
        let number = self.values.len().saturating_add(ahead);
        self.put_number(row, number);
    }

    /// A value is made.
    pub(crate) fn add_value(&mut self, value: Value<Generic>) -> Result<(), AllocError>
        ensures ops { self.new.ops ≡ self.old.ops }
        ensures blocks { self.new.blocks ≡ self.old.blocks }
        ensures late { self.new.late ≡ self.old.late }
    {
        self.values.push(value)?;
        Ok(())
    }

    /// One of the values under the name in that row, if they are made.
    pub(crate) fn value(&self, row: usize, index: usize) -> Option<Value<Generic>> {
        let number = self.number(row)?;
        self.values.get(number.saturating_add(index)).copied()
    }
}

/// What an operation or a block is made of.
#[derive(Drop)]
pub(crate) struct Room {
    /// The types of its results or arguments.
    pub(crate) types: Vec<TypeHandle>,
    pub(crate) operands: Vec<Value<Generic>>,
    pub(crate) successors: Vec<Block>,
    /// Its attributes, with the rows of their keys.
    pub(crate) attributes: Vec<(usize, GenericAttr)>,
    pub(crate) properties: Option<TextId>,
    pub(crate) location: Option<TextId>,
    /// The locations of a block's arguments.
    pub(crate) locations: Vec<Option<TextId>>,
    /// It names what is defined later.
    pub(crate) is_late: bool,
}

impl Room {
    /// Nothing.
    pub(crate) fn new(alloc: Global) -> Room {
        Room {
            types: Vec::new(alloc),
            operands: Vec::new(alloc),
            successors: Vec::new(alloc),
            attributes: Vec::new(alloc),
            properties: None,
            location: None,
            locations: Vec::new(alloc),
            is_late: false,
        }
    }

    /// Whether there are neither attributes nor properties nor a location.
    pub(crate) fn is_bare(&self) -> bool {
        self.attributes.is_empty() && self.properties.is_none() && self.location.is_none()
    }

    /// Nothing again.
    pub(crate) fn clear(&mut self) {
        self.types.clear();
        self.operands.clear();
        self.successors.clear();
        self.attributes.clear();
        self.properties = None;
        self.location = None;
        self.locations.clear();
        self.is_late = false;
    }
}
