//! What the rows of a tree define: for each row that gives values a name the first of them, and for each that begins a block the block.
ghost use Rattle.std.specs.Prelude.{◌≡◌, Some, IsTrue};
ghost use Rattle.generic_text.specs.Tables.{block_in, origin_in};

use ir_base_dialects::ArenaIndex;
use ir_core_records::Definer;
use std::alloc::{AllocError, Global};

// A number that no value and no block has.
const NOT_YET: u32 = u32::MAX;

/// The values that stand under a name: those of an operation or a block, from this place on.
#[derive(Clone, Copy, Debug, PartialEq, Eq)]
pub(crate) struct Origin {
    /// What defines them.
    pub(crate) definer: Definer,
    /// The place of the first of them.
    pub(crate) first: usize,
}

/// What the rows of a tree define.
#[derive(Debug, Drop)]
pub(crate) struct Table {
    // For each row the number of what it defines.
    pub(crate) numbers: Vec<u32>,
    // The values under each name.
    pub(crate) values: Vec<Origin>,
    // The blocks.
    pub(crate) blocks: Vec<ArenaIndex>,
}

// The number as it is kept.
fn narrow(number: usize) -> u32 {
    if number < 4294967295 {
        number as u32
    } else {
        NOT_YET
    }
}

impl Table {
    /// Nothing is defined yet by so many rows.
    pub(crate) fn new(alloc: Global, rows: usize) -> Result<Table, AllocError> {
        let mut numbers = Vec::new(alloc);
        numbers.resize(rows, NOT_YET)?;
        Ok(Table {
            numbers,
            values: Vec::new(alloc),
            blocks: Vec::new(alloc),
        })
    }

    // The row has that number.
    fn put(&mut self, row: usize, number: usize) {
        if let Some(place) = self.numbers.get_mut(row) {
            *place = narrow(number);
        }
    }

    /// These values stand under the name that the row gives.
    pub(crate) fn put_values(&mut self, row: usize, origin: Origin) -> Result<(), AllocError> {
        let number = self.values.len();
        self.put(row, number);
        self.values.push(origin)?;
        Ok(())
    }

    /// The block begins with the row.
    pub(crate) fn put_block(&mut self, row: usize, block: ArenaIndex) -> Result<(), AllocError> {
        let number = self.blocks.len();
        self.put(row, number);
        self.blocks.push(block)?;
        Ok(())
    }

    /// The values that stand under the name that the row gives.
    pub(crate) fn origin(&self, row: usize) -> Option<Origin>
        ensures { result ≡ origin_in self.now row }
    {
        let number = *self.numbers.get(row)?;
        self.values.get(number as usize).copied()
    }

    /// The block that begins with the row.
    pub(crate) fn block(&self, row: usize) -> Option<ArenaIndex>
        ensures { result ≡ block_in self.now row }
    {
        let number = *self.numbers.get(row)?;
        self.blocks.get(number as usize).copied()
    }

    /// Whether values of that definer, from that place on, stand under the name that the row gives.
    pub(crate) fn is_origin(&self, row: usize, definer: Definer, first: usize) -> bool
        ensures { IsTrue result → origin_in self.now row ≡ Some (record { definer = definer; first = first }) }
    {
        match self.origin(row) {
            None => false,
            Some(origin) => is_definer(origin.definer, definer) && origin.first == first,
        }
    }
}

/// Whether the definers are one.
pub(crate) fn is_definer(one: Definer, other: Definer) -> bool
    ensures { IsTrue result → one ≡ other }
{
    match one {
        Definer::Op(op) => match other {
            Definer::Op(other) => op == other,
            Definer::Block(_) => false,
        },
        Definer::Block(block) => match other {
            Definer::Op(_) => false,
            Definer::Block(other) => block == other,
        },
    }
}
