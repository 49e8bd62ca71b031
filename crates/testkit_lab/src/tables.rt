//! The numbers by which a session names what was made in it.

use ir_base_dialects::{Ptr, TypeHandle};
use ir_core_queries::{BasicBlock, Operation, Region, Value};
use std::alloc::Global;
use toy_dialect::Toy;

/// Stands for the number of what is in no table.
pub const NOWHERE: usize = usize::MAX;

/// The types, operations, blocks, regions and values of a session by their numbers.
#[derive(Drop)]
pub struct Tables {
    /// The types.
    pub types: Vec<TypeHandle>,
    /// The operations.
    pub ops: Vec<Ptr<Operation<Toy>>>,
    /// The blocks.
    pub blocks: Vec<Ptr<BasicBlock<Toy>>>,
    /// The regions.
    pub regions: Vec<Ptr<Region>>,
    /// The values.
    pub values: Vec<Value<Toy>>,
}

/// The number of an item in a table, or `NOWHERE`.
pub fn number_in<T: Copy + PartialEq + Drop>(table: &[T], item: T) -> usize {
    let mut number = 0usize;
    for entry in table {
        if *entry == item {
            return number;
        }
        number = number.saturating_add(1);
    }
    NOWHERE
}

impl Tables {
    /// Tables with no entries.
    pub fn new(alloc: Global) -> Tables {
        Tables {
            types: Vec::new(alloc),
            ops: Vec::new(alloc),
            blocks: Vec::new(alloc),
            regions: Vec::new(alloc),
            values: Vec::new(alloc),
        }
    }

    /// The number of a type.
    pub fn type_number(&self, ty: TypeHandle) -> usize {
        number_in(&self.types, ty)
    }

    /// The number of an operation.
    pub fn op_number(&self, op: Ptr<Operation<Toy>>) -> usize {
        number_in(&self.ops, op)
    }

    /// The number of a block.
    pub fn block_number(&self, block: Ptr<BasicBlock<Toy>>) -> usize {
        number_in(&self.blocks, block)
    }

    /// The number of a region.
    pub fn region_number(&self, region: Ptr<Region>) -> usize {
        number_in(&self.regions, region)
    }

    /// The number of a value.
    pub fn value_number(&self, value: Value<Toy>) -> usize {
        number_in(&self.values, value)
    }
}
