//! All records. Contracts see them as the three arenas that they are: the struct has no model of its own.

use crate::record::{BasicBlock, Operation, Region};
use ir_base_dialects::{Arena, Dialects};

/// The operations, blocks and regions of one compilation.
#[derive(Drop)]
pub struct Records<D: Dialects> {
    /// The operations.
    pub ops: Arena<Operation<D>>,
    /// The blocks.
    pub blocks: Arena<BasicBlock<D>>,
    /// The regions.
    pub regions: Arena<Region>,
}
