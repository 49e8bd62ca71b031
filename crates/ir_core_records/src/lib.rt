//! The records of operations, blocks and regions: their handles, what they tell, and what holds between them.
//!
//! Records name each other by indices, never by handles. What holds between them are relations, which calls ask and keep: the chains from definitions to their uses and back (`chains_of`), and the tree of lists (`tree_of`). A layer above may so hold records in which one of them is in mid-change.
#![tactic(auto)]

mod basic_block;
mod block_list;
mod definitions;
mod handles;
mod kept_operand;
mod kept_use;
mod numbered;
mod one_or_more;
mod op_list;
mod operation;
mod reads;
mod record;
mod records;
mod take_out;
mod use_rank;

pub use definitions::Definitions;
pub use handles::{DefiningEntity, Use, Value};
pub use kept_operand::KeptOperand;
pub use kept_use::KeptUse;
pub use reads::{
    block_uses, definition, find_operand, find_operand_near, find_successor, find_successor_near,
    uses,
};
pub use record::{
    BasicBlock, BasicBlockMut, BlockIndex, Definer, Definition, EntityIndex, Operands, Operation,
    OperationMut, OpsInBlock, Region, Successors, UseIndex, UsePlace, Uses, ValueIndex,
};
pub use records::Records;
pub use use_rank::UseRank;
