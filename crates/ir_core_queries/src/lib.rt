//! What is read of a context: of values and uses, where they stand, what a use is of, and who uses what; of operations, blocks and regions, what they stand in, their neighbours, and the lists walked; and the names of values and blocks.
//!
//! Each answer is what the forest says. What a call gives is live. No two values have one unique name, no two blocks have, and no value has that of a block (`ir_model`'s law `unique_names_tell`). It gives out what `ir_core_context` tells of a context and changes in it.
#![tactic(auto)]

mod block;
mod block_uses;
mod entity;
mod error;
mod links;
mod named;
mod operation;
mod operation_uses;
mod region;
mod result_uses;
mod texts;
mod users;
mod value;
mod value_place;

pub use block::BlockPlace;
pub use block_uses::BlockUses;
pub use entity::{Entity, can_erase, is_inside};
pub use error::{IndexErr, UseError, ValueError};
pub use ir_base_dialects::Iter;
pub use ir_core_context::{
    AddRegion, ArenaObj, ArgumentEdits, BasicBlock, BasicBlockMut, BlockContainer, BlockIndex,
    BlockList, BlockPtr, BlockPtrMut, Context, DanglingPtrDerefError, Definer, DefiningEntity,
    DropUses, Erase, EraseRegion, Needs, NewBlock, NewOperation, OperandEdits, Operation,
    OperationContainer, OperationList, OperationMut, OperationPtr, OperationPtrMut, Region,
    RegionMoves, RegionPtr, ResultEdits, Retarget, SuccessorEdits, TypeQueries, Use, UseIndex,
    Value, ValueEdits, ValueIndex,
};
pub use named::Named;
pub use operation::OperationPlace;
pub use operation_uses::OperationUses;
pub use region::RegionPlace;
pub use result_uses::ResultUses;
pub use users::kept_uses;
pub use value::{BlockUseQueries, UseQueries, ValueQueries};
pub use value_place::ValuePlace;
