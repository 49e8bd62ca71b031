//! The context, and all that changes it, under one invariant.
//!
//! It gives out what its callers need of the crates below.
#![tactic(auto)]

mod arena_obj;
mod argument_edits;
mod asking;
mod aux_data;
mod block;
mod block_list;
mod context;
mod creation;
mod definition_edits;
mod erasing;
mod error;
mod lending;
mod needs;
mod new_entities;
mod operand_edits;
mod operation;
mod operation_list;
mod region;
mod result_edits;
mod retargeting;
mod saved_data;
mod successor_edits;
mod types;
mod value_edits;

pub use arena_obj::ArenaObj;
pub use argument_edits::ArgumentEdits;
pub use asking::{Shown, ShownBlock};
pub use block::BlockPtr;
pub use block_list::{BlockContainer, BlockList, RegionMoves};
pub use context::Context;
pub use erasing::{DropUses, Erase, EraseRegion};
pub use error::DanglingPtrDerefError;
pub use ir_base_dialects::{
    AttrId, AttrName, CoreError, DialectName, Dialects, Identifier, Iter, Legaliser, Limits, OpId,
    OpName, Ptr, Room, TypeHandle, TypeId, TypeName, attribute, interfaces,
};
pub use ir_core_data::AuxDataIndex;
pub use ir_core_records::{
    BasicBlock, BasicBlockMut, BlockIndex, Definer, DefiningEntity, Operation, OperationMut,
    OpsInBlock, Region, Use, UseIndex, Value, ValueIndex,
};
pub use ir_model::ArenaIndex;
pub use lending::{BlockPtrMut, OperationPtrMut};
pub use needs::Needs;
pub use new_entities::{AddRegion, NewBlock, NewOperation};
pub use operand_edits::OperandEdits;
pub use operation::OperationPtr;
pub use operation_list::{OperationContainer, OperationList};
pub use region::RegionPtr;
pub use result_edits::ResultEdits;
pub use retargeting::Retarget;
pub use successor_edits::SuccessorEdits;
pub use types::TypeQueries;
pub use value_edits::ValueEdits;
