//! Views over what a context tells: iterators over the parts of an operation or a block, edges between blocks, and wrapped operations.
//!
//! All of it reads only. What a call gives is live, known or in range by its contract. It gives out what the crates below it tell of a context and change in it, so that a caller names it and `ir_base_dialects`.
#![tactic(auto)]

mod backward_edges;
mod block_parts;
mod forward_edges;
mod indexed;
mod op_queries;
mod operation_parts;
mod wrapper_laws;
mod wrappers;

pub use backward_edges::BlockPredecessors;
pub use block_parts::{ArgumentTypes, ArgumentTypesOf, Arguments, ArgumentsOf, BlockParts};
pub use forward_edges::BlockSuccessors;
pub use indexed::{HasParts, Parts};
pub use ir_core_queries::{
    AddRegion, ArenaObj, ArgumentEdits, BasicBlock, BasicBlockMut, BlockContainer, BlockIndex,
    BlockList, BlockPlace, BlockPtr, BlockPtrMut, BlockUseQueries, BlockUses, Context,
    DanglingPtrDerefError, Definer, DefiningEntity, DropUses, Entity, Erase, EraseRegion, IndexErr,
    Needs, NewBlock, NewOperation, OperandEdits, Operation, OperationContainer, OperationList,
    OperationMut, OperationPlace, OperationPtr, OperationPtrMut, OperationUses, Region,
    RegionMoves, RegionPlace, RegionPtr, ResultEdits, ResultUses, Retarget, SuccessorEdits,
    TypeQueries, Use, UseError, UseIndex, UseQueries, Value, ValueEdits, ValueError, ValueIndex,
    ValuePlace, ValueQueries, can_erase, is_inside,
};
pub use op_queries::OperationKind;
pub use operation_parts::{
    OperandTypes, OperandTypesOf, OperandUses, OperandUsesOf, Operands, OperandsOf, OperationParts,
    Regions, RegionsOf, ResultTypes, ResultTypesOf, Results, ResultsOf, SuccessorUses,
    SuccessorUsesOf, Successors, SuccessorsOf,
};
pub use wrappers::{Op, OpObj, op_impls, op_impls_static};

/// Laws about the definitions that the contracts cite.
pub mod laws {
    pub use crate::wrapper_laws::wrapped_operations_compare_by_operation;
}
