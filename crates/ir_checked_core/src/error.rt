//! Why a call isn't made: which call, and which of its conditions doesn't hold.

ghost use Rattle.std.specs.Prelude.{◌≡◌};
ghost use Rattle.ir_checked_core.specs.Dead.{dead_entity};

use ir_base_dialects::{CoreError, Dialects};
use ir_core_queries::Entity;
use std::alloc::{AllocError, AllocFailed};
use std::fmt;
use std::fmt::{Debug, Display, Write};
use thiserror::Error;

/// A checked call, by its module and its name.
#[derive(Clone, Copy, Drop, PartialEq, Eq)]
pub enum Call {
    /// `operation::deref`.
    OperationDeref,
    /// `operation::deref_mut`.
    OperationDerefMut,
    /// `operation::get_result`.
    OperationGetResult,
    /// `operation::get_operand`.
    OperationGetOperand,
    /// `operation::get_operand_as_use`.
    OperationGetOperandAsUse,
    /// `operation::get_successor`.
    OperationGetSuccessor,
    /// `operation::get_successor_as_use`.
    OperationGetSuccessorAsUse,
    /// `operation::get_type`.
    OperationGetType,
    /// `operation::get_region`.
    OperationGetRegion,
    /// `operation::new`.
    OperationNew,
    /// `basic_block::new`.
    BlockNew,
    /// `operation::add_region`.
    OperationAddRegion,
    /// `operation::push_operand`.
    OperationPushOperand,
    /// `operation::insert_operand`.
    OperationInsertOperand,
    /// `operation::replace_operand`.
    OperationReplaceOperand,
    /// `operation::remove_operand`.
    OperationRemoveOperand,
    /// `operation::pop_operand`.
    OperationPopOperand,
    /// `operation::push_successor`.
    OperationPushSuccessor,
    /// `operation::insert_successor`.
    OperationInsertSuccessor,
    /// `operation::replace_successor`.
    OperationReplaceSuccessor,
    /// `operation::remove_successor`.
    OperationRemoveSuccessor,
    /// `operation::pop_successor`.
    OperationPopSuccessor,
    /// `operation::push_result`.
    OperationPushResult,
    /// `operation::insert_result`.
    OperationInsertResult,
    /// `operation::remove_result`.
    OperationRemoveResult,
    /// `operation::pop_result`.
    OperationPopResult,
    /// `basic_block::push_argument`.
    BlockPushArgument,
    /// `basic_block::insert_argument`.
    BlockInsertArgument,
    /// `basic_block::remove_argument`.
    BlockRemoveArgument,
    /// `basic_block::pop_argument`.
    BlockPopArgument,
    /// `operation::insert_at_front`.
    OperationInsertAtFront,
    /// `operation::insert_at_back`.
    OperationInsertAtBack,
    /// `operation::insert_before`.
    OperationInsertBefore,
    /// `operation::insert_after`.
    OperationInsertAfter,
    /// `operation::unlink`.
    OperationUnlink,
    /// `basic_block::insert_at_front`.
    BlockInsertAtFront,
    /// `basic_block::insert_at_back`.
    BlockInsertAtBack,
    /// `basic_block::insert_before`.
    BlockInsertBefore,
    /// `basic_block::insert_after`.
    BlockInsertAfter,
    /// `basic_block::unlink`.
    BlockUnlink,
    /// `basic_block::append_linked_list`.
    BlockAppendLinkedList,
    /// `region::deref`.
    RegionDeref,
    /// `region::get_parent_op`.
    RegionGetParentOp,
    /// `region::get_parent_block`.
    RegionGetParentBlock,
    /// `region::get_parent_region`.
    RegionGetParentRegion,
    /// `region::get_entry_block`.
    RegionGetEntryBlock,
    /// `region::get_head`.
    RegionGetHead,
    /// `region::get_tail`.
    RegionGetTail,
    /// `region::iter`.
    RegionIter,
    /// `region::find_index_in_parent`.
    RegionFindIndexInParent,
    /// `region::has_ssa_dominance`.
    RegionHasSsaDominance,
    /// `region::append_linked_list`.
    RegionAppendLinkedList,
    /// `region::move_to_op`.
    RegionMoveToOp,
    /// `region::drop_all_uses`.
    RegionDropAllUses,
    /// `operation::drop_all_uses`.
    OperationDropAllUses,
    /// `operation::erase`.
    OperationErase,
    /// `operation::erase_region`.
    OperationEraseRegion,
    /// `basic_block::drop_all_uses`.
    BlockDropAllUses,
    /// `basic_block::erase`.
    BlockErase,
    /// `operation::get_parent_block`.
    OperationGetParentBlock,
    /// `operation::get_parent_region`.
    OperationGetParentRegion,
    /// `operation::get_parent_op`.
    OperationGetParentOp,
    /// `operation::get_next`.
    OperationGetNext,
    /// `operation::get_prev`.
    OperationGetPrev,
    /// `operation::has_use`.
    OperationHasUse,
    /// `operation::num_uses`.
    OperationNumUses,
    /// `operation::uses`.
    OperationUses,
    /// `basic_block::deref`.
    BlockDeref,
    /// `basic_block::deref_mut`.
    BlockDerefMut,
    /// `basic_block::get_argument`.
    BlockGetArgument,
    /// `basic_block::given_name`.
    BlockGivenName,
    /// `basic_block::id`.
    BlockId,
    /// `basic_block::unique_name`.
    BlockUniqueName,
    /// `basic_block::get_parent_region`.
    BlockGetParentRegion,
    /// `basic_block::get_parent_op`.
    BlockGetParentOp,
    /// `basic_block::get_parent_block`.
    BlockGetParentBlock,
    /// `basic_block::preds_are_linked`.
    BlockPredsAreLinked,
    /// `basic_block::get_next`.
    BlockGetNext,
    /// `basic_block::get_prev`.
    BlockGetPrev,
    /// `basic_block::get_head`.
    BlockGetHead,
    /// `basic_block::get_tail`.
    BlockGetTail,
    /// `basic_block::iter`.
    BlockIter,
    /// `basic_block::has_pred`.
    BlockHasPred,
    /// `basic_block::num_preds`.
    BlockNumPreds,
    /// `basic_block::uses`.
    BlockUses,
    /// `basic_block::retarget_all_preds_to`.
    BlockRetargetAllPredsTo,
    /// `basic_block::retarget_some_preds_to`.
    BlockRetargetSomePredsTo,
    /// `basic_block::retarget_pred_to`.
    BlockRetargetPredTo,
    /// `value::find_index`.
    ValueFindIndex,
    /// `value::num_uses`.
    ValueNumUses,
    /// `value::is_used`.
    ValueIsUsed,
    /// `value::uses`.
    ValueUses,
    /// `value::get_type`.
    ValueGetType,
    /// `value::loc`.
    ValueLoc,
    /// `value::get_parent_block`.
    ValueGetParentBlock,
    /// `value::get_parent_region`.
    ValueGetParentRegion,
    /// `value::given_name`.
    ValueGivenName,
    /// `value::id`.
    ValueId,
    /// `value::unique_name`.
    ValueUniqueName,
    /// `value::set_type`.
    ValueSetType,
    /// `value::set_name`.
    ValueSetName,
    /// `value::replace_all_uses_with`.
    ValueReplaceAllUsesWith,
    /// `value::replace_some_uses_with`.
    ValueReplaceSomeUsesWith,
    /// `value::replace_use_with`.
    ValueReplaceUseWith,
    /// `operand_use::find_index`.
    OperandUseFindIndex,
    /// `operand_use::get_def`.
    OperandUseGetDef,
    /// `operand_use::get_type`.
    OperandUseGetType,
    /// `successor_use::find_index`.
    SuccessorUseFindIndex,
    /// `successor_use::get_def`.
    SuccessorUseGetDef,
    /// `types::deref`.
    TypesDeref,
    /// `types::body`.
    TypesBody,
    /// `types::set_body`.
    TypesSetBody,
    /// `entity::can_erase`.
    EntityCanErase,
    /// `context::with_limits`.
    ContextWithLimits,
    /// `uniqued_any::get`.
    UniquedAnyGet,
    /// `uniqued::get`.
    UniquedGet,
    /// `identifier::new`.
    IdentifierNew,
    /// `basic_block::is_pred`.
    BlockIsPred,
    /// `basic_block::preds`.
    BlockPreds,
    /// `basic_block::get_pred`.
    BlockGetPred,
    /// `basic_block::is_succ_of`.
    BlockIsSuccOf,
    /// `basic_block::get_terminator`.
    BlockGetTerminator,
    /// `basic_block::succs`.
    BlockSuccs,
    /// `basic_block::has_succ`.
    BlockHasSucc,
    /// `basic_block::is_succ`.
    BlockIsSucc,
    /// `basic_block::num_succ`.
    BlockNumSucc,
    /// `basic_block::get_succ`.
    BlockGetSucc,
    /// `operation::operand_types`.
    OperationOperandTypes,
    /// `operation::get_op_dyn`.
    OperationGetOpDyn,
    /// `operation::get_op`.
    OperationGetOp,
    /// `operation::is_op`.
    OperationIsOp,
    /// `operation::get_opid`.
    OperationGetOpid,
    /// `op::loc`.
    OpLoc,
    /// `types::get_type`.
    TypesGetType,
    /// `typed_handle::from_handle`.
    TypedHandleFromHandle,
    /// `typed_handle::deref`.
    TypedHandleDeref,
    /// `type_interface_handle::from_handle`.
    InterfaceHandleFromHandle,
    /// `type_interface_handle::deref`.
    InterfaceHandleDeref,
    /// `walk::inside`.
    WalkInside,
    /// `walk::inside_preorder`.
    WalkInsidePreorder,
    /// `walk::ops_inside`.
    WalkOpsInside,
    /// `walk::ops_inside_preorder`.
    WalkOpsInsidePreorder,
    /// `walk::ops_of`.
    WalkOpsOf,
    /// `walk::blocks_of`.
    WalkBlocksOf,
    /// `walk::all_inside`.
    WalkAllInside,
    /// `verify::verify_operation`.
    VerifyOperation,
    /// `verify::verify_op`.
    VerifyOp,
    /// `operation::verify`.
    OperationVerify,
    /// `basic_block::verify`.
    BlockVerify,
    /// `region::verify`.
    RegionVerify,
    /// `value::verify`.
    ValueVerify,
    /// `types::verify`.
    TypesVerify,
    /// `typed_handle::verify`.
    TypedHandleVerify,
    /// `type_interface_handle::verify`.
    InterfaceHandleVerify,
    /// `dead::sweep`.
    DeadSweep,
    /// `passes::sweep_inside`.
    PassesSweepInside,
    /// `passes::merge_common`.
    PassesMergeCommon,
    /// `passes::merge_common_inside`.
    PassesMergeCommonInside,
    /// `passes::can_remove_unreached`.
    PassesCanRemoveUnreached,
    /// `passes::can_remove_unreached_inside`.
    PassesCanRemoveUnreachedInside,
    /// `passes::remove_unreached`.
    PassesRemoveUnreached,
    /// `passes::remove_unreached_inside`.
    PassesRemoveUnreachedInside,
}

// The module and the name of each call, in the order of the variants.
const NAMES: [&str; 162] = [
    "operation::deref",
    "operation::deref_mut",
    "operation::get_result",
    "operation::get_operand",
    "operation::get_operand_as_use",
    "operation::get_successor",
    "operation::get_successor_as_use",
    "operation::get_type",
    "operation::get_region",
    "operation::new",
    "basic_block::new",
    "operation::add_region",
    "operation::push_operand",
    "operation::insert_operand",
    "operation::replace_operand",
    "operation::remove_operand",
    "operation::pop_operand",
    "operation::push_successor",
    "operation::insert_successor",
    "operation::replace_successor",
    "operation::remove_successor",
    "operation::pop_successor",
    "operation::push_result",
    "operation::insert_result",
    "operation::remove_result",
    "operation::pop_result",
    "basic_block::push_argument",
    "basic_block::insert_argument",
    "basic_block::remove_argument",
    "basic_block::pop_argument",
    "operation::insert_at_front",
    "operation::insert_at_back",
    "operation::insert_before",
    "operation::insert_after",
    "operation::unlink",
    "basic_block::insert_at_front",
    "basic_block::insert_at_back",
    "basic_block::insert_before",
    "basic_block::insert_after",
    "basic_block::unlink",
    "basic_block::append_linked_list",
    "region::deref",
    "region::get_parent_op",
    "region::get_parent_block",
    "region::get_parent_region",
    "region::get_entry_block",
    "region::get_head",
    "region::get_tail",
    "region::iter",
    "region::find_index_in_parent",
    "region::has_ssa_dominance",
    "region::append_linked_list",
    "region::move_to_op",
    "region::drop_all_uses",
    "operation::drop_all_uses",
    "operation::erase",
    "operation::erase_region",
    "basic_block::drop_all_uses",
    "basic_block::erase",
    "operation::get_parent_block",
    "operation::get_parent_region",
    "operation::get_parent_op",
    "operation::get_next",
    "operation::get_prev",
    "operation::has_use",
    "operation::num_uses",
    "operation::uses",
    "basic_block::deref",
    "basic_block::deref_mut",
    "basic_block::get_argument",
    "basic_block::given_name",
    "basic_block::id",
    "basic_block::unique_name",
    "basic_block::get_parent_region",
    "basic_block::get_parent_op",
    "basic_block::get_parent_block",
    "basic_block::preds_are_linked",
    "basic_block::get_next",
    "basic_block::get_prev",
    "basic_block::get_head",
    "basic_block::get_tail",
    "basic_block::iter",
    "basic_block::has_pred",
    "basic_block::num_preds",
    "basic_block::uses",
    "basic_block::retarget_all_preds_to",
    "basic_block::retarget_some_preds_to",
    "basic_block::retarget_pred_to",
    "value::find_index",
    "value::num_uses",
    "value::is_used",
    "value::uses",
    "value::get_type",
    "value::loc",
    "value::get_parent_block",
    "value::get_parent_region",
    "value::given_name",
    "value::id",
    "value::unique_name",
    "value::set_type",
    "value::set_name",
    "value::replace_all_uses_with",
    "value::replace_some_uses_with",
    "value::replace_use_with",
    "operand_use::find_index",
    "operand_use::get_def",
    "operand_use::get_type",
    "successor_use::find_index",
    "successor_use::get_def",
    "types::deref",
    "types::body",
    "types::set_body",
    "entity::can_erase",
    "context::with_limits",
    "uniqued_any::get",
    "uniqued::get",
    "identifier::new",
    "basic_block::is_pred",
    "basic_block::preds",
    "basic_block::get_pred",
    "basic_block::is_succ_of",
    "basic_block::get_terminator",
    "basic_block::succs",
    "basic_block::has_succ",
    "basic_block::is_succ",
    "basic_block::num_succ",
    "basic_block::get_succ",
    "operation::operand_types",
    "operation::get_op_dyn",
    "operation::get_op",
    "operation::is_op",
    "operation::get_opid",
    "op::loc",
    "types::get_type",
    "typed_handle::from_handle",
    "typed_handle::deref",
    "type_interface_handle::from_handle",
    "type_interface_handle::deref",
    "walk::inside",
    "walk::inside_preorder",
    "walk::ops_inside",
    "walk::ops_inside_preorder",
    "walk::ops_of",
    "walk::blocks_of",
    "walk::all_inside",
    "verify::verify_operation",
    "verify::verify_op",
    "operation::verify",
    "basic_block::verify",
    "region::verify",
    "value::verify",
    "types::verify",
    "typed_handle::verify",
    "type_interface_handle::verify",
    "dead::sweep",
    "passes::sweep_inside",
    "passes::merge_common",
    "passes::merge_common_inside",
    "passes::can_remove_unreached",
    "passes::can_remove_unreached_inside",
    "passes::remove_unreached",
    "passes::remove_unreached_inside",
];

impl Call {
    /// Its module and its name.
    pub fn name(self) -> &'static str {
        NAMES[self as usize]
    }
}

impl Display for Call {
    ghost use Rattle.std.specs.Prelude.{None};

    ghost output = { λ _. None };

    fn fmt<W: Write>(&self, f: &mut fmt::Formatter<W>) -> fmt::Result {
        f.write_str(self.name())
    }
}

// By its name too: what the derive would write has an arm for each call, and costs the prover as much.
impl Debug for Call {
    fn fmt<W: Write>(&self, f: &mut fmt::Formatter<W>) -> fmt::Result {
        f.write_str(self.name())
    }
}

/// What a call asks for, and doesn't find.
#[derive(Clone, Copy, Debug, Drop, PartialEq, Eq, Error)]
pub enum Condition {
    /// An operation isn't live.
    #[error("the operation isn't live")]
    DeadOperation,
    /// A block isn't live.
    #[error("the block isn't live")]
    DeadBlock,
    /// A region isn't live.
    #[error("the region isn't live")]
    DeadRegion,
    /// A value isn't live.
    #[error("the value isn't live")]
    DeadValue,
    /// A use isn't live.
    #[error("the use isn't live")]
    DeadUse,
    /// An index is out of range, or what is asked for isn't there.
    #[error("the index is out of range")]
    OutOfRange,
    /// What would be put into a list stands in one already.
    #[error("it stands in a list already")]
    Linked,
    /// It stands in no list.
    #[error("it stands in no list")]
    Unlinked,
    /// Something would stand inside itself.
    #[error("it would stand inside itself")]
    InsideItself,
    /// A definition that would go is named by an operation.
    #[error("it is used")]
    Used,
    /// The use is one of another definition.
    #[error("the use is not its own")]
    NotItsUse,
    /// The context has no such type.
    #[error("the type isn't known")]
    UnknownType,
    /// The context has no saved value of this kind under the key.
    #[error("the key isn't known")]
    UnknownKey,
    /// An operation that names the block stands in no block.
    #[error("an operation that names the block stands in no block")]
    UsersUnlinked,
    /// Something outside names what is defined inside.
    #[error("something outside names what is defined inside")]
    NotClosed,
    /// The block has no terminator.
    #[error("the block has no terminator")]
    NoTerminator,
    /// The text is no identifier.
    #[error("the text is no identifier")]
    NoIdentifier,
}

impl Condition {
    /// What is told of an entity that isn't live, by which of the three it is.
    pub fn dead<D: Dialects>(entity: Entity<D>) -> Condition
        ensures { result ≡ dead_entity entity }
    {
        match entity {
            Entity::Op(_) => Condition::DeadOperation,
            Entity::Block(_) => Condition::DeadBlock,
            Entity::Region(_) => Condition::DeadRegion,
        }
    }
}

/// A condition that doesn't hold, and the call that has it.
#[derive(Clone, Copy, Debug, Drop, PartialEq, Eq, Error)]
#[error("{call}: {condition}")]
pub struct Unmet {
    /// The call.
    pub call: Call,
    /// The first of its conditions that doesn't hold.
    pub condition: Condition,
}

/// Why a checked call gives nothing.
#[derive(Clone, Copy, Debug, Drop, PartialEq, Eq, Error)]
pub enum CheckedErr {
    /// A condition doesn't hold, so the call wasn't made, and nothing has changed.
    #[error(transparent)]
    Unmet(Unmet),
    /// The call was made, and refused for memory, numbers or slots.
    #[error(transparent)]
    Core(CoreError),
}

impl From<CoreError> for CheckedErr {
    ghost use Rattle.std.specs.Prelude.{◌≡◌};
    ghost use Rattle.ir_checked_core.specs.declared.error.CheckedErr.TheVariants.{Core};

    ghost from_gives = { λ error answer. answer ≡ Core error };

    fn from(error: CoreError) -> CheckedErr {
        CheckedErr::Core(error)
    }
}

impl From<AllocError> for CheckedErr {
    ghost use Rattle.std.specs.Prelude.{◌≡◌};
    ghost use Rattle.ir_checked_core.specs.Answers.{out_of_memory};

    ghost from_gives = { λ _ answer. answer ≡ out_of_memory };

    fn from(_error: AllocError) -> CheckedErr {
        CheckedErr::Core(CoreError::OutOfMemory)
    }
}

impl<T: Drop> From<AllocFailed<T>> for CheckedErr {
    ghost use Rattle.std.specs.Prelude.{◌≡◌};
    ghost use Rattle.ir_checked_core.specs.Answers.{out_of_memory};

    ghost from_gives = { λ _ answer. answer ≡ out_of_memory };

    fn from(_error: AllocFailed<T>) -> CheckedErr {
        CheckedErr::Core(CoreError::OutOfMemory)
    }
}

/// That this condition of this call doesn't hold: for crates that have checked calls.
#[macro_export]
macro_rules! fault {
    ($call:ident, $condition:ident) => {
        $crate::CheckedErr::Unmet($crate::Unmet {
            call: $crate::Call::$call,
            condition: $crate::Condition::$condition,
        })
    };
}

pub(crate) use fault;
