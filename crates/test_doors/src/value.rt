//! `ir_core::value`, with the names of values and blocks.

use ir_base::context::Ptr;
use ir_base::prelude::*;
use ir_core::basic_block::BasicBlock;
use ir_core::common_traits::Named;
use ir_core::prelude::*;
use ir_core::value::{DefiningEntity, IndexErr, Use, UseError, Value, ValueError};
use ir_view::prelude::*;

/// What a value is asked.
pub fn asked<D: Dialects>() {
    let _ = DefiningEntity::<D>::Op;
    let _ = DefiningEntity::<D>::Block;
    let _ = Value::<D>::defining_entity;
    let _ = Value::<D>::defining_op;
    let _ = Value::<D>::defining_block;
    let _ = <Value<D> as ValueQueries<D>>::is_live;
    let _ = <Value<D> as ValueQueries<D>>::try_find_index;
    let _ = <Value<D> as ValueQueries<D>>::find_index;
    let _ = <Value<D> as ValueQueries<D>>::num_uses;
    let _ = <Value<D> as ValueQueries<D>>::is_used;
    let _ = <Value<D> as ValueQueries<D>>::uses;
    let _ = <Value<D> as ValueQueries<D>>::loc;
    let _ = <Value<D> as ValueQueries<D>>::get_type;
    let _ = <Value<D> as Named<D>>::given_name;
    let _ = <Value<D> as Named<D>>::id;
    let _ = <Value<D> as Named<D>>::unique_name;
    let _ = <Value<D> as ValuePlace<D>>::get_parent_block;
    let _ = <Value<D> as ValuePlace<D>>::get_parent_region;
}

/// How a value is changed, and what names it.
pub fn changed<D: Dialects>() {
    let _ = <Value<D> as ValueEdits<D>>::set_type;
    let _ = <Value<D> as ValueEdits<D>>::set_name;
    let _ = <Value<D> as ValueEdits<D>>::replace_all_uses_with;
    let _ = <Value<D> as ValueEdits<D>>::replace_use_with;
}

/// Uses of values and of blocks.
pub fn uses<D: Dialects>() {
    let _ = <Use<Value<D>> as UseQueries<D>>::try_find_index;
    let _ = <Use<Value<D>> as UseQueries<D>>::find_index;
    let _ = <Use<Value<D>> as UseQueries<D>>::get_def;
    let _ = <Use<Value<D>> as UseQueries<D>>::get_type;
    let _ = Use::<Value<D>>::user_op;
    let _ = <Use<Ptr<BasicBlock<D>>> as BlockUseQueries<D>>::try_find_index;
    let _ = <Use<Ptr<BasicBlock<D>>> as BlockUseQueries<D>>::find_index;
    let _ = <Use<Ptr<BasicBlock<D>>> as BlockUseQueries<D>>::get_def;
    let _ = Use::<Ptr<BasicBlock<D>>>::user_op;
}

/// Who branches to a block, and how that is changed.
pub fn predecessors<D: Dialects>() {
    let _ = <Ptr<BasicBlock<D>> as BlockUses<D>>::has_pred;
    let _ = <Ptr<BasicBlock<D>> as BlockUses<D>>::num_preds;
    let _ = <Ptr<BasicBlock<D>> as BlockUses<D>>::uses;
    let _ = <Ptr<BasicBlock<D>> as BlockPlace<D>>::preds_are_linked;
    let _ = <Ptr<BasicBlock<D>> as BlockPredecessors<D>>::is_pred;
    let _ = <Ptr<BasicBlock<D>> as BlockPredecessors<D>>::preds;
    let _ = <Ptr<BasicBlock<D>> as BlockPredecessors<D>>::get_pred;
    let _ = <Ptr<BasicBlock<D>> as BlockPredecessors<D>>::is_succ_of;
    let _ = <Ptr<BasicBlock<D>> as Retarget<D>>::retarget_all_preds_to;
    let _ = <Ptr<BasicBlock<D>> as Retarget<D>>::retarget_pred_to;
}

/// What is changed where a predicate says so.
pub fn by_predicate<
    D: Dialects,
    C: Shown<D>,
    B: ShownBlock<D>,
    P: Fn(&C, Use<Value<D>>) -> bool,
    Q: Fn(&C, B) -> bool,
>() {
    let _ = <Value<D> as ValueEdits<D>>::replace_some_uses_with::<C, P>;
    let _ = <Ptr<BasicBlock<D>> as Retarget<D>>::retarget_some_preds_to::<C, B, Q>;
}

/// Why an index isn't found.
pub fn faults() {
    let _ = ValueError::NotInOpResult;
    let _ = ValueError::NotInBlockArgument;
    let _ = UseError::OperandNotInUserOp;
    let _ = UseError::SuccessorNotInUserOp;
    let _ = IndexErr::DanglingPtrDerefError;
    let _ = IndexErr::ValueError;
    let _ = IndexErr::UseError;
}
