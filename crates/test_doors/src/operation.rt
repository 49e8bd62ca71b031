//! `ir_core::operation` and `ir_view::operation`.

use ir_base::context::Ptr;
use ir_base::prelude::*;
use ir_core::operation::{Operation, OperationUses};
use ir_core::prelude::*;
use ir_view::operation::{
    OperandTypes, OperandUses, Operands, Regions, ResultTypes, Results, SuccessorUses, Successors,
};
use ir_view::prelude::*;

/// How an operation is made and changed.
pub fn changed<D: Dialects>() {
    let _ = <Operation<D> as NewOperation<D>>::new;
    let _ = <Ptr<Operation<D>> as ResultEdits<D>>::push_result;
    let _ = <Ptr<Operation<D>> as ResultEdits<D>>::insert_result;
    let _ = <Ptr<Operation<D>> as ResultEdits<D>>::remove_result;
    let _ = <Ptr<Operation<D>> as ResultEdits<D>>::pop_result;
    let _ = <Ptr<Operation<D>> as OperandEdits<D>>::push_operand;
    let _ = <Ptr<Operation<D>> as OperandEdits<D>>::insert_operand;
    let _ = <Ptr<Operation<D>> as OperandEdits<D>>::replace_operand;
    let _ = <Ptr<Operation<D>> as OperandEdits<D>>::remove_operand;
    let _ = <Ptr<Operation<D>> as OperandEdits<D>>::pop_operand;
    let _ = <Ptr<Operation<D>> as SuccessorEdits<D>>::push_successor;
    let _ = <Ptr<Operation<D>> as SuccessorEdits<D>>::insert_successor;
    let _ = <Ptr<Operation<D>> as SuccessorEdits<D>>::replace_successor;
    let _ = <Ptr<Operation<D>> as SuccessorEdits<D>>::remove_successor;
    let _ = <Ptr<Operation<D>> as SuccessorEdits<D>>::pop_successor;
    let _ = <Ptr<Operation<D>> as AddRegion<D>>::add_region;
    let _ = <Ptr<Operation<D>> as EraseRegion<D>>::erase_region;
    let _ = <Ptr<Operation<D>> as DropUses<D>>::drop_all_uses;
    let _ = <Ptr<Operation<D>> as Erase<D>>::erase;
}

/// What an operation is asked.
pub fn asked<D: Dialects, T: Op<D>>() {
    let _ = Operation::<D>::kind;
    let _ = Operation::<D>::get_num_results;
    let _ = Operation::<D>::get_num_operands;
    let _ = Operation::<D>::get_num_successors;
    let _ = Operation::<D>::num_regions;
    let _ = Operation::<D>::get_result;
    let _ = Operation::<D>::get_operand;
    let _ = Operation::<D>::get_operand_as_use;
    let _ = Operation::<D>::get_successor;
    let _ = Operation::<D>::get_successor_as_use;
    let _ = Operation::<D>::get_region;
    let _ = Operation::<D>::get_type;
    let _ = Operation::<D>::loc;
    let _ = <Ptr<Operation<D>> as ResultUses<D>>::has_use;
    let _ = <Ptr<Operation<D>> as ResultUses<D>>::num_uses;
    let _ = <Ptr<Operation<D>> as ResultUses<D>>::uses;
    let _ = <Ptr<Operation<D>> as OperationPlace<D>>::get_parent_block;
    let _ = <Ptr<Operation<D>> as OperationPlace<D>>::get_parent_region;
    let _ = <Ptr<Operation<D>> as OperationPlace<D>>::get_parent_op;
    let _ = <Ptr<Operation<D>> as OperationKind<D>>::get_op_dyn;
    let _ = <Ptr<Operation<D>> as OperationKind<D>>::get_op::<T>;
    let _ = <Ptr<Operation<D>> as OperationKind<D>>::is_op::<T>;
    let _ = <Ptr<Operation<D>> as OperationKind<D>>::get_opid;
}

/// The parts of an operation, one after another.
pub fn parts<'a, D: Dialects>() {
    let _ = <Operation<D> as OperationParts<D>>::results;
    let _ = <Operation<D> as OperationParts<D>>::result_types;
    let _ = <Operation<D> as OperationParts<D>>::operands;
    let _ = <Operation<D> as OperationParts<D>>::operands_as_uses;
    let _ = <Operation<D> as OperationParts<D>>::operand_types;
    let _ = <Operation<D> as OperationParts<D>>::successors;
    let _ = <Operation<D> as OperationParts<D>>::successors_as_uses;
    let _ = <Operation<D> as OperationParts<D>>::regions;
    let _ = <Results<'a, D> as Iterator>::next;
    let _ = <ResultTypes<'a, D> as Iterator>::next;
    let _ = <Operands<'a, D> as Iterator>::next;
    let _ = <OperandUses<'a, D> as Iterator>::next;
    let _ = <OperandTypes<'a, D> as Iterator>::next;
    let _ = <Successors<'a, D> as Iterator>::next;
    let _ = <SuccessorUses<'a, D> as Iterator>::next;
    let _ = <Regions<'a, D> as Iterator>::next;
    let _ = <OperationUses<'a, D> as Iterator>::next;
}
