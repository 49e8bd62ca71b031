//! What the handles of operations, blocks and regions are asked of their records.

use ir_base::context::Ptr;
use ir_base::prelude::*;
use ir_core::basic_block::{BasicBlock, BasicBlockMut};
use ir_core::operation::{Operation, OperationMut};
use ir_core::prelude::*;
use ir_core::region::Region;

/// Records under handles.
pub fn records<D: Dialects>() {
    let _ = <Ptr<Operation<D>> as OperationPtr<D>>::is_live;
    let _ = <Ptr<Operation<D>> as OperationPtr<D>>::deref;
    let _ = <Ptr<Operation<D>> as OperationPtr<D>>::try_deref;
    let _ = <Ptr<Operation<D>> as OperationPtrMut<D>>::deref_mut;
    let _ = <Ptr<Operation<D>> as OperationPtrMut<D>>::try_deref_mut;
    let _ = <Ptr<BasicBlock<D>> as BlockPtr<D>>::is_live;
    let _ = <Ptr<BasicBlock<D>> as BlockPtr<D>>::deref;
    let _ = <Ptr<BasicBlock<D>> as BlockPtr<D>>::try_deref;
    let _ = <Ptr<BasicBlock<D>> as BlockPtrMut<D>>::deref_mut;
    let _ = <Ptr<BasicBlock<D>> as BlockPtrMut<D>>::try_deref_mut;
    let _ = <Ptr<Region> as RegionPtr<D>>::is_live;
    let _ = <Ptr<Region> as RegionPtr<D>>::deref;
    let _ = <Ptr<Region> as RegionPtr<D>>::try_deref;
}

/// The parts of records that are lent to be written.
pub fn lent<D: Dialects>(op: &mut OperationMut<D>, block: &mut BasicBlockMut<D>) {
    let OperationMut { attributes: _, .. } = op;
    let BasicBlockMut { attributes: _, .. } = block;
    let _ = OperationMut::<D>::set_loc;
    let _ = BasicBlockMut::<D>::set_loc;
    let _ = BasicBlockMut::<D>::set_label;
    let _ = Operation::<D>::attributes;
    let _ = Operation::<D>::get_self_ptr;
    let _ = BasicBlock::<D>::attributes;
    let _ = BasicBlock::<D>::get_self_ptr;
}
