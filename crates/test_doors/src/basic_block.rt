//! `ir_core::basic_block` and `ir_view::basic_block`.

use ir_base::context::Ptr;
use ir_base::linked_list::Link;
use ir_base::prelude::*;
use ir_core::basic_block::{BasicBlock, OpsInBlock};
use ir_core::prelude::*;
use ir_view::basic_block::{ArgumentTypes, Arguments};
use ir_view::prelude::*;

/// How a block is made and changed.
pub fn changed<D: Dialects>() {
    let _ = <BasicBlock<D> as NewBlock<D>>::new;
    let _ = <Ptr<BasicBlock<D>> as ArgumentEdits<D>>::push_argument;
    let _ = <Ptr<BasicBlock<D>> as ArgumentEdits<D>>::insert_argument;
    let _ = <Ptr<BasicBlock<D>> as ArgumentEdits<D>>::pop_argument;
    let _ = <Ptr<BasicBlock<D>> as ArgumentEdits<D>>::remove_argument;
    let _ = <Ptr<BasicBlock<D>> as DropUses<D>>::drop_all_uses;
    let _ = <Ptr<BasicBlock<D>> as Erase<D>>::erase;
}

/// What a block is asked.
pub fn asked<'a, D: Dialects>() {
    let _ = BasicBlock::<D>::get_argument;
    let _ = BasicBlock::<D>::get_num_arguments;
    let _ = BasicBlock::<D>::loc;
    let _ = <BasicBlock<D> as BlockParts<D>>::arguments;
    let _ = <Arguments<'a, D> as Iterator>::next;
    let _ = <ArgumentTypes<'a, D> as Iterator>::next;
    let _ = <Ptr<BasicBlock<D>> as BlockPlace<D>>::get_parent_region;
    let _ = <Ptr<BasicBlock<D>> as BlockPlace<D>>::get_parent_op;
    let _ = <Ptr<BasicBlock<D>> as BlockPlace<D>>::get_parent_block;
    let _ = <Ptr<BasicBlock<D>> as BlockSuccessors<D>>::succs;
    let _ = <Ptr<BasicBlock<D>> as BlockSuccessors<D>>::has_succ;
    let _ = <Ptr<BasicBlock<D>> as BlockSuccessors<D>>::is_succ;
    let _ = <Ptr<BasicBlock<D>> as BlockSuccessors<D>>::get_succ;
    let _ = <Ptr<BasicBlock<D>> as BlockSuccessors<D>>::num_succ;
    let _ = <Ptr<BasicBlock<D>> as BlockSuccessors<D>>::get_terminator;
    let _ = <BasicBlock<D> as Named<D>>::given_name;
    let _ = <BasicBlock<D> as Named<D>>::id;
    let _ = <BasicBlock<D> as Named<D>>::unique_name;
    let _ = <Ptr<BasicBlock<D>> as Named<D>>::given_name;
    let _ = <Ptr<BasicBlock<D>> as Named<D>>::id;
    let _ = <Ptr<BasicBlock<D>> as Named<D>>::unique_name;
}

/// The ends of a block's list.
pub fn ends(ops: OpsInBlock) -> (Link, Link) {
    (ops.first, ops.last)
}
