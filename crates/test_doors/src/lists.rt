//! `ir_base::linked_list` and `ir_core::linked_list`.

use ir_base::context::Ptr;
use ir_base::linked_list;
use ir_base::linked_list::{ContainsLinkedList, Iter, LinkedList};
use ir_base::prelude::*;
use ir_core::basic_block::BasicBlock;
use ir_core::operation::Operation;
use ir_core::prelude::*;
use ir_core::region::Region;

/// Lists over arenas.
pub fn over_arenas<T: LinkedList, C: ContainsLinkedList<T>>() {
    let _ = T::get_next;
    let _ = T::get_prev;
    let _ = T::get_container;
    let _ = T::set_next;
    let _ = T::set_prev;
    let _ = T::set_container;
    let _ = C::get_head;
    let _ = C::get_tail;
    let _ = C::set_head;
    let _ = C::set_tail;
    let _ = linked_list::insert_after::<T, C>;
    let _ = linked_list::insert_before::<T, C>;
    let _ = linked_list::insert_at_front::<T, C>;
    let _ = linked_list::insert_at_back::<T, C>;
    let _ = linked_list::unlink::<T, C>;
    let _ = linked_list::append_linked_list::<T, C>;
    let _ = linked_list::is_linked::<T>;
    let _ = linked_list::iter::<T, C>;
}

/// Walks over lists.
pub fn walks<'a, T: LinkedList>() {
    let _ = <Iter<'a, T> as Clone>::clone;
    let _ = <Iter<'a, T> as Iterator>::next;
    let _ = <Iter<'a, T> as DoubleEndedIterator>::next_back;
}

/// The operations of a block.
pub fn of_operations<D: Dialects>() {
    let _ = <Ptr<Operation<D>> as OperationList<D>>::insert_after;
    let _ = <Ptr<Operation<D>> as OperationList<D>>::insert_before;
    let _ = <Ptr<Operation<D>> as OperationList<D>>::insert_at_front;
    let _ = <Ptr<Operation<D>> as OperationList<D>>::insert_at_back;
    let _ = <Ptr<Operation<D>> as OperationList<D>>::unlink;
    let _ = <Ptr<BasicBlock<D>> as OperationContainer<D>>::append_linked_list;
    let _ = <Ptr<BasicBlock<D>> as BlockPlace<D>>::iter;
    let _ = <Ptr<BasicBlock<D>> as BlockPlace<D>>::get_head;
    let _ = <Ptr<BasicBlock<D>> as BlockPlace<D>>::get_tail;
    let _ = <Ptr<Operation<D>> as OperationPlace<D>>::is_linked;
    let _ = <Ptr<Operation<D>> as OperationPlace<D>>::get_next;
    let _ = <Ptr<Operation<D>> as OperationPlace<D>>::get_prev;
}

/// The blocks of a region.
pub fn of_blocks<D: Dialects>() {
    let _ = <Ptr<BasicBlock<D>> as BlockList<D>>::insert_after;
    let _ = <Ptr<BasicBlock<D>> as BlockList<D>>::insert_before;
    let _ = <Ptr<BasicBlock<D>> as BlockList<D>>::insert_at_front;
    let _ = <Ptr<BasicBlock<D>> as BlockList<D>>::insert_at_back;
    let _ = <Ptr<BasicBlock<D>> as BlockList<D>>::unlink;
    let _ = <Ptr<Region> as BlockContainer<D>>::append_linked_list;
    let _ = <Ptr<Region> as RegionPlace<D>>::iter;
    let _ = <Ptr<Region> as RegionPlace<D>>::get_head;
    let _ = <Ptr<Region> as RegionPlace<D>>::get_tail;
    let _ = <Ptr<BasicBlock<D>> as BlockPlace<D>>::is_linked;
    let _ = <Ptr<BasicBlock<D>> as BlockPlace<D>>::get_next;
    let _ = <Ptr<BasicBlock<D>> as BlockPlace<D>>::get_prev;
}
