//! `ir_base::context` and `ir_core::context`.

use ir_base::context::{
    Arena, ArenaIndex, CoreError, Dialects, DictKeyId, DuplicateKey, Limits, Ptr, Room, TakeOut,
    collect_deduped_interface_verifiers, verify_dict_keys,
};
use ir_core::basic_block::BasicBlock;
use ir_core::context::{
    ArenaObj, AuxDataIndex, Context, DanglingPtrDerefError, Entity, can_erase, is_inside,
};
use ir_core::operation::Operation;
use ir_core::region::Region;
use std::collections::hash_map::DefaultHasher;
use std::fmt::Display;
use std::hash::Hash;

/// Arenas, their handles, and what a call may lack.
pub fn arenas<T: TakeOut + Drop>() {
    let _ = Arena::<T>::new;
    let _ = Arena::<T>::reserve;
    let _ = Arena::<T>::clear;
    let _ = Arena::<T>::insert_with::<fn(Ptr<T>) -> T>;
    let _ = Arena::<T>::get;
    let _ = Arena::<T>::get_mut;
    let _ = Arena::<T>::remove;
    let _ = T::take_out;
    let _ = Arena::<T>::is_live;
    let _ = Arena::<T>::is_empty;
    let _ = Arena::<T>::len;
    let _ = Arena::<T>::room;
    let _ = Ptr::<T>::index;
    let _ = <Ptr<T> as Clone>::clone;
    let _ = <Ptr<T> as PartialEq>::eq;
    let _ = <Ptr<T> as Hash>::hash::<DefaultHasher>;
    let _ = <ArenaIndex as Display>::fmt::<String>;
    let _ = CoreError::OutOfMemory;
    let _ = CoreError::CounterSpent;
    let _ = CoreError::SlotsSpent;
}

/// Contexts, with their auxiliary data, and who stands in whom.
pub fn contexts<D: Dialects>() {
    let _ = Context::<D>::new;
    let _ = Context::<D>::with_limits;
    let _ = Context::<D>::is_ir_empty;
    let _ = Context::<D>::reserve;
    let _ = Context::<D>::clear;
    let _ = Context::<D>::room;
    let _ = Context::<D>::alloc;
    let _ = Context::<D>::type_at;
    let _ = Context::<D>::insert_aux;
    let _ = Context::<D>::get_aux;
    let _ = Context::<D>::get_aux_mut;
    let _ = Context::<D>::remove_aux;
    let _ = Context::<D>::set_aux_name;
    let _ = Context::<D>::aux_by_name;
    let _ = <AuxDataIndex as PartialEq>::eq;
    let _ = DanglingPtrDerefError;
    let _ = Entity::<D>::Op;
    let _ = Entity::<D>::Block;
    let _ = Entity::<D>::Region;
    let _ = is_inside::<D>;
    let _ = can_erase::<D>;
}

/// The arenas of a context, and the handles of what they have.
pub fn arena_objects<D: Dialects, T: ArenaObj<D>>() {
    let _ = T::get_arena;
    let _ = T::get_self_ptr;
}

/// The three that a context has.
pub fn objects_of_a_context<D: Dialects>() {
    arena_objects::<D, Operation<D>>();
    arena_objects::<D, BasicBlock<D>>();
    arena_objects::<D, Region>();
}

/// What a context may hand out, and what it has left.
pub fn limits(room: Room) -> Limits {
    let _ = (
        room.values,
        room.uses,
        room.ops,
        room.blocks,
        room.regions,
        room.aux,
    );
    let _ = Limits::default;
    Limits {
        values: room.values,
        uses: room.uses,
        slots: room.ops,
        last_version: 1,
    }
}

/// Dictionary keys, and lists of verifiers.
pub fn lists(key: &DictKeyId, twice: DuplicateKey) {
    let DictKeyId {
        id: _,
        file: _,
        line: _,
        column: _,
    } = key;
    let DuplicateKey {
        first: _,
        second: _,
    } = twice;
    let _ = verify_dict_keys;
    let _ = collect_deduped_interface_verifiers;
}
