//! Arenas, stores, verifier lists and dictionary keys.

ghost use Rattle.std.specs.Prelude.{◌≡◌};

use crate::identifier_calls::owned;
use crate::store_call::StoreCall;
use ir_base_dialects::{
    Arena, CoreError, DictKeyId, Ptr, TypeStore, UniqueStore, collect_deduped_interface_verifiers,
};
use std::alloc::Global;

/// A call that stores, collects or copies a key.
#[derive(Clone, Copy, Debug, Drop)]
pub enum StoringCall {
    /// `Arena::insert_with`.
    Arena,
    /// `Arena::reserve`.
    Place,
    /// `UniqueStore::get_or_create_unique`.
    Unique,
    /// `TypeStore::get_or_insert`.
    Keys,
    /// `collect_deduped_interface_verifiers`.
    Verifiers,
    /// `clone` of a `DictKeyId`.
    CloneKey,
}

impl StoringCall {
    /// All of them.
    pub const ALL: [StoringCall; 6] = [
        StoringCall::Arena,
        StoringCall::Place,
        StoringCall::Unique,
        StoringCall::Keys,
        StoringCall::Verifiers,
        StoringCall::CloneKey,
    ];

    /// The call as `ALL` has it.
    pub fn listed(self) -> StoringCall
        ensures { result ≡ self }
    {
        StoringCall::ALL[self as usize]
    }
}

impl StoreCall for StoringCall {
    fn name(self) -> &'static str {
        match self {
            StoringCall::Arena => "Arena::insert_with",
            StoringCall::Place => "Arena::reserve",
            StoringCall::Unique => "get_or_create_unique",
            StoringCall::Keys => "TypeStore::get_or_insert",
            StoringCall::Verifiers => "collect_deduped_interface_verifiers",
            StoringCall::CloneKey => "DictKeyId::clone",
        }
    }

    fn make(self, alloc: Global) -> Result<bool, CoreError> {
        match self {
            StoringCall::Arena => insert_nine(&mut Arena::new(alloc, 100, 100)),
            StoringCall::Place => makes_place(&mut Arena::new(alloc, 100, 100)),
            StoringCall::Unique => unique_nine(&mut UniqueStore::new(alloc)),
            StoringCall::Keys => keys_nine(&mut TypeStore::new(alloc)),
            StoringCall::Verifiers => collect(alloc),
            StoringCall::CloneKey => copies_key(alloc),
        }
    }
}

// Puts the number into the arena.
fn insert(arena: &mut Arena<u64>, number: u64) -> Result<Ptr<u64>, CoreError> {
    arena.insert_with(move |_: Ptr<u64>| number)
}

// Whether the number is stored. Where memory lacks, the arena has as many as before, and takes it afterwards.
fn inserts(arena: &mut Arena<u64>, number: u64) -> Result<bool, CoreError> {
    let count = arena.len();
    let ptr = match insert(arena, number) {
        Ok(ptr) => ptr,
        Err(CoreError::OutOfMemory) if arena.len() == count => insert(arena, number)?,
        Err(error) => return Err(error),
    };
    Ok(arena.get(ptr) == Some(&number) && arena.len() > count)
}

// Whether nine numbers are stored in the arena, one after the other.
fn insert_nine(arena: &mut Arena<u64>) -> Result<bool, CoreError> {
    let mut done = true;
    for number in 0..9u64 {
        done &= inserts(arena, number)?;
    }
    Ok(done && arena.len() == 9)
}

// Whether there is place for nine more numbers. Where memory lacks, the arena is as before, and makes place afterwards.
fn makes_place(arena: &mut Arena<u64>) -> Result<bool, CoreError> {
    let done = inserts(arena, 7)?;
    if arena.reserve(9).is_err() {
        arena.reserve(9)?;
    }
    Ok(done && arena.len() == 1)
}

// Whether the number gets the place. Where memory lacks, it has none, and gets it afterwards.
fn is_unique(store: &mut UniqueStore<u64>, number: u64, place: usize) -> Result<bool, CoreError> {
    let answer = store.get_or_create_unique(number);
    if answer == Err(CoreError::OutOfMemory) {
        let lacks = store.len() == place && store.get(&number).is_none();
        return Ok(store.get_or_create_unique(number)? == place && lacks);
    }
    Ok(answer? == place && store.get_index(place) == Some(&number))
}

// Whether nine numbers get the first places of the store, one after the other.
fn unique_nine(store: &mut UniqueStore<u64>) -> Result<bool, CoreError> {
    let mut done = true;
    for place in 0..9usize {
        done &= is_unique(store, place as u64, place)?;
    }
    Ok(done && store.len() == 9)
}

// Whether the key gets the place. Where memory lacks, it has none, and gets it afterwards.
fn is_key(
    store: &mut TypeStore<u64, Option<usize>>,
    key: u64,
    place: usize,
) -> Result<bool, CoreError> {
    let answer = store.get_or_insert(key);
    if answer == Err(CoreError::OutOfMemory) {
        let lacks = store.len() == place && store.get(&key).is_none();
        return Ok(store.get_or_insert(key)? == place && lacks);
    }
    Ok(answer? == place && store.key(place) == Some(&key))
}

// Whether nine keys get the first places of the store, one after the other.
fn keys_nine(store: &mut TypeStore<u64, Option<usize>>) -> Result<bool, CoreError> {
    let mut done = true;
    for place in 0..9usize {
        done &= is_key(store, place as u64, place)?;
    }
    Ok(done && store.len() == 9)
}

// An entry: the owner with these verifiers.
fn entry(alloc: Global, owner: u32, verifiers: &[u32]) -> Result<(u32, Vec<u32>), CoreError> {
    Ok((owner, verifiers.to_vec(alloc)?))
}

// Whether the list has these verifiers under this owner at the place.
fn has(lists: &[(u32, Vec<u32>)], place: usize, owner: u32, verifiers: &[u32]) -> bool {
    match lists.get(place) {
        Some((found, list)) => *found == owner && list.as_slice() == verifiers,
        None => false,
    }
}

// Puts three entries of two owners, the second one twice.
fn put_entries(alloc: Global, entries: &mut Vec<(u32, Vec<u32>)>) -> Result<(), CoreError> {
    entries.push(entry(alloc, 9, &[5])?)?;
    entries.push(entry(alloc, 2, &[5, 5])?)?;
    entries.push(entry(alloc, 9, &[4, 5])?)?;
    Ok(())
}

// Whether the verifiers of the three entries are collected.
fn collect(alloc: Global) -> Result<bool, CoreError> {
    let mut entries = Vec::with_capacity(alloc, 3)?;
    put_entries(alloc, &mut entries)?;
    let lists = collect_deduped_interface_verifiers(alloc, entries.as_slice())?;
    let found = lists.as_slice();
    Ok(found.len() == 2 && has(found, 0, 9, &[5, 4]) && has(found, 1, 2, &[5]))
}

// Whether a dictionary key is copied.
fn copies_key(alloc: Global) -> Result<bool, CoreError> {
    let key = DictKeyId {
        id: owned(alloc, "key")?,
        file: "file",
        line: 3,
        column: 4,
    };
    let copy = key.clone()?;
    Ok(copy == key && copy.line == 3)
}
