//! Stores: values and keys are kept once, and keep their places.

use crate::expecting::expect_same;
use ir_base_dialects::{CoreError, TypeStore, UniqueStore};
use std::process::Abort;

/// Keys that are numbers, with the place of a key as their body.
type Keys = TypeStore<u64, Option<usize>>;

/// A store of numbers.
trait Numbers {
    // The place of a number, which is stored where it isn't there.
    fn store(&mut self, number: u64) -> Result<usize, CoreError>;

    // Whether a number is at a place, by each way to look for one, and has no body.
    fn has_at(&self, place: usize, number: u64) -> bool;

    // Whether there are so many numbers, by each way to count, and this one isn't among them.
    fn ends_at(&self, len: usize, absent: u64) -> bool;
}

impl Numbers for UniqueStore<u64> {
    fn store(&mut self, number: u64) -> Result<usize, CoreError> {
        self.get_or_create_unique(number)
    }

    fn has_at(&self, place: usize, number: u64) -> bool {
        self.get(&number) == Some(place) && self.get_index(place) == Some(&number)
    }

    fn ends_at(&self, len: usize, absent: u64) -> bool {
        self.len() == len
            && self.is_empty() == (len == 0)
            && self.get_index(len).is_none()
            && self.get(&absent).is_none()
    }
}

impl Numbers for Keys {
    fn store(&mut self, number: u64) -> Result<usize, CoreError> {
        self.get_or_insert(number)
    }

    fn has_at(&self, place: usize, number: u64) -> bool {
        self.get(&number) == Some(place)
            && self.key(place) == Some(&number)
            && self.body(place) == Some(&None)
    }

    fn ends_at(&self, len: usize, absent: u64) -> bool {
        self.len() == len
            && self.is_empty() == (len == 0)
            && self.key(len).is_none()
            && self.body(len).is_none()
            && self.get(&absent).is_none()
    }
}

// Whether a store has these numbers at their places, without bodies, and not this one.
fn has<S: Numbers>(store: &S, numbers: &[u64], absent: u64) -> bool {
    for (place, number) in numbers.iter().enumerate() {
        if !store.has_at(place, *number) {
            return false;
        }
    }
    store.ends_at(numbers.len(), absent)
}

// Asserts that the number is stored at the place by the next call too, and no other one is stored.
fn expect_again<S: Numbers>(rt: &impl Abort, store: &mut S, number: u64, place: usize) {
    assert!(rt; store.store(number) == Ok(place), "{number}");
}

// Stores a number that comes to a place. Where memory is refused, asserts that nothing was stored, and that the next call stores it, and the test ends.
fn store_at<S: Numbers>(rt: &impl Abort, store: &mut S, before: &[u64], number: u64, place: usize) {
    let answer = store.store(number);
    if answer.is_err() {
        expect_same(rt, has(store, before, number), true);
        expect_again(rt, store, number, place);
    }
    expect_same(rt, answer.expect(rt, "memory"), place);
}

// Stores two numbers in an empty store, and the first of them again and again.
fn expect_two<S: Numbers>(rt: &impl Abort, store: &mut S) {
    expect_same(rt, has(store, &[], 8), true);
    store_at(rt, store, &[], 32, 0);
    expect_again(rt, store, 32, 0);
    store_at(rt, store, &[32], 64, 1);
    expect_again(rt, store, 32, 0);
    expect_same(rt, has(store, &[32, 64], 8), true);
}

#[test]
fn interning(rt: HostRuntime) {
    let mut store = UniqueStore::new(rt.alloc());
    expect_two(&rt, &mut store);
    expect_same(&rt, store.as_slice() == [32, 64].as_slice(), true);
}

// Sets the body at a place, where it has a key.
fn set_body(store: &mut Keys, place: usize, body: usize) {
    if place < store.len() {
        store.set_body(place, Some(body));
    }
}

// Gives the second of two keys a body, with which it is still the same key.
fn expect_body(rt: &impl Abort, store: &mut Keys) {
    set_body(store, 1, 1);
    expect_again(rt, store, 64, 1);
    let bodies = (store.body(0).copied(), store.body(1).copied());
    expect_same(rt, bodies, (Some(None), Some(Some(1))));
    expect_same(rt, (store.get(&64), store.ends_at(2, 8)), (Some(1), true));
}

#[test]
fn bodies_outside_equality(rt: HostRuntime) {
    let mut store = Keys::new(rt.alloc());
    expect_two(&rt, &mut store);
    expect_body(&rt, &mut store);
}

// Stores nine numbers, each of them twice.
fn expect_nine<S: Numbers>(rt: &impl Abort, store: &mut S) {
    let numbers = [0, 7, 14, 21, 28, 35, 42, 49, 56];
    for (place, number) in numbers.iter().enumerate() {
        store_at(rt, store, &numbers[..place], *number, place);
        expect_again(rt, store, *number, place);
        expect_same(rt, has(store, &numbers[..place + 1], 8), true);
    }
}

#[test]
fn refused_value_is_not_stored(rt: HostRuntime) {
    expect_nine(&rt, &mut UniqueStore::new(rt.alloc()));
}

#[test]
fn refused_key_is_not_stored(rt: HostRuntime) {
    expect_nine(&rt, &mut Keys::new(rt.alloc()));
}
