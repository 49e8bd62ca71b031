//! Interning: a store keeps each value once, and the place of a value stands for it.
//!
//! The places are counted from 0 in the order in which the values came, and never change, so two values have one place exactly where they are equal.
ghost use Rattle.std.specs.Prelude.{◌≡◌, ◌↔◌, false, [], length, position, slice_get, IsTrue, IfOk, IfErr, OnOk, OnErr};
ghost use Rattle.std.specs.List.{list_any, IsDistinct};
ghost use Rattle.std.specs.Option.{option_copied};
ghost use Rattle.ir_model.specs.declared.error.CoreError.TheVariants.{OutOfMemory};
ghost use Rattle.ir_model.specs.Edits.{place_of, with_key};

use indexmap::IndexSet;
use ir_model::CoreError;
use std::alloc::Global;
use std::hash::Hash;
use std::marker::Model;

/// A list of distinct values, found by a hash table.
///
/// It stands for pliron's `UniqueStore`.
#[derive(Drop)]
pub struct UniqueStore<T: Eq + Hash> {
    values: IndexSet<T>,
}

impl<T: Eq + Hash> Model for UniqueStore<T> {
    ghost use Rattle.std.specs.Prelude.{List};
    ghost use Rattle.std.specs.List.{IsDistinct};

    ghost Value = { List T };

    ghost view = { λ s. s.values.keys };

    ghost invariant = { λ s. IsDistinct T.eq s.values.keys };
}

impl<T: Eq + Hash> UniqueStore<T> {
    /// A store without values, which takes no memory yet.
    pub fn new(alloc: Global) -> Self
        ensures { result ≡ [] }
    {
        UniqueStore {
            values: IndexSet::new(alloc),
        }
    }

    /// How many values there are.
    pub fn len(&self) -> usize
        ensures count { result ≡ length self.now }
        ensures distinct { IsDistinct T.eq self.now }
    {
        self.values.len()
    }

    /// Whether there is no value.
    pub fn is_empty(&self) -> bool
        ensures { IsTrue result ↔ (self.now ≡ []) }
    {
        self.values.is_empty()
    }

    /// The place of the value that is equal to this one, where there is one.
    pub fn get(&self, value: &T) -> Option<usize>
        ensures { result ≡ position (λ kept. T.eq kept value.now) self.now }
    {
        self.values.get_index_of(value)
    }

    /// The value at a place.
    pub fn get_index(&self, place: usize) -> Option<&T>
        ensures { option_copied result ≡ slice_get self.now place }
    {
        self.values.get_index(place)
    }

    /// The values in the order in which they came.
    pub fn as_slice(&self) -> &[T]
        ensures { result.now ≡ self.now }
    {
        self.values.as_slice()
    }

    /// The place of the value that is equal to this one; where there is none, this one is put last.
    ///
    /// The value that came first stays, and the other is dropped. `OutOfMemory` comes only for a value that isn't there yet, and changes nothing.
    pub fn get_or_create_unique(&mut self, value: T) -> Result<usize, CoreError>
    where
        T: Drop,
        ensures place { IfOk result (λ place. place ≡ place_of T.eq self.old value) }
        ensures stored { OnOk result (self.new ≡ with_key T.eq self.old value) }
        ensures distinct { IsDistinct T.eq self.new }
        ensures error { IfErr result (λ error. error ≡ OutOfMemory) }
        ensures unchanged { OnErr result (self.new ≡ self.old) }
        ensures only_new { OnErr result (list_any (λ kept. T.eq kept value) self.old ≡ false) }
    {
        let (place, _) = self.values.insert_full(value)?;
        Ok(place)
    }
}
