//! Interning with a body: each key is kept once, and has a body that may be set.
//!
//! A place stands for a key as in a store of values, and the bodies have no part in equality.
ghost use Rattle.std.specs.Prelude.{◌≡◌, ◌<◌, ◌↔◌, false, [], length, position, slice_get, IsTrue, IfOk, IfErr, OnOk, OnErr};
ghost use Rattle.std.specs.List.{list_any, IsDistinct};
ghost use Rattle.std.specs.Map.{keys_of, values_of};
ghost use Rattle.std.specs.Option.{option_copied};
ghost use Rattle.indexmap.specs.IndexMap.{set_value_at};
ghost use Rattle.ir_model.specs.declared.error.CoreError.TheVariants.{OutOfMemory};
ghost use Rattle.ir_base_dialects.specs.Stores.{has_key, Stores};
ghost use Rattle.ir_model.specs.Edits.{place_of, with_key};

use indexmap::IndexMap;
use indexmap::map::Entry;
use ir_model::CoreError;
use std::alloc::Global;
use std::hash::Hash;
use std::marker::Model;

/// A list of distinct keys with a body each, found by a hash table.
///
/// It stands for the types of pliron's context, whose bodies are outside equality.
#[derive(Drop)]
pub struct TypeStore<K: Eq + Hash, B> {
    pairs: IndexMap<K, B>,
}

impl<K: Eq + Hash, B> Model for TypeStore<K, B> {
    ghost use Rattle.std.specs.Prelude.{List};
    ghost use Rattle.std.specs.List.{IsDistinct};
    ghost use Rattle.std.specs.Map.{keys_of};

    ghost Value = { List (K × B) };

    ghost view = { λ s. s.pairs.entries };

    ghost invariant = { λ s. IsDistinct K.eq (keys_of s.pairs.entries) };
}

impl<K: Eq + Hash, B> TypeStore<K, B> {
    /// A store without keys, which takes no memory yet.
    pub fn new(alloc: Global) -> Self
        ensures { result ≡ [] }
    {
        TypeStore {
            pairs: IndexMap::new(alloc),
        }
    }

    /// How many keys there are.
    pub fn len(&self) -> usize
        ensures count { result ≡ length self.now }
        ensures distinct { IsDistinct K.eq (keys_of self.now) }
    {
        self.pairs.len()
    }

    /// Whether there is no key.
    pub fn is_empty(&self) -> bool
        ensures { IsTrue result ↔ (self.now ≡ []) }
    {
        self.pairs.is_empty()
    }

    /// The place of the key that is equal to this one, where there is one.
    pub fn get(&self, key: &K) -> Option<usize>
        ensures { result ≡ position (λ kept. K.eq kept key.now) (keys_of self.now) }
    {
        self.pairs.get_index_of(key)
    }

    /// The key at a place.
    pub fn key(&self, place: usize) -> Option<&K>
        ensures { option_copied result ≡ slice_get (keys_of self.now) place }
    {
        let (key, _) = self.pairs.get_index(place)?;
        Some(key)
    }

    /// The body of the key at a place.
    pub fn body(&self, place: usize) -> Option<&B>
        ensures { option_copied result ≡ slice_get (values_of self.now) place }
    {
        let (_, body) = self.pairs.get_index(place)?;
        Some(body)
    }

    /// The place of the key that is equal to this one; where there is none, this one is put last, with the default body.
    ///
    /// The key that came first stays with its body, and the other is dropped. `OutOfMemory` comes only for a key that isn't there yet, and changes nothing.
    pub fn get_or_insert(&mut self, key: K) -> Result<usize, CoreError>
    where
        K: Drop,
        B: Default + Drop,
        ensures place { IfOk result (λ place. place ≡ place_of K.eq (keys_of self.old) key) }
        ensures keys { OnOk result (keys_of self.new ≡ with_key K.eq (keys_of self.old) key) }
        ensures stored { OnOk result (Stores K.eq B.is_default self.old key self.new) }
        ensures distinct { IsDistinct K.eq (keys_of self.new) }
        ensures error { IfErr result (λ error. error ≡ OutOfMemory) }
        ensures unchanged { OnErr result (self.new ≡ self.old) }
        ensures only_new { OnErr result (has_key K.eq self.old key ≡ false) }
    {
        match self.pairs.entry(key)? {
            Entry::Occupied(entry) => Ok(entry.index()),
            Entry::Vacant(entry) => {
                let place = entry.index();
                entry.insert(B::default());
                Ok(place)
            }
        }
    }

    /// Sets the body of the key at a place; the one before is dropped.
    pub fn set_body(&mut self, place: usize, body: B)
    where
        B: Drop,
        requires { place < length self.old }
        ensures { self.new ≡ set_value_at self.old place body }
    {
        if let Some(kept) = self.pairs.get_index_mut(place) {
            *kept = body;
        }
    }
}
