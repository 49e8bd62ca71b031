//! Pairs of a key and an attribute, in the order in which they came, with distinct keys.
//!
//! The first few stand in a vector, where a key is found by looking at each, and those that come behind them in a hash table. So few pairs take little memory, and many are found as fast as in a table. A pair stays where it was put: one that is removed from the vector makes place there only once the table is empty.
ghost use Rattle.std.specs.Prelude.{◌≡◌, ◌<◌, [], ◌∷◌, length, position, remove, slice_get, vec_len, IfOk, IfErr, OnOk, OnErr, Some, None, option_map};
ghost use Rattle.std.specs.Option.{option_copied, option_copied_mut};
ghost use Rattle.std.specs.Borrow.{sem};
ghost use Rattle.std.specs.Map.Iter.{TakesFirst, ShowsInOrder, deref_pair};
ghost use Rattle.std.specs.Iterator.{at_most};
ghost use Rattle.ir_model.specs.declared.error.CoreError.TheVariants.{OutOfMemory};
ghost use Rattle.ir_model.specs.Stores.{attribute_at, set_attribute, without_attribute, HasDistinctKeys};
ghost use Rattle.ir_base_dialects.specs.Attributes.{same_key};

use crate::lazy_table::LazyTable;
use indexmap::map;
use indexmap::map::Slice;
use ir_base_identifiers::Identifier;
use ir_model::CoreError;
use std::alloc::Global;
use std::marker::Model;
use std::slice;

// So many pairs stand in the vector.
const FEW: usize = 8;

/// A list of pairs with distinct keys.
#[derive(Drop)]
pub(crate) struct Pairs<A> {
    few: Vec<(Identifier, A)>,
    more: LazyTable<A>,
}

impl<A> Model for Pairs<A> {
    ghost use Rattle.std.specs.Prelude.{List, ℕ, ◌++◌};
    ghost use Rattle.ir_model.specs.Stores.{HasDistinctKeys};

    ghost Value = { List (List ℕ × A) };

    ghost view = { λ p. p.few.items ++ p.more };

    ghost invariant = { λ p. HasDistinctKeys (p.few.items ++ p.more) };
}

// The place of the pair with the key.
fn place_of<A>(pairs: &[(Identifier, A)], key: &Identifier) -> Option<usize>
    ensures { result ≡ position (λ pair. same_key key.now pair.0) pairs.now }
{
    pairs.iter().position(|pair| *key == pair.0)
}

// Takes the pair at a place out, and hands its attribute back.
fn remove_at<A>(pairs: &mut Vec<(Identifier, A)>, place: usize) -> A
    requires { place < vec_len pairs.old }
    ensures value { Some result ≡ option_map (λ pair. pair.1) (slice_get pairs.old.items place) }
    ensures rest { pairs.new.items ≡ remove pairs.old.items place }
{
    let (_, attr) = pairs.remove(place);
    attr
}

impl<A> Pairs<A> {
    ghost use Rattle.ir_base_dialects.specs.PairLends.{lends_attribute};

    /// One pair, with place for no other yet, since most dictionaries have one.
    pub(crate) fn with_first(alloc: Global, key: Identifier, attr: A) -> Result<Self, CoreError>
    where
        A: Drop,
        ensures pairs { IfOk result (λ pairs. pairs ≡ (key, attr) ∷ []) }
        ensures error { IfErr result (λ error. error ≡ OutOfMemory) }
    {
        let mut few = Vec::with_capacity(alloc, 1)?;
        few.push((key, attr))?;
        Ok(Pairs {
            few,
            more: LazyTable::new(alloc),
        })
    }

    /// How many pairs there are.
    pub(crate) fn len(&self) -> usize
        ensures count { result ≡ length self.now }
        ensures distinct { HasDistinctKeys self.now }
    {
        self.few.len() + self.more.pairs().len()
    }

    /// The pair at a place.
    pub(crate) fn get_index(&self, place: usize) -> Option<(&Identifier, &A)>
        ensures { option_map deref_pair result ≡ slice_get self.now place }
    {
        if let Some((key, attr)) = self.few.get(place) {
            return Some((key, attr));
        }
        self.more.pairs().get_index(place - self.few.len())
    }

    /// The attribute at the key, where there is one.
    pub(crate) fn get(&self, key: &Identifier) -> Option<&A>
        ensures { option_copied result ≡ attribute_at self.now key.now }
    {
        match place_of(&self.few, key) {
            Some(place) => Some(&self.few[place].1),
            None => self.more.get(key),
        }
    }

    /// The attribute at the key, to write, where there is one.
    pub(crate) fn get_mut(&mut self, key: &Identifier) -> Option<&mut A>
        ensures* writes_back { sem 𝓛 (lends_attribute A.row self.entry key.now result) }
        ensures value { option_copied_mut result ≡ attribute_at self.old key.now }
    {
        match place_of(&self.few, key) {
            Some(place) => Some(&mut self.few[place].1),
            None => match self.more.get_mut(key) {
                Some(attr) => Some(attr),
                None => None,
            },
        }
    }

    /// Puts the attribute at the key. The one before is dropped.
    ///
    /// `OutOfMemory` comes only for a key that isn't there yet, and changes nothing.
    pub(crate) fn insert(&mut self, key: Identifier, attr: A) -> Result<(), CoreError>
    where
        A: Drop,
        ensures set { OnOk result (self.new ≡ set_attribute self.old key attr) }
        ensures error { IfErr result (λ error. error ≡ OutOfMemory) }
        ensures unchanged { OnErr result (self.new ≡ self.old) }
        ensures only_new { OnErr result (attribute_at self.old key ≡ None) }
    {
        if let Some(place) = place_of(&self.few, &key) {
            self.few[place].1 = attr;
            return Ok(());
        }
        if self.few.len() < FEW && self.more.is_empty() {
            self.few.push((key, attr))?;
        } else {
            self.more.insert(key, attr)?;
        }
        Ok(())
    }

    /// Takes the pair at the key away, and hands its attribute back. The rest keep their order.
    pub(crate) fn remove(&mut self, key: &Identifier) -> Option<A>
        ensures value { result ≡ attribute_at self.old key.now }
        ensures rest { self.new ≡ without_attribute self.old key.now }
    {
        match place_of(&self.few, key) {
            Some(place) => Some(remove_at(&mut self.few, place)),
            None => self.more.remove(key),
        }
    }

    /// Gives back the memory that is kept for pairs to come. The pairs stay.
    pub(crate) fn shrink_to_fit(&mut self)
        ensures same { self.new ≡ self.old }
    {
        self.few.shrink_to_fit();
        self.more.shrink_to_fit();
    }

    /// The pairs in their order.
    pub(crate) fn iter(&self) -> Iter<'_, A>
        ensures rest { result ≡ self.now }
        ensures runs { ShowsInOrder (deref_pair {K = Identifier} {X = A}) }
    {
        Iter {
            few: self.few.iter(),
            more: self.more.pairs().iter(),
        }
    }
}

/// The pairs of a dictionary that are left, in their order.
#[derive(Drop)]
pub struct Iter<'a, A> {
    few: slice::Iter<'a, (Identifier, A)>,
    more: map::Iter<'a, Identifier, A>,
}

impl<'a, A> Model for Iter<'a, A> {
    ghost use Rattle.std.specs.Prelude.{List, ℕ, ◌++◌};
    ghost use Rattle.std.specs.Slice.Iter.{iter_rest};

    ghost Value = { List (List ℕ × A) };

    ghost view = { λ s. iter_rest s.few ++ s.more };
}

impl<'a, A> Iter<'a, A> {
    /// No pairs.
    pub(crate) fn none() -> Self
        ensures rest { result ≡ [] }
        ensures runs { ShowsInOrder (deref_pair {K = Identifier} {X = A}) }
    {
        Iter {
            few: [].iter(),
            more: Slice::new().iter(),
        }
    }
}

impl<'a, A> Iterator for Iter<'a, A> {
    type Item = (&'a Identifier, &'a A);

    ghost next_gives = { TakesFirst deref_pair };

    ghost remaining = { λ s. at_most (length s) };

    fn next(&mut self) -> Option<(&'a Identifier, &'a A)> {
        if let Some((key, attr)) = self.few.next() {
            return Some((key, attr));
        }
        self.more.next()
    }
}
