//! Dictionaries of attributes.
ghost use Rattle.std.specs.Prelude.{◌≡◌, ◌↔◌, ◌&&◌, [], length, slice_get, true, not, filter, None, Some, IsTrue, IfOk, IfErr, OnOk, OnErr, option_and_then, option_map};
ghost use Rattle.std.specs.Option.{option_copied, option_copied_mut};
ghost use Rattle.std.specs.Borrow.{sem};
ghost use Rattle.std.specs.List.{IsDistinct};
ghost use Rattle.std.specs.Map.{keys_of};
ghost use Rattle.std.specs.Map.Iter.{ShowsInOrder, deref_pair};
ghost use Rattle.ir_model.specs.declared.error.CoreError.TheVariants.{OutOfMemory};
ghost use Rattle.ir_base_dialects.specs.declared.interfaces.TheConstants.{OUTLINED_ATTRIBUTE};
ghost use Rattle.ir_model.specs.Stores.{attribute_at, set_attribute, without_attribute, HasDistinctKeys, SameAttribute};
ghost use Rattle.ir_base_dialects.specs.Attributes.{same_key, passing, is_outlined, kept_pairs, same_pairs, AreCopies, dict_input, IsNextPair, IsWithin, is_above, is_below};
ghost use Rattle.ir_base_dialects.specs.AttributeLaws.{same_pairs-laws, same_pairs-equivalence, by_key-equal};

use crate::attribute::{Attribute, attr_impls, attr_should_outline};
use crate::dialects::Dialects;
use crate::interfaces::AttrInterfaceMarker;
use crate::pairs::{Iter, Pairs};
use ir_base_identifiers::Identifier;
use ir_model::CoreError;
use std::alloc::Global;
use std::hash::{Hash, Hasher};
use std::marker::Model;

/// A list of pairs of a key and an attribute, with distinct keys.
///
/// A new key goes last, and a key that is there keeps its place. The first eight pairs stand in a vector, and those beyond them in a hash table. A dictionary that never had a pair takes 16 bytes. It stands for pliron's `AttributeDict`.
#[derive(Drop)]
pub struct AttributeDict<D: Dialects> {
    pairs: Option<Box<Pairs<D::Attr>>>,
    alloc: Global,
}

impl<D: Dialects> Model for AttributeDict<D> {
    ghost use Rattle.std.specs.Prelude.{List, ℕ};

    ghost Value = { List (List ℕ × D.Attr) };

    ghost use Rattle.ir_base_dialects.specs.KeptPairs.{pairs_in};

    ghost view = { λ d. pairs_in d.pairs };
}

// Whether the key is above the bound, where there is one.
fn is_after(bound: Option<&Identifier>, key: &Identifier) -> bool
    ensures { result ≡ is_above (option_copied bound.entry) key.now }
{
    match bound {
        Some(bound) => bound < key,
        None => true,
    }
}

// Whether the key is below that of the pair, where there is one.
fn is_before<V>(key: &Identifier, pair: Option<(&Identifier, &V)>) -> bool
    ensures { result ≡ is_below key.now (option_map deref_pair pair.entry) }
{
    match pair {
        Some((bound, _)) => key < bound,
        None => true,
    }
}

impl<D: Dialects> AttributeDict<D> {
    ghost use Rattle.ir_base_dialects.specs.AttributeLends.{lends_value};

    /// A dictionary without pairs, which takes no memory yet.
    pub fn new(alloc: Global) -> Self
        ensures { result ≡ [] }
    {
        AttributeDict { pairs: None, alloc }
    }

    // The pair at a place.
    fn get_index(&self, place: usize) -> Option<(&Identifier, &D::Attr)>
        ensures entry { option_map deref_pair result ≡ slice_get self.now place }
    {
        match &self.pairs {
            Some(pairs) => pairs.get_index(place),
            None => None,
        }
    }

    // The attribute at the key, where there is one.
    fn attr(&self, key: &Identifier) -> Option<&D::Attr>
        ensures { option_copied result ≡ attribute_at self.now key.now }
    {
        match &self.pairs {
            Some(pairs) => pairs.get(key),
            None => None,
        }
    }

    // Puts the attribute at the key. The one before is dropped.
    fn put(&mut self, key: Identifier, attr: D::Attr) -> Result<(), CoreError>
        ensures set { OnOk result (self.new ≡ set_attribute self.old key attr) }
        ensures error { IfErr result (λ error. error ≡ OutOfMemory) }
        ensures unchanged { OnErr result (self.new ≡ self.old) }
        ensures only_new { OnErr result (attribute_at self.old key ≡ None) }
    {
        match &mut self.pairs {
            Some(pairs) => pairs.insert(key, attr),
            None => {
                let pairs = Pairs::with_first(self.alloc, key, attr)?;
                self.pairs = Some(Box::new(self.alloc, pairs)?);
                Ok(())
            }
        }
    }

    /// How many pairs there are.
    pub fn len(&self) -> usize
        ensures count { result ≡ length self.now }
        ensures distinct { HasDistinctKeys self.now }
    {
        match &self.pairs {
            Some(pairs) => pairs.len(),
            None => 0,
        }
    }

    /// Whether there is no pair.
    pub fn is_empty(&self) -> bool
        ensures { IsTrue result ↔ (self.now ≡ []) }
    {
        self.len() == 0
    }

    /// The value of the attribute at the key, where there is one of the kind of `T`.
    pub fn get<T: Attribute<D>>(&self, key: &Identifier) -> Option<&T>
        ensures { option_copied result ≡ option_and_then T.value_of (attribute_at self.now key.now) }
    {
        let attr = self.attr(key)?;
        T::of_attr(attr)
    }

    /// The value of the attribute at the key, to write, where there is one of the kind of `T`.
    ///
    /// What is written last is the attribute's value from then on. Its key keeps its place, and the other pairs stay.
    pub fn get_mut<T: Attribute<D>>(&mut self, key: &Identifier) -> Option<&mut T>
        ensures* writes_back { sem 𝓛 (lends_value D.row D.Attr.row D.TypeKey.row D.TypeBody.row D.Saved.row D.Aux.row D.Loc.row D.Dialects D.Attr.Hash D.TypeKey.Hash D.TypeBody.Default D.Saved.Hash D.Loc.Default T.row T.with_value self.entry key.now result) }
        ensures value { option_copied_mut result ≡ option_and_then T.value_of (attribute_at self.old key.now) }
    {
        match &mut self.pairs {
            Some(pairs) => {
                let attr = pairs.get_mut(key)?;
                T::of_attr_mut(attr)
            }
            None => None,
        }
    }

    /// The attribute at the key, where there is one whose kind implements the interface.
    pub fn get_as<I: AttrInterfaceMarker>(&self, key: &Identifier) -> Option<&D::Attr>
        ensures { option_copied result ≡ passing (λ attr. D.attr_impls_of (D.attr_kind_of attr) I.NUMBER) (attribute_at self.now key.now) }
    {
        let attr = self.attr(key)?;
        if attr_impls::<I, D>(attr) {
            Some(attr)
        } else {
            None
        }
    }

    /// Puts the attribute that stands for the value at the key. The one before is dropped.
    ///
    /// `OutOfMemory` comes only for a key that isn't there yet, and changes nothing.
    pub fn set<T: Attribute<D>>(&mut self, key: Identifier, value: T) -> Result<(), CoreError>
        ensures set { OnOk result (self.new ≡ set_attribute self.old key (T.attr_of value)) }
        ensures error { IfErr result (λ error. error ≡ OutOfMemory) }
        ensures unchanged { OnErr result (self.new ≡ self.old) }
        ensures only_new { OnErr result (attribute_at self.old key ≡ None) }
    {
        self.put(key, value.into_attr())
    }

    /// Takes the pair at the key away, and hands its attribute back. The rest keep their order.
    pub fn remove(&mut self, key: &Identifier) -> Option<D::Attr>
        ensures value { result ≡ attribute_at self.old key.now }
        ensures rest { self.new ≡ without_attribute self.old key.now }
    {
        match &mut self.pairs {
            Some(pairs) => pairs.remove(key),
            None => None,
        }
    }

    /// Gives back the memory that is kept for pairs to come, as far as a table can. The pairs stay.
    pub fn shrink_to_fit(&mut self)
        ensures same { self.new ≡ self.old }
    {
        if let Some(pairs) = &mut self.pairs {
            pairs.shrink_to_fit();
        }
    }

    /// All pairs, with the memory that they own. The dictionary is empty then.
    pub fn take(&mut self) -> Self
        ensures value { result ≡ self.old }
        ensures left { self.new ≡ [] }
    {
        AttributeDict {
            pairs: self.pairs.take(),
            alloc: self.alloc,
        }
    }

    /// The pairs in their order.
    pub fn iter(&self) -> Iter<'_, D::Attr>
        ensures rest { result ≡ self.now }
        ensures runs { ShowsInOrder (deref_pair {K = Identifier} {X = D.Attr}) }
    {
        if let Some(pairs) = &self.pairs {
            return pairs.iter();
        }
        Iter::none()
    }

    // Copies the pairs in their order: all of them, or those whose attribute isn't to be outlined.
    fn copy_pairs(&self, all: bool) -> Result<Self, CoreError>
        ensures copies { IfOk result (AreCopies D.Attr.eq (kept_pairs (is_outlined D.attr_kind_of D.attr_impls_of D.attr_outline_of) all self.now)) }
        ensures error { IfErr result (λ error. error ≡ OutOfMemory) }
    {
        let mut copy = AttributeDict::new(self.alloc);
        for place in 0..self.len() {
            if let Some((key, attr)) = self.get_index(place) {
                if all || !attr_should_outline::<D>(attr) {
                    copy.put(key.clone()?, D::copy_attr(self.alloc, attr)?)?;
                }
            }
        }
        Ok(copy)
    }

    // Whether the key leads to an equal attribute.
    fn has_equal(&self, key: &Identifier, attr: &D::Attr) -> bool
        ensures { IsTrue result ↔ SameAttribute D.Attr.eq (Some attr.now) (attribute_at self.now key.now) }
    {
        match self.attr(key) {
            Some(there) => *attr == *there,
            None => false,
        }
    }

    // Whether each key leads to an equal attribute in the other dictionary.
    fn is_within(&self, other: &AttributeDict<D>) -> bool
        ensures within { IsTrue result ↔ IsWithin D.Attr.eq self.now other.now }
        ensures distinct { HasDistinctKeys self.now }
    {
        for place in 0..self.len() {
            if let Some((key, attr)) = self.get_index(place) {
                if !other.has_equal(key, attr) {
                    return false;
                }
            }
        }
        true
    }

    // The pair with the least key above this one, or of all where there is none.
    fn next_pair(&self, after: Option<&Identifier>) -> Option<(&Identifier, &D::Attr)>
        ensures next { IsNextPair (option_copied after.entry) self.now (option_map deref_pair result) }
    {
        let mut next = None;
        for place in 0..self.len() {
            if let Some((key, attr)) = self.get_index(place) {
                if is_after(after, key) && is_before(key, next) {
                    next = Some((key, attr));
                }
            }
        }
        next
    }

    /// A dictionary with the same keys in the same order, and equal attributes. `OutOfMemory` where a growth was refused.
    pub fn clone(&self) -> Result<Self, CoreError>
        ensures copies { IfOk result (AreCopies D.Attr.eq self.now) }
        ensures error { IfErr result (λ error. error ≡ OutOfMemory) }
    {
        self.copy_pairs(true)
    }

    /// As `clone`, without the pairs whose attribute is to be outlined.
    pub fn clone_skip_outlined(&self) -> Result<Self, CoreError>
        ensures copies { IfOk result (AreCopies D.Attr.eq (filter (λ p. not (is_outlined D.attr_kind_of D.attr_impls_of D.attr_outline_of p.1)) self.now)) }
        ensures error { IfErr result (λ error. error ≡ OutOfMemory) }
    {
        self.copy_pairs(false)
    }
}

/// Two dictionaries are equal where they have the same keys with equal attributes, in any order.
impl<D: Dialects> PartialEq for AttributeDict<D> {
    ghost eq = { same_pairs D.Attr.eq };

    ghost laws = { same_pairs-laws D.Attr.eq D.Attr.Eq.laws };

    fn eq(&self, other: &AttributeDict<D>) -> bool {
        self.is_within(other) && other.is_within(self)
    }
}

impl<D: Dialects> Eq for AttributeDict<D> {
    ghost laws = { same_pairs-equivalence D.Attr.eq D.Attr.Eq.laws };
}

/// The number of pairs is hashed, and then the pairs by rising key, so that equal dictionaries hash equally.
impl<D: Dialects> Hash for AttributeDict<D> {
    ghost hash_input = { dict_input D.Attr.hash_input };

    ghost respects_eq = { by_key-equal D.Attr.hash_input D.Attr.eq D.Attr.respects_eq };

    fn hash<H: Hasher>(&self, state: &mut H) {
        self.len().hash(state);
        let mut last = None;
        'pairs: while let Some((key, attr)) = self.next_pair(last) {
            key.hash(state);
            attr.hash(state);
            last = Some(key);
        }
    }
}
