//! A hash table of attributes by their keys, in the order in which these came, that takes memory only with its first pair.
ghost use Rattle.std.specs.Prelude.{◌≡◌, ◌↔◌, ◌<◌, ◌^◌, [], length, IsTrue, IfErr, OnOk, OnErr, None};
ghost use Rattle.std.specs.Option.{option_copied, option_copied_mut};
ghost use Rattle.std.specs.Borrow.{sem};
ghost use Rattle.std.specs.List.{IsDistinct};
ghost use Rattle.std.specs.Map.{keys_of};
ghost use Rattle.ir_model.specs.declared.error.CoreError.TheVariants.{OutOfMemory};
ghost use Rattle.ir_model.specs.Stores.{attribute_at, set_attribute, without_attribute};
ghost use Rattle.ir_base_dialects.specs.Attributes.{same_key};

use indexmap::IndexMap;
use indexmap::map::Slice;
use ir_base_identifiers::Identifier;
use ir_model::CoreError;
use std::alloc::Global;
use std::marker::Model;

/// A list of pairs with distinct keys.
#[derive(Drop)]
pub(crate) struct LazyTable<A> {
    table: Option<Box<IndexMap<Identifier, A>>>,
    alloc: Global,
}

impl<A> Model for LazyTable<A> {
    ghost use Rattle.std.specs.Prelude.{List, ℕ};
    ghost use Rattle.ir_base_dialects.specs.KeptPairs.{table_pairs};

    ghost Value = { List (List ℕ × A) };

    ghost view = { λ t. table_pairs t.table };
}

impl<A> LazyTable<A> {
    ghost use Rattle.ir_base_dialects.specs.TableLends.{lends_attribute};

    /// No pairs.
    pub(crate) fn new(alloc: Global) -> Self
        ensures { result ≡ [] }
    {
        LazyTable { table: None, alloc }
    }

    /// The pairs in their order.
    pub(crate) fn pairs(&self) -> Slice<'_, Identifier, A>
        ensures pairs { result ≡ self.now }
        ensures distinct { IsDistinct same_key (keys_of result) }
        ensures fits { length result < 2 ^ 63 }
    {
        if let Some(table) = &self.table {
            return table.as_slice();
        }
        Slice::new()
    }

    /// Whether there is no pair.
    pub(crate) fn is_empty(&self) -> bool
        ensures { IsTrue result ↔ (self.now ≡ []) }
    {
        self.pairs().is_empty()
    }

    /// The attribute at the key, where there is one.
    pub(crate) fn get(&self, key: &Identifier) -> Option<&A>
        ensures { option_copied result ≡ attribute_at self.now key.now }
    {
        match &self.table {
            Some(table) => table.get(key),
            None => None,
        }
    }

    /// The attribute at the key, to write, where there is one.
    pub(crate) fn get_mut(&mut self, key: &Identifier) -> Option<&mut A>
        ensures* writes_back { sem 𝓛 (lends_attribute A.row self.entry key.now result) }
        ensures value { option_copied_mut result ≡ attribute_at self.old key.now }
    {
        match &mut self.table {
            Some(table) => {
                let attr = table.get_mut(key)?;
                Some(attr)
            }
            None => None,
        }
    }

    /// Puts the attribute at the key. The one before is dropped.
    pub(crate) fn insert(&mut self, key: Identifier, attr: A) -> Result<(), CoreError>
    where
        A: Drop,
        ensures set { OnOk result (self.new ≡ set_attribute self.old key attr) }
        ensures error { IfErr result (λ error. error ≡ OutOfMemory) }
        ensures unchanged { OnErr result (self.new ≡ self.old) }
        ensures only_new { OnErr result (attribute_at self.old key ≡ None) }
    {
        match &mut self.table {
            Some(table) => {
                table.insert(key, attr)?;
                Ok(())
            }
            None => {
                let mut table = IndexMap::new(self.alloc);
                table.insert(key, attr)?;
                self.table = Some(Box::new(self.alloc, table)?);
                Ok(())
            }
        }
    }

    /// Takes the pair at the key away, and hands its attribute back. The rest keep their order.
    pub(crate) fn remove(&mut self, key: &Identifier) -> Option<A>
        ensures value { result ≡ attribute_at self.old key.now }
        ensures rest { self.new ≡ without_attribute self.old key.now }
    {
        match &mut self.table {
            Some(table) => table.shift_remove(key),
            None => None,
        }
    }

    /// Gives back the memory that is kept for pairs to come, as far as the table can. The pairs stay.
    pub(crate) fn shrink_to_fit(&mut self)
        ensures { self.new ≡ self.old }
    {
        if let Some(table) = &mut self.table {
            table.shrink_to_fit();
        }
    }
}
