//! The lists inside records: a vector that contracts see as the list of its items alone, so that every record in a clause is plain data.
//!
//! It is the one place to change when the lists of a record are to lie inline.

ghost use Rattle.std.specs.Prelude.{◌≡◌, ◌+◌, ◌<◌, ◌≤◌, ◌==◌, ◌++◌, ◌∷◌, [], length, slice_get, is_ok, if◌then◌else◌, insert, remove, take, IfSome, IfNone, Some, option_copied};
ghost use Rattle.std.specs.List.{swap_remove};
ghost use Rattle.std.specs.Borrow.{sem};
ghost use Rattle.ir_base_arenas.specs.SeqLends.{lends_item};

use std::alloc::{AllocError, Global};
use std::marker::Model;
use std::mem::replace;

/// A list of items in one order. It stands for the vectors in pliron's records.
#[derive(Drop)]
pub struct Seq<T> {
    items: Vec<T>,
}

impl<T> Model for Seq<T> {
    ghost use Rattle.std.specs.Prelude.{List};

    ghost Value = { List T };

    ghost view = { λ s. s.items.items };
}

impl<T> Seq<T> {
    /// No items. It allocates nothing.
    pub fn new(alloc: Global) -> Self
        ensures { result ≡ [] }
    {
        Seq {
            items: Vec::new(alloc),
        }
    }

    /// How many items there are.
    pub fn len(&self) -> usize
        ensures { result ≡ length self.now }
    {
        self.items.len()
    }

    /// Whether there is no item.
    pub fn is_empty(&self) -> bool
        ensures { result ≡ (length self.now == 0) }
    {
        self.len() == 0
    }

    /// The item at `index`, if there is one.
    pub fn get(&self, index: usize) -> Option<&T>
        ensures { option_copied result ≡ slice_get self.now index }
    {
        self.items.get(index)
    }

    /// The item at `index`.
    pub fn at(&self, index: usize) -> &T
        requires { index < length self.now }
        ensures { slice_get self.now index ≡ Some result.now }
    {
        &self.items[index]
    }

    /// The item at `index`, for writing.
    pub fn at_mut(&mut self, index: usize) -> &mut T
        requires { index < length self.old }
        ensures* writes_back { sem 𝓛 (lends_item T.row self.entry index result) }
        ensures value { slice_get self.old index ≡ Some result.now }
    {
        &mut self.items[index]
    }

    /// The items as a slice.
    pub fn as_slice(&self) -> &[T]
        ensures { result.now ≡ self.now }
    {
        self.items.as_slice()
    }

    /// Makes place for exactly `additional` more items, where there is less. Items that come one by one need none: `push` makes place by itself.
    ///
    /// # Errors
    /// Where the list had to grow and couldn't. The items are the same in either case.
    pub fn reserve(&mut self, additional: usize) -> Result<(), AllocError>
        ensures { self.new ≡ self.old }
    {
        self.items.reserve_exact(additional)
    }

    /// Puts `item` at the end.
    ///
    /// # Errors
    /// Where the list had to grow and couldn't. Then `item` is dropped, and the items are as before.
    pub fn push(&mut self, item: T) -> Result<(), AllocError>
    where
        T: Drop,
        ensures { self.new ≡ (if is_ok result then self.old ++ item ∷ [] else self.old) }
    {
        self.items.push(item)?;
        Ok(())
    }

    /// Puts `item` at `index`, before the item that stands there.
    ///
    /// # Errors
    /// Where the list had to grow and couldn't. Then `item` is dropped, and the items are as before.
    pub fn insert(&mut self, index: usize, item: T) -> Result<(), AllocError>
    where
        T: Drop,
        requires { index ≤ length self.old }
        ensures { self.new ≡ (if is_ok result then insert self.old index item else self.old) }
    {
        self.items.insert(index, item)?;
        Ok(())
    }

    /// Takes the item at `index` out. Those after it move down by one.
    pub fn remove(&mut self, index: usize) -> T
        requires { index < length self.old }
        ensures value { slice_get self.old index ≡ Some result }
        ensures items { self.new ≡ remove self.old index }
    {
        self.items.remove(index)
    }

    /// Takes the item at `index` out, and puts the last one in its place.
    pub fn swap_remove(&mut self, index: usize) -> T
        requires { index < length self.old }
        ensures value { slice_get self.old index ≡ Some result }
        ensures items { self.new ≡ swap_remove self.old index result }
    {
        self.items.swap_remove(index)
    }

    /// Takes the last item, if there is one.
    pub fn pop(&mut self) -> Option<T>
        ensures last { IfSome result (λ item. self.old ≡ self.new ++ item ∷ []) }
        ensures none { IfNone result ((self.old ≡ []) × (self.new ≡ [])) }
    {
        self.items.pop()
    }

    /// Puts copies of `items` at the end, in order.
    ///
    /// # Errors
    /// Where the list had to grow and couldn't. Then the items are as before.
    pub fn extend(&mut self, items: &[T]) -> Result<(), AllocError>
    where
        T: Copy,
        ensures { self.new ≡ (if is_ok result then self.old ++ items.now else self.old) }
    {
        self.items.extend_from_slice(items)
    }

    /// Drops the items from the place `len` on. It takes no memory.
    pub fn truncate(&mut self, len: usize)
    where
        T: Drop,
        ensures { self.new ≡ take len self.old }
    {
        self.items.truncate(len)
    }

    /// Drops every item. It takes no memory.
    pub fn clear(&mut self)
    where
        T: Drop,
        ensures { self.new ≡ [] }
    {
        self.items.clear()
    }

    /// All items, with the memory that they lie in. The list is empty then, and owns no memory.
    pub fn take(&mut self) -> Self
        ensures value { result ≡ self.old }
        ensures left { self.new ≡ [] }
    {
        let alloc = *self.items.allocator();
        replace(self, Seq::new(alloc))
    }
}
