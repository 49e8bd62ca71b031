//! The list of what an operation or a block defines: one item lies in the list itself, as most have one, and more lie in a vector. Contracts see the list of the items alone.

ghost use Rattle.std.specs.Prelude.{◌≡◌, ◌<◌, ◌≤◌, ◌∷◌, [], length, slice_get, is_ok, if◌then◌else◌, insert, remove, vec_capacity, Some};
ghost use Rattle.std.specs.Borrow.{sem};
ghost use Rattle.std.specs.Mem.{FitsInMemory};
ghost use Rattle.ir_core_records.specs.HeldItems.{items_of};

use std::alloc::{AllocError, Global};
use std::array;
use std::marker::Model;
use std::mem::{replace, size_of};

// How many items have place where a second one comes.
const ROOM: usize = 3;

// Where the items lie: one in the list itself, and none or more in a vector.
#[derive(Drop)]
enum Held<T> {
    One { item: T },
    More { items: Vec<T> },
}

/// Items in one order. One of them takes no allocation.
#[derive(Drop)]
pub(crate) struct OneOrMore<T> {
    held: Held<T>,
    alloc: Global,
}

const _: () = prove!(size_of::<OneOrMore<[u64; 3]>>() == size_of::<[u64; 3]>() + 8);

impl<T> Model for OneOrMore<T> {
    ghost use Rattle.std.specs.Prelude.{List};
    ghost use Rattle.ir_core_records.specs.HeldItems.{items_of};

    ghost Value = { List T };

    ghost view = { λ s. items_of s.held };
}

impl<T> Held<T> {
    ghost use Rattle.ir_core_records.specs.HeldItems.{items_of};
    ghost use Rattle.ir_core_records.specs.HeldLends.{lends_held_item};

    // The item at `index`, for writing.
    #[inline(always)]
    fn at_mut(&mut self, index: usize) -> &mut T
        requires { index < length (items_of self.old) }
        ensures* writes_back { sem 𝓛 (lends_held_item T.row self.entry index result) }
        ensures value { slice_get (items_of self.old) index ≡ Some result.now }
    {
        match self {
            Held::One { item } => item,
            Held::More { items } => &mut items[index],
        }
    }
}

// No items.
#[inline(always)]
fn nothing<T: Drop>(alloc: Global) -> Held<T>
    ensures { items_of result ≡ [] }
{
    Held::More {
        items: Vec::new(alloc),
    }
}

// Two items in an empty vector that has room for them: the first, and another one at `index`.
#[cold]
fn pair<T: Drop>(mut items: Vec<T>, first: T, index: usize, item: T) -> Vec<T>
    requires empty { items.items ≡ [] }
    requires room { 2 ≤ vec_capacity items }
    requires within { index ≤ 1 }
    ensures { result.items ≡ insert (first ∷ []) index item }
{
    items.push_reserved(first);
    let _ = items.insert(index, item);
    items
}

impl<T> OneOrMore<T> {
    ghost use Rattle.ir_core_records.specs.HeldLends.{lends_one_or_more};

    /// How many items there are.
    #[inline(always)]
    pub(crate) fn len(&self) -> usize
        requires { FitsInMemory T.row }
        ensures { result ≡ length self.now }
    {
        self.as_slice().len()
    }

    /// The item at `index`.
    #[inline(always)]
    pub(crate) fn at(&self, index: usize) -> &T
        requires within { index < length self.now }
        requires size { FitsInMemory T.row }
        ensures { slice_get self.now index ≡ Some result.now }
    {
        &self.as_slice()[index]
    }

    /// The item at `index`, for writing.
    #[inline(always)]
    pub(crate) fn at_mut(&mut self, index: usize) -> &mut T
        requires { index < length self.old }
        ensures* writes_back { sem 𝓛 (lends_one_or_more T.row self.entry index result) }
        ensures value { slice_get self.old index ≡ Some result.now }
    {
        self.held.at_mut(index)
    }

    /// The items as a slice.
    #[inline(always)]
    pub(crate) fn as_slice(&self) -> &[T]
        requires { FitsInMemory T.row }
        ensures { result.now ≡ self.now }
    {
        match &self.held {
            Held::One { item } => array::from_ref(item),
            Held::More { items } => items.as_slice(),
        }
    }
}

impl<T: Drop> OneOrMore<T> {
    /// No items. It allocates nothing.
    #[inline(always)]
    pub(crate) fn new(alloc: Global) -> Self
        ensures { result ≡ [] }
    {
        OneOrMore {
            held: nothing(alloc),
            alloc,
        }
    }

    /// One item. It allocates nothing.
    #[inline(always)]
    pub(crate) fn one(alloc: Global, item: T) -> Self
        ensures { result ≡ item ∷ [] }
    {
        OneOrMore {
            held: Held::One { item },
            alloc,
        }
    }

    /// The items of a vector.
    pub(crate) fn of(alloc: Global, items: Vec<T>) -> Self
        ensures { result ≡ items.items }
    {
        OneOrMore {
            held: Held::More { items },
            alloc,
        }
    }

    /// Puts `item` at `index`, before the item that stands there.
    ///
    /// # Errors
    /// Where more than one item needed memory that wasn't there. Then `item` is dropped, and the items are as before.
    pub(crate) fn insert(&mut self, index: usize, item: T) -> Result<(), AllocError>
        requires { index ≤ length self.old }
        ensures { self.new ≡ (if is_ok result then insert self.old index item else self.old) }
    {
        let alloc = self.alloc;
        match &mut self.held {
            Held::One { .. } => {
                let items = Vec::with_capacity(alloc, ROOM)?;
                if let Held::One { item: first } = replace(&mut self.held, nothing(alloc)) {
                    self.held = Held::More {
                        items: pair(items, first, index, item),
                    };
                }
                Ok(())
            }
            Held::More { items } => {
                if items.is_empty() {
                    self.held = Held::One { item };
                    return Ok(());
                }
                items.insert(index, item)?;
                Ok(())
            }
        }
    }

    /// Takes the item at `index` out. Those after it move down by one.
    pub(crate) fn remove(&mut self, index: usize) -> T
        requires { index < length self.old }
        ensures value { slice_get self.old index ≡ Some result }
        ensures items { self.new ≡ remove self.old index }
    {
        if let Held::More { items } = &mut self.held {
            return items.remove(index);
        }
        match replace(&mut self.held, nothing(self.alloc)) {
            Held::One { item } => item,
            Held::More { .. } => unreachable!(),
        }
    }

    /// All items, with the memory that they lie in. The list is empty then, and owns no memory.
    #[inline(always)]
    pub(crate) fn take(&mut self) -> Self
        ensures value { result ≡ self.old }
        ensures left { self.new ≡ [] }
    {
        let alloc = self.alloc;
        let held = replace(&mut self.held, nothing(alloc));
        OneOrMore { held, alloc }
    }
}
