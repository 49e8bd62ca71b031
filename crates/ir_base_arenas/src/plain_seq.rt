//! The short lists of plain data: up to `N` items lie in the list itself, and more than that in an allocation. Contracts see the list of the items alone, as with a `Seq`.
//!
//! An item that goes is left where it lies, since there is nothing to let go, and each call asks once where the items lie.

ghost use Rattle.std.specs.Prelude.{◌≡◌, ◌+◌, ◌*◌, ◌<◌, ◌≤◌, ◌==◌, ◌++◌, ◌∷◌, [], length, slice_get, is_ok, IsOk, IfOk, if◌then◌else◌, insert, remove, take, IfSome, IfNone, Some, option_copied, vec_capacity};
ghost use Rattle.std.specs.List.{swap_remove};
ghost use Rattle.std.specs.Borrow.{sem};
ghost use Rattle.ir_base_arenas.specs.PlainSeqLends.{lends_plain_item};

use crate::cells::Cells;
use std::alloc::{AllocError, Global};
use std::array;
use std::default::MadeWith;
use std::marker::Model;
use std::mem::{replace, size_of};

/// Data that owns no memory, so that it is copied, and let go, at the cost of its bytes.
pub trait Plain {
    /// The same data.
    fn copied(&self) -> Self
        ensures { result ≡ self.now };
}

impl Plain for u64 {
    fn copied(&self) -> u64 {
        *self
    }
}

/// Where the items lie.
#[derive(Drop)]
pub(crate) enum Place<T, const N: usize> {
    /// The first `len` cells have them.
    Inline { len: u32, cells: Cells<T, N> },
    /// A vector has them, with room for more than the cells.
    Heap { items: Vec<T> },
}

impl<T, const N: usize> Place<T, N> {
    ghost use Rattle.ir_base_arenas.specs.PlainItems.{items_of, IsPlaced};
    ghost use Rattle.ir_base_arenas.specs.PlaceLends.{lends_place_item};

    // The item at `index`, for writing.
    fn at_mut(&mut self, index: usize) -> &mut T
        requires within { index < length (items_of self.old) }
        requires placed { IsPlaced self.old }
        ensures* writes_back { sem 𝓛 (lends_place_item T.row N.row self.entry index result) }
        ensures value { slice_get (items_of self.old) index ≡ Some result.now }
    {
        match self {
            Place::Inline { cells, .. } => cells.at_mut(index),
            Place::Heap { items } => &mut items[index],
        }
    }
}

/// A list of plain items in one order, of which up to `N` take no allocation. It stands for the short vectors in pliron's records.
#[derive(Drop)]
pub struct PlainSeq<T, const N: usize> {
    place: Place<T, N>,
    alloc: Global,
}

// A list takes 8 bytes more than the items that lie in it, or than a vector where that is more.
const _: () = prove!(size_of::<PlainSeq<[u64; 3], 2>>() == 2 * size_of::<[u64; 3]>() + 8);

const _: () = prove!(size_of::<PlainSeq<[u64; 5], 2>>() == 2 * size_of::<[u64; 5]>() + 8);

impl<T, const N: usize> Model for PlainSeq<T, N> {
    ghost use Rattle.std.specs.Prelude.{List, ◌<◌};
    ghost use Rattle.ir_base_arenas.specs.PlainItems.{items_of, IsPlaced};

    ghost Value = { List T };

    ghost view = { λ s. items_of s.place };

    ghost invariant = { λ s. IsPlaced s.place };
}

impl<T, const N: usize> PlainSeq<T, N> {
    /// How many items there are.
    pub fn len(&self) -> usize
        ensures { result ≡ length self.now }
    {
        match &self.place {
            Place::Inline { len, .. } => *len as usize,
            Place::Heap { items } => items.len(),
        }
    }

    /// Whether there is no item.
    pub fn is_empty(&self) -> bool
        ensures { result ≡ (length self.now == 0) }
    {
        self.len() == 0
    }

    /// The item at `index`, if there is one.
    pub fn get(&self, index: usize) -> Option<&T>
        ensures { option_copied result ≡ slice_get self.now index }
    {
        self.as_slice().get(index)
    }

    /// The item at `index`.
    pub fn at(&self, index: usize) -> &T
        requires { index < length self.now }
        ensures { slice_get self.now index ≡ Some result.now }
    {
        &self.as_slice()[index]
    }

    /// The item at `index`, for writing.
    pub fn at_mut(&mut self, index: usize) -> &mut T
        requires { index < length self.old }
        ensures* writes_back { sem 𝓛 (lends_plain_item T.row N.row self.entry index result) }
        ensures value { slice_get self.old index ≡ Some result.now }
    {
        self.place.at_mut(index)
    }

    /// The items as a slice. What reads several items takes it once, since each call asks anew where the items lie.
    pub fn as_slice(&self) -> &[T]
        ensures { result.now ≡ self.now }
    {
        match &self.place {
            Place::Inline { len, cells } => &cells.xs[..*len as usize],
            Place::Heap { items } => items.as_slice(),
        }
    }
}

impl<T: MadeWith<Global> + Drop, const N: usize> Place<T, N> {
    ghost use Rattle.ir_base_arenas.specs.PlainItems.{items_of, IsPlaced};

    // No items.
    fn empty(alloc: Global) -> Self
        requires { N < 4294967296 }
        ensures items { items_of result ≡ [] }
        ensures placed { IsPlaced result }
    {
        Place::Inline {
            len: 0,
            cells: Cells {
                xs: array::from_fn(|_| T::made_with(alloc)),
            },
        }
    }
}

impl<T: MadeWith<Global> + Drop, const N: usize> PlainSeq<T, N> {
    /// No items. It allocates nothing.
    pub fn new(alloc: Global) -> Self
        requires { N < 4294967296 }
        ensures { result ≡ [] }
    {
        PlainSeq {
            place: Place::empty(alloc),
            alloc,
        }
    }

    /// All items, with the memory that they lie in. The list is empty then, and owns no memory.
    #[inline(always)]
    pub fn take(&mut self) -> Self
        ensures value { result ≡ self.old }
        ensures left { self.new ≡ [] }
    {
        let alloc = self.alloc;
        let place = replace(&mut self.place, Place::empty(alloc));
        PlainSeq { place, alloc }
    }
}

// The items in a vector with this much room.
fn copied_out<T: Plain + Drop>(
    alloc: Global,
    items: &[T],
    room: usize,
) -> Result<Vec<T>, AllocError>
    requires { length items.now ≤ room }
    ensures items { IfOk result (λ v. v.items ≡ items.now) }
    ensures room { IfOk result (λ v. vec_capacity v ≡ room) }
{
    let mut vec = Vec::with_capacity(alloc, room)?;
    for item in items {
        vec.push_reserved(item.copied());
    }
    Ok(vec)
}

impl<T: Plain + Drop, const N: usize> PlainSeq<T, N> {
    // Moves the items to a vector with this much room, and puts one at the end.
    #[cold]
    fn push_outside(&mut self, room: usize, item: T) -> Result<(), AllocError>
        requires less { length self.old < room }
        requires more { N ≤ room }
        ensures { self.new ≡ (if is_ok result then self.old ++ item ∷ [] else self.old) }
    {
        let mut items = copied_out(self.alloc, self.as_slice(), room)?;
        items.push_reserved(item);
        self.place = Place::Heap { items };
        Ok(())
    }

    // Moves the items to a vector with this much room, and puts one at `index`.
    #[cold]
    fn insert_outside(&mut self, index: usize, room: usize, item: T) -> Result<(), AllocError>
        requires within { index ≤ length self.old }
        requires less { length self.old < room }
        requires more { N ≤ room }
        ensures { self.new ≡ (if is_ok result then insert self.old index item else self.old) }
    {
        let mut items = copied_out(self.alloc, self.as_slice(), room)?;
        items.insert(index, item)?;
        self.place = Place::Heap { items };
        Ok(())
    }

    // Moves the items to a vector with this much room.
    #[cold]
    fn move_outside(&mut self, room: usize) -> Result<(), AllocError>
        requires less { length self.old ≤ room }
        requires more { N ≤ room }
        ensures { self.new ≡ self.old }
    {
        let items = copied_out(self.alloc, self.as_slice(), room)?;
        self.place = Place::Heap { items };
        Ok(())
    }

    /// Makes place for exactly `additional` more items, where there is less. Items that come one by one need none: `push` makes place by itself.
    ///
    /// # Errors
    /// Where the list had to grow past `N` items and couldn't. The items are the same in either case.
    pub fn reserve(&mut self, additional: usize) -> Result<(), AllocError>
        ensures items { self.new ≡ self.old }
        ensures inline { length self.old + additional ≤ N → IsOk result }
    {
        match &mut self.place {
            Place::Inline { len, .. } => {
                let at = *len as usize;
                if additional <= N - at {
                    return Ok(());
                }
                let room = at.checked_add(additional).ok_or(AllocError)?;
                self.move_outside(room)
            }
            Place::Heap { items } => items.reserve_exact(additional),
        }
    }

    /// Puts `item` at the end.
    ///
    /// # Errors
    /// Where the list had to grow past `N` items and couldn't. Then `item` is dropped, and the items are as before.
    pub fn push(&mut self, item: T) -> Result<(), AllocError>
        ensures items { self.new ≡ (if is_ok result then self.old ++ item ∷ [] else self.old) }
        ensures inline { length self.old < N → IsOk result }
    {
        match &mut self.place {
            Place::Inline { len, cells } => {
                let at = *len as usize;
                if at < N {
                    cells.xs[at] = item;
                    *len += 1;
                    return Ok(());
                }
                self.push_outside(2 * at + 1, item)
            }
            Place::Heap { items } => {
                items.push(item)?;
                Ok(())
            }
        }
    }

    /// Puts `item` at `index`, before the item that stands there.
    ///
    /// # Errors
    /// Where the list had to grow past `N` items and couldn't. Then `item` is dropped, and the items are as before.
    pub fn insert(&mut self, index: usize, item: T) -> Result<(), AllocError>
        requires { index ≤ length self.old }
        ensures items { self.new ≡ (if is_ok result then insert self.old index item else self.old) }
        ensures inline { length self.old < N → IsOk result }
    {
        match &mut self.place {
            Place::Inline { len, cells } => {
                let at = *len as usize;
                if at < N {
                    cells.xs[at] = item;
                    cells.open(index, at + 1);
                    *len += 1;
                    return Ok(());
                }
                self.insert_outside(index, 2 * at + 1, item)
            }
            Place::Heap { items } => {
                items.insert(index, item)?;
                Ok(())
            }
        }
    }

    /// Puts copies of `items` at the end, in order.
    ///
    /// # Errors
    /// Where the list had to grow past `N` items and couldn't. Then the items are as before.
    pub fn extend(&mut self, items: &[T]) -> Result<(), AllocError>
        ensures items { self.new ≡ (if is_ok result then self.old ++ items.now else self.old) }
        ensures inline { length self.old + length items.now ≤ N → IsOk result }
    {
        self.reserve(items.len())?;
        let old = self.len();
        for item in items {
            if self.push(item.copied()).is_err() {
                self.truncate(old);
                return Err(AllocError);
            }
        }
        Ok(())
    }

    /// Takes the item at `index` out, and puts the last one in its place.
    #[inline(always)]
    pub fn swap_remove(&mut self, index: usize) -> T
        requires { index < length self.old }
        ensures value { slice_get self.old index ≡ Some result }
        ensures items { self.new ≡ swap_remove self.old index result }
    {
        match &mut self.place {
            Place::Inline { len, cells } => {
                *len -= 1;
                let item = cells.xs[index].copied();
                cells.xs[index] = cells.xs[*len as usize].copied();
                item
            }
            Place::Heap { items } => items.swap_remove(index),
        }
    }

    /// Takes the last item, if there is one.
    #[inline(always)]
    pub fn pop(&mut self) -> Option<T>
        ensures last { IfSome result (λ item. self.old ≡ self.new ++ item ∷ []) }
        ensures none { IfNone result ((self.old ≡ []) × (self.new ≡ [])) }
    {
        match &mut self.place {
            Place::Inline { len, cells } => {
                if *len == 0 {
                    return None;
                }
                *len -= 1;
                let xs = &cells.xs;
                Some(xs[*len as usize].copied())
            }
            Place::Heap { items } => items.pop(),
        }
    }

    /// Takes the item at `index` out. Those after it move down by one.
    #[inline(always)]
    pub fn remove(&mut self, index: usize) -> T
        requires { index < length self.old }
        ensures value { slice_get self.old index ≡ Some result }
        ensures items { self.new ≡ remove self.old index }
    {
        match &mut self.place {
            Place::Inline { len, cells } => {
                let item = cells.xs[index].copied();
                cells.close(index, *len as usize);
                *len -= 1;
                item
            }
            Place::Heap { items } => items.remove(index),
        }
    }

    /// Drops the items from the place `len` on. It takes no memory.
    pub fn truncate(&mut self, len: usize)
        ensures { self.new ≡ take len self.old }
    {
        match &mut self.place {
            Place::Inline { len: old, .. } => {
                if len < *old as usize {
                    *old = len as u32;
                }
            }
            Place::Heap { items } => items.truncate(len),
        }
    }

    /// Drops every item. It takes no memory.
    pub fn clear(&mut self)
        ensures { self.new ≡ [] }
    {
        self.truncate(0);
    }
}
