//! The parts of something, one after another, from both ends.
//!
//! What has parts tells the one at an index (`HasParts`), and `Parts` goes over them without taking memory.

ghost use Rattle.std.specs.Prelude.{◌≡◌, ◌<◌, ◌≤◌, ⊤, length, Some, slice_get, slice_range};
ghost use Rattle.std.specs.Iterator.{YieldsFirstBy, YieldsLastBy, item_count};

use std::alloc::AllocError;
use std::iter::{ExactSizeIterator, FusedIterator};
use std::marker::{Model, PhantomData};

/// What has parts in order. A contract sees each as a `V`.
pub trait HasParts<V>: Copy + Drop {
    ghost use Rattle.std.specs.Prelude.{List};

    /// A part.
    type Item;

    ghost parts: { Self → List V };

    // The parts may be read.
    ghost IsReadable: { Self → Type 0 };

    ghost seen: { Self.Item → V };

    /// The part at an index below their number.
    fn part(&self, index: usize) -> Self::Item
        requires readable { IsReadable self.now }
        requires within { index < length (parts self.now) }
        ensures { slice_get (parts self.now) index ≡ Some (seen result) };
}

/// The parts of something, from both ends.
///
/// A contract sees it as the list of what is left.
pub struct Parts<V, S: HasParts<V>> {
    source: S,
    // The index of the first part that is left.
    first: usize,
    // The index after that of the last part that is left.
    end: usize,
    seen_as: PhantomData<V>,
}

impl<V, S: HasParts<V>> Model for Parts<V, S> {
    ghost use Rattle.std.specs.Prelude.{◌≤◌, List, length, slice_range};

    ghost Value = { List V };

    ghost view = { λ it. slice_range (S.parts it.source) it.first it.end };

    ghost invariant = { λ it. S.IsReadable it.source × (it.first ≤ it.end) × (it.end ≤ length (S.parts it.source)) };
}

impl<V, S: HasParts<V>> Drop for Parts<V, S> {
    fn drop(self) {
        let Parts {
            source: _,
            first: _,
            end: _,
            seen_as: _,
        } = self;
    }
}

impl<V, S: HasParts<V>> Parts<V, S> {
    // All parts of the source, of which there are so many.
    pub(crate) fn all(source: S, count: usize) -> Self
        requires readable { S.IsReadable source }
        requires count { count ≡ length (S.parts source) }
        ensures { result ≡ S.parts source }
    {
        Parts {
            source,
            first: 0,
            end: count,
            seen_as: PhantomData,
        }
    }
}

impl<V, S: HasParts<V>> Iterator for Parts<V, S> {
    type Item = S::Item;

    ghost can_next = { λ _. ⊤ };

    ghost next_gives = { YieldsFirstBy S.seen (λ xs. xs) };

    ghost remaining = { item_count (λ xs. xs) };

    fn next(&mut self) -> Option<S::Item> {
        if self.first == self.end {
            return None;
        }
        let part = self.source.part(self.first);
        self.first += 1;
        Some(part)
    }

    fn size_hint(&self) -> (usize, Option<usize>) {
        let len = self.len();
        (len, Some(len))
    }
}

impl<V, S: HasParts<V>> DoubleEndedIterator for Parts<V, S> {
    ghost can_next_back = { λ _. ⊤ };

    ghost next_back_gives = { YieldsLastBy S.seen (λ xs. xs) };

    fn next_back(&mut self) -> Option<S::Item> {
        if self.first == self.end {
            return None;
        }
        self.end -= 1;
        Some(self.source.part(self.end))
    }
}

impl<V, S: HasParts<V>> FusedIterator for Parts<V, S> {}

impl<V, S: HasParts<V>> ExactSizeIterator for Parts<V, S> {
    fn len(&self) -> usize {
        self.end - self.first
    }
}

impl<V, S: HasParts<V>> Clone for Parts<V, S> {
    ghost is_clone = { λ it copy. copy ≡ it };

    ghost is_infallible = { λ _. ⊤ };

    fn clone(&self) -> Result<Self, AllocError> {
        Ok(Parts {
            source: self.source,
            first: self.first,
            end: self.end,
            seen_as: PhantomData,
        })
    }
}
