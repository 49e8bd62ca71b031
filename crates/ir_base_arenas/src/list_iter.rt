//! An iterator over the nodes of a list, from both ends.

ghost use Rattle.std.specs.Prelude.{◌≡◌, ⊤, length, List, Option, Some, None};
ghost use Rattle.std.specs.Iterator.{YieldsFirstBy, YieldsLastBy, item_count};
ghost use Rattle.ir_model.specs.declared.ids.ArenaIndex.{ArenaIndex};
ghost use Rattle.ir_base_arenas.specs.Lists.{seen};
ghost use Rattle.ir_base_arenas.specs.Walks.{IsPiece, piece};

use crate::linked_list::LinkedList;
use crate::{Arena, Link, Ptr};
use std::alloc::AllocError;
use std::marker::Model;

/// The nodes of a piece of a list, from both ends. It stands for pliron's `Iter`.
///
/// A contract sees it as the list of the nodes that are left.
pub struct Iter<'a, T: LinkedList> {
    nodes: &'a Arena<T>,
    next: Link,
    next_back: Link,
}

impl<'a, T: LinkedList> Model for Iter<'a, T> {
    ghost Value = { List ArenaIndex };

    ghost view = { λ it. piece T.links it.nodes.now it.next it.next_back };

    ghost invariant = { λ it. IsPiece (seen T.links it.nodes.now) (length it.nodes.now.slots) it.next it.next_back };
}

impl<'a, T: LinkedList> Drop for Iter<'a, T> {
    fn drop(self) {
        let Iter {
            nodes: _,
            next: _,
            next_back: _,
        } = self;
    }
}

impl<'a, T: LinkedList> Iter<'a, T> {
    // The nodes from `first` on to `last`.
    pub(crate) fn between(nodes: &'a Arena<T>, first: Link, last: Link) -> Self
        requires { IsPiece (seen T.links nodes.now) (length nodes.now.slots) first last }
        ensures { result ≡ piece T.links nodes.now first last }
    {
        Iter {
            nodes,
            next: first,
            next_back: last,
        }
    }
}

impl<'a, T: LinkedList> Iterator for Iter<'a, T> {
    type Item = Ptr<T>;

    ghost can_next = { λ _. ⊤ };

    ghost next_gives = { YieldsFirstBy (λ p. p.index) (λ xs. xs) };

    ghost remaining = { item_count (λ xs. xs) };

    fn next(&mut self) -> Option<Ptr<T>> {
        let current = self.next.get()?;
        let node = Ptr::from_index(current);
        if self.next_back.get() == Some(current) {
            self.next = Link::none();
            self.next_back = Link::none();
        } else {
            self.next = self.nodes.at(node).get_next();
        }
        Some(node)
    }
}

impl<'a, T: LinkedList> DoubleEndedIterator for Iter<'a, T> {
    ghost can_next_back = { λ _. ⊤ };

    ghost next_back_gives = { YieldsLastBy (λ p. p.index) (λ xs. xs) };

    fn next_back(&mut self) -> Option<Ptr<T>> {
        let current = self.next_back.get()?;
        let node = Ptr::from_index(current);
        if self.next.get() == Some(current) {
            self.next = Link::none();
            self.next_back = Link::none();
        } else {
            self.next_back = self.nodes.at(node).get_prev();
        }
        Some(node)
    }
}

impl<'a, T: LinkedList> Clone for Iter<'a, T> {
    ghost is_clone = { λ it copy. copy ≡ it };

    ghost is_infallible = { λ _. ⊤ };

    fn clone(&self) -> Result<Self, AllocError> {
        Ok(Iter {
            nodes: self.nodes,
            next: self.next,
            next_back: self.next_back,
        })
    }
}
