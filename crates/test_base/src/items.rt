//! Lists as the records keep them, edited and read in the same way whether their items lie in the record or outside.

use ir_base_arenas::{PlainSeq, Seq};
use std::alloc::AllocError;

/// An edit of a list. One whose place is past the end does nothing.
#[derive(Clone, Copy, Debug, Drop)]
pub(crate) enum Edit<'a> {
    Reserve(usize),
    Push(u64),
    Insert(usize, u64),
    Extend(&'a [u64]),
    Write(usize, u64),
    Remove(usize),
    SwapRemove(usize),
    Pop,
    Truncate(usize),
    Clear,
}

/// A list of numbers.
pub(crate) trait Items {
    /// Carries an edit out, and answers what it took out.
    fn edit(&mut self, edit: Edit<'_>) -> Result<Option<u64>, AllocError>;

    /// Whether the list has these items, by each way to read it.
    fn has(&self, items: &[u64]) -> bool;
}

// Answers no item where the call took memory.
fn grown(answer: Result<(), AllocError>) -> Result<Option<u64>, AllocError> {
    answer?;
    Ok(None)
}

// Answers no item after a call that takes none out.
fn done(_: ()) -> Option<u64> {
    None
}

// Puts an item at a place, where the list is long enough.
fn insert(list: &mut Seq<u64>, place: usize, item: u64) -> Result<(), AllocError> {
    if place > list.len() {
        return Ok(());
    }
    list.insert(place, item)
}

// Takes the item at a place out, where there is one; `moves_last` puts the last one there.
fn take(list: &mut Seq<u64>, place: usize, moves_last: bool) -> Option<u64> {
    if place >= list.len() {
        None
    } else if moves_last {
        Some(list.swap_remove(place))
    } else {
        Some(list.remove(place))
    }
}

// Writes the item at a place, where there is one.
fn write(list: &mut Seq<u64>, place: usize, item: u64) {
    if place < list.len() {
        *list.at_mut(place) = item;
    }
}

// Whether the two ways to read one item give the same at each place, and none behind the last.
fn reads_alike(list: &Seq<u64>) -> bool {
    for place in 0..list.len() {
        if list.get(place) != Some(list.at(place)) {
            return false;
        }
    }
    list.get(list.len()).is_none()
}

impl Items for Seq<u64> {
    fn edit(&mut self, edit: Edit<'_>) -> Result<Option<u64>, AllocError> {
        match edit {
            Edit::Reserve(additional) => grown(self.reserve(additional)),
            Edit::Push(item) => grown(self.push(item)),
            Edit::Insert(place, item) => grown(insert(self, place, item)),
            Edit::Extend(items) => grown(self.extend(items)),
            Edit::Write(place, item) => Ok(done(write(self, place, item))),
            Edit::Remove(place) => Ok(take(self, place, false)),
            Edit::SwapRemove(place) => Ok(take(self, place, true)),
            Edit::Pop => Ok(self.pop()),
            Edit::Truncate(len) => Ok(done(self.truncate(len))),
            Edit::Clear => Ok(done(self.clear())),
        }
    }

    fn has(&self, items: &[u64]) -> bool {
        self.len() == items.len()
            && self.is_empty() == items.is_empty()
            && self.as_slice() == items
            && reads_alike(self)
    }
}

// Puts an item at a place, where the list is long enough.
fn insert_plain<const N: usize>(
    list: &mut PlainSeq<u64, N>,
    place: usize,
    item: u64,
) -> Result<(), AllocError> {
    if place > list.len() {
        return Ok(());
    }
    list.insert(place, item)
}

// Takes the item at a place out, where there is one; `moves_last` puts the last one there.
fn take_plain<const N: usize>(
    list: &mut PlainSeq<u64, N>,
    place: usize,
    moves_last: bool,
) -> Option<u64> {
    if place >= list.len() {
        None
    } else if moves_last {
        Some(list.swap_remove(place))
    } else {
        Some(list.remove(place))
    }
}

// Writes the item at a place, where there is one.
fn write_plain<const N: usize>(list: &mut PlainSeq<u64, N>, place: usize, item: u64) {
    if place < list.len() {
        *list.at_mut(place) = item;
    }
}

// Whether the two ways to read one item give the same at each place, and none behind the last.
fn reads_alike_plain<const N: usize>(list: &PlainSeq<u64, N>) -> bool {
    for place in 0..list.len() {
        if list.get(place) != Some(list.at(place)) {
            return false;
        }
    }
    list.get(list.len()).is_none()
}

impl<const N: usize> Items for PlainSeq<u64, N> {
    fn edit(&mut self, edit: Edit<'_>) -> Result<Option<u64>, AllocError> {
        match edit {
            Edit::Reserve(additional) => grown(self.reserve(additional)),
            Edit::Push(item) => grown(self.push(item)),
            Edit::Insert(place, item) => grown(insert_plain(self, place, item)),
            Edit::Extend(items) => grown(self.extend(items)),
            Edit::Write(place, item) => Ok(done(write_plain(self, place, item))),
            Edit::Remove(place) => Ok(take_plain(self, place, false)),
            Edit::SwapRemove(place) => Ok(take_plain(self, place, true)),
            Edit::Pop => Ok(self.pop()),
            Edit::Truncate(len) => Ok(done(self.truncate(len))),
            Edit::Clear => Ok(done(self.clear())),
        }
    }

    fn has(&self, items: &[u64]) -> bool {
        self.len() == items.len()
            && self.is_empty() == items.is_empty()
            && self.as_slice() == items
            && reads_alike_plain(self)
    }
}
