//! The places of a list that lie in the list itself.

ghost use Rattle.std.specs.Prelude.{◌≡◌, ◌+◌, ◌-◌, ◌<◌, ◌≤◌, ◌++◌, ◌∷◌, length, take, List, [], slice_index_or, slice_range, insert, remove};
ghost use Rattle.std.specs.List.{remove_range};
ghost use Rattle.std.specs.Borrow.{sem};

/// An array in a struct of its own, so that a contract can say what a loan of its first items leaves.
#[derive(Drop)]
pub(crate) struct Cells<T, const N: usize> {
    pub(crate) xs: [T; N],
}

impl<T, const N: usize> Cells<T, N> {
    ghost use Rattle.ir_base_arenas.specs.CellsLends.{lends_front, lends_at};

    // The first `len` items, for writing.
    #[inline(always)]
    pub(crate) fn front_mut(&mut self, len: usize) -> &mut [T]
        requires { len ≤ N }
        ensures* writes_back { sem 𝓛 (lends_front T.row N.row self.entry result) }
        ensures value { result.now ≡ take len self.old.xs }
    {
        &mut self.xs[..len]
    }

    // The item at `index`, for writing.
    #[inline(always)]
    pub(crate) fn at_mut(&mut self, index: usize) -> &mut T
        requires { index < N }
        ensures* writes_back { sem 𝓛 (lends_at T.row N.row self.entry index result) }
        ensures value { result.now ≡ slice_index_or self.old.xs index result.now }
    {
        &mut self.xs[index]
    }

    // Moves the last of the first `len` items to `index`, and those from there on up.
    #[inline(always)]
    pub(crate) fn open(&mut self, index: usize, len: usize)
        requires before { index < len }
        requires within { len ≤ N }
        requires whole { length self.old.xs ≡ N }
        ensures items { (front : List T) (last : T) → take len self.old.xs ≡ front ++ last ∷ [] → take len self.new.xs ≡ insert front index last }
        ensures whole { length self.new.xs ≡ N }
    {
        last_to(self.front_mut(len), index);
    }

    // Moves the item at `index` behind the others of the first `len`, which move down.
    #[inline(always)]
    pub(crate) fn close(&mut self, index: usize, len: usize)
        requires before { index < len }
        requires within { len ≤ N }
        requires whole { length self.old.xs ≡ N }
        ensures items { take (len - 1) self.new.xs ≡ remove (take len self.old.xs) index }
        ensures whole { length self.new.xs ≡ N }
    {
        if index + 1 < len {
            move_to_end(self.front_mut(len), index, index + 1);
        }
    }
}

// Moves the last item to `index`, and the items from there on up.
#[inline(always)]
fn last_to<T>(items: &mut [T], index: usize)
    requires { index < length items.old }
    ensures items { (front : List T) (last : T) → items.old ≡ front ++ last ∷ [] → items.new ≡ insert front index last }
    ensures len { length items.new ≡ length items.old }
{
    items[index..].rotate_right(1);
}

// Moves the items from `start` up to `end` behind the others.
#[inline(always)]
fn move_to_end<T>(items: &mut [T], start: usize, end: usize)
    requires start_le_end { start ≤ end }
    requires in_bounds { end ≤ length items.old }
    ensures { items.new ≡ remove_range items.old start end ++ slice_range items.old start end }
{
    items[start..].rotate_left(end - start);
}
