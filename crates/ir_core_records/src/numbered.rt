//! Items of a list that are found by their numbers, of which no two are equal.
//!
//! A number is tried where its item was when that was last known, if a caller knows it. Then it is tried where it stands in an unbroken row, up or down, with the first item's and with the last item's: so it is found at once after items were put in, taken out or replaced one by one from either end. Where it stands at none of these places, it is sought outward from two at once: from the best guess, which is near where numbers are missing evenly, and from where it was, which is near where few items came or went in front of it. No answer depends on a guess.

ghost use Rattle.std.specs.Prelude.{◌≡◌, ◌↔◌, ℕ, ◌==◌, IsTrue, Some, map, position};
ghost use Rattle.ir_model.specs.Ids.{Distinct};

use crate::kept_operand::KeptOperand;
use crate::record::{BlockIndex, Definition, UsePlace};

// An item with a number.
pub(crate) trait Numbered {
    ghost number_of: { Self → ℕ };

    fn number(&self) -> u64
        ensures { result ≡ number_of self.now };
}

impl Numbered for Definition {
    ghost number_of = { λ r. r.number };

    fn number(&self) -> u64 {
        self.number
    }
}

impl Numbered for KeptOperand {
    ghost number_of = { λ a. a.number };

    #[inline(always)]
    fn number(&self) -> u64 {
        self.number()
    }
}

impl Numbered for UsePlace<BlockIndex> {
    ghost number_of = { λ a. a.number };

    fn number(&self) -> u64 {
        self.number
    }
}

// Where the item with this number stands if numbers go up or down one by one from the first item's.
#[inline(always)]
fn from_first<T: Numbered>(items: &[T], number: u64) -> usize {
    match items.first() {
        Some(first) => number.abs_diff(first.number()) as usize,
        None => 0,
    }
}

// Where it stands if they go up or down one by one to the last item's.
fn from_last<T: Numbered>(items: &[T], number: u64) -> usize {
    let end = items.len().saturating_sub(1);
    match items.last() {
        Some(last) => end.saturating_sub(number.abs_diff(last.number()) as usize),
        None => end,
    }
}

// Where it stands if they are spread evenly between the first item's and the last item's.
fn between<T: Numbered>(items: &[T], number: u64) -> usize {
    let (Some(first), Some(last)) = (items.first(), items.last()) else {
        return 0;
    };
    let whole = last.number().abs_diff(first.number()).max(1);
    let part = number.abs_diff(first.number());
    let steps = items.len().saturating_sub(1) as u64;
    (part.saturating_mul(steps) / whole) as usize
}

// How far the number of the item at a place is from this one.
fn distance<T: Numbered>(items: &[T], place: usize, number: u64) -> u64 {
    match items.get(place) {
        Some(item) => number.abs_diff(item.number()),
        None => u64::MAX,
    }
}

// The place of the two whose item's number is nearer to this one.
fn nearer<T: Numbered>(items: &[T], number: u64, one: usize, other: usize) -> usize {
    if distance(items, one, number) < distance(items, other, number) {
        one
    } else {
        other
    }
}

// Whether the item with this number stands at a place.
#[inline(always)]
fn is_at<T: Numbered>(items: &[T], place: usize, number: u64) -> bool
    requires { Distinct (map (λ x. T.number_of x) items.now) }
    ensures { IsTrue result ↔ position (λ x. T.number_of x == number) items.now ≡ Some place }
{
    match items.get(place) {
        Some(item) => item.number() == number,
        None => false,
    }
}

// The place of the item with this number, sought outward from two places at once.
fn find_outward<T: Numbered>(items: &[T], number: u64, place: usize, near: usize) -> Option<usize>
    requires { Distinct (map (λ x. T.number_of x) items.now) }
    ensures { result ≡ position (λ x. T.number_of x == number) items.now }
{
    let start = place.min(items.len().saturating_sub(1));
    for away in 0..items.len() {
        let behind = start.saturating_add(away);
        if is_at(items, behind, number) {
            return Some(behind);
        }
        let before = start.saturating_sub(away);
        if is_at(items, before, number) {
            return Some(before);
        }
        let later = near.saturating_add(away);
        if is_at(items, later, number) {
            return Some(later);
        }
        let earlier = near.saturating_sub(away);
        if is_at(items, earlier, number) {
            return Some(earlier);
        }
    }
    None
}

// The place of the item with this number. It is tried where it stands if numbers go on to the last item's, and then sought outward from where it was, and from the place, of all that were guessed, that has the nearest number.
#[inline(never)]
fn find_elsewhere<T: Numbered>(items: &[T], number: u64, first: usize, near: usize) -> Option<usize>
    requires { Distinct (map (λ x. T.number_of x) items.now) }
    ensures { result ≡ position (λ x. T.number_of x == number) items.now }
{
    let last = from_last(items, number);
    if is_at(items, last, number) {
        return Some(last);
    }
    let end = nearer(items, number, first, last);
    let nearest = nearer(items, number, end, between(items, number));
    find_outward(items, number, nearest, near)
}

// The place of the item with this number. It is first tried where it stands if numbers go on from the first item's, and the answer doesn't depend on that.
#[inline(always)]
pub(crate) fn find_numbered<T: Numbered>(items: &[T], number: u64) -> Option<usize>
    requires { Distinct (map (λ x. T.number_of x) items.now) }
    ensures { result ≡ position (λ x. T.number_of x == number) items.now }
{
    let first = from_first(items, number);
    if is_at(items, first, number) {
        return Some(first);
    }
    find_elsewhere(items, number, first, first)
}

// The place of the item with this number, which was near a place once. It is first tried there, and the answer doesn't depend on that.
#[inline(always)]
pub(crate) fn find_near<T: Numbered>(items: &[T], number: u64, near: usize) -> Option<usize>
    requires { Distinct (map (λ x. T.number_of x) items.now) }
    ensures { result ≡ position (λ x. T.number_of x == number) items.now }
{
    if is_at(items, near, number) {
        return Some(near);
    }
    let first = from_first(items, number);
    if is_at(items, first, number) {
        return Some(first);
    }
    find_elsewhere(items, number, first, near)
}
