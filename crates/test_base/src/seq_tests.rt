//! Lists as the records use them, whose items lie outside the record, inside it, or some here and some there.

use crate::expecting::expect_same;
use crate::items::{Edit, Items};
use ir_base_arenas::{PlainSeq, Seq};
use std::alloc::Global;
use std::process::Abort;
use std::rc::Rc;

// Carries an edit out. Where memory is refused, asserts that the list has the same items as before, and the test ends.
fn carry_out<L: Items>(
    rt: &impl Abort,
    list: &mut L,
    edit: Edit<'_>,
    before: &[u64],
) -> Option<u64> {
    let answer = list.edit(edit);
    if answer.is_err() {
        expect_same(rt, list.has(before), true);
    }
    answer.expect(rt, "memory")
}

// Carries out edits of a list that is empty, each with what it takes out and the items that the list then has.
fn expect_edits<L: Items>(
    rt: &impl Abort,
    list: &mut L,
    edits: &[(Edit<'_>, Option<u64>, &[u64])],
) {
    let mut before: &[u64] = &[];
    assert!(rt; list.has(before));
    for (edit, taken, after) in edits {
        let found = carry_out(rt, list, *edit, before);
        assert!(rt; found == *taken && list.has(after), "{edit:?}");
        before = after;
    }
}

// Each edit of a list, of which some find no place. At first two items fit into the record, and then no more.
fn expect_each_edit<L: Items>(rt: &impl Abort, list: &mut L) {
    expect_edits(
        rt,
        list,
        &[
            (Edit::Pop, None, &[]),
            (Edit::Remove(0), None, &[]),
            (Edit::Reserve(1), None, &[]),
            (Edit::Push(10), None, &[10]),
            (Edit::Insert(0, 5), None, &[5, 10]),
            (Edit::Write(1, 11), None, &[5, 11]),
            (Edit::Push(20), None, &[5, 11, 20]),
            (Edit::Reserve(4), None, &[5, 11, 20]),
            (Edit::Extend(&[30, 40]), None, &[5, 11, 20, 30, 40]),
            (Edit::Insert(1, 7), None, &[5, 7, 11, 20, 30, 40]),
            (Edit::Insert(7, 8), None, &[5, 7, 11, 20, 30, 40]),
            (Edit::Write(4, 31), None, &[5, 7, 11, 20, 31, 40]),
            (Edit::Remove(2), Some(11), &[5, 7, 20, 31, 40]),
            (Edit::SwapRemove(0), Some(5), &[40, 7, 20, 31]),
            (Edit::Pop, Some(31), &[40, 7, 20]),
            (Edit::Truncate(2), None, &[40, 7]),
            (Edit::Clear, None, &[]),
            (Edit::Pop, None, &[]),
        ],
    );
}

#[test]
fn items_outside_the_record(rt: HostRuntime) {
    expect_each_edit(&rt, &mut Seq::new(rt.alloc()));
}

#[test]
fn items_that_all_lie_outside(rt: HostRuntime) {
    expect_each_edit(&rt, &mut PlainSeq::<u64, 0>::new(rt.alloc()));
}

#[test]
fn items_that_move_outside(rt: HostRuntime) {
    expect_each_edit(&rt, &mut PlainSeq::<u64, 2>::new(rt.alloc()));
}

#[test]
fn items_that_all_lie_inside(rt: HostRuntime) {
    expect_each_edit(&rt, &mut PlainSeq::<u64, 8>::new(rt.alloc()));
}

/// An edit that puts an item at the end.
#[derive(Clone, Copy, Drop)]
enum Growth {
    Push,
    Insert,
    Extend,
}

// The edit that puts this item at this place.
fn growing(growth: Growth, place: usize, item: &[u64; 1]) -> Edit<'_> {
    match growth {
        Growth::Push => Edit::Push(item[0]),
        Growth::Insert => Edit::Insert(place, item[0]),
        Growth::Extend => Edit::Extend(item),
    }
}

// Puts twenty items at the end of a list that is empty, one by one, and reserves places for more.
fn expect_growth<L: Items>(rt: &impl Abort, list: &mut L, growth: Growth) {
    let items = [
        0, 1, 2, 3, 4, 5, 6, 7, 8, 9, 10, 11, 12, 13, 14, 15, 16, 17, 18, 19,
    ];
    for (place, item) in items.iter().enumerate() {
        let one = [*item];
        carry_out(rt, list, growing(growth, place, &one), &items[..place]);
    }
    carry_out(rt, list, Edit::Reserve(100), &items);
    expect_same(rt, list.has(&items), true);
}

#[test]
fn refused_growth_keeps_the_items(rt: HostRuntime) {
    for growth in [Growth::Push, Growth::Insert, Growth::Extend] {
        expect_growth(&rt, &mut Seq::new(rt.alloc()), growth);
        expect_growth(&rt, &mut PlainSeq::<u64, 2>::new(rt.alloc()), growth);
    }
}

// Whether a list of three is empty after its items were taken, and the other list has them.
fn takes_all<L: Items>(rt: &impl Abort, left: &L, taken: &L) {
    expect_same(rt, (left.has(&[]), taken.has(&[1, 2, 3])), (true, true));
}

#[test]
fn taken_items_leave_an_empty_list(rt: HostRuntime) {
    let mut list = Seq::new(rt.alloc());
    list.extend(&[1, 2, 3]).expect(&rt, "memory");
    let taken = list.take();
    takes_all(&rt, &list, &taken);
    let mut plain = PlainSeq::<u64, 2>::new(rt.alloc());
    plain.extend(&[1, 2, 3]).expect(&rt, "memory");
    let taken = plain.take();
    takes_all(&rt, &plain, &taken);
    let mut inside = PlainSeq::<u64, 4>::new(rt.alloc());
    inside.extend(&[1, 2, 3]).expect(&rt, "memory");
    let taken = inside.take();
    takes_all(&rt, &inside, &taken);
}

/// Holders of one number.
type Holders = Seq<Rc<u8>>;

// Puts one more holder at the end, and answers how many there are.
fn hold(rt: &impl Abort, list: &mut Holders, shared: &Rc<u8>) -> usize {
    let one = shared.clone().expect(rt, "memory");
    list.push(one).expect(rt, "memory");
    Rc::strong_count(shared)
}

// Puts five holders into a list.
fn hold_five(rt: &impl Abort, list: &mut Holders, shared: &Rc<u8>) {
    for held in 1..6usize {
        expect_same(rt, hold(rt, list, shared), held + 1);
    }
}

// Drops the first and the last of three holders.
fn drop_two(list: &mut Holders) {
    if list.len() == 3 {
        drop(list.remove(0));
        drop(list.swap_remove(0));
    }
}

// Drops the five, by each call that takes some out, and answers how many hold the number after each.
fn drop_five(list: &mut Holders, shared: &Rc<u8>) -> [usize; 4] {
    drop(list.pop());
    let popped = Rc::strong_count(shared);
    list.truncate(3);
    let truncated = Rc::strong_count(shared);
    drop_two(list);
    let removed = Rc::strong_count(shared);
    list.clear();
    [popped, truncated, removed, Rc::strong_count(shared)]
}

#[test]
fn each_item_is_dropped_once(rt: HostRuntime) {
    let shared = Rc::new(rt.alloc(), 0u8).expect(&rt, "memory");
    let mut list = Holders::new(rt.alloc());
    hold_five(&rt, &mut list, &shared);
    let counts = drop_five(&mut list, &shared);
    let held = hold(&rt, &mut list, &shared);
    drop(list);
    expect_same(
        &rt,
        (counts, held, Rc::strong_count(&shared)),
        ([5, 4, 2, 1], 2, 1),
    );
}
