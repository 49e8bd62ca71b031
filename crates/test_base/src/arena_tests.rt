//! Arenas as their callers use them: first callers that are proved from the contracts alone, then tests that run.

ghost use Rattle.std.specs.Prelude.{◌≡◌, ◌≢◌, ◌+◌, ◌<◌, ◌↔◌, ◌⊎◌, IfOk, IfErr, IfSome, IfNone, OnErr, OnOk, Some, None, Err};
ghost use Rattle.ir_base_arenas.specs.Arena.{arena_len, get, fill, room, unused, is_passed, IsNew};
ghost use Rattle.ir_model.specs.declared.ids.ArenaIndex.{ArenaIndex as Index};

use crate::expecting::{expect_same, shows};
use crate::storing::{in_slot, store};
use ir_base_arenas::arena_laws::{other_ids_stay, passed_ids_stay};
use ir_base_arenas::{Arena, ArenaIndex, CoreError, Ptr, Room, Seq, TakeOut};
use std::alloc::{AllocError, Global};
use std::hash::{BuildHasher, BuildHasherDefault, FoldHasher};
use std::process::Abort;
use std::rc::Rc;

/// A record that owns memory and knows its own place.
#[derive(Drop)]
struct Knot {
    links: Seq<ArenaIndex>,
    me: ArenaIndex,
}

/// Plain data that names another record.
#[derive(Drop)]
struct Root {
    first: Option<ArenaIndex>,
    count: u32,
}

impl TakeOut for Knot {
    fn take_out(&mut self) -> Knot {
        Knot {
            links: self.links.take(),
            me: self.me,
        }
    }
}

impl TakeOut for Root {
    fn take_out(&mut self) -> Root {
        Root {
            first: self.first,
            count: self.count,
        }
    }
}

/// Two arenas that are changed together.
#[derive(Drop)]
struct Pair {
    knots: Arena<Knot>,
    roots: Arena<Root>,
}

/// Stores a record that a closure makes of memory that it owns.
fn insert_knot(knots: &mut Arena<Knot>, links: Seq<ArenaIndex>) -> Result<Ptr<Knot>, CoreError>
    ensures made { IfOk result (λ ptr. get knots.new ptr.index ≡ Some record { links = links; me = ptr.index }) }
    ensures filled { IfOk result (λ ptr. knots.new ≡ fill knots.old ptr.index record { links = links; me = ptr.index }) }
    ensures new_id { IfOk result (λ ptr. IsNew knots.old ptr.index) }
    ensures err { OnErr result (knots.new ≡ knots.old) }
    ensures spent { (result ≡ Err CoreError.SlotsSpent) ↔ (room knots.old ≡ 0) }
    ensures room { OnOk result (room knots.new + 1 ≡ room knots.old) }
{
    knots.insert_with(move |ptr: Ptr<Knot>| Knot {
        links,
        me: ptr.index(),
    })
}

/// Writes one field of one record, if it is live.
fn set_count(pair: &mut Pair, root: Ptr<Root>, count: u32)
    ensures changed { IfSome (get pair.old.roots root.index) (λ r. pair.new.roots ≡ fill pair.old.roots root.index (record r { count = count })) }
    ensures absent { IfNone (get pair.old.roots root.index) (pair.new.roots ≡ pair.old.roots) }
    ensures rest { pair.new.knots ≡ pair.old.knots }
{
    if let Some(r) = pair.roots.get_mut(root) {
        r.count = count;
    }
}

/// Two writes in turn: each other record stays.
fn set_two(pair: &mut Pair, a: Ptr<Root>, b: Ptr<Root>, count: u32)
    ensures others { (q : Index) → q ≢ a.index → q ≢ b.index → get pair.new.roots q ≡ get pair.old.roots q }
{
    other_ids_stay::<Root>();
    if let Some(r) = pair.roots.get_mut(a) {
        r.count = count;
    }
    if let Some(r) = pair.roots.get_mut(b) {
        r.count = count;
    }
}

/// A root for a knot, which takes room in one arena and none in the other.
fn insert_root(pair: &mut Pair, knot: Ptr<Knot>) -> Result<Ptr<Root>, CoreError>
    ensures made { IfOk result (λ ptr. get pair.new.roots ptr.index ≡ Some record { first = Some knot.index; count = 1 }) }
    ensures rest { pair.new.knots ≡ pair.old.knots }
    ensures err { OnErr result (pair.new ≡ pair.old) }
{
    let root = Root {
        first: Some(knot.index()),
        count: 1,
    };
    store(&mut pair.roots, root)
}

/// Two removals, the second of which finds nothing.
fn remove_twice(roots: &mut Arena<Root>, root: Ptr<Root>) -> bool
    ensures counted { roots.new.removals ≡ roots.old.removals + 2 }
    ensures gone { get roots.new root.index ≡ None }
{
    roots.remove(root);
    roots.remove(root).is_none()
}

/// An insertion where a freed slot is left always succeeds.
fn make_again(roots: &mut Arena<Root>) -> Ptr<Root>
    requires { unused roots.old < room roots.old }
    ensures { room roots.new + 1 ≡ room roots.old }
{
    match make(roots) {
        Ok(root) => root,
        Err(_) => unreachable!(),
    }
}

/// A removal, after which what was handed out is still handed out, and what is gone is gone for good.
fn remove_for_good(roots: &mut Arena<Root>, root: Ptr<Root>)
    ensures passed { (q : Index) → is_passed roots.new q ≡ is_passed roots.old q }
    ensures gone { get roots.new root.index ≡ None }
    ensures others { (q : Index) → q ≢ root.index → get roots.new q ≡ get roots.old q }
{
    passed_ids_stay::<Root>();
    other_ids_stay::<Root>();
    roots.remove(root);
}

/// A clearing, which counts each record once. What was handed out is still handed out, and nothing stands under it.
fn clear_counted(roots: &mut Arena<Root>)
    ensures counted { roots.new.removals ≡ roots.old.removals + arena_len roots.old }
    ensures gone { (q : Index) → get roots.new q ≡ None }
    ensures passed { (q : Index) → is_passed roots.new q ≡ is_passed roots.old q }
{
    roots.clear();
}

/// Place for a hundred more, which changes nothing that is seen.
fn make_place(roots: &mut Arena<Root>) -> Result<(), AllocError>
    ensures { roots.new ≡ roots.old }
{
    roots.reserve(100)
}

/// Stores a root that names nothing.
fn make(roots: &mut Arena<Root>) -> Result<Ptr<Root>, CoreError>
    ensures grown { (result ≡ Err CoreError.OutOfMemory) → (room roots.old ≡ unused roots.old) }
    ensures spent { (result ≡ Err CoreError.SlotsSpent) ↔ (room roots.old ≡ 0) }
    ensures memory { IfErr result (λ e. (e ≡ CoreError.SlotsSpent) ⊎ (e ≡ CoreError.OutOfMemory)) }
    ensures room { OnOk result (room roots.new + 1 ≡ room roots.old) }
{
    let root = Root {
        first: None,
        count: 0,
    };
    store(roots, root)
}

// Stores such a root where there is memory, and answers its place.
fn make_at(rt: &impl Abort, roots: &mut Arena<Root>) -> ArenaIndex {
    make(roots).expect(rt, "memory").index()
}

// Whether a root was there to be removed.
fn free(roots: &mut Arena<Root>, root: Ptr<Root>) -> bool {
    roots.remove(root).is_some()
}

// How many more roots there can be, and how many are live.
fn room_and_len(roots: &Arena<Root>) -> (u32, usize) {
    (roots.room(), roots.len())
}

// Whether nothing is left of a handle.
fn is_gone(roots: &mut Arena<Root>, root: Ptr<Root>) -> bool {
    !roots.is_live(root) && roots.get(root).is_none() && roots.get_mut(root).is_none()
}

// Makes the only root and frees it. Asserts how much room there is after the one and after the other, and that nothing is left of the handle.
fn make_and_free(
    rt: &impl Abort,
    roots: &mut Arena<Root>,
    after_making: u32,
    after_removing: u32,
) -> Ptr<Root> {
    let root = make(roots).expect(rt, "memory");
    let made = room_and_len(roots);
    let freed = free(roots, root);
    let left = room_and_len(roots);
    expect_same(
        rt,
        (made, freed, left),
        ((after_making, 1), true, (after_removing, 0)),
    );
    root
}

#[test]
fn room_follows_each_change(rt: HostRuntime) {
    let mut roots = Arena::new(rt.alloc(), 2, 3);
    expect_same(
        &rt,
        (roots.is_empty(), room_and_len(&roots)),
        (true, (2, 0)),
    );
    let first = make_and_free(&rt, &mut roots, 1, 2);
    let second = make_and_free(&rt, &mut roots, 1, 1);
    let third = make_and_free(&rt, &mut roots, 0, 1);
    let first = is_gone(&mut roots, first);
    let second = is_gone(&mut roots, second);
    let third = is_gone(&mut roots, third);
    expect_same(&rt, [first, second, third], [true; 3]);
}

// Asserts that a root can be made and freed so many times, and no more.
fn expect_times(rt: &impl Abort, roots: &mut Arena<Root>, last_version: u32, times: u32) {
    for _ in 0..times {
        let root = make(roots).expect(rt, "memory");
        assert!(rt; free(roots, root));
    }
    assert!(rt;
        make(roots) == Err(CoreError::SlotsSpent),
        "last version {last_version}"
    );
}

#[test]
fn a_slot_ends_with_its_last_version(rt: HostRuntime) {
    for (slots, last_version, times) in [
        (1, 1, 1),
        (1, 2, 1),
        (1, 3, 2),
        (1, 4, 2),
        (1, 5, 3),
        (0, 1, 0),
    ] {
        let mut roots = Arena::new(rt.alloc(), slots, last_version);
        expect_times(&rt, &mut roots, last_version, times);
    }
}

// Asserts that a root is made at this place, and frees it.
fn expect_passed(rt: &impl Abort, roots: &mut Arena<Root>, place: ArenaIndex) {
    let root = make(roots).expect(rt, "memory");
    expect_same(rt, (root.index(), free(roots, root)), (place, true));
}

// Asserts that nothing is left of a root at this place.
fn expect_gone(rt: &impl Abort, roots: &mut Arena<Root>, place: ArenaIndex) {
    assert!(rt; is_gone(roots, Ptr::from_index(place)));
}

#[test]
fn versions_go_up_by_two(rt: HostRuntime) {
    let mut roots = Arena::new(rt.alloc(), 1, u32::MAX);
    for k in 0..1000u32 {
        let version = 2 * k + 1;
        expect_passed(&rt, &mut roots, ArenaIndex { slot: 1, version });
    }
    for k in 0..1000u32 {
        let version = 2 * k + 1;
        expect_gone(&rt, &mut roots, ArenaIndex { slot: 1, version });
    }
}

// Asserts that the next roots are at these places.
fn expect_places(rt: &impl Abort, roots: &mut Arena<Root>, places: &[(u32, u32)]) {
    for (slot, version) in places {
        let place = make_at(rt, roots);
        expect_same(rt, (place.slot, place.version), (*slot, *version));
    }
}

#[test]
fn the_slot_freed_last_is_used_first(rt: HostRuntime) {
    let mut roots = Arena::new(rt.alloc(), 9, 9);
    expect_places(&rt, &mut roots, &[(1, 1), (2, 1), (3, 1)]);
    let freed = (free(&mut roots, in_slot(1)), free(&mut roots, in_slot(3)));
    expect_places(&rt, &mut roots, &[(3, 3), (1, 3), (4, 1)]);
    expect_same(
        &rt,
        (freed, roots.is_live(in_slot(2))),
        ((true, true), true),
    );
}

#[test]
fn cleared_slots_are_used_from_the_first(rt: HostRuntime) {
    let mut roots = Arena::new(rt.alloc(), 3, 3);
    make_place(&mut roots).expect(&rt, "memory");
    expect_places(&rt, &mut roots, &[(1, 1), (2, 1), (3, 1)]);
    assert!(&rt; free(&mut roots, in_slot(2)));
    clear_counted(&mut roots);
    let gone = is_gone(&mut roots, in_slot(1)) && is_gone(&mut roots, in_slot(3));
    expect_same(&rt, (gone, room_and_len(&roots)), (true, (3, 0)));
    expect_places(&rt, &mut roots, &[(1, 3), (3, 3), (2, 3)]);
    clear_counted(&mut roots);
    expect_same(&rt, room_and_len(&roots), (0, 0));
}

// Makes a thousand roots, each in the next slot.
fn make_thousand(rt: &impl Abort, roots: &mut Arena<Root>) {
    for slot in 1..=1000u32 {
        expect_places(rt, roots, &[(slot, 1)]);
    }
}

// Frees each of the thousand.
fn free_thousand(rt: &impl Abort, roots: &mut Arena<Root>) {
    for slot in 1..=1000u32 {
        assert!(rt; free(roots, in_slot(slot)));
    }
}

// Asserts that a thousand freed slots are used again, the last one first, which is never refused.
fn expect_used_again(rt: &impl Abort, roots: &mut Arena<Root>) {
    for k in 0..1000u32 {
        let place = ArenaIndex {
            slot: 1000 - k,
            version: 3,
        };
        assert!(rt; make(roots) == Ok(Ptr::from_index(place)));
    }
}

#[test]
fn freed_slots_need_no_memory(rt: HostRuntime) {
    let mut roots = Arena::new(rt.alloc(), 1000, 9);
    make_thousand(&rt, &mut roots);
    free_thousand(&rt, &mut roots);
    expect_used_again(&rt, &mut roots);
    expect_same(&rt, room_and_len(&roots), (0, 1000));
}

// An arena with more slots than it doubles to keeps its records while it grows.
#[test]
fn a_large_arena_grows(rt: HostRuntime) {
    let mut roots = Arena::new(rt.alloc(), 90_000, 9);
    for slot in 1..=90_000u32 {
        expect_places(&rt, &mut roots, &[(slot, 1)]);
    }
    let ends = (roots.is_live(in_slot(1)), roots.is_live(in_slot(90_000)));
    expect_same(
        &rt,
        (ends, room_and_len(&roots)),
        ((true, true), (0, 90_000)),
    );
}

// Stores a root that names nothing, and says how often it was made.
fn make_counted(roots: &mut Arena<Root>) -> (u32, Result<Ptr<Root>, CoreError>) {
    let mut made = 0u32;
    let answer = roots.insert_with(|_| {
        made = made.saturating_add(1);
        Root {
            first: None,
            count: 0,
        }
    });
    (made, answer)
}

#[test]
fn a_refused_record_is_not_made(rt: HostRuntime) {
    let mut roots = Arena::new(rt.alloc(), 0, 9);
    let spent = (0, Err(CoreError::SlotsSpent));
    let answer = make_counted(&mut roots);
    expect_same(&rt, answer == spent, true);
}

// Asserts that a root is made once where it is stored at this place. Where memory is refused none is made or stored, and it is stored by the next call, before the test ends.
fn expect_made(rt: &impl Abort, roots: &mut Arena<Root>, slot: u32) {
    let before = room_and_len(roots);
    let (made, answer) = make_counted(roots);
    if answer.is_err() {
        let left = (room_and_len(roots), roots.is_live(in_slot(slot)));
        expect_same(rt, (made, left), (0, (before, false)));
        expect_places(rt, roots, &[(slot, 1)]);
    }
    let root = answer.expect(rt, "memory");
    expect_same(rt, (made, root.index().slot), (1, slot));
}

#[test]
fn refused_insertion_changes_nothing(rt: HostRuntime) {
    let mut roots = Arena::new(rt.alloc(), 40, 9);
    for slot in 1..=40u32 {
        expect_made(&rt, &mut roots, slot);
    }
}

// A list of one link.
fn one_link(rt: &impl Abort, alloc: Global) -> Seq<ArenaIndex> {
    let mut links = Seq::new(alloc);
    let link = ArenaIndex {
        slot: 7,
        version: 1,
    };
    links.push(link).expect(rt, "memory");
    links
}

// Stores a knot with one link, and one with none and the place of the first.
fn insert_two_knots(
    rt: &impl Abort,
    alloc: Global,
    knots: &mut Arena<Knot>,
) -> (Ptr<Knot>, Ptr<Knot>) {
    let knot = insert_knot(knots, one_link(rt, alloc)).expect(rt, "memory");
    let made = Knot {
        links: Seq::new(alloc),
        me: knot.index(),
    };
    (knot, store(knots, made).expect(rt, "memory"))
}

// Stores two knots and a root of each.
fn fill_pair(rt: &impl Abort, alloc: Global, pair: &mut Pair) -> (Ptr<Knot>, Ptr<Knot>) {
    let (knot, other) = insert_two_knots(rt, alloc, &mut pair.knots);
    insert_root(pair, knot).expect(rt, "memory");
    insert_root(pair, other).expect(rt, "memory");
    (knot, other)
}

// How many links a knot has, and its place as it knows it.
fn read_knot(knots: &Arena<Knot>, knot: Ptr<Knot>) -> Option<(usize, ArenaIndex)> {
    let record = knots.get(knot)?;
    Some((record.links.len(), record.me))
}

// What a root names, and its count.
fn read_root(roots: &Arena<Root>, root: Ptr<Root>) -> Option<(Option<ArenaIndex>, u32)> {
    let record = roots.get(root)?;
    Some((record.first, record.count))
}

// Reads the count of a live root in the place of which the handle is known, and writes the next.
fn count_on(roots: &mut Arena<Root>, root: Ptr<Root>) -> u32 {
    if !roots.is_live(root) {
        return 0;
    }
    let count = roots.at(root).count;
    roots.at_mut(root).count = count.saturating_add(1);
    count
}

// Asserts that both knots know the place of the first, and that each root names its knot.
fn expect_pair(rt: &impl Abort, pair: &Pair, knot: Ptr<Knot>, other: Ptr<Knot>) {
    let place = knot.index();
    let knots = (read_knot(&pair.knots, knot), read_knot(&pair.knots, other));
    expect_same(rt, knots, (Some((1, place)), Some((0, place))));
    let first = read_root(&pair.roots, in_slot(1));
    let second = read_root(&pair.roots, in_slot(2));
    let named = (Some((Some(place), 1)), Some((Some(other.index()), 1)));
    expect_same(rt, (first, second), named);
}

// Writes a count into the first of two roots, and another into both, and counts on.
fn count_both(rt: &impl Abort, pair: &mut Pair, root: Ptr<Root>, more: Ptr<Root>) {
    set_count(pair, root, 5);
    let five = count_on(&mut pair.roots, root);
    set_two(pair, root, more, 6);
    let six = count_on(&mut pair.roots, root);
    let also = count_on(&mut pair.roots, more);
    let seven = count_on(&mut pair.roots, more);
    expect_same(rt, [five, six, also, seven], [5, 6, 6, 7]);
}

// Removes the first of two roots twice, and then the other.
fn remove_both(rt: &impl Abort, roots: &mut Arena<Root>, root: Ptr<Root>, more: Ptr<Root>) {
    let removed = (remove_twice(roots, root), is_gone(roots, root), roots.len());
    remove_for_good(roots, more);
    expect_same(rt, (removed, is_gone(roots, more)), ((true, true, 1), true));
}

#[test]
fn records_are_read_and_written(rt: HostRuntime) {
    let alloc = rt.alloc();
    let mut pair = Pair {
        knots: Arena::new(alloc, 4, 9),
        roots: Arena::new(alloc, 4, 9),
    };
    let (knot, other) = fill_pair(&rt, alloc, &mut pair);
    expect_pair(&rt, &pair, knot, other);
    count_both(&rt, &mut pair, in_slot(1), in_slot(2));
    remove_both(&rt, &mut pair.roots, in_slot(1), in_slot(2));
}

// Asserts that a copy of the handle is equal to it, has this index and hashes as it does.
fn expect_copy(rt: &impl Abort, handle: Ptr<Root>, index: ArenaIndex) {
    let same = handle.clone().expect(rt, "memory");
    let hasher = BuildHasherDefault::<FoldHasher>::default();
    let hashed = hasher.hash_one(&handle) == hasher.hash_one(&same);
    expect_same(
        rt,
        (handle == same, hashed, same.index()),
        (true, true, index),
    );
}

#[test]
fn handles_are_their_indices(rt: HostRuntime) {
    let index = ArenaIndex {
        slot: 2,
        version: 3,
    };
    let handle = Ptr::<Root>::from_index(index);
    expect_copy(&rt, handle, index);
    assert!(rt; handle != in_slot(2));
}

// No record is in the slot 0, since slots are counted from 1.
#[test]
fn no_record_is_in_slot_zero(rt: HostRuntime) {
    let roots = Arena::<Root>::new(rt.alloc(), 1, 1);
    expect_same(&rt, roots.is_live(in_slot(0)), false);
}

#[test]
fn room_is_plain_data(rt: HostRuntime) {
    let room = Room {
        values: 1,
        uses: 2,
        ops: 3,
        blocks: 4,
        regions: 5,
        aux: 6,
    };
    let same = room;
    let shown = "Room { values: 1, uses: 2, ops: 3, blocks: 4, regions: 5, aux: 6 }";
    assert!(rt; room == same && shows(&rt, rt.alloc(), &room, shown));
}

/// A record that holds a number with others, in a list of its own.
#[derive(Drop)]
struct Holder {
    held: Seq<Rc<u8>>,
}

impl TakeOut for Holder {
    fn take_out(&mut self) -> Holder {
        Holder {
            held: self.held.take(),
        }
    }
}

// Stores one more holder of the number.
fn hold(
    rt: &impl Abort,
    alloc: Global,
    holders: &mut Arena<Holder>,
    shared: &Rc<u8>,
) -> Ptr<Holder> {
    let mut held = Seq::new(alloc);
    held.push(shared.clone().expect(rt, "memory"))
        .expect(rt, "memory");
    store(holders, Holder { held }).expect(rt, "memory")
}

// Drops a record that is taken out, and answers how many hold the number then.
fn drop_one(holders: &mut Arena<Holder>, holder: Ptr<Holder>, shared: &Rc<u8>) -> usize {
    drop(holders.remove(holder));
    Rc::strong_count(shared)
}

// What a record owns goes with it, and isn't kept until its slot is used again.
#[test]
fn a_record_that_went_holds_nothing(rt: HostRuntime) {
    let shared = Rc::new(rt.alloc(), 0u8).expect(&rt, "memory");
    let mut holders = Arena::new(rt.alloc(), 9, 9);
    let first = hold(&rt, rt.alloc(), &mut holders, &shared);
    let second = hold(&rt, rt.alloc(), &mut holders, &shared);
    expect_same(&rt, drop_one(&mut holders, first, &shared), 2);
    expect_same(&rt, drop_one(&mut holders, second, &shared), 1);
    hold(&rt, rt.alloc(), &mut holders, &shared);
    expect_same(&rt, Rc::strong_count(&shared), 2);
}
