//! Rows of lists: steps, each with whether its condition holds and the lists afterwards.

use crate::expecting::expect_same;
use crate::lists::{Lists, Node, Part, Root, Step, a_node, a_part, a_root};
use crate::storing::in_slot;
use Step::{After, Back, Before, Front, Join, Out};
use std::alloc::Global;
use std::process::Abort;

/// Nodes in the lists of parts.
type Nodes = Lists<Node, Part>;

/// Two parts with the names 7 and 8, and four nodes with the payloads 1 to 4, all unlinked. Each is in the slot of its number.
fn nodes(rt: &impl Abort, alloc: Global) -> Nodes {
    let mut lists = Nodes::new(alloc);
    for name in [7, 8] {
        lists.add_container(a_part(name)).expect(rt, "memory");
    }
    for payload in 1..=4u64 {
        lists.add_node(a_node(payload)).expect(rt, "memory");
    }
    lists
}

// Whether the lists of the two parts are these, from both ends.
fn are(lists: &Nodes, first: &[u32], second: &[u32]) -> bool {
    lists.is_list(in_slot(1), first) && lists.is_list(in_slot(2), second)
}

// Carries out steps. Asserts whether each is done, and that the lists of the two parts are then these.
fn expect_steps(rt: &impl Abort, lists: &mut Nodes, steps: &[(Step, bool, &[u32], &[u32])]) {
    for (step, holds, first, second) in steps {
        let done = lists.carry_out(*step);
        assert!(rt; done == *holds && are(lists, first, second), "{step:?}");
    }
}

// The steps of tests, each with whether it is carried out, and the lists of both parts behind it.
const INSERTS: &[(Step, bool, &[u32], &[u32])] = &[
    (Front(1, 1), true, &[1], &[]),
    (After(2, 1), true, &[1, 2], &[]),
    (After(4, 2), true, &[1, 2, 4], &[]),
];

const UNLINKS: &[(Step, bool, &[u32], &[u32])] = &[
    (Back(1, 1), true, &[1], &[]),
    (Back(4, 1), true, &[1, 4], &[]),
    (Before(2, 4), true, &[1, 2, 4], &[]),
    (Out(2), true, &[1, 4], &[]),
    (Out(1), true, &[4], &[]),
    (Out(4), true, &[], &[]),
];

const CONDITIONS: &[(Step, bool, &[u32], &[u32])] = &[
    (Front(1, 1), true, &[1], &[]),
    (Front(1, 1), false, &[1], &[]),
    (Back(1, 1), false, &[1], &[]),
    (After(1, 1), false, &[1], &[]),
    (Out(2), false, &[1], &[]),
    (After(2, 3), false, &[1], &[]),
    (Before(2, 3), false, &[1], &[]),
    (Join(1, 1), false, &[1], &[]),
];

const APPENDS: &[(Step, bool, &[u32], &[u32])] = &[
    (Back(1, 1), true, &[1], &[]),
    (Back(2, 1), true, &[1, 2], &[]),
    (Back(3, 2), true, &[1, 2], &[3]),
    (Back(4, 2), true, &[1, 2], &[3, 4]),
    (Join(1, 2), true, &[1, 2, 3, 4], &[]),
];

const APPENDS_TO_NOTHING: &[(Step, bool, &[u32], &[u32])] = &[
    (Join(1, 2), true, &[], &[]),
    (Back(1, 2), true, &[], &[1]),
    (Join(1, 2), true, &[1], &[]),
];

const APPENDS_AND_UNLINKS: &[(Step, bool, &[u32], &[u32])] = &[
    (Back(1, 1), true, &[1], &[]),
    (Back(2, 1), true, &[1, 2], &[]),
    (Back(3, 1), true, &[1, 2, 3], &[]),
    (Back(4, 2), true, &[1, 2, 3], &[4]),
    (Join(1, 2), true, &[1, 2, 3, 4], &[]),
    (Out(3), true, &[1, 2, 4], &[]),
    (Out(4), true, &[1, 2], &[]),
];

#[test]
fn list_inserts(rt: HostRuntime) {
    let mut lists = nodes(&rt, rt.alloc());
    expect_steps(&rt, &mut lists, INSERTS);
    expect_same(&rt, lists.is_linked(in_slot(3)), false);
    expect_steps(&rt, &mut lists, &[(Before(3, 1), true, &[3, 1, 2, 4], &[])]);
}

// Front and back by turns take each node once, and a copy goes on by itself.
#[test]
fn list_inserts_from_both_ends(rt: HostRuntime) {
    let mut lists = nodes(&rt, rt.alloc());
    expect_steps(&rt, &mut lists, INSERTS);
    expect_same(
        &rt,
        lists.is_read_by_turns(&rt, in_slot(1), [1, 4, 2]),
        true,
    );
}

#[test]
fn list_unlinks(rt: HostRuntime) {
    let mut lists = nodes(&rt, rt.alloc());
    expect_steps(&rt, &mut lists, UNLINKS);
    for slot in [1, 2, 4] {
        expect_same(&rt, lists.has_no_links(in_slot(slot)), true);
    }
}

#[test]
fn list_conditions(rt: HostRuntime) {
    let mut lists = nodes(&rt, rt.alloc());
    expect_steps(&rt, &mut lists, CONDITIONS);
}

#[test]
fn list_append(rt: HostRuntime) {
    let mut lists = nodes(&rt, rt.alloc());
    expect_steps(&rt, &mut lists, APPENDS);
    let names = (lists.name(in_slot(1)), lists.name(in_slot(2)));
    let rest = (lists.payload(in_slot(3)), names);
    expect_same(&rt, rest, (Some(3), (Some(7), Some(8))));
}

#[test]
fn list_append_to_nothing(rt: HostRuntime) {
    let mut lists = nodes(&rt, rt.alloc());
    expect_steps(&rt, &mut lists, APPENDS_TO_NOTHING);
}

#[test]
fn list_append_then_unlink(rt: HostRuntime) {
    let mut lists = nodes(&rt, rt.alloc());
    expect_steps(&rt, &mut lists, APPENDS_AND_UNLINKS);
}

// Carries out steps, each of which is done.
fn are_done(lists: &mut Nodes, steps: &[Step]) -> bool {
    for step in steps {
        if !lists.carry_out(*step) {
            return false;
        }
    }
    true
}

// The list is edited between two lines of output, so that whoever watches sees that nothing is asked for.
#[test]
fn lists_without_memory(rt: HostRuntime) {
    let mut lists = nodes(&rt, rt.alloc());
    let steps = [
        Front(1, 1),
        Back(4, 1),
        After(2, 1),
        Before(3, 4),
        Out(3),
        Back(3, 2),
        Join(1, 2),
    ];
    println!(rt; "ready").expect(&rt, "output");
    let done = are_done(&mut lists, &steps) && are(&lists, &[1, 2, 4, 3], &[]);
    println!(rt; "done").expect(&rt, "output");
    expect_same(&rt, done, true);
}

// A part has a list of its own, and stands in a root's.
#[test]
fn list_of_lists(rt: HostRuntime) {
    let mut parts = Lists::<Part, Root>::new(rt.alloc());
    parts.add_container(a_root(9)).expect(&rt, "memory");
    for name in [7, 8] {
        parts.add_node(a_part(name)).expect(&rt, "memory");
    }
    let done = parts.carry_out(Back(2, 1)) && parts.carry_out(Before(1, 2));
    expect_same(
        &rt,
        (done, parts.is_list(in_slot(1), &[1, 2])),
        (true, true),
    );
    expect_same(&rt, parts.names(), (Some(9), Some(7), Some(8)));
}
