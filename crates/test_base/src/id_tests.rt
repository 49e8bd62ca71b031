//! Texts of ids and of refusals, and the limits that fit all types.

use crate::expecting::prints;
use ir_model::{Answer, ArenaIndex, CoreError, Limits, Refused};

#[test]
fn ids_print_slot_and_version(rt: HostRuntime) {
    for (slot, version, text) in [(1, 1, "1v1"), (1, 3, "1v3"), (1, 1999, "1v1999")] {
        let place = ArenaIndex { slot, version };
        assert!(rt; prints(&rt, rt.alloc(), &place, text), "{text}");
    }
    let first = ArenaIndex {
        slot: 1,
        version: 1,
    };
    let again = ArenaIndex {
        slot: 1,
        version: 3,
    };
    assert!(rt; first != again);
}

#[test]
fn limits_are_all_that_fits(rt: HostRuntime) {
    let limits = Limits::default();
    let numbers = [limits.values, limits.uses];
    let slots = [limits.slots, limits.last_version];
    assert!(rt;
        numbers == [18_446_744_073_709_551_615; 2] && slots == [4_294_967_294, 4_294_967_295]
    );
}

#[test]
fn texts_of_refusals(rt: HostRuntime) {
    for (error, text) in [
        (CoreError::OutOfMemory, "out of memory"),
        (CoreError::CounterSpent, "counter spent"),
        (CoreError::SlotsSpent, "slots spent"),
    ] {
        assert!(rt; prints(&rt, rt.alloc(), &error, text), "{text}");
    }
}

#[test]
fn refusals_have_texts(rt: HostRuntime) {
    for (refused, text) in [
        (Refused::Condition, "condition does not hold"),
        (Refused::Memory, "out of memory"),
        (Refused::Counter, "counter spent"),
        (Refused::Slots, "slots spent"),
    ] {
        assert!(rt; prints(&rt, rt.alloc(), &refused, text), "{text}");
    }
}

#[test]
fn answers_are_told_apart(rt: HostRuntime) {
    let told = [
        Answer::Made(0) == Answer::Made(0),
        Answer::Made(0) != Answer::Made(1),
        Answer::Done != Answer::Refused(Refused::Memory),
        Answer::Refused(Refused::Slots) != Answer::Refused(Refused::Counter),
    ];
    assert!(rt; told == [true; 4]);
}
