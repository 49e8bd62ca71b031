//! Links as records keep them: a caller that is proved from their contracts alone, then tests that run.

ghost use Rattle.std.specs.Prelude.{◌≡◌, Some};
ghost use Rattle.ir_base_arenas.specs.Arena.{IsLiveIn};

use crate::expecting::expect_same;
use crate::storing::store;
use ir_base_arenas::arena_laws::live_ids_have_slots;
use ir_base_arenas::{Arena, ArenaIndex, Link, Ptr};
use std::process::Abort;

/// A record that names another, or none.
#[derive(Drop)]
struct Step {
    next: Link,
}

/// A link to a live record: its index has a slot, as a law says.
fn link_to(steps: &Arena<Step>, step: Ptr<Step>) -> Link
    requires { IsLiveIn steps.now step.index }
    ensures { result ≡ Some step.index }
{
    live_ids_have_slots::<Step>();
    Link::some(step.index())
}

// Stores a step that leads to another, if this is live.
fn store_before(rt: &impl Abort, steps: &mut Arena<Step>, last: Ptr<Step>) -> Ptr<Step> {
    assert!(rt; steps.is_live(last));
    let next = link_to(steps, last);
    store(steps, Step { next }).expect(rt, "memory")
}

// What a step leads to.
fn next_of(steps: &Arena<Step>, step: Ptr<Step>) -> Option<Option<ArenaIndex>> {
    let record = steps.get(step)?;
    Some(record.next.get())
}

#[test]
fn links_lead_on(rt: HostRuntime) {
    let mut steps = Arena::new(rt.alloc(), 4, 9);
    let none = Step { next: Link::none() };
    let last = store(&mut steps, none).expect(&rt, "memory");
    let first = store_before(&rt, &mut steps, last);
    let next = (next_of(&steps, first), next_of(&steps, last));
    expect_same(&rt, next, (Some(Some(last.index())), Some(None)));
}

#[test]
fn links_are_copied(rt: HostRuntime) {
    let place = ArenaIndex {
        slot: u32::MAX,
        version: 0,
    };
    let link = Link::some(place);
    let same = link;
    let got = (same.get(), link.get(), Link::none().get());
    expect_same(&rt, got, (Some(place), Some(place), None));
}
