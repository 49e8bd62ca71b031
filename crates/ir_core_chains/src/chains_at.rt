//! Single places of a chain: one is taken out, put in at an index, or put where another one stands, and its use with it. A use is taken out by moving the last one into its place.
//!
//! A place goes before its use: in between, that use stands for no place (`LinkedBesides`). So nothing is special where the new use is one of the same definition, or the operation uses its own result.

ghost use Rattle.std.specs.Prelude.{◌≡◌, ◌<◌, ◌≤◌, length, OnOk, OnErr, insert, remove, slice_get, Some};
ghost use Rattle.std.specs.Option.{option_map};
ghost use Rattle.ir_base_arenas.specs.Arena.{IsLiveIn};
ghost use Rattle.ir_model.specs.declared.ids.ArenaIndex.{ArenaIndex};
ghost use Rattle.ir_core_records.specs.Chains.{names_in};
ghost use Rattle.ir_core_records.specs.Links.{LinkedBut, NoHole, IsFreshUse};
ghost use Rattle.ir_core_chains.specs.Besides.{LinkedBesides};
ghost use Rattle.ir_core_chains.specs.Chain.{Rewrites};

use crate::named::Named;
use ir_base_dialects::{ArenaIndex, Dialects};
use ir_core_records::{Records, UseIndex, UseRank};
use std::alloc::AllocError;

// Takes a use out that no place stands for. The last use moves into its place.
#[inline(always)]
fn release<D: Dialects, N: Named<D>>(records: &mut Records<D>, named: N, index: UseRank)
    requires linked { LinkedBesides named index (N.places_at records.old) (N.uses_at records.old) }
    requires named { N.IsNamed records.old named }
    requires within { index < length (N.uses_at records.old named) }
    ensures linked { LinkedBut NoHole (N.places_at records.new) (N.uses_at records.new) }
    ensures names { (o : ArenaIndex) → names_in (N.places_at records.new o) ≡ names_in (N.places_at records.old o) }
    ensures rest { Rewrites N.with_places N.with_uses records.old records.new }
{
    if let Some(moved) = N::take_use(records, named, index) {
        N::set_place(records, moved.used(), moved.near(), index);
    }
}

// Takes the place at an index out, and its use with it. It tells what the place named.
#[inline(always)]
pub(crate) fn remove_linked<D: Dialects, N: Named<D>>(
    records: &mut Records<D>,
    user: ArenaIndex,
    index: usize,
) -> N
    requires linked { LinkedBut NoHole (N.places_at records.old) (N.uses_at records.old) }
    requires live { IsLiveIn records.old.ops user }
    requires within { index < length (N.places_at records.old user) }
    ensures value { option_map (λ a. a.names) (slice_get (N.places_at records.old user) index) ≡ Some result }
    ensures linked { LinkedBut NoHole (N.places_at records.new) (N.uses_at records.new) }
    ensures live { IsLiveIn records.new.ops user }
    ensures here { names_in (N.places_at records.new user) ≡ remove (names_in (N.places_at records.old user)) index }
    ensures others { (o : ArenaIndex) → ¬ (o ≡ user) → names_in (N.places_at records.new o) ≡ names_in (N.places_at records.old o) }
    ensures rest { Rewrites N.with_places N.with_uses records.old records.new }
{
    let gone = N::remove_place(records, user, index);
    release::<D, N>(records, gone.names, gone.place);
    gone.names
}

// Puts the use into the list of what is named, and a place with a new number at an index: both or neither.
pub(crate) fn insert_linked<D: Dialects, N: Named<D>>(
    records: &mut Records<D>,
    user: ArenaIndex,
    index: usize,
    number: u64,
    names: N,
) -> Result<(), AllocError>
    requires linked { LinkedBut NoHole (N.places_at records.old) (N.uses_at records.old) }
    requires live { IsLiveIn records.old.ops user }
    requires within { index ≤ length (N.places_at records.old user) }
    requires named { N.IsNamed records.old names }
    requires fresh { IsFreshUse (N.places_at records.old) number }
    ensures linked { LinkedBut NoHole (N.places_at records.new) (N.uses_at records.new) }
    ensures live { IsLiveIn records.new.ops user }
    ensures here { OnOk result (names_in (N.places_at records.new user) ≡ insert (names_in (N.places_at records.old user)) index (number, names)) }
    ensures others { (o : ArenaIndex) → ¬ (o ≡ user) → names_in (N.places_at records.new o) ≡ names_in (N.places_at records.old o) }
    ensures rest { Rewrites N.with_places N.with_uses records.old records.new }
    ensures err { OnErr result (records.new ≡ records.old) }
{
    let place = N::push_use(records, names, UseIndex { user, number }, index)?;
    if N::insert_place(records, user, index, number, names, place).is_err() {
        N::take_use(records, names, place);
        return Err(AllocError);
    }
    Ok(())
}

// Puts a place with a new number where another one stands, and the use of that one goes.
#[inline(always)]
pub(crate) fn replace_linked<D: Dialects, N: Named<D>>(
    records: &mut Records<D>,
    user: ArenaIndex,
    index: usize,
    number: u64,
    names: N,
) -> Result<(), AllocError>
    requires linked { LinkedBut NoHole (N.places_at records.old) (N.uses_at records.old) }
    requires live { IsLiveIn records.old.ops user }
    requires within { index < length (N.places_at records.old user) }
    requires named { N.IsNamed records.old names }
    requires fresh { IsFreshUse (N.places_at records.old) number }
    ensures linked { LinkedBut NoHole (N.places_at records.new) (N.uses_at records.new) }
    ensures live { IsLiveIn records.new.ops user }
    ensures here { OnOk result (names_in (N.places_at records.new user) ≡ insert (remove (names_in (N.places_at records.old user)) index) index (number, names)) }
    ensures others { (o : ArenaIndex) → ¬ (o ≡ user) → names_in (N.places_at records.new o) ≡ names_in (N.places_at records.old o) }
    ensures rest { Rewrites N.with_places N.with_uses records.old records.new }
    ensures err { OnErr result (records.new ≡ records.old) }
{
    let place = N::push_use(records, names, UseIndex { user, number }, index)?;
    let gone = N::replace_place(records, user, index, number, names, place);
    release::<D, N>(records, gone.names, gone.place);
    Ok(())
}
