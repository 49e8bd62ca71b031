//! The chains from definitions to their uses and back, kept while operands and successors are put in and taken out at the end, one or all.
//!
//! Everything here is generic in what is named: `N` is a value, as an operand names one, or a block, as a successor does.

ghost use Rattle.std.specs.Prelude.{◌≡◌, ℕ, ◌+◌, ◌-◌, ◌^◌, ◌<◌, ◌≤◌, ◌++◌, ◌∷◌, [], All, length, map, OnOk, OnErr, remove, slice_get, Some};
ghost use Rattle.std.specs.Option.{option_map};
ghost use Rattle.ir_base_arenas.specs.Arena.{IsLiveIn};
ghost use Rattle.ir_model.specs.declared.ids.ArenaIndex.{ArenaIndex};
ghost use Rattle.ir_core_records.specs.Links.{LinkedBut, NoHole, IsFreshUse};
ghost use Rattle.ir_core_chains.specs.Chain.{Rewrites};
ghost use Rattle.ir_core_records.specs.Chains.{names_in, names_from};

use crate::chains_at::remove_linked;
use crate::named::{Named, Names};
use ir_base_dialects::{ArenaIndex, Dialects};
use ir_core_records::{Records, UseIndex};
use std::alloc::AllocError;

// Takes the last place out, and its use with it. It tells what the place named.
#[inline(always)]
pub(crate) fn pop_linked<D: Dialects, N: Named<D>>(records: &mut Records<D>, user: ArenaIndex) -> N
    requires linked { LinkedBut NoHole (N.places_at records.old) (N.uses_at records.old) }
    requires live { IsLiveIn records.old.ops user }
    requires some { 0 < length (N.places_at records.old user) }
    ensures value { option_map (λ a. a.names) (slice_get (N.places_at records.old user) (length (N.places_at records.old user) - 1)) ≡ Some result }
    ensures linked { LinkedBut NoHole (N.places_at records.new) (N.uses_at records.new) }
    ensures live { IsLiveIn records.new.ops user }
    ensures here { names_in (N.places_at records.new user) ≡ remove (names_in (N.places_at records.old user)) (length (N.places_at records.old user) - 1) }
    ensures others { (o : ArenaIndex) → ¬ (o ≡ user) → names_in (N.places_at records.new o) ≡ names_in (N.places_at records.old o) }
    ensures rest { Rewrites N.with_places N.with_uses records.old records.new }
{
    let last = N::place_count(records, user) - 1;
    remove_linked::<D, N>(records, user, last)
}

// Puts the use into the list of what is named, and a place with a new number at the end, which is at about this index: both or neither.
#[inline(always)]
pub(crate) fn push_linked<D: Dialects, N: Named<D>>(
    records: &mut Records<D>,
    user: ArenaIndex,
    number: u64,
    names: N,
    near: usize,
) -> Result<(), AllocError>
    requires linked { LinkedBut NoHole (N.places_at records.old) (N.uses_at records.old) }
    requires live { IsLiveIn records.old.ops user }
    requires named { N.IsNamed records.old names }
    requires fresh { IsFreshUse (N.places_at records.old) number }
    ensures linked { LinkedBut NoHole (N.places_at records.new) (N.uses_at records.new) }
    ensures live { IsLiveIn records.new.ops user }
    ensures here { OnOk result (names_in (N.places_at records.new user) ≡ names_in (N.places_at records.old user) ++ (number, names) ∷ []) }
    ensures others { (o : ArenaIndex) → ¬ (o ≡ user) → names_in (N.places_at records.new o) ≡ names_in (N.places_at records.old o) }
    ensures rest { Rewrites N.with_places N.with_uses records.old records.new }
    ensures err { OnErr result (records.new ≡ records.old) }
{
    let place = N::push_use(records, names, UseIndex { user, number }, near)?;
    if N::push_place(records, user, number, names, place).is_err() {
        N::take_use(records, names, place);
        return Err(AllocError);
    }
    Ok(())
}

// Takes all places of an operation out, and their uses with them.
#[inline(always)]
pub(crate) fn unlink_all<D: Dialects, N: Named<D>>(records: &mut Records<D>, user: ArenaIndex)
    requires linked { LinkedBut NoHole (N.places_at records.old) (N.uses_at records.old) }
    requires live { IsLiveIn records.old.ops user }
    ensures linked { LinkedBut NoHole (N.places_at records.new) (N.uses_at records.new) }
    ensures here { N.places_at records.new user ≡ [] }
    ensures others { (o : ArenaIndex) → ¬ (o ≡ user) → names_in (N.places_at records.new o) ≡ names_in (N.places_at records.old o) }
    ensures rest { Rewrites N.with_places N.with_uses records.old records.new }
{
    while N::place_count(records, user) > 0 {
        pop_linked::<D, N>(records, user);
    }
}

// Gives an operation without places these, numbered from `first` on, and puts their uses into the lists of what they name: all or none.
#[inline(always)]
pub(crate) fn link_all<D: Dialects, N: Named<D>, V: Names<N>>(
    records: &mut Records<D>,
    user: ArenaIndex,
    first: u64,
    named: &[V],
) -> Result<(), AllocError>
    requires linked { LinkedBut NoHole (N.places_at records.old) (N.uses_at records.old) }
    requires live { IsLiveIn records.old.ops user }
    requires bare { N.places_at records.old user ≡ [] }
    requires named { All (λ v. N.IsNamed records.old (V.named v)) named.now }
    requires fresh { (n : ℕ) → first ≤ n → IsFreshUse (N.places_at records.old) n }
    requires numbers { first + length named.now < 2 ^ 64 }
    ensures linked { LinkedBut NoHole (N.places_at records.new) (N.uses_at records.new) }
    ensures here { OnOk result (names_in (N.places_at records.new user) ≡ names_from first (map (λ v. V.named v) named.now)) }
    ensures err { OnErr result (N.places_at records.new user ≡ []) }
    ensures others { (o : ArenaIndex) → ¬ (o ≡ user) → names_in (N.places_at records.new o) ≡ names_in (N.places_at records.old o) }
    ensures rest { Rewrites N.with_places N.with_uses records.old records.new }
{
    N::reserve_places(records, user, named.len())?;
    let mut number = first;
    for item in named {
        let near = number.abs_diff(first) as usize;
        if push_linked::<D, N>(records, user, number, item.named_index(), near).is_err() {
            unlink_all::<D, N>(records, user);
            return Err(AllocError);
        }
        number += 1;
    }
    Ok(())
}
