//! Uses that move from one definition to another, whatever is named.
//!
//! Memory for uses that move together is there before the first place is renamed: then nothing can fail any more.

ghost use Rattle.std.specs.Prelude.{◌≡◌, ◌↔◌, ◌+◌, ◌<◌, ◌^◌, ◌==◌, ◌++◌, Bool, true, [], length, map, if◌then◌else◌, IsOk, OnOk, OnErr, IfOk};
ghost use Rattle.ir_base_arenas.specs.Arena.{IsLiveIn};
ghost use Rattle.ir_model.specs.declared.ids.ArenaIndex.{ArenaIndex};
ghost use Rattle.ir_core_records.specs.declared.record.UsePlace.{UsePlace as PlainPlace};
ghost use Rattle.ir_core_records.specs.Chains.{names_in};
ghost use Rattle.ir_core_records.specs.Links.{LinkedBut, NoHole, IsPlaced};
ghost use Rattle.ir_core_records.specs.Lists.{HaveDistinctUses};
ghost use Rattle.ir_core_records.specs.Meaning.{use_of};
ghost use Rattle.ir_core_chains.specs.Chain.{Rewrites};
ghost use Rattle.ir_core_replacing.specs.Chosen.{is_chosen, same_use};
ghost use Rattle.ir_core_replacing.specs.Renamed.{named_by, put_name, renamed, IsPlaceOf};

use crate::renames::Renames;
use crate::use_lists::{append_chosen, keep_others};
use ir_base_dialects::Dialects;
use ir_core_records::{KeptUse, Records, UseIndex, UseRank, Uses};
use std::alloc::{AllocError, Global};

// Lets one use name another definition: it goes to the end of the uses there, and of those that it leaves the last one moves into its place.
pub(crate) fn redirect_use<D: Dialects, N: Renames<D>>(
    records: &mut Records<D>,
    used: UseIndex,
    to: N,
) -> Result<(), AllocError>
    requires linked { LinkedBut NoHole (N.places_at records.old) (N.uses_at records.old) }
    requires has { IsPlaced (N.places_at records.old) used }
    requires named { N.IsNamed records.old to }
    ensures linked { LinkedBut NoHole (N.places_at records.new) (N.uses_at records.new) }
    ensures names { OnOk result ((o : ArenaIndex) → names_in (N.places_at records.new o) ≡ map (renamed (same_use (use_of used)) to o) (names_in (N.places_at records.old o))) }
    ensures rest { Rewrites N.with_places N.with_uses records.old records.new }
    ensures err { OnErr result (records.new ≡ records.old) }
    ensures itself { (a : PlainPlace N) → IsPlaceOf (N.places_at records.old) used a → a.names ≡ to → IsOk result }
{
    let (old, near) = N::place_of(records, used);
    if old.names.is_same(to) {
        return Ok(());
    }
    let place = N::push_use(records, to, used, near)?;
    N::rename_place(records, used, near, to, place);
    let Some(moved) = N::take_use(records, old.names, old.place) else {
        return Ok(());
    };
    N::rename_place(records, moved.used(), moved.near(), old.names, old.place);
    Ok(())
}

// Lets the place of a use, which was near an index once, name another definition, among whose uses the use stands at `place`.
fn rename_place<D: Dialects, N: Renames<D>>(
    records: &mut Records<D>,
    used: UseIndex,
    near: usize,
    names: N,
    place: usize,
)
    requires live { IsLiveIn records.old.ops used.user }
    requires distinct { HaveDistinctUses (N.places_at records.old used.user) }
    requires has { IsPlaced (N.places_at records.old) used }
    requires bound { place < 2 ^ 63 }
    ensures { records.new ≡ N.with_places records.old used.user (put_name (N.places_at records.old used.user) used.number names place) }
{
    N::rename_place(records, used, near, names, UseRank::new(place));
}

// Takes the uses of two definitions out: those of the first, and those of the second.
fn take_both<D: Dialects, N: Renames<D>>(
    records: &mut Records<D>,
    alloc: Global,
    from: N,
    to: N,
) -> (Uses, Uses)
    requires from { N.IsNamed records.old from }
    requires to { N.IsNamed records.old to }
    requires apart { ¬ (from ≡ to) }
    ensures records { records.new ≡ N.with_uses (N.with_uses records.old from []) to [] }
    ensures from { result.0 ≡ N.uses_at records.old from }
    ensures to { result.1 ≡ N.uses_at records.old to }
{
    let from_uses = N::replace_uses(records, from, Uses::new(alloc));
    let to_uses = N::replace_uses(records, to, Uses::new(alloc));
    (from_uses, to_uses)
}

// Keeps these uses of two definitions in place of those that were kept.
fn keep_both<D: Dialects, N: Renames<D>>(
    records: &mut Records<D>,
    from: N,
    from_uses: Uses,
    to: N,
    to_uses: Uses,
)
    requires from { N.IsNamed records.old from }
    requires to { N.IsNamed records.old to }
    ensures { records.new ≡ N.with_uses (N.with_uses records.old to to_uses) from from_uses }
{
    N::replace_uses(records, to, to_uses);
    N::replace_uses(records, from, from_uses);
}

// Makes a definition ready for these uses, and tells how many it will have. Where it has some, copies stand behind those. Where it has none, it takes the list itself once their places are renamed, which needs no memory.
fn make_ready<D: Dialects, N: Renames<D>>(
    records: &mut Records<D>,
    to: N,
    start: usize,
    moved: &[KeptUse],
) -> Result<usize, AllocError>
    requires named { N.IsNamed records.old to }
    requires start { start ≡ length (N.uses_at records.old to) }
    ensures end { IfOk result (λ end. end ≡ start + length moved.now) }
    ensures bound { IfOk result (λ end. end < 2 ^ 63) }
    ensures ready { OnOk result (records.new ≡ (if start == 0 then records.old else N.with_uses records.old to (N.uses_at records.old to ++ moved.now))) }
    ensures err { OnErr result (records.new ≡ records.old) }
{
    let end = start.saturating_add(moved.len());
    if !UseRank::is_valid(end) {
        return Err(AllocError);
    }
    if start > 0 {
        N::append_uses(records, to, moved)?;
    }
    Ok(end)
}

// Lets all uses of one definition name another, behind those of the other.
pub(crate) fn redirect_all<D: Dialects, N: Renames<D>>(
    records: &mut Records<D>,
    alloc: Global,
    from: N,
    to: N,
) -> Result<(), AllocError>
    requires linked { LinkedBut NoHole (N.places_at records.old) (N.uses_at records.old) }
    requires old { N.IsNamed records.old from }
    requires named { N.IsNamed records.old to }
    ensures linked { LinkedBut NoHole (N.places_at records.new) (N.uses_at records.new) }
    ensures names { OnOk result ((is_old : N → Bool) → ((v : N) → (is_old v ≡ true) ↔ (v ≡ from)) → (o : ArenaIndex) → names_in (N.places_at records.new o) ≡ map (named_by is_old to) (names_in (N.places_at records.old o))) }
    ensures rest { Rewrites N.with_places N.with_uses records.old records.new }
    ensures err { OnErr result (records.new ≡ records.old) }
    ensures itself { from ≡ to → IsOk result }
{
    if from.is_same(to) {
        return Ok(());
    }
    let moved = N::replace_uses(records, from, Uses::new(alloc));
    let start = N::use_count(records, to);
    let Ok(end) = make_ready::<D, N>(records, to, start, moved.as_slice()) else {
        N::replace_uses(records, from, moved);
        return Err(AllocError);
    };
    for index in start..end {
        let used = moved.at(index - start);
        rename_place::<D, N>(records, used.used(), used.near(), to, index);
    }
    if start > 0 {
        return Ok(());
    }
    N::replace_uses(records, to, moved);
    Ok(())
}

// Lets the uses of one definition whose answer is yes name another. The answers are in the order of the uses.
pub(crate) fn redirect_some<D: Dialects, N: Renames<D>>(
    records: &mut Records<D>,
    alloc: Global,
    from: N,
    to: N,
    answers: &[bool],
) -> Result<(), AllocError>
    requires linked { LinkedBut NoHole (N.places_at records.old) (N.uses_at records.old) }
    requires old { N.IsNamed records.old from }
    requires named { N.IsNamed records.old to }
    requires count { length answers.now ≡ length (N.uses_at records.old from) }
    ensures linked { LinkedBut NoHole (N.places_at records.new) (N.uses_at records.new) }
    ensures names { OnOk result ((o : ArenaIndex) → names_in (N.places_at records.new o) ≡ map (renamed (is_chosen (N.uses_at records.old from) answers.now) to o) (names_in (N.places_at records.old o))) }
    ensures rest { Rewrites N.with_places N.with_uses records.old records.new }
    ensures err { OnErr result (records.new ≡ records.old) }
    ensures itself { from ≡ to → IsOk result }
{
    if from.is_same(to) {
        return Ok(());
    }
    let (mut left, mut uses) = take_both::<D, N>(records, alloc, from, to);
    let start = uses.len();
    if append_chosen(&mut uses, left.as_slice(), answers).is_err() {
        keep_both::<D, N>(records, from, left, to, uses);
        return Err(AllocError);
    }
    let mut moved = 0;
    for (index, answer) in answers.iter().enumerate() {
        let used = left.at(index);
        if *answer {
            rename_place::<D, N>(records, used.used(), used.near(), to, start + moved);
            moved += 1;
        } else {
            rename_place::<D, N>(records, used.used(), used.near(), from, index - moved);
        }
    }
    keep_others(&mut left, answers);
    keep_both::<D, N>(records, from, left, to, uses);
    Ok(())
}
