//! The uses of one definition: one more is put at the end, and of one that is taken out the last one takes the place.

ghost use Rattle.std.specs.Prelude.{◌≡◌, ◌<◌, ◌++◌, ◌∷◌, [], length, is_ok, IfOk, if◌then◌else◌, slice_get};
ghost use Rattle.std.specs.List.{swap_remove};
ghost use Rattle.ir_core_records.specs.declared.record.UseIndex.{UseIndex as PlainUse};

use ir_base_dialects::Plain;
use ir_core_records::{KeptUse, UseIndex, UseRank, Uses};
use std::alloc::AllocError;

// Puts a use whose place stands at about this index at the end, and tells where it stands itself.
#[inline(always)]
pub(crate) fn push_use(uses: &mut Uses, new: UseIndex, near: usize) -> Result<UseRank, AllocError>
    ensures uses { uses.new ≡ (if is_ok result then uses.old ++ new ∷ [] else uses.old) }
    ensures place { IfOk result (λ place. place ≡ length uses.old) }
{
    let place = uses.len();
    if !UseRank::is_valid(place) {
        return Err(AllocError);
    }
    uses.push(KeptUse::new(new, near))?;
    Ok(UseRank::new(place))
}

// Takes the use at a place out. The last one moves there, and is given back.
#[inline(always)]
pub(crate) fn take_use(uses: &mut Uses, place: UseRank) -> Option<KeptUse>
    requires { place < length uses.old }
    ensures uses { (past : PlainUse) → uses.new ≡ swap_remove uses.old place past }
    ensures moved { result ≡ slice_get uses.new place }
{
    let place = place.get();
    uses.swap_remove(place);
    match uses.get(place) {
        Some(moved) => Some(moved.copied()),
        None => None,
    }
}
