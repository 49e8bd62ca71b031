//! The uses of two definitions, while some go from one list to the other.

ghost use Rattle.std.specs.Prelude.{◌≡◌, ◌+◌, ◌<◌, ◌≤◌, ◌^◌, ◌++◌, ◌∷◌, [], length, set, slice_get, Some, is_ok, if◌then◌else◌, IsOk};
ghost use Rattle.ir_core_records.specs.declared.record.UseIndex.{UseIndex as PlainUse};
ghost use Rattle.ir_core_replacing.specs.Chosen.{chosen, left_out};

use ir_base_dialects::Plain;
use ir_core_records::{KeptUse, UseRank, Uses};
use std::alloc::AllocError;

// Puts a use behind the others, if it is to be there.
fn push_if(uses: &mut Uses, used: &KeptUse, answer: bool) -> Result<(), AllocError>
    ensures { uses.new ≡ (if is_ok result then uses.old ++ (if answer then used.now ∷ [] else []) else uses.old) }
{
    if answer {
        uses.push(used.copied())
    } else {
        Ok(())
    }
}

// Puts the uses whose answer is yes behind the others: all or none. There is a place for each use then.
pub(crate) fn append_chosen(
    uses: &mut Uses,
    from: &[KeptUse],
    answers: &[bool],
) -> Result<(), AllocError>
    requires { length answers.now ≡ length from.now }
    ensures uses { uses.new ≡ (if is_ok result then uses.old ++ chosen from.now answers.now else uses.old) }
    ensures size { IsOk result → length uses.new < 2 ^ 63 }
    ensures count { IsOk result → length answers.now < 2 ^ 63 }
{
    let start = uses.len();
    for (index, used) in from.iter().enumerate() {
        if push_if(uses, used, answers[index]).is_err() {
            uses.truncate(start);
            return Err(AllocError);
        }
    }
    if !UseRank::is_valid(uses.len()) || !UseRank::is_valid(answers.len()) {
        uses.truncate(start);
        return Err(AllocError);
    }
    Ok(())
}

// Puts the use at an index down at the end of those that are kept, if it is to be kept. Answers how many those are then.
fn put_down(uses: &mut Uses, kept: usize, index: usize, answer: bool) -> usize
    requires kept { kept ≤ index }
    requires within { index < length uses.old }
    ensures uses { (u : PlainUse) → slice_get uses.old index ≡ Some u → uses.new ≡ (if answer then uses.old else set uses.old kept u) }
    ensures kept { result ≡ (if answer then kept else kept + 1) }
{
    if answer {
        return kept;
    }
    let used = uses.at(index).copied();
    *uses.at_mut(kept) = used;
    // Its contract tells that so many can be counted.
    let _end = uses.len();
    kept + 1
}

// Takes the uses out whose answer is yes. The others close up.
pub(crate) fn keep_others(uses: &mut Uses, answers: &[bool])
    requires { length answers.now ≡ length uses.old }
    ensures { uses.new ≡ left_out uses.old answers.now }
{
    let mut kept = 0;
    for (index, answer) in answers.iter().enumerate() {
        kept = put_down(uses, kept, index, *answer);
    }
    uses.truncate(kept);
}
