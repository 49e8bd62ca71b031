//! Laws of the definitions: what holds of a session from its start and after every step.
//!
//! Each law is the contract of a function that takes and does nothing, for the types of any dialect and any behaviour of theirs.

ghost use Rattle.ir_model.specs.Forest.{Behaviour};
ghost use Rattle.ir_model.specs.OneOfEach.{EachCanBeMade, NewSessionsStep};
ghost use Rattle.ir_model.specs.Gone.{GoneForGood, ErasedAreGone};
ghost use Rattle.ir_model.specs.NamesDead.{DeadAreRefused};
ghost use Rattle.ir_model.specs.Soundness.{NewSessionsAreSound, StepsKeepSound, RunsKeepSound, RunsAreWellFormed};
ghost use Rattle.ir_model.specs.StepLaws.{ConditionIsTold, RefusedLeaveState, AllLeaveTheRest, ChangesAreOne, MovedHomeStays, VersionsRise};
ghost use Rattle.ir_model.specs.Uniquing.{RunsKeepUniqued, HandlesStay, OneHandle};

/// A session in which nothing is made yet is sound.
pub fn new_sessions_are_sound<Key, Body, Attr, Saved, Aux, Loc>()
    ensures { NewSessionsAreSound (record { Key = Key; Body = Body; Attr = Attr; Saved = Saved; Aux = Aux; Loc = Loc }) }
{}

/// Every step from a sound session, of any edit and with any answer, ends in a sound one.
pub fn steps_keep_sound<Key, Body, Attr, Saved, Aux, Loc>()
    ensures { (behaviour : Behaviour (record { Key = Key; Body = Body; Attr = Attr; Saved = Saved; Aux = Aux; Loc = Loc })) → StepsKeepSound _ behaviour }
{}

/// Every run from a sound session ends in a sound one, and so after every run from a new session the forest is well formed.
pub fn runs_keep_sound<Key, Body, Attr, Saved, Aux, Loc>()
    ensures sound { (behaviour : Behaviour (record { Key = Key; Body = Body; Attr = Attr; Saved = Saved; Aux = Aux; Loc = Loc })) → RunsKeepSound _ behaviour }
    ensures well_formed { (behaviour : Behaviour (record { Key = Key; Body = Body; Attr = Attr; Saved = Saved; Aux = Aux; Loc = Loc })) → RunsAreWellFormed _ behaviour }
{}

/// An id or a number that is gone is refused for good: no run makes it live again, what a run erased or removed is gone, and an edit that names it is refused for its condition.
pub fn gone_for_good<Key, Body, Attr, Saved, Aux, Loc>()
    ensures gone { (behaviour : Behaviour (record { Key = Key; Body = Body; Attr = Attr; Saved = Saved; Aux = Aux; Loc = Loc })) → GoneForGood _ behaviour }
    ensures erased { (behaviour : Behaviour (record { Key = Key; Body = Body; Attr = Attr; Saved = Saved; Aux = Aux; Loc = Loc })) → ErasedAreGone _ behaviour }
    ensures refused { (behaviour : Behaviour (record { Key = Key; Body = Body; Attr = Attr; Saved = Saved; Aux = Aux; Loc = Loc })) → DeadAreRefused _ behaviour }
{}

/// An edit of each kind can be made: a run from a new session leads to one that carries it out. In a new session itself every edit has a step, with one answer or another.
pub fn edits_can_be_made<Key, Body, Attr, Saved, Aux, Loc>()
    ensures steps { (behaviour : Behaviour (record { Key = Key; Body = Body; Attr = Attr; Saved = Saved; Aux = Aux; Loc = Loc })) → NewSessionsStep _ behaviour }
    ensures made { (behaviour : Behaviour (record { Key = Key; Body = Body; Attr = Attr; Saved = Saved; Aux = Aux; Loc = Loc })) → EachCanBeMade _ behaviour }
{}

/// Each single step tells whether the edit's condition held, and a refusal leaves the state as it was.
pub fn refusals_change_nothing<Key, Body, Attr, Saved, Aux, Loc>()
    ensures told { (behaviour : Behaviour (record { Key = Key; Body = Body; Attr = Attr; Saved = Saved; Aux = Aux; Loc = Loc })) → ConditionIsTold _ behaviour }
    ensures left { (behaviour : Behaviour (record { Key = Key; Body = Body; Attr = Attr; Saved = Saved; Aux = Aux; Loc = Loc })) → RefusedLeaveState _ behaviour }
    ensures rest { (behaviour : Behaviour (record { Key = Key; Body = Body; Attr = Attr; Saved = Saved; Aux = Aux; Loc = Loc })) → AllLeaveTheRest _ behaviour }
{}

/// What an edit leaves is settled by the ids and numbers that it made, and a region that is moved to its own operation stays where it is.
pub fn changes_are_settled<Key, Body, Attr, Saved, Aux, Loc>()
    ensures one { (behaviour : Behaviour (record { Key = Key; Body = Body; Attr = Attr; Saved = Saved; Aux = Aux; Loc = Loc })) → ChangesAreOne _ behaviour }
    ensures home { (behaviour : Behaviour (record { Key = Key; Body = Body; Attr = Attr; Saved = Saved; Aux = Aux; Loc = Loc })) → MovedHomeStays _ behaviour }
{}

/// No id comes twice: a new one has a higher version than each that its slot had before.
pub fn versions_rise<Key, Body, Attr, Saved, Aux, Loc>()
    ensures { VersionsRise (record { Key = Key; Body = Body; Attr = Attr; Saved = Saved; Aux = Aux; Loc = Loc }) }
{}

/// Type handles are exact: no run changes the type that one means, or stores a key twice, and so two whose types have one key are one.
pub fn handles_are_exact<Key, Body, Attr, Saved, Aux, Loc>()
    ensures uniqued { (behaviour : Behaviour (record { Key = Key; Body = Body; Attr = Attr; Saved = Saved; Aux = Aux; Loc = Loc })) → RunsKeepUniqued _ behaviour }
    ensures stay { (behaviour : Behaviour (record { Key = Key; Body = Body; Attr = Attr; Saved = Saved; Aux = Aux; Loc = Loc })) → HandlesStay _ behaviour }
    ensures one { (behaviour : Behaviour (record { Key = Key; Body = Body; Attr = Attr; Saved = Saved; Aux = Aux; Loc = Loc })) → OneHandle _ behaviour }
{}
