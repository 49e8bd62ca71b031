//! Sessions go on: every edit has a step in every sound session, and what is closed can be erased.

ghost use Rattle.ir_model.specs.Forest.{Behaviour};
ghost use Rattle.ir_model.specs.Progress.{RoomIsEnough, SoundSessionsGoOn, RunsAreCounted, RunsGoOn, ClosedCanGo, ClosedAreErased};

/// In every sound session every edit has a step, with one answer or another, and where its condition holds and there is room, one that makes it. After every run from a new session what is gone can be counted, and every edit has a step.
pub fn sessions_go_on<Key, Body, Attr, Saved, Aux, Loc>()
    ensures made { (behaviour : Behaviour (record { Key = Key; Body = Body; Attr = Attr; Saved = Saved; Aux = Aux; Loc = Loc })) → RoomIsEnough _ behaviour }
    ensures steps { (behaviour : Behaviour (record { Key = Key; Body = Body; Attr = Attr; Saved = Saved; Aux = Aux; Loc = Loc })) → SoundSessionsGoOn _ behaviour }
    ensures counted { (behaviour : Behaviour (record { Key = Key; Body = Body; Attr = Attr; Saved = Saved; Aux = Aux; Loc = Loc })) → RunsAreCounted _ behaviour }
    ensures runs { (behaviour : Behaviour (record { Key = Key; Body = Body; Attr = Attr; Saved = Saved; Aux = Aux; Loc = Loc })) → RunsGoOn _ behaviour }
{}

/// What is closed has a removal that leaves the forest well formed, and a live operation, block or region that is closed can be erased, whatever is inside it.
pub fn closed_can_be_erased<Key, Body, Attr, Saved, Aux, Loc>()
    ensures removal { (behaviour : Behaviour (record { Key = Key; Body = Body; Attr = Attr; Saved = Saved; Aux = Aux; Loc = Loc })) → ClosedCanGo _ behaviour }
    ensures erased { (behaviour : Behaviour (record { Key = Key; Body = Body; Attr = Attr; Saved = Saved; Aux = Aux; Loc = Loc })) → ClosedAreErased _ behaviour }
{}
