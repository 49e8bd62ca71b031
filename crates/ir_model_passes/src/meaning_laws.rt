//! What there is to keep: consistent assignments exist, and effects stay.

ghost use Rattle.ir_model_passes.specs.PassLaws.{AssignmentsExist, OthersStay};

/// Where plain operations don't use each other in a ring, any values of arguments and of other operations' results are completed to a consistent assignment.
pub fn assignments_exist<Key, Body, Attr, Saved, Aux, Loc, V>()
    ensures { AssignmentsExist (record { Key = Key; Body = Body; Attr = Attr; Saved = Saved; Aux = Aux; Loc = Loc }) V }
{}

/// Where no pure operation has regions, a right pass leaves all operations whose kind is not pure.
pub fn effects_stay<Key, Body, Attr, Saved, Aux, Loc>()
    ensures { OthersStay (record { Key = Key; Body = Body; Attr = Attr; Saved = Saved; Aux = Aux; Loc = Loc }) }
{}
