//! Laws of the calls that are no edits of a session: each changes what it names, and keeps a forest well formed.
//!
//! Each is the contract of a function that takes and does nothing, for every choice of a dialect's types.

ghost use Rattle.ir_model.specs.CallLaws.{CallsChangeOnePart, CallsKeepWellFormed, SetsOfUsesMove, SameDefinitionStays, MovedUsesAreListed};

/// A call that sets a value's type or name, a block's label, or the location or attributes of an operation or a block sets this, and changes nothing else.
pub fn calls_change_one_part<Key, Body, Attr, Saved, Aux, Loc>()
    ensures { CallsChangeOnePart (record { Key = Key; Body = Body; Attr = Attr; Saved = Saved; Aux = Aux; Loc = Loc }) }
{}

/// These calls keep a forest well formed, with a type that is known, and so does a set of uses that comes to name a live definition.
pub fn calls_keep_well_formed<Key, Body, Attr, Saved, Aux, Loc>()
    ensures { CallsKeepWellFormed (record { Key = Key; Body = Body; Attr = Attr; Saved = Saved; Aux = Aux; Loc = Loc }) }
{}

/// The uses of a set come to name a definition under their old numbers and at their old places, and all other uses stay as they are.
///
/// Uses that named it before stay as they are. The old definition keeps its uses outside the set, and the new one has its own and those of the set.
pub fn sets_of_uses_move<Key, Body, Attr, Saved, Aux, Loc>()
    ensures moved { SetsOfUsesMove (record { Key = Key; Body = Body; Attr = Attr; Saved = Saved; Aux = Aux; Loc = Loc }) }
    ensures same { SameDefinitionStays (record { Key = Key; Body = Body; Attr = Attr; Saved = Saved; Aux = Aux; Loc = Loc }) }
    ensures listed { MovedUsesAreListed (record { Key = Key; Body = Body; Attr = Attr; Saved = Saved; Aux = Aux; Loc = Loc }) }
{}
