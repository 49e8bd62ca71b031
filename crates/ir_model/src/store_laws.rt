//! Laws of what a context keeps beside the forest: saved data, auxiliary data, bodies of types, attribute dictionaries, and lists of verifiers.
//!
//! Each is the contract of a function that takes and does nothing, for every choice of a dialect's types.

ghost use Rattle.ir_model.specs.StoreLaws.{SavedAreExact, AuxIsKept, BodiesAreSet, DictionariesKeepOrder, OwnersStayApart};

/// A value that is saved is found at its place: an equal one is kept, else it goes last, and what was saved before stays where it was. Two values have one place exactly where they are equal, so values of two kinds never have.
pub fn saved_are_exact<Key, Body, Attr, Saved, Aux, Loc>()
    ensures { SavedAreExact (record { Key = Key; Body = Body; Attr = Attr; Saved = Saved; Aux = Aux; Loc = Loc }) }
{}

/// Auxiliary data goes under an index that was never handed out; its removal leaves the names, and a name that is given leads to its new index. What is live was handed out, and what is gone stays gone.
pub fn aux_is_kept<Key, Body, Attr, Saved, Aux, Loc>()
    ensures { AuxIsKept (record { Key = Key; Body = Body; Attr = Attr; Saved = Saved; Aux = Aux; Loc = Loc }) }
{}

/// A body that is set changes no key, no other body and no place of a key.
pub fn bodies_are_set<Key, Body, Attr, Saved, Aux, Loc>()
    ensures { BodiesAreSet (record { Key = Key; Body = Body; Attr = Attr; Saved = Saved; Aux = Aux; Loc = Loc }) }
{}

/// An attribute that is set is found, a key that is there keeps its place and a new one goes last. An attribute that is taken out is not found, and the rest keep their order.
pub fn dictionaries_keep_order<Attr>()
    ensures { DictionariesKeepOrder Attr }
{}

/// Each owner that has an entry stands once among the deduplicated lists, with exactly the verifiers of its own entries.
pub fn owners_stay_apart()
    ensures { OwnersStayApart }
{}
