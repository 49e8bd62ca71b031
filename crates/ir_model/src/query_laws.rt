//! Laws of what is asked of blocks, values, regions and handles: each question has one answer.
//!
//! Each is the contract of a function that takes and does nothing, for every choice of a dialect's types.

ghost use Rattle.ir_model.specs.QueryLaws.{PredecessorsFollowUses, ParentsOfValues, DominanceIsTold, HandlesAreRefused, ValuesAreTold, KeysKeepTheirKind};

/// By one list of the uses of a block there is one list of its predecessors, which has the block of each user at the place of its use.
///
/// In whatever order, these are the blocks some operation of which names the block, and there is one exactly where it has a use.
pub fn predecessors_follow_uses<Key, Body, Attr, Saved, Aux, Loc>()
    ensures { PredecessorsFollowUses (record { Key = Key; Body = Body; Attr = Attr; Saved = Saved; Aux = Aux; Loc = Loc }) }
{}

/// An argument's parent block is its block, a result's is that of its operation, and the parent region of a value is that of its parent block.
pub fn parents_of_values<Key, Body, Attr, Saved, Aux, Loc>()
    ensures { ParentsOfValues (record { Key = Key; Body = Body; Attr = Attr; Saved = Saved; Aux = Aux; Loc = Loc }) }
{}

/// A live value has one type, which is known, and was given one name or none, which is what its unique name is made of.
pub fn values_are_told<Key, Body, Attr, Saved, Aux, Loc>()
    ensures { ValuesAreTold (record { Key = Key; Body = Body; Attr = Attr; Saved = Saved; Aux = Aux; Loc = Loc }) }
{}

/// Each live region has one answer to whether it has SSA dominance: yes where the kind of its operation does not ask the dialect.
pub fn dominance_is_told<Key, Body, Attr, Saved, Aux, Loc>()
    ensures { DominanceIsTold (record { Key = Key; Body = Body; Attr = Attr; Saved = Saved; Aux = Aux; Loc = Loc }) }
{}

/// A handle for a kind or for an interface is refused exactly where the type's kind is another one, or does not implement the interface. A handle that a key is given is of the key's kind, and stays so.
pub fn handles_are_refused<Key, Body, Attr, Saved, Aux, Loc>()
    ensures made { KeysKeepTheirKind (record { Key = Key; Body = Body; Attr = Attr; Saved = Saved; Aux = Aux; Loc = Loc }) }
    ensures refused { HandlesAreRefused (record { Key = Key; Body = Body; Attr = Attr; Saved = Saved; Aux = Aux; Loc = Loc }) }
{}
