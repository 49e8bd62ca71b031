//! What is left when the unreached blocks of a region are removed.

ghost use Rattle.ir_model_passes.specs.PassLaws.{UnreachedRemovalIsOne, StepsRemoveUnreached};

/// What a removal of the unreached blocks of a region leaves is determined: the forest, and how many blocks went. No reached block went, none that is left is unreached, each operation sees the values that it saw, and no operand moved. The forest is well formed where what names a definition inside an unreached block is inside one.
pub fn unreached_removal_is_one<Key, Body, Attr, Saved, Aux, Loc, V>()
    ensures { UnreachedRemovalIsOne (record { Key = Key; Body = Body; Attr = Attr; Saved = Saved; Aux = Aux; Loc = Loc }) V }
{}

/// Unreached blocks of a region that lose their uses and are erased, in any order, until none is left, are removed.
pub fn steps_remove_unreached<Key, Body, Attr, Saved, Aux, Loc>()
    ensures { StepsRemoveUnreached (record { Key = Key; Body = Body; Attr = Attr; Saved = Saved; Aux = Aux; Loc = Loc }) }
{}
