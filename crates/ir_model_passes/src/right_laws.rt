//! Why the passes are right: whatever pure operations give, each operation that stays sees the values that it saw.

ghost use Rattle.ir_model_passes.specs.PassLaws.{SweepIsRight, SweepInsideIsRight, MergesAreRight, MergeCommonIsRight, MergeInsideIsRight, NothingIsRight, RightKeepsOrder, RightPassesFollow};

/// A sweep of a block is right, and so is one of all inside a root.
pub fn sweeps_are_right<Key, Body, Attr, Saved, Aux, Loc, V>()
    ensures of_a_block { SweepIsRight (record { Key = Key; Body = Body; Attr = Attr; Saved = Saved; Aux = Aux; Loc = Loc }) V }
    ensures inside { SweepInsideIsRight (record { Key = Key; Body = Body; Attr = Attr; Saved = Saved; Aux = Aux; Loc = Loc }) V }
{}

/// Where equal attributes give equal values, mergings in a block are right, whether all or some of its alike operations were merged. So is what is done in a block that may be out of order, and in each block inside a root.
pub fn merges_are_right<Key, Body, Attr, Saved, Aux, Loc, V>()
    ensures some { MergesAreRight (record { Key = Key; Body = Body; Attr = Attr; Saved = Saved; Aux = Aux; Loc = Loc }) V }
    ensures common { MergeCommonIsRight (record { Key = Key; Body = Body; Attr = Attr; Saved = Saved; Aux = Aux; Loc = Loc }) V }
    ensures inside { MergeInsideIsRight (record { Key = Key; Body = Body; Attr = Attr; Saved = Saved; Aux = Aux; Loc = Loc }) V }
{}

/// Right passes that follow one another are one right pass, and to change nothing is right. A right pass leaves each block in order that was.
pub fn right_passes_follow<Key, Body, Attr, Saved, Aux, Loc, V>()
    ensures follow { RightPassesFollow (record { Key = Key; Body = Body; Attr = Attr; Saved = Saved; Aux = Aux; Loc = Loc }) V }
    ensures nothing { NothingIsRight (record { Key = Key; Body = Body; Attr = Attr; Saved = Saved; Aux = Aux; Loc = Loc }) V }
    ensures order { RightKeepsOrder (record { Key = Key; Body = Body; Attr = Attr; Saved = Saved; Aux = Aux; Loc = Loc }) V }
{}
