//! What a merging of alike operations leaves.

ghost use Rattle.ir_model_passes.specs.PassLaws.{PartKeepsMeaning, BrokenOffKeepsMeaning, InsideBrokenOffKeepsMeaning, MergesAreCounted, MergeCommonTells, MergeInsideTells, MergesLeaveOrder, FrontToBackIsOne, FrontToBackMerges, WalkSteps, ReplacedIsClosed, SeenStaysSeen};

/// One merging in a block in order leaves it in order, and leaves all that stands before the operation that went as it was. Where operands moved back, each operation still names only what it may see.
pub fn merges_keep_order<Key, Body, Attr, Saved, Aux, Loc>()
    ensures in_block { MergesLeaveOrder (record { Key = Key; Body = Body; Attr = Attr; Saved = Saved; Aux = Aux; Loc = Loc }) }
    ensures seen { SeenStaysSeen (record { Key = Key; Body = Body; Attr = Attr; Saved = Saved; Aux = Aux; Loc = Loc }) }
{}

/// The list of a block is shorter by the operations that were merged. The answer about a block that may be out of order says which it was, and what is left; the count of all blocks inside a root is that of the operations that went, all of them from blocks inside it.
pub fn merges_are_counted<Key, Body, Attr, Saved, Aux, Loc>()
    ensures some { MergesAreCounted (record { Key = Key; Body = Body; Attr = Attr; Saved = Saved; Aux = Aux; Loc = Loc }) }
    ensures common { MergeCommonTells (record { Key = Key; Body = Body; Attr = Attr; Saved = Saved; Aux = Aux; Loc = Loc }) }
    ensures inside { MergeInsideTells (record { Key = Key; Body = Body; Attr = Attr; Saved = Saved; Aux = Aux; Loc = Loc }) }
{}

/// In a block in order one way from its front to its back merges all alike operations. Where the test of attributes is symmetric and transitive, that way has one outcome.
pub fn front_to_back_merges<Key, Body, Attr, Saved, Aux, Loc>()
    ensures all { FrontToBackMerges (record { Key = Key; Body = Body; Attr = Attr; Saved = Saved; Aux = Aux; Loc = Loc }) }
    ensures only { FrontToBackIsOne (record { Key = Key; Body = Body; Attr = Attr; Saved = Saved; Aux = Aux; Loc = Loc }) }
{}

/// A walk through a block in order, step by step: an operation is merged into an alike one that was kept, or is kept where none is alike; at the end all alike ones were merged. What was kept stays as it was, so whoever looks alike ones up need not look again.
pub fn walk_merges<Key, Body, Attr, Saved, Aux, Loc>()
    ensures steps { WalkSteps (record { Key = Key; Body = Body; Attr = Attr; Saved = Saved; Aux = Aux; Loc = Loc }) }
    ensures can_go { ReplacedIsClosed (record { Key = Key; Body = Body; Attr = Attr; Saved = Saved; Aux = Aux; Loc = Loc }) }
{}

/// A merging that is broken off before the operation goes leaves a well-formed forest in which each operation sees the values that it saw, where equal attributes give equal values. So do mergings of which the last one may have been broken off, in one block and in those inside a root.
pub fn part_keeps_meaning<Key, Body, Attr, Saved, Aux, Loc, V>()
    ensures one { PartKeepsMeaning (record { Key = Key; Body = Body; Attr = Attr; Saved = Saved; Aux = Aux; Loc = Loc }) V }
    ensures last { BrokenOffKeepsMeaning (record { Key = Key; Body = Body; Attr = Attr; Saved = Saved; Aux = Aux; Loc = Loc }) V }
    ensures inside { InsideBrokenOffKeepsMeaning (record { Key = Key; Body = Body; Attr = Attr; Saved = Saved; Aux = Aux; Loc = Loc }) V }
{}
