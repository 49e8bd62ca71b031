//! What the definitions say of small forests: worked examples, each beside neighbours that the definitions refuse.

ghost use Rattle.ir_model_passes.specs.Meaning.{Interpretation};
ghost use Rattle.ir_model_passes.specs.MarkedForests.{marked};
ghost use Rattle.ir_model_passes.specs.WrongPasses.{WrongPasses};
ghost use Rattle.ir_model_passes.specs.MeaningRows.{ConsistentRows};
ghost use Rattle.ir_model_passes.specs.MergeRows.{AlikeRows, MergeRows, MoveRows, OrderRows};
ghost use Rattle.ir_model_passes.specs.KeptRows.{KeptRows};
ghost use Rattle.ir_model_passes.specs.SweepRows.{SweepRows};
ghost use Rattle.ir_model_passes.specs.UnreachedRows.{UnreachedRows};

/// Four wrong passes: each lacks one of the four points of a right pass, has the other three, and is not right.
///
/// A pure operation goes that is still named; an operation with an effect goes; operations with different attributes are merged; an operation is merged into a later one, with its user in between.
pub fn wrong_passes_are_refused<V>()
    ensures { (gives : Interpretation marked V) → WrongPasses gives }
{}

/// What a consistent assignment is, told by small blocks.
///
/// A result of a plain operation has what the kind, the attributes, the values of the operands, the types of all results and its place give, each told by itself. Nothing is asked of results of operations with effects, regions or successors, and nothing else of those of plain ones.
pub fn small_meanings_are_told<V>()
    ensures { (gives : Interpretation marked V) → ConsistentRows gives }
{}

/// The worked examples of passes hold.
///
/// Each part in which two operations have to agree, or that keeps them from being plain, is told by two operations that differ in it alone. So is each part that a pass has to keep of what stays. A merging is told from six that are none, a dead operation from those that are named outside or stand around it, a reached block from one that nothing reaches.
pub fn small_passes_are_told()
    ensures alike { AlikeRows }
    ensures merges { MergeRows }
    ensures moves { MoveRows }
    ensures order { OrderRows }
    ensures kept { KeptRows }
    ensures sweeps { SweepRows }
    ensures unreached { UnreachedRows }
{}
