//! What the definitions say of small sessions, written out: further worked examples, each beside a neighbour that the definitions refuse.

ghost use Rattle.ir_model.specs.OwnCheckRows.{TypeFault, OwnCheck};
ghost use Rattle.ir_model.specs.ViewRows.{SmallView};
ghost use Rattle.ir_model.specs.HostileRows.{HostileEdits, EraseInnerSuccessor};
ghost use Rattle.ir_model.specs.LetterRows.{LegaliseFirstLetters, LegaliseCounterSpent};
ghost use Rattle.ir_model.specs.MovedUseRows.{ReplaceAll, RemovedOperand, TwoResultsMoved, AskedBefore};

/// The view of a small session is what is written out, with each record, each erased entry and a type that is listed twice.
///
/// The views of its neighbours are others: operands, successors, regions, operations or blocks in another order, another type, an entry that is not erased.
pub fn views_show_all()
    ensures small_view { SmallView }
{}

/// Uses go where the edits say, and keep their numbers or get new ones as the edits say.
///
/// All uses of a value are replaced, an operand is removed from before others, two results change places one by one, and a set of uses is asked of the state before it is redirected.
pub fn uses_move_as_told()
    ensures replace_all { ReplaceAll }
    ensures removed_operand { RemovedOperand }
    ensures two_results_moved { TwoResultsMoved }
    ensures asked_before { AskedBefore }
{}

/// Edits that would break a forest are refused for their condition, and each is allowed in a neighbour.
///
/// A block that only an operation inside it names can be erased, and both go.
pub fn hostile_edits_are_refused()
    ensures hostile_edits { HostileEdits }
    ensures erase_inner_successor { EraseInnerSuccessor }
{}

/// Identifiers start with the letters that may start one, and a legaliser that has no number left gives no name.
pub fn identifiers_are_given_by_letters()
    ensures first_letters { LegaliseFirstLetters }
    ensures counter_spent { LegaliseCounterSpent }
{}

/// The own check of a type, or of an operation, is at fault where it says so, and nothing else is.
///
/// A type that is made twice is stored once, and a result of it has its faults.
pub fn own_checks_tell()
    ensures type_fault { TypeFault }
    ensures own_check { OwnCheck }
{}
