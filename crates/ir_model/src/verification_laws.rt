//! What the definitions say of verification: worked examples, each beside a neighbour that the definitions refuse, and laws on what is told and on what is handed in.

ghost use Rattle.std.specs.Prelude.{List};
ghost use Rattle.ir_model.specs.ContextIds.{context_ids};
ghost use Rattle.ir_model.specs.Forest.{Behaviour, Forest};
ghost use Rattle.ir_model.specs.Edits.{StoredType};
ghost use Rattle.ir_model.specs.Kinds.{Kinds};
ghost use Rattle.ir_model.specs.VerifierLaws.{FaultsAreTold, Tests, tested, TestsDecide, KindsSettle};
ghost use Rattle.ir_model.specs.AnswerRows.{AnswerRows};
ghost use Rattle.ir_model.specs.VerifierRows.{VerifierRows};

/// The worked examples of verification hold: at each root what may be answered is exactly what is written.
///
/// A terminator that is not last is told alone where none is asked for, and beside a missing one where it is. Memory may run out where the name of a block would be told, or where a check that is run may run out, and nowhere else. The checks that are run are those of the operations, the attributes and the types that count at the root, by the numbers of their own kinds.
pub fn verification_rows()
    ensures answers { AnswerRows }
    ensures codes { VerifierRows }
{}

/// Each fault is told by one answer, and want of memory alone tells none.
pub fn faults_are_told()
    ensures { FaultsAreTold }
{}

/// What is told of a type or an attribute is told by its own check or by one of a number that is listed for its kind, and of a handle of one kind by the own check. Each check, also of an operation, answers what its own test says.
///
/// So for every choice of kinds, of lists, of tests that decide what a check may answer, and of what checks are shown.
pub fn kinds_settle<Key, Body, Attr, Saved, Aux, Loc, Shown>()
    ensures tests { (kinds : Kinds (record { Key = Key; Body = Body; Attr = Attr; Saved = Saved; Aux = Aux; Loc = Loc })) (tests : Tests _ Shown) (shown : Shown) → TestsDecide tests kinds shown }
    ensures kinds { (behaviour : Behaviour (record { Key = Key; Body = Body; Attr = Attr; Saved = Saved; Aux = Aux; Loc = Loc })) (kinds : Kinds _) (tests : Tests _ Shown) (shown : Shown) (f : Forest context_ids _) (store : List (StoredType _)) → KindsSettle behaviour kinds (tested tests) shown f store }
{}
