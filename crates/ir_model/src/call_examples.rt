//! What the definitions of the calls beside the edits say of small examples, each beside a neighbour that they refuse.

ghost use Rattle.ir_model.specs.CallRows.{SavedRows, BodyRows, HandleRows, DominanceRows, ParentRows, PredecessorRows, PartRows, AuxRows, VerifierRows, KeyRows};

/// The worked examples of the calls beside the edits hold.
///
/// An equal saved value is found, and one of another kind is another value. A body leaves keys and other bodies. Handles are refused by kind and by interface. The dialect is asked for dominance where the kind says so. An argument stands in its block. Predecessors stand in the order of the uses. A use that is chosen moves alone, and a type leaves the name. A name of auxiliary data outlives the data. The verifiers of an owner are its own. Of repeated keys the first place whose key stood earlier is told, with the place where it stood, and of different ones none.
pub fn call_rows()
    ensures saved { SavedRows }
    ensures bodies { BodyRows }
    ensures handles { HandleRows }
    ensures dominance { DominanceRows }
    ensures parents { ParentRows }
    ensures predecessors { PredecessorRows }
    ensures parts { PartRows }
    ensures aux { AuxRows }
    ensures verifiers { VerifierRows }
    ensures keys { KeyRows }
{}
