//! What holds of the handles that callers keep over whole runs.

ghost use Rattle.ir_model.specs.Forest.{Behaviour};
ghost use Rattle.ir_model.specs.GoneHandles.{RunsKeepNumbers, RefusedForGood};

/// A handle that was refused once is refused for good: a use number never goes to another operation, nor from an operand to a successor, and a value number never to another operation or block.
pub fn handles_stay_refused<Key, Body, Attr, Saved, Aux, Loc>()
    ensures numbers { (behaviour : Behaviour (record { Key = Key; Body = Body; Attr = Attr; Saved = Saved; Aux = Aux; Loc = Loc })) → RunsKeepNumbers _ behaviour }
    ensures refused { (behaviour : Behaviour (record { Key = Key; Body = Body; Attr = Attr; Saved = Saved; Aux = Aux; Loc = Loc })) → RefusedForGood _ behaviour }
{}
