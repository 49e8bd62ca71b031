//! What the definitions say of a sweep: the law that the sweep's crate may take as given.

ghost use Rattle.ir_model.specs.Forest.{Behaviour};
ghost use Rattle.ir_model.specs.SweepLaws.{SweepIsOne, SessionsAreSwept};

/// What a sweep of a block leaves is determined: the forest and the count. The forest is well formed, and no pure operation that is left in the block is closed.
///
/// The last holds where the live operations can be listed, and so in every sound session.
pub fn sweep_is_one<Key, Body, Attr, Saved, Aux, Loc>()
    ensures one { (behaviour : Behaviour (record { Key = Key; Body = Body; Attr = Attr; Saved = Saved; Aux = Aux; Loc = Loc })) → SweepIsOne behaviour }
    ensures in_sessions { (behaviour : Behaviour (record { Key = Key; Body = Body; Attr = Attr; Saved = Saved; Aux = Aux; Loc = Loc })) → SessionsAreSwept behaviour }
{}
