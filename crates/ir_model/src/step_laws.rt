//! What the answer of a single step tells, by the table of the edits.

ghost use Rattle.ir_model.specs.Forest.{Behaviour};
ghost use Rattle.ir_model.specs.StepTells.{CounterIsTold, SlotsAreTold, OthersAreMade, OnlyGrowthIsRefused, MadePassExactly, MadePassWhatTheyMake, RefusedPassAtMost, ConditionLeavesAll};

/// What a step tells: a counter is spent exactly where numbers lack, slots exactly where only these lack, and else the edit is answered as the table says, or refused for memory where it may grow.
///
/// An edit that is made passes exactly as many ids and numbers as its line of the table says, and those that it makes, and a refused one no more; one that is refused for its condition passes none.
pub fn steps_tell<Key, Body, Attr, Saved, Aux, Loc>()
    ensures counter { (behaviour : Behaviour (record { Key = Key; Body = Body; Attr = Attr; Saved = Saved; Aux = Aux; Loc = Loc })) → CounterIsTold _ behaviour }
    ensures slots { (behaviour : Behaviour (record { Key = Key; Body = Body; Attr = Attr; Saved = Saved; Aux = Aux; Loc = Loc })) → SlotsAreTold _ behaviour }
    ensures made { (behaviour : Behaviour (record { Key = Key; Body = Body; Attr = Attr; Saved = Saved; Aux = Aux; Loc = Loc })) → OthersAreMade _ behaviour }
    ensures memory { (behaviour : Behaviour (record { Key = Key; Body = Body; Attr = Attr; Saved = Saved; Aux = Aux; Loc = Loc })) → OnlyGrowthIsRefused _ behaviour }
    ensures passed { (behaviour : Behaviour (record { Key = Key; Body = Body; Attr = Attr; Saved = Saved; Aux = Aux; Loc = Loc })) → MadePassExactly _ behaviour }
    ensures listed { (behaviour : Behaviour (record { Key = Key; Body = Body; Attr = Attr; Saved = Saved; Aux = Aux; Loc = Loc })) → MadePassWhatTheyMake _ behaviour }
    ensures skipped { (behaviour : Behaviour (record { Key = Key; Body = Body; Attr = Attr; Saved = Saved; Aux = Aux; Loc = Loc })) → RefusedPassAtMost _ behaviour }
    ensures condition { (behaviour : Behaviour (record { Key = Key; Body = Body; Attr = Attr; Saved = Saved; Aux = Aux; Loc = Loc })) → ConditionLeavesAll _ behaviour }
{}
