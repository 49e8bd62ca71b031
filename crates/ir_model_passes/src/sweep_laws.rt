//! What a sweep of all inside a root leaves.

ghost use Rattle.ir_model_passes.specs.PassLaws.{SweepInsideIsOne, BlocksSweepInside, ErasesSweepInside};

/// What a sweep of all inside a root leaves is determined: the forest and the count. The forest is well formed, and no pure operation that is left inside the root is closed.
///
/// The last holds where the live entities can be listed.
pub fn sweep_inside_is_one<Key, Body, Attr, Saved, Aux, Loc>()
    ensures { SweepInsideIsOne (record { Key = Key; Body = Body; Attr = Attr; Saved = Saved; Aux = Aux; Loc = Loc }) }
{}

/// Closed pure operations inside a root that are erased one after the other, until none can go, are a sweep of the root; so are blocks inside it that are swept one after the other.
pub fn steps_sweep_inside<Key, Body, Attr, Saved, Aux, Loc>()
    ensures erases { ErasesSweepInside (record { Key = Key; Body = Body; Attr = Attr; Saved = Saved; Aux = Aux; Loc = Loc }) }
    ensures sweeps { BlocksSweepInside (record { Key = Key; Body = Body; Attr = Attr; Saved = Saved; Aux = Aux; Loc = Loc }) }
{}
