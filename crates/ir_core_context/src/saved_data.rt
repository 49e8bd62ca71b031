//! Saved data of a context: a list of distinct values, each known by its place.
//!
//! A crate above gives these calls the types of the values. No call changes the forest, the types or the auxiliary data.

ghost use Rattle.std.specs.Prelude.{◌≡◌, IfOk, IfErr, OnOk, OnErr, length, slice_get};
ghost use Rattle.std.specs.Option.{option_copied};
ghost use Rattle.ir_model.specs.Saved.{saved_place, with_saved};
ghost use Rattle.ir_model.specs.StoreLaws.{SavedApart};
ghost use Rattle.ir_core_context.specs.Calls.{SameButSide};
ghost use Rattle.ir_core_context.specs.State.{bare};
ghost use Rattle.ir_core_records.specs.DialectAnswers.{kinds_of};

use crate::context::Context;
use ir_base_dialects::{CoreError, Dialects};

impl<D: Dialects> Context<D> {
    /// The place of the saved value that is equal to this one; where there is none, this one is saved last.
    ///
    /// The value that came first stays, and the other is dropped. `OutOfMemory` comes only for a value that isn't saved yet, and changes nothing.
    pub fn save_value(&mut self, value: D::Saved) -> Result<usize, CoreError>
        ensures place { IfOk result (λ place. place ≡ saved_place (kinds_of D.Dialects D.Saved.eq) (bare self.old).beside value) }
        ensures saved { OnOk result ((bare self.new).beside ≡ with_saved (kinds_of D.Dialects D.Saved.eq) (bare self.old).beside value) }
        ensures rest { SameButSide (bare self.old) (bare self.new) }
        ensures memory { IfErr result (λ e. e ≡ CoreError.OutOfMemory) }
        ensures err { OnErr result (self.new ≡ self.old) }
        ensures only_new { OnErr result (saved_place (kinds_of D.Dialects D.Saved.eq) (bare self.old).beside value ≡ length (bare self.old).beside.saved) }
    {
        self.side.save(value)
    }

    /// The saved value at a place.
    pub fn saved_at(&self, place: usize) -> Option<&D::Saved>
        ensures { option_copied result ≡ slice_get (bare self.now).beside.saved place }
    {
        self.side.saved_at(place)
    }

    /// What holds of every context: no saved value is equal to an earlier one.
    pub fn recall_saved_apart(&self)
        ensures { SavedApart (kinds_of D.Dialects D.Saved.eq) (bare self.now).beside }
    {
        let _len = self.side.saved.len();
    }
}
