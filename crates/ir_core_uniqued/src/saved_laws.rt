//! What holds of saved values, whatever their types.

ghost use Rattle.std.specs.Prelude.{◌≡◌, ◌≢◌, ◌↔◌, true, false};
ghost use Rattle.ir_model.specs.Sessions.{Beside};
ghost use Rattle.ir_core_records.specs.Meaning.{closed};
ghost use Rattle.ir_core_records.specs.DialectAnswers.{kinds_of};
ghost use Rattle.ir_core_uniqued.specs.Places.{ShareAPlace};

use ir_base_dialects::{Dialects, SavedValue};

/// Values of different kinds are never saved as equal ones.
pub fn kinds_are_never_equal<D: Dialects, T: SavedValue<D>, U: SavedValue<D>>()
    ensures { (a : T) (b : U) → T.KIND ≢ U.KIND → D.Saved.eq (T.saved_of a) (U.saved_of b) ≡ false }
{}

/// Two values that are saved one after the other have one place exactly where they are equal.
pub fn equal_keys_for_equal_values<D: Dialects, T: SavedValue<D>>()
    ensures { (beside : Beside (closed D.Attr D.TypeKey D.TypeBody D.Saved D.Aux D.Loc)) (a b : T) → ShareAPlace (kinds_of D.Dialects D.Saved.eq) beside (T.saved_of a) (T.saved_of b) ↔ (T.eq a b ≡ true) }
{}
