//! Texts as saved data of the dialect Generic.
ghost use Rattle.std.specs.Prelude.{Some};
ghost use Rattle.std.proofs.Common.{refl};

use crate::generic::{Generic, GenericSaved};
use ir_base_dialects::SavedValue;

impl SavedValue<Generic> for GenericSaved {
    ghost KIND = { 0 };

    const KIND: u32 = 0;

    ghost saved_of = { λ text. text };

    ghost value_of = { Some };

    fn to_saved(self) -> GenericSaved {
        self
    }

    fn of_saved(saved: &GenericSaved) -> Option<&GenericSaved> {
        Some(saved)
    }

    ghost given_back = { λ a. refl };

    ghost of_kind = { λ x. refl };

    ghost equal_saved = { λ a b. refl };
}
