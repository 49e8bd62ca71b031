//! Texts and numbers as saved data of the dialect Toy.

ghost use Rattle.std.specs.Prelude.{Some, None};
ghost use Rattle.std.proofs.Common.{refl, rules};

use crate::toy::{Toy, ToySaved};
use ir_base_dialects::SavedValue;

impl SavedValue<Toy> for String {
    ghost use Rattle.toy_dialect.specs.declared.toy.ToySaved.TheVariants.{Text};

    ghost KIND = { 0 };

    const KIND: u32 = 0;

    ghost saved_of = { Text };

    ghost value_of = { elim [ Text t ↦ Some t | _ ↦ None ] };

    fn to_saved(self) -> ToySaved {
        ToySaved::Text(self)
    }

    fn of_saved(saved: &ToySaved) -> Option<&String> {
        match saved {
            ToySaved::Text(text) => Some(text),
            _ => None,
        }
    }

    ghost given_back = { λ a. refl };

    ghost of_kind = { Prim.search rules };

    ghost equal_saved = { λ a b. refl };
}

impl SavedValue<Toy> for u64 {
    ghost use Rattle.toy_dialect.specs.declared.toy.ToySaved.TheVariants.{U64};

    ghost KIND = { 1 };

    const KIND: u32 = 1;

    ghost saved_of = { U64 };

    ghost value_of = { elim [ U64 n ↦ Some n | _ ↦ None ] };

    fn to_saved(self) -> ToySaved {
        ToySaved::U64(self)
    }

    fn of_saved(saved: &ToySaved) -> Option<&u64> {
        match saved {
            ToySaved::U64(number) => Some(number),
            _ => None,
        }
    }

    ghost given_back = { λ a. refl };

    ghost of_kind = { Prim.search rules };

    ghost equal_saved = { λ a b. refl };
}

impl SavedValue<Toy> for i64 {
    ghost use Rattle.toy_dialect.specs.declared.toy.ToySaved.TheVariants.{I64};

    ghost KIND = { 2 };

    const KIND: u32 = 2;

    ghost saved_of = { I64 };

    ghost value_of = { elim [ I64 n ↦ Some n | _ ↦ None ] };

    fn to_saved(self) -> ToySaved {
        ToySaved::I64(self)
    }

    fn of_saved(saved: &ToySaved) -> Option<&i64> {
        match saved {
            ToySaved::I64(number) => Some(number),
            _ => None,
        }
    }

    ghost given_back = { λ a. refl };

    ghost of_kind = { Prim.search rules };

    ghost equal_saved = { λ a b. refl };
}
