//! Laws about lists of verifiers, stores and dictionaries.
ghost use Rattle.std.specs.Prelude.{◌≡◌, ◌↔◌, ℕ, Bool, true, List, nat_eq, All, IsTrue};
ghost use Rattle.std.specs.List.{list_any};
ghost use Rattle.ir_model.specs.Edits.{place_of};
ghost use Rattle.ir_model.specs.Stores.{SameAttributes};
ghost use Rattle.ir_model.specs.VerifierLists.{first_places, joined, SupersFirst};

use crate::attribute_dict::AttributeDict;
use crate::dialects::Dialects;
use std::cmp::PartialEq;
use std::hash::Hash;

/// Where in each list that is handed in all supers of an item stand before it, they do in the deduplicated list of each owner.
pub fn supers_stay_first()
    ensures { (is_super : ℕ → ℕ → Bool) (entries : List (ℕ × List ℕ)) (owner : ℕ) → All (λ e. SupersFirst is_super e.1) entries → SupersFirst is_super (first_places nat_eq (joined entries owner)) }
{}

/// Two values, of which the first is in the store, have one place exactly where they are equal.
pub fn equal_places_for_equal_values<T: Eq>()
    ensures { (values : List T) (a b : T) → list_any (λ kept. T.eq kept a) values ≡ true → (place_of T.eq values a ≡ place_of T.eq values b) ↔ IsTrue (T.eq a b) }
{}

/// Dictionaries of attributes are equal exactly where each key leads to equal attributes in both, or to none in both.
pub fn dictionaries_compare_by_keys<D: Dialects>()
    ensures { (d e : List (List ℕ × D.Attr)) → IsTrue (⟦<AttributeDict<D> as PartialEq>⟧.eq d e) ↔ SameAttributes D.Attr.eq d e }
{}

/// Equal dictionaries of attributes hash equally, in whatever order they were filled.
pub fn equal_dictionaries_hash_equally<D: Dialects>()
    ensures { (d e : List (List ℕ × D.Attr)) → IsTrue (⟦<AttributeDict<D> as PartialEq>⟧.eq d e) → ⟦<AttributeDict<D> as Hash>⟧.hash_input d ≡ ⟦<AttributeDict<D> as Hash>⟧.hash_input e }
{}
