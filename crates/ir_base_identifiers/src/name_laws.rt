//! Laws of identifiers, names and ids. Each function takes and does nothing; its contract is the law.
ghost use Rattle.std.specs.Prelude.{◌≡◌, ◌↔◌, ◌++◌, ◌&&◌, ℕ, List};
ghost use Rattle.std.specs.Str.{bytes_eq};
ghost use Rattle.std.specs.Ordering.{nat_cmp};
ghost use Rattle.std.specs.Hash as fed;
ghost use Rattle.std.specs.Cmp.Lexicographic.{slice_cmp};
ghost use Rattle.ir_model.specs.Identifier.{IsIdentifier};
ghost use Rattle.ir_base_identifiers.specs.NameLaws.{FollowsRule};
ghost use Rattle.ir_base_identifiers.specs.declared.names.Id.{Id};

use crate::identifier::Identifier;
use crate::names::{Id, Name};
use std::cmp::{Ord, PartialEq};
use std::hash::Hash;

/// The identifiers are exactly the texts of `[a-zA-Z_][a-zA-Z0-9_]*`.
pub fn identifiers_follow_the_rule()
    ensures { (text : List ℕ) → IsIdentifier text ↔ FollowsRule text }
{}

/// An identifier followed by one is one.
pub fn joins_are_identifiers()
    ensures { (first second : List ℕ) → IsIdentifier first → IsIdentifier second → IsIdentifier (first ++ second) }
{}

/// Identifiers are equal, ordered and hashed as their texts are.
pub fn identifiers_compare_as_texts()
    ensures equality { (a b : List ℕ) → ⟦<Identifier as PartialEq>⟧.eq a b ≡ bytes_eq a b }
    ensures order { (a b : List ℕ) → ⟦<Identifier as Ord>⟧.cmp a b ≡ slice_cmp nat_cmp a b }
    ensures hash { (a : List ℕ) → ⟦<Identifier as Hash>⟧.hash_input a ≡ fed.str a }
{}

/// Names are equal and hashed as their texts are.
pub fn names_compare_as_texts<Of>()
    ensures equality { (a b : List ℕ) → ⟦<Name<Of> as PartialEq>⟧.eq a b ≡ bytes_eq a b }
    ensures hash { (a : List ℕ) → ⟦<Name<Of> as Hash>⟧.hash_input a ≡ fed.str a }
{}

/// Two ids are equal exactly where their dialects and their names are, and both are hashed.
pub fn ids_compare_as_pairs<Of>()
    ensures equality { (a b : Id Of) → ⟦<Id<Of> as PartialEq>⟧.eq a b ≡ (bytes_eq a.dialect b.dialect && bytes_eq a.name b.name) }
    ensures hash { (a : Id Of) → ⟦<Id<Of> as Hash>⟧.hash_input a ≡ fed.str a.dialect ++ fed.str a.name }
{}
