//! Laws of kinds. Each function takes and does nothing; its contract is the law.
ghost use Rattle.std.specs.Prelude.{◌≡◌, ◌<◌, ◌^◌, ℕ, Some, false, true};
ghost use Rattle.generic_dialect.specs.Kinds.{kind_of, number_of, IsKind};
ghost use Rattle.generic_dialect.specs.Implemented.{implements};
ghost use Rattle.generic_dialect.specs.declared.kinds.Kind.{Kind};

use generic_table::laws::pure_operations_are_safe;

/// A number stands for one kind, and a kind that has a number has one alone.
pub fn kinds_and_numbers()
    ensures there { (number : ℕ) → number < 2 ^ 32 → number_of (kind_of number) ≡ Some number }
    ensures back { (kind : Kind) (number : ℕ) → IsKind kind → number_of kind ≡ Some number → kind_of number ≡ kind }
{}

/// A kind that is pure ends no block.
pub fn pure_kinds_are_safe()
    ensures { (kind : ℕ) → implements kind 6 ≡ true → implements kind 1 ≡ false }
{
    pure_operations_are_safe();
}
