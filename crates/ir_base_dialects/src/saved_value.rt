//! Types whose values a dialect can save.

ghost use Rattle.std.specs.Prelude.{◌≡◌, ℕ, Option, Some, is_some, nat_eq};
ghost use Rattle.std.specs.Option.{option_copied};

use crate::dialects::Dialects;

/// A type of saved values of one kind of the dialect.
pub trait SavedValue<D: Dialects>: Eq {
    ghost KIND: { ℕ };

    /// The kind.
    const KIND: u32;

    // What a value is saved as.
    ghost saved_of: { Self → D.Saved };

    // The value that was saved as this.
    ghost value_of: { D.Saved → Option Self };

    /// What this value is saved as.
    fn to_saved(self) -> D::Saved
        ensures { result ≡ saved_of self };

    /// The value that was saved as this, where its kind is this one.
    fn of_saved(saved: &D::Saved) -> Option<&Self>
        ensures { option_copied result ≡ value_of saved.now };

    // What a value is saved as gives it back.
    ghost given_back: { (a : Self) → value_of (saved_of a) ≡ Some a };

    // There is a value exactly where the kind is this one.
    ghost of_kind: { (x : D.Saved) → is_some (value_of x) ≡ nat_eq (D.saved_kind_of x) KIND };

    // Two values are equal exactly where what they are saved as is.
    ghost equal_saved: { (a b : Self) → D.Saved.eq (saved_of a) (saved_of b) ≡ Self.eq a b };
}
