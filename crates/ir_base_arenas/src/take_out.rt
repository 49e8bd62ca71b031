//! Taking a value out of the place where it lies.

ghost use Rattle.std.specs.Prelude.{◌≡◌};

/// What can be taken out of its place, with all memory that it owns.
///
/// What is left in the place is a value that owns no memory, so that nothing is lost with it. No clause says what value it is.
pub trait TakeOut {
    /// The value, taken out of its place.
    fn take_out(&mut self) -> Self
        ensures { result ≡ self.old };
}

impl<T> TakeOut for Option<T> {
    fn take_out(&mut self) -> Option<T> {
        self.take()
    }
}

impl TakeOut for u64 {
    fn take_out(&mut self) -> u64 {
        *self
    }
}
