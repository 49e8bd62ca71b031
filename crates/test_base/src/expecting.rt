//! What the tests compare with, and texts of their own.

use std::alloc::Global;
use std::clone::Clone;
use std::fmt::{Debug, Display};
use std::process::Abort;

/// Asserts that what was found is what was expected.
pub(crate) fn expect_same<T: Copy + PartialEq + Drop>(rt: &impl Abort, found: T, expected: T) {
    assert!(rt; found == expected);
}

/// A text that owns its letters.
pub(crate) fn text(rt: &impl Abort, alloc: Global, letters: &str) -> String {
    String::from_str(alloc, letters).expect(rt, "memory")
}

/// Whether a value prints as this text.
pub(crate) fn prints<T: Display>(
    rt: &impl Abort,
    alloc: Global,
    value: &T,
    expected: &str,
) -> bool {
    format!(in alloc; "{value}").expect(rt, "memory").as_str() == expected
}

/// Whether a value is shown to who looks for faults as this text.
pub(crate) fn shows<T: Debug>(rt: &impl Abort, alloc: Global, value: &T, expected: &str) -> bool {
    format!(in alloc; "{value:?}").expect(rt, "memory").as_str() == expected
}

/// Whether a copy is equal to its value.
pub(crate) fn is_copied<T: Clone + Eq + Drop>(rt: &impl Abort, value: &T) -> bool {
    value.clone().expect(rt, "memory") == *value
}
