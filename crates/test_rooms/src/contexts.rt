//! How the tests compare.

use std::process::Abort;

/// Asserts that what was told is what was wanted; `what` says of what. A function that calls this has one way to its end, where an assertion of its own would be one more way, and is proved in less time.
pub(crate) fn expect_same<T: PartialEq + Drop>(rt: &impl Abort, told: T, wanted: T, what: &str) {
    assert!(rt; told == wanted, "{what}");
}
