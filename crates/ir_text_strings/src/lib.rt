//! Texts between quotes: the bytes that they stand for.
#![tactic(auto)]

mod escapes;
mod unescaping;

pub use unescaping::{extend_unescaped, has_escapes, unescaped, unescaped_len};
