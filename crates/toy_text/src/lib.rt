//! How the dialect Toy is spelled in MLIR's generic textual form.
#![tactic(auto)]

mod toy_spelling;

pub use toy_spelling::ToySpelling;
