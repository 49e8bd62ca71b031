//! A rewriter: operations put in at a point that moves on, moved, replaced and erased, and a driver that asks patterns of operations until none applies.
//!
//! `operation` has the calls that ask for their conditions, and `checked` the same under the same names with the conditions tested. `Inserter` carries a point. `Rewriter` carries one too, and notes what it changes. `rewrite` is the driver, which tells a `Listener`, and a `Pattern` is what it asks: one call, which needs no proof where it proves nothing.
#![tactic(auto)]

mod asking;
pub mod checked;
mod checks;
mod driver;
mod inserter;
mod items;
mod listener;
mod moving;
pub mod operation;
mod pattern;
mod point;
mod replacing;
mod rewriter;
mod worklist;

pub use driver::{End, Rewritten, rewrite};
pub use inserter::Inserter;
pub use listener::{DummyListener, Listener};
pub use pattern::{Both, Pattern};
pub use point::InsertionPoint;
pub use rewriter::{Change, Rewriter};
