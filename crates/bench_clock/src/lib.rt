//! What a program that times calls needs beside them: a clock, the times of several runs, and what they are by unit.
//!
//! Nothing is promised but safety.
#![tactic(auto)]

mod outcome;
mod report;

pub use outcome::{Outcome, Stopwatch, mix};
pub use report::{ByUnit, Timing, peak_memory};
