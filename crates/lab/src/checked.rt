//! The checked calls, each by a line of text, for rows that say what it answers, and which call and which condition it tells where it isn't made.
//!
//! It supports tests, and promises nothing but safety: no contract says what a call answers.
//!
//! A word is `checked.` and the module and the name of a call, and its fields are the call's arguments in their order, without the context: names of the lab, or numbers. The answer is `done`, a number, names with single blanks between them, `-` for nothing, or the text of the `CheckedErr`; of a call that was made and refused for memory, numbers or slots, what other words say. Calls that change something are for contexts alone. What is made isn't entered.
//!
//! A call is an arm of the `match` for what its fields name, since the prover follows all that comes behind an early end twice, and an arm costs it little.

mod asks;
mod block_asks;
mod block_edits;
mod edits;
mod op_asks;
mod op_edits;
mod small_types;
mod told;
mod walked;
mod words;

pub(crate) use told::tell_edit;
pub(crate) use words::answer;
