//! What a lab is asked by lines of text: operations, blocks, regions, values, uses, lists, and what stands in what.
//!
//! It supports tests, and promises nothing but safety: no contract says what a call answers.
//!
//! An answer is pairs of a name and what is read under it, with single blanks between them; `-` stands for nothing. Of what isn't live the text of the fault is answered. `words` has the words, and the function of each says what its fields and its answer are.
//!
//! The fields of a line are read before its word, and a piece of an answer is written by a call that answers nothing: so there are no early ends, since the prover follows all that comes behind one twice.

mod blocks;
mod lists;
mod nesting;
mod ops;
mod parts;
mod strange;
mod taking;
mod uses;
mod values;
mod walks;
mod words;

pub(crate) use words::answer;
