//! Words of a lab for types, names, saved and auxiliary data, attributes, wrapped operations, deep nests and verification.
//!
//! It supports tests, and promises nothing but safety: no contract says what a call answers.
//!
//! A word is a group and a call with a point between them. Names are those of the lab's tables; a `PLACE` is a type's place in its context, from 0; `-` stands for what isn't there. Words that change are direct calls, and malformed in a session.
//!
//! - `type_words`: types of the dialect Toy, and what has a type.
//! - `name_words`: given names, ids and unique names of values and blocks.
//! - `saved_words`, `aux_words`: saved values, and auxiliary data with its names.
//! - `attr_words`: attributes of operations and blocks.
//! - `wrap_words`: operations under types of their own, and with their kinds.
//! - `verify_words`: what verification finds.
//! - `deep_words`: nests as deep as one likes.
//! - `small_words`, `judge_words`: types under types of their own, their handles, ids and verification over the small dialect.

mod asking;
mod attr_calls;
mod attr_words;
mod aux_words;
mod deep_words;
mod judge_words;
mod judged;
mod known_names;
mod name_words;
mod saved_words;
mod small_handles;
mod small_words;
mod telling;
mod type_words;
mod verify_words;
mod words;
mod wrap_words;

pub(crate) use words::answer;
