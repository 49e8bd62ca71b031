//! Edits and their answers as texts, over the dialect Toy: what tests that are tables are written in.
//!
//! It supports tests, and promises nothing but safety: no contract says what a call answers.
//!
//! An answer is `done`, `made` and the name of what was made, as `made o3`, or `refused condition`, `refused memory`, `refused counter` or `refused slots`.
//!
//! Names are those of the session's tables: `t0` is the first type, `o0` the first operation, and `b`, `r` and `v` are blocks, regions and values. `TYPES` and the like are names with single commas between them, or `-`. `AT` and `COUNT` are numbers. A `KEY` is the width of an integer type, or the name of a named one; a `KIND` is the number of a kind of operations; a `LABEL` is an identifier, or `-`. The edits, each named as `Edit` names it:
//!
//! - `new-type KEY`, `new-op KIND TYPES VALUES BLOCKS COUNT`, `new-block LABEL TYPES`, `add-region o0`
//! - `push-result o0 t0`, `insert-result o0 AT t0`, `remove-result o0 AT`
//! - `push-argument b0 t0`, `insert-argument b0 AT t0`, `remove-argument b0 AT`
//! - `push-operand o0 v0`, `insert-operand o0 AT v0`, `remove-operand o0 AT`, `replace-operand o0 AT v0`
//! - `push-successor o0 b0`, `insert-successor o0 AT b0`, `remove-successor o0 AT`, `replace-successor o0 AT b0`
//! - `replace-all-uses v0 v1`, `retarget-all b0 b1`
//! - `op-front o0 b0`, `op-back o0 b0`, `op-before o0 o1`, `op-after o0 o1`, `unlink-op o0`
//! - `block-front b0 r0`, `block-back b0 r0`, `block-before b0 b1`, `block-after b0 b1`, `unlink-block b0`
//! - `append-ops b0 b1`, `append-blocks r0 r1`, where the second is the donor; `move-region r0 o0`
//! - `drop-op-uses o0`, `drop-block-uses b0`, `drop-region-uses r0`, `erase-op o0`, `erase-block b0`, `erase-region o0 AT`
#![tactic(auto)]

mod answers;
mod edit_words;
mod edits;
mod error;
mod fields;

pub use answers::{answer_text, letter_of, write_answer};
pub use edit_words::{EDIT_WORDS, GROWING, grows, word_of};
pub use edits::{edit_of, parse_edit, parse_edits};
pub use error::TextError;
pub use fields::{number, take_field};
