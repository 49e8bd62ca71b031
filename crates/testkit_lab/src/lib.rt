//! A session or a context that is edited and asked by lines of text, so that tests are tables: its state, the names in its lines, and the words that change it.
//!
//! It supports tests, and promises nothing but safety: no contract says what a call answers.
//!
//! Beside the context over the dialect Toy a lab keeps one over a small dialect, whose types and attributes are numbers (`small_dialect`), with a forest over it (`marked`) and a judge whose checks each answer a code of their own (`judge`): what tests of verification stand on.
//!
//! Each line is a word and its fields, with single blanks between them, and is given an answer. Names are those of tables: `t0` is the first type, `o0` the first operation, `b`, `r` and `v` are blocks, regions and values, `a` indices of auxiliary data and `s` what was saved, and `u` and `w` are uses of values and of blocks, which are entered where a word takes them.
//!
//! - `begin session` and `begin context`, with the four limits `VALUES USES SLOTS VERSION` or without: all begins anew. In a session each edit is a run of its own; in a context it is a direct call.
//! - The edits, as `testkit_edit_texts` writes and answers them.
//! - `run EDIT ; EDIT ..`: in a session alone, all of these edits in one run. Their answers stand with ` ; ` between them.
//! - `dump`: a line for each entry of the tables, each behind two spaces, as `dumps` writes them.
//! - Questions: `room`, how many numbers and slots are left; `is-empty`, whether there is no operation, block and region.
//! - In a context alone, the words of the group `edit`: direct calls that are no edits of a session. `edit_words` has them, each with its fields and its answer.
#![tactic(auto)]

mod beside;
mod context_edits;
mod dump_parts;
mod dump_uses;
mod dumps;
mod edit_words;
mod entering;
mod fields;
mod finding;
mod items;
mod judge;
mod lab;
mod marked;
mod naming;
mod places;
mod questions;
mod redirecting;
mod reply;
mod runs;
mod setting;
mod settled_edits;
mod small_attributes;
mod small_dialect;
mod small_error;
mod small_lab;
mod small_op;
mod small_types;
mod tables;
mod telling;
mod toy_ops;
mod words;

pub use beside::{Beside, Saved};
pub use edit_words::answer_edit;
pub use fields::{count, one, three, two};
pub use items::{Item, Items, items_of, type_of};
pub use judge::Judge;
pub use lab::{Lab, Mode, asked};
pub use marked::{MarkedForest, MarkedTypes, argument_of, make_marked, result_of};
pub use naming::{Line, Name, Named, Placed, name_of};
pub use reply::Reply;
pub use small_attributes::{MarkedAttr, PlainAttr};
pub use small_dialect::{Small, SmallAttr, SmallType};
pub use small_error::LabErr;
pub use small_lab::SmallLab;
pub use small_op::InnerOp;
pub use small_types::{CompoundInterface, ListedType, PairType, SizedInterface, SizedType};
pub use tables::{NOWHERE, number_in};
pub use telling::{tell_condition, tell_done, tell_name, tell_number, tell_refused};
pub use testkit_edit_texts::{TextError, number, take_field};
pub use toy_ops::{Constant, Return};
pub use words::answer;
