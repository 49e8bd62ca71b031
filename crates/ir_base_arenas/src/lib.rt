//! Storage for records: arenas under handles that are never given out twice, the lists that lie in the records' links, and the lists inside a record.
#![tactic(auto)]

mod arena;
pub mod arena_laws;
mod cells;
mod link;
pub mod linked_list;
mod list_iter;
pub mod list_laws;
mod plain_seq;
mod ptr;
mod room;
mod seq;
mod take_out;
mod tally;

pub use arena::Arena;
pub use ir_model::{ArenaIndex, CoreError};
pub use link::Link;
pub use list_iter::Iter;
pub use plain_seq::{Plain, PlainSeq};
pub use ptr::Ptr;
pub use room::Room;
pub use seq::Seq;
pub use take_out::TakeOut;
