//! Dropping uses, and erasing an entity with all that stands inside it.
//!
//! Nothing here recurses over the nesting or takes memory: what is inside an entity is walked by links (`walk`), and taken away from the innermost on. Each call asks for records whose links agree (`AreNested`) and whose uses and places name each other (`AreLinked`), keeps that, and is one relation on the forest that the records mean (`forest_in`).
#![tactic(auto)]

mod closed;
mod dropping;
mod erasing;
mod leaves;
mod walk;

pub use closed::can_erase;
pub use dropping::drop_all_uses;
pub use erasing::erase;
pub use walk::{deepest, next_inside, recall_subtrees_listed};
