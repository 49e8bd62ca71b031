//! What is written as rows.

use ir_model::ArenaIndex;

/// What is written as rows, one behind another.
#[derive(Clone, Copy, Debug, Drop, PartialEq, Eq)]
pub enum Item {
    /// An operation with all that is inside it.
    Op(ArenaIndex),
    /// An operation from behind its regions on.
    Tail(ArenaIndex),
    /// A region with all that is inside it.
    Region(ArenaIndex),
    /// A block with all that is inside it.
    Block(ArenaIndex),
    /// The end of a region.
    Close,
}
