//! Indices of auxiliary data.

use ir_model::ArenaIndex;

/// The index of auxiliary data in a context. It outlives its data, and is never handed out again.
///
/// It stands for pliron's `AuxDataIndex`.
#[derive(Clone, Copy, Debug, Drop, PartialEq, Eq, Hash)]
pub struct AuxDataIndex {
    /// The place of the data.
    pub index: ArenaIndex,
}
