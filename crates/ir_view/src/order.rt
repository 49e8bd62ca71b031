//! The two orders of a walk.

/// In which order a walk gives what it finds.
#[derive(Clone, Copy, Drop)]
pub enum WalkOrder {
    /// What stands in an entity comes before it.
    PostOrder,
    /// An entity comes before what stands in it.
    Preorder,
}
