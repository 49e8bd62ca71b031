//! How much a context can still make.

/// How many numbers and slots a context has left.
#[derive(Clone, Copy, Debug, Drop, PartialEq, Eq)]
pub struct Room {
    /// How many value numbers are left.
    pub values: u64,
    /// How many use numbers are left.
    pub uses: u64,
    /// How many more operations there can be at once.
    pub ops: u32,
    /// How many more blocks there can be at once.
    pub blocks: u32,
    /// How many more regions there can be at once.
    pub regions: u32,
    /// How many more entries of auxiliary data there can be at once.
    pub aux: u32,
}
