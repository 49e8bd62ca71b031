//! What is said of an operation.

/// What MLIR says of an operation, as far as it matters here.
#[derive(Clone, Copy, Debug, PartialEq, Eq)]
pub struct Traits {
    /// It ends its block.
    pub terminator: bool,
    /// Its blocks need no terminator.
    pub no_terminator: bool,
    /// It has regions, and each has SSA dominance.
    pub dominance: bool,
    /// It has no effect, and may go where nothing names its results.
    pub pure_operation: bool,
    /// It is a symbol, which others may name without using a result.
    pub symbol: bool,
    /// It may have regions.
    pub regions: bool,
}
