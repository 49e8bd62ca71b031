//! What is asked of the program.

/// A pass.
#[derive(Clone, Copy, Debug, Drop, PartialEq, Eq)]
pub enum Pass {
    /// Dead operations go, anywhere inside.
    Sweep,
    /// Of alike operations of a block the later ones go, in each block inside that is in order.
    Cse,
    /// Blocks go that no way from the first block of their region reaches, in each region inside.
    UnreachableBlocks,
}

impl Pass {
    /// The word that asks for it, without its dashes.
    pub fn name(self) -> &'static str {
        match self {
            Pass::Sweep => "sweep",
            Pass::Cse => "cse",
            Pass::UnreachableBlocks => "unreachable-blocks",
        }
    }
}

/// What is asked of the program.
#[derive(Debug, Drop)]
pub struct Options<'a> {
    /// The name of the input, for what is told of it.
    pub name: &'a str,
    /// The passes, in the order in which they run.
    pub passes: Vec<Pass>,
    /// The input has parts that lines `// -----` divide, each a text of its own.
    pub splits_input: bool,
    /// What was read is verified, and again behind each pass.
    pub verifies_each: bool,
    /// What each pass did is told.
    pub tells_statistics: bool,
    /// Locations are printed.
    pub prints_locations: bool,
}
