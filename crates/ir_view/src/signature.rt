//! The types of what goes in and what comes out.

use ir_base_dialects::TypeHandle;

/// The types of arguments and of results. It stands for pliron's `TypeSig`.
///
/// A copy takes memory.
#[derive(Clone, Debug, Drop, PartialEq, Eq, Hash)]
pub struct TypeSig {
    /// The types of the arguments, in order.
    pub arguments: Vec<TypeHandle>,
    /// The types of the results, in order.
    pub results: Vec<TypeHandle>,
}
