//! The numbers of the interfaces that every dialect shares, and the types that name them.
//!
//! Numbers 7 to 15 are unused. A dialect's own interfaces start at 16.
ghost use Rattle.std.specs.Prelude.{ℕ};

/// The operation ends its block.
pub const TERMINATOR: u32 = 1;

/// The blocks of the operation need no terminator.
pub const NO_TERMINATOR: u32 = 2;

/// The operation says which of its regions have SSA dominance.
pub const REGION_KIND: u32 = 3;

/// The attribute says whether it is to be outlined.
pub const OUTLINED_ATTRIBUTE: u32 = 4;

/// The attribute has a type.
pub const TYPED_ATTRIBUTE: u32 = 5;

/// The operation has no effect.
pub const PURE_OPERATION: u32 = 6;

/// The name of an interface of operations.
pub trait OpInterfaceMarker {
    ghost NUMBER: { ℕ };

    /// The number of the interface.
    const NUMBER: u32;
}

/// The name of an interface of attributes.
pub trait AttrInterfaceMarker {
    ghost NUMBER: { ℕ };

    /// The number of the interface.
    const NUMBER: u32;
}

/// The name of an interface of types.
pub trait TypeInterfaceMarker {
    ghost NUMBER: { ℕ };

    /// The number of the interface.
    const NUMBER: u32;
}

/// Operations that end their block.
pub struct IsTerminatorInterface;

impl OpInterfaceMarker for IsTerminatorInterface {
    ghost NUMBER = { 1 };

    const NUMBER: u32 = TERMINATOR;
}

/// Operations whose blocks need no terminator.
pub struct NoTerminatorInterface;

impl OpInterfaceMarker for NoTerminatorInterface {
    ghost NUMBER = { 2 };

    const NUMBER: u32 = NO_TERMINATOR;
}

/// Operations that say which of their regions have SSA dominance.
pub struct RegionKindInterface;

impl OpInterfaceMarker for RegionKindInterface {
    ghost NUMBER = { 3 };

    const NUMBER: u32 = REGION_KIND;
}

/// Attributes that say whether they are to be outlined.
pub struct OutlinedAttr;

impl AttrInterfaceMarker for OutlinedAttr {
    ghost NUMBER = { 4 };

    const NUMBER: u32 = OUTLINED_ATTRIBUTE;
}

/// Attributes that have a type.
pub struct TypedAttrInterface;

impl AttrInterfaceMarker for TypedAttrInterface {
    ghost NUMBER = { 5 };

    const NUMBER: u32 = TYPED_ATTRIBUTE;
}

/// Operations without effects.
pub struct PureOpInterface;

impl OpInterfaceMarker for PureOpInterface {
    ghost NUMBER = { 6 };

    const NUMBER: u32 = PURE_OPERATION;
}
