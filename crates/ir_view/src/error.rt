//! Why the handle of a type isn't given.

use thiserror::Error;

/// The type is of another kind than the one that the handle is for. It stands for pliron's `TypedHandleErr`.
#[derive(Clone, Copy, Debug, Drop, PartialEq, Eq, Error)]
#[error("TypedHandle mismatch: expected {expected} but provided {provided}")]
pub struct TypedHandleErr {
    /// The kind that the handle is for.
    pub expected: u32,
    /// The kind of the type.
    pub provided: u32,
}

/// The kind of the type doesn't implement the interface that the handle is for. It stands for pliron's `TypeInterfaceHandleErr`.
#[derive(Clone, Copy, Debug, Drop, PartialEq, Eq, Error)]
#[error("TypeInterfaceHandle mismatch: {provided} does not implement interface {interface}")]
pub struct TypeInterfaceHandleErr {
    /// The number of the interface.
    pub interface: u32,
    /// The kind of the type.
    pub provided: u32,
}
