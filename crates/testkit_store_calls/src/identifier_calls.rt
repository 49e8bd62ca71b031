//! Identifiers, made and copied.

ghost use Rattle.std.specs.Prelude.{◌≡◌};

use crate::store_call::StoreCall;
use ir_base_dialects::{CoreError, IdentErr, Identifier};
use std::alloc::Global;

/// A call that makes or copies an identifier.
#[derive(Clone, Copy, Debug, Drop)]
pub enum IdentifierCall {
    /// `Identifier::from_text`.
    FromText,
    /// `join`.
    Join,
    /// `into_text` of an identifier that is borrowed.
    IntoText,
    /// `clone` of an identifier in memory of its own.
    Clone,
}

impl IdentifierCall {
    /// All of them.
    pub const ALL: [IdentifierCall; 4] = [
        IdentifierCall::FromText,
        IdentifierCall::Join,
        IdentifierCall::IntoText,
        IdentifierCall::Clone,
    ];

    /// The call as `ALL` has it.
    pub fn listed(self) -> IdentifierCall
        ensures { result ≡ self }
    {
        IdentifierCall::ALL[self as usize]
    }
}

impl StoreCall for IdentifierCall {
    fn name(self) -> &'static str {
        match self {
            IdentifierCall::FromText => "Identifier::from_text",
            IdentifierCall::Join => "Identifier::join",
            IdentifierCall::IntoText => "Identifier::into_text",
            IdentifierCall::Clone => "Identifier::clone",
        }
    }

    fn make(self, alloc: Global) -> Result<bool, CoreError> {
        match self {
            IdentifierCall::FromText => makes(alloc),
            IdentifierCall::Join => joins(alloc),
            IdentifierCall::IntoText => tells(alloc),
            IdentifierCall::Clone => copies(alloc),
        }
    }
}

// Whether the identifier is the text.
fn makes(alloc: Global) -> Result<bool, CoreError> {
    let made = owned(alloc, "abc")?;
    Ok(made.as_str() == "abc")
}

// Whether the identifier is both.
fn joins(alloc: Global) -> Result<bool, CoreError> {
    let joined = Identifier::new("ab").join(alloc, &Identifier::new("c"))?;
    Ok(joined.as_str() == "abc")
}

// Whether the text is the identifier.
fn tells(alloc: Global) -> Result<bool, CoreError> {
    let text = Identifier::new("abc").into_text(alloc)?;
    Ok(text.as_str() == "abc")
}

// Whether the copy is equal.
fn copies(alloc: Global) -> Result<bool, CoreError> {
    let identifier = owned(alloc, "abc")?;
    Ok(identifier.clone()? == identifier)
}

/// The refusal of a copy. The texts here are all identifiers.
pub(crate) fn refusal(error: IdentErr) -> CoreError {
    match error {
        IdentErr::OutOfMemory => CoreError::OutOfMemory,
        IdentErr::MalformedIdentifierErr(_) => CoreError::CounterSpent,
    }
}

/// An identifier in memory of its own.
pub(crate) fn owned(alloc: Global, text: &str) -> Result<Identifier, CoreError> {
    Identifier::from_text(alloc, text).map_err(refusal)
}
