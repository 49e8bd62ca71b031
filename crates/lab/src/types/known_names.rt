//! Identifiers that ask for no memory.

use ir_base_dialects::Identifier;
use testkit_lab::TextError;

/// The identifier with this text, which is one of those that words know.
///
/// # Errors
/// `Malformed` where it is none of them.
pub(crate) fn identifier(text: &str) -> Result<Identifier, TextError> {
    match text {
        "a" => Ok(Identifier::new("a")),
        "b" => Ok(Identifier::new("b")),
        "c" => Ok(Identifier::new("c")),
        "name" => Ok(Identifier::new("name")),
        "other" => Ok(Identifier::new("other")),
        "size" => Ok(Identifier::new("size")),
        _ => Err(TextError::Malformed),
    }
}
