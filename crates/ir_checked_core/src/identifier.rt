//! Identifiers of texts that are borrowed for good.

ghost use Rattle.std.specs.Prelude.{IfOk, ◌≡◌};
ghost use Rattle.ir_checked_core.specs.Answers.{Answers, own_value, unless};
ghost use Rattle.ir_model.specs.Identifier.{IsIdentifier};

use crate::error::{Call, CheckedErr, Condition, fault};
use ir_base_dialects::Identifier;

/// The identifier of a text that is borrowed for good.
///
/// # Errors
/// `Unmet` where the text is no identifier.
pub fn new(text: &'static str) -> Result<Identifier, CheckedErr>
    ensures conditions { Answers Call.IdentifierNew result (unless (IsIdentifier text.now) Condition.NoIdentifier own_value) }
    ensures text { IfOk result (λ answer. answer ≡ text.now) }
{
    if !Identifier::is_valid(text) {
        return Err(fault!(IdentifierNew, NoIdentifier));
    }
    Ok(Identifier::new(text))
}
