//! Identifiers: texts of `[a-zA-Z_][a-zA-Z0-9_]*`.
//!
//! An `Identifier` is always valid. A contract sees it as the bytes of its text, borrowed or owned.
ghost use Rattle.std.specs.Prelude.{◌≡◌, ◌↔◌, ◌++◌, IsTrue, IfOk, IfErr, IsOk, IsOkUnless, MatchResult, OnOk, Some, nat_eq, refl, string_bytes};
ghost use Rattle.std.specs.List.{list_all};
ghost use Rattle.std.specs.Ordering.{nat_cmp};
ghost use Rattle.std.specs.Hash as fed;
ghost use Rattle.std.specs.Cmp.Lexicographic.{pointwise, slice_cmp, nat_list_eq_equiv, nat_list_cmp_total, texts_ties, texts_po};
ghost use Rattle.std.specs.Cmp.{partial_equiv_from_equiv};
ghost use Rattle.std.specs.Cmp.Rules.{hashing};
ghost use Rattle.std.proofs.Common.{rules};
ghost use Rattle.ir_model.specs.Identifier.{IsIdentifier, can_start, can_continue};
ghost use Rattle.ir_base_identifiers.specs.IdentErr.{IsReason};

use bytes::ByteStr;
use ir_model::CoreError;
use std::alloc::{AllocError, Global};
use std::cmp::Ordering;
use std::convert::AsStr;
use std::fmt;
use std::hash::{Hash, Hasher};
use std::marker::Model;
use thiserror::Error;

/// A valid identifier, with its text borrowed or owned.
///
/// Stands for pliron's `identifier::Identifier`.
#[derive(Drop)]
pub struct Identifier(Text);

// A text that is borrowed for good stands as a `ByteStr`, whose type names no lifetime: so a loan out of a record that has an identifier can be followed back to the record.
#[derive(Drop)]
enum Text {
    Borrowed(ByteStr),
    Owned(String),
}

impl Model for Identifier {
    ghost use Rattle.std.specs.Prelude.{ℕ, List};

    ghost Value = { List ℕ };

    ghost use Rattle.ir_model.specs.Identifier.{IsIdentifier};
    ghost use Rattle.ir_base_identifiers.specs.IdentifierText.{text_bytes};

    ghost view = { λ identifier. text_bytes identifier.0 };

    ghost invariant = { λ identifier. IsIdentifier (text_bytes identifier.0) };
}

/// The identifier of a literal: the same call as `Identifier::new`.
///
/// Stands for pliron's `ident!`.
#[macro_export]
macro_rules! ident {
    ($text:expr) => {
        $crate::Identifier::new($text)
    };
}

// An ASCII letter or `_`.
fn can_start(byte: u8) -> bool
    ensures { result ≡ can_start byte }
{
    byte.is_ascii_alphabetic() || byte == b'_'
}

// An ASCII letter, a digit or `_`.
fn can_continue(byte: u8) -> bool
    ensures { result ≡ can_continue byte }
{
    byte.is_ascii_alphanumeric() || byte == b'_'
}

// Whether each byte is an ASCII letter, a digit or `_`.
fn all_can_continue(bytes: &[u8]) -> bool
    ensures { result ≡ list_all can_continue bytes.now }
{
    bytes.iter().all(|byte| can_continue(*byte))
}

/// The text is no identifier. It is handed back.
#[derive(Debug, Drop, PartialEq, Eq, Hash, Error)]
#[error("Malformed identifier {0}")]
pub struct MalformedIdentifierErr(pub String);

/// Why a text that has to be copied gives no identifier.
#[derive(Debug, Drop, PartialEq, Eq, Hash, Error)]
pub enum IdentErr {
    /// The text is no identifier.
    #[error(transparent)]
    MalformedIdentifierErr(MalformedIdentifierErr),
    /// There was no memory for the copy.
    #[error("out of memory")]
    OutOfMemory,
}

impl From<MalformedIdentifierErr> for IdentErr {
    ghost use Rattle.std.specs.Prelude.{◌≡◌};
    ghost use Rattle.ir_base_identifiers.specs.declared.identifier.IdentErr.TheVariants as variant;

    ghost from_gives = { λ malformed e. e ≡ variant.MalformedIdentifierErr malformed };

    fn from(malformed: MalformedIdentifierErr) -> IdentErr {
        IdentErr::MalformedIdentifierErr(malformed)
    }
}

impl From<AllocError> for IdentErr {
    ghost use Rattle.std.specs.Prelude.{◌≡◌};
    ghost use Rattle.ir_base_identifiers.specs.declared.identifier.IdentErr.TheVariants.{OutOfMemory};

    ghost from_gives = { λ _ e. e ≡ OutOfMemory };

    fn from(_error: AllocError) -> IdentErr {
        IdentErr::OutOfMemory
    }
}

impl Identifier {
    /// Whether the text is an identifier: an ASCII letter or `_`, and then ASCII letters, digits and `_`.
    pub fn is_valid(text: &str) -> bool
        ensures { IsTrue result ↔ IsIdentifier text.now }
    {
        match text.as_bytes() {
            [] => false,
            [first, rest @ ..] => can_start(*first) && all_can_continue(rest),
        }
    }

    /// The identifier of a text. A text that is none is handed back. Takes no memory.
    pub fn try_new(text: String) -> Result<Self, MalformedIdentifierErr>
        ensures valid { IsOk result ↔ IsIdentifier (string_bytes text) }
        ensures text { IfOk result (λ identifier. identifier ≡ string_bytes text) }
        ensures handed_back { IfErr result (λ e. e.0 ≡ text) }
    {
        if Identifier::is_valid(text.as_str()) {
            Ok(Identifier::from_valid(text))
        } else {
            Err(MalformedIdentifierErr(text))
        }
    }

    /// The identifier of a text that is borrowed for good.
    pub fn new(text: &'static str) -> Self
        requires { IsIdentifier text.now }
        ensures { result ≡ text.now }
    {
        Identifier(Text::Borrowed(ByteStr::from_static(text)))
    }

    // The identifier of a text that is known to be one.
    pub(crate) fn from_valid(text: String) -> Self
        requires { IsIdentifier (string_bytes text) }
        ensures { result ≡ string_bytes text }
    {
        Identifier(Text::Owned(text))
    }

    /// A copy of a text, as an identifier. `OutOfMemory` where there is no room for the copy, whatever the text; else a text that is no identifier is handed back.
    pub fn from_text(alloc: Global, text: &str) -> Result<Self, IdentErr>
        ensures text { IfOk result (λ identifier. identifier ≡ text.now) }
        ensures valid { OnOk result (IsIdentifier text.now) }
        ensures refused { IfErr result (IsReason text.now) }
    {
        Ok(Identifier::try_new(String::from_str(alloc, text)?)?)
    }

    /// This text followed by the other. `OutOfMemory` where there is no room for the two.
    ///
    /// Stands for pliron's `+`.
    pub fn join(&self, alloc: Global, other: &Identifier) -> Result<Identifier, CoreError>
        ensures text { IfOk result (λ joined. joined ≡ self.now ++ other.now) }
        ensures refused { IsOkUnless result CoreError.OutOfMemory }
    {
        let mut text = String::from_str(alloc, self.as_str())?;
        text.push_str(other.as_str())?;
        Ok(Identifier::from_valid(text))
    }

    /// The text, copied only where it is borrowed; `OutOfMemory` where there is no room for the copy.
    pub fn into_text(self, alloc: Global) -> Result<String, CoreError>
        ensures text { IfOk result (λ text. string_bytes text ≡ self) }
        ensures refused { IsOkUnless result CoreError.OutOfMemory }
    {
        match self.0 {
            Text::Borrowed(text) => Ok(String::from_str(alloc, text.as_str())?),
            Text::Owned(text) => Ok(text),
        }
    }

    /// The text.
    pub fn as_str(&self) -> &str
        ensures value { result.now ≡ self.now }
        ensures valid { IsIdentifier self.now }
    {
        match &self.0 {
            Text::Borrowed(text) => text.as_str(),
            Text::Owned(text) => text.as_str(),
        }
    }
}

/// As `try_new`.
impl TryFrom<String> for Identifier {
    type Error = MalformedIdentifierErr;

    ghost try_from_gives = { λ text r. (IsOk r ↔ IsIdentifier (string_bytes text)) × MatchResult r (λ identifier. identifier ≡ string_bytes text) (λ e. e.0 ≡ text) };

    fn try_from(text: String) -> Result<Identifier, MalformedIdentifierErr> {
        Identifier::try_new(text)
    }
}

impl Clone for Identifier {
    ghost is_clone = { λ identifier copy. copy ≡ identifier };

    fn clone(&self) -> Result<Identifier, AllocError> {
        Ok(Identifier(match &self.0 {
            Text::Borrowed(text) => Text::Borrowed(text.clone()?),
            Text::Owned(text) => Text::Owned(text.clone()?),
        }))
    }
}

impl AsStr for Identifier {
    ghost text = { λ identifier. identifier };

    fn as_str(&self) -> &str {
        Identifier::as_str(self)
    }
}

impl PartialEq for Identifier {
    ghost eq = { pointwise nat_eq };

    ghost laws = { partial_equiv_from_equiv nat_list_eq_equiv };

    fn eq(&self, other: &Identifier) -> bool {
        self.as_str() == other.as_str()
    }
}

impl Eq for Identifier {
    ghost laws = { nat_list_eq_equiv };
}

impl PartialOrd for Identifier {
    ghost partial_cmp = { λ x y. Some (slice_cmp nat_cmp x y) };

    ghost laws = { texts_po };

    fn partial_cmp(&self, other: &Identifier) -> Option<Ordering> {
        Some(self.cmp(other))
    }
}

impl Ord for Identifier {
    ghost cmp = { slice_cmp nat_cmp };

    ghost total = { nat_list_cmp_total };

    ghost matches_partial_cmp = { λ x y. refl };

    ghost matches_eq = { texts_ties };

    fn cmp(&self, other: &Identifier) -> Ordering {
        self.as_str().cmp(other.as_str())
    }
}

impl Hash for Identifier {
    ghost hash_input = { fed.str };

    ghost respects_eq = { Prim.search (hashing, rules) };

    fn hash<H: Hasher>(&self, state: &mut H) {
        self.as_str().hash(state);
    }
}

impl fmt::Display for Identifier {
    ghost output = { λ identifier. Some identifier };

    fn fmt<W: fmt::Write>(&self, f: &mut fmt::Formatter<W>) -> fmt::Result {
        f.write_str(self.as_str())
    }
}

impl fmt::Debug for Identifier {
    ghost debug_output = { λ identifier. Some identifier };

    fn fmt<W: fmt::Write>(&self, f: &mut fmt::Formatter<W>) -> fmt::Result {
        f.write_str(Identifier::as_str(self))
    }
}
