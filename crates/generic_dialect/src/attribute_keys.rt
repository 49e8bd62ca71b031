//! Keys of attributes as identifiers, so that no two keys meet.
//!
//! A key that is an identifier and doesn't begin with `__` stands for itself. Any other is `__` and two hexadecimal digits, of lower case, for each of its bytes.
ghost use Rattle.std.specs.Prelude.{◌≡◌, ◌∷◌, codes, false, is_ok, is_some, Ok, IfOk, IfSome, IsOkUnless, MatchOption, string_bytes};
ghost use Rattle.std.specs.Option.{option_map};
ghost use Rattle.std.specs.Str.{bytes_eq};
ghost use Rattle.hex.specs.Hex.{decode_of, encode_lower};
ghost use Rattle.generic_dialect.specs.Keys.{HasNoKey, decoded, is_marked, is_plain, key_name, own_key, the_key};

use hex::FromHexError;
use ir_base_dialects::{CoreError, Identifier};
use std::alloc::Global;

/// The identifier under which the properties of an operation stand among its attributes. No key has it.
pub fn properties_key() -> Identifier
    ensures { result ≡ codes "__properties" }
{
    Identifier::new("__properties")
}

// Whether the key begins with `__`.
fn is_marked(key: &[u8]) -> bool
    ensures { result ≡ is_marked key.now }
{
    matches!(key, [b'_', b'_', ..])
}

// The key as a text, where it stands for itself.
fn plain(key: &[u8]) -> Option<&str>
    ensures same { IfSome result (λ text. text.now ≡ key.now) }
    ensures plain { is_some result ≡ is_plain key.now }
{
    match str::from_utf8(key) {
        Ok(text) => {
            if Identifier::is_valid(text) && !is_marked(key) {
                Some(text)
            } else {
                None
            }
        }
        Err(_) => None,
    }
}

// `__` and the digits of the key.
fn marked(alloc: Global, key: &[u8]) -> Result<String, CoreError>
    ensures text { IfOk result (λ text. string_bytes text ≡ 95 ∷ 95 ∷ encode_lower key.now) }
    ensures refused { IsOkUnless result CoreError.OutOfMemory }
{
    let digits = hex::encode(alloc, key)?;
    let mut text = String::from_str(alloc, "__")?;
    text.push_str(digits.as_str())?;
    Ok(text)
}

/// The identifier of a key: no two keys have one identifier. `OutOfMemory` where there is no room for it.
pub fn key_identifier(alloc: Global, key: &[u8]) -> Result<Identifier, CoreError>
    ensures name { IfOk result (λ name. name ≡ key_name key.now) }
    ensures refused { IsOkUnless result CoreError.OutOfMemory }
{
    let text = match plain(key) {
        Some(text) => String::from_str(alloc, text)?,
        None => marked(alloc, key)?,
    };
    match Identifier::try_new(text) {
        Ok(name) => Ok(name),
        Err(_) => unreachable!(),
    }
}

// The bytes of which these are the digits, where they are digits.
fn decoded(alloc: Global, digits: &[u8]) -> Result<Option<Vec<u8>>, CoreError>
    ensures bytes { IfOk result (λ found. MatchOption found (is_ok (decode_of digits.now) ≡ false) (λ bytes. decode_of digits.now ≡ Ok bytes.items)) }
    ensures spelled { IfOk result (λ found. option_map (λ v. v.items) found ≡ decoded (decode_of digits.now)) }
    ensures refused { IsOkUnless result CoreError.OutOfMemory }
{
    match hex::decode(alloc, digits) {
        Ok(bytes) => Ok(Some(bytes)),
        Err(error) => match error {
            FromHexError::OutOfMemory => Err(CoreError::OutOfMemory),
            FromHexError::InvalidHexCharacter { .. } => Ok(None),
            FromHexError::OddLength => Ok(None),
            FromHexError::InvalidStringLength => Ok(None),
        },
    }
}

// Whether the identifier is that of the key.
fn is_name_of(alloc: Global, name: &Identifier, key: &[u8]) -> Result<bool, CoreError>
    ensures same { IfOk result (λ same. same ≡ bytes_eq (key_name key.now) name.now) }
    ensures refused { IsOkUnless result CoreError.OutOfMemory }
{
    let found = key_identifier(alloc, key)?;
    Ok(found == *name)
}

// The key of an identifier that begins with `__`, of which these are the further bytes.
fn marked_key(alloc: Global, name: &Identifier, digits: &[u8]) -> Result<Option<Vec<u8>>, CoreError>
    requires { name.now ≡ 95 ∷ 95 ∷ digits.now }
    ensures key { IfOk result (λ found. MatchOption found (HasNoKey name.now) (λ key. key_name key.items ≡ name.now)) }
    ensures told { IfOk result (λ found. option_map (λ v. v.items) found ≡ own_key name.now (decoded (decode_of digits.now))) }
    ensures refused { IsOkUnless result CoreError.OutOfMemory }
{
    let Some(key) = decoded(alloc, digits)? else {
        return Ok(None);
    };
    if is_name_of(alloc, name, key.as_slice())? {
        Ok(Some(key))
    } else {
        Ok(None)
    }
}

/// The key that has this identifier; `None` where no key has it. `OutOfMemory` where there is no room for it.
pub fn key_bytes(alloc: Global, name: &Identifier) -> Result<Option<Vec<u8>>, CoreError>
    ensures key { IfOk result (λ found. MatchOption found (HasNoKey name.now) (λ key. key_name key.items ≡ name.now)) }
    ensures told { IfOk result (λ found. option_map (λ v. v.items) found ≡ the_key name.now) }
    ensures refused { IsOkUnless result CoreError.OutOfMemory }
{
    match name.as_str().as_bytes() {
        [b'_', b'_', digits @ ..] => marked_key(alloc, name, digits),
        key => Ok(Some(Vec::from_slice(alloc, key)?)),
    }
}
