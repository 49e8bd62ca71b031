//! Texts in quotes, and keys, which have quotes only where they need them.
ghost use Rattle.std.specs.Prelude.{◌≡◌, ◌<◌, ◌++◌, OnOk, OnErr};
ghost use Rattle.std.specs.List.{list_all};
ghost use Rattle.std.specs.Io.{StartsWith};
ghost use Rattle.ir_text_pieces.specs.Quotes.{escaped, hex_digit, is_bare_key, is_digit, is_key_start, is_key_rest, is_letter, is_shown, key_text, quoted, starts_key};

use std::alloc::AllocError;

// Whether a byte stands for itself in quotes.
fn is_shown(byte: u8) -> bool
    ensures { result ≡ is_shown byte }
{
    byte >= b' ' && (byte <= b'~' && !(byte == b'"'))
}

// A hexadecimal digit.
fn hex_digit(value: u8) -> u8
    requires { value < 16 }
    ensures { result ≡ hex_digit value }
{
    if value <= 9 {
        b'0' + value
    } else {
        b'A' + (value - 10)
    }
}

// Writes a byte as it stands in quotes.
fn write_escaped(out: &mut Vec<u8>, byte: u8) -> Result<(), AllocError>
    ensures text { OnOk result (out.new.items ≡ out.old.items ++ escaped byte) }
    ensures kept { OnErr result (out.new.items ≡ out.old.items) }
{
    if byte == b'\\' {
        out.extend_from_slice(b"\\\\")
    } else if is_shown(byte) {
        out.extend_from_slice(&[byte])
    } else {
        out.extend_from_slice(&[b'\\', hex_digit(byte / 16), hex_digit(byte % 16)])
    }
}

/// Writes a text in quotes: a backslash twice, any other byte that can be printed as itself, but for a quote, and all others as a backslash and two hexadecimal digits.
///
/// # Errors
/// Memory was wanting.
pub fn write_quoted(out: &mut Vec<u8>, bytes: &[u8]) -> Result<(), AllocError>
    ensures text { OnOk result (out.new.items ≡ out.old.items ++ quoted bytes.now) }
    ensures front { OnErr result (StartsWith out.new.items out.old.items) }
{
    out.push(b'"')?;
    for byte in bytes {
        write_escaped(out, *byte)?;
    }
    out.push(b'"')?;
    Ok(())
}

// Whether a byte is a letter.
fn is_letter(byte: u8) -> bool
    ensures { result ≡ is_letter byte }
{
    (byte >= b'A' && byte <= b'Z') || (byte >= b'a' && byte <= b'z')
}

// Whether a byte is a digit.
fn is_digit(byte: u8) -> bool
    ensures { result ≡ is_digit byte }
{
    byte >= b'0' && byte <= b'9'
}

// Whether a key that begins with this byte may stand without quotes.
fn is_key_start(byte: u8) -> bool
    ensures { result ≡ is_key_start byte }
{
    is_letter(byte) || byte == b'_'
}

// Whether a byte may stand in a key without quotes.
fn is_key_rest(byte: u8) -> bool
    ensures { result ≡ is_key_rest byte }
{
    is_letter(byte) || (is_digit(byte) || (byte == b'_' || (byte == b'$' || byte == b'.')))
}

// Whether a key may stand without quotes by its first byte.
fn starts_key(key: &[u8]) -> bool
    ensures { result ≡ starts_key key.now }
{
    match key.first() {
        None => false,
        Some(first) => is_key_start(*first),
    }
}

// Whether all bytes may stand in a key without quotes.
fn is_all_key(key: &[u8]) -> bool
    ensures { result ≡ list_all is_key_rest key.now }
{
    key.iter().all(|byte| is_key_rest(*byte))
}

/// Whether a key may stand without quotes: it begins with a letter or `_`, and has only letters, digits, `_`, `$` and `.`.
pub fn is_bare_key(key: &[u8]) -> bool
    ensures { result ≡ is_bare_key key.now }
{
    starts_key(key) && is_all_key(key)
}

/// Writes a key, in quotes where it can't stand without.
///
/// # Errors
/// Memory was wanting.
pub fn write_key(out: &mut Vec<u8>, key: &[u8]) -> Result<(), AllocError>
    ensures text { OnOk result (out.new.items ≡ out.old.items ++ key_text key.now) }
    ensures front { OnErr result (StartsWith out.new.items out.old.items) }
{
    if is_bare_key(key) {
        out.extend_from_slice(key)
    } else {
        write_quoted(out, key)
    }
}
