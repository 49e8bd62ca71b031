//! Escapes: what the first byte of a text stands for, with the bytes behind it.
ghost use Rattle.std.specs.Prelude.{◌≡◌, ◌<◌};
ghost use Rattle.ir_text_strings.specs.Escapes.{is_digit, is_upper, is_lower, is_hex, hex_value, is_mark, marked, first_byte, first_more};

// Whether a byte is a decimal digit.
fn is_digit(byte: u8) -> bool
    ensures { result ≡ is_digit byte }
{
    byte >= b'0' && byte <= b'9'
}

// Whether a byte is a hexadecimal digit that is a capital letter.
fn is_upper(byte: u8) -> bool
    ensures { result ≡ is_upper byte }
{
    byte >= b'A' && byte <= b'F'
}

// Whether a byte is a hexadecimal digit that is a small letter.
fn is_lower(byte: u8) -> bool
    ensures { result ≡ is_lower byte }
{
    byte >= b'a' && byte <= b'f'
}

// Whether a byte is a hexadecimal digit, of either case.
fn is_hex(byte: u8) -> bool
    ensures { result ≡ is_hex byte }
{
    is_digit(byte) || (is_upper(byte) || is_lower(byte))
}

// The number that a hexadecimal digit stands for; 0 where it is none.
fn hex_value(byte: u8) -> u8
    ensures value { result ≡ hex_value byte }
    ensures small { result < 16 }
{
    if is_digit(byte) {
        byte - b'0'
    } else if is_upper(byte) {
        byte - b'A' + 10
    } else if is_lower(byte) {
        byte - b'a' + 10
    } else {
        0
    }
}

// Whether a byte makes an escape of a backslash before it: a backslash, a quote, `n` or `t`.
fn is_mark(byte: u8) -> bool
    ensures { result ≡ is_mark byte }
{
    byte == b'\\' || (byte == b'"' || (byte == b'n' || byte == b't'))
}

// What such a byte stands for behind a backslash.
fn marked(byte: u8) -> u8
    ensures { result ≡ marked byte }
{
    if byte == b'n' {
        b'\n'
    } else if byte == b't' {
        b'\t'
    } else {
        byte
    }
}

/// What the first byte of a text stands for.
#[derive(Clone, Copy)]
pub(crate) struct Spelled {
    /// The byte that is meant.
    pub(crate) byte: u8,
    /// How many more bytes of the text spell it.
    pub(crate) more: usize,
}

/// What the first of three bytes of a text stands for, with the others if they make an escape.
pub(crate) fn first_spelled(byte: u8, second: u8, third: u8) -> Spelled
    ensures byte { result.byte ≡ first_byte byte second third }
    ensures more { result.more ≡ first_more byte second third }
{
    if byte == b'\\' && is_mark(second) {
        Spelled {
            byte: marked(second),
            more: 1,
        }
    } else if byte == b'\\' && (is_hex(second) && is_hex(third)) {
        Spelled {
            byte: 16 * hex_value(second) + hex_value(third),
            more: 2,
        }
    } else {
        Spelled { byte, more: 0 }
    }
}
