//! What a byte may begin, go on with, or end.
ghost use Rattle.std.specs.Prelude.{◌≡◌, drop};
ghost use Rattle.ir_text_tokens.specs.ByteClasses.{class_of_byte, class_ahead};

use crate::token::{Bracket, Mark, Sign};

/// What a byte may begin, go on with, or end.
#[derive(Clone, Copy)]
pub enum Class {
    /// LF, which ends a line.
    Newline,
    /// A space, a tab or CR.
    Blank,
    /// `/`, of which two begin a comment.
    Slash,
    /// A digit.
    Digit,
    /// A letter that is a hexadecimal digit.
    HexLetter,
    /// `n` or `t`, of which a backslash makes an escape.
    EscapeLetter,
    /// Another letter, `_`, `$` or `.`.
    Letter,
    /// A character that begins names.
    Sign(Sign),
    /// `-`
    Dash,
    /// `"`
    Quote,
    /// A backslash.
    Backslash,
    /// `<`
    Less,
    /// `>`
    Greater,
    /// `=`
    Equals,
    /// `(`, `[` or `{`.
    Open(Bracket),
    /// `)`, `]` or `}`.
    Close(Bracket),
    /// Another character that is a token.
    Mark(Mark),
    /// Any other byte.
    Other,
}

/// The class of a byte. Each byte is named by itself, so that one jump finds it.
#[inline(always)]
#[tactic(auto, unfolding(crate::specs::ByteClasses::class_of_byte, crate::specs::ByteClasses::blank, crate::specs::ByteClasses::digit, crate::specs::ByteClasses::hex_letter, crate::specs::ByteClasses::escape_letter, crate::specs::ByteClasses::other_letter, crate::specs::ByteClasses::class_of_sign, crate::specs::ByteClasses::class_of_mark))]
pub(crate) fn class_of(byte: u8) -> Class
    ensures { result ≡ class_of_byte byte }
{
    match byte {
        b'\n' => Class::Newline,
        b' ' | b'\t' | b'\r' => Class::Blank,
        b'/' => Class::Slash,
        b'0'..=b'9' => Class::Digit,
        b'a'..=b'f' | b'A'..=b'F' => Class::HexLetter,
        b'n' | b't' => Class::EscapeLetter,
        b'a'..=b'z' | b'A'..=b'Z' | b'$' | b'.' | b'_' => Class::Letter,
        b'%' => Class::Sign(Sign::Value),
        b'^' => Class::Sign(Sign::Block),
        b'@' => Class::Sign(Sign::Symbol),
        b'#' => Class::Sign(Sign::Attribute),
        b'!' => Class::Sign(Sign::Type),
        b'-' => Class::Dash,
        b'"' => Class::Quote,
        b'\\' => Class::Backslash,
        b'<' => Class::Less,
        b'>' => Class::Greater,
        b'=' => Class::Equals,
        b'(' => Class::Open(Bracket::Round),
        b'[' => Class::Open(Bracket::Square),
        b'{' => Class::Open(Bracket::Curly),
        b')' => Class::Close(Bracket::Round),
        b']' => Class::Close(Bracket::Square),
        b'}' => Class::Close(Bracket::Curly),
        b',' => Class::Mark(Mark::Comma),
        b':' => Class::Mark(Mark::Colon),
        b'+' => Class::Mark(Mark::Plus),
        b'*' => Class::Mark(Mark::Star),
        b'?' => Class::Mark(Mark::Question),
        b'|' => Class::Mark(Mark::Bar),
        _ => Class::Other,
    }
}

/// The class of the byte at a place; at the end that of a byte which no token goes on with.
#[inline(always)]
pub(crate) fn class_at(text: &[u8], at: usize) -> Class
    ensures { result ≡ class_ahead (drop at text.now) }
{
    if at < text.len() {
        class_of(text[at])
    } else {
        Class::Other
    }
}
