//! Bytes with which the reader stays where it is: what their classes say, told without them.
ghost use Rattle.std.specs.Prelude.{◌≡◌, drop};
ghost use Rattle.ir_text_tokens.specs.ByteClasses.{letter, class_of_byte, class_ahead};
ghost use Rattle.ir_text_tokens.specs.ReaderSteps.{goes_on_word, goes_on_name, is_digit, is_gap, is_inner, is_plain};

// a to z, A to Z.
#[inline(always)]
#[tactic(auto, unfolding(crate::specs::ByteClasses::letter))]
fn is_letter(byte: u8) -> bool
    ensures { result ≡ letter byte }
{
    (byte >= b'a' && byte <= b'z') || (byte >= b'A' && byte <= b'Z')
}

// A digit.
#[inline(always)]
#[tactic(auto, unfolding(crate::specs::ByteClasses::class_of_byte, crate::specs::ByteClasses::blank, crate::specs::ByteClasses::digit, crate::specs::ByteClasses::hex_letter, crate::specs::ByteClasses::escape_letter, crate::specs::ByteClasses::other_letter, crate::specs::ByteClasses::letter, crate::specs::ByteClasses::class_of_sign, crate::specs::ByteClasses::class_of_mark))]
fn is_digit(byte: u8) -> bool
    ensures { result ≡ is_digit (class_of_byte byte) }
{
    byte >= b'0' && byte <= b'9'
}

// A byte of a word.
#[inline(always)]
#[tactic(auto, unfolding(crate::specs::ByteClasses::class_of_byte, crate::specs::ByteClasses::blank, crate::specs::ByteClasses::digit, crate::specs::ByteClasses::hex_letter, crate::specs::ByteClasses::escape_letter, crate::specs::ByteClasses::other_letter, crate::specs::ByteClasses::letter, crate::specs::ByteClasses::class_of_sign, crate::specs::ByteClasses::class_of_mark))]
fn is_in_word(byte: u8) -> bool
    ensures { result ≡ goes_on_word (class_of_byte byte) }
{
    if is_letter(byte) {
        true
    } else if is_digit(byte) {
        true
    } else {
        matches!(byte, b'_' | b'$' | b'.')
    }
}

// A byte of a name.
#[inline(always)]
#[tactic(auto, unfolding(crate::specs::ByteClasses::class_of_byte, crate::specs::ByteClasses::blank, crate::specs::ByteClasses::digit, crate::specs::ByteClasses::hex_letter, crate::specs::ByteClasses::escape_letter, crate::specs::ByteClasses::other_letter, crate::specs::ByteClasses::letter, crate::specs::ByteClasses::class_of_sign, crate::specs::ByteClasses::class_of_mark))]
fn is_in_name(byte: u8) -> bool
    ensures { result ≡ goes_on_name (class_of_byte byte) }
{
    match byte {
        b'-' => true,
        _ => is_in_word(byte),
    }
}

/// A byte of a string that is neither its end nor begins an escape.
#[inline(always)]
#[tactic(auto, unfolding(crate::specs::ByteClasses::class_of_byte, crate::specs::ByteClasses::blank, crate::specs::ByteClasses::digit, crate::specs::ByteClasses::hex_letter, crate::specs::ByteClasses::escape_letter, crate::specs::ByteClasses::other_letter, crate::specs::ByteClasses::letter, crate::specs::ByteClasses::class_of_sign, crate::specs::ByteClasses::class_of_mark))]
pub(crate) fn is_plain(byte: u8) -> bool
    ensures { result ≡ is_plain (class_of_byte byte) }
{
    !matches!(byte, b'"' | b'\\' | b'\n')
}

/// A byte of a group that is neither a bracket nor begins an arrow or a string.
#[inline(always)]
#[tactic(auto, unfolding(crate::specs::ByteClasses::class_of_byte, crate::specs::ByteClasses::blank, crate::specs::ByteClasses::digit, crate::specs::ByteClasses::hex_letter, crate::specs::ByteClasses::escape_letter, crate::specs::ByteClasses::other_letter, crate::specs::ByteClasses::letter, crate::specs::ByteClasses::class_of_sign, crate::specs::ByteClasses::class_of_mark))]
pub(crate) fn is_inner(byte: u8) -> bool
    ensures { result ≡ is_inner (class_of_byte byte) }
{
    if is_in_word(byte) {
        true
    } else {
        !matches!(
            byte,
            b'"' | b'-' | b'<' | b'>' | b'(' | b')' | b'[' | b']' | b'{' | b'}'
        )
    }
}

/// A blank, or the end of a line.
#[inline(always)]
#[tactic(auto, unfolding(crate::specs::ByteClasses::class_of_byte, crate::specs::ByteClasses::blank, crate::specs::ByteClasses::digit, crate::specs::ByteClasses::hex_letter, crate::specs::ByteClasses::escape_letter, crate::specs::ByteClasses::other_letter, crate::specs::ByteClasses::letter, crate::specs::ByteClasses::class_of_sign, crate::specs::ByteClasses::class_of_mark))]
pub(crate) fn is_gap(byte: u8) -> bool
    ensures { result ≡ is_gap (class_of_byte byte) }
{
    matches!(byte, b' ' | b'\t' | b'\r' | b'\n')
}

/// Whether a word goes on with the byte at a place.
#[inline(always)]
pub(crate) fn word_goes_on(text: &[u8], at: usize) -> bool
    ensures { result ≡ goes_on_word (class_ahead (drop at text.now)) }
{
    if at < text.len() {
        is_in_word(text[at])
    } else {
        false
    }
}

/// Whether a name of digits goes on with the byte at a place.
#[inline(always)]
pub(crate) fn number_goes_on(text: &[u8], at: usize) -> bool
    ensures { result ≡ is_digit (class_ahead (drop at text.now)) }
{
    if at < text.len() {
        is_digit(text[at])
    } else {
        false
    }
}

/// Whether another name goes on with the byte at a place.
#[inline(always)]
pub(crate) fn name_goes_on(text: &[u8], at: usize) -> bool
    ensures { result ≡ goes_on_name (class_ahead (drop at text.now)) }
{
    if at < text.len() {
        is_in_name(text[at])
    } else {
        false
    }
}
