//! The fields of a line: with single blanks between them, and so many as the word has.

use testkit_edit_texts::{TextError, take_field};

/// The only field.
///
/// # Errors
/// `Malformed` where there are more or fewer, as with those below.
pub fn one(text: &str) -> Result<&str, TextError> {
    match take_field(text) {
        Some((field, "")) => Ok(field),
        _ => Err(TextError::Malformed),
    }
}

/// The only two fields.
pub fn two(text: &str) -> Result<(&str, &str), TextError> {
    let Some((first, rest)) = take_field(text) else {
        return Err(TextError::Malformed);
    };
    Ok((first, one(rest)?))
}

/// The only three fields.
pub fn three(text: &str) -> Result<(&str, &str, &str), TextError> {
    let Some((first, rest)) = take_field(text) else {
        return Err(TextError::Malformed);
    };
    let (second, third) = two(rest)?;
    Ok((first, second, third))
}

/// A field that is a number.
pub fn count(field: &str) -> Result<usize, TextError> {
    match field.parse() {
        Ok(number) => Ok(number),
        Err(_) => Err(TextError::Malformed),
    }
}
