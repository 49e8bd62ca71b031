//! The fields of a line, with spaces between them.

use crate::error::TextError;
use std::alloc::Global;

/// Stands for the letter of a field that is a number alone.
pub(crate) const NO_LETTER: char = '#';

/// The first field, and the text behind it.
pub fn take_field(text: &str) -> Option<(&str, &str)> {
    let text = text.trim_start_matches(' ');
    if text.is_empty() {
        return None;
    }
    Some(text.split_once(' ').unwrap_or((text, "")))
}

/// The number of a field that has the letter.
pub fn number(letter: char, field: &str) -> Option<usize> {
    let digits = if letter == NO_LETTER {
        field
    } else {
        field.strip_prefix(letter)?
    };
    digits.parse().ok()
}

/// The number of the only field, which has the letter.
pub(crate) fn one(letter: char, text: &str) -> Option<usize> {
    let (field, rest) = take_field(text)?;
    if take_field(rest).is_some() {
        return None;
    }
    number(letter, field)
}

/// The numbers of the only two fields, which have these letters.
pub(crate) fn two(first: char, second: char, text: &str) -> Option<(usize, usize)> {
    let (field, rest) = take_field(text)?;
    let number = number(first, field)?;
    let other = one(second, rest)?;
    Some((number, other))
}

/// The numbers of the only three fields: the first and the last have these letters, and the other is a number.
pub(crate) fn three(first: char, last: char, text: &str) -> Option<(usize, usize, usize)> {
    let (field, rest) = take_field(text)?;
    let number = number(first, field)?;
    let (at, other) = two(NO_LETTER, last, rest)?;
    Some((number, at, other))
}

/// The numbers of a list of names with this letter: `-`, or names with single commas between them.
pub(crate) fn list(alloc: Global, letter: char, text: &str) -> Result<Vec<usize>, TextError> {
    let mut numbers = Vec::new(alloc);
    if text == "-" {
        return Ok(numbers);
    }
    for name in text.split(',') {
        match number(letter, name) {
            Some(number) => numbers.push(number)?,
            None => return Err(TextError::Malformed),
        }
    }
    Ok(numbers)
}
