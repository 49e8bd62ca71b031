//! The fields of a script's lines: how a line is cut into them, and the numbers and names that stand in them.
ghost use Rattle.std.specs.Prelude.{◌<◌, ◌≤◌, ◌↔◌, IsTrue, SomeIff};
ghost use Rattle.toy_script_text.specs.Fields.{IsSkipped, IsNumberField, number_of, IsName, number_in_name};

// The greatest kind of operations that a script may name.
const GREATEST_KIND: u32 = 7;

/// Whether the line is empty, has spaces alone, or begins with `#`.
pub(crate) fn is_skipped(line: &str) -> bool
    ensures { IsTrue result ↔ IsSkipped line.now }
{
    line.starts_with('#') || line.bytes().all(|byte| byte == b' ')
}

/// The first field, and the text behind it; none where there is no field.
pub(crate) fn split_field(text: &str) -> Option<(&str, &str)> {
    let text = text.trim_start_matches(' ');
    if text.is_empty() {
        return None;
    }
    Some(text.split_once(' ').unwrap_or((text, "")))
}

/// The first two fields, and the text behind them; none where there are fewer.
pub(crate) fn split_two_fields(text: &str) -> Option<(&str, &str, &str)> {
    let (first, rest) = split_field(text)?;
    let (second, rest) = split_field(rest)?;
    Some((first, second, rest))
}

/// The only field; none where there is none, or another.
pub(crate) fn only_field(text: &str) -> Option<&str> {
    let (field, rest) = split_field(text)?;
    if split_field(rest).is_some() {
        return None;
    }
    Some(field)
}

/// The value of a number, which is one or more digits, with a value of at most 4294967295; none for another text.
pub(crate) fn parse_number(text: &str) -> Option<u32>
    ensures { SomeIff result (IsNumberField text.now) (number_of text.now) }
{
    if text.starts_with('+') {
        return None;
    }
    text.parse().ok()
}

/// The value of a number that is a kind of operations, at most 7; none for another text.
pub(crate) fn parse_kind(text: &str) -> Option<u32>
    ensures { SomeIff result (IsNumberField text.now × (number_of text.now ≤ 7)) (number_of text.now) }
{
    let kind = parse_number(text)?;
    if kind > GREATEST_KIND {
        return None;
    }
    Some(kind)
}

/// The number of a name with this letter; none for another text.
pub(crate) fn parse_name(letter: char, text: &str) -> Option<usize>
    requires { letter < 128 }
    ensures { SomeIff result (IsName letter text.now) (number_in_name text.now) }
{
    let number = text.strip_prefix(letter)?;
    let number = parse_number(number)?;
    Some(number as usize)
}
