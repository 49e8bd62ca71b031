//! What a token does in types, values and locations, which are kept as texts.
ghost use Rattle.std.specs.Prelude.{◌≡◌};
ghost use Rattle.ir_text_tree.specs.TextSteps.{holds_loc, closes, outside, takes, part_of_text};

use crate::row::Part;
use crate::sort::Sort;

/// What a text is.
#[derive(Clone, Copy)]
pub enum TextKind {
    /// The value of an attribute.
    Value,
    /// The type of an operand.
    OperandType,
    /// The type of a result.
    ResultType,
    /// The location of an operation.
    Location,
    /// The type of an argument.
    ArgumentType,
    /// The location of an argument.
    ArgumentLocation,
}

/// A pair of brackets.
#[derive(Clone, Copy)]
pub enum Bracket {
    /// `(` and `)`
    Round,
    /// `[` and `]`
    Square,
    /// `{` and `}`
    Curly,
}

/// What becomes of the brackets that are open in a text.
#[derive(Clone, Copy)]
pub enum Nesting {
    /// They stay.
    Kept,
    /// One more is opened.
    Opened(Bracket),
    /// The last is closed.
    Closed,
}

// The word `loc` outside all brackets: it is a part of values and locations, and ends types.
fn holds_loc(kind: TextKind) -> Option<Nesting>
    ensures { result ≡ holds_loc kind }
{
    match kind {
        TextKind::Value | TextKind::Location | TextKind::ArgumentLocation => Some(Nesting::Kept),
        TextKind::OperandType | TextKind::ResultType | TextKind::ArgumentType => None,
    }
}

// A closing bracket closes the last that was opened, if that is of its sort.
fn closes(bracket: Bracket, last: Option<Bracket>) -> Option<Nesting>
    ensures { result ≡ closes bracket last }
{
    match (bracket, last) {
        (Bracket::Round, Some(Bracket::Round)) => Some(Nesting::Closed),
        (Bracket::Square, Some(Bracket::Square)) => Some(Nesting::Closed),
        (Bracket::Curly, Some(Bracket::Curly)) => Some(Nesting::Closed),
        _ => None,
    }
}

// A token that ends a text outside all brackets, and else is a part of it.
fn outside(last: Option<Bracket>, other: Option<Nesting>) -> Option<Nesting>
    ensures { result ≡ outside last other }
{
    match last {
        None => other,
        Some(_) => Some(Nesting::Kept),
    }
}

/// What a token does to the open brackets of a text, of which this is the last; none where it is no part of the text.
pub(crate) fn takes(kind: TextKind, last: Option<Bracket>, sort: Sort) -> Option<Nesting>
    ensures { result ≡ takes kind last sort }
{
    match sort {
        Sort::OpenRound => Some(Nesting::Opened(Bracket::Round)),
        Sort::OpenSquare => Some(Nesting::Opened(Bracket::Square)),
        Sort::OpenCurly => Some(Nesting::Opened(Bracket::Curly)),
        Sort::CloseRound => closes(Bracket::Round, last),
        Sort::CloseSquare => closes(Bracket::Square, last),
        Sort::CloseCurly => closes(Bracket::Curly, last),
        Sort::Comma | Sort::Equals => outside(last, None),
        Sort::Loc => outside(last, holds_loc(kind)),
        _ => Some(Nesting::Kept),
    }
}

/// The part that such a text is.
pub(crate) fn part_of_text(kind: TextKind) -> Part
    ensures { result ≡ part_of_text kind }
{
    match kind {
        TextKind::Value => Part::Value,
        TextKind::OperandType => Part::OperandType,
        TextKind::ResultType => Part::ResultType,
        TextKind::Location => Part::Location,
        TextKind::ArgumentType => Part::ArgumentType,
        TextKind::ArgumentLocation => Part::ArgumentLocation,
    }
}
