//! Tokens by what they can be in the generic form.

use crate::row::Span;

/// What a token can be.
#[derive(Clone, Copy, Debug, PartialEq, Eq)]
pub enum Sort {
    /// `%x`
    Value,
    /// `^x`
    Block,
    /// `#x`
    Attribute,
    /// `!x`
    Type,
    /// A word or a number.
    Word,
    /// The word `loc`.
    Loc,
    /// A string.
    Quoted,
    /// A group in `<` and `>`.
    Group,
    /// `->`
    Arrow,
    /// `,`
    Comma,
    /// `:`
    Colon,
    /// `=`
    Equals,
    /// `(`
    OpenRound,
    /// `)`
    CloseRound,
    /// `[`
    OpenSquare,
    /// `]`
    CloseSquare,
    /// `{`
    OpenCurly,
    /// `}`
    CloseCurly,
    /// Any other, in types, values and locations alone.
    Other,
}

/// A token: what it can be, and where it stands.
#[derive(Clone, Copy)]
pub struct Piece {
    /// What it can be.
    pub sort: Sort,
    /// Where it stands.
    pub span: Span,
}
