//! Tokens, and the spans of a text that they are.

/// The first character of a name.
#[derive(Clone, Copy, Debug, PartialEq, Eq)]
pub enum Sign {
    /// `%`, of a value.
    Value,
    /// `^`, of a block.
    Block,
    /// `@`, of a symbol.
    Symbol,
    /// `#`, of an attribute, or of one of several results.
    Attribute,
    /// `!`, of a type.
    Type,
}

/// A pair of brackets.
#[derive(Clone, Copy, Debug, PartialEq, Eq)]
pub enum Bracket {
    /// `(` and `)`
    Round,
    /// `[` and `]`
    Square,
    /// `{` and `}`
    Curly,
    /// `<` and `>`, which stand in groups alone.
    Angle,
}

/// A character that is a token.
#[derive(Clone, Copy, Debug, PartialEq, Eq)]
pub enum Mark {
    /// `(`, `[` or `{`.
    Open(Bracket),
    /// `)`, `]` or `}`.
    Close(Bracket),
    /// `,`
    Comma,
    /// `:`
    Colon,
    /// `=`
    Equals,
    /// `-`
    Minus,
    /// `+`
    Plus,
    /// `*`
    Star,
    /// `?`
    Question,
    /// `|`
    Bar,
}

/// What a token is.
#[derive(Clone, Copy, Debug, PartialEq, Eq)]
pub enum Kind {
    /// Letters, digits, `_`, `$` and `.`: a word, or a number or a part of one.
    Word,
    /// A sign and what it names: digits, or a letter, `_`, `$`, `.` or `-` and more of these and digits. The signs of symbols, attributes and types may stand alone.
    Name(Sign),
    /// A string, with its quotes.
    Quoted,
    /// All from `<` to the `>` that closes it.
    Group,
    /// `->`
    Arrow,
    /// A character that is a token.
    Mark(Mark),
}

/// A token: what it is, and where it stands in its text.
#[derive(Clone, Copy, Debug, PartialEq, Eq)]
pub struct Token {
    /// What it is.
    pub kind: Kind,
    /// Whether it stands right behind another token.
    pub glued: bool,
    /// The index of its first byte.
    pub start: u32,
    /// The index behind its last byte.
    pub end: u32,
}
