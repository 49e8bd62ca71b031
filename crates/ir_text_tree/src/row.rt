//! The flat tree: a row for each part of a text, in the order in which the parts begin.

/// A piece of a text.
#[derive(Clone, Copy, Debug, PartialEq, Eq)]
pub struct Span {
    /// The index of its first byte.
    pub start: u32,
    /// The index behind its last byte.
    pub end: u32,
}

/// What a part of a text is.
#[derive(Clone, Copy, Debug, PartialEq, Eq)]
pub enum Part {
    /// The name of a result of the operation whose name follows.
    Result,
    /// How many results stand under the name before it.
    Count,
    /// The name of an operation, with its quotes.
    Name,
    /// The name of a value, as an operand.
    Operand,
    /// Which of the results under that name it is, with the `#`.
    Index,
    /// The name of a block, as a successor.
    Successor,
    /// Properties, with their brackets.
    Properties,
    /// The beginning of a region: `{`.
    Open,
    /// The end of a region: `}`.
    Close,
    /// The key of an attribute.
    Key,
    /// The value of the attribute whose key stands before it.
    Value,
    /// The type of an operand.
    OperandType,
    /// The type of a result, in parentheses.
    ResultType,
    /// The type of the only result, in no parentheses.
    OnlyResultType,
    /// The location of the operation before it, without `loc` and its parentheses.
    Location,
    /// The name of a block, at its beginning.
    Label,
    /// The name of an argument of that block.
    Argument,
    /// The type of that argument.
    ArgumentType,
    /// The location of that argument, without `loc` and its parentheses.
    ArgumentLocation,
}

/// A part of a text, and where it stands.
#[derive(Clone, Copy, Debug, PartialEq, Eq)]
pub struct Row {
    /// What it is.
    pub part: Part,
    /// Where it stands.
    pub span: Span,
}
