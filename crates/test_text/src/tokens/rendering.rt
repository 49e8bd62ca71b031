// Tokens and faults as texts, so that tests are tables.
use ir_text_tokens::{Bracket, Fault, Kind, Mark, Sign, Token, line_and_column, tokens};
use std::alloc::{AllocError, Global};

// A character that is a token, as it stands in a text.
fn mark_text(mark: Mark) -> &'static str {
    match mark {
        Mark::Open(Bracket::Round) => "(",
        Mark::Open(Bracket::Square) => "[",
        Mark::Open(Bracket::Curly) => "{",
        Mark::Close(Bracket::Round) => ")",
        Mark::Close(Bracket::Square) => "]",
        Mark::Close(Bracket::Curly) => "}",
        Mark::Open(Bracket::Angle) | Mark::Close(Bracket::Angle) => "angle",
        Mark::Comma => ",",
        Mark::Colon => ":",
        Mark::Equals => "=",
        Mark::Minus => "-",
        Mark::Plus => "+",
        Mark::Star => "*",
        Mark::Question => "?",
        Mark::Bar => "|",
    }
}

// A word for what a token is.
fn kind_text(kind: Kind) -> &'static str {
    match kind {
        Kind::Word => "word",
        Kind::Name(Sign::Value) => "value",
        Kind::Name(Sign::Block) => "block",
        Kind::Name(Sign::Symbol) => "symbol",
        Kind::Name(Sign::Attribute) => "attribute",
        Kind::Name(Sign::Type) => "type",
        Kind::Quoted => "string",
        Kind::Group => "group",
        Kind::Arrow => "arrow",
        Kind::Mark(mark) => mark_text(mark),
    }
}

// Writes what a token is, and its text, behind a comma where it is glued and else behind a bar.
fn write_token(out: &mut Vec<u8>, kind: Kind, glued: bool, piece: &[u8]) -> Result<(), AllocError> {
    let before = if glued { "," } else { "|" };
    out.extend_from_slice(before.as_bytes())?;
    out.extend_from_slice(kind_text(kind).as_bytes())?;
    out.extend_from_slice(b" ")?;
    out.extend_from_slice(piece)
}

// The tokens of a text.
pub(crate) fn rendered(alloc: Global, text: &[u8]) -> Result<Vec<u8>, Fault> {
    let found: Vec<Token> = tokens(alloc, text)?;
    let mut out = Vec::new(alloc);
    for token in &found {
        let piece = &text[token.start as usize..token.end as usize];
        write_token(&mut out, token.kind, token.glued, piece)?;
    }
    Ok(out)
}

// A word for what a fault is.
fn fault_word(fault: Fault) -> &'static str {
    match fault {
        Fault::OutOfMemory => "memory",
        Fault::TooLong => "long",
        Fault::Character { .. } => "character",
        Fault::Escape { .. } => "escape",
        Fault::OpenString { .. } => "string",
        Fault::OpenGroup { .. } => "group",
        Fault::Bracket { .. } => "bracket",
    }
}

// What reading a text gives: the fault with its line and column, or `ok`.
pub(crate) fn outcome(alloc: Global, text: &[u8]) -> (&'static str, u64, u64) {
    match tokens(alloc, text) {
        Ok(_) => ("ok", 0, 0),
        Err(fault) => match fault.at() {
            Some(at) => {
                let (line, column) = line_and_column(text, at);
                (fault_word(fault), line, column)
            }
            None => (fault_word(fault), 0, 0),
        },
    }
}
