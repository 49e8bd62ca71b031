// Tokens and rows as letters, so that tests are tables. The token with the index n has the span from 2 n to 2 n + 1.
use ir_text_tree::{Fault, Part, Piece, Sort, Span, parse};
use std::alloc::{AllocError, Global};

// What a letter stands for: `w` is a word, `l` the word `loc`, `<` a group, `>` an arrow, `"` a string; the others stand for themselves.
pub(crate) fn sort_of(letter: u8) -> Sort {
    match letter {
        b'%' => Sort::Value,
        b'^' => Sort::Block,
        b'#' => Sort::Attribute,
        b'!' => Sort::Type,
        b'w' => Sort::Word,
        b'l' => Sort::Loc,
        b'"' => Sort::Quoted,
        b'<' => Sort::Group,
        b'>' => Sort::Arrow,
        b',' => Sort::Comma,
        b':' => Sort::Colon,
        b'=' => Sort::Equals,
        b'(' => Sort::OpenRound,
        b')' => Sort::CloseRound,
        b'[' => Sort::OpenSquare,
        b']' => Sort::CloseSquare,
        b'{' => Sort::OpenCurly,
        b'}' => Sort::CloseCurly,
        _ => Sort::Other,
    }
}

// The letter of a part of a text.
fn letter_of(part: Part) -> u8 {
    match part {
        Part::Result => b'R',
        Part::Count => b'C',
        Part::Name => b'N',
        Part::Operand => b'O',
        Part::Index => b'I',
        Part::Successor => b'S',
        Part::Properties => b'P',
        Part::Open => b'{',
        Part::Close => b'}',
        Part::Key => b'K',
        Part::Value => b'V',
        Part::OperandType => b'T',
        Part::ResultType => b'U',
        Part::OnlyResultType => b'u',
        Part::Location => b'L',
        Part::Label => b'B',
        Part::Argument => b'A',
        Part::ArgumentType => b'Y',
        Part::ArgumentLocation => b'M',
    }
}

// Where the next token begins.
fn next_start(pieces: &Vec<Piece>) -> u32 {
    match pieces.last() {
        None => 0,
        Some(piece) => piece.span.end.saturating_add(1),
    }
}

// Puts a token behind the others.
pub(crate) fn push_token(pieces: &mut Vec<Piece>, letter: u8) -> Result<(), AllocError> {
    let start = next_start(pieces);
    let end = start.saturating_add(1);
    let span = Span { start, end };
    pieces.push(Piece {
        sort: sort_of(letter),
        span,
    })?;
    Ok(())
}

// The tokens that the letters stand for.
pub(crate) fn pieces_of(alloc: Global, letters: &[u8]) -> Result<Vec<Piece>, AllocError> {
    let mut pieces = Vec::new(alloc);
    for letter in letters {
        push_token(&mut pieces, *letter)?;
    }
    Ok(pieces)
}

// Puts the letter so often that so many stand there.
fn fill(out: &mut Vec<u8>, to: u32, letter: u8) -> Result<(), AllocError> {
    for _ in out.len()..to as usize {
        out.push(letter)?;
    }
    Ok(())
}

// The rows of tokens: in place of the first token of a row its letter, of its other tokens `-`, of all others dots.
pub(crate) fn rows_of(alloc: Global, letters: &[u8]) -> Result<Vec<u8>, Fault> {
    let pieces = pieces_of(alloc, letters)?;
    let end = next_start(&pieces);
    let rows = parse(alloc, end, pieces.as_slice())?;
    let mut out = Vec::new(alloc);
    for row in &rows {
        fill(&mut out, row.span.start / 2, b'.')?;
        out.push(letter_of(row.part))?;
        fill(&mut out, row.span.end / 2 + row.span.end % 2, b'-')?;
    }
    fill(&mut out, end / 2, b'.')?;
    Ok(out)
}

// The fault of tokens, if they have one.
pub(crate) fn fault_of(alloc: Global, letters: &[u8]) -> Result<Option<Fault>, Fault> {
    let pieces = pieces_of(alloc, letters)?;
    let end = next_start(&pieces);
    match parse(alloc, end, pieces.as_slice()) {
        Ok(_) => Ok(None),
        Err(Fault::OutOfMemory) => Err(Fault::OutOfMemory),
        Err(fault) => Ok(Some(fault)),
    }
}
