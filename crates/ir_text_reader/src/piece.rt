//! Tokens as the tree sees them.
ghost use Rattle.std.specs.Prelude.{◌≡◌, codes};
ghost use Rattle.std.specs.Str.{bytes_eq};
ghost use Rattle.ir_text_tokens.specs.Coverings.{IsWithin, lexeme};
ghost use Rattle.ir_text_reader.specs.Pieces.{sort_of_mark, sort_of_name, sort_of_word, sort_of, is_loc, piece};

use ir_text_tokens::{Bracket, Kind, Mark, Sign, Token};
use ir_text_tree::{Piece, Sort, Span};

// A character that is a token.
fn sort_of_mark(mark: Mark) -> Sort
    ensures { result ≡ sort_of_mark mark }
{
    match mark {
        Mark::Open(Bracket::Round) => Sort::OpenRound,
        Mark::Close(Bracket::Round) => Sort::CloseRound,
        Mark::Open(Bracket::Square) => Sort::OpenSquare,
        Mark::Close(Bracket::Square) => Sort::CloseSquare,
        Mark::Open(Bracket::Curly) => Sort::OpenCurly,
        Mark::Close(Bracket::Curly) => Sort::CloseCurly,
        Mark::Comma => Sort::Comma,
        Mark::Colon => Sort::Colon,
        Mark::Equals => Sort::Equals,
        _ => Sort::Other,
    }
}

// A name, by its sign.
fn sort_of_name(sign: Sign) -> Sort
    ensures { result ≡ sort_of_name sign }
{
    match sign {
        Sign::Value => Sort::Value,
        Sign::Block => Sort::Block,
        Sign::Attribute => Sort::Attribute,
        Sign::Type => Sort::Type,
        Sign::Symbol => Sort::Other,
    }
}

// A word, by whether it is `loc`.
fn sort_of_word(is_loc: bool) -> Sort
    ensures { result ≡ sort_of_word is_loc }
{
    if is_loc { Sort::Loc } else { Sort::Word }
}

// Whether a token is the word `loc`.
fn is_loc(text: &[u8], token: Token) -> bool
    requires { IsWithin text.now token }
    ensures { result ≡ is_loc text.now token }
{
    let piece = &text[token.start as usize..token.end as usize];
    piece == b"loc".as_slice()
}

// What a token can be.
fn sort_of(text: &[u8], token: Token) -> Sort
    requires { IsWithin text.now token }
    ensures { result ≡ sort_of token.kind (is_loc text.now token) }
{
    match token.kind {
        Kind::Word => sort_of_word(is_loc(text, token)),
        Kind::Name(sign) => sort_of_name(sign),
        Kind::Quoted => Sort::Quoted,
        Kind::Group => Sort::Group,
        Kind::Arrow => Sort::Arrow,
        Kind::Mark(mark) => sort_of_mark(mark),
    }
}

/// A token as the tree sees it.
pub(crate) fn piece_of(text: &[u8], token: Token) -> Piece
    requires { IsWithin text.now token }
    ensures { result ≡ piece text.now token }
{
    Piece {
        sort: sort_of(text, token),
        span: Span {
            start: token.start,
            end: token.end,
        },
    }
}
