//! From tokens to a text.
ghost use Rattle.std.specs.Prelude.{◌≡◌, ◌++◌, IfOk, OnOk};
ghost use Rattle.std.specs.List.{All};
ghost use Rattle.ir_text_tokens.specs.Coverings.{IsWithin, lexemes, lexeme, one_spelling, spelling};

use crate::token::Token;
use std::alloc::{AllocError, Global};

// Writes a token at the end.
fn spell_token(out: &mut Vec<u8>, text: &[u8], token: Token) -> Result<(), AllocError>
    requires { IsWithin text.now token }
    ensures { OnOk result (out.new.items ≡ out.old.items ++ one_spelling (lexeme text.now token)) }
{
    let piece = &text[token.start as usize..token.end as usize];
    if !token.glued {
        out.push(b' ')?;
    }
    out.extend_from_slice(piece)?;
    Ok(())
}

/// The tokens of a text, with a blank before each that isn't glued to the one before it.
///
/// # Errors
/// Memory was wanting.
pub fn spell(alloc: Global, text: &[u8], tokens: &[Token]) -> Result<Vec<u8>, AllocError>
    requires { All (IsWithin text.now) tokens.now }
    ensures { IfOk result (λ v. v.items ≡ spelling (lexemes text.now tokens.now)) }
{
    let mut out = Vec::new(alloc);
    for token in tokens {
        spell_token(&mut out, text, *token)?;
    }
    Ok(out)
}
