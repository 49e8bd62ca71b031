//! Laws of tokens and their spelling.
ghost use Rattle.std.specs.Prelude.{◌≡◌, ℕ, Bool, List, length, Ok, false};
ghost use Rattle.ir_text_tokens.specs.declared.token.Token.{Token};
ghost use Rattle.ir_text_tokens.specs.Readings.{read_of, scan_of, all_or_fault};
ghost use Rattle.ir_text_tokens.specs.Coverings.{Covers, GoForward, Lexeme, HaveSpelling, spelling, placed, lexemes};

/// Tokens that are all of a text are what is read of it.
pub fn covering_is_read()
    ensures { (ts : List Token) (text : List ℕ) → Covers 0 false text ts → read_of text ≡ Ok ts }
{}

/// What is read of a text is all of it.
pub fn reading_covers()
    ensures { (text : List ℕ) (ts : List Token) → read_of text ≡ Ok ts → Covers 0 false text ts }
{}

/// The tokens of a spelling are read, each at its place.
pub fn spelling_is_read()
    ensures { (xs : List Lexeme) → HaveSpelling false xs → read_of (spelling xs) ≡ Ok (placed 0 xs) }
{}

/// Those tokens are the ones that were spelled.
pub fn spelling_is_kept()
    ensures { (xs : List Lexeme) → lexemes (spelling xs) (placed 0 xs) ≡ xs }
{}

/// The tokens that are all of a text have a spelling.
pub fn read_has_spelling()
    ensures { (text : List ℕ) (ts : List Token) → Covers 0 false text ts → HaveSpelling false (lexemes text ts) }
{}

/// What is scanned of a text without a fault is what is read of it, and else the fault is the same.
pub fn scanning_reads()
    ensures { (text : List ℕ) → read_of text ≡ all_or_fault (scan_of text).tokens (scan_of text).fault }
{}

/// The spans of tokens that are all of a text go forward in it.
pub fn covering_goes_forward()
    ensures { (ts : List Token) (text : List ℕ) → Covers 0 false text ts → GoForward (length text) 0 ts }
{}
