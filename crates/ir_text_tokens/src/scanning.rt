//! From a text to its tokens, a byte at a time.
ghost use Rattle.std.specs.Prelude.{◌≡◌, ◌≢◌, ◌↔◌, ◌+◌, ◌<◌, ◌≤◌, ◌&&◌, ℕ, Bool, nat_eq, false, List, drop, slice_index_or, length, Ok, Err, IfOk, IfErr, IfSome, OnOk};
ghost use Rattle.std.specs.List.{All};
ghost use Rattle.ir_text_tokens.specs.declared.fault.Fault.TheVariants.{TooLong};
ghost use Rattle.ir_text_tokens.specs.Faults.{StopsWithin};
ghost use Rattle.ir_text_tokens.specs.ByteClasses.{class_of_byte, class_ahead};
ghost use Rattle.ir_text_tokens.specs.declared.token.Bracket.{Bracket};
ghost use Rattle.ir_text_tokens.specs.ReaderSteps.{glued_behind, start_at, stays};
ghost use Rattle.ir_text_tokens.specs.Readings.{IsReading, IsNext, renested, read_of, scanning};
ghost use Rattle.ir_text_tokens.specs.Coverings.{Covers, GoForward, IsWithin, Lexeme, HaveSpelling, spelling, lexemes, GivesAgain};

use crate::fault::{Fault, fault_of};
use crate::going_on::{is_gap, is_inner, is_plain, name_goes_on, number_goes_on, word_goes_on};
use crate::reader_step::{
    Mode, Nesting, Step, glued_behind, missing_at_end, reader_step, start_at,
};
use crate::token::{Bracket, Token};
use std::alloc::{AllocError, Global};

// Spans are numbers of 32 bits.
const LONGEST: usize = 4294967295;

// Opens a bracket, or closes the last.
fn renest(brackets: &mut Vec<Bracket>, nesting: Nesting) -> Result<(), AllocError>
    ensures { OnOk result (brackets.new.items ≡ renested nesting brackets.old.items) }
{
    match nesting {
        Nesting::Kept => {}
        Nesting::Opened(bracket) => brackets.push(bracket)?,
        Nesting::Closed => {
            brackets.pop();
        }
    }
    Ok(())
}

// Whether the reader stays in this mode behind the byte at a place.
#[inline(always)]
fn stays(text: &[u8], mode: Mode, at: usize) -> bool
    requires { at < length text.now }
    ensures { result ≡ stays mode (class_of_byte (slice_index_or text.now at 0)) (class_ahead (drop (at + 1) text.now)) }
{
    match mode {
        Mode::Between => is_gap(text[at]),
        Mode::Word => word_goes_on(text, at + 1),
        Mode::Number(_) => number_goes_on(text, at + 1),
        Mode::Name(_) => name_goes_on(text, at + 1),
        Mode::Quoted(_) => is_plain(text[at]),
        Mode::Group => is_inner(text[at]),
        _ => false,
    }
}

// Whether a token that begins there stands right behind another, where one ends at that place or not.
fn is_glued(behind: bool, start: u32, at: u32) -> bool
    ensures { result ≡ (behind && nat_eq start at) }
{
    behind && start == at
}

// The first place from this one on behind which the reader doesn't stay in this mode, or the end of the text.
fn run_end(text: &[u8], mode: Mode, from: usize) -> usize
    requires { from ≤ length text.now }
    ensures passes { (start : ℕ) (glued : Bool) (s : List Bracket) → from < result → scanning from (start_at mode start from) glued mode s (drop from text.now) ≡ scanning result (start_at mode start result) (glued_behind mode glued) mode s (drop result text.now) }
    ensures forward { from ≤ result }
    ensures within { result ≤ length text.now }
{
    for at in from..text.len() {
        if !stays(text, mode, at) {
            return at;
        }
    }
    text.len()
}

/// The next token of a text that goes on at this place, outside all tokens; `behind` says whether another token ends there. None where blanks and comments alone follow. What is in `brackets` counts for nothing.
///
/// # Errors
/// `OutOfMemory`, and else the first fault from this place on.
pub fn next_token(
    text: &[u8],
    at: u32,
    behind: bool,
    brackets: &mut Vec<Bracket>,
) -> Result<Option<Token>, Fault>
    requires short { length text.now ≤ 4294967295 }
    requires within { at ≤ length text.now }
    // With the token goes what is scanned behind it.
    ensures reads { IsNext at behind text.now result }
    // The span of a token goes forward, and lies in the text behind this place.
    ensures within { IfOk result (λ o. IfSome o (IsWithin text.now)) }
    ensures behind { IfOk result (λ o. IfSome o (λ t. at ≤ t.start)) }
    // The place of a fault is in the text, or its end.
    ensures placed { IfErr result (StopsWithin text.now) }
    ensures not_too_long { IfErr result (λ e. e ≢ TooLong) }
{
    brackets.clear();
    let mut mode = Mode::Between;
    let mut index = run_end(text, mode, at as usize);
    let mut start = index as u32;
    let mut glued = is_glued(behind, start, at);
    while index < text.len() {
        let place = index as u32;
        match reader_step(text, mode, brackets, index) {
            Step::Go(to, nesting) => {
                renest(brackets, nesting)?;
                index = run_end(text, to, index + 1);
                start = start_at(to, start, index as u32);
                glued = glued_behind(to, glued);
                mode = to;
            }
            Step::Emit(kind) => {
                let end = place + 1;
                return Ok(Some(Token {
                    kind,
                    glued,
                    start,
                    end,
                }));
            }
            Step::Bad(problem) => return Err(fault_of(problem, place)),
        }
    }
    match missing_at_end(mode) {
        None => Ok(None),
        Some(problem) => Err(fault_of(problem, text.len() as u32)),
    }
}

// Reads all of the text.
fn scan(alloc: Global, text: &[u8]) -> Result<Vec<Token>, Fault>
    requires { length text.now ≤ 4294967295 }
    ensures reads { IsReading (λ v. v.items) result (read_of text.now) }
    ensures placed { IfErr result (StopsWithin text.now) }
    ensures short { IfErr result (λ e. e ≢ TooLong) }
{
    let mut tokens = Vec::new(alloc);
    let mut brackets = Vec::new(alloc);
    let mut at = 0;
    let mut behind = false;
    while let Some(token) = next_token(text, at, behind, &mut brackets)? {
        tokens.push(token)?;
        at = token.end;
        behind = true;
    }
    Ok(tokens)
}

/// The tokens of a text of at most 4,294,967,295 bytes.
///
/// # Errors
/// `TooLong` for a longer text, `OutOfMemory`, and else the first fault in the text.
pub fn tokens(alloc: Global, text: &[u8]) -> Result<Vec<Token>, Fault>
    // With blanks and comments between them the tokens are all of the text, each at its place.
    ensures found { IfOk result (λ v. Covers 0 false text.now v.items) }
    // Each span goes forward and lies in the text.
    ensures within { IfOk result (λ v. All (IsWithin text.now) v.items) }
    // The spans go forward.
    ensures in_order { IfOk result (λ v. GoForward (length text.now) 0 v.items) }
    // The tokens have a spelling, in which they are read again.
    ensures have_spelling { IfOk result (λ v. HaveSpelling false (lexemes text.now v.items)) }
    // Tokens that are so all of the text are the ones that are read, unless memory runs out.
    ensures only { (ts : List Token) → length text.now ≤ 4294967295 → Covers 0 false text.now ts → IsReading (λ v. v.items) result (Ok ts) }
    // The tokens of a spelling are read again, unless memory runs out.
    ensures again { (xs : List Lexeme) → length text.now ≤ 4294967295 → HaveSpelling false xs → text.now ≡ spelling xs → GivesAgain text.now result xs }
    ensures too_long { (result ≡ Err TooLong) ↔ (4294967295 < length text.now) }
    // The place of a fault is in the text, or its end.
    ensures placed { IfErr result (StopsWithin text.now) }
    // Which fault it is, and where.
    ensures exact { length text.now ≤ 4294967295 → IsReading (λ v. v.items) result (read_of text.now) }
{
    if text.len() > LONGEST {
        return Err(Fault::TooLong);
    }
    scan(alloc, text)
}
