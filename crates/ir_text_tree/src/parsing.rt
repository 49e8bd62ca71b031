//! From tokens to the flat tree, by one loop.
ghost use Rattle.std.specs.Prelude.{◌≡◌, ◌+◌, ◌<◌, ◌≤◌, ◌^◌, ◌++◌, ◌∷◌, [], reverse, Ok, IfOk, IfErr, IfSome, OnOk};
ghost use Rattle.ir_text_tree.specs.TreeFaults.{fault_place};
ghost use Rattle.ir_text_tree.specs.TextSteps.{innermost, renested};
ghost use Rattle.ir_text_tree.specs.Trees.{Body, IsWholeText, Spells, tree_rows};
ghost use Rattle.ir_text_tree.specs.Parsings.{IsParsing, IsReadOn, IsReadOut, start_state, is_inside, ended_row, token_row, last_row, listed, text_behind, brackets_behind, depth_behind, rows_read};
ghost use Rattle.ir_text_tree.specs.Rows.{row, joined, GoForward, piece_spans, row_spans};

use crate::fault::Fault;
use crate::row::{Part, Row, Span};
use crate::sort::Piece;
use crate::text_step::{Bracket, Nesting};
use crate::tree_step::{Action, Mode, Step, is_whole, tree_step, wanted};
use std::alloc::{AllocError, Global};

// The last of the open brackets.
fn last_of(brackets: &Vec<Bracket>) -> Option<Bracket>
    ensures { result ≡ innermost (reverse brackets.now.items) }
{
    brackets.last().copied()
}

// Whether at least one region is open.
fn is_inside(depth: usize) -> bool
    ensures { result ≡ is_inside depth }
{
    depth > 0
}

// Opens a bracket, or closes the last.
fn renest(brackets: &mut Vec<Bracket>, nesting: Nesting) -> Result<(), AllocError>
    ensures { OnOk result (reverse brackets.new.items ≡ renested nesting (reverse brackets.old.items)) }
{
    match nesting {
        Nesting::Kept => {}
        Nesting::Opened(bracket) => brackets.push(bracket)?,
        Nesting::Closed => {
            brackets.pop();
        }
    }
    Ok(())
}

// The text with a token behind it.
fn joined(text: Span, token: Span) -> Span
    ensures { result ≡ joined text token }
{
    Span {
        start: text.start,
        end: token.end,
    }
}

// The row of the text that ends before a token, if one does.
fn ended_row(ended: Option<Part>, text: Span) -> Option<Row>
    ensures { result ≡ ended_row ended text }
{
    match ended {
        None => None,
        Some(part) => Some(Row { part, span: text }),
    }
}

// The row of a type that ends where the tokens end, if one does.
fn last_row(mode: Mode, text: Span) -> Option<Row>
    ensures { result ≡ last_row mode text }
{
    match mode {
        Mode::Bare => Some(Row {
            part: Part::OnlyResultType,
            span: text,
        }),
        _ => None,
    }
}

// Puts a row.
fn put_row(rows: &mut Vec<Row>, part: Part, span: Span) -> Result<(), AllocError>
    ensures { OnOk result (rows.new.items ≡ rows.old.items ++ row part span ∷ []) }
{
    rows.push(Row { part, span })?;
    Ok(())
}

// Puts a row, if there is one.
fn put(rows: &mut Vec<Row>, row: Option<Row>) -> Result<(), AllocError>
    ensures { OnOk result (rows.new.items ≡ rows.old.items ++ listed row) }
{
    if let Some(row) = row {
        put_row(rows, row.part, row.span)?;
    }
    Ok(())
}

/// Where the reader of a tree is, between two tokens.
#[derive(Clone, Copy)]
pub struct State {
    /// Which token may follow.
    pub mode: Mode,
    /// How many regions are open.
    pub depth: usize,
    /// The type, value or location that goes on; else a span that counts for nothing.
    pub text: Span,
}

// Where the reader is: in this mode, with so many regions open, and in that text.
fn state_of(mode: Mode, depth: usize, text: Span) -> State
    ensures mode { result.mode ≡ mode }
    ensures depth { result.depth ≡ depth }
    ensures text { result.text ≡ text }
{
    State { mode, depth, text }
}

// Does with a token what becomes of it: puts its row, if it has one, and opens or closes brackets. The answer is where the reader is then.
#[inline(always)]
fn act(
    rows: &mut Vec<Row>,
    brackets: &mut Vec<Bracket>,
    state: State,
    action: Action,
    token: Span,
    to: Mode,
) -> Result<State, AllocError>
    requires { state.depth + 1 < 2 ^ 64 }
    ensures rows { OnOk result (rows.new.items ≡ rows.old.items ++ listed (token_row action token state.text)) }
    ensures brackets { OnOk result (reverse brackets.new.items ≡ brackets_behind action (reverse brackets.old.items)) }
    ensures mode { IfOk result (λ s. s.mode ≡ to) }
    ensures depth { IfOk result (λ s. s.depth ≡ depth_behind action state.depth) }
    ensures text { IfOk result (λ s. s.text ≡ text_behind action token state.text) }
{
    let depth = state.depth;
    let text = state.text;
    match action {
        Action::Skip => Ok(state_of(to, depth, text)),
        Action::Put(part) => {
            put_row(rows, part, token)?;
            Ok(state_of(to, depth, text))
        }
        Action::Start(nesting) => {
            brackets.clear();
            renest(brackets, nesting)?;
            Ok(state_of(to, depth, token))
        }
        Action::Extend(nesting) => {
            renest(brackets, nesting)?;
            Ok(state_of(to, depth, joined(text, token)))
        }
        Action::Join(part) => {
            put_row(rows, part, joined(text, token))?;
            Ok(state_of(to, depth, text))
        }
        Action::Open => {
            put_row(rows, Part::Open, token)?;
            Ok(state_of(to, depth + 1, text))
        }
        Action::Close => {
            put_row(rows, Part::Close, token)?;
            Ok(state_of(to, depth.saturating_sub(1), text))
        }
    }
}

/// Before all tokens.
pub fn start() -> State
    ensures { result ≡ start_state }
{
    State {
        mode: Mode::Start,
        depth: 0,
        text: Span { start: 0, end: 0 },
    }
}

/// Reads one token more, and puts the rows that it completes behind the others. `brackets` are those that are open in the type, value or location that goes on. The answer is where the reader is then.
///
/// # Errors
/// `OutOfMemory`, or what has to stand in place of the token.
pub fn read_piece(
    rows: &mut Vec<Row>,
    brackets: &mut Vec<Bracket>,
    state: State,
    piece: Piece,
) -> Result<State, Fault>
    requires shallow { state.depth + 1 < 2 ^ 64 }
    // Of all tokens the same is read as before.
    ensures reads { IsReadOn rows.old.items (reverse brackets.old.items) state piece rows.new.items (reverse brackets.new.items) result }
    // At most one more region is open.
    ensures deepens { IfOk result (λ to. to.depth ≤ state.depth + 1) }
    // The place of a fault is where the token begins.
    ensures placed { IfErr result (λ e. IfSome (fault_place e) (λ at. at ≡ piece.span.start)) }
{
    let inside = is_inside(state.depth);
    let step = tree_step(state.mode, inside, last_of(brackets), piece.sort);
    let Step::Go { ended, action, to } = step else {
        return Err(Fault::Expected {
            wanted: wanted(state.mode, inside),
            at: piece.span.start,
        });
    };
    put(rows, ended_row(ended, state.text))?;
    let behind = act(rows, brackets, state, action, piece.span, to)?;
    Ok(behind)
}

/// Ends the tokens of a text of so many bytes, and puts the row of the type that ends there, if one does.
///
/// # Errors
/// `OutOfMemory`, or what has to stand at the end.
pub fn finish(rows: &mut Vec<Row>, state: State, end: u32) -> Result<(), Fault>
    // What is read of the tokens up to their end are the rows, or the fault.
    ensures reads { IsReadOut end rows.old.items state rows.new.items result }
    // The place of a fault is the end.
    ensures placed { IfErr result (λ e. IfSome (fault_place e) (λ at. at ≡ end)) }
{
    let inside = is_inside(state.depth);
    if !is_whole(state.mode, inside) {
        return Err(Fault::Expected {
            wanted: wanted(state.mode, inside),
            at: end,
        });
    }
    put(rows, last_row(state.mode, state.text))?;
    Ok(())
}

// Reads all of the tokens of a text that ends at that index.
fn read_all(alloc: Global, end: u32, pieces: &[Piece]) -> Result<Vec<Row>, Fault>
    ensures { IsParsing (λ v. v.items) result (rows_read end pieces.now) }
{
    let mut rows = Vec::new(alloc);
    let mut brackets = Vec::new(alloc);
    let mut state = start();
    for piece in pieces {
        state = read_piece(&mut rows, &mut brackets, state, *piece)?;
    }
    finish(&mut rows, state, end)?;
    Ok(rows)
}

/// The rows of the tokens of a text of so many bytes: of operations with all that stands in them, in the order of the text.
///
/// # Errors
/// `OutOfMemory`, and else the first fault.
pub fn parse(alloc: Global, end: u32, pieces: &[Piece]) -> Result<Vec<Row>, Fault>
    // What is read is a tree: the tokens spell it, and these are its rows.
    ensures found { IfOk result (λ v. (b : Body) × IsWholeText b × Spells pieces.now b × (v.items ≡ tree_rows b)) }
    // Tokens that spell a tree are read as its rows, unless memory runs out.
    ensures only { (b : Body) → IsWholeText b → Spells pieces.now b → IsParsing (λ v. v.items) result (Ok (tree_rows b)) }
    // Where the spans of the tokens go forward up to that end, so do the spans of the rows.
    ensures in_order { GoForward end 0 (piece_spans pieces.now) → IfOk result (λ v. GoForward end 0 (row_spans v.items)) }
    // Which fault it is, and where.
    ensures exact { IsParsing (λ v. v.items) result (rows_read end pieces.now) }
{
    read_all(alloc, end, pieces)
}
