//! From rows to a text, by one loop.
ghost use Rattle.std.specs.Prelude.{◌≡◌, ◌++◌, IfOk, IfSome};
ghost use Rattle.ir_text_tree.specs.Trees.{Body, IsWholeText, tree_rows};
ghost use Rattle.ir_text_reader.specs.Texts.{SpellsTree};
ghost use Rattle.ir_text_spelling.specs.Marks.{opening, levels, blanks, before, between, ending};
ghost use Rattle.ir_text_spelling.specs.Spellings.{piece, rows_spelled};
ghost use Rattle.ir_text_spelling.specs.TreeTexts.{tree_text};
ghost use Rattle.ir_text_spelling.specs.RoundTrips.{SpellsAgain};
ghost use Rattle.ir_text_spelling.specs.Writings.{Leaves, Writes};

use crate::leading::leads_to;
use crate::mark::{closing, depth_behind, is_joined, joint, levels, opening, to_line_end};
use crate::spelling_laws::tree_text_spells_again;
use crate::writing::{write_blanks, write_bytes};
use ir_text_tree::{Part, Row, Span};
use std::alloc::{AllocError, Global};
use std::io;
use std::io::Write;

// The piece of a text that a span names.
fn piece_of(text: &[u8], span: Span) -> &[u8]
    ensures { result.now ≡ piece text.now span }
{
    let end = (span.end as usize).min(text.len());
    let start = (span.start as usize).min(end);
    &text[start..end]
}

// Writes what leads to the first part of another list, or to the next line with its indentation.
fn write_opening<W: Write>(output: &mut W, depth: usize, last: Part, next: Part) -> io::Result<()>
    ensures { Writes (W.contents output.old) (W.contents output.new) (opening last next ++ blanks (levels depth next)) result }
{
    write_bytes(output, opening(last, next).as_bytes())?;
    write_blanks(output, levels(depth, next))
}

// Writes what stands between two parts, in so many open regions.
fn write_between<W: Write>(output: &mut W, depth: usize, last: Part, next: Part) -> io::Result<()>
    ensures { Writes (W.contents output.old) (W.contents output.new) (between depth last next) result }
{
    if is_joined(last, next) {
        write_bytes(output, joint(last, next).as_bytes())
    } else {
        write_bytes(output, closing(last).as_bytes())?;
        write_opening(output, depth, last, next)
    }
}

// Writes what stands before a part.
fn write_before<W: Write>(
    output: &mut W,
    depth: usize,
    last: Option<Part>,
    next: Part,
) -> io::Result<()>
    ensures { Writes (W.contents output.old) (W.contents output.new) (before depth last next) result }
{
    match last {
        None => write_bytes(output, &[]),
        Some(last) => write_between(output, depth, last, next),
    }
}

// The piece that is left with a part and what leads to it behind it, where all that goes on in the text as it has to be written.
fn continued(text: &[u8], left: Span, depth: usize, last: Option<Part>, row: Row) -> Option<Span>
    ensures { IfSome result (λ more. piece text.now more ≡ piece text.now left ++ (before depth last row.part ++ piece text.now row.span)) }
{
    let gap = Span {
        start: left.end,
        end: row.span.start,
    };
    if left.start <= left.end
        && gap.start <= gap.end
        && row.span.start <= row.span.end
        && leads_to(piece_of(text, gap), depth, last, row.part)
    {
        Some(Span {
            start: left.start,
            end: row.span.end,
        })
    } else {
        None
    }
}

// Writes a piece that is left to be written, and what leads from there to a part.
fn write_left<W: Write>(
    output: &mut W,
    text: &[u8],
    left: Span,
    depth: usize,
    last: Option<Part>,
    next: Part,
) -> io::Result<()>
    ensures { Writes (W.contents output.old) (W.contents output.new) (piece text.now left ++ before depth last next) result }
{
    write_bytes(output, piece_of(text, left))?;
    write_before(output, depth, last, next)
}

// Writes a piece that is left to be written and a part behind what leads to it, but for a piece that is left of them.
fn write_row<W: Write>(
    output: &mut W,
    text: &[u8],
    left: Span,
    depth: usize,
    last: Option<Part>,
    row: Row,
) -> io::Result<Span>
    ensures { Leaves (W.contents output.old) (W.contents output.new) text.now (piece text.now left ++ (before depth last row.part ++ piece text.now row.span)) result }
{
    match continued(text, left, depth, last, row) {
        Some(more) => Ok(more),
        None => {
            write_left(output, text, left, depth, last, row.part)?;
            Ok(row.span)
        }
    }
}

// Writes what stands behind the last part.
fn write_end<W: Write>(output: &mut W, last: Option<Part>) -> io::Result<()>
    ensures { Writes (W.contents output.old) (W.contents output.new) (ending last) result }
{
    match last {
        None => write_bytes(output, &[]),
        Some(last) => {
            write_bytes(output, closing(last).as_bytes())?;
            write_bytes(output, to_line_end(last).as_bytes())
        }
    }
}

// Writes a piece that is left to be written, and what stands behind the last part.
fn write_rest<W: Write>(
    output: &mut W,
    text: &[u8],
    left: Span,
    last: Option<Part>,
) -> io::Result<()>
    ensures { Writes (W.contents output.old) (W.contents output.new) (piece text.now left ++ ending last) result }
{
    write_bytes(output, piece_of(text, left))?;
    write_end(output, last)
}

/// Writes the text of rows whose spans are pieces of this text: each piece as it stands there, a line for each operation, each head of a block and the end of each region. An operation is indented by two blanks for each region that it stands in; a block's head and the end of a region as the operation that has the region. A single type of a result stands in parentheses only where its row says so; braces, and parentheses of a block's head, stand only where something stands in them. The writer isn't flushed.
///
/// # Errors
/// What the writer answers that can't take the text.
pub fn spell_to<W: Write>(text: &[u8], rows: &[Row], output: &mut W) -> io::Result<()>
    // What is written is the text of the rows; a front part of it where the writer fails.
    ensures exact { Writes (W.contents output.old) (W.contents output.new) (rows_spelled text.now rows.now) result }
    // If they are the rows of a tree, that is the text of the tree.
    ensures tree { (b : Body) → rows.now ≡ tree_rows b → Writes (W.contents output.old) (W.contents output.new) (tree_text text.now b) result }
{
    let mut depth = 0;
    let mut last = None;
    // What is written as it stands in the text is written at once.
    let mut left = Span { start: 0, end: 0 };
    for row in rows {
        left = write_row(output, text, left, depth, last, *row)?;
        depth = depth_behind(row.part, depth);
        last = Some(row.part);
    }
    write_rest(output, text, left, last)
}

/// The text that `spell_to` writes.
///
/// # Errors
/// Memory was wanting.
pub fn spell(alloc: Global, text: &[u8], rows: &[Row]) -> Result<Vec<u8>, AllocError>
    // What is written is the text of the rows.
    ensures exact { IfOk result (λ v. v.items ≡ rows_spelled text.now rows.now) }
    // If they are the rows of a tree, that is the text of the tree.
    ensures tree { (b : Body) → rows.now ≡ tree_rows b → IfOk result (λ v. v.items ≡ tree_text text.now b) }
    // If that tree was read of this text, what is written spells it again: the same parts, each the same piece.
    ensures again { (b : Body) → rows.now ≡ tree_rows b → IsWholeText b → SpellsTree text.now b → IfOk result (λ v. SpellsAgain v.items text.now b) }
{
    tree_text_spells_again();
    let mut out = Vec::new(alloc);
    match spell_to(text, rows, &mut out) {
        Ok(()) => Ok(out),
        Err(_) => Err(AllocError),
    }
}
