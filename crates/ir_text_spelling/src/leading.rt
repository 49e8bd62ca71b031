//! Whether a text goes on with what leads to a part.
ghost use Rattle.std.specs.Prelude.{◌≡◌, ◌++◌, IfSome, IsTrue};
ghost use Rattle.ir_text_spelling.specs.Marks.{opening, closing, levels, blanks, before, between};

use crate::mark::{closing, is_joined, joint, levels, opening};
use crate::writing::{MOST, blanks_of};
use ir_text_tree::Part;

// Whether two texts are the same.
fn are_same(one: &[u8], other: &[u8]) -> bool
    ensures { IsTrue result → one.now ≡ other.now }
{
    one == other
}

// What stands behind a front part of a text, if the text begins with that.
fn behind<'a>(text: &'a [u8], front: &[u8]) -> Option<&'a [u8]>
    ensures { IfSome result (λ rest. text.now ≡ front.now ++ rest.now) }
{
    if front.len() <= text.len() && are_same(&text[..front.len()], front) {
        Some(&text[front.len()..])
    } else {
        None
    }
}

// Whether a text is the blanks of so many levels, of which there are not very many.
fn are_blanks(text: &[u8], levels: usize) -> bool
    ensures { IsTrue result → text.now ≡ blanks levels }
{
    levels <= MOST && are_same(text, blanks_of(levels))
}

// Whether a text leads to the first part of another list, or to the next line with its indentation.
fn opens(text: &[u8], depth: usize, last: Part, next: Part) -> bool
    ensures { IsTrue result → text.now ≡ opening last next ++ blanks (levels depth next) }
{
    match behind(text, opening(last, next).as_bytes()) {
        Some(rest) => are_blanks(rest, levels(depth, next)),
        None => false,
    }
}

// Whether a text closes a list and leads on from there.
fn closes(text: &[u8], depth: usize, last: Part, next: Part) -> bool
    ensures { IsTrue result → text.now ≡ closing last ++ (opening last next ++ blanks (levels depth next)) }
{
    match behind(text, closing(last).as_bytes()) {
        Some(rest) => opens(rest, depth, last, next),
        None => false,
    }
}

// Whether a text stands between two parts, in so many open regions.
fn stands_between(text: &[u8], depth: usize, last: Part, next: Part) -> bool
    ensures { IsTrue result → text.now ≡ between depth last next }
{
    if is_joined(last, next) {
        are_same(text, joint(last, next).as_bytes())
    } else {
        closes(text, depth, last, next)
    }
}

/// Whether a text is what stands before a part. In more than 32 open regions no is said of all that begins a line.
pub(crate) fn leads_to(text: &[u8], depth: usize, last: Option<Part>, next: Part) -> bool
    ensures { IsTrue result → text.now ≡ before depth last next }
{
    match last {
        None => text.is_empty(),
        Some(last) => stands_between(text, depth, last, next),
    }
}
