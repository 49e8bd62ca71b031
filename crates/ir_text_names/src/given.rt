//! Names that rows give: where each was given last, and the first that was given before.
ghost use Rattle.std.specs.Prelude.{◌≡◌, length, IfOk, OnOk, IsTrue, ◌↔◌, ◌++◌, drop};
ghost use Rattle.ir_text_names.specs.Firsts.{IsFirst};
ghost use Rattle.ir_text_names.specs.Given.{giver, is_quoted, between_quotes, plain_name, is_escaped, escaped_name, escaped_names, name_of, is_asked, IsAgain, AreAsked, AreGiven};
ghost use Rattle.ir_text_names.specs.Places.{row_at};
ghost use Rattle.ir_text_names.specs.Rows.{piece};

use crate::firsts::noted;
use crate::places::put_if;
use crate::rows::piece;
use ir_text_strings::{extend_unescaped, has_escapes, unescaped_len};
use ir_text_tree::{Part, Row};
use std::alloc::{AllocError, Global};
use std::collections::HashMap;

/// Names that are given once in their scope.
#[derive(Clone, Copy)]
pub(crate) enum NameKind {
    /// A block's, in its region.
    Block,
    /// A key, in its dictionary.
    Key,
}

/// The names that were given.
#[derive(Drop)]
pub(crate) struct GivenNames<'a> {
    /// The row that gave a name in a scope last.
    pub(crate) places: HashMap<(usize, &'a [u8]), usize>,
    /// The first row that gave a name again.
    pub(crate) again: Option<usize>,
}

// Whether the part gives such a name.
fn gives(kind: NameKind, part: Part) -> bool
    ensures { IsTrue result ↔ (part ≡ giver kind) }
{
    match kind {
        NameKind::Block => match part {
            Part::Label => true,
            _ => false,
        },
        NameKind::Key => match part {
            Part::Key => true,
            _ => false,
        },
    }
}

// Whether the text begins with a quote.
fn is_quoted(text: &[u8]) -> bool
    ensures { result ≡ is_quoted text.now }
{
    match text.first() {
        Some(byte) => *byte == b'"',
        None => false,
    }
}

// The text between its quotes.
fn between_quotes<'a>(text: &'a [u8]) -> &'a [u8]
    requires { IsTrue (is_quoted text.now) }
    ensures { result.now ≡ between_quotes text.now }
{
    let end = text.len().saturating_sub(1).max(1);
    &text[1..end]
}

// The name that the text of such a part is, if it has no escapes.
fn plain_name<'a>(kind: NameKind, text: &'a [u8]) -> &'a [u8]
    ensures { result.now ≡ plain_name kind text.now }
{
    match kind {
        NameKind::Block => text,
        NameKind::Key => {
            if is_quoted(text) {
                between_quotes(text)
            } else {
                text
            }
        }
    }
}

// Whether the text of the part is a name with escapes.
fn is_escaped(kind: NameKind, part: Part, text: &[u8]) -> bool
    ensures { result ≡ is_escaped kind part text.now }
{
    match kind {
        NameKind::Block => false,
        NameKind::Key => match part {
            Part::Key => is_quoted(text) && has_escapes(between_quotes(text)),
            _ => false,
        },
    }
}

// Puts the name that the row gives behind the others, if it has escapes.
#[inline(always)]
fn extend_escaped(
    names: &mut Vec<u8>,
    kind: NameKind,
    text: &[u8],
    row: Row,
) -> Result<(), AllocError>
    ensures { OnOk result (names.new.items ≡ names.old.items ++ escaped_name kind row.part (piece text.now row.span)) }
{
    if gives(kind, row.part) {
        let name = piece(text, row.span);
        if is_escaped(kind, row.part, name) {
            extend_unescaped(names, between_quotes(name))?;
        }
    }
    Ok(())
}

/// The names with escapes that rows give, behind one another.
pub(crate) fn escaped_names(
    alloc: Global,
    kind: NameKind,
    text: &[u8],
    rows: &[Row],
) -> Result<Vec<u8>, AllocError>
    ensures { IfOk result (λ v. v.items ≡ escaped_names kind text.now rows.now) }
{
    let mut names = Vec::new(alloc);
    for row in rows {
        extend_escaped(&mut names, kind, text, *row)?;
    }
    Ok(names)
}

// A name, and the names with escapes that are given behind it.
#[derive(Clone, Copy)]
struct NextName<'a> {
    name: &'a [u8],
    escaped: &'a [u8],
}

// The name that the text of the part is, which is the first of those with escapes if it has some.
fn next_name<'a>(kind: NameKind, part: Part, text: &'a [u8], escaped: &'a [u8]) -> NextName<'a>
    requires { escaped.now ≡ escaped_name kind part text.now ++ drop (length (escaped_name kind part text.now)) escaped.now }
    ensures name { part ≡ giver kind → result.name.now ≡ name_of (giver kind) text.now }
    ensures escaped { result.escaped.now ≡ drop (length (escaped_name kind part text.now)) escaped.now }
{
    if is_escaped(kind, part, text) {
        let (name, escaped) = escaped.split_at(unescaped_len(between_quotes(text)));
        NextName { name, escaped }
    } else {
        NextName {
            name: plain_name(kind, text),
            escaped,
        }
    }
}

// Whether names in that scope may be the same: of keys more than one stands there.
fn is_asked(kind: NameKind, counts: &[u32], scope: usize) -> bool
    ensures { result ≡ is_asked kind counts.now scope }
{
    match kind {
        NameKind::Block => true,
        NameKind::Key => match counts.get(scope) {
            Some(count) => *count > 1,
            None => false,
        },
    }
}

/// The names that rows give in the scopes in which they stand, as far as they may be the same; `escaped` has those with escapes, and `counts` tells of each scope how many keys stand there.
pub(crate) fn given<'a>(
    alloc: Global,
    kind: NameKind,
    text: &'a [u8],
    escaped: &'a [u8],
    rows: &[Row],
    scopes: &[u32],
    counts: &[u32],
) -> Result<GivenNames<'a>, AllocError>
    requires counted { length scopes.now ≡ length rows.now }
    requires escaped { escaped.now ≡ escaped_names kind text.now rows.now }
    requires asked { AreAsked (giver kind) rows.now scopes.now (is_asked kind counts.now) }
    ensures places { IfOk result (λ g. AreGiven (giver kind) text.now rows.now scopes.now (is_asked kind counts.now) (length rows.now) (row_at g.places)) }
    ensures again { IfOk result (λ g. IsFirst (IsAgain (giver kind) text.now rows.now scopes.now) (length rows.now) g.again) }
{
    let mut places = HashMap::new(alloc);
    let mut again = None;
    let mut behind = escaped;
    for (at, row) in rows.iter().enumerate() {
        if gives(kind, row.part) {
            let next = next_name(kind, row.part, piece(text, row.span), behind);
            behind = next.escaped;
            let scope = scopes[at] as usize;
            let asked = is_asked(kind, counts, scope);
            let twice = put_if(&mut places, asked, scope, next.name, at)?;
            again = noted(again, at, twice);
        }
    }
    Ok(GivenNames { places, again })
}
