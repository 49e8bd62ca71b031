//! The rows of a tree, and whether a part of the context is what a row says.
ghost use Rattle.std.specs.Prelude.{◌≡◌, ◌+◌, IfOk, OnOk, IsTrue};
ghost use Rattle.std.specs.Option.{option_copied};
ghost use Rattle.ir_text_described.specs.Trees.{bytes_at, part_at, text_at};
ghost use Rattle.ir_text_described.specs.Written.{MayStand};
ghost use Rattle.ir_text_names.specs.Given.{between_quotes, is_quoted, unquoted};
ghost use Rattle.ir_text_strings.specs.Escapes.{unescaped};
ghost use Rattle.generic_text.specs.Checks.{setting_of};

use crate::check::Check;
use crate::described_error::DescribedErr;
use ir_text_names::{Part, piece};
use ir_text_strings::{has_escapes, unescaped};
use std::alloc::{AllocError, Global};

/// What the row is.
pub(crate) fn part_at(check: &Check, at: usize) -> Part
    ensures { result ≡ part_at (setting_of check.now).tree at }
{
    match check.rows.get(at) {
        Some(row) => row.part,
        None => Part::Result,
    }
}

/// The piece of the text that the row is.
pub(crate) fn text_at<'a>(check: &Check<'a>, at: usize) -> &'a [u8]
    ensures { result.now ≡ text_at (setting_of check.now).tree at }
{
    match check.rows.get(at) {
        Some(row) => piece(check.text, row.span),
        None => &check.text[..0],
    }
}

/// The row that stands so many behind another.
pub(crate) fn behind(at: usize, by: usize) -> Result<usize, DescribedErr>
    ensures { IfOk result (λ next. next ≡ at + by) }
{
    at.checked_add(by).ok_or(DescribedErr::Differs { row: at })
}

/// The row is that part.
pub(crate) fn expect_part(check: &Check, part: Part, at: usize) -> Result<(), DescribedErr>
    ensures { OnOk result (part_at (setting_of check.now).tree at ≡ part) }
{
    if part_at(check, at) == part {
        Ok(())
    } else {
        Err(DescribedErr::Differs { row: at })
    }
}

/// The row is that text.
pub(crate) fn expect_text(check: &Check, text: &[u8], at: usize) -> Result<(), DescribedErr>
    ensures { OnOk result (text_at (setting_of check.now).tree at ≡ text.now) }
{
    if text_at(check, at) == text {
        Ok(())
    } else {
        Err(DescribedErr::Differs { row: at })
    }
}

// Whether a text begins with a quote.
fn is_quoted(text: &[u8]) -> bool
    ensures { result ≡ is_quoted text.now }
{
    match text.first() {
        Some(byte) => *byte == b'"',
        None => false,
    }
}

// A text between its quotes.
fn between_quotes<'a>(text: &'a [u8]) -> &'a [u8]
    requires { IsTrue (is_quoted text.now) }
    ensures { result.now ≡ between_quotes text.now }
{
    let end = text.len().saturating_sub(1).max(1);
    &text[1..end]
}

// Whether a text between quotes stands for these bytes.
fn stands_for(alloc: Global, text: &[u8], bytes: &[u8]) -> Result<bool, AllocError>
    ensures { IfOk result (λ is. IsTrue is → unescaped text.now ≡ bytes.now) }
{
    if has_escapes(text) {
        let meant = unescaped(alloc, text)?;
        Ok(meant.as_slice() == bytes)
    } else {
        Ok(text == bytes)
    }
}

// Whether a name or a key stands for these bytes.
fn names(alloc: Global, text: &[u8], bytes: &[u8]) -> Result<bool, AllocError>
    ensures { IfOk result (λ is. IsTrue is → unquoted text.now ≡ bytes.now) }
{
    if is_quoted(text) {
        stands_for(alloc, between_quotes(text), bytes)
    } else {
        Ok(text == bytes)
    }
}

/// The row is a name or a key that stands for these bytes.
pub(crate) fn expect_bytes(check: &Check, bytes: &[u8], at: usize) -> Result<(), DescribedErr>
    ensures { OnOk result (bytes_at (setting_of check.now).tree at ≡ bytes.now) }
{
    if names(check.ctx.alloc(), text_at(check, at), bytes)? {
        Ok(())
    } else {
        Err(DescribedErr::Differs { row: at })
    }
}

/// The row is that part with that text, if there is a text; the row behind it.
pub(crate) fn expect_if(
    check: &Check,
    part: Part,
    text: Option<&[u8]>,
    at: usize,
) -> Result<usize, DescribedErr>
    ensures { IfOk result (λ next. MayStand (setting_of check.now) part (option_copied text.entry) at next) }
{
    match text {
        None => Ok(at),
        Some(text) => {
            expect_part(check, part, at)?;
            expect_text(check, text, at)?;
            behind(at, 1)
        }
    }
}
