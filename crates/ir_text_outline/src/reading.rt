//! Whether rows and names are those of their text.
ghost use Rattle.std.specs.Prelude.{◌≡◌, ◌↔◌, IfOk, IsTrue, MatchOption, length};
ghost use Rattle.ir_text_names.specs.Firsts.{HasNone};
ghost use Rattle.ir_text_names.specs.Resolved.{IsWrong};
ghost use Rattle.ir_text_outline.specs.Reading.{AreNamed, AreRows, AreTheRows, IsRead, IsUnread};

use crate::source::Source;
use ir_text_names::laws::{names_one_block, names_one_value};
use ir_text_names::{Names, RowTable, resolve};
use ir_text_reader::{Fault, parse};
use ir_text_tree::Row;
use std::alloc::{AllocError, Global};

// The rows of a text, if it spells a tree.
fn rows_of(alloc: Global, text: &[u8]) -> Result<Option<Vec<Row>>, AllocError>
    ensures { IfOk result (λ found. MatchOption found (IsUnread text.now) (λ rows. AreTheRows text.now rows.items)) }
{
    match parse(alloc, text) {
        Ok(tree) => Ok(Some(tree.rows)),
        Err(Fault::OutOfMemory) => Err(AllocError),
        Err(_) => Ok(None),
    }
}

// What the names of these rows mean, if none is wrong.
fn names_of(alloc: Global, text: &[u8], rows: &[Row]) -> Result<Option<Names>, AllocError>
    ensures { IfOk result (λ found. MatchOption found (HasNone (IsWrong text.now rows.now) (length rows.now) → ⊥) (λ names. AreNamed text.now rows.now names)) }
{
    match resolve(alloc, text, rows) {
        Ok(names) => Ok(Some(names)),
        Err(ir_text_names::Fault::OutOfMemory) => Err(AllocError),
        Err(_) => Ok(None),
    }
}

// Whether the rows are one.
fn is_one(one: Row, other: Row) -> bool
    ensures { IsTrue result ↔ (one ≡ other) }
{
    one == other
}

// Whether these are the same rows.
fn are_same(one: &[Row], other: &[Row]) -> bool
    ensures { IsTrue result ↔ (one.now ≡ other.now) }
{
    if one.len() != other.len() {
        return false;
    }
    for at in 0..one.len() {
        if !is_one(one[at], other[at]) {
            return false;
        }
    }
    true
}

// Whether the tables say the same of each row.
fn is_same(one: &RowTable, other: &RowTable) -> bool
    ensures { IsTrue result ↔ (one.now ≡ other.now) }
{
    if one.len() != other.len() {
        return false;
    }
    for at in 0..one.len() {
        if one.get(at) != other.get(at) {
            return false;
        }
    }
    true
}

impl<'a> Source<'a> {
    // Whether the text is read as these rows.
    fn has_rows(self, alloc: Global) -> Result<bool, AllocError>
        ensures { IfOk result (λ has. IsTrue has ↔ AreRows self.entry.text.now self.entry.rows.now) }
    {
        match rows_of(alloc, self.text)? {
            Some(rows) => Ok(are_same(self.rows, rows.as_slice())),
            None => Ok(false),
        }
    }

    // Whether no name is wrong, and these tables tell what each means.
    fn has_names(self, alloc: Global) -> Result<bool, AllocError>
        ensures { IfOk result (λ has. IsTrue has ↔ AreNamed self.entry.text.now self.entry.rows.now self.entry.names.now) }
    {
        names_one_block();
        names_one_value();
        match names_of(alloc, self.text, self.rows)? {
            Some(names) => Ok(
                is_same(&self.names.blocks, &names.blocks)
                    && is_same(&self.names.values, &names.values),
            ),
            None => Ok(false),
        }
    }

    /// Whether the rows are those that `parse` reads of the text, and the names those that `resolve` finds in them.
    ///
    /// It reads the text once more, so it is for telling a fault.
    ///
    /// # Errors
    /// Memory was wanting.
    pub fn is_read(self, alloc: Global) -> Result<bool, AllocError>
        ensures { IfOk result (λ is. IsTrue is ↔ IsRead self.entry.text.now self.entry.rows.now self.entry.names.now) }
    {
        if self.has_rows(alloc)? {
            self.has_names(alloc)
        } else {
            Ok(false)
        }
    }
}
