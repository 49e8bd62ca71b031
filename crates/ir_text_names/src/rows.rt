//! What the rows of a tree say of each row: its name, its region and its operation.
ghost use Rattle.std.specs.Prelude.{◌≡◌, ◌<◌, ◌+◌, ◌^◌, length, reverse, vec_len, slice_index_or, IfOk, OnOk};
ghost use Rattle.ir_text_names.specs.Operations.{AreOperations, number_on};
ghost use Rattle.ir_text_names.specs.Rows.{piece, row_regions, regions_behind, operations_behind, top};

use ir_text_tree::{Part, Row, Span};
use std::alloc::{AllocError, Global};

// Rows are counted in 32 bits, where 0 may stand for none.
const LIMIT: usize = 4294967295;

/// Whether there are so few rows that each has a number of 32 bits.
pub(crate) fn are_few(rows: &[Row]) -> Result<(), AllocError>
    ensures { OnOk result (length rows.now < 4294967295) }
{
    if rows.len() < LIMIT {
        Ok(())
    } else {
        Err(AllocError)
    }
}

/// The piece of a text, as far as it lies in the text.
pub fn piece<'a>(text: &'a [u8], span: Span) -> &'a [u8]
    ensures { result.now ≡ piece text.now span }
{
    let end = text.len().min(span.end as usize);
    let start = end.min(span.start as usize);
    &text[start..end]
}

// The last of these, or 0.
fn top(around: &Vec<u32>) -> u32
    ensures { result ≡ top (reverse around.now.items) }
{
    match around.last() {
        Some(last) => *last,
        None => 0,
    }
}

// Opens a region whose first row has that index, or ends the last; the innermost region behind, where that was the innermost.
fn nest(around: &mut Vec<u32>, part: Part, behind: u32, innermost: u32) -> Result<u32, AllocError>
    requires { innermost ≡ top (reverse around.old.items) }
    ensures around { OnOk result (reverse around.new.items ≡ regions_behind part behind (reverse around.old.items)) }
    ensures innermost { IfOk result (λ i. i ≡ top (reverse around.new.items)) }
{
    match part {
        Part::Open => {
            around.push(behind)?;
            Ok(behind)
        }
        Part::Close => {
            around.pop();
            Ok(top(around))
        }
        _ => Ok(innermost),
    }
}

/// For each row the region that it stands in, by the index of the region's first row; 0 outside all regions. What stood in the room before is gone.
pub(crate) fn regions(alloc: Global, rows: &[Row], room: Vec<u32>) -> Result<Vec<u32>, AllocError>
    requires { length rows.now < 4294967295 }
    ensures { IfOk result (λ v. v.items ≡ row_regions rows.now) }
{
    let mut regions = room;
    regions.clear();
    regions.reserve(rows.len())?;
    let mut around = Vec::new(alloc);
    let mut innermost = 0;
    for (at, row) in rows.iter().enumerate() {
        regions.push(innermost)?;
        innermost = nest(&mut around, row.part, (at + 1) as u32, innermost)?;
    }
    Ok(regions)
}

// Goes into a region or out of it, or on to the operation with that number; the last operation of the innermost region behind, where that was the last.
fn follow(around: &mut Vec<u32>, part: Part, number: u32, innermost: u32) -> Result<u32, AllocError>
    requires { innermost ≡ top (reverse around.old.items) }
    ensures around { OnOk result (reverse around.new.items ≡ operations_behind part number (reverse around.old.items)) }
    ensures innermost { IfOk result (λ i. i ≡ top (reverse around.new.items)) }
{
    match part {
        Part::Open => {
            around.push(0)?;
            Ok(0)
        }
        Part::Close => {
            around.pop();
            Ok(top(around))
        }
        Part::Name => {
            around.pop();
            around.push(number)?;
            Ok(number)
        }
        _ => Ok(innermost),
    }
}

/// How many operations' names there are, where there were so many before the part.
pub(crate) fn next_number(part: Part, number: usize) -> usize
    requires { number + 1 < 2 ^ 64 }
    ensures { result ≡ number_on part number }
{
    match part {
        Part::Name => number + 1,
        _ => number,
    }
}

/// The operations of a tree, numbered from 1 in the order of their names.
#[derive(Drop)]
pub(crate) struct NumberedOperations {
    /// How many there are.
    pub(crate) count: usize,
    /// For each row the number of the operation whose name stands last before it in its region; 0 where none does.
    pub(crate) numbers: Vec<u32>,
}

/// The operations of a tree.
pub(crate) fn operations(alloc: Global, rows: &[Row]) -> Result<NumberedOperations, AllocError>
    requires { length rows.now < 4294967295 }
    ensures { IfOk result (AreOperations rows.now) }
{
    let mut numbers = Vec::with_capacity(alloc, rows.len())?;
    let mut around = Vec::new(alloc);
    let mut count = 0;
    let mut innermost = 0;
    for (_at, row) in rows.iter().enumerate() {
        numbers.push(innermost)?;
        count = next_number(row.part, count);
        innermost = follow(&mut around, row.part, count as u32, innermost)?;
    }
    Ok(NumberedOperations { count, numbers })
}

/// The number that stands there.
pub(crate) fn number_at(numbers: &Vec<u32>, at: usize) -> usize
    requires { at < vec_len numbers.now }
    ensures { result ≡ slice_index_or numbers.now.items at 0 }
{
    numbers[at] as usize
}
