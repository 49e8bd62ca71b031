//! How many parts of a sort each operation has.
ghost use Rattle.std.specs.Prelude.{◌≡◌, ◌≢◌, ◌+◌, ◌<◌, ◌^◌, length, vec_len, IfOk, IsTrue, ◌↔◌, if◌then◌else◌, slice_index_or, slice_set, replicate};
ghost use Rattle.ir_text_tree.specs.declared.row.Part.TheVariants as parts;
ghost use Rattle.ir_text_names.specs.declared.counting.Counted.TheVariants as counted;
ghost use Rattle.ir_text_names.specs.Counts.{is_counted, one_more, HasOtherTypes, IsCountWrong};
ghost use Rattle.ir_text_names.specs.Firsts.{IsChecked, IsFirst, IsFirstWrong};
ghost use Rattle.ir_text_names.specs.Operations.{AreCounted, AreOperations, number_of};
ghost use Rattle.ir_text_names.specs.Rows.{part_of};

use crate::fault::{Fault, Wrong};
use crate::firsts::{Found, fault_of, noted, told};
use crate::rows::{NumberedOperations, are_few, next_number, number_at, operations};
use ir_text_tree::{Part, Row};
use std::alloc::{AllocError, Global};

/// What is counted.
#[derive(Clone, Copy)]
pub(crate) enum Counted {
    /// Operands.
    Operands,
    /// Their types.
    OperandTypes,
    /// The types of results.
    ResultTypes,
    /// Keys.
    Keys,
}

/// Whether the part is of that sort.
pub(crate) fn is_counted(sort: Counted, part: Part) -> bool
    ensures { result ≡ is_counted sort part }
{
    match sort {
        Counted::Operands => match part {
            Part::Operand => true,
            _ => false,
        },
        Counted::OperandTypes => match part {
            Part::OperandType => true,
            _ => false,
        },
        Counted::ResultTypes => match part {
            Part::ResultType | Part::OnlyResultType => true,
            _ => false,
        },
        Counted::Keys => match part {
            Part::Key => true,
            _ => false,
        },
    }
}

// 1, if it is one to be counted.
fn one_if(is: bool) -> u32
    ensures { result ≡ (if is then 1 else 0) }
{
    if is { 1 } else { 0 }
}

/// Counts one more there, if it is one.
pub(crate) fn count_if(counts: &mut Vec<u32>, is: bool, at: usize)
    requires within { at < vec_len counts.old }
    requires fits { slice_index_or counts.old.items at 0 + 1 < 2 ^ 32 }
    ensures { counts.new.items ≡ (if is then slice_set counts.old.items at (slice_index_or counts.old.items at 0 + 1) else counts.old.items) }
{
    counts[at] += one_if(is);
}

/// How many parts of each sort each operation has, by its number.
#[derive(Drop)]
pub(crate) struct PartCounts {
    /// Operands.
    pub(crate) operands: Vec<u32>,
    /// Their types.
    pub(crate) operand_types: Vec<u32>,
    /// The types of results.
    pub(crate) result_types: Vec<u32>,
    /// Keys.
    pub(crate) keys: Vec<u32>,
}

// So many numbers of which each is 0, for each sort.
fn none_counted(alloc: Global, room: usize) -> Result<PartCounts, AllocError>
    ensures operands { IfOk result (λ c. c.operands.items ≡ replicate room 0) }
    ensures operand_types { IfOk result (λ c. c.operand_types.items ≡ replicate room 0) }
    ensures result_types { IfOk result (λ c. c.result_types.items ≡ replicate room 0) }
    ensures keys { IfOk result (λ c. c.keys.items ≡ replicate room 0) }
{
    let operands = vec![in alloc; 0u32; room]?;
    let operand_types = vec![in alloc; 0u32; room]?;
    let result_types = vec![in alloc; 0u32; room]?;
    let keys = vec![in alloc; 0u32; room]?;
    Ok(PartCounts {
        operands,
        operand_types,
        result_types,
        keys,
    })
}

// Counts one part more there, if it is of one of the sorts.
fn count_part(counts: &mut PartCounts, part: Part, at: usize)
    requires operands { at < vec_len counts.old.operands }
    requires operand_types { at < vec_len counts.old.operand_types }
    requires result_types { at < vec_len counts.old.result_types }
    requires keys { at < vec_len counts.old.keys }
    requires operands_fit { slice_index_or counts.old.operands.items at 0 + 1 < 2 ^ 32 }
    requires operand_types_fit { slice_index_or counts.old.operand_types.items at 0 + 1 < 2 ^ 32 }
    requires result_types_fit { slice_index_or counts.old.result_types.items at 0 + 1 < 2 ^ 32 }
    requires keys_fit { slice_index_or counts.old.keys.items at 0 + 1 < 2 ^ 32 }
    ensures operands { counts.new.operands.items ≡ one_more counted.Operands part at counts.old.operands.items }
    ensures operand_types { counts.new.operand_types.items ≡ one_more counted.OperandTypes part at counts.old.operand_types.items }
    ensures result_types { counts.new.result_types.items ≡ one_more counted.ResultTypes part at counts.old.result_types.items }
    ensures keys { counts.new.keys.items ≡ one_more counted.Keys part at counts.old.keys.items }
{
    match part {
        Part::Operand => counts.operands[at] += 1,
        Part::OperandType => counts.operand_types[at] += 1,
        Part::ResultType | Part::OnlyResultType => counts.result_types[at] += 1,
        Part::Key => counts.keys[at] += 1,
        _ => {}
    }
}

/// How many parts of each sort each operation has, by its number.
pub(crate) fn part_counts(
    alloc: Global,
    rows: &[Row],
    operations: &NumberedOperations,
) -> Result<PartCounts, AllocError>
    requires { AreOperations rows.now operations.now }
    ensures operands { IfOk result (λ c. AreCounted counted.Operands rows.now (length rows.now) c.operands.items) }
    ensures operand_types { IfOk result (λ c. AreCounted counted.OperandTypes rows.now (length rows.now) c.operand_types.items) }
    ensures result_types { IfOk result (λ c. AreCounted counted.ResultTypes rows.now (length rows.now) c.result_types.items) }
    ensures keys { IfOk result (λ c. AreCounted counted.Keys rows.now (length rows.now) c.keys.items) }
{
    let mut counts = none_counted(alloc, operations.count + 1)?;
    for (at, row) in rows.iter().enumerate() {
        let number = number_at(&operations.numbers, at);
        count_part(&mut counts, row.part, number);
    }
    Ok(counts)
}

// Whether the part is the name of an operation and the numbers differ.
fn differs(part: Part, one: u32, other: u32) -> bool
    ensures { IsTrue result ↔ ((part ≡ parts.Name) × (one ≢ other)) }
{
    match part {
        Part::Name => one != other,
        _ => false,
    }
}

// The first operation that has other numbers.
fn first_different(rows: &[Row], some: &[u32], others: &[u32]) -> Option<usize>
    requires few { length rows.now < 4294967295 }
    requires some { length some.now ≡ number_of rows.now (length rows.now) + 1 }
    requires others { length others.now ≡ number_of rows.now (length rows.now) + 1 }
    ensures { IsFirst (λ i. (part_of rows.now i ≡ parts.Name) × (slice_index_or some.now (number_of rows.now (i + 1)) 0 ≢ slice_index_or others.now (number_of rows.now (i + 1)) 0)) (length rows.now) result }
{
    if some == others {
        return None;
    }
    let mut first = None;
    let mut number = 0;
    for (at, row) in rows.iter().enumerate() {
        number = next_number(row.part, number);
        first = noted(first, at, differs(row.part, some[number], others[number]));
    }
    first
}

/// The first operation that has more or fewer operand types than operands.
pub(crate) fn type_fault(rows: &[Row], counts: &PartCounts) -> Option<Found>
    requires few { length rows.now < 4294967295 }
    requires operands { AreCounted counted.Operands rows.now (length rows.now) counts.now.operands.items }
    requires operand_types { AreCounted counted.OperandTypes rows.now (length rows.now) counts.now.operand_types.items }
    ensures { IsFirstWrong (IsCountWrong rows.now) (length rows.now) result }
{
    let first = first_different(rows, &counts.operands, &counts.operand_types);
    told(first, Wrong::OperandTypes)
}

/// Whether each operation of a tree has as many operand types as operands.
///
/// # Errors
/// `OutOfMemory`, also of more than 4,294,967,294 rows, and else the name of the first operation that has more or fewer.
pub fn operand_types(alloc: Global, rows: &[Row]) -> Result<(), Fault>
    ensures { IsChecked (IsCountWrong rows.now) rows.now result }
{
    are_few(rows)?;
    let operations = operations(alloc, rows)?;
    let counts = part_counts(alloc, rows, &operations)?;
    let found = type_fault(rows, &counts);
    match fault_of(rows, found) {
        Some(fault) => Err(fault),
        None => Ok(()),
    }
}
