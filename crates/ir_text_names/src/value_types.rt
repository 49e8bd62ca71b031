//! Operands' types against those of the values that they name.
ghost use Rattle.std.specs.Prelude.{◌≡◌, ◌≢◌, ℕ, ◌<◌, Some, None, length, slice_index_or, IfOk, IsTrue, ◌↔◌};
ghost use Rattle.ir_text_names.specs.Firsts.{IsFirst};
ghost use Rattle.ir_text_names.specs.Indices.{IsEntryBeyond, IsOneOf};
ghost use Rattle.ir_text_names.specs.Operations.{AreCounted, AreOperations};
ghost use Rattle.ir_text_names.specs.declared.counting.Counted.TheVariants as counted;
ghost use Rattle.ir_text_names.specs.Rows.{text_of};
ghost use Rattle.ir_text_names.specs.Types.{HasOtherType, HasOtherTypeAt, IsEntryOther, IsTypeOther, IsOperandType, IsResultType, IsArgumentType, IsValueType};
ghost use Rattle.ir_text_tree.specs.declared.row.Part.TheVariants as parts;
ghost use Rattle.ir_text_names.specs.TypeTables.{AreTypeTables};
ghost use Rattle.ir_text_names.specs.Values.{IsNamedUnlessAgain, IsValueAgain};

use crate::counting::{Counted, PartCounts};
use crate::numbers::Amount;
use crate::row_table::RowTable;
use crate::rows::{NumberedOperations, number_at, piece};
use crate::type_places::{
    PlacedRows, find_spot, next_operations, own_types, placed, results_table,
};
use crate::value_numbers::{is_beyond, which};
use ir_text_tree::{Part, Row};
use std::alloc::{AllocError, Global};

/// What is known of the types of a tree.
#[derive(Drop)]
pub(crate) struct TypeTables<'a> {
    // The text.
    text: &'a [u8],
    // The rows.
    rows: &'a [Row],
    // For each operand its type.
    own: RowTable,
    // Results' types by their operation and place.
    results: PlacedRows,
    // For each row the operation that comes next.
    next: Vec<u32>,
    // For each row how many results stand in front of it.
    before: Vec<u32>,
}

/// Memory that two tables had.
#[derive(Drop)]
pub(crate) struct SpareRoom {
    /// That of one.
    pub(crate) one: Vec<u32>,
    /// That of the other.
    pub(crate) other: Vec<u32>,
}

impl<'a> TypeTables<'a> {
    /// The memory of two tables, for others.
    pub(crate) fn into_room(self) -> SpareRoom {
        SpareRoom {
            one: self.next,
            other: self.before,
        }
    }
}

/// What is known of the types of that tree.
pub(crate) fn type_tables<'a>(
    alloc: Global,
    text: &'a [u8],
    rows: &'a [Row],
    operations: NumberedOperations,
    counts: PartCounts,
    room: Vec<u32>,
    spare: Vec<u32>,
) -> Result<TypeTables<'a>, AllocError>
    requires operations { AreOperations rows.now operations }
    requires operand_types { AreCounted counted.OperandTypes rows.now (length rows.now) counts.operand_types.items }
    requires result_types { AreCounted counted.ResultTypes rows.now (length rows.now) counts.result_types.items }
    ensures tables { IfOk result AreTypeTables }
    ensures text { IfOk result (λ t. t.text.now ≡ text.now) }
    ensures rows { IfOk result (λ t. t.rows.now ≡ rows.now) }
{
    let count = operations.count;
    let results = placed(
        alloc,
        Counted::ResultTypes,
        rows,
        &operations,
        counts.result_types,
    )?;
    let own = own_types(alloc, rows, operations, counts.operand_types)?;
    let next = next_operations(rows, count, room)?;
    let before = results_table(text, rows, spare)?;
    Ok(TypeTables {
        text,
        rows,
        own,
        results,
        next,
        before,
    })
}

// The type of an operand.
fn operand_type(tables: &TypeTables, operand: usize) -> Option<usize>
    requires tables { AreTypeTables tables.now }
    requires within { operand < length tables.now.rows.now }
    ensures { (t : ℕ) → (result ≡ Some t) ↔ IsOperandType tables.now.rows.now operand t }
{
    tables.own.get(operand)
}

// The type of the result with that number under the name that a row gives.
fn result_type(tables: &TypeTables, definition: usize, number: usize) -> Option<usize>
    requires tables { AreTypeTables tables.now }
    requires within { definition < length tables.now.rows.now }
    ensures { (s : ℕ) → (result ≡ Some s) ↔ IsResultType tables.now.text.now tables.now.rows.now definition number s }
{
    let before = number_at(&tables.before, definition);
    let operation = number_at(&tables.next, definition);
    match before.checked_add(number) {
        Some(place) => find_spot(&tables.results, operation, place),
        None => None,
    }
}

// The row behind, if it is such a type.
fn if_argument_type(part: Part, row: usize) -> Option<usize>
    ensures { (s : ℕ) → (result ≡ Some s) ↔ ((s ≡ row) × (part ≡ parts.ArgumentType)) }
{
    match part {
        Part::ArgumentType => Some(row),
        _ => None,
    }
}

// The type of the argument whose name that row is.
fn argument_type(rows: &[Row], definition: usize) -> Option<usize>
    requires { definition < length rows.now }
    ensures { (s : ℕ) → (result ≡ Some s) ↔ IsArgumentType rows.now definition s }
{
    if definition + 1 < rows.len() {
        if_argument_type(rows[definition + 1].part, definition + 1)
    } else {
        None
    }
}

// The type of the value with that number under the name that a row gives.
fn value_type(tables: &TypeTables, definition: usize, number: usize) -> Option<usize>
    requires tables { AreTypeTables tables.now }
    requires within { definition < length tables.now.rows.now }
    ensures { (s : ℕ) → (result ≡ Some s) ↔ IsValueType tables.now.text.now tables.now.rows.now definition number s }
{
    match tables.rows[definition].part {
        Part::Argument => argument_type(tables.rows, definition),
        Part::Result => result_type(tables, definition, number),
        _ => None,
    }
}

// Whether the texts of two rows differ.
fn differ(text: &[u8], rows: &[Row], one: usize, other: usize) -> bool
    requires one { one < length rows.now }
    requires other { other < length rows.now }
    ensures { IsTrue result ↔ (text_of text.now rows.now one ≢ text_of text.now rows.now other) }
{
    piece(text, rows[one].span) != piece(text, rows[other].span)
}

// Whether an operand has another type than the value with that number under the name that a row gives.
fn has_other_type_at(tables: &TypeTables, operand: usize, definition: usize, number: usize) -> bool
    requires tables { AreTypeTables tables.now }
    requires operand { operand < length tables.now.rows.now }
    requires definition { definition < length tables.now.rows.now }
    ensures { IsTrue result ↔ HasOtherTypeAt tables.now.text.now tables.now.rows.now operand definition number }
{
    match value_type(tables, definition, number) {
        Some(value) => match operand_type(tables, operand) {
            Some(own) => differ(tables.text, tables.rows, own, value),
            None => false,
        },
        None => false,
    }
}

// Whether an operand has another type than the value that it names.
#[inline(always)]
fn has_other_type(tables: &TypeTables, operand: usize, definition: usize) -> bool
    requires tables { AreTypeTables tables.now }
    requires operand { operand < length tables.now.rows.now }
    requires definition { definition < length tables.now.rows.now }
    ensures { IsTrue result ↔ HasOtherType tables.now.text.now tables.now.rows.now operand definition }
{
    match which(tables.text, tables.rows, operand) {
        Amount::Small(number) => has_other_type_at(tables, operand, definition, number),
        _ => false,
    }
}

// Whether an operand has another type than the value of an entry.
#[inline(always)]
fn is_entry_other(tables: &TypeTables, operand: usize, entry: Option<usize>) -> bool
    requires tables { AreTypeTables tables.now }
    requires operand { operand < length tables.now.rows.now }
    ensures { IsTrue result ↔ ((d : ℕ) × (entry ≡ Some d) × (d < length tables.now.rows.now) × HasOtherType tables.now.text.now tables.now.rows.now operand d) }
{
    match entry {
        None => false,
        Some(definition) => {
            if definition < tables.rows.len() {
                has_other_type(tables, operand, definition)
            } else {
                false
            }
        }
    }
}

// Whether an operand is one of the values of an entry and has its type, if there is an entry.
fn is_well(tables: &TypeTables, operand: usize, entry: Option<usize>) -> bool
    requires tables { AreTypeTables tables.now }
    requires operand { operand < length tables.now.rows.now }
    ensures number { IsTrue result → (d : ℕ) → entry ≡ Some d → d < length tables.now.rows.now → ¬ ¬ IsOneOf tables.now.text.now tables.now.rows.now operand d }
    ensures own_type { IsTrue result → (d : ℕ) → entry ≡ Some d → d < length tables.now.rows.now → ¬ HasOtherType tables.now.text.now tables.now.rows.now operand d }
{
    !is_beyond(tables.text, tables.rows, operand, entry) && !is_entry_other(tables, operand, entry)
}

/// Whether each operand is one of the values that it names, and has its type.
pub(crate) fn are_well(tables: &TypeTables, table: &RowTable) -> bool
    requires tables { AreTypeTables tables.now }
    requires room { length table.now ≡ length tables.now.rows.now }
    ensures numbers { IsTrue result → IsFirst (IsEntryBeyond tables.now.text.now tables.now.rows.now table.now) (length tables.now.rows.now) None }
    ensures types { IsTrue result → IsFirst (IsEntryOther tables.now.text.now tables.now.rows.now table.now) (length tables.now.rows.now) None }
{
    for (at, _) in tables.rows.iter().enumerate() {
        if !is_well(tables, at, table.get(at)) {
            return false;
        }
    }
    true
}

// The first operand that has another type than the value that it names.
fn first_other_type(tables: &TypeTables, table: &RowTable) -> Option<usize>
    requires tables { AreTypeTables tables.now }
    requires room { length table.now ≡ length tables.now.rows.now }
    ensures { IsFirst (IsEntryOther tables.now.text.now tables.now.rows.now table.now) (length tables.now.rows.now) result }
{
    for (at, _) in tables.rows.iter().enumerate() {
        if is_entry_other(tables, at, table.get(at)) {
            return Some(at);
        }
    }
    None
}

/// The first operand that has another type than the value that it names, where nothing is defined twice; none where all are well.
pub(crate) fn other_type(
    tables: &TypeTables,
    again: Option<usize>,
    table: &RowTable,
    well: bool,
) -> Option<usize>
    requires tables { AreTypeTables tables.now }
    requires again { IsFirst (IsValueAgain tables.now.text.now tables.now.rows.now) (length tables.now.rows.now) again }
    requires room { length table.now ≡ length tables.now.rows.now }
    requires named { (u : ℕ) → u < length tables.now.rows.now → IsNamedUnlessAgain tables.now.text.now tables.now.rows.now u (slice_index_or table.now u None) }
    requires well { IsTrue well → IsFirst (IsEntryOther tables.now.text.now tables.now.rows.now table.now) (length tables.now.rows.now) None }
    ensures { IsFirst (IsTypeOther tables.now.text.now tables.now.rows.now) (length tables.now.rows.now) result }
{
    match again {
        Some(_) => None,
        None => {
            if well {
                None
            } else {
                first_other_type(tables, table)
            }
        }
    }
}
