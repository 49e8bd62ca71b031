//! Values' names: which definition an operand names.
ghost use Rattle.std.specs.Prelude.{◌≡◌, ◌<◌, ◌≤◌, ◌&&◌, ◌||◌, ℕ, List, Some, None, cond, length, nat_eq, slice_index_or, slice_set, IfOk, IfSome, OnOk, IsTrue, ◌↔◌, if◌then◌else◌};
ghost use Rattle.ir_text_tree.specs.declared.row.Part.TheVariants as parts;
ghost use Rattle.ir_text_names.specs.Firsts.{HasNone, IsChecked, IsFirst, IsFirstWrong};
ghost use Rattle.ir_text_names.specs.Operations.{AreCounted, AreOperations};
ghost use Rattle.ir_text_names.specs.declared.counting.Counted.TheVariants as counted;
ghost use Rattle.ir_text_names.specs.Rows.{part_of, row_regions};
ghost use Rattle.ir_text_names.specs.Values.{defines, still_open, clashes, reached, begins_before, IsValueAgain, AreValuesNamed, AreNamedBefore, AreNamedUnlessAgain, IsMissing, IsNamedUnlessAgain};
ghost use Rattle.ir_text_names.specs.Indices.{IsBeyond, IsEntryBeyond};
ghost use Rattle.ir_text_names.specs.Uses.{IsUseWrong};

use crate::block_names::misses;
use crate::counting::{PartCounts, part_counts};
use crate::fault::{Fault, Wrong};
use crate::firsts::{Found, fault_of, noted, sooner, told};
use crate::named_rows::NamedRows;
use crate::row_table::RowTable;
use crate::rows::{NumberedOperations, are_few, operations, piece, regions};
use crate::value_numbers::first_beyond;
use crate::value_types::{SpareRoom, are_well, other_type, type_tables};
use ir_text_tree::{Part, Row};
use std::alloc::{AllocError, Global};

// Definitions that stand before the operands that name them.
#[derive(Drop)]
struct Before {
    // For each row the last definition of its name before it, if the row is an operand and the definition's region is open yet.
    table: RowTable,
    // The first definition of a name that is defined already.
    again: Option<usize>,
    // The first operand for which the table has none.
    missing: Option<usize>,
    // Room for a table more.
    spare: Vec<u32>,
}

// Whether the part defines a value.
fn defines(part: Part) -> bool
    ensures { result ≡ defines part }
{
    match part {
        Part::Result | Part::Argument => true,
        _ => false,
    }
}

// Whether the part is an operand.
fn is_operand(part: Part) -> bool
    ensures { IsTrue result ↔ (part ≡ parts.Operand) }
{
    match part {
        Part::Operand => true,
        _ => false,
    }
}

// Whether the part ends a region.
fn is_close(part: Part) -> bool
    ensures { IsTrue result ↔ (part ≡ parts.Close) }
{
    match part {
        Part::Close => true,
        _ => false,
    }
}

// Whether one of both holds.
fn any(one: bool, other: bool) -> bool
    ensures { result ≡ (one || other) }
{
    one || other
}

// Notes that this row ends a region, if it does.
fn end_if(ends: &mut RowTable, is: bool, region: usize, row: usize)
    requires within { region < length ends.old }
    requires few { row < 4294967295 }
    ensures ends { (s : ℕ) → slice_index_or ends.new s None ≡ (if is && nat_eq region s then Some row else slice_index_or ends.old s None) }
    ensures long { length ends.new ≡ length ends.old }
{
    if is {
        ends.set(region, Some(row));
    }
}

// The last definition before a row, unless its region ended since.
fn still_open(ends: &RowTable, regions: &[u32], before: Option<usize>) -> Option<usize>
    requires { IfSome before (λ d. d < length regions.now) }
    ensures { result ≡ still_open (λ s. slice_index_or ends.now s None) regions.now before }
{
    match before {
        None => None,
        Some(row) => match ends.get(regions[row] as usize) {
            None => Some(row),
            Some(end) => { if row <= end { None } else { Some(row) } }
        },
    }
}

// Whether a definition clashes with the last of its name before it.
fn clashes(is: bool, before: Option<usize>, around: Option<usize>, region: usize) -> bool
    ensures { result ≡ clashes is before around region }
{
    match before {
        None => false,
        Some(row) => is && (around.is_some() || region <= row),
    }
}

// That one, if it is looked for.
fn only_if(is: bool, row: Option<usize>) -> Option<usize>
    ensures { result ≡ (if is then row else None) }
{
    if is { row } else { None }
}

// What stands before the operands that name it, and what is defined twice.
fn named_before(
    alloc: Global,
    text: &[u8],
    rows: &[Row],
    regions: &[u32],
) -> Result<Before, AllocError>
    requires few { length rows.now < 4294967295 }
    requires regions { regions.now ≡ row_regions rows.now }
    ensures table { IfOk result (λ b. AreNamedBefore text.now rows.now (length rows.now) b.table) }
    ensures again { IfOk result (λ b. IsFirst (IsValueAgain text.now rows.now) (length rows.now) b.again) }
    ensures missing { IfOk result (λ b. IsFirst (IsMissing rows.now b.table) (length rows.now) b.missing) }
{
    let mut last = NamedRows::new(alloc, rows.len());
    let mut ends = RowTable::of_none(alloc, rows.len())?;
    let mut table = RowTable::in_room(Vec::new(alloc), rows.len())?;
    let mut again = None;
    let mut missing = None;
    for (at, row) in rows.iter().enumerate() {
        let is = defines(row.part);
        let uses = is_operand(row.part);
        if any(is, uses) {
            let name = piece(text, row.span);
            let before = last.find_if(true, name);
            let around = still_open(&ends, regions, before);
            again = noted(again, at, clashes(is, before, around, regions[at] as usize));
            let found = only_if(uses, around);
            missing = noted(missing, at, misses(uses, found));
            table.push(found)?;
            last.put_if(is, name, at)?;
        } else {
            table.push(None)?;
            end_if(&mut ends, is_close(row.part), regions[at] as usize, at);
        }
    }
    Ok(Before {
        table,
        again,
        missing,
        spare: ends.into_numbers(),
    })
}

// A definition behind a row, if the row stands in its region or in one in it.
fn reached(regions: &[u32], row: usize, behind: Option<usize>) -> Option<usize>
    requires { IfSome behind (λ d. d < length regions.now) }
    ensures { result ≡ reached regions.now row behind }
{
    match behind {
        None => None,
        Some(definition) => {
            if regions[definition] as usize <= row {
                Some(definition)
            } else {
                None
            }
        }
    }
}

// Whether a row is a definition whose region begins before that of another, if there is another.
fn begins_before(is: bool, regions: &[u32], row: usize, other: Option<usize>) -> bool
    requires row { row < length regions.now }
    requires other { IfSome other (λ d. d < length regions.now) }
    ensures { result ≡ begins_before is regions.now row other }
{
    match other {
        None => is,
        Some(definition) => is && regions[row] < regions[definition],
    }
}

// Sets the row there, if it is one to be set.
fn set_if(table: &mut RowTable, is: bool, at: usize, row: Option<usize>)
    requires within { at < length table.old }
    requires few { IfSome row (λ r. r < 4294967295) }
    ensures { table.new ≡ (if is then slice_set table.old at row else table.old) }
{
    if is {
        table.set(at, row);
    }
}

// What stands before the operands that name it, or else behind them.
fn named_behind(
    alloc: Global,
    text: &[u8],
    rows: &[Row],
    regions: &[u32],
    before: RowTable,
) -> Result<RowTable, AllocError>
    requires few { length rows.now < 4294967295 }
    requires regions { regions.now ≡ row_regions rows.now }
    requires before { AreNamedBefore text.now rows.now (length rows.now) before }
    ensures { IfOk result (λ t. AreNamedUnlessAgain text.now rows.now t) }
{
    // of each name the definition whose region begins first
    let mut widest = NamedRows::new(alloc, rows.len());
    let mut table = before;
    let mut at = rows.len();
    while at > 0 {
        at -= 1;
        let row = rows[at];
        let name = piece(text, row.span);
        let is = defines(row.part);
        let lacks = misses(is_operand(row.part), table.get(at));
        let behind = widest.find_if(any(is, lacks), name);
        set_if(&mut table, lacks, at, reached(regions, at, behind));
        widest.put_if(begins_before(is, regions, at, behind), name, at)?;
    }
    Ok(table)
}

// The first operand that names nothing.
fn first_missing(rows: &[Row], table: &RowTable) -> Option<usize>
    ensures { IsFirst (IsMissing rows.now table.now) (length rows.now) result }
{
    let mut missing = None;
    for (at, row) in rows.iter().enumerate() {
        missing = noted(missing, at, misses(is_operand(row.part), table.get(at)));
    }
    missing
}

// What operands name.
#[derive(Drop)]
struct Entries {
    // For each row the definition that it names.
    table: RowTable,
    // The first operand for which the table has none.
    missing: Option<usize>,
    // Room for a table more.
    spare: Vec<u32>,
}

// What operands name, where these stand before them.
fn named(
    alloc: Global,
    text: &[u8],
    rows: &[Row],
    regions: &[u32],
    before: Before,
) -> Result<Entries, AllocError>
    requires few { length rows.now < 4294967295 }
    requires regions { regions.now ≡ row_regions rows.now }
    requires before { AreNamedBefore text.now rows.now (length rows.now) before.table }
    requires missing { IsFirst (IsMissing rows.now before.table) (length rows.now) before.missing }
    ensures table { IfOk result (λ e. AreNamedUnlessAgain text.now rows.now e.table) }
    ensures missing { IfOk result (λ e. IsFirst (IsMissing rows.now e.table) (length rows.now) e.missing) }
{
    match before.missing {
        None => Ok(Entries {
            table: before.table,
            missing: None,
            spare: before.spare,
        }),
        Some(_) => {
            let table = named_behind(alloc, text, rows, regions, before.table)?;
            let missing = first_missing(rows, &table);
            Ok(Entries {
                table,
                missing,
                spare: before.spare,
            })
        }
    }
}

/// The definitions that operands name, and the first fault of values' names.
#[derive(Drop)]
pub(crate) struct ValueTable {
    /// For each row the row of the definition that it names.
    pub(crate) table: RowTable,
    /// The first fault.
    pub(crate) found: Option<Found>,
    /// Room for two tables more.
    pub(crate) spare: SpareRoom,
}

// The first operand that names a definition and none of its values, where nothing is defined twice; none where all are well.
fn beyond(
    text: &[u8],
    rows: &[Row],
    again: Option<usize>,
    table: &RowTable,
    well: bool,
) -> Option<usize>
    requires again { IsFirst (IsValueAgain text.now rows.now) (length rows.now) again }
    requires room { length table.now ≡ length rows.now }
    requires named { (u : ℕ) → u < length rows.now → IsNamedUnlessAgain text.now rows.now u (slice_index_or table.now u None) }
    requires well { IsTrue well → IsFirst (IsEntryBeyond text.now rows.now table.now) (length rows.now) None }
    ensures { IsFirst (IsBeyond text.now rows.now) (length rows.now) result }
{
    match again {
        Some(_) => None,
        None => {
            if well {
                None
            } else {
                first_beyond(text, rows, table)
            }
        }
    }
}

/// The definitions that the operands of a tree of that text name, and the first fault of values' names.
pub(crate) fn value_table(
    alloc: Global,
    text: &[u8],
    rows: &[Row],
    operations: NumberedOperations,
    counts: PartCounts,
    regions: Vec<u32>,
) -> Result<ValueTable, AllocError>
    requires operations { AreOperations rows.now operations }
    requires operand_types { AreCounted counted.OperandTypes rows.now (length rows.now) counts.operand_types.items }
    requires result_types { AreCounted counted.ResultTypes rows.now (length rows.now) counts.result_types.items }
    requires regions { regions.items ≡ row_regions rows.now }
    ensures table { IfOk result (λ v. HasNone (IsUseWrong text.now rows.now) (length rows.now) → AreValuesNamed text.now rows.now (length rows.now) v.table) }
    ensures found { IfOk result (λ v. IsFirstWrong (IsUseWrong text.now rows.now) (length rows.now) v.found) }
{
    let before = named_before(alloc, text, rows, &regions)?;
    let again = before.again;
    let entries = named(alloc, text, rows, &regions, before)?;
    let twice = told(again, Wrong::ValueTwice);
    let unknown = told(entries.missing, Wrong::UnknownValue);
    let named = sooner(twice, unknown);
    let tables = type_tables(
        alloc,
        text,
        rows,
        operations,
        counts,
        regions,
        entries.spare,
    )?;
    let well = are_well(&tables, &entries.table);
    let past = beyond(text, rows, again, &entries.table, well);
    let numbered = told(past, Wrong::UnknownValue);
    let names = sooner(named, numbered);
    let odd = other_type(&tables, again, &entries.table, well);
    let typed = told(odd, Wrong::TypeOther);
    let found = sooner(names, typed);
    Ok(ValueTable {
        table: entries.table,
        found,
        spare: tables.into_room(),
    })
}

/// For each row of a tree of that text the row of the definition that it names: for an operand the result or argument of its name that is defined in the region in which the operand stands, or in one around that, before it or behind it.
///
/// # Errors
/// `OutOfMemory`, also of more than 4,294,967,294 rows, and else the first row that is a definition of a name that is defined in its region, in one around that or in one in it before, or an operand that names no value. A number that is none of the values under a name, and a type that differs from that of the value, are told where no name is defined twice.
pub fn values(alloc: Global, text: &[u8], rows: &[Row]) -> Result<RowTable, Fault>
    // An operand means the definition of its name in its own region or in one around that, and no other row means a definition.
    ensures named { IfOk result (λ v. AreValuesNamed text.now rows.now (length rows.now) v) }
    // All is well, or the first fault is told.
    ensures checked { IsChecked (IsUseWrong text.now rows.now) rows.now result }
{
    are_few(rows)?;
    let operations = operations(alloc, rows)?;
    let regions = regions(alloc, rows, Vec::new(alloc))?;
    let counts = part_counts(alloc, rows, &operations)?;
    let values = value_table(alloc, text, rows, operations, counts, regions)?;
    match fault_of(rows, values.found) {
        Some(fault) => Err(fault),
        None => Ok(values.table),
    }
}
