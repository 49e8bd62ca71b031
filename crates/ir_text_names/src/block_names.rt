//! Blocks' names: which block a successor names.
ghost use Rattle.std.specs.Prelude.{◌≡◌, ◌<◌, length, IfOk, IsTrue, ◌↔◌, if◌then◌else◌};
ghost use Rattle.ir_text_tree.specs.declared.row.Part.TheVariants as parts;
ghost use Rattle.ir_text_names.specs.Blocks.{AreBlocksNamed, IsBlockWrong, NamesNoBlock, misses};
ghost use Rattle.ir_text_names.specs.Firsts.{IsChecked, IsFirst, IsFirstWrong};
ghost use Rattle.ir_text_names.specs.Given.{AreGiven, anywhere};
ghost use Rattle.ir_text_names.specs.Places.{row_at};
ghost use Rattle.ir_text_names.specs.Rows.{piece, row_regions};

use crate::fault::{Fault, Wrong};
use crate::firsts::{Found, fault_of, noted, sooner, told};
use crate::given::{NameKind, given};
use crate::places::find_if;
use crate::row_table::RowTable;
use crate::rows::{are_few, piece, regions};
use ir_text_tree::{Part, Row, Span};
use std::alloc::{AllocError, Global};
use std::collections::HashMap;

// The blocks that rows name.
#[derive(Drop)]
struct NamedBlocks {
    // For each row the row of the block that it names, if it names one.
    table: RowTable,
    // The first successor that names none.
    unknown: Option<usize>,
}

// Whether the part is a successor.
fn is_successor(part: Part) -> bool
    ensures { IsTrue result ↔ (part ≡ parts.Successor) }
{
    match part {
        Part::Successor => true,
        _ => false,
    }
}

/// Whether the row is one that names another, and names none.
pub(crate) fn misses(is: bool, block: Option<usize>) -> bool
    ensures { result ≡ misses is block }
{
    match block {
        Some(_) => false,
        None => is,
    }
}

// The block that a row in that region names, if it is a successor.
#[inline(always)]
fn block_of(
    places: &HashMap<(usize, &[u8]), usize>,
    is: bool,
    region: usize,
    text: &[u8],
    span: Span,
) -> Option<usize>
    ensures { result ≡ (if is then row_at places.now region (piece text.now span) else None) }
{
    if is {
        find_if(places, true, region, piece(text, span))
    } else {
        None
    }
}

// The blocks that rows name, where these are the blocks of each region.
fn named(
    text: &[u8],
    rows: &[Row],
    regions: &[u32],
    places: &HashMap<(usize, &[u8]), usize>,
    room: Vec<u32>,
) -> Result<NamedBlocks, AllocError>
    requires few { length rows.now < 4294967295 }
    requires regions { regions.now ≡ row_regions rows.now }
    requires counted { length regions.now ≡ length rows.now }
    requires places { AreGiven parts.Label text.now rows.now regions.now anywhere (length rows.now) (row_at places.now) }
    ensures table { IfOk result (λ n. AreBlocksNamed text.now rows.now (length rows.now) n.table) }
    ensures unknown { IfOk result (λ n. IsFirst (NamesNoBlock text.now rows.now) (length rows.now) n.unknown) }
{
    let mut table = RowTable::in_room(room, rows.len())?;
    let mut unknown = None;
    for (at, row) in rows.iter().enumerate() {
        let is = is_successor(row.part);
        let block = block_of(places, is, regions[at] as usize, text, row.span);
        unknown = noted(unknown, at, misses(is, block));
        table.push(block)?;
    }
    Ok(NamedBlocks { table, unknown })
}

/// The blocks that rows name, and the first fault of blocks' names.
#[derive(Drop)]
pub(crate) struct BlockTable {
    /// For each row the row of the block that it names.
    pub(crate) table: RowTable,
    /// The first fault.
    pub(crate) found: Option<Found>,
}

/// The blocks that the rows of a tree of that text name, and the first fault of blocks' names.
pub(crate) fn block_table(
    alloc: Global,
    text: &[u8],
    rows: &[Row],
    regions: &[u32],
    room: Vec<u32>,
) -> Result<BlockTable, AllocError>
    requires few { length rows.now < 4294967295 }
    requires regions { regions.now ≡ row_regions rows.now }
    ensures table { IfOk result (λ b. AreBlocksNamed text.now rows.now (length rows.now) b.table) }
    ensures found { IfOk result (λ b. IsFirstWrong (IsBlockWrong text.now rows.now) (length rows.now) b.found) }
{
    let given = given(alloc, NameKind::Block, text, &text[..0], rows, regions, &[])?;
    let named = named(text, rows, regions, &given.places, room)?;
    let twice = told(given.again, Wrong::BlockTwice);
    let unknown = told(named.unknown, Wrong::UnknownBlock);
    let found = sooner(twice, unknown);
    Ok(BlockTable {
        table: named.table,
        found,
    })
}

/// For each row of a tree of that text the row of the block that it names: for a successor the label with its name in the region that the successor stands in.
///
/// # Errors
/// `OutOfMemory`, also of more than 4,294,967,294 rows, and else the first row that is a label given twice in its region, or a successor that names no block of its region.
pub fn blocks(alloc: Global, text: &[u8], rows: &[Row]) -> Result<RowTable, Fault>
    // A successor means the block of its name in its own region, and no other row means a block.
    ensures named { IfOk result (λ v. AreBlocksNamed text.now rows.now (length rows.now) v) }
    // All is well, or the first fault is told.
    ensures checked { IsChecked (IsBlockWrong text.now rows.now) rows.now result }
{
    are_few(rows)?;
    let regions = regions(alloc, rows, Vec::new(alloc))?;
    let blocks = block_table(alloc, text, rows, &regions, Vec::new(alloc))?;
    match fault_of(rows, blocks.found) {
        Some(fault) => Err(fault),
        None => Ok(blocks.table),
    }
}
