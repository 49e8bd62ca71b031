//! Which rows of a tree belong together: the operations, each behind all that stands inside it, and the blocks and regions.

use crate::narrowing::narrow;
use ir_text_tree::{Part, Row};
use std::alloc::{AllocError, Global};

/// The rows of an operation.
#[derive(Clone, Copy, Debug, PartialEq, Eq)]
pub struct OpRows {
    /// The row of its first result, or of its name where it has none.
    pub first: u32,
    /// The row of its name.
    pub name: u32,
    /// The row behind its operands, successors and properties: that of its first region, or the end where it has none.
    pub head_end: u32,
    /// The row behind its last region, or the end where it has none.
    pub tail: u32,
    /// The row behind its last.
    pub end: u32,
    /// The place of its block among the blocks; none outside all regions.
    pub block: Option<u32>,
    /// How many regions it has.
    pub regions: u32,
    /// The place of its last region among the regions.
    pub last_region: Option<u32>,
    /// Whether it is the last of its block.
    pub ends_block: bool,
}

/// The row of a block: its label, or where it has none that of its region's beginning.
#[derive(Clone, Copy, Debug, PartialEq, Eq)]
pub struct BlockRows {
    pub row: u32,
    /// The place of the block before it in its region.
    pub before: Option<u32>,
}

/// A region.
#[derive(Clone, Copy, Debug, PartialEq, Eq)]
pub struct RegionRows {
    /// The place of its last block among the blocks.
    pub last_block: Option<u32>,
    /// The place of the region before it in its operation.
    pub before: Option<u32>,
}

/// The operations of a tree, its blocks in the order of the text, and its regions in the order of their ends.
#[derive(Drop)]
pub struct Outline {
    /// Each behind all operations inside it.
    pub ops: Vec<OpRows>,
    pub blocks: Vec<BlockRows>,
    pub regions: Vec<RegionRows>,
}

// What is read of a region that is open, or outside all regions.
#[derive(Clone, Copy)]
struct Level {
    // The last block so far.
    block: Option<u32>,
    // The operation that is being read.
    op: Option<OpRows>,
    // Whether its name was read.
    is_named: bool,
}

// A level of which nothing was read yet.
fn new_level() -> Level {
    Level {
        block: None,
        op: None,
        is_named: false,
    }
}

// An operation that begins at that row.
fn new_op(at: u32, block: Option<u32>) -> OpRows {
    OpRows {
        first: at,
        name: at,
        head_end: at,
        tail: at,
        end: at,
        block,
        regions: 0,
        last_region: None,
        ends_block: false,
    }
}

// The operation with its end.
fn ended(op: OpRows, at: u32, ends_block: bool) -> OpRows {
    let has_regions = op.regions != 0;
    OpRows {
        head_end: if has_regions { op.head_end } else { at },
        tail: if has_regions { op.tail } else { at },
        end: at,
        ends_block: ends_block && op.block.is_some(),
        ..op
    }
}

// Ends the operation that is being read, if there is one.
fn end_op(
    outline: &mut Outline,
    level: &mut Level,
    at: u32,
    ends_block: bool,
) -> Result<(), AllocError> {
    match level.op {
        None => Ok(()),
        Some(op) => {
            level.op = None;
            outline.ops.push(ended(op, at, ends_block))?;
            Ok(())
        }
    }
}

// Begins an operation, unless the results of one are being read.
fn begin_op(outline: &mut Outline, level: &mut Level, at: u32) -> Result<(), AllocError> {
    if level.op.is_some() && !level.is_named {
        return Ok(());
    }
    end_op(outline, level, at, false)?;
    level.op = Some(new_op(at, level.block));
    level.is_named = false;
    Ok(())
}

// Reads the name of an operation.
fn name_op(outline: &mut Outline, level: &mut Level, at: u32) -> Result<(), AllocError> {
    begin_op(outline, level, at)?;
    if let Some(op) = &mut level.op {
        op.name = at;
    }
    level.is_named = true;
    Ok(())
}

// Begins a block at that row.
fn begin_block(outline: &mut Outline, level: &mut Level, at: u32) -> Result<(), AllocError> {
    end_op(outline, level, at, true)?;
    let place = narrow(outline.blocks.len());
    outline.blocks.push(BlockRows {
        row: at,
        before: level.block,
    })?;
    level.block = Some(place);
    Ok(())
}

// Whether a region that this part follows has a first block without a label.
fn has_plain_block(next: Part) -> bool {
    match next {
        Part::Label | Part::Close => false,
        _ => true,
    }
}

// Begins a region.
fn open_region(
    outline: &mut Outline,
    levels: &mut Vec<Level>,
    at: u32,
    next: Part,
) -> Result<(), AllocError> {
    if let Some(outer) = levels.last_mut() {
        if let Some(op) = &mut outer.op {
            if op.regions == 0 {
                op.head_end = at;
            }
        }
    }
    let mut level = new_level();
    if has_plain_block(next) {
        begin_block(outline, &mut level, at)?;
    }
    levels.push(level)?;
    Ok(())
}

// Gives the operation that is being read a region, which ends at that row.
fn add_region(
    outline: &mut Outline,
    outer: &mut Level,
    at: u32,
    last_block: Option<u32>,
) -> Result<(), AllocError> {
    let place = narrow(outline.regions.len());
    match &mut outer.op {
        None => Ok(()),
        Some(op) => {
            outline.regions.push(RegionRows {
                last_block,
                before: op.last_region,
            })?;
            op.last_region = Some(place);
            op.regions = op.regions.saturating_add(1);
            op.tail = at.saturating_add(1);
            Ok(())
        }
    }
}

// Ends a region.
fn close_region(outline: &mut Outline, levels: &mut Vec<Level>, at: u32) -> Result<(), AllocError> {
    match levels.pop() {
        None => Ok(()),
        Some(mut level) => {
            end_op(outline, &mut level, at, true)?;
            match levels.last_mut() {
                None => Ok(()),
                Some(outer) => add_region(outline, outer, at, level.block),
            }
        }
    }
}

// Reads a row that begins an operation or a block.
fn read_beginning(
    outline: &mut Outline,
    level: &mut Level,
    at: u32,
    part: Part,
) -> Result<(), AllocError> {
    match part {
        Part::Result => begin_op(outline, level, at),
        Part::Name => name_op(outline, level, at),
        Part::Label => begin_block(outline, level, at),
        _ => Ok(()),
    }
}

// Reads a row, behind which this part stands.
fn read_row(
    outline: &mut Outline,
    levels: &mut Vec<Level>,
    at: u32,
    part: Part,
    next: Part,
) -> Result<(), AllocError> {
    match part {
        Part::Open => open_region(outline, levels, at, next),
        Part::Close => close_region(outline, levels, at),
        _ => match levels.last_mut() {
            None => Ok(()),
            Some(level) => read_beginning(outline, level, at, part),
        },
    }
}

// The part of a row; past the end the end of a region.
fn part_at(rows: &[Row], at: usize) -> Part {
    match rows.get(at) {
        None => Part::Close,
        Some(row) => row.part,
    }
}

/// The outline of a tree with these rows.
pub fn outline_of(alloc: Global, rows: &[Row]) -> Result<Outline, AllocError> {
    let mut outline = Outline {
        ops: Vec::new(alloc),
        blocks: Vec::new(alloc),
        regions: Vec::new(alloc),
    };
    let mut levels = Vec::new(alloc);
    levels.push(new_level())?;
    for (at, row) in rows.iter().enumerate() {
        let next = part_at(rows, at.saturating_add(1));
        read_row(&mut outline, &mut levels, narrow(at), row.part, next)?;
    }
    close_region(&mut outline, &mut levels, narrow(rows.len()))?;
    Ok(outline)
}
