//! Blocks put into the regions of the operations that they belong to.

ghost use Rattle.ir_model.specs.Forest.{a_region, an_op};
ghost use Rattle.ir_core_queries.specs.State.{forest_of};
ghost use Rattle.generic_text.specs.Left.{GoesOnAt};

use crate::build_error::BuildError;
use crate::made::{Made, Op};
use generic_dialect::Generic;
use ir_base_dialects::Ptr;
use ir_checked_core::{basic_block, operation};
use ir_core_queries::{Context, Region};
use ir_text_outline::{OpRows, Outline};

// Puts a block before the others of a region, and answers the place of the block before it.
fn put_block(
    ctx: &mut Context<Generic>,
    outline: &Outline,
    made: &Made,
    region: Ptr<Region>,
    place: u32,
) -> Result<Option<u32>, BuildError>
    ensures { GoesOnAt (a_region region.index) (forest_of ctx.old) made.now (forest_of ctx.new) made.now }
{
    let Some(block) = made.blocks.get(place as usize) else {
        return Err(BuildError::NoTree);
    };
    basic_block::insert_at_front(*block, region, ctx)?;
    match outline.blocks.get(place as usize) {
        None => Err(BuildError::NoTree),
        Some(rows) => Ok(rows.before),
    }
}

// Puts the blocks of a region into it, from the last to the first.
fn put_blocks(
    ctx: &mut Context<Generic>,
    outline: &Outline,
    made: &Made,
    region: Ptr<Region>,
    last: Option<u32>,
) -> Result<(), BuildError>
    ensures { GoesOnAt (a_region region.index) (forest_of ctx.old) made.now (forest_of ctx.new) made.now }
{
    let mut next = last;
    for _ in 0..outline.blocks.len() {
        match next {
            None => return Ok(()),
            Some(place) => next = put_block(ctx, outline, made, region, place)?,
        }
    }
    Ok(())
}

// Fills the region at this index of an operation, and answers the place of the region before it.
fn fill_region(
    ctx: &mut Context<Generic>,
    outline: &Outline,
    made: &Made,
    op: Op,
    index: usize,
    place: Option<u32>,
) -> Result<Option<u32>, BuildError>
    ensures { GoesOnAt (an_op op.index) (forest_of ctx.old) made.now (forest_of ctx.new) made.now }
{
    let Some(place) = place else {
        return Err(BuildError::NoTree);
    };
    let Some(rows) = outline.regions.get(place as usize) else {
        return Err(BuildError::NoTree);
    };
    let region = operation::get_region(op, ctx, index)?;
    ctx.recall_well_formed();
    put_blocks(ctx, outline, made, region, rows.last_block)?;
    Ok(rows.before)
}

/// Fills the regions of an operation, from the last to the first.
pub(crate) fn fill_regions(
    ctx: &mut Context<Generic>,
    outline: &Outline,
    made: &Made,
    op: Op,
    rows: OpRows,
) -> Result<(), BuildError>
    ensures { GoesOnAt (an_op op.index) (forest_of ctx.old) made.now (forest_of ctx.new) made.now }
{
    let mut place = rows.last_region;
    for index in (0..rows.regions as usize).rev() {
        place = fill_region(ctx, outline, made, op, index, place)?;
    }
    Ok(())
}
