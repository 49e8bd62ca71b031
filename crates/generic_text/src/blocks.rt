//! Blocks, made in no region yet, with their arguments.

ghost use Rattle.std.specs.Prelude.{◌≡◌, IfOk};
ghost use Rattle.ir_model.specs.Forest.{a_block};
ghost use Rattle.ir_core_queries.specs.State.{forest_of};
ghost use Rattle.generic_text.specs.Left.{GoesOn, IsNew, StaysApart};

use crate::build_error::BuildError;
use crate::made::{Block, Made, Room};
use crate::meanings::Meanings;
use generic_dialect::{Generic, GenericLoc, TextId};
use ir_checked_core::basic_block;
use ir_core_queries::Context;
use ir_text_outline::{Part, Source};
use std::alloc::{AllocError, Global};

// Whether a part tells of an argument.
fn is_of_argument(part: Part) -> bool {
    match part {
        Part::Argument | Part::ArgumentType | Part::ArgumentLocation => true,
        _ => false,
    }
}

// The row behind the arguments of a block.
fn arguments_end(source: Source, row: usize) -> usize {
    let first = row.saturating_add(1);
    for at in first..source.rows.len() {
        if !is_of_argument(source.part(at)) {
            return at;
        }
    }
    source.rows.len()
}

// Sets the location of the last argument.
fn locate_last(room: &mut Room, location: TextId) {
    if let Some(last) = room.locations.last_mut() {
        *last = Some(location);
    }
}

// Reads a row that tells of an argument.
fn read_argument<'a>(
    ctx: &mut Context<Generic>,
    source: Source<'a>,
    meanings: &mut Meanings<'a>,
    room: &mut Room,
    at: usize,
) -> Result<(), BuildError>
    ensures { forest_of ctx.new ≡ forest_of ctx.old }
{
    let text = source.piece(at);
    match source.part(at) {
        Part::ArgumentType => {
            let ty = meanings.type_of(ctx, text)?;
            room.types.push(ty)?;
            room.locations.push(None)?;
        }
        Part::ArgumentLocation => {
            let location = meanings.saved(ctx, text)?;
            locate_last(room, location);
        }
        _ => {}
    }
    Ok(())
}

// Whether any argument has a location.
fn is_any_located(room: &Room) -> bool {
    room.locations.iter().any(|location| location.is_some())
}

// The location of a block: those of its arguments, if one has one.
fn location_of(alloc: Global, room: &Room) -> Result<GenericLoc, AllocError> {
    if !is_any_located(room) {
        return Ok(GenericLoc::Unknown);
    }
    let locations = room.locations.clone()?;
    Ok(GenericLoc::Arguments(Box::new(alloc, locations)?))
}

// Writes the location of a block.
fn locate(ctx: &mut Context<Generic>, block: Block, location: GenericLoc) -> Result<(), BuildError>
    ensures { StaysApart (a_block block.index) (forest_of ctx.old) (forest_of ctx.new) }
{
    let written = basic_block::deref_mut(ctx, block)?;
    written.loc = location;
    Ok(())
}

// Gives the arguments of a block their names.
fn define_arguments(
    ctx: &Context<Generic>,
    source: Source,
    made: &mut Made,
    block: Block,
    row: usize,
    end: usize,
) -> Result<(), BuildError>
    ensures ops { made.new.ops ≡ made.old.ops }
    ensures blocks { made.new.blocks ≡ made.old.blocks }
    ensures late { made.new.late ≡ made.old.late }
{
    let mut index: usize = 0;
    for at in row.saturating_add(1)..end {
        if source.part(at) == Part::Argument {
            let value = basic_block::get_argument(block, ctx, index)?;
            made.begin_values(at, 0);
            made.add_value(value)?;
            index = index.saturating_add(1);
        }
    }
    Ok(())
}

// Reads the rows of a block, and answers its location.
fn read_block<'a>(
    ctx: &mut Context<Generic>,
    source: Source<'a>,
    meanings: &mut Meanings<'a>,
    room: &mut Room,
    row: usize,
    end: usize,
) -> Result<GenericLoc, BuildError>
    ensures { forest_of ctx.new ≡ forest_of ctx.old }
{
    room.clear();
    for at in row.saturating_add(1)..end {
        read_argument(ctx, source, meanings, room, at)?;
    }
    Ok(location_of(ctx.alloc(), room)?)
}

// Makes a block of what was read.
fn make(
    ctx: &mut Context<Generic>,
    made: &mut Made,
    room: &Room,
    row: usize,
) -> Result<Block, BuildError>
    ensures goes_on { GoesOn (forest_of ctx.old) made.old (forest_of ctx.new) made.new }
    ensures new { IfOk result (λ block. IsNew (forest_of ctx.old) (a_block block.index)) }
{
    made.blocks.reserve(1)?;
    ctx.recall_live_was_made();
    let block = basic_block::new(ctx, None, room.types.as_slice())?;
    made.add_block(row, block)?;
    Ok(block)
}

/// Makes the block of a label, or of a region that begins with that row.
pub(crate) fn make_block<'a>(
    ctx: &mut Context<Generic>,
    source: Source<'a>,
    meanings: &mut Meanings<'a>,
    made: &mut Made,
    room: &mut Room,
    row: usize,
) -> Result<(), BuildError>
    ensures { GoesOn (forest_of ctx.old) made.old (forest_of ctx.new) made.new }
{
    let end = arguments_end(source, row);
    let location = read_block(ctx, source, meanings, room, row, end)?;
    let block = make(ctx, made, room, row)?;
    locate(ctx, block, location)?;
    define_arguments(ctx, source, made, block, row, end)
}
