//! From the rows of a text to operations in a context. What was built is compared with the rows before it is answered.

ghost use Rattle.std.specs.Prelude.{◌≡◌, ◌↔◌, ◌<◌, ◌⊎◌, [], IfErr, IfOk, IsTrue, OnErr, OnOk, length, map, true};
ghost use Rattle.ir_core_context.specs.Calls.{NoEntity};
ghost use Rattle.ir_core_queries.specs.State.{bare, forest_of};
ghost use Rattle.ir_text_described.specs.Described.{IsDescribedBy};
ghost use Rattle.ir_text_outline.specs.Reading.{IsRead};
ghost use Rattle.generic_text.specs.GenericWords.{generic_words, named_tree};
ghost use Rattle.generic_text.specs.declared.taking_back.LiveCount.{LiveCount as PlainLiveCount};
ghost use Rattle.generic_text.specs.Left.{AreWithin, BuildsOn, GenericForest, GoesOn, LeavesAll, live_count};
ghost use Rattle.generic_text.specs.Refusals.{IfNoTree, IsSo};

use crate::blocks::make_block;
use crate::build_error::BuildError;
use crate::described::check_described;
use crate::made::{Block, Made, Op, Room};
use crate::meanings::Meanings;
use crate::operations::{connect, make_op};
use crate::regions::fill_regions;
use crate::taking_back::{LiveCount, take_back};
use generic_dialect::{Generic, OPEN_NAMES};
use ir_base_dialects::CoreError;
use ir_core_queries::Context;
use ir_text_outline::{Names, OpRows, Outline, Row, Source, narrow, outline_of};
use std::alloc::Global;

/// What was built of a text.
#[derive(Drop)]
pub struct Built {
    /// The operations outside all regions, in the order of the text.
    pub tops: Vec<Op>,
    /// All operations, each behind all inside it, with the rows of their names.
    pub ops: Vec<(Op, u32)>,
    /// All blocks, in the order of the text.
    pub blocks: Vec<Block>,
}

// Makes all blocks, in no region yet.
fn make_blocks<'a>(
    ctx: &mut Context<Generic>,
    source: Source<'a>,
    meanings: &mut Meanings<'a>,
    made: &mut Made,
    room: &mut Room,
    outline: &Outline,
) -> Result<(), BuildError>
    ensures { GoesOn (forest_of ctx.old) made.old (forest_of ctx.new) made.new }
{
    for rows in outline.blocks.iter() {
        make_block(ctx, source, meanings, made, room, rows.row as usize)?;
    }
    Ok(())
}

// Makes an operation, with its blocks.
fn make_whole_op<'a>(
    ctx: &mut Context<Generic>,
    source: Source<'a>,
    meanings: &mut Meanings<'a>,
    made: &mut Made,
    room: &mut Room,
    outline: &Outline,
    rows: OpRows,
    place: usize,
) -> Result<(), BuildError>
    ensures { GoesOn (forest_of ctx.old) made.old (forest_of ctx.new) made.new }
{
    let op = make_op(ctx, source, meanings, made, room, rows)?;
    if room.is_late {
        made.late.push((op, narrow(place)))?;
    }
    fill_regions(ctx, outline, made, op, rows)
}

// Makes all operations, each behind all inside it.
fn make_ops<'a>(
    ctx: &mut Context<Generic>,
    source: Source<'a>,
    meanings: &mut Meanings<'a>,
    made: &mut Made,
    room: &mut Room,
    outline: &Outline,
) -> Result<(), BuildError>
    ensures { GoesOn (forest_of ctx.old) made.old (forest_of ctx.new) made.new }
{
    for (place, rows) in outline.ops.iter().enumerate() {
        make_whole_op(ctx, source, meanings, made, room, outline, *rows, place)?;
    }
    Ok(())
}

// Gives operands to the operations that name what is defined behind them.
fn connect_all(
    ctx: &mut Context<Generic>,
    source: Source,
    made: &Made,
    outline: &Outline,
) -> Result<(), BuildError>
    ensures { GoesOn (forest_of ctx.old) made.now (forest_of ctx.new) made.now }
{
    for (op, place) in made.late.iter() {
        connect(ctx, source, made, outline, *op, *place)?;
    }
    Ok(())
}

// Makes place for all that is made, so that nothing of it moves.
fn make_place(
    ctx: &mut Context<Generic>,
    made: &mut Made,
    outline: &Outline,
) -> Result<(), BuildError>
    ensures { GoesOn (forest_of ctx.old) made.old (forest_of ctx.new) made.new }
{
    ctx.reserve(outline.ops.len())?;
    made.reserve(outline.ops.len(), outline.blocks.len())?;
    Ok(())
}

// Makes all.
fn make_all(ctx: &mut Context<Generic>, source: Source, made: &mut Made) -> Result<(), BuildError>
    ensures { GoesOn (forest_of ctx.old) made.old (forest_of ctx.new) made.new }
{
    let alloc = ctx.alloc();
    let outline = outline_of(alloc, source.rows)?;
    make_place(ctx, made, &outline)?;
    let mut meanings = Meanings::new(alloc);
    let mut room = Room::new(alloc);
    make_blocks(ctx, source, &mut meanings, made, &mut room, &outline)?;
    make_ops(ctx, source, &mut meanings, made, &mut room, &outline)?;
    connect_all(ctx, source, made, &outline)
}

// Makes all, and sees to it that the rows describe it.
fn make_described(
    ctx: &mut Context<Generic>,
    source: Source,
    made: &mut Made,
) -> Result<(), BuildError>
    ensures described { OnOk result (IsDescribedBy (forest_of ctx.new) (generic_words ctx.new) true (named_tree source.entry.text.now source.entry.rows.now source.entry.names.now) (map (λ p. p.index) made.new.tops.items)) }
    ensures goes_on { GoesOn (forest_of ctx.old) made.old (forest_of ctx.new) made.new }
{
    make_all(ctx, source, made)?;
    made.forget_rows(ctx.alloc());
    let tops = made.tops.as_slice();
    check_described(ctx, tops, source.text, source.rows, source.names, true)?;
    Ok(())
}

// Whether more texts are saved than can be names of operations.
fn has_too_many_texts(ctx: &Context<Generic>) -> bool
    ensures { IsTrue result ↔ (2147450880 < length (bare ctx.now).beside.saved) }
{
    ctx.saved_at(OPEN_NAMES as usize).is_some()
}

// Why nothing was built, where it isn't for want of anything: by whether the rows and names are those of the text.
fn difference(alloc: Global, source: Source) -> BuildError
    ensures { IfNoTree result (IsRead source.entry.text.now source.entry.rows.now source.entry.names.now) }
{
    match source.is_read(alloc) {
        Ok(true) => BuildError::Different,
        Ok(false) => BuildError::NoTree,
        Err(_) => BuildError::Core(CoreError::OutOfMemory),
    }
}

// An error whose reason was looked up.
fn looked_up(ctx: &Context<Generic>, source: Source, error: BuildError) -> BuildError
    ensures { (before : PlainLiveCount) → IsSo source.entry.text.now source.entry.rows.now source.entry.names.now before ctx.now result }
{
    match error {
        BuildError::Core(error) => BuildError::Core(error),
        BuildError::TooManyTexts if has_too_many_texts(ctx) => BuildError::TooManyTexts,
        _ => difference(ctx.alloc(), source),
    }
}

// Takes all out again that was made since so many were live, and answers the error, or `LeftBehind` where more are live still.
fn taken_back(
    ctx: &mut Context<Generic>,
    source: Source,
    made: &Made,
    before: LiveCount,
    error: BuildError,
) -> BuildError
    ensures left { (first : GenericForest) → BuildsOn first (forest_of ctx.old) made.now → LeavesAll first (forest_of ctx.new) }
    ensures all { (result ≡ BuildError.LeftBehind) ⊎ AreWithin (live_count ctx.new) before }
    ensures why { IsSo source.entry.text.now source.entry.rows.now source.entry.names.now before ctx.new result }
{
    take_back(ctx, made);
    if LiveCount::of(ctx).is_within(before) {
        looked_up(ctx, source, error)
    } else {
        BuildError::LeftBehind
    }
}

// Makes all, or takes it out again.
fn make_or_take_back(
    ctx: &mut Context<Generic>,
    source: Source,
    made: &mut Made,
) -> Result<(), BuildError>
    requires ops { made.old.ops.items ≡ [] }
    requires blocks { made.old.blocks.items ≡ [] }
    requires late { made.old.late.items ≡ [] }
    ensures described { OnOk result (IsDescribedBy (forest_of ctx.new) (generic_words ctx.new) true (named_tree source.entry.text.now source.entry.rows.now source.entry.names.now) (map (λ p. p.index) made.new.tops.items)) }
    ensures left { LeavesAll (forest_of ctx.old) (forest_of ctx.new) }
    ensures taken_back { IfErr result (λ e. (e ≡ BuildError.LeftBehind) ⊎ (forest_of ctx.new ≡ forest_of ctx.old)) }
    ensures why { IfErr result (λ e. IsSo source.entry.text.now source.entry.rows.now source.entry.names.now (live_count ctx.old) ctx.new e) }
    ensures err { NoEntity (forest_of ctx.old) → OnErr result (NoEntity (forest_of ctx.new)) }
{
    let was_empty = ctx.is_ir_empty();
    let before = LiveCount::of(ctx);
    ctx.recall_well_formed();
    match make_described(ctx, source, made) {
        Ok(()) => Ok(()),
        Err(error) => {
            if was_empty {
                ctx.clear();
                return Err(looked_up(ctx, source, error));
            }
            Err(taken_back(ctx, source, made, before, error))
        }
    }
}

/// Builds what the rows of a text say, which `parse` read, with the names that `resolve` found. It compares what it built with the rows, so that its clause doesn't rest on how things are built.
///
/// # Errors
/// `Core` for memory, numbers and slots; `TooManyTexts`; and `NoTree` where the rows aren't those that `parse` reads of the text, or the names not those that `resolve` finds in them. Then what was made is taken out again; only saved texts and types are left. `Different` where the rows and names are right and something else was made, and `LeftBehind` where what was made can't be taken out again: these two would be faults of this crate.
pub fn build(
    ctx: &mut Context<Generic>,
    text: &[u8],
    rows: &[Row],
    names: &Names,
) -> Result<Built, BuildError>
    // The rows, which have the locations, describe the operations outside all regions, in their order and with all that is inside them.
    ensures described { IfOk result (λ b. IsDescribedBy (forest_of ctx.new) (generic_words ctx.new) true (named_tree text.now rows.now names.now) (map (λ p. p.index) b.tops.items)) }
    // All operations, blocks and regions that were there are as they were, under an error too.
    ensures left { LeavesAll (forest_of ctx.old) (forest_of ctx.new) }
    // Under an error nothing else is there: all operations, blocks and regions are those that were there, as they were. Else the error is `LeftBehind`.
    ensures taken_back { IfErr result (λ e. (e ≡ BuildError.LeftBehind) ⊎ (forest_of ctx.new ≡ forest_of ctx.old)) }
    // Too many texts are saved where `TooManyTexts` comes; the rows and names aren't those of the text where `NoTree` does, and they are where `Different` does; and more is live than before where `LeftBehind` does.
    ensures why { IfErr result (λ e. IsSo text.now rows.now names.now (live_count ctx.old) ctx.new e) }
    // In a context without operations, blocks and regions there are none after an error.
    ensures err { NoEntity (forest_of ctx.old) → OnErr result (NoEntity (forest_of ctx.new)) }
{
    let source = Source { text, rows, names };
    let mut made = Made::new(ctx.alloc(), rows.len())?;
    make_or_take_back(ctx, source, &mut made)?;
    Ok(Built {
        tops: made.tops,
        ops: made.ops,
        blocks: made.blocks,
    })
}
