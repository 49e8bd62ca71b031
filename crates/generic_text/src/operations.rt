//! Operations, made of their rows, in their blocks.

ghost use Rattle.std.specs.Prelude.{◌≡◌, IfOk};
ghost use Rattle.ir_model.specs.Forest.{an_op};
ghost use Rattle.ir_core_queries.specs.State.{forest_of};
ghost use Rattle.generic_text.specs.Left.{GoesOn, GoesOnAt, IsNew, StaysApart};

use crate::build_error::BuildError;
use crate::made::{Made, Op, Room};
use crate::meanings::Meanings;
use generic_dialect::{Generic, GenericAttr, GenericLoc, TextId, properties_key};
use ir_base_dialects::Identifier;
use ir_base_dialects::attribute::AttributeDict;
use ir_checked_core::operation;
use ir_core_queries::Context;
use ir_text_outline::{OpRows, Outline, Part, Source};
use std::alloc::Global;

// The operand in this row, if what it names is made.
fn read_operand(source: Source, made: &Made, room: &mut Room, at: usize) -> Result<(), BuildError> {
    let Some(row) = source.definition(at) else {
        return Err(BuildError::NoTree);
    };
    match made.value(row, source.index(at)) {
        Some(value) => room.operands.push(value)?,
        None => room.is_late = true,
    }
    Ok(())
}

// The successor in this row.
fn read_successor(
    source: Source,
    made: &Made,
    room: &mut Room,
    at: usize,
) -> Result<(), BuildError> {
    let Some(row) = source.block(at) else {
        return Err(BuildError::NoTree);
    };
    match made.block(row) {
        Some(block) => {
            room.successors.push(block)?;
            Ok(())
        }
        None => Err(BuildError::NoTree),
    }
}

// The type of a result.
fn read_result_type<'a>(
    ctx: &mut Context<Generic>,
    source: Source<'a>,
    meanings: &mut Meanings<'a>,
    room: &mut Room,
    at: usize,
) -> Result<(), BuildError>
    ensures { forest_of ctx.new ≡ forest_of ctx.old }
{
    let ty = meanings.type_of(ctx, source.piece(at))?;
    room.types.push(ty)?;
    Ok(())
}

// The key of an attribute, which is unit unless a value follows.
fn read_key(room: &mut Room, at: usize) -> Result<(), BuildError> {
    room.attributes.push((at, GenericAttr::Unit))?;
    Ok(())
}

// Sets what a saved text is: the value of the last attribute, properties or a location.
fn put_text(room: &mut Room, part: Part, id: TextId) {
    match part {
        Part::Value => {
            if let Some(last) = room.attributes.last_mut() {
                last.1 = GenericAttr::Text(id);
            }
        }
        Part::Properties => room.properties = Some(id),
        _ => room.location = Some(id),
    }
}

// A text that is saved.
fn read_text<'a>(
    ctx: &mut Context<Generic>,
    source: Source<'a>,
    meanings: &mut Meanings<'a>,
    room: &mut Room,
    at: usize,
) -> Result<(), BuildError>
    ensures { forest_of ctx.new ≡ forest_of ctx.old }
{
    let id = meanings.saved(ctx, source.piece(at))?;
    put_text(room, source.part(at), id);
    Ok(())
}

// Reads a row of an operation.
fn read_part<'a>(
    ctx: &mut Context<Generic>,
    source: Source<'a>,
    meanings: &mut Meanings<'a>,
    made: &Made,
    room: &mut Room,
    at: usize,
) -> Result<(), BuildError>
    ensures { forest_of ctx.new ≡ forest_of ctx.old }
{
    match source.part(at) {
        Part::Operand => read_operand(source, made, room, at),
        Part::Successor => read_successor(source, made, room, at),
        Part::ResultType | Part::OnlyResultType => {
            read_result_type(ctx, source, meanings, room, at)
        }
        Part::Key => read_key(room, at),
        Part::Value | Part::Properties | Part::Location => {
            read_text(ctx, source, meanings, room, at)
        }
        _ => Ok(()),
    }
}

// Reads the rows of an operation.
fn read_op<'a>(
    ctx: &mut Context<Generic>,
    source: Source<'a>,
    meanings: &mut Meanings<'a>,
    made: &Made,
    room: &mut Room,
    rows: OpRows,
) -> Result<(), BuildError>
    ensures { forest_of ctx.new ≡ forest_of ctx.old }
{
    room.clear();
    for at in rows.name as usize..rows.head_end as usize {
        read_part(ctx, source, meanings, made, room, at)?;
    }
    for at in rows.tail as usize..rows.end as usize {
        read_part(ctx, source, meanings, made, room, at)?;
    }
    if room.is_late {
        room.operands.clear();
    }
    Ok(())
}

// Gives the results of an operation their names.
fn define_results(
    ctx: &Context<Generic>,
    source: Source,
    made: &mut Made,
    op: Op,
    rows: OpRows,
    count: usize,
) -> Result<(), BuildError>
    ensures ops { made.new.ops ≡ made.old.ops }
    ensures blocks { made.new.blocks ≡ made.old.blocks }
    ensures late { made.new.late ≡ made.old.late }
{
    let mut ahead: usize = 0;
    for at in rows.first as usize..rows.name as usize {
        if source.part(at) == Part::Result {
            made.begin_values(at, ahead);
            ahead = ahead.saturating_add(source.width(at));
        }
    }
    for index in 0..count {
        let value = operation::get_result(op, ctx, index)?;
        made.add_value(value)?;
    }
    Ok(())
}

// Puts an attribute into a dictionary, which has none under its key yet.
fn put_attribute(
    attributes: &mut AttributeDict<Generic>,
    key: Identifier,
    attribute: GenericAttr,
) -> Result<(), BuildError> {
    let before = attributes.len();
    attributes.set::<GenericAttr>(key, attribute)?;
    if attributes.len() == before {
        return Err(BuildError::NoTree);
    }
    Ok(())
}

// Puts the attributes of an operation into its dictionary.
fn put_attributes<'a>(
    attributes: &mut AttributeDict<Generic>,
    alloc: Global,
    source: Source<'a>,
    meanings: &mut Meanings<'a>,
    room: &Room,
) -> Result<(), BuildError> {
    for (at, attribute) in room.attributes.iter() {
        let key = meanings.key_of(alloc, source.unquoted(*at))?;
        put_attribute(attributes, key, *attribute)?;
    }
    Ok(())
}

// Puts the properties of an operation into its dictionary, if it has any.
fn put_properties(attributes: &mut AttributeDict<Generic>, room: &Room) -> Result<(), BuildError> {
    if let Some(id) = room.properties {
        attributes.set::<GenericAttr>(properties_key(), GenericAttr::Text(id))?;
    }
    Ok(())
}

// Sets the location of an operation, if it has one.
fn set_location(loc: &mut GenericLoc, room: &Room) {
    if let Some(id) = room.location {
        *loc = GenericLoc::Text(id);
    }
}

// Puts an operation behind the others of its block, or of those outside all regions.
fn place(
    ctx: &mut Context<Generic>,
    made: &mut Made,
    op: Op,
    block: Option<u32>,
) -> Result<(), BuildError>
    ensures { GoesOnAt (an_op op.index) (forest_of ctx.old) made.old (forest_of ctx.new) made.new }
{
    match block {
        None => {
            made.tops.push(op)?;
            Ok(())
        }
        Some(number) => match made.blocks.get(number as usize) {
            None => Err(BuildError::NoTree),
            Some(block) => Ok(operation::insert_at_back(op, *block, ctx)?),
        },
    }
}

// Makes an operation of what was read.
fn make(
    ctx: &mut Context<Generic>,
    made: &mut Made,
    room: &Room,
    kind: u32,
    rows: OpRows,
) -> Result<Op, BuildError>
    ensures goes_on { GoesOn (forest_of ctx.old) made.old (forest_of ctx.new) made.new }
    ensures new { IfOk result (λ op. IsNew (forest_of ctx.old) (an_op op.index)) }
{
    made.ops.reserve(1)?;
    ctx.recall_live_was_made();
    let op = operation::new(
        ctx,
        kind,
        room.types.as_slice(),
        room.operands.as_slice(),
        room.successors.as_slice(),
        rows.regions as usize,
    )?;
    made.ops.push((op, rows.name))?;
    Ok(op)
}

// Sets what an operation has beside operands, results, successors and regions.
fn decorate<'a>(
    ctx: &mut Context<Generic>,
    source: Source<'a>,
    meanings: &mut Meanings<'a>,
    room: &Room,
    op: Op,
) -> Result<(), BuildError>
    ensures { StaysApart (an_op op.index) (forest_of ctx.old) (forest_of ctx.new) }
{
    if room.is_bare() {
        return Ok(());
    }
    let alloc = ctx.alloc();
    let written = operation::deref_mut(ctx, op)?;
    put_attributes(&mut written.attributes, alloc, source, meanings, room)?;
    put_properties(&mut written.attributes, room)?;
    written.attributes.shrink_to_fit();
    set_location(&mut written.loc, room);
    Ok(())
}

// Reads the rows of an operation, and answers its kind.
fn read_whole<'a>(
    ctx: &mut Context<Generic>,
    source: Source<'a>,
    meanings: &mut Meanings<'a>,
    made: &Made,
    room: &mut Room,
    rows: OpRows,
) -> Result<u32, BuildError>
    ensures { forest_of ctx.new ≡ forest_of ctx.old }
{
    read_op(ctx, source, meanings, made, room, rows)?;
    let name = source.unquoted(rows.name as usize);
    meanings.kind_of(ctx, name, rows.ends_block)
}

// Puts an operation that was made where it stands, gives its results their names, and sets what else it has.
fn finish<'a>(
    ctx: &mut Context<Generic>,
    source: Source<'a>,
    meanings: &mut Meanings<'a>,
    made: &mut Made,
    room: &Room,
    op: Op,
    rows: OpRows,
) -> Result<(), BuildError>
    ensures { GoesOnAt (an_op op.index) (forest_of ctx.old) made.old (forest_of ctx.new) made.new }
{
    place(ctx, made, op, rows.block)?;
    define_results(ctx, source, made, op, rows, room.types.len())?;
    decorate(ctx, source, meanings, room, op)
}

/// Makes an operation, behind the others of its block. Its regions are empty yet.
pub(crate) fn make_op<'a>(
    ctx: &mut Context<Generic>,
    source: Source<'a>,
    meanings: &mut Meanings<'a>,
    made: &mut Made,
    room: &mut Room,
    rows: OpRows,
) -> Result<Op, BuildError>
    ensures goes_on { GoesOn (forest_of ctx.old) made.old (forest_of ctx.new) made.new }
    ensures new { IfOk result (λ op. IsNew (forest_of ctx.old) (an_op op.index)) }
{
    let kind = read_whole(ctx, source, meanings, made, room, rows)?;
    let op = make(ctx, made, room, kind, rows)?;
    finish(ctx, source, meanings, made, room, op, rows)?;
    Ok(op)
}

/// Gives an operation its operands, all of which are defined by now.
pub(crate) fn connect(
    ctx: &mut Context<Generic>,
    source: Source,
    made: &Made,
    outline: &Outline,
    op: Op,
    place: u32,
) -> Result<(), BuildError>
    ensures { GoesOnAt (an_op op.index) (forest_of ctx.old) made.now (forest_of ctx.new) made.now }
{
    let Some(rows) = outline.ops.get(place as usize) else {
        return Err(BuildError::NoTree);
    };
    for at in rows.name as usize..rows.head_end as usize {
        push_operand(ctx, source, made, op, at)?;
    }
    Ok(())
}

// Gives an operation the operand in this row, if there is one.
fn push_operand(
    ctx: &mut Context<Generic>,
    source: Source,
    made: &Made,
    op: Op,
    at: usize,
) -> Result<(), BuildError>
    ensures { GoesOnAt (an_op op.index) (forest_of ctx.old) made.now (forest_of ctx.new) made.now }
{
    if source.part(at) != Part::Operand {
        return Ok(());
    }
    let Some(row) = source.definition(at) else {
        return Err(BuildError::NoTree);
    };
    match made.value(row, source.index(at)) {
        None => Err(BuildError::NoTree),
        Some(value) => {
            let _ = operation::push_operand(op, ctx, value)?;
            Ok(())
        }
    }
}
