//! What a session shows: a line for each entry of its tables, by the numbers of the tables.
//!
//! Two sessions have one text exactly where their tables mean the same, whatever slots and numbers stand behind them.

use crate::dump_parts::{arguments, operands, regions, results, successors};
use crate::dump_uses::{block_count, block_places, value_count, value_places};
use crate::places::{
    Place, block_place, blocks_of, blocks_of_back, first_block, first_op, last_block, last_op,
    op_place, ops_of, ops_of_back, parent_of_region,
};
use crate::tables::{NOWHERE, Tables};
use ir_base_dialects::{CoreError, Ptr, TypeHandle};
use ir_core_queries::{
    BasicBlock, BlockPtr, Context, DefiningEntity, Operation, OperationPtr, Region, RegionPtr,
    TypeQueries, Value, ValueQueries,
};
use std::alloc::AllocError;
use toy_dialect::{Toy, ToyType};

/// What the session of this context and these tables shows.
pub fn dump(ctx: &Context<Toy>, tables: &Tables) -> Result<String, CoreError> {
    let mut text = String::new(ctx.alloc());
    write_types(&mut text, ctx, tables)?;
    write_ops(&mut text, ctx, tables)?;
    write_inner(&mut text, ctx, tables)?;
    Ok(text)
}

// The lines of what stands in operations or is made by them: blocks, regions and values.
fn write_inner(text: &mut String, ctx: &Context<Toy>, tables: &Tables) -> Result<(), CoreError> {
    write_blocks(text, ctx, tables)?;
    write_regions(text, ctx, tables)?;
    write_values(text, ctx, tables)
}

// The lines of the types.
fn write_types(text: &mut String, ctx: &Context<Toy>, tables: &Tables) -> Result<(), CoreError> {
    for (number, ty) in tables.types.iter().enumerate() {
        write!(text, "t{number}:")?;
        write_type(text, ctx, *ty)?;
        text.push_str("\n")?;
    }
    Ok(())
}

// The lines of the operations.
fn write_ops(text: &mut String, ctx: &Context<Toy>, tables: &Tables) -> Result<(), CoreError> {
    for (number, op) in tables.ops.iter().enumerate() {
        write!(text, "o{number}:")?;
        write_op(text, ctx, tables, number, *op)?;
        text.push_str("\n")?;
    }
    Ok(())
}

// The lines of the blocks.
fn write_blocks(text: &mut String, ctx: &Context<Toy>, tables: &Tables) -> Result<(), CoreError> {
    for (number, block) in tables.blocks.iter().enumerate() {
        write!(text, "b{number}:")?;
        write_block(text, ctx, tables, number, *block)?;
        text.push_str("\n")?;
    }
    Ok(())
}

// The lines of the regions.
fn write_regions(text: &mut String, ctx: &Context<Toy>, tables: &Tables) -> Result<(), CoreError> {
    for (number, region) in tables.regions.iter().enumerate() {
        write!(text, "r{number}:")?;
        write_region(text, ctx, tables, *region)?;
        text.push_str("\n")?;
    }
    Ok(())
}

// The lines of the values.
fn write_values(text: &mut String, ctx: &Context<Toy>, tables: &Tables) -> Result<(), CoreError> {
    for (number, value) in tables.values.iter().enumerate() {
        write!(text, "v{number}:")?;
        write_value(text, ctx, tables, *value)?;
        text.push_str("\n")?;
    }
    Ok(())
}

// Writes a name.
fn write_name(text: &mut String, letter: char, number: usize) -> Result<(), AllocError> {
    if number == NOWHERE {
        write!(text, " {letter}?")
    } else {
        write!(text, " {letter}{number}")
    }
}

// Writes the title and the names, unless there are none.
fn write_names(
    text: &mut String,
    title: &str,
    letter: char,
    numbers: &[usize],
) -> Result<(), AllocError> {
    if numbers.is_empty() {
        return Ok(());
    }
    write!(text, " {title}")?;
    for number in numbers {
        write_name(text, letter, *number)?;
    }
    Ok(())
}

// Writes the title and the name, if there is one.
fn write_one(
    text: &mut String,
    title: &str,
    letter: char,
    number: Option<usize>,
) -> Result<(), AllocError> {
    match number {
        Some(number) => write_names(text, title, letter, &[number]),
        None => Ok(()),
    }
}

// Writes the title and the places, unless there are none. What else is told of them is written where it doesn't agree.
fn write_places(
    text: &mut String,
    title: &str,
    places: &[(usize, usize)],
    count: (usize, bool),
) -> Result<(), AllocError> {
    write_users(text, title, places)?;
    if count != (places.len(), !places.is_empty()) {
        write!(text, " counted {}", count.0)?;
    }
    Ok(())
}

// Writes the title and the places alone, unless there are none.
fn write_users(
    text: &mut String,
    title: &str,
    places: &[(usize, usize)],
) -> Result<(), AllocError> {
    if !places.is_empty() {
        write!(text, " {title}")?;
    }
    for (op, index) in places {
        write_name(text, 'o', *op)?;
        write!(text, ".{index}")?;
    }
    Ok(())
}

// Whether the second list is the first backward.
fn is_backward(forward: &[usize], backward: &[usize]) -> bool {
    if forward.len() != backward.len() {
        return false;
    }
    for (number, other) in forward.iter().zip(backward.iter().rev()) {
        if *number != *other {
            return false;
        }
    }
    true
}

// Writes a list as it is walked forward, and where it doesn't agree how it is walked backward, and its ends.
fn write_list(
    text: &mut String,
    title: &str,
    letter: char,
    forward: &[usize],
    backward: &[usize],
    ends: (Option<usize>, Option<usize>),
) -> Result<(), AllocError> {
    write_names(text, title, letter, forward)?;
    if !is_backward(forward, backward) {
        write_names(text, "backward", letter, backward)?;
    }
    write_ends(text, letter, forward, ends)
}

// Writes the ends of a list where they aren't those of this walk.
fn write_ends(
    text: &mut String,
    letter: char,
    walked: &[usize],
    ends: (Option<usize>, Option<usize>),
) -> Result<(), AllocError> {
    if ends == (walked.first().copied(), walked.last().copied()) {
        return Ok(());
    }
    write_one(text, "first", letter, ends.0)?;
    write_one(text, "last", letter, ends.1)
}

// The neighbours of a number in a list.
fn neighbours(list: &[usize], number: usize) -> (Option<usize>, Option<usize>) {
    let mut before = None;
    let mut found = None;
    for other in list {
        if let Some(previous) = found {
            return (previous, Some(*other));
        }
        if *other == number {
            found = Some(before);
        }
        before = Some(*other);
    }
    (found.unwrap_or(None), None)
}

// Writes what something stands in, and its neighbours where they aren't those that the list there shows.
fn write_place(
    text: &mut String,
    parents: char,
    letter: char,
    place: Place,
    shown: (Option<usize>, Option<usize>),
) -> Result<(), AllocError> {
    write_one(text, "in", parents, place.parent)?;
    if shown != (place.previous, place.next) {
        write_one(text, "after", letter, place.previous)?;
        write_one(text, "before", letter, place.next)?;
        text.push_str(" misplaced")?;
    }
    Ok(())
}

// Writes a type's key.
fn write_type(text: &mut String, ctx: &Context<Toy>, ty: TypeHandle) -> Result<(), AllocError> {
    if !ty.is_known(ctx) {
        return text.push_str(" unknown");
    }
    match ty.deref(ctx) {
        ToyType::Int { width } => write!(text, " i{width}"),
        ToyType::Named(name) => write!(text, " {name}"),
    }
}

// Writes an operation: its parts, and its place.
fn write_op(
    text: &mut String,
    ctx: &Context<Toy>,
    tables: &Tables,
    number: usize,
    op: Ptr<Operation<Toy>>,
) -> Result<(), AllocError> {
    match op.try_deref(ctx) {
        Ok(record) => {
            write_parts(text, ctx, tables, record)?;
            write_op_place(text, ctx, tables, number, op)
        }
        Err(_) => text.push_str(" gone"),
    }
}

// Writes an operation's kind and its parts.
fn write_parts(
    text: &mut String,
    ctx: &Context<Toy>,
    tables: &Tables,
    op: &Operation<Toy>,
) -> Result<(), AllocError> {
    write!(text, " {}", op.kind())?;
    write_op_values(text, ctx, tables, op)?;
    write_op_blocks(text, ctx, tables, op)
}

// Writes an operation's results and operands.
fn write_op_values(
    text: &mut String,
    ctx: &Context<Toy>,
    tables: &Tables,
    op: &Operation<Toy>,
) -> Result<(), AllocError> {
    let alloc = ctx.alloc();
    write_names(text, "results", 'v', &results(alloc, tables, op)?)?;
    write_names(text, "operands", 'v', &operands(alloc, tables, op)?)
}

// Writes an operation's successors and regions.
fn write_op_blocks(
    text: &mut String,
    ctx: &Context<Toy>,
    tables: &Tables,
    op: &Operation<Toy>,
) -> Result<(), AllocError> {
    let alloc = ctx.alloc();
    write_names(text, "successors", 'b', &successors(alloc, tables, op)?)?;
    write_names(text, "regions", 'r', &regions(alloc, tables, op)?)
}

// Writes the block that an operation stands in.
fn write_op_place(
    text: &mut String,
    ctx: &Context<Toy>,
    tables: &Tables,
    number: usize,
    op: Ptr<Operation<Toy>>,
) -> Result<(), AllocError> {
    let place = op_place(ctx, tables, op);
    let block = place.parent.and_then(|parent| tables.blocks.get(parent));
    let shown = match block {
        Some(block) => neighbours(&ops_of(ctx, tables, *block)?, number),
        None => (None, None),
    };
    write_place(text, 'b', 'o', place, shown)
}

// Writes a block: its parts, its place, and what names it.
fn write_block(
    text: &mut String,
    ctx: &Context<Toy>,
    tables: &Tables,
    number: usize,
    block: Ptr<BasicBlock<Toy>>,
) -> Result<(), CoreError> {
    let Ok(record) = block.try_deref(ctx) else {
        return Ok(text.push_str(" gone")?);
    };
    write_head(text, ctx, tables, record)?;
    write_block_lists(text, ctx, tables, number, block)
}

// Writes a block's operations, the list that it stands in, and what names it.
fn write_block_lists(
    text: &mut String,
    ctx: &Context<Toy>,
    tables: &Tables,
    number: usize,
    block: Ptr<BasicBlock<Toy>>,
) -> Result<(), CoreError> {
    write_block_ops(text, ctx, tables, block)?;
    write_block_place(text, ctx, tables, number, block)?;
    write_block_uses(text, ctx, tables, block)
}

// Writes a block's label and its arguments.
fn write_head(
    text: &mut String,
    ctx: &Context<Toy>,
    tables: &Tables,
    block: &BasicBlock<Toy>,
) -> Result<(), AllocError> {
    if let Some(label) = block.label() {
        write!(text, " {label}")?;
    }
    let items = arguments(ctx.alloc(), tables, block)?;
    write_names(text, "arguments", 'v', &items)
}

// Writes a block's operations.
fn write_block_ops(
    text: &mut String,
    ctx: &Context<Toy>,
    tables: &Tables,
    block: Ptr<BasicBlock<Toy>>,
) -> Result<(), AllocError> {
    let forward = ops_of(ctx, tables, block)?;
    let backward = ops_of_back(ctx, tables, block)?;
    let ends = (first_op(ctx, tables, block), last_op(ctx, tables, block));
    write_list(text, "operations", 'o', &forward, &backward, ends)
}

// Writes the region that a block stands in.
fn write_block_place(
    text: &mut String,
    ctx: &Context<Toy>,
    tables: &Tables,
    number: usize,
    block: Ptr<BasicBlock<Toy>>,
) -> Result<(), AllocError> {
    let place = block_place(ctx, tables, block);
    let region = place.parent.and_then(|parent| tables.regions.get(parent));
    let shown = match region {
        Some(region) => neighbours(&blocks_of(ctx, tables, *region)?, number),
        None => (None, None),
    };
    write_place(text, 'r', 'b', place, shown)
}

// Writes what names a block.
fn write_block_uses(
    text: &mut String,
    ctx: &Context<Toy>,
    tables: &Tables,
    block: Ptr<BasicBlock<Toy>>,
) -> Result<(), CoreError> {
    let places = block_places(ctx, tables, block)?;
    Ok(write_places(text, "named by", &places, block_count(ctx, block))?)
}

// Writes a region: its blocks, and the operation that it belongs to.
fn write_region(
    text: &mut String,
    ctx: &Context<Toy>,
    tables: &Tables,
    region: Ptr<Region>,
) -> Result<(), AllocError> {
    if !region.is_live(ctx) {
        return text.push_str(" gone");
    }
    write_region_blocks(text, ctx, tables, region)?;
    write_one(text, "in", 'o', parent_of_region(ctx, tables, region))
}

// Writes a region's blocks.
fn write_region_blocks(
    text: &mut String,
    ctx: &Context<Toy>,
    tables: &Tables,
    region: Ptr<Region>,
) -> Result<(), AllocError> {
    let forward = blocks_of(ctx, tables, region)?;
    let backward = blocks_of_back(ctx, tables, region)?;
    let ends = (
        first_block(ctx, tables, region),
        last_block(ctx, tables, region),
    );
    write_list(text, "blocks", 'b', &forward, &backward, ends)
}

// Writes a value: its type, its place, and what uses it.
fn write_value(
    text: &mut String,
    ctx: &Context<Toy>,
    tables: &Tables,
    value: Value<Toy>,
) -> Result<(), CoreError> {
    let Ok(index) = value.try_find_index(ctx) else {
        return Ok(text.push_str(" gone")?);
    };
    write_origin(text, ctx, tables, value)?;
    write!(text, ".{index}")?;
    write_value_uses(text, ctx, tables, value)
}

// Writes a value's type and what defines it.
fn write_origin(
    text: &mut String,
    ctx: &Context<Toy>,
    tables: &Tables,
    value: Value<Toy>,
) -> Result<(), AllocError> {
    write_value_type(text, ctx, tables, value)?;
    write_definer(text, tables, value)
}

// Writes what uses a value.
fn write_value_uses(
    text: &mut String,
    ctx: &Context<Toy>,
    tables: &Tables,
    value: Value<Toy>,
) -> Result<(), CoreError> {
    let places = value_places(ctx, tables, value)?;
    Ok(write_places(text, "used by", &places, value_count(ctx, value))?)
}

// Writes a live value's type.
fn write_value_type(
    text: &mut String,
    ctx: &Context<Toy>,
    tables: &Tables,
    value: Value<Toy>,
) -> Result<(), AllocError> {
    if !value.is_live(ctx) {
        return text.push_str(" not live");
    }
    let number = tables.type_number(value.get_type(ctx));
    write_names(text, "type", 't', &[number])
}

// Writes what defines a value.
fn write_definer(text: &mut String, tables: &Tables, value: Value<Toy>) -> Result<(), AllocError> {
    match value.defining_entity() {
        DefiningEntity::Op(op) => write_names(text, "of", 'o', &[tables.op_number(op)]),
        DefiningEntity::Block(block) => write_names(text, "of", 'b', &[tables.block_number(block)]),
    }
}
