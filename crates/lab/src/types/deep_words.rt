//! Deep nests.
//!
//! - `above o0 COUNT`, `below o0 COUNT`: so many operations of kind 5, each in a block of the region of the one before it, from `o0` inward or outward, whose last is entered.
//! - `read o0 o1`: whether the second stands inside the first and the first inside the second, whether the first stands in no block, and whether the second is the first of its block.

use crate::types::telling::enter;
use ir_base_dialects::{Dialects, Ptr};
use ir_checked_core::{CheckedErr, basic_block, operation};
use ir_view_parts::{BasicBlock, Context, Entity, Operation, Region, is_inside};
use testkit_lab::{Item, Items, Lab, Reply, TextError, asked, items_of, tell_refused};
use toy_dialect::Toy;

/// Answers a word.
pub(crate) fn answer(lab: &mut Lab, call: &str, rest: &str) -> Result<(), TextError> {
    let items = items_of(lab, rest)?;
    match (call, items) {
        ("above", Items::Two(Item::Op(op), Item::Number(levels))) => {
            nest(lab, Way::Inward, op, levels)
        }
        ("below", Items::Two(Item::Op(op), Item::Number(levels))) => {
            nest(lab, Way::Outward, op, levels)
        }
        ("read", Items::Two(Item::Op(outer), Item::Op(inner))) => read(
            &mut lab.text,
            asked(lab.mode, &lab.session, &lab.context),
            outer,
            inner,
        ),
        _ => lab.text.fail(TextError::Malformed),
    }
    Ok(())
}

// Which way a nest grows.
#[derive(Clone, Copy, Drop)]
enum Way {
    Inward,
    Outward,
}

// Puts the inner operation into a new block in the region of the outer one.
fn put_inside<D: Dialects>(
    ctx: &mut Context<D>,
    way: Way,
    outer: Ptr<Operation<D>>,
    inner: Ptr<Operation<D>>,
) -> Result<(), CheckedErr> {
    let block = basic_block::new(ctx, None, &[])?;
    let inside = operation::get_region(outer, ctx, 0)?;
    put_into(ctx, way, inside, block, inner)
}

// Puts the operation into the block, and that into the region. A nest that grows inward has its block in place first.
fn put_into<D: Dialects>(
    ctx: &mut Context<D>,
    way: Way,
    inside: Ptr<Region>,
    block: Ptr<BasicBlock<D>>,
    inner: Ptr<Operation<D>>,
) -> Result<(), CheckedErr> {
    match way {
        Way::Inward => {
            basic_block::insert_at_back(block, inside, ctx)?;
            operation::insert_at_back(inner, block, ctx)
        }
        Way::Outward => {
            operation::insert_at_back(inner, block, ctx)?;
            basic_block::insert_at_back(block, inside, ctx)
        }
    }
}

// A new operation in or around this one.
fn grow<D: Dialects>(
    ctx: &mut Context<D>,
    way: Way,
    last: Ptr<Operation<D>>,
) -> Result<Ptr<Operation<D>>, CheckedErr> {
    let next = operation::new(ctx, 5, &[], &[], &[], 1)?;
    let (outer, inner) = match way {
        Way::Inward => (last, next),
        Way::Outward => (next, last),
    };
    put_inside(ctx, way, outer, inner)?;
    Ok(next)
}

// The last of so many new operations in or around one another, from this one on.
fn grow_by<D: Dialects>(
    ctx: &mut Context<D>,
    way: Way,
    op: Ptr<Operation<D>>,
    levels: usize,
) -> Result<Ptr<Operation<D>>, CheckedErr> {
    let mut last = op;
    for _level in 0..levels {
        last = grow(ctx, way, last)?;
    }
    Ok(last)
}

fn nest(lab: &mut Lab, way: Way, op: Ptr<Operation<Toy>>, levels: usize) {
    match grow_by(&mut lab.context, way, op, levels) {
        Ok(last) => enter(&mut lab.text, "made o", &mut lab.tables.ops, last),
        Err(error) => tell_refused(&mut lab.text, error),
    }
}

fn read(
    text: &mut Reply,
    ctx: &Context<Toy>,
    outer: Ptr<Operation<Toy>>,
    inner: Ptr<Operation<Toy>>,
) {
    text.show(
        "inside ",
        is_inside(ctx, Entity::Op(inner), Entity::Op(outer)),
    );
    text.show(" ", is_inside(ctx, Entity::Op(outer), Entity::Op(inner)));
    text.show(
        " alone ",
        operation::get_parent_block(outer, ctx) == Ok(None),
    );
    text.show(" first ", is_first(ctx, inner));
}

// Whether the operation is the first of a block.
fn is_first<D: Dialects>(ctx: &Context<D>, op: Ptr<Operation<D>>) -> bool {
    match operation::get_parent_block(op, ctx) {
        Ok(Some(block)) => basic_block::get_head(block, ctx) == Ok(Some(op)),
        _ => false,
    }
}
