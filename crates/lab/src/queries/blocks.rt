//! What is read of a block, and of the edges between blocks.

use crate::queries::{lists, nesting, uses, walks};
use ir_base_dialects::Ptr;
use ir_checked_core::{CheckedErr, basic_block};
use ir_view_parts::{
    BasicBlock, BlockPlace, BlockPredecessors, BlockPtr, BlockSuccessors, BlockUses, Context,
    Entity,
};
use testkit_lab::{Lab, Line, Named, Reply, name_of, tell_condition, tell_refused};
use toy_dialect::Toy;

/// The words with a block alone.
pub(crate) fn ask(text: &mut Reply, lab: &Lab, word: &str, block: Ptr<BasicBlock<Toy>>) {
    match word {
        "block.read" => read(text, lab, block),
        "block.place" => place(text, lab, block),
        "block.succs" => succs(text, lab, block),
        "block.preds" => preds(text, lab, block),
        "block.uses" => uses::of_block(text, lab, block),
        "list.read" => lists::of_block(text, lab, block),
        "nest.handle" => nesting::write_block(text, lab, block),
        "nest.listed" => walks::listed_in_block(text, lab, block),
        _ => nesting::ask(text, lab, word, Entity::Block(block)),
    }
}

// `BLOCK`: its label, how many arguments it has, how many successors name it and it has itself, its terminator, its location and how many attributes it has.
fn read(text: &mut Reply, lab: &Lab, block: Ptr<BasicBlock<Toy>>) {
    match block.try_deref(lab.ctx()) {
        Ok(record) => {
            write_label(text, record);
            write_record(text, record);
            write_edges(text, lab, block);
        }
        Err(fault) => text.show("", fault),
    }
}

fn write_label(text: &mut Reply, block: &BasicBlock<Toy>) {
    match block.label() {
        Some(label) => text.show("label ", label.as_str()),
        None => text.say("label -"),
    }
}

fn write_record(text: &mut Reply, block: &BasicBlock<Toy>) {
    text.show(" arguments ", block.get_num_arguments());
    text.show(" loc ", Line(*block.loc()));
    text.show(" attributes ", block.attributes().len());
}

fn write_edges(text: &mut Reply, lab: &Lab, block: Ptr<BasicBlock<Toy>>) {
    let ctx = lab.ctx();
    if block.is_live(ctx) {
        text.show(" has_pred ", block.has_pred(ctx));
        text.show(" num_preds ", block.num_preds(ctx));
        text.show(" preds_are_linked ", block.preds_are_linked(ctx));
        text.show(" has_succ ", block.has_succ(ctx));
        text.show(" num_succ ", block.num_succ(ctx));
        text.show(" terminator ", name_of(lab, block.get_terminator(ctx)));
    } else {
        tell_condition(text);
    }
}

// `BLOCK`: what it stands in, and its neighbours there.
fn place(text: &mut Reply, lab: &Lab, block: Ptr<BasicBlock<Toy>>) {
    let ctx = lab.ctx();
    if block.is_live(ctx) {
        text.show("region ", name_of(lab, block.get_parent_region(ctx)));
        text.show(" op ", name_of(lab, block.get_parent_op(ctx)));
        text.show(" block ", name_of(lab, block.get_parent_block(ctx)));
        text.show(" linked ", block.is_linked(ctx));
        text.show(" prev ", name_of(lab, block.get_prev(ctx)));
        let next = basic_block::get_next(block, ctx).unwrap_or(None);
        text.show(" next ", name_of(lab, next));
    } else {
        tell_condition(text);
    }
}

/// `BLOCK INDEX`: its argument there, and the blocks that it leads to and that lead to it.
pub(crate) fn at(text: &mut Reply, lab: &Lab, block: Ptr<BasicBlock<Toy>>, index: usize) {
    let ctx = lab.ctx();
    let argument = basic_block::get_argument(block, ctx, index).ok();
    text.show("argument ", name_of(lab, argument));
    text.show(" succ ", name_of(lab, succ_at(ctx, block, index)));
    text.show(" pred ", name_of(lab, pred_at(ctx, block, index)));
}

fn succ_at(
    ctx: &Context<Toy>,
    block: Ptr<BasicBlock<Toy>>,
    index: usize,
) -> Option<Ptr<BasicBlock<Toy>>> {
    if block.is_live(ctx) && index < block.num_succ(ctx) {
        Some(block.get_succ(ctx, index))
    } else {
        None
    }
}

fn pred_at(
    ctx: &Context<Toy>,
    block: Ptr<BasicBlock<Toy>>,
    index: usize,
) -> Option<Ptr<BasicBlock<Toy>>> {
    if block.is_live(ctx) && block.preds_are_linked(ctx) && index < block.num_preds(ctx) {
        Some(block.get_pred(ctx, index))
    } else {
        None
    }
}

/// `BLOCK OTHER`: whether the other is a successor of the one, whether it is a predecessor of it, and whether the one is a successor of the other as its last operation tells.
pub(crate) fn edge(
    text: &mut Reply,
    lab: &Lab,
    block: Ptr<BasicBlock<Toy>>,
    other: Ptr<BasicBlock<Toy>>,
) {
    let ctx = lab.ctx();
    if block.is_live(ctx) && other.is_live(ctx) {
        text.show("is_succ ", block.is_succ(ctx, other));
        text.show(" is_pred ", block.is_pred(ctx, other));
        text.show(" is_succ_of ", block.is_succ_of(ctx, other));
    } else {
        tell_condition(text);
    }
}

// `BLOCK`: the blocks that it leads to.
fn succs(text: &mut Reply, lab: &Lab, block: Ptr<BasicBlock<Toy>>) {
    let ctx = lab.ctx();
    if block.is_live(ctx) {
        match block.succs(ctx) {
            Ok(blocks) => write_blocks(text, lab, &blocks),
            Err(error) => tell_refused(text, CheckedErr::Core(error)),
        }
    } else {
        tell_condition(text);
    }
}

// `BLOCK`: the blocks that lead to it.
fn preds(text: &mut Reply, lab: &Lab, block: Ptr<BasicBlock<Toy>>) {
    let ctx = lab.ctx();
    if block.is_live(ctx) && block.preds_are_linked(ctx) {
        match block.preds(ctx) {
            Ok(blocks) => write_blocks(text, lab, &blocks),
            Err(error) => tell_refused(text, CheckedErr::Core(error)),
        }
    } else {
        tell_condition(text);
    }
}

// Writes how many blocks there are, and their names.
fn write_blocks(text: &mut Reply, lab: &Lab, blocks: &[Ptr<BasicBlock<Toy>>]) {
    text.show("len ", blocks.len());
    for block in blocks {
        text.show(" ", block.name(lab));
    }
}
