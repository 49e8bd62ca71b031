//! The calls that ask of blocks.

use crate::checked::asks::ask_entity;
use crate::checked::told::{tell, tell_error};
use crate::checked::walked;
use ir_base_dialects::Ptr;
use ir_checked::{basic_block as views, walk};
use ir_checked_core::basic_block;
use ir_run::toy::ToyVerifiers;
use ir_view_parts::{BasicBlock, Entity};
use testkit_lab::{Lab, Reply, TextError};
use toy_dialect::Toy;

/// Those that are given a block alone.
pub(crate) fn ask_block(text: &mut Reply, lab: &Lab, call: &str, block: Ptr<BasicBlock<Toy>>) {
    let ctx = lab.ctx();
    match call {
        // How many arguments the block has.
        "basic_block::deref" => match basic_block::deref(block, ctx) {
            Ok(record) => text.show("arguments ", record.get_num_arguments()),
            Err(error) => tell_error(text, error),
        },
        "basic_block::given_name" => tell(text, lab, basic_block::given_name(block, ctx)),
        "basic_block::id" => tell(text, lab, basic_block::id(block, ctx)),
        "basic_block::unique_name" => tell(text, lab, basic_block::unique_name(block, ctx)),
        "basic_block::get_next" => tell(text, lab, basic_block::get_next(block, ctx)),
        "basic_block::get_prev" => tell(text, lab, basic_block::get_prev(block, ctx)),
        "basic_block::get_head" => tell(text, lab, basic_block::get_head(block, ctx)),
        "basic_block::get_tail" => tell(text, lab, basic_block::get_tail(block, ctx)),
        "basic_block::iter" => walked::ops(text, lab, block),
        "basic_block::uses" => tell(text, lab, basic_block::uses(block, ctx)),
        "basic_block::preds" => tell(text, lab, views::preds(block, ctx)),
        "basic_block::succs" => tell(text, lab, views::succs(block, ctx)),
        "basic_block::get_terminator" => tell(text, lab, views::get_terminator(block, ctx)),
        "basic_block::verify" => tell(text, lab, views::verify(block, ctx, &ToyVerifiers)),
        "walk::ops_of" => tell(text, lab, walk::ops_of(ctx, block)),
        _ => ask_block_more(text, lab, call, block),
    }
}

// Those that answer a number, a truth or what the block stands in.
fn ask_block_more(text: &mut Reply, lab: &Lab, call: &str, block: Ptr<BasicBlock<Toy>>) {
    let ctx = lab.ctx();
    match call {
        "basic_block::get_parent_region" => {
            tell(text, lab, basic_block::get_parent_region(block, ctx))
        }
        "basic_block::get_parent_op" => tell(text, lab, basic_block::get_parent_op(block, ctx)),
        "basic_block::get_parent_block" => {
            tell(text, lab, basic_block::get_parent_block(block, ctx))
        }
        "basic_block::preds_are_linked" => {
            tell(text, lab, basic_block::preds_are_linked(block, ctx))
        }
        "basic_block::has_pred" => tell(text, lab, basic_block::has_pred(block, ctx)),
        "basic_block::num_preds" => tell(text, lab, basic_block::num_preds(block, ctx)),
        "basic_block::has_succ" => tell(text, lab, views::has_succ(block, ctx)),
        "basic_block::num_succ" => tell(text, lab, views::num_succ(block, ctx)),
        _ => ask_entity(text, lab, call, Entity::Block(block)),
    }
}

/// Those that are given a block and a number.
pub(crate) fn ask_block_at(
    text: &mut Reply,
    lab: &Lab,
    call: &str,
    block: Ptr<BasicBlock<Toy>>,
    index: usize,
) {
    let ctx = lab.ctx();
    match call {
        "basic_block::get_argument" => {
            tell(text, lab, basic_block::get_argument(block, ctx, index))
        }
        "basic_block::get_pred" => tell(text, lab, views::get_pred(block, ctx, index)),
        "basic_block::get_succ" => tell(text, lab, views::get_succ(block, ctx, index)),
        _ => text.fail(TextError::Malformed),
    }
}

/// Those that are given two blocks.
pub(crate) fn ask_of_blocks(
    text: &mut Reply,
    lab: &Lab,
    call: &str,
    block: Ptr<BasicBlock<Toy>>,
    other: Ptr<BasicBlock<Toy>>,
) {
    let ctx = lab.ctx();
    match call {
        "basic_block::is_pred" => tell(text, lab, views::is_pred(block, ctx, other)),
        "basic_block::is_succ_of" => tell(text, lab, views::is_succ_of(block, ctx, other)),
        "basic_block::is_succ" => tell(text, lab, views::is_succ(block, ctx, other)),
        _ => text.fail(TextError::Malformed),
    }
}
