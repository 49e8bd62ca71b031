//! The calls that change blocks, and what names them.

use crate::checked::told::{tell_edit, tell_error};
use crate::checked::words::read;
use ir_base_dialects::{Ptr, TypeHandle};
use ir_checked::{dead, passes};
use ir_checked_core::basic_block;
use ir_view_parts::{BasicBlock, Context, Region};
use testkit_lab::{Item, Items, Lab, TextError, type_of};
use toy_dialect::Toy;

/// Those that are given a block alone.
pub(crate) fn edit_block(lab: &mut Lab, call: &str, block: Ptr<BasicBlock<Toy>>) {
    match call {
        "basic_block::pop_argument" => {
            let answer = basic_block::pop_argument(block, &mut lab.context);
            tell_edit(lab, answer);
        }
        "basic_block::unlink" => {
            let answer = basic_block::unlink(block, &mut lab.context);
            tell_edit(lab, answer);
        }
        "basic_block::drop_all_uses" => {
            let answer = basic_block::drop_all_uses(block, &mut lab.context);
            tell_edit(lab, answer);
        }
        "basic_block::erase" => {
            let answer = basic_block::erase(block, &mut lab.context);
            tell_edit(lab, answer);
        }
        "dead::sweep" => {
            let answer = dead::sweep(block, &mut lab.context);
            tell_edit(lab, answer);
        }
        "passes::merge_common" => {
            let answer = passes::merge_common(block, &mut lab.context);
            tell_edit(lab, answer);
        }
        "basic_block::deref_mut" => lend_block(lab, block),
        _ => read(lab, call, Items::One(Item::Block(block))),
    }
}

// How many attributes what is lent has.
fn lend_block(lab: &mut Lab, block: Ptr<BasicBlock<Toy>>) {
    match basic_block::deref_mut(&mut lab.context, block) {
        Ok(lent) => lab.text.show("attributes ", lent.attributes.len()),
        Err(error) => tell_error(&mut lab.text, error),
    }
}

/// A block without a label, with one argument of this type.
pub(crate) fn new_block(lab: &mut Lab, ty: TypeHandle) {
    let answer = basic_block::new(&mut lab.context, None, &[ty]);
    tell_edit(lab, answer);
}

/// Those that are given a block and something else.
pub(crate) fn edit_of_blocks(lab: &mut Lab, call: &str, block: Ptr<BasicBlock<Toy>>, other: Item) {
    match other {
        Item::Block(other) => edit_blocks(lab, call, block, other),
        Item::Region(region) => edit_block_region(lab, call, block, region),
        Item::Type(ty) => push_argument(lab, call, block, ty),
        Item::Number(index) => edit_block_index(lab, call, block, index),
        _ => lab.text.fail(TextError::Malformed),
    }
}

fn edit_blocks(
    lab: &mut Lab,
    call: &str,
    block: Ptr<BasicBlock<Toy>>,
    other: Ptr<BasicBlock<Toy>>,
) {
    match call {
        "basic_block::insert_before" => {
            let answer = basic_block::insert_before(block, &mut lab.context, other);
            tell_edit(lab, answer);
        }
        "basic_block::insert_after" => {
            let answer = basic_block::insert_after(block, &mut lab.context, other);
            tell_edit(lab, answer);
        }
        "basic_block::append_linked_list" => {
            let answer = basic_block::append_linked_list(block, &mut lab.context, other);
            tell_edit(lab, answer);
        }
        "basic_block::retarget_all_preds_to" => {
            let answer = basic_block::retarget_all_preds_to(block, &mut lab.context, other);
            tell_edit(lab, answer);
        }
        // All uses are chosen.
        "basic_block::retarget_some_preds_to" => {
            let answer = basic_block::retarget_some_preds_to(
                block,
                &mut lab.context,
                |_shown: &Context<Toy>, _pred: Ptr<BasicBlock<Toy>>| true,
                other,
            );
            tell_edit(lab, answer);
        }
        _ => read(
            lab,
            call,
            Items::Two(Item::Block(block), Item::Block(other)),
        ),
    }
}

fn edit_block_region(lab: &mut Lab, call: &str, block: Ptr<BasicBlock<Toy>>, region: Ptr<Region>) {
    match call {
        "basic_block::insert_at_front" => {
            let answer = basic_block::insert_at_front(block, region, &mut lab.context);
            tell_edit(lab, answer);
        }
        "basic_block::insert_at_back" => {
            let answer = basic_block::insert_at_back(block, region, &mut lab.context);
            tell_edit(lab, answer);
        }
        _ => lab.text.fail(TextError::Malformed),
    }
}

fn push_argument(lab: &mut Lab, call: &str, block: Ptr<BasicBlock<Toy>>, ty: TypeHandle) {
    match call {
        "basic_block::push_argument" => {
            let answer = basic_block::push_argument(block, &mut lab.context, ty);
            tell_edit(lab, answer);
        }
        _ => lab.text.fail(TextError::Malformed),
    }
}

fn edit_block_index(lab: &mut Lab, call: &str, block: Ptr<BasicBlock<Toy>>, index: usize) {
    match call {
        "basic_block::push_argument" => push_argument(lab, call, block, TypeHandle::at(index)),
        "basic_block::remove_argument" => {
            let answer = basic_block::remove_argument(block, &mut lab.context, index);
            tell_edit(lab, answer);
        }
        _ => read(
            lab,
            call,
            Items::Two(Item::Block(block), Item::Number(index)),
        ),
    }
}

/// Those that are given a block and two other things.
pub(crate) fn edit_block_at(
    lab: &mut Lab,
    call: &str,
    block: Ptr<BasicBlock<Toy>>,
    other: Item,
    third: Item,
) {
    match (call, other, third) {
        ("basic_block::retarget_pred_to", Item::BlockUse(used), Item::Block(other)) => {
            let answer = basic_block::retarget_pred_to(block, &mut lab.context, used, other);
            tell_edit(lab, answer);
        }
        ("basic_block::insert_argument", Item::Number(index), _) => {
            insert_argument(lab, block, index, third)
        }
        _ => lab.text.fail(TextError::Malformed),
    }
}

fn insert_argument(lab: &mut Lab, block: Ptr<BasicBlock<Toy>>, index: usize, ty: Item) {
    match type_of(ty) {
        Ok(ty) => {
            let answer = basic_block::insert_argument(block, &mut lab.context, index, ty);
            tell_edit(lab, answer);
        }
        Err(error) => lab.text.fail(error),
    }
}
