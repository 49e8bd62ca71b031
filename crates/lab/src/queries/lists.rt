//! The lists of blocks and regions, walked from both ends. Of each list its ends are written, as its calls tell them and as its record has them, and the walks over it: forward, backward, and by turns from both ends.

use ir_base_dialects::linked_list::LinkedList;
use ir_base_dialects::{Iter, Ptr};
use ir_checked_core::{basic_block, region};
use ir_view_parts::{BasicBlock, BlockPlace, BlockPtr, Operation, Region, RegionPlace, RegionPtr};
use std::alloc::AllocError;
use testkit_lab::{Lab, Named, Reply, TextError, name_of, tell_condition};
use toy_dialect::Toy;

/// `BLOCK`: the list of its operations.
pub(crate) fn of_block(text: &mut Reply, lab: &Lab, block: Ptr<BasicBlock<Toy>>) {
    let ctx = lab.ctx();
    if block.is_live(ctx) {
        let head = basic_block::get_head(block, ctx).unwrap_or(None);
        let tail = basic_block::get_tail(block, ctx).unwrap_or(None);
        let kept = block.deref(ctx).ops_list;
        let first: Option<Ptr<Operation<Toy>>> = kept.first.get().map(Ptr::from_index);
        let last: Option<Ptr<Operation<Toy>>> = kept.last.get().map(Ptr::from_index);
        write_ends(text, lab, [head, tail, first, last]);
        write_walks(text, lab, block.iter(ctx));
    } else {
        tell_condition(text);
    }
}

/// `REGION`: the list of its blocks.
pub(crate) fn of_region(text: &mut Reply, lab: &Lab, region: Ptr<Region>) {
    let ctx = lab.ctx();
    if region.is_live(ctx) {
        let head = region::get_head(region, ctx).unwrap_or(None);
        let tail = region::get_tail(region, ctx).unwrap_or(None);
        let kept = RegionPtr::<Toy>::deref(region, ctx);
        let first: Option<Ptr<BasicBlock<Toy>>> = kept.first.get().map(Ptr::from_index);
        let last: Option<Ptr<BasicBlock<Toy>>> = kept.last.get().map(Ptr::from_index);
        write_ends(text, lab, [head, tail, first, last]);
        write_walks(text, lab, region.iter(ctx));
    } else {
        tell_condition(text);
    }
}

// Writes the ends as they are told and as they are kept.
fn write_ends<T: Named>(text: &mut Reply, lab: &Lab, ends: [Option<T>; 4]) {
    let [head, tail, first, last] = ends;
    text.show("head ", name_of(lab, head));
    text.show(" tail ", name_of(lab, tail));
    text.show(" first ", name_of(lab, first));
    text.show(" last ", name_of(lab, last));
}

// Writes the walks over the list. A copy of a walk takes no memory.
fn write_walks<T: LinkedList>(text: &mut Reply, lab: &Lab, walk: Iter<'_, T>)
where
    Ptr<T>: Named,
{
    text.say(" forward");
    write_forward(text, lab, walk.clone());
    text.say(" backward");
    write_backward(text, lab, walk.clone());
    text.say(" turns");
    write_turns(text, lab, walk);
}

fn write_forward<T: LinkedList>(text: &mut Reply, lab: &Lab, walk: Result<Iter<'_, T>, AllocError>)
where
    Ptr<T>: Named,
{
    match walk {
        Ok(walk) => {
            for node in walk {
                text.show(" ", node.name(lab));
            }
        }
        Err(_) => text.fail(TextError::OutOfMemory),
    }
}

fn write_backward<T: LinkedList>(text: &mut Reply, lab: &Lab, walk: Result<Iter<'_, T>, AllocError>)
where
    Ptr<T>: Named,
{
    match walk {
        Ok(walk) => {
            for node in walk.rev() {
                text.show(" ", node.name(lab));
            }
        }
        Err(_) => text.fail(TextError::OutOfMemory),
    }
}

fn write_turns<T: LinkedList>(text: &mut Reply, lab: &Lab, walk: Iter<'_, T>)
where
    Ptr<T>: Named,
{
    let mut turns = walk;
    for turn in 0..usize::MAX {
        let node = if turn % 2 == 0 {
            turns.next()
        } else {
            turns.next_back()
        };
        match node {
            Some(node) => text.show(" ", node.name(lab)),
            None => break,
        }
    }
}
