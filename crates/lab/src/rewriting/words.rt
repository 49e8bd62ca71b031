//! Where a word goes: by what its fields name.

use crate::rewriting::changing::{change_op, change_ops};
use crate::rewriting::replacing::replace;
use ir_base_dialects::Ptr;
use ir_rewrite::{Change, InsertionPoint, Rewriter};
use ir_view_parts::{BasicBlock, Operation};
use testkit_lab::{Item, Items, Lab, Mode, Named, TextError, items_of};
use toy_dialect::Toy;

/// The rewriter that is kept, if a word has begun one.
pub(crate) type Kept = Option<Rewriter<Toy>>;

/// Answers a line in a context: a word of this module, and its fields.
///
/// # Errors
/// `Malformed` where a field names nothing, or in a session, and `OutOfMemory`. Else the end of the lab's text tells whether there is an answer.
pub(crate) fn answer(
    lab: &mut Lab,
    kept: &mut Kept,
    word: &str,
    rest: &str,
) -> Result<(), TextError> {
    match lab.mode {
        Mode::Session => Err(TextError::Malformed),
        Mode::Context => answer_in_context(lab, kept, word, rest),
    }
}

// The fields of the first words don't all name items.
fn answer_in_context(
    lab: &mut Lab,
    kept: &mut Kept,
    word: &str,
    rest: &str,
) -> Result<(), TextError> {
    match word {
        "rewrite.replace_op" | "rewrite.may_replace_op" | "rewriter.replace_op" => {
            replace(lab, kept, word, rest)
        }
        _ => {
            let items = items_of(lab, rest)?;
            answer_items(lab, kept, word, items);
            Ok(())
        }
    }
}

fn answer_items(lab: &mut Lab, kept: &mut Kept, word: &str, items: Items) {
    match items {
        Items::None => tell_noted(lab, kept, word),
        Items::One(Item::Block(block)) => begin_in(lab, kept, word, block),
        Items::One(Item::Op(op)) => answer_op(lab, kept, word, op),
        Items::Two(Item::Op(op), Item::Op(mark)) => change_ops(lab, kept, word, op, mark),
        _ => lab.text.fail(TextError::Malformed),
    }
}

// A rewriter with this point, which has noted nothing, is kept.
fn begin(lab: &mut Lab, kept: &mut Kept, point: InsertionPoint<Toy>) {
    *kept = Some(Rewriter::new(lab.alloc(), point));
    lab.text.say("done");
}

fn begin_in(lab: &mut Lab, kept: &mut Kept, word: &str, block: Ptr<BasicBlock<Toy>>) {
    match word {
        "rewriter.at_block_start" => begin(lab, kept, InsertionPoint::AtBlockStart(block)),
        "rewriter.at_block_end" => begin(lab, kept, InsertionPoint::AtBlockEnd(block)),
        _ => lab.text.fail(TextError::Malformed),
    }
}

fn answer_op(lab: &mut Lab, kept: &mut Kept, word: &str, op: Ptr<Operation<Toy>>) {
    match word {
        "rewriter.before_operation" => begin(lab, kept, InsertionPoint::BeforeOperation(op)),
        "rewriter.after_operation" => begin(lab, kept, InsertionPoint::AfterOperation(op)),
        _ => match kept {
            Some(rewriter) => change_op(lab, rewriter, word, op),
            None => lab.text.fail(TextError::Malformed),
        },
    }
}

fn tell_noted(lab: &mut Lab, kept: &Kept, word: &str) {
    match (word, kept) {
        ("rewriter.noted", Some(rewriter)) => tell_changes(lab, &rewriter.changes),
        _ => lab.text.fail(TextError::Malformed),
    }
}

fn tell_changes(lab: &mut Lab, changes: &[Change<Toy>]) {
    lab.text.say("noted");
    for change in changes {
        tell_change(lab, *change);
    }
}

fn tell_change(lab: &mut Lab, change: Change<Toy>) {
    match change {
        Change::Inserted(op) => tell_op(lab, " i:", op),
        Change::Modified(op) => tell_op(lab, " m:", op),
        Change::Touched(op) => tell_op(lab, " t:", op),
        Change::Erased(op) => tell_op(lab, " e:", op),
    }
}

fn tell_op(lab: &mut Lab, mark: &str, op: Ptr<Operation<Toy>>) {
    let name = op.name(lab);
    lab.text.show(mark, name);
}
