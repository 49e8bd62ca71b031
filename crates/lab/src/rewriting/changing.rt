//! The calls by which operations are put in, moved and erased, and those that ask whether they may be.

use crate::checked::tell_edit;
use crate::rewriting::words::Kept;
use ir_base_dialects::Ptr;
use ir_rewrite::{Rewriter, checked, operation};
use ir_view_parts::Operation;
use testkit_lab::{Lab, TextError};
use toy_dialect::Toy;

/// The calls of the rewriter that are given an operation.
pub(crate) fn change_op(
    lab: &mut Lab,
    rewriter: &mut Rewriter<Toy>,
    word: &str,
    op: Ptr<Operation<Toy>>,
) {
    match word {
        "rewrite.may_go_at" => {
            let may = operation::may_go_at(&lab.context, op, rewriter.inserter.point);
            lab.text.show("", may);
        }
        "rewrite.insert" => {
            let answer = rewriter.inserter.insert(op, &mut lab.context);
            tell_edit(lab, answer);
        }
        "rewriter.insert" => {
            let answer = rewriter.insert(op, &mut lab.context);
            tell_edit(lab, answer);
        }
        "rewriter.erase_op" => {
            let answer = rewriter.erase_op(op, &mut lab.context);
            tell_edit(lab, answer);
        }
        "rewriter.modified" => {
            let answer = rewriter.modified(&lab.context, op);
            tell_edit(lab, answer);
        }
        _ => lab.text.fail(TextError::Malformed),
    }
}

/// The calls that are given an operation and the mark beside which it goes.
pub(crate) fn change_ops(
    lab: &mut Lab,
    kept: &mut Kept,
    word: &str,
    op: Ptr<Operation<Toy>>,
    mark: Ptr<Operation<Toy>>,
) {
    match word {
        "rewrite.may_move_beside" => {
            let may = operation::may_move_beside(&lab.context, op, mark);
            lab.text.show("", may);
        }
        "rewrite.move_before" => {
            let answer = checked::move_before(op, &mut lab.context, mark);
            tell_edit(lab, answer);
        }
        "rewrite.move_after" => {
            let answer = checked::move_after(op, &mut lab.context, mark);
            tell_edit(lab, answer);
        }
        _ => match kept {
            Some(rewriter) => move_noted(lab, rewriter, word, op, mark),
            None => lab.text.fail(TextError::Malformed),
        },
    }
}

// Those of them that the rewriter notes.
fn move_noted(
    lab: &mut Lab,
    rewriter: &mut Rewriter<Toy>,
    word: &str,
    op: Ptr<Operation<Toy>>,
    mark: Ptr<Operation<Toy>>,
) {
    match word {
        "rewriter.move_before" => {
            let answer = rewriter.move_before(op, &mut lab.context, mark);
            tell_edit(lab, answer);
        }
        "rewriter.move_after" => {
            let answer = rewriter.move_after(op, &mut lab.context, mark);
            tell_edit(lab, answer);
        }
        _ => lab.text.fail(TextError::Malformed),
    }
}
