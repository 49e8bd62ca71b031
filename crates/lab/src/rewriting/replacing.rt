//! The calls by which an operation is replaced by values.

use crate::checked::tell_edit;
use crate::rewriting::words::Kept;
use ir_base_dialects::Ptr;
use ir_rewrite::{Rewriter, checked, operation};
use ir_view_parts::{Operation, Value};
use testkit_lab::{Lab, TextError, two};
use toy_dialect::Toy;

/// `OP VALUES`: a word whose fields are an operation, and values.
pub(crate) fn replace(
    lab: &mut Lab,
    kept: &mut Kept,
    word: &str,
    rest: &str,
) -> Result<(), TextError> {
    let (op, values) = two(rest)?;
    let op = lab.op(op)?;
    let values = values_of(lab, values)?;
    replace_by(lab, kept, word, op, &values);
    Ok(())
}

// The values that a field names. `-` names none.
fn values_of(lab: &Lab, field: &str) -> Result<Vec<Value<Toy>>, TextError> {
    match field {
        "-" => Ok(Vec::new(lab.alloc())),
        _ => values_with_commas(lab, field),
    }
}

fn values_with_commas(lab: &Lab, field: &str) -> Result<Vec<Value<Toy>>, TextError> {
    let mut values = Vec::new(lab.alloc());
    for name in field.split(',') {
        values.push(lab.value(name)?)?;
    }
    Ok(values)
}

fn replace_by(
    lab: &mut Lab,
    kept: &mut Kept,
    word: &str,
    op: Ptr<Operation<Toy>>,
    values: &[Value<Toy>],
) {
    match word {
        "rewrite.may_replace_op" => {
            let may = operation::may_replace_op(&lab.context, op, values);
            lab.text.show("", may);
        }
        "rewrite.replace_op" => {
            let answer = checked::replace_op(op, &mut lab.context, values);
            tell_edit(lab, answer);
        }
        _ => match kept {
            Some(rewriter) => replace_noted(lab, rewriter, op, values),
            None => lab.text.fail(TextError::Malformed),
        },
    }
}

// The one of them that the rewriter notes.
fn replace_noted(
    lab: &mut Lab,
    rewriter: &mut Rewriter<Toy>,
    op: Ptr<Operation<Toy>>,
    values: &[Value<Toy>],
) {
    let answer = rewriter.replace_op(op, &mut lab.context, values);
    tell_edit(lab, answer);
}
