//! Verification over the small dialect, and its ids. A `ROOT` is a root of the forest in which each sort of check is run somewhere, or the attribute `marked` or `plain`, both of the number 4.
//!
//! - `make`: the forest.
//! - `codes ROOT`: each code up to 299 that is found where it is asked for; `spent ROOT`: each by whose check memory runs out where it does so. Behind what is found otherwise stands `?`.
//! - `type PLACE ASKED SPENT`: what is found at a type where the one code is asked for, and in the check of the other one memory runs out.
//! - `well ROOT`: what is found where no code is; `asking ROOT`: by checks that ask for memory.
//! - `get_opid`, `op_id`, `op_static_id`, `attr_id`, `attr_static_id`: ids, of the operation in the block and of a marked attribute.

use crate::types::asking::Asking;
use crate::types::judged::{JudgedRoot, judged_found};
use crate::types::telling::{tell, tell_refusal};
use crate::types::verify_words::tell_found;
use ir_base_dialects::attribute::Attribute;
use ir_base_dialects::{CoreError, Ptr, TypeHandle};
use ir_checked::types;
use ir_verify::verify::{VerifierErr, Verifiers, VerifyErr, verify_attr};
use ir_view_parts::{Context, Op, Operation, OperationKind, OperationPtr};
use testkit_lab::{
    InnerOp, Item, Items, Judge, Lab, LabErr, MarkedAttr, MarkedForest, PlainAttr, Reply, Small,
    SmallAttr, TextError, items_of, make_marked, one, tell_condition,
};

// No check has this code or a greater one.
const END_OF_CODES: u32 = 300;

/// Answers a word.
pub(crate) fn answer(lab: &mut Lab, call: &str, rest: &str) -> Result<(), TextError> {
    match call {
        "codes" | "spent" | "well" | "asking" => judge(lab, call, rest),
        "type" => judge_type(lab, rest),
        _ => {
            answer_alone(lab, call);
            Ok(())
        }
    }
}

// The words that stand alone.
fn answer_alone(lab: &mut Lab, call: &str) {
    match call {
        "make" => make(lab),
        "get_opid" | "op_id" => tell_inner(lab, call),
        "op_static_id" => {
            let id = InnerOp::get_opid_static(lab.alloc());
            tell(&mut lab.text, id);
        }
        "attr_id" => {
            let id = MarkedAttr { number: 4 }.get_attr_id(lab.alloc());
            tell(&mut lab.text, id);
        }
        "attr_static_id" => {
            let id = MarkedAttr::get_attr_id_static(lab.alloc());
            tell(&mut lab.text, id);
        }
        _ => lab.text.fail(TextError::Malformed),
    }
}

fn make(lab: &mut Lab) {
    match make_marked(&mut lab.small.context) {
        Ok(forest) => {
            lab.small.forest = Some(forest);
            lab.text.say("done");
        }
        Err(error) => tell_unmade(&mut lab.text, error),
    }
}

// Writes why the forest isn't made.
fn tell_unmade(text: &mut Reply, error: LabErr) {
    match error {
        LabErr::OutOfMemory => tell_refusal(text, CoreError::OutOfMemory),
        _ => tell_condition(text),
    }
}

// What is verified.
#[derive(Clone, Copy, Drop)]
enum Root {
    Forest(JudgedRoot),
    Marked,
    Plain,
}

// The root with this name.
fn root_of(name: &str) -> Result<Root, TextError> {
    match name {
        "marked" => Ok(Root::Marked),
        "plain" => Ok(Root::Plain),
        "module" => Ok(Root::Forest(JudgedRoot::Module)),
        "module_by_call" => Ok(Root::Forest(JudgedRoot::ModuleByCall)),
        "module_with_kind" => Ok(Root::Forest(JudgedRoot::ModuleWithKind)),
        "region" => Ok(Root::Forest(JudgedRoot::Region)),
        "block" => Ok(Root::Forest(JudgedRoot::Block)),
        "inner" => Ok(Root::Forest(JudgedRoot::Inner)),
        "alone" => Ok(Root::Forest(JudgedRoot::Alone)),
        "listed_result" => Ok(Root::Forest(JudgedRoot::ListedResult)),
        "sized_result" => Ok(Root::Forest(JudgedRoot::SizedResult)),
        "argument" => Ok(Root::Forest(JudgedRoot::Argument)),
        "listed" => Ok(Root::Forest(JudgedRoot::Listed)),
        "sized" => Ok(Root::Forest(JudgedRoot::Sized)),
        "bare" => Ok(Root::Forest(JudgedRoot::Bare)),
        "listed_by_call" => Ok(Root::Forest(JudgedRoot::ListedByCall)),
        "sized_by_call" => Ok(Root::Forest(JudgedRoot::SizedByCall)),
        "listed_typed" => Ok(Root::Forest(JudgedRoot::ListedTyped)),
        "sized_interface" => Ok(Root::Forest(JudgedRoot::SizedInterface)),
        _ => Err(TextError::Malformed),
    }
}

// The words that verify a root.
fn judge(lab: &mut Lab, call: &str, rest: &str) -> Result<(), TextError> {
    let root = root_of(one(rest)?)?;
    match lab.small.forest {
        Some(forest) => judge_in(&mut lab.text, &lab.small.context, call, &forest, root),
        None => tell_condition(&mut lab.text),
    }
    Ok(())
}

fn judge_in(text: &mut Reply, ctx: &Context<Small>, call: &str, forest: &MarkedForest, root: Root) {
    match call {
        "codes" => tell_codes(text, ctx, Judging::Asked, forest, root),
        "spent" => tell_codes(text, ctx, Judging::Spent, forest, root),
        "well" => {
            let quiet = Judge { asked: 0, spent: 0 };
            tell_found(text, found_at(ctx, forest, root, &quiet));
        }
        _ => tell_found(text, found_at(ctx, forest, root, &Asking)),
    }
}

// What is found at the root, where it is there.
fn found_at<V: Verifiers<Small>>(
    ctx: &Context<Small>,
    forest: &MarkedForest,
    root: Root,
    verifiers: &V,
) -> Option<Result<(), VerifyErr>> {
    match root {
        Root::Forest(root) => judged_found(ctx, forest, root, verifiers),
        Root::Marked => {
            let attr = SmallAttr::Marked(MarkedAttr { number: 4 });
            Some(verify_attr(&attr, ctx, verifiers))
        }
        Root::Plain => {
            let attr = SmallAttr::Plain(PlainAttr { number: 4 });
            Some(verify_attr(&attr, ctx, verifiers))
        }
    }
}

// What is done at a code: it is asked for, or memory runs out there.
#[derive(Clone, Copy, Drop)]
enum Judging {
    Asked,
    Spent,
}

// The judge that does so at the code.
fn judge_of(judging: Judging, code: u32) -> Judge {
    match judging {
        Judging::Asked => Judge {
            asked: code,
            spent: 0,
        },
        Judging::Spent => Judge {
            asked: 0,
            spent: code,
        },
    }
}

// Whether what is found is what such a judge answers at the code.
fn is_told(judging: Judging, code: u32, fault: &VerifyErr) -> bool {
    match (judging, fault) {
        (Judging::Asked, VerifyErr::VerifierErr(VerifierErr { code: told })) => *told == code,
        (Judging::Spent, VerifyErr::OutOfMemory) => true,
        _ => false,
    }
}

// Writes the code, where something is found.
fn tell_code(text: &mut Reply, judging: Judging, code: u32, found: Option<Result<(), VerifyErr>>) {
    match found {
        Some(Ok(())) => {}
        Some(Err(fault)) => tell_at(text, code, is_told(judging, code, &fault)),
        None => tell_at(text, code, false),
    }
}

// Writes the code at which something is found, and whether it is something else.
fn tell_at(text: &mut Reply, code: u32, is_told: bool) {
    text.show(" ", code);
    if !is_told {
        text.say("?");
    }
}

fn tell_codes(
    text: &mut Reply,
    ctx: &Context<Small>,
    judging: Judging,
    forest: &MarkedForest,
    root: Root,
) {
    text.say("codes");
    for code in 1..END_OF_CODES {
        let judge = judge_of(judging, code);
        tell_code(text, judging, code, found_at(ctx, forest, root, &judge));
    }
}

// The type at a place and the judge of three fields.
fn type_and_judge(lab: &Lab, rest: &str) -> Result<(TypeHandle, Judge), TextError> {
    match items_of(lab, rest)? {
        Items::Three(Item::Number(place), Item::Number(asked), Item::Number(spent)) => {
            Ok((TypeHandle::at(place), judge_with(asked, spent)?))
        }
        _ => Err(TextError::Malformed),
    }
}

// The judge of two numbers.
fn judge_with(asked: usize, spent: usize) -> Result<Judge, TextError> {
    match (u32::try_from(asked), u32::try_from(spent)) {
        (Ok(asked), Ok(spent)) => Ok(Judge { asked, spent }),
        _ => Err(TextError::Malformed),
    }
}

// Writes what is found, also where memory ran out.
fn tell_text(text: &mut Reply, found: Option<Result<(), VerifyErr>>) {
    match found {
        Some(Err(fault)) => text.show("", fault),
        _ => tell_found(text, found),
    }
}

fn judge_type(lab: &mut Lab, rest: &str) -> Result<(), TextError> {
    let (ty, judge) = type_and_judge(lab, rest)?;
    let found = types::verify(ty, &lab.small.context, &judge).ok();
    tell_text(&mut lab.text, found);
    Ok(())
}

// The ids of the operation in the block of the forest.
fn tell_inner(lab: &mut Lab, call: &str) {
    match lab.small.forest {
        Some(forest) => tell_id(&mut lab.text, &lab.small.context, call, forest.inner),
        None => lab.text.fail(TextError::Malformed),
    }
}

fn tell_id(text: &mut Reply, ctx: &Context<Small>, call: &str, op: Ptr<Operation<Small>>) {
    match call {
        "get_opid" => get_opid(text, ctx, op),
        _ => tell(text, InnerOp::from_operation(op).get_opid(ctx.alloc())),
    }
}

fn get_opid(text: &mut Reply, ctx: &Context<Small>, op: Ptr<Operation<Small>>) {
    if op.is_live(ctx) {
        tell(text, op.get_opid(ctx));
    } else {
        tell_condition(text);
    }
}
