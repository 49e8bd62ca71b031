//! The calls that ask of operations.

use crate::checked::asks::ask_entity;
use crate::checked::told::{Told, tell, tell_error};
use crate::checked::walked;
use ir_base_dialects::Ptr;
use ir_checked::{op as wrapped, operation as views, passes, verify as verification};
use ir_checked_core::operation;
use ir_run::toy::ToyVerifiers;
use ir_view_parts::{Entity, Op, OpObj, Operation};
use testkit_lab::{Constant, Lab, Line, Reply, TextError};
use toy_dialect::Toy;

/// Those that are given an operation alone.
pub(crate) fn ask_op(text: &mut Reply, lab: &Lab, call: &str, op: Ptr<Operation<Toy>>) {
    let ctx = lab.ctx();
    match call {
        // The kind of the operation.
        "operation::deref" => match operation::deref(op, ctx) {
            Ok(record) => text.show("kind ", record.kind()),
            Err(error) => tell_error(text, error),
        },
        "operation::get_parent_block" => tell(text, lab, operation::get_parent_block(op, ctx)),
        "operation::get_parent_region" => tell(text, lab, operation::get_parent_region(op, ctx)),
        "operation::get_parent_op" => tell(text, lab, operation::get_parent_op(op, ctx)),
        "operation::get_next" => tell(text, lab, operation::get_next(op, ctx)),
        "operation::get_prev" => tell(text, lab, operation::get_prev(op, ctx)),
        "operation::has_use" => tell(text, lab, operation::has_use(op, ctx)),
        "operation::num_uses" => tell(text, lab, operation::num_uses(op, ctx)),
        "operation::uses" => walked::uses(text, lab, op),
        "operation::operand_types" => walked::operand_types(text, lab, op),
        "operation::get_opid" => tell(text, lab, views::get_opid(op, ctx)),
        "operation::verify" => tell(text, lab, views::verify(op, ctx, &ToyVerifiers)),
        "passes::can_remove_unreached_inside" => {
            tell(text, lab, passes::can_remove_unreached_inside(op, ctx))
        }
        "verify::verify_operation" => {
            tell(
                text,
                lab,
                verification::verify_operation(op, ctx, &ToyVerifiers),
            )
        }
        _ => ask_wrapped(text, lab, call, op),
    }
}

// Those that wrap the operation, as a constant where they want a kind.
fn ask_wrapped(text: &mut Reply, lab: &Lab, call: &str, op: Ptr<Operation<Toy>>) {
    let ctx = lab.ctx();
    match call {
        "operation::get_op_dyn" => tell(text, lab, views::get_op_dyn(op, ctx)),
        "operation::get_op" => match views::get_op::<Toy, Constant>(op, ctx) {
            Ok(Some(constant)) => constant.get_operation().write(text, lab),
            Ok(None) => text.say("-"),
            Err(error) => tell_error(text, error),
        },
        "operation::is_op" => tell(text, lab, views::is_op::<Toy, Constant>(op, ctx)),
        "verify::verify_op" => {
            let wrapper = OpObj::new(Constant::from_operation(op));
            tell(
                text,
                lab,
                verification::verify_op(wrapper, ctx, &ToyVerifiers),
            )
        }
        // `loc` and the line.
        "op::loc" => match wrapped::loc(&Constant::from_operation(op), ctx) {
            Ok(loc) => text.show("loc ", Line(*loc)),
            Err(error) => tell_error(text, error),
        },
        _ => ask_entity(text, lab, call, Entity::Op(op)),
    }
}

/// Those that are given an operation and a number.
pub(crate) fn ask_op_at(
    text: &mut Reply,
    lab: &Lab,
    call: &str,
    op: Ptr<Operation<Toy>>,
    index: usize,
) {
    let ctx = lab.ctx();
    match call {
        "operation::get_result" => tell(text, lab, operation::get_result(op, ctx, index)),
        "operation::get_type" => tell(text, lab, operation::get_type(op, ctx, index)),
        "operation::get_operand" => tell(text, lab, operation::get_operand(op, ctx, index)),
        "operation::get_operand_as_use" => {
            tell(text, lab, operation::get_operand_as_use(op, ctx, index))
        }
        "operation::get_successor" => tell(text, lab, operation::get_successor(op, ctx, index)),
        "operation::get_successor_as_use" => {
            tell(text, lab, operation::get_successor_as_use(op, ctx, index))
        }
        "operation::get_region" => tell(text, lab, operation::get_region(op, ctx, index)),
        _ => text.fail(TextError::Malformed),
    }
}
