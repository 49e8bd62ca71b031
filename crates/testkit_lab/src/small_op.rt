//! The operations of one kind of the small dialect, under a type of their own.

use crate::small_dialect::Small;
use ir_base_dialects::Ptr;
use ir_view_parts::{Op, Operation};

/// An operation of kind 4.
#[derive(Drop)]
pub struct InnerOp {
    op: Ptr<Operation<Small>>,
}

impl Op<Small> for InnerOp {
    ghost KIND = { 4 };

    const KIND: u32 = 4;

    ghost op_of = { λ c. c.op.index };

    fn get_operation(&self) -> Ptr<Operation<Small>> {
        self.op
    }

    fn wrap(op: &Ptr<Operation<Small>>) -> Self {
        InnerOp { op: *op }
    }
}
