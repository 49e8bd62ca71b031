//! Two kinds of operations of the dialect Toy, each under a type of its own.

use ir_base_dialects::Ptr;
use ir_view_parts::{Op, Operation};
use toy_dialect::Toy;

/// A constant: kind 0.
#[derive(Drop)]
pub struct Constant {
    op: Ptr<Operation<Toy>>,
}

impl Op<Toy> for Constant {
    ghost KIND = { 0 };

    const KIND: u32 = 0;

    ghost op_of = { λ c. c.op.index };

    fn get_operation(&self) -> Ptr<Operation<Toy>> {
        self.op
    }

    fn wrap(op: &Ptr<Operation<Toy>>) -> Self {
        Constant { op: *op }
    }
}

/// A return, which ends its block: kind 2.
#[derive(Drop)]
pub struct Return {
    op: Ptr<Operation<Toy>>,
}

impl Op<Toy> for Return {
    ghost KIND = { 2 };

    const KIND: u32 = 2;

    ghost op_of = { λ r. r.op.index };

    fn get_operation(&self) -> Ptr<Operation<Toy>> {
        self.op
    }

    fn wrap(op: &Ptr<Operation<Toy>>) -> Self {
        Return { op: *op }
    }
}
