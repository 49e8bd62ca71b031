//! The own checks of the dialect Toy: an integer type has a width, and an addition has two operands.

ghost use Rattle.ir_run.specs.ToyVerifiers.{toy_checks};

use ir_core_queries::{Context, OperationPtr};
use ir_verify::verify::{CheckErr, OwnChecks};
use ir_view_parts::OpObj;
use toy_dialect::{Toy, ToyAttr, ToyType};

/// The code of an integer type whose width is 0.
pub const EMPTY_INTEGER: u32 = 1;

/// The code of an addition that hasn't two operands.
pub const OPERAND_COUNT: u32 = 2;

// The kind of additions.
const ADDITION: u32 = 1;

/// The checks of the dialect Toy. None is listed for any kind, and none takes memory.
#[derive(Clone, Copy, Debug, Default, Drop, PartialEq, Eq)]
pub struct ToyVerifiers;

impl OwnChecks<Toy> for ToyVerifiers {
    ghost found = { λ _. toy_checks };

    fn check_op(&self, op: &OpObj<Toy>, ctx: &Context<Toy>) -> Result<(), CheckErr> {
        let operands = op.get_operation().deref(ctx).get_num_operands();
        if op.kind() == ADDITION && operands != 2 {
            return Err(CheckErr::Code(OPERAND_COUNT));
        }
        Ok(())
    }

    fn check_attr(&self, _attr: &ToyAttr, _ctx: &Context<Toy>) -> Result<(), CheckErr> {
        // Attributes have no own check.
        Ok(())
    }

    fn check_type(&self, ty: &ToyType, _ctx: &Context<Toy>) -> Result<(), CheckErr> {
        match ty {
            ToyType::Int { width: 0 } => Err(CheckErr::Code(EMPTY_INTEGER)),
            ToyType::Int { .. } | ToyType::Named(_) => Ok(()),
        }
    }
}
