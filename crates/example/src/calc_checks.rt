//! The own checks of the dialect `Calc`: a type of numbers has bits, and a comparison has two operands.

ghost use Rattle.example.specs.CalcChecks.{calc_checks};

use crate::calc::{Calc, CalcAttr, CalcType};
use crate::calc_types::Number;
use ir_core::context::Context;
use ir_core::prelude::*;
use ir_verify::verify::{CheckErr, OwnChecks};
use ir_view::op::OpObj;

/// The code of a type of numbers without bits.
pub const NO_BITS: u32 = 1;

/// The code of a comparison that hasn't two operands.
pub const SIDES: u32 = 2;

// The kind of comparisons.
const LESS: u32 = 1;

/// The checks of the dialect. None takes memory.
#[derive(Clone, Copy, Debug, Default, Drop, PartialEq, Eq)]
pub struct CalcChecks;

impl OwnChecks<Calc> for CalcChecks {
    ghost found = { λ _. calc_checks };

    fn check_op(&self, op: &OpObj<Calc>, ctx: &Context<Calc>) -> Result<(), CheckErr> {
        let operands = op.get_operation().deref(ctx).get_num_operands();
        if op.kind() == LESS && operands != 2 {
            return Err(CheckErr::Code(SIDES));
        }
        Ok(())
    }

    fn check_attr(&self, _attr: &CalcAttr, _ctx: &Context<Calc>) -> Result<(), CheckErr> {
        // Attributes have no own check.
        Ok(())
    }

    fn check_type(&self, ty: &CalcType, _ctx: &Context<Calc>) -> Result<(), CheckErr> {
        match ty {
            CalcType::Number(Number { bits: 0 }) => Err(CheckErr::Code(NO_BITS)),
            _ => Ok(()),
        }
    }
}
