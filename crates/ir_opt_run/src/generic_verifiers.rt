//! The own checks of the dialect Generic: there are none, since nobody knows what its operations, types and attributes mean.

ghost use Rattle.ir_opt_run.specs.GenericVerifiers.{nothing};

use generic_dialect::{Generic, GenericType, KeptAttr};
use ir_core_queries::Context;
use ir_verify::verify::{CheckErr, OwnChecks};
use ir_view::op::OpObj;

/// The checks of the dialect Generic. None finds anything, none is listed for any kind, and none takes memory.
#[derive(Clone, Copy, Debug, Default, Drop, PartialEq, Eq)]
pub struct GenericVerifiers;

impl OwnChecks<Generic> for GenericVerifiers {
    ghost found = { λ _. nothing };

    fn check_op(&self, _op: &OpObj<Generic>, _ctx: &Context<Generic>) -> Result<(), CheckErr> {
        // Operations have no own check.
        Ok(())
    }

    fn check_attr(&self, _attr: &KeptAttr, _ctx: &Context<Generic>) -> Result<(), CheckErr> {
        // Attributes have no own check.
        Ok(())
    }

    fn check_type(&self, _ty: &GenericType, _ctx: &Context<Generic>) -> Result<(), CheckErr> {
        // Types have no own check.
        Ok(())
    }
}
