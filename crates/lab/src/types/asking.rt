//! Checks that ask for memory, for both dialects of the lab. An impl for any dialect would meet the one that own checks have.

ghost use Rattle.std.specs.Prelude.{◌≡◌, IfErr};
ghost use Rattle.lab.specs.Asking.{asking};

use ir_base_dialects::Dialects;
use ir_core_queries::Context;
use ir_verify::verify::{CheckErr, Verifiers};
use ir_view_parts::OpObj;
use std::alloc::Global;
use testkit_lab::Small;
use toy_dialect::Toy;

/// Checks that find nothing. Each asks for memory, and answers where it is refused.
#[derive(Clone, Copy, Debug, Drop)]
pub struct Asking;

// Asks for memory, and gives it back.
fn ask(alloc: Global) -> Result<(), CheckErr>
    ensures { IfErr result (λ e. e ≡ CheckErr.OutOfMemory) }
{
    match String::from_str(alloc, "asked") {
        Ok(_text) => Ok(()),
        Err(_) => Err(CheckErr::OutOfMemory),
    }
}

impl Verifiers<Toy> for Asking {
    ghost handed_in = { λ _. asking };

    fn op_verifiers(&self, _kind: u32) -> &[u32] {
        // One check is listed for each kind of operations.
        &[1]
    }

    fn attr_verifiers(&self, _kind: u32) -> &[u32] {
        // One check is listed for each kind of attributes.
        &[1]
    }

    fn type_verifiers(&self, _kind: u32) -> &[u32] {
        // One check is listed for each kind of types.
        &[1]
    }

    fn check_op_interface(
        &self,
        _number: u32,
        _op: &OpObj<Toy>,
        ctx: &Context<Toy>,
    ) -> Result<(), CheckErr> {
        ask(ctx.alloc())
    }

    fn check_attr_interface(
        &self,
        _number: u32,
        _attr: &<Toy as Dialects>::Attr,
        ctx: &Context<Toy>,
    ) -> Result<(), CheckErr> {
        ask(ctx.alloc())
    }

    fn check_type_interface(
        &self,
        _number: u32,
        _ty: &<Toy as Dialects>::TypeKey,
        ctx: &Context<Toy>,
    ) -> Result<(), CheckErr> {
        ask(ctx.alloc())
    }

    fn check_op(&self, _op: &OpObj<Toy>, ctx: &Context<Toy>) -> Result<(), CheckErr> {
        ask(ctx.alloc())
    }

    fn check_attr(
        &self,
        _attr: &<Toy as Dialects>::Attr,
        ctx: &Context<Toy>,
    ) -> Result<(), CheckErr> {
        ask(ctx.alloc())
    }

    fn check_type(
        &self,
        _ty: &<Toy as Dialects>::TypeKey,
        ctx: &Context<Toy>,
    ) -> Result<(), CheckErr> {
        ask(ctx.alloc())
    }
}

impl Verifiers<Small> for Asking {
    ghost handed_in = { λ _. asking };

    fn op_verifiers(&self, _kind: u32) -> &[u32] {
        // One check is listed for each kind of operations.
        &[1]
    }

    fn attr_verifiers(&self, _kind: u32) -> &[u32] {
        // One check is listed for each kind of attributes.
        &[1]
    }

    fn type_verifiers(&self, _kind: u32) -> &[u32] {
        // One check is listed for each kind of types.
        &[1]
    }

    fn check_op_interface(
        &self,
        _number: u32,
        _op: &OpObj<Small>,
        ctx: &Context<Small>,
    ) -> Result<(), CheckErr> {
        ask(ctx.alloc())
    }

    fn check_attr_interface(
        &self,
        _number: u32,
        _attr: &<Small as Dialects>::Attr,
        ctx: &Context<Small>,
    ) -> Result<(), CheckErr> {
        ask(ctx.alloc())
    }

    fn check_type_interface(
        &self,
        _number: u32,
        _ty: &<Small as Dialects>::TypeKey,
        ctx: &Context<Small>,
    ) -> Result<(), CheckErr> {
        ask(ctx.alloc())
    }

    fn check_op(&self, _op: &OpObj<Small>, ctx: &Context<Small>) -> Result<(), CheckErr> {
        ask(ctx.alloc())
    }

    fn check_attr(
        &self,
        _attr: &<Small as Dialects>::Attr,
        ctx: &Context<Small>,
    ) -> Result<(), CheckErr> {
        ask(ctx.alloc())
    }

    fn check_type(
        &self,
        _ty: &<Small as Dialects>::TypeKey,
        ctx: &Context<Small>,
    ) -> Result<(), CheckErr> {
        ask(ctx.alloc())
    }
}
