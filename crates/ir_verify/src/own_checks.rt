//! Checks without numbers, which are all that most dialects hand in for verification.

ghost use Rattle.std.specs.Prelude.{◌≡◌, Some, IfErr, OnOk};
ghost use Rattle.ir_model.specs.Calls.{kind_of};
ghost use Rattle.ir_model.specs.Forest.{an_op};
ghost use Rattle.ir_model.specs.Nesting.{IsLive};
ghost use Rattle.ir_view_parts.specs.State.{forest_of};
ghost use Rattle.ir_view_parts.specs.Wrapped.{kind_in, operation_in};
ghost use Rattle.ir_verify.specs.Shown.{shown};
ghost use Rattle.ir_verify.specs.Told.{MayFail, MayPass};

use crate::error::CheckErr;
use crate::verifiers::Verifiers;
use ir_base_dialects::Dialects;
use ir_view_parts::{Context, OpObj};

/// The own checks of a dialect that lists no others: one of operations, one of attributes, and one of types.
///
/// What implements it is a `Verifiers` for which no check is listed of any kind. A dialect that lists checks by numbers implements `Verifiers` in its place.
///
/// Which codes stand and whether memory may run out are stated (`found`), of what a check is given, the forest and the stores. A check answers a code only where that code stands, `OutOfMemory` only where it may, and `Ok` only where no code stands.
///
/// It stands for pliron's trait `Verify`, as operations, attributes and types implement it.
pub trait OwnChecks<D: Dialects> {
    ghost use Rattle.ir_core_records.specs.Meaning.{closed};
    ghost use Rattle.ir_verify.specs.Own.{Own};
    ghost use Rattle.ir_verify.specs.Shown.{Shown};

    ghost found: { Self → Own (closed D.Attr D.TypeKey D.TypeBody D.Saved D.Aux D.Loc) (Shown (closed D.Attr D.TypeKey D.TypeBody D.Saved D.Aux D.Loc)) };

    /// The own check of a live operation, which comes with its kind.
    ///
    /// # Errors
    /// A code that stands, or `OutOfMemory` where it may be answered.
    fn check_op(&self, op: &OpObj<D>, ctx: &Context<D>) -> Result<(), CheckErr>
        requires live { IsLive (forest_of ctx.now) (an_op (operation_in op.now)) }
        requires kind { kind_of (forest_of ctx.now) (operation_in op.now) ≡ Some (kind_in op.now) }
        ensures pass { OnOk result (MayPass (found self.now).op (operation_in op.now) (shown ctx.now)) }
        ensures fail { IfErr result (MayFail (found self.now).op (operation_in op.now) (shown ctx.now)) };

    /// The own check of an attribute.
    ///
    /// # Errors
    /// A code that stands, or `OutOfMemory` where it may be answered.
    fn check_attr(&self, attr: &D::Attr, ctx: &Context<D>) -> Result<(), CheckErr>
        ensures pass { OnOk result (MayPass (found self.now).attr attr.now (shown ctx.now)) }
        ensures fail { IfErr result (MayFail (found self.now).attr attr.now (shown ctx.now)) };

    /// The own check of a type.
    ///
    /// # Errors
    /// A code that stands, or `OutOfMemory` where it may be answered.
    fn check_type(&self, ty: &D::TypeKey, ctx: &Context<D>) -> Result<(), CheckErr>
        ensures pass { OnOk result (MayPass (found self.now).key ty.now (shown ctx.now)) }
        ensures fail { IfErr result (MayFail (found self.now).key ty.now (shown ctx.now)) };
}

impl<D: Dialects, C: OwnChecks<D>> Verifiers<D> for C {
    ghost use Rattle.ir_verify.specs.Own.{own_alone};

    ghost handed_in = { λ checks. own_alone (C.found checks) };

    fn op_verifiers(&self, _kind: u32) -> &[u32] {
        // No checks of operations are listed.
        &[]
    }

    fn attr_verifiers(&self, _kind: u32) -> &[u32] {
        // No checks of attributes are listed.
        &[]
    }

    fn type_verifiers(&self, _kind: u32) -> &[u32] {
        // No checks of types are listed.
        &[]
    }

    fn check_op_interface(
        &self,
        _number: u32,
        _op: &OpObj<D>,
        _ctx: &Context<D>,
    ) -> Result<(), CheckErr> {
        // No check of an operation has a number.
        Ok(())
    }

    fn check_attr_interface(
        &self,
        _number: u32,
        _attr: &D::Attr,
        _ctx: &Context<D>,
    ) -> Result<(), CheckErr> {
        // No check of an attribute has a number.
        Ok(())
    }

    fn check_type_interface(
        &self,
        _number: u32,
        _ty: &D::TypeKey,
        _ctx: &Context<D>,
    ) -> Result<(), CheckErr> {
        // No check of a type has a number.
        Ok(())
    }

    fn check_op(&self, op: &OpObj<D>, ctx: &Context<D>) -> Result<(), CheckErr> {
        OwnChecks::check_op(self, op, ctx)
    }

    fn check_attr(&self, attr: &D::Attr, ctx: &Context<D>) -> Result<(), CheckErr> {
        OwnChecks::check_attr(self, attr, ctx)
    }

    fn check_type(&self, ty: &D::TypeKey, ctx: &Context<D>) -> Result<(), CheckErr> {
        OwnChecks::check_type(self, ty, ctx)
    }
}
