//! What is handed in for verification: which checks are run for each kind, and the checks.

ghost use Rattle.std.specs.Prelude.{◌≡◌, Some, IfErr, OnOk};
ghost use Rattle.ir_model.specs.Calls.{kind_of};
ghost use Rattle.ir_model.specs.Forest.{an_op};
ghost use Rattle.ir_model.specs.Nesting.{IsLive};
ghost use Rattle.ir_view_parts.specs.State.{forest_of};
ghost use Rattle.ir_view_parts.specs.Wrapped.{kind_in, operation_in};
ghost use Rattle.ir_verify.specs.Shown.{shown};
ghost use Rattle.ir_verify.specs.Told.{MayFail, MayPass};

use crate::error::CheckErr;
use ir_base_dialects::Dialects;
use ir_view_parts::{Context, OpObj};

/// What is handed in for verification: for each kind of operations, attributes and types a list of numbers of checks, the check of each number, and the own checks.
///
/// Which codes stand and whether memory may run out are stated (`handed_in`), of what a check is given, the forest and the stores. A check answers a code only where that code stands, `OutOfMemory` only where it may, and `Ok` only where no code stands.
///
/// It stands for what pliron registers: the verifiers of interfaces, and `Verify` of operations, attributes and types.
pub trait Verifiers<D: Dialects> {
    ghost use Rattle.ir_core_records.specs.Meaning.{closed};
    ghost use Rattle.ir_model.specs.Verifiers.{Verifiers as HandedIn};
    ghost use Rattle.ir_verify.specs.Shown.{Shown};

    ghost handed_in: { Self → HandedIn (closed D.Attr D.TypeKey D.TypeBody D.Saved D.Aux D.Loc) (Shown (closed D.Attr D.TypeKey D.TypeBody D.Saved D.Aux D.Loc)) };

    /// The numbers of the checks of operations of this kind.
    fn op_verifiers(&self, kind: u32) -> &[u32]
        ensures { result.now ≡ (handed_in self.now).op_verifiers kind };

    /// The numbers of the checks of attributes of this kind.
    fn attr_verifiers(&self, kind: u32) -> &[u32]
        ensures { result.now ≡ (handed_in self.now).attr_verifiers kind };

    /// The numbers of the checks of types of this kind.
    fn type_verifiers(&self, kind: u32) -> &[u32]
        ensures { result.now ≡ (handed_in self.now).type_verifiers kind };

    /// The check of this number, on a live operation, which comes with its kind.
    ///
    /// # Errors
    /// A code that stands, or `OutOfMemory` where it may be answered.
    fn check_op_interface(
        &self,
        number: u32,
        op: &OpObj<D>,
        ctx: &Context<D>,
    ) -> Result<(), CheckErr>
        requires live { IsLive (forest_of ctx.now) (an_op (operation_in op.now)) }
        requires kind { kind_of (forest_of ctx.now) (operation_in op.now) ≡ Some (kind_in op.now) }
        ensures pass { OnOk result (MayPass ((handed_in self.now).op_interface number) (operation_in op.now) (shown ctx.now)) }
        ensures fail { IfErr result (MayFail ((handed_in self.now).op_interface number) (operation_in op.now) (shown ctx.now)) };

    /// The check of this number, on an attribute.
    ///
    /// # Errors
    /// A code that stands, or `OutOfMemory` where it may be answered.
    fn check_attr_interface(
        &self,
        number: u32,
        attr: &D::Attr,
        ctx: &Context<D>,
    ) -> Result<(), CheckErr>
        ensures pass { OnOk result (MayPass ((handed_in self.now).attr_interface number) attr.now (shown ctx.now)) }
        ensures fail { IfErr result (MayFail ((handed_in self.now).attr_interface number) attr.now (shown ctx.now)) };

    /// The check of this number, on a type.
    ///
    /// # Errors
    /// A code that stands, or `OutOfMemory` where it may be answered.
    fn check_type_interface(
        &self,
        number: u32,
        ty: &D::TypeKey,
        ctx: &Context<D>,
    ) -> Result<(), CheckErr>
        ensures pass { OnOk result (MayPass ((handed_in self.now).type_interface number) ty.now (shown ctx.now)) }
        ensures fail { IfErr result (MayFail ((handed_in self.now).type_interface number) ty.now (shown ctx.now)) };

    /// The own check of a live operation, which comes with its kind.
    ///
    /// # Errors
    /// A code that stands, or `OutOfMemory` where it may be answered.
    fn check_op(&self, op: &OpObj<D>, ctx: &Context<D>) -> Result<(), CheckErr>
        requires live { IsLive (forest_of ctx.now) (an_op (operation_in op.now)) }
        requires kind { kind_of (forest_of ctx.now) (operation_in op.now) ≡ Some (kind_in op.now) }
        ensures pass { OnOk result (MayPass (handed_in self.now).op_itself (operation_in op.now) (shown ctx.now)) }
        ensures fail { IfErr result (MayFail (handed_in self.now).op_itself (operation_in op.now) (shown ctx.now)) };

    /// The own check of an attribute.
    ///
    /// # Errors
    /// A code that stands, or `OutOfMemory` where it may be answered.
    fn check_attr(&self, attr: &D::Attr, ctx: &Context<D>) -> Result<(), CheckErr>
        ensures pass { OnOk result (MayPass (handed_in self.now).attr_itself attr.now (shown ctx.now)) }
        ensures fail { IfErr result (MayFail (handed_in self.now).attr_itself attr.now (shown ctx.now)) };

    /// The own check of a type.
    ///
    /// # Errors
    /// A code that stands, or `OutOfMemory` where it may be answered.
    fn check_type(&self, ty: &D::TypeKey, ctx: &Context<D>) -> Result<(), CheckErr>
        ensures pass { OnOk result (MayPass (handed_in self.now).type_itself ty.now (shown ctx.now)) }
        ensures fail { IfErr result (MayFail (handed_in self.now).type_itself ty.now (shown ctx.now)) };
}
