//! Whether anything is wrong with a part of a context: an entity with all that is inside it, a value, a type, an attribute. And the checks that a dialect hands in.

ghost use Rattle.std.specs.Prelude.{◌≡◌, ◌<◌, length, slice_get, IfErr, OnOk};
ghost use Rattle.ir_model.specs.Edits.{The};
ghost use Rattle.ir_model.specs.Faults.{the_attribute, the_entity, the_type, the_value};
ghost use Rattle.ir_model.specs.Forest.{a_block, a_region, a_value, an_op};
ghost use Rattle.ir_model.specs.Nesting.{IsLive, IsLiveNamed};
ghost use Rattle.ir_core_records.specs.Meaning.{value_of};
ghost use Rattle.ir_view_parts.specs.State.{forest_of, types_of};
ghost use Rattle.ir_view_parts.specs.Wrapped.{operation_in};
ghost use Rattle.ir_verify.specs.Verified.{AllIsWellIn, FindsIn, MayAnswerIn};

use crate::checks::{check_attribute, check_type};
pub use crate::error::{BasicBlockVerifyErr, CheckErr, DefUseVerifyErr, VerifierErr, VerifyErr};
use crate::inside::verify_inside;
pub use crate::own_checks::OwnChecks;
pub use crate::verifiers::Verifiers;
use ir_base_dialects::{Dialects, Ptr, TypeHandle};
use ir_core_records::EntityIndex;
use ir_view_parts::{
    BasicBlock, Context, OpObj, Operation, Region, TypeQueries, Value, ValueQueries,
};

/// Verifies a live operation and all that is inside it. It stands for pliron's `verify_operation`.
///
/// # Errors
/// A fault that stands there; `OutOfMemory` only where a fault that names a block stands, or a check that is run may answer it.
pub fn verify_operation<D: Dialects, V: Verifiers<D>>(
    op: Ptr<Operation<D>>,
    ctx: &Context<D>,
    verifiers: &V,
) -> Result<(), VerifyErr>
    requires { IsLive (forest_of ctx.now) (an_op op.index) }
    ensures well { OnOk result (AllIsWellIn D.Dialects D.TypeKey.eq D.Saved.eq (V.handed_in verifiers.now) ctx.now (the_entity (an_op op.index))) }
    ensures fault { IfErr result (λ e. MayAnswerIn D.Dialects D.TypeKey.eq D.Saved.eq (V.handed_in verifiers.now) ctx.now (the_entity (an_op op.index)) e) }
{
    verify_inside(EntityIndex::Op(op.index()), ctx, verifiers)
}

/// Verifies the live operation of a wrapper and all that is inside it, whatever kind the wrapper says. It stands for pliron's `verify_op`.
///
/// # Errors
/// As `verify_operation`.
pub fn verify_op<D: Dialects, V: Verifiers<D>>(
    op: OpObj<D>,
    ctx: &Context<D>,
    verifiers: &V,
) -> Result<(), VerifyErr>
    requires { IsLive (forest_of ctx.now) (an_op (operation_in op)) }
    ensures well { OnOk result (AllIsWellIn D.Dialects D.TypeKey.eq D.Saved.eq (V.handed_in verifiers.now) ctx.now (the_entity (an_op (operation_in op)))) }
    ensures fault { IfErr result (λ e. MayAnswerIn D.Dialects D.TypeKey.eq D.Saved.eq (V.handed_in verifiers.now) ctx.now (the_entity (an_op (operation_in op))) e) }
{
    verify_operation(op.get_operation(), ctx, verifiers)
}

/// Runs the checks of an attribute: those of the numbers that are listed for its kind, and its own. It stands for pliron's `verify_attr`.
///
/// # Errors
/// A code that stands; `OutOfMemory` only where a check that is run may answer it.
pub fn verify_attr<D: Dialects, V: Verifiers<D>>(
    attr: &D::Attr,
    ctx: &Context<D>,
    verifiers: &V,
) -> Result<(), VerifyErr>
    ensures well { OnOk result (AllIsWellIn D.Dialects D.TypeKey.eq D.Saved.eq (V.handed_in verifiers.now) ctx.now (the_attribute attr.now)) }
    ensures fault { IfErr result (λ e. MayAnswerIn D.Dialects D.TypeKey.eq D.Saved.eq (V.handed_in verifiers.now) ctx.now (the_attribute attr.now) e) }
{
    check_attribute(attr, ctx, verifiers)
}

/// Runs the checks of a type: those of the numbers that are listed for its kind, and its own. It stands for pliron's `verify_type`.
///
/// # Errors
/// A code that stands; `OutOfMemory` only where a check that is run may answer it.
pub fn verify_type<D: Dialects, V: Verifiers<D>>(
    key: &D::TypeKey,
    ctx: &Context<D>,
    verifiers: &V,
) -> Result<(), VerifyErr>
    ensures well { OnOk result (AllIsWellIn D.Dialects D.TypeKey.eq D.Saved.eq (V.handed_in verifiers.now) ctx.now (the_type key.now)) }
    ensures fault { IfErr result (λ e. MayAnswerIn D.Dialects D.TypeKey.eq D.Saved.eq (V.handed_in verifiers.now) ctx.now (the_type key.now) e) }
{
    check_type(key, ctx, verifiers)
}

// The checks of the type of a live value.
fn verify_value<D: Dialects, V: Verifiers<D>>(
    value: Value<D>,
    ctx: &Context<D>,
    verifiers: &V,
) -> Result<(), VerifyErr>
    requires { IsLiveNamed (forest_of ctx.now) (a_value (value_of value.index)) }
    ensures { FindsIn D.Dialects D.TypeKey.eq D.Saved.eq (V.handed_in verifiers.now) ctx.now (the_value (value_of value.index)) result }
{
    ctx.recall_well_formed();
    check_type(value.get_type(ctx).deref(ctx), ctx, verifiers)
}

/// What can be verified by its handle. It stands for pliron's `Verify`.
pub trait Verify<D: Dialects> {
    ghost use Rattle.ir_model.specs.Faults.{Root};
    ghost use Rattle.ir_core_records.specs.Meaning.{closed};
    ghost use Rattle.ir_view_parts.specs.State.{ContextState};

    // It is live, or known.
    ghost IsThere: { ContextState D D.Attr D.TypeKey D.TypeBody D.Saved D.Aux D.Loc → Self → Type 0 };

    // This is what it means to verify.
    ghost IsRoot: { ContextState D D.Attr D.TypeKey D.TypeBody D.Saved D.Aux D.Loc → Self → Root (closed D.Attr D.TypeKey D.TypeBody D.Saved D.Aux D.Loc) → Type 0 };

    /// Verifies it: an operation, a block or a region with all that is inside it; of a value its type; of a type its own check and those that are listed for its kind; of the handle of a type of one kind the own check alone.
    ///
    /// # Errors
    /// A fault that stands there; `OutOfMemory` only where a fault that names a block stands, or a check that is run may answer it.
    fn verify<V: Verifiers<D>>(&self, ctx: &Context<D>, verifiers: &V) -> Result<(), VerifyErr>
        requires { IsThere ctx.now self.now }
        ensures well { OnOk result ((root : Root (closed D.Attr D.TypeKey D.TypeBody D.Saved D.Aux D.Loc)) → IsRoot ctx.now self.now root → AllIsWellIn D.Dialects D.TypeKey.eq D.Saved.eq (V.handed_in verifiers.now) ctx.now root) }
        ensures fault { IfErr result (λ e. (root : Root (closed D.Attr D.TypeKey D.TypeBody D.Saved D.Aux D.Loc)) → IsRoot ctx.now self.now root → MayAnswerIn D.Dialects D.TypeKey.eq D.Saved.eq (V.handed_in verifiers.now) ctx.now root e) };
}

impl<D: Dialects> Verify<D> for Ptr<Operation<D>> {
    ghost IsThere = { λ s p. IsLive (forest_of s) (an_op p.index) };

    ghost IsRoot = { λ s p root. root ≡ the_entity (an_op p.index) };

    fn verify<V: Verifiers<D>>(&self, ctx: &Context<D>, verifiers: &V) -> Result<(), VerifyErr> {
        verify_inside(EntityIndex::Op(self.index()), ctx, verifiers)
    }
}

impl<D: Dialects> Verify<D> for Ptr<BasicBlock<D>> {
    ghost IsThere = { λ s p. IsLive (forest_of s) (a_block p.index) };

    ghost IsRoot = { λ s p root. root ≡ the_entity (a_block p.index) };

    fn verify<V: Verifiers<D>>(&self, ctx: &Context<D>, verifiers: &V) -> Result<(), VerifyErr> {
        verify_inside(EntityIndex::Block(self.index()), ctx, verifiers)
    }
}

impl<D: Dialects> Verify<D> for Ptr<Region> {
    ghost IsThere = { λ s p. IsLive (forest_of s) (a_region p.index) };

    ghost IsRoot = { λ s p root. root ≡ the_entity (a_region p.index) };

    fn verify<V: Verifiers<D>>(&self, ctx: &Context<D>, verifiers: &V) -> Result<(), VerifyErr> {
        verify_inside(EntityIndex::Region(self.index()), ctx, verifiers)
    }
}

impl<D: Dialects> Verify<D> for Value<D> {
    ghost IsThere = { λ s v. IsLiveNamed (forest_of s) (a_value (value_of v.index)) };

    ghost IsRoot = { λ s v root. root ≡ the_value (value_of v.index) };

    fn verify<V: Verifiers<D>>(&self, ctx: &Context<D>, verifiers: &V) -> Result<(), VerifyErr> {
        verify_value(*self, ctx, verifiers)
    }
}

impl<D: Dialects> Verify<D> for TypeHandle {
    ghost IsThere = { λ s t. t.place < length (types_of s) };

    ghost IsRoot = { λ s t root. The (slice_get (types_of s) t.place) λ x. root ≡ the_type x.key };

    fn verify<V: Verifiers<D>>(&self, ctx: &Context<D>, verifiers: &V) -> Result<(), VerifyErr> {
        check_type(self.deref(ctx), ctx, verifiers)
    }
}
