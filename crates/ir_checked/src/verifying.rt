//! What is verified by its handle: an entity with all that is inside it, a value, a type. Each call answers what verification found, where it was made.

ghost use Rattle.std.specs.Prelude.{IfErr, IfOk, OnOk, length, slice_get, ◌<◌, ◌≡◌};
ghost use Rattle.ir_checked_core.specs.Answers.{Answers, own_value, unless};
ghost use Rattle.ir_core_context.specs.State.{forest_of, types_of};
ghost use Rattle.ir_core_records.specs.DialectAnswers.{kinds_of};
ghost use Rattle.ir_core_records.specs.Meaning.{closed, value_of};
ghost use Rattle.ir_model.specs.Edits.{The};
ghost use Rattle.ir_model.specs.Faults.{Root, the_entity, the_type, the_typed, the_value};
ghost use Rattle.ir_model.specs.Forest.{a_block, a_region, a_value, an_op};
ghost use Rattle.ir_model.specs.Kinds.{HasKind, Implements};
ghost use Rattle.ir_model.specs.Nesting.{IsLive, IsLiveNamed};
ghost use Rattle.ir_verify.specs.Verified.{AllIsWellIn, MayAnswerIn};
ghost use Rattle.ir_view.specs.Handles.{interface_place, typed_place};

use ir_base_dialects::interfaces::TypeInterfaceMarker;
use ir_base_dialects::{Dialects, Ptr, TypeHandle};
use ir_checked_core::{Call, CheckedErr, Condition, fault};
use ir_core_queries::{
    BasicBlock, BlockPtr, Context, Operation, OperationPtr, Region, RegionPtr, TypeQueries, Value,
    ValueQueries,
};
use ir_verify::verify::{Verifiers, Verify, VerifyErr};
use ir_view::types::{IrType, TypeInterfaceHandle, TypedHandle};

/// Verifies a live operation and all that is inside it.
///
/// # Errors
/// `Unmet` where the operation isn't live.
pub fn verify_op<D: Dialects, V: Verifiers<D>>(
    op: Ptr<Operation<D>>,
    ctx: &Context<D>,
    verifiers: &V,
) -> Result<Result<(), VerifyErr>, CheckedErr>
    ensures conditions { Answers Call.OperationVerify result (unless (IsLive (forest_of ctx.now) (an_op op.index)) Condition.DeadOperation own_value) }
    ensures well { IfOk result (λ answer. OnOk answer ((root : Root (closed D.Attr D.TypeKey D.TypeBody D.Saved D.Aux D.Loc)) → root ≡ the_entity (an_op op.index) → AllIsWellIn D.Dialects D.TypeKey.eq D.Saved.eq (V.handed_in verifiers.now) ctx.now root)) }
    ensures fault { IfOk result (λ answer. IfErr answer (λ e. (root : Root (closed D.Attr D.TypeKey D.TypeBody D.Saved D.Aux D.Loc)) → root ≡ the_entity (an_op op.index) → MayAnswerIn D.Dialects D.TypeKey.eq D.Saved.eq (V.handed_in verifiers.now) ctx.now root e)) }
{
    if !op.is_live(ctx) {
        return Err(fault!(OperationVerify, DeadOperation));
    }
    Ok(op.verify(ctx, verifiers))
}

/// Verifies a live block and all that is inside it.
///
/// # Errors
/// `Unmet` where the block isn't live.
pub fn verify_block<D: Dialects, V: Verifiers<D>>(
    block: Ptr<BasicBlock<D>>,
    ctx: &Context<D>,
    verifiers: &V,
) -> Result<Result<(), VerifyErr>, CheckedErr>
    ensures conditions { Answers Call.BlockVerify result (unless (IsLive (forest_of ctx.now) (a_block block.index)) Condition.DeadBlock own_value) }
    ensures well { IfOk result (λ answer. OnOk answer ((root : Root (closed D.Attr D.TypeKey D.TypeBody D.Saved D.Aux D.Loc)) → root ≡ the_entity (a_block block.index) → AllIsWellIn D.Dialects D.TypeKey.eq D.Saved.eq (V.handed_in verifiers.now) ctx.now root)) }
    ensures fault { IfOk result (λ answer. IfErr answer (λ e. (root : Root (closed D.Attr D.TypeKey D.TypeBody D.Saved D.Aux D.Loc)) → root ≡ the_entity (a_block block.index) → MayAnswerIn D.Dialects D.TypeKey.eq D.Saved.eq (V.handed_in verifiers.now) ctx.now root e)) }
{
    if !block.is_live(ctx) {
        return Err(fault!(BlockVerify, DeadBlock));
    }
    Ok(block.verify(ctx, verifiers))
}

/// Verifies a live region and all that is inside it.
///
/// # Errors
/// `Unmet` where the region isn't live.
pub fn verify_region<D: Dialects, V: Verifiers<D>>(
    region: Ptr<Region>,
    ctx: &Context<D>,
    verifiers: &V,
) -> Result<Result<(), VerifyErr>, CheckedErr>
    ensures conditions { Answers Call.RegionVerify result (unless (IsLive (forest_of ctx.now) (a_region region.index)) Condition.DeadRegion own_value) }
    ensures well { IfOk result (λ answer. OnOk answer ((root : Root (closed D.Attr D.TypeKey D.TypeBody D.Saved D.Aux D.Loc)) → root ≡ the_entity (a_region region.index) → AllIsWellIn D.Dialects D.TypeKey.eq D.Saved.eq (V.handed_in verifiers.now) ctx.now root)) }
    ensures fault { IfOk result (λ answer. IfErr answer (λ e. (root : Root (closed D.Attr D.TypeKey D.TypeBody D.Saved D.Aux D.Loc)) → root ≡ the_entity (a_region region.index) → MayAnswerIn D.Dialects D.TypeKey.eq D.Saved.eq (V.handed_in verifiers.now) ctx.now root e)) }
{
    if !region.is_live(ctx) {
        return Err(fault!(RegionVerify, DeadRegion));
    }
    Ok(region.verify(ctx, verifiers))
}

/// Verifies the type of a live value.
///
/// # Errors
/// `Unmet` where the value isn't live.
pub fn verify_value<D: Dialects, V: Verifiers<D>>(
    value: Value<D>,
    ctx: &Context<D>,
    verifiers: &V,
) -> Result<Result<(), VerifyErr>, CheckedErr>
    ensures conditions { Answers Call.ValueVerify result (unless (IsLiveNamed (forest_of ctx.now) (a_value (value_of value.index))) Condition.DeadValue own_value) }
    ensures well { IfOk result (λ answer. OnOk answer ((root : Root (closed D.Attr D.TypeKey D.TypeBody D.Saved D.Aux D.Loc)) → root ≡ the_value (value_of value.index) → AllIsWellIn D.Dialects D.TypeKey.eq D.Saved.eq (V.handed_in verifiers.now) ctx.now root)) }
    ensures fault { IfOk result (λ answer. IfErr answer (λ e. (root : Root (closed D.Attr D.TypeKey D.TypeBody D.Saved D.Aux D.Loc)) → root ≡ the_value (value_of value.index) → MayAnswerIn D.Dialects D.TypeKey.eq D.Saved.eq (V.handed_in verifiers.now) ctx.now root e)) }
{
    if !value.is_live(ctx) {
        return Err(fault!(ValueVerify, DeadValue));
    }
    Ok(value.verify(ctx, verifiers))
}

/// Runs the checks of a known type: its own, and those that are listed for its kind.
///
/// # Errors
/// `Unmet` where the type isn't known.
pub fn verify_type<D: Dialects, V: Verifiers<D>>(
    ty: TypeHandle,
    ctx: &Context<D>,
    verifiers: &V,
) -> Result<Result<(), VerifyErr>, CheckedErr>
    ensures conditions { Answers Call.TypesVerify result (unless (ty.place < length (types_of ctx.now)) Condition.UnknownType own_value) }
    ensures well { IfOk result (λ answer. OnOk answer ((root : Root (closed D.Attr D.TypeKey D.TypeBody D.Saved D.Aux D.Loc)) → The (slice_get (types_of ctx.now) ty.place) (λ x. root ≡ the_type x.key) → AllIsWellIn D.Dialects D.TypeKey.eq D.Saved.eq (V.handed_in verifiers.now) ctx.now root)) }
    ensures fault { IfOk result (λ answer. IfErr answer (λ e. (root : Root (closed D.Attr D.TypeKey D.TypeBody D.Saved D.Aux D.Loc)) → The (slice_get (types_of ctx.now) ty.place) (λ x. root ≡ the_type x.key) → MayAnswerIn D.Dialects D.TypeKey.eq D.Saved.eq (V.handed_in verifiers.now) ctx.now root e)) }
{
    if !ty.is_known(ctx) {
        return Err(fault!(TypesVerify, UnknownType));
    }
    Ok(ty.verify(ctx, verifiers))
}

/// Runs the own check of a known type.
///
/// # Errors
/// `Unmet` where the context hasn't the type, or it is no `T`.
pub fn verify_typed_handle<D: Dialects, V: Verifiers<D>, T: IrType<D>>(
    typed: TypedHandle<T, D>,
    ctx: &Context<D>,
    verifiers: &V,
) -> Result<Result<(), VerifyErr>, CheckedErr>
    ensures conditions { Answers Call.TypedHandleVerify result (unless (HasKind (kinds_of D.Dialects D.Saved.eq) (types_of ctx.now) (typed_place typed) T.KIND) Condition.UnknownType own_value) }
    ensures well { IfOk result (λ answer. OnOk answer ((root : Root (closed D.Attr D.TypeKey D.TypeBody D.Saved D.Aux D.Loc)) → The (slice_get (types_of ctx.now) (typed_place typed)) (λ x. root ≡ the_typed x.key) → AllIsWellIn D.Dialects D.TypeKey.eq D.Saved.eq (V.handed_in verifiers.now) ctx.now root)) }
    ensures fault { IfOk result (λ answer. IfErr answer (λ e. (root : Root (closed D.Attr D.TypeKey D.TypeBody D.Saved D.Aux D.Loc)) → The (slice_get (types_of ctx.now) (typed_place typed)) (λ x. root ≡ the_typed x.key) → MayAnswerIn D.Dialects D.TypeKey.eq D.Saved.eq (V.handed_in verifiers.now) ctx.now root e)) }
{
    if !typed.is_known(ctx) {
        return Err(fault!(TypedHandleVerify, UnknownType));
    }
    Ok(typed.verify(ctx, verifiers))
}

/// Runs the checks of a known type: its own, and those that are listed for its kind.
///
/// # Errors
/// `Unmet` where the context hasn't the type, or its kind doesn't implement the interface.
pub fn verify_type_interface_handle<D: Dialects, V: Verifiers<D>, I: TypeInterfaceMarker>(
    handle: TypeInterfaceHandle<I, D>,
    ctx: &Context<D>,
    verifiers: &V,
) -> Result<Result<(), VerifyErr>, CheckedErr>
    ensures conditions { Answers Call.InterfaceHandleVerify result (unless (Implements (kinds_of D.Dialects D.Saved.eq) (types_of ctx.now) (interface_place handle) I.NUMBER) Condition.UnknownType own_value) }
    ensures well { IfOk result (λ answer. OnOk answer ((root : Root (closed D.Attr D.TypeKey D.TypeBody D.Saved D.Aux D.Loc)) → The (slice_get (types_of ctx.now) (interface_place handle)) (λ x. root ≡ the_type x.key) → AllIsWellIn D.Dialects D.TypeKey.eq D.Saved.eq (V.handed_in verifiers.now) ctx.now root)) }
    ensures fault { IfOk result (λ answer. IfErr answer (λ e. (root : Root (closed D.Attr D.TypeKey D.TypeBody D.Saved D.Aux D.Loc)) → The (slice_get (types_of ctx.now) (interface_place handle)) (λ x. root ≡ the_type x.key) → MayAnswerIn D.Dialects D.TypeKey.eq D.Saved.eq (V.handed_in verifiers.now) ctx.now root e)) }
{
    if !handle.is_known(ctx) {
        return Err(fault!(InterfaceHandleVerify, UnknownType));
    }
    Ok(handle.verify(ctx, verifiers))
}
