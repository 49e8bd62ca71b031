//! The calls of the handles of types of one kind.

ghost use Rattle.std.specs.Prelude.{IfErr, IfOk, IsOk, Some, length, option_and_then, slice_get, ◌<◌, ◌↔◌, ◌≡◌};
ghost use Rattle.ir_checked_core.specs.Answers.{Answers, own_value, unless};
ghost use Rattle.ir_core_context.specs.State.{types_of};
ghost use Rattle.ir_core_records.specs.DialectAnswers.{kinds_of};
ghost use Rattle.ir_model.specs.Kinds.{HasKind, IsOtherKind};
ghost use Rattle.ir_view.specs.Handles.{typed_place};

pub use crate::verifying::verify_typed_handle as verify;
use ir_base_dialects::{Dialects, TypeHandle};
use ir_checked_core::{Call, CheckedErr, Condition, fault};
use ir_core_queries::{Context, TypeQueries};
use ir_view::types::{IrType, TypedHandle, TypedHandleErr};

/// The handle of a known type, as that of a `T`, or why it is none.
///
/// # Errors
/// `Unmet` where the type isn't known.
pub fn from_handle<D: Dialects, T: IrType<D>>(
    handle: TypeHandle,
    ctx: &Context<D>,
) -> Result<Result<TypedHandle<T, D>, TypedHandleErr>, CheckedErr>
    ensures conditions { Answers Call.TypedHandleFromHandle result (unless (handle.place < length (types_of ctx.now)) Condition.UnknownType own_value) }
    ensures place { IfOk result (λ answer. IfOk answer (λ typed. typed_place typed ≡ handle.place)) }
    ensures exact { IfOk result (λ answer. IsOk answer ↔ HasKind (kinds_of D.Dialects D.Saved.eq) (types_of ctx.now) handle.place T.KIND) }
    ensures expected { IfOk result (λ answer. IfErr answer (λ e. e.expected ≡ T.KIND)) }
    ensures provided { IfOk result (λ answer. IfErr answer (λ e. IsOtherKind (kinds_of D.Dialects D.Saved.eq) (types_of ctx.now) handle.place e.expected e.provided)) }
{
    if !handle.is_known(ctx) {
        return Err(fault!(TypedHandleFromHandle, UnknownType));
    }
    Ok(TypedHandle::from_handle(handle, ctx))
}

/// The known type of a handle.
///
/// # Errors
/// `Unmet` where the context hasn't the type, or it is no `T`.
pub fn deref<D: Dialects, T: IrType<D>>(
    typed: TypedHandle<T, D>,
    ctx: &Context<D>,
) -> Result<&T, CheckedErr>
    ensures conditions { Answers Call.TypedHandleDeref result (unless (HasKind (kinds_of D.Dialects D.Saved.eq) (types_of ctx.now) (typed_place typed) T.KIND) Condition.UnknownType own_value) }
    ensures found { IfOk result (λ answer. option_and_then (λ t. T.value_of t.key) (slice_get (types_of ctx.now) (typed_place typed)) ≡ Some answer.now) }
{
    if !typed.is_known(ctx) {
        return Err(fault!(TypedHandleDeref, UnknownType));
    }
    Ok(typed.deref(ctx))
}
