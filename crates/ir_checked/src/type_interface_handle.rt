//! The calls of the handles of types that implement an interface.

ghost use Rattle.std.specs.Option.{option_map};
ghost use Rattle.std.specs.Prelude.{IfErr, IfOk, IsOk, Some, length, slice_get, ◌<◌, ◌↔◌, ◌≡◌};
ghost use Rattle.ir_checked_core.specs.Answers.{Answers, own_value, unless};
ghost use Rattle.ir_core_context.specs.State.{types_of};
ghost use Rattle.ir_core_records.specs.DialectAnswers.{kinds_of};
ghost use Rattle.ir_model.specs.Kinds.{Implements, LacksInterface};
ghost use Rattle.ir_view.specs.Handles.{interface_place};

pub use crate::verifying::verify_type_interface_handle as verify;
use ir_base_dialects::interfaces::TypeInterfaceMarker;
use ir_base_dialects::{Dialects, TypeHandle};
use ir_checked_core::{Call, CheckedErr, Condition, fault};
use ir_core_queries::{Context, TypeQueries};
use ir_view::types::{TypeInterfaceHandle, TypeInterfaceHandleErr};

/// The handle of a known type, as one with the interface, or why it has none.
///
/// # Errors
/// `Unmet` where the type isn't known.
pub fn from_handle<D: Dialects, I: TypeInterfaceMarker>(
    handle: TypeHandle,
    ctx: &Context<D>,
) -> Result<Result<TypeInterfaceHandle<I, D>, TypeInterfaceHandleErr>, CheckedErr>
    ensures conditions { Answers Call.InterfaceHandleFromHandle result (unless (handle.place < length (types_of ctx.now)) Condition.UnknownType own_value) }
    ensures place { IfOk result (λ answer. IfOk answer (λ h. interface_place h ≡ handle.place)) }
    ensures exact { IfOk result (λ answer. IsOk answer ↔ Implements (kinds_of D.Dialects D.Saved.eq) (types_of ctx.now) handle.place I.NUMBER) }
    ensures interface { IfOk result (λ answer. IfErr answer (λ e. e.interface ≡ I.NUMBER)) }
    ensures provided { IfOk result (λ answer. IfErr answer (λ e. LacksInterface (kinds_of D.Dialects D.Saved.eq) (types_of ctx.now) handle.place e.interface e.provided)) }
{
    if !handle.is_known(ctx) {
        return Err(fault!(InterfaceHandleFromHandle, UnknownType));
    }
    Ok(TypeInterfaceHandle::from_handle(handle, ctx))
}

/// The key of the known type of a handle.
///
/// # Errors
/// `Unmet` where the context hasn't the type, or its kind doesn't implement the interface.
pub fn deref<D: Dialects, I: TypeInterfaceMarker>(
    handle: TypeInterfaceHandle<I, D>,
    ctx: &Context<D>,
) -> Result<&D::TypeKey, CheckedErr>
    ensures conditions { Answers Call.InterfaceHandleDeref result (unless (Implements (kinds_of D.Dialects D.Saved.eq) (types_of ctx.now) (interface_place handle) I.NUMBER) Condition.UnknownType own_value) }
    ensures found { IfOk result (λ answer. option_map (λ t. t.key) (slice_get (types_of ctx.now) (interface_place handle)) ≡ Some answer.now) }
{
    if !handle.is_known(ctx) {
        return Err(fault!(InterfaceHandleDeref, UnknownType));
    }
    Ok(handle.deref(ctx))
}
