//! The calls of the handle of a type.

ghost use Rattle.std.specs.Option.{option_map};
ghost use Rattle.std.specs.Prelude.{IfOk, OnErr, OnOk, Some, length, slice_get, ◌<◌, ◌≡◌};
ghost use Rattle.ir_checked_core.specs.Answers.{Answers, own_value, unless};
ghost use Rattle.ir_core_context.specs.Calls.{SameButTypes};
ghost use Rattle.ir_core_context.specs.State.{bare, types_of};
ghost use Rattle.ir_model.specs.Saved.{set_body as with_body};

use crate::error::{Call, CheckedErr, Condition, fault};
use ir_base_dialects::{Dialects, TypeHandle};
use ir_core_queries::{Context, TypeQueries};

/// The key of a known type.
///
/// # Errors
/// `Unmet` where the type isn't known.
pub fn deref<D: Dialects>(ty: TypeHandle, ctx: &Context<D>) -> Result<&D::TypeKey, CheckedErr>
    ensures conditions { Answers Call.TypesDeref result (unless (ty.place < length (types_of ctx.now)) Condition.UnknownType own_value) }
    ensures found { IfOk result (λ answer. option_map (λ t. t.key) (slice_get (types_of ctx.now) ty.place) ≡ Some answer.now) }
{
    if !ty.is_known(ctx) {
        return Err(fault!(TypesDeref, UnknownType));
    }
    Ok(ty.deref(ctx))
}

/// The body of a known type.
///
/// # Errors
/// `Unmet` where the type isn't known.
pub fn body<D: Dialects>(ty: TypeHandle, ctx: &Context<D>) -> Result<&D::TypeBody, CheckedErr>
    ensures conditions { Answers Call.TypesBody result (unless (ty.place < length (types_of ctx.now)) Condition.UnknownType own_value) }
    ensures found { IfOk result (λ answer. option_map (λ t. t.body) (slice_get (types_of ctx.now) ty.place) ≡ Some answer.now) }
{
    if !ty.is_known(ctx) {
        return Err(fault!(TypesBody, UnknownType));
    }
    Ok(ty.body(ctx))
}

/// Sets the body of a known type; the one before is dropped. Its key and all handles stay, and it takes no memory.
///
/// # Errors
/// `Unmet` where the type isn't known.
pub fn set_body<D: Dialects>(
    ty: TypeHandle,
    ctx: &mut Context<D>,
    body: D::TypeBody,
) -> Result<(), CheckedErr>
    ensures conditions { Answers Call.TypesSetBody result (unless (ty.place < length (types_of ctx.old)) Condition.UnknownType own_value) }
    ensures types { OnOk result (types_of ctx.new ≡ with_body (types_of ctx.old) ty.place body) }
    ensures rest { OnOk result (SameButTypes (bare ctx.old) (bare ctx.new)) }
    ensures err { OnErr result (ctx.new ≡ ctx.old) }
{
    if !ty.is_known(ctx) {
        return Err(fault!(TypesSetBody, UnknownType));
    }
    ty.set_body(ctx, body);
    Ok(())
}
