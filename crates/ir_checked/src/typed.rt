//! What has a type: the handle of a type.

ghost use Rattle.std.specs.Prelude.{IfOk, length, ◌<◌, ◌≡◌};
ghost use Rattle.ir_checked_core.specs.Answers.{Answers, own_value, unless};
ghost use Rattle.ir_core_context.specs.State.{types_of};

use ir_base_dialects::{Dialects, TypeHandle};
use ir_checked_core::{Call, CheckedErr, Condition, fault};
use ir_core_queries::{Context, TypeQueries};
use ir_view::types::Typed;

/// The known type itself.
///
/// # Errors
/// `Unmet` where the type isn't known.
pub fn get_type<D: Dialects>(ty: TypeHandle, ctx: &Context<D>) -> Result<TypeHandle, CheckedErr>
    ensures conditions { Answers Call.TypesGetType result (unless (ty.place < length (types_of ctx.now)) Condition.UnknownType own_value) }
    ensures found { IfOk result (λ answer. answer.place ≡ ty.place) }
    ensures known { IfOk result (λ answer. answer.place < length (types_of ctx.now)) }
{
    if !ty.is_known(ctx) {
        return Err(fault!(TypesGetType, UnknownType));
    }
    Ok(Typed::get_type(&ty, ctx))
}
