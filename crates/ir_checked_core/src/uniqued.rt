//! Saved values that are held by their keys.

ghost use Rattle.std.specs.Prelude.{IfOk, Some, option_and_then, slice_get, ◌≡◌};
ghost use Rattle.ir_checked_core.specs.Answers.{Answers, own_value, unless};
ghost use Rattle.ir_core_context.specs.State.{bare};
ghost use Rattle.ir_core_records.specs.DialectAnswers.{kinds_of};
ghost use Rattle.ir_model.specs.Saved.{IsSavedKind};

use crate::error::{Call, CheckedErr, Condition, fault};
use ir_base_dialects::{Dialects, SavedValue};
use ir_core_queries::Context;
use ir_core_uniqued::Uniqued;

/// The value, where the context knows its key.
///
/// # Errors
/// `Unmet` where the key isn't known.
pub fn get<D: Dialects, T: SavedValue<D>>(
    saved: Uniqued<T>,
    ctx: &Context<D>,
) -> Result<&T, CheckedErr>
    ensures conditions { Answers Call.UniquedGet result (unless (IsSavedKind (kinds_of D.Dialects D.Saved.eq) (bare ctx.now).beside saved.key.place T.KIND) Condition.UnknownKey own_value) }
    ensures found { IfOk result (λ answer. option_and_then T.value_of (slice_get (bare ctx.now).beside.saved saved.key.place) ≡ Some answer.now) }
{
    if !saved.key.is_known(ctx) {
        return Err(fault!(UniquedGet, UnknownKey));
    }
    Ok(saved.get(ctx))
}
