//! Contexts, made with limits and let go.

ghost use Rattle.std.specs.Prelude.{IfOk, ◌<◌, ◌≡◌, ◌≤◌};
ghost use Rattle.ir_checked_core.specs.Answers.{Answers, own_value, unless};
ghost use Rattle.ir_core_context.specs.Calls.{nothing_beside};
ghost use Rattle.ir_core_context.specs.State.{bare};
ghost use Rattle.ir_model.specs.Sessions.{IsNewSession};

use crate::error::{Call, CheckedErr, Condition, fault};
use ir_base_dialects::{Dialects, Limits};
use ir_core_queries::Context;
use std::alloc::Global;

/// Lets go of a context, and gives back how what was done with it ended. The drop of all that a context owns is proved in this crate, once and for any dialect.
pub fn end<D: Dialects, O>(_ctx: Context<D>, outcome: O) -> O
    ensures { result ≡ outcome }
{
    outcome
}

/// An empty context with these limits, none of which passes its default. It allocates nothing.
///
/// # Errors
/// `Unmet` where there would be more slots than by default, or a slot would have no version.
pub fn with_limits<D: Dialects>(alloc: Global, limits: Limits) -> Result<Context<D>, CheckedErr>
    ensures conditions { Answers Call.ContextWithLimits result (unless (limits.slots < 4294967295) Condition.OutOfRange (unless (1 ≤ limits.last_version) Condition.OutOfRange own_value)) }
    ensures new { IfOk result (λ answer. IsNewSession (bare answer)) }
    ensures beside { IfOk result (λ answer. (bare answer).beside ≡ nothing_beside) }
    ensures limits { IfOk result (λ answer. answer.limits ≡ limits) }
{
    if limits.slots == u32::MAX {
        return Err(fault!(ContextWithLimits, OutOfRange));
    }
    if limits.last_version == 0 {
        return Err(fault!(ContextWithLimits, OutOfRange));
    }
    Ok(Context::with_limits(alloc, limits))
}
