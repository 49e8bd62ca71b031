//! The edits by which all uses of a value, or of a block as a successor, come to name another one: each tests its condition, and then is one call of the context.
//!
//! They need no numbers and no slots. Memory is refused only where both numbers differ, and then nothing has changed.

ghost use Rattle.ir_model.specs.Edits.{ReplaceAllUses as PlainReplaceAllUses, RetargetAll as PlainRetargetAll};
ghost use Rattle.ir_model.specs.Sessions.{Step};
ghost use Rattle.ir_run_sessions.specs.SessionTables.{session_in};
ghost use Rattle.ir_core_records.specs.DialectAnswers.{behaviour_of};

use crate::session_tables::Tables;
use crate::steps::{done, recall_needs_nothing};
use crate::use_conditions::{find_retargeted, find_values};
use ir_base_dialects::{Answer, Dialects, Refused};
use ir_core_queries::{Context, Retarget, ValueEdits};

/// Lets each operand that names the first value name the second.
pub fn replace_all_uses<D: Dialects>(
    ctx: &mut Context<D>,
    tables: &Tables<D>,
    value: usize,
    other: usize,
) -> Answer
    ensures { Step (behaviour_of D.Dialects D.TypeKey.eq) (session_in ctx.old tables.now) (PlainReplaceAllUses value other) result (session_in ctx.new tables.now) }
{
    recall_needs_nothing(ctx);
    match find_values(ctx, tables, value, other) {
        Some((value, other)) => done(value.replace_all_uses_with(ctx, other)),
        None => Answer::Refused(Refused::Condition),
    }
}

/// Lets each successor that names the first block name the second. Each operation that names the first stands in a block.
pub fn retarget_all<D: Dialects>(
    ctx: &mut Context<D>,
    tables: &Tables<D>,
    block: usize,
    other: usize,
) -> Answer
    ensures { Step (behaviour_of D.Dialects D.TypeKey.eq) (session_in ctx.old tables.now) (PlainRetargetAll block other) result (session_in ctx.new tables.now) }
{
    recall_needs_nothing(ctx);
    match find_retargeted(ctx, tables, block, other) {
        Some((block, other)) => done(block.retarget_all_preds_to(ctx, other)),
        None => Answer::Refused(Refused::Condition),
    }
}
