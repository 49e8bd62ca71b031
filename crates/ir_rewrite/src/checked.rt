//! The calls of `operation` with their conditions tested. Each answers the first condition that doesn't hold, with the call of the core that has it, and then nothing has changed.

ghost use Rattle.std.specs.Prelude.{◌≡◌, IfErr, OnErr, OnOk};
ghost use Rattle.ir_checked_core.specs.Answers.{Made, OnRefused, OnUnmet, out_of_memory, own_answer, own_value};
ghost use Rattle.ir_checked_core.specs.declared.error.Call.TheVariants.{OperationInsertAfter, OperationInsertBefore};
ghost use Rattle.ir_model.specs.Changes.{Removes, in_blocks, put_after, put_before, without};
ghost use Rattle.ir_model.specs.ContextIds.{same_id};
ghost use Rattle.ir_model.specs.Forest.{an_op};
ghost use Rattle.ir_model_passes.specs.Merging.{redirect_each};
ghost use Rattle.ir_core_context.specs.Calls.{KeepsAll, SameButForest};
ghost use Rattle.ir_core_context.specs.State.{bare, forest_of};
ghost use Rattle.ir_rewrite.specs.Answers.{InsertAnswers, MoveAnswers, ReplaceAnswers};
ghost use Rattle.ir_rewrite.specs.Points.{put_at};
ghost use Rattle.ir_rewrite.specs.Replacing.{RedirectsSome, results_beside};

use crate::checks::{check_insert, check_move, check_replace};
use crate::operation;
use crate::point::InsertionPoint;
use ir_base_dialects::{Dialects, Ptr};
use ir_checked_core::{Call, CheckedErr};
use ir_core_queries::{Context, Operation, Value};

/// Puts the operation in at the point.
///
/// # Errors
/// `Unmet` where the operation isn't live, what the point names isn't live, the operation that it names stands in no list, the operation stands in a list already, or it would stand inside itself.
pub fn insert_at<D: Dialects>(
    op: Ptr<Operation<D>>,
    ctx: &mut Context<D>,
    point: InsertionPoint<D>,
) -> Result<(), CheckedErr>
    ensures conditions { InsertAnswers (forest_of ctx.old) point op.index own_value result }
    ensures forest { OnOk result (forest_of ctx.new ≡ put_at (forest_of ctx.old) point op.index) }
    ensures rest { OnOk result (SameButForest (bare ctx.old) (bare ctx.new)) }
    ensures keeps { OnOk result (KeepsAll ctx.old ctx.new) }
    ensures err { OnErr result (ctx.new ≡ ctx.old) }
{
    check_insert(ctx, op, point)?;
    operation::insert_at(op, ctx, point);
    Ok(())
}

/// Takes the operation out of its list, and puts it in right before the mark.
///
/// # Errors
/// `Unmet` where the operation isn't live or stands in no list, the mark isn't live or stands in no list, or the operation is the mark or would stand inside itself.
pub fn move_before<D: Dialects>(
    op: Ptr<Operation<D>>,
    ctx: &mut Context<D>,
    mark: Ptr<Operation<D>>,
) -> Result<(), CheckedErr>
    ensures conditions { MoveAnswers OperationInsertBefore (forest_of ctx.old) op.index mark.index own_value result }
    ensures forest { OnOk result (forest_of ctx.new ≡ in_blocks (in_blocks (forest_of ctx.old) (without same_id op.index)) (put_before same_id op.index mark.index)) }
    ensures rest { OnOk result (SameButForest (bare ctx.old) (bare ctx.new)) }
    ensures keeps { OnOk result (KeepsAll ctx.old ctx.new) }
    ensures err { OnErr result (ctx.new ≡ ctx.old) }
{
    check_move(ctx, op, mark, Call::OperationInsertBefore)?;
    operation::move_before(op, ctx, mark);
    Ok(())
}

/// Takes the operation out of its list, and puts it in right after the mark.
///
/// # Errors
/// `Unmet` where the operation isn't live or stands in no list, the mark isn't live or stands in no list, or the operation is the mark or would stand inside itself.
pub fn move_after<D: Dialects>(
    op: Ptr<Operation<D>>,
    ctx: &mut Context<D>,
    mark: Ptr<Operation<D>>,
) -> Result<(), CheckedErr>
    ensures conditions { MoveAnswers OperationInsertAfter (forest_of ctx.old) op.index mark.index own_value result }
    ensures forest { OnOk result (forest_of ctx.new ≡ in_blocks (in_blocks (forest_of ctx.old) (without same_id op.index)) (put_after same_id op.index mark.index)) }
    ensures rest { OnOk result (SameButForest (bare ctx.old) (bare ctx.new)) }
    ensures keeps { OnOk result (KeepsAll ctx.old ctx.new) }
    ensures err { OnErr result (ctx.new ≡ ctx.old) }
{
    check_move(ctx, op, mark, Call::OperationInsertAfter)?;
    operation::move_after(op, ctx, mark);
    Ok(())
}

/// Lets each operand that names a result of the operation name the value at the same place, and erases the operation with all that stands inside it.
///
/// # Errors
/// `Unmet` where the operation isn't live, there are more or fewer values than results, a value isn't live or is defined inside the operation, or something outside a region of the operation names what is defined inside that. `Core` where the list of a value's uses had to grow and couldn't: then the first results are replaced, the others are not, and the operation is there.
pub fn replace_op<D: Dialects>(
    op: Ptr<Operation<D>>,
    ctx: &mut Context<D>,
    values: &[Value<D>],
) -> Result<(), CheckedErr>
    ensures conditions { ReplaceAnswers (forest_of ctx.old) op.index values.now own_answer result }
    ensures forest { OnOk result (Removes (redirect_each (forest_of ctx.old) (results_beside (forest_of ctx.old) op.index values.now)) (an_op op.index) (forest_of ctx.new)) }
    ensures rest { Made result (SameButForest (bare ctx.old) (bare ctx.new)) }
    ensures memory { Made result (IfErr result (λ e. e ≡ out_of_memory)) }
    ensures partly { OnRefused result (RedirectsSome (forest_of ctx.old) (results_beside (forest_of ctx.old) op.index values.now) (forest_of ctx.new)) }
    ensures unmet { OnUnmet result (ctx.new ≡ ctx.old) }
{
    check_replace(ctx, op, values)?;
    match operation::replace_op(op, ctx, values) {
        Ok(()) => Ok(()),
        Err(error) => Err(CheckedErr::Core(error)),
    }
}
