//! Operations that are replaced by values.

ghost use Rattle.std.specs.Prelude.{◌≡◌, ◌↔◌, All, IfErr, IsTrue, OnErr, OnOk, length};
ghost use Rattle.ir_model.specs.Changes.{Removes};
ghost use Rattle.ir_model.specs.Forest.{a_value, an_op, of_op};
ghost use Rattle.ir_model.specs.Nesting.{IsLive, IsLiveNamed, definitions_of};
ghost use Rattle.ir_model_passes.specs.Merging.{redirect_each};
ghost use Rattle.ir_core_context.specs.Calls.{KeepsAll, SameButForest};
ghost use Rattle.ir_core_context.specs.State.{bare, forest_of};
ghost use Rattle.ir_core_records.specs.Meaning.{value_of};
ghost use Rattle.ir_rewrite.specs.Replacing.{MayReplace, RedirectsSome, results_beside};

use crate::checks::check_replace;
use crate::items::item_at;
use ir_base_dialects::{CoreError, Dialects, Ptr};
use ir_core_queries::{Context, Erase, Operation, OperationPtr, Value, ValueEdits};

/// Whether the operation may be replaced by the values: it is live, there are as many values as results, they are live and not defined inside it, and nothing outside one of its regions names what is defined inside that region.
pub fn may_replace_op<D: Dialects>(
    ctx: &Context<D>,
    op: Ptr<Operation<D>>,
    values: &[Value<D>],
) -> bool
    ensures { IsTrue result ↔ MayReplace (forest_of ctx.now) op.index values.now }
{
    check_replace(ctx, op, values).is_ok()
}

/// Lets each operand that names a result of the operation name the value at the same place, one result after the other.
///
/// # Errors
/// `OutOfMemory` where the list of a value's uses had to grow and couldn't. Then the first results are replaced, and the others are not.
pub fn replace_results<D: Dialects>(
    op: Ptr<Operation<D>>,
    ctx: &mut Context<D>,
    values: &[Value<D>],
) -> Result<(), CoreError>
    requires live { IsLive (forest_of ctx.old) (an_op op.index) }
    requires as_many { length values.now ≡ length (definitions_of (forest_of ctx.old) (of_op op.index)) }
    requires values_live { All (λ v. IsLiveNamed (forest_of ctx.old) (a_value (value_of v.index))) values.now }
    ensures forest { OnOk result (forest_of ctx.new ≡ redirect_each (forest_of ctx.old) (results_beside (forest_of ctx.old) op.index values.now)) }
    ensures rest { SameButForest (bare ctx.old) (bare ctx.new) }
    ensures keeps { KeepsAll ctx.old ctx.new }
    ensures memory { IfErr result (λ e. e ≡ CoreError.OutOfMemory) }
    ensures err { OnErr result (RedirectsSome (forest_of ctx.old) (results_beside (forest_of ctx.old) op.index values.now) (forest_of ctx.new)) }
{
    for index in 0..values.len() {
        let value = item_at(values, index);
        let result = op.deref(ctx).get_result(index);
        result.replace_all_uses_with(ctx, value)?;
    }
    Ok(())
}

/// Lets each operand that names a result of the operation name the value at the same place, and erases the operation with all that stands inside it. It stands for pliron's and MLIR's rewriters, where they replace an operation by values.
///
/// # Errors
/// `OutOfMemory` where the list of a value's uses had to grow and couldn't. Then the first results are replaced, the others are not, and the operation is there.
pub fn replace_op<D: Dialects>(
    op: Ptr<Operation<D>>,
    ctx: &mut Context<D>,
    values: &[Value<D>],
) -> Result<(), CoreError>
    requires { MayReplace (forest_of ctx.old) op.index values.now }
    ensures forest { OnOk result (Removes (redirect_each (forest_of ctx.old) (results_beside (forest_of ctx.old) op.index values.now)) (an_op op.index) (forest_of ctx.new)) }
    ensures rest { SameButForest (bare ctx.old) (bare ctx.new) }
    ensures memory { IfErr result (λ e. e ≡ CoreError.OutOfMemory) }
    ensures err { OnErr result (RedirectsSome (forest_of ctx.old) (results_beside (forest_of ctx.old) op.index values.now) (forest_of ctx.new)) }
{
    ctx.recall_well_formed();
    replace_results(op, ctx, values)?;
    op.erase(ctx);
    Ok(())
}
