//! The merging of a block: of alike operations the later ones go, and what named their results names those of the first one.
//!
//! One way goes from the block's front to its end. An operation is merged into a kept one that is alike, or is kept where none is. What was kept stays as it was: in a block in order it names no result of what goes behind it. So the hash of a kept operation stays true, and no operation has to be looked at again.

ghost use Rattle.std.specs.Prelude.{◌≡◌, ℕ, ◌^◌, ◌<◌, length, take, IfErr, IfOk, OnErr, OnOk};
ghost use Rattle.std.specs.List.{zip};
ghost use Rattle.ir_model.specs.Forest.{a_block, an_op};
ghost use Rattle.ir_model.specs.Nesting.{In, IsLive, ops_of};
ghost use Rattle.ir_model_passes.specs.InOrder.{InOrder};
ghost use Rattle.ir_model_passes.specs.Merging.{values_given, redirect_each, redirect_results, Alike, Merges, MergesBrokenOff};
ghost use Rattle.ir_model_passes.specs.MergingInside.{MergesCommon};
ghost use Rattle.ir_base_dialects.specs.Attributes.{dict_input, same_pairs};
ghost use Rattle.ir_core_queries.specs.State.{bare, forest_of};
ghost use Rattle.ir_core_queries.specs.Calls.{SameButForest};
ghost use Rattle.ir_core_records.specs.DialectAnswers.{behaviour_of};
ghost use Rattle.ir_run_passes.specs.AlikeHash.{hash_in};
ghost use Rattle.ir_run_passes.specs.KeptOps.{kept_in};
ghost use Rattle.ir_run_passes.specs.MergeSteps.{BreaksOff, FindsKept, Steps};

use crate::alike::{alike_hash, is_plain};
use crate::kept_ops::KeptOps;
use crate::ordering::is_in_order;
use ir_base_dialects::{CoreError, Dialects, Ptr};
use ir_core_queries::{
    BasicBlock, BlockPlace, Context, Erase, Operation, OperationPlace, OperationPtr, ValueEdits,
};
use ir_model_passes::{merges_are_counted, walk_merges};

// What holds of every block: its list has fewer operations than a `usize` can count.
fn recall_lists_short<D: Dialects>(ctx: &Context<D>, block: Ptr<BasicBlock<D>>)
    ensures { length (ops_of (forest_of ctx.now) block.index) < 2 ^ 64 }
{
    ctx.recall_well_formed();
    let _most = ctx.records().ops.len();
}

// Lets all that names a result of the later of two alike operations name that of the earlier one at the same place.
fn replace_results<D: Dialects>(
    ctx: &mut Context<D>,
    earlier: Ptr<Operation<D>>,
    later: Ptr<Operation<D>>,
) -> Result<(), CoreError>
    requires { Alike (behaviour_of D.Dialects D.TypeKey.eq) (same_pairs D.Attr.eq) (forest_of ctx.old) earlier.index later.index }
    ensures all { OnOk result (forest_of ctx.new ≡ redirect_results (forest_of ctx.old) later.index earlier.index) }
    ensures some { OnErr result ((count : ℕ) × (forest_of ctx.new ≡ redirect_each (forest_of ctx.old) (take count (zip (values_given (forest_of ctx.old) later.index) (values_given (forest_of ctx.old) earlier.index))))) }
    ensures rest { SameButForest (bare ctx.old) (bare ctx.new) }
    ensures memory { IfErr result (λ e. e ≡ CoreError.OutOfMemory) }
{
    for index in 0..later.deref(ctx).get_num_results() {
        let old = later.deref(ctx).get_result(index);
        let new = earlier.deref(ctx).get_result(index);
        old.replace_all_uses_with(ctx, new)?;
    }
    Ok(())
}

// Merges an operation into a kept one that is alike, or keeps it where there is none and it is plain; whether it was merged.
fn merge_or_keep<D: Dialects>(
    ctx: &mut Context<D>,
    kept: &mut KeptOps,
    op: Ptr<Operation<D>>,
) -> Result<bool, CoreError>
    requires live { IsLive (forest_of ctx.old) (an_op op.index) }
    requires apart { In op.index (kept_in kept.old) → ⊥ }
    requires finds { FindsKept (behaviour_of D.Dialects D.TypeKey.eq) (forest_of ctx.old) kept.old (hash_in (dict_input D.Attr.hash_input) (forest_of ctx.old)) }
    ensures steps { IfOk result (Steps (behaviour_of D.Dialects D.TypeKey.eq) (same_pairs D.Attr.eq) (forest_of ctx.old) kept.old op.index (hash_in (dict_input D.Attr.hash_input) (forest_of ctx.old)) (forest_of ctx.new) kept.new) }
    ensures breaks_off { OnErr result (BreaksOff (behaviour_of D.Dialects D.TypeKey.eq) (same_pairs D.Attr.eq) (forest_of ctx.old) kept.old op.index (forest_of ctx.new)) }
    ensures rest { SameButForest (bare ctx.old) (bare ctx.new) }
    ensures memory { IfErr result (λ e. e ≡ CoreError.OutOfMemory) }
{
    walk_merges::<D::TypeKey, D::TypeBody, D::Attr, D::Saved, D::Aux, D::Loc>();
    ctx.recall_well_formed();
    let operation = op.deref(ctx);
    if !is_plain(operation) {
        return Ok(false);
    }
    let hash = alike_hash(operation);
    let Some(earlier) = kept.find(ctx, hash, op) else {
        kept.keep(hash, op.index)?;
        return Ok(false);
    };
    replace_results(ctx, earlier, op)?;
    op.erase(ctx);
    Ok(true)
}

// Merges the alike operations of a live block that is in order, and answers how many went.
fn merge_in_order<D: Dialects>(
    ctx: &mut Context<D>,
    block: Ptr<BasicBlock<D>>,
) -> Result<usize, CoreError>
    requires live { IsLive (forest_of ctx.old) (a_block block.index) }
    requires order { InOrder (forest_of ctx.old) block.index }
    ensures merged { IfOk result (Merges (behaviour_of D.Dialects D.TypeKey.eq) (same_pairs D.Attr.eq) block.index (forest_of ctx.old) (forest_of ctx.new)) }
    ensures broken_off { OnErr result (MergesBrokenOff (behaviour_of D.Dialects D.TypeKey.eq) (same_pairs D.Attr.eq) block.index (forest_of ctx.old) (forest_of ctx.new)) }
    ensures rest { SameButForest (bare ctx.old) (bare ctx.new) }
    ensures memory { IfErr result (λ e. e ≡ CoreError.OutOfMemory) }
{
    walk_merges::<D::TypeKey, D::TypeBody, D::Attr, D::Saved, D::Aux, D::Loc>();
    merges_are_counted::<D::TypeKey, D::TypeBody, D::Attr, D::Saved, D::Aux, D::Loc>();
    ctx.recall_well_formed();
    recall_lists_short(ctx, block);
    let mut kept = KeptOps::new(ctx.alloc());
    let mut merged = 0;
    let mut place = block.get_head(ctx);
    while let Some(op) = place {
        place = op.get_next(ctx);
        if merge_or_keep(ctx, &mut kept, op)? {
            merged += 1;
        }
    }
    Ok(merged)
}

/// Merges the alike operations of a live block that is in order, and answers how many went; `None` where the block isn't in order, and then nothing is done.
///
/// Two operations are alike where both are plain, of one kind, with equal attributes, the same operands and the same types of results. Plain is what has neither regions nor successors and is of a kind that implements `PURE_OPERATION`. Of two alike ones the later goes, and what named its results names the earlier's, place by place, until no two alike are left. A block is in order where no operation stands before one of the block whose result it names. pliron has no such call.
///
/// It goes through the block twice. The first way sees whether the block is in order: without memory where the slots of its operations rise, as those of operations do that were made one after the other, and else with a look-up for each operation and for each operand that an operation gives. The second has a look-up by hash for each plain operation, and one more for each that is kept.
///
/// # Errors
/// `OutOfMemory` where a table had to grow, or the list of a value's uses, and couldn't. Then some alike operations were merged, and of one more some results may have been replaced already: the forest is well formed, and what is left sees the same values.
pub fn merge_common<D: Dialects>(
    block: Ptr<BasicBlock<D>>,
    ctx: &mut Context<D>,
) -> Result<Option<usize>, CoreError>
    requires { IsLive (forest_of ctx.old) (a_block block.index) }
    ensures merged { IfOk result (MergesCommon (behaviour_of D.Dialects D.TypeKey.eq) (same_pairs D.Attr.eq) (forest_of ctx.old) block.index (forest_of ctx.new)) }
    ensures broken_off { OnErr result (MergesBrokenOff (behaviour_of D.Dialects D.TypeKey.eq) (same_pairs D.Attr.eq) block.index (forest_of ctx.old) (forest_of ctx.new)) }
    ensures memory { IfErr result (λ e. e ≡ CoreError.OutOfMemory) }
    ensures rest { SameButForest (bare ctx.old) (bare ctx.new) }
    ensures live { IsLive (forest_of ctx.new) (a_block block.index) }
{
    if !is_in_order(ctx, block)? {
        return Ok(None);
    }
    let merged = merge_in_order(ctx, block)?;
    Ok(Some(merged))
}
