//! The merging of an operation: what is done in each block inside it.

ghost use Rattle.std.specs.Prelude.{◌≡◌, map, IfErr, IfOk, OnErr};
ghost use Rattle.ir_model.specs.Forest.{an_op};
ghost use Rattle.ir_model.specs.Nesting.{IsLive};
ghost use Rattle.ir_model_passes.specs.MergingInside.{MergesInside, MergesInsideBrokenOff};
ghost use Rattle.ir_base_dialects.specs.Attributes.{same_pairs};
ghost use Rattle.ir_core_queries.specs.State.{bare, forest_of};
ghost use Rattle.ir_core_queries.specs.Calls.{SameButForest};
ghost use Rattle.ir_core_records.specs.DialectAnswers.{behaviour_of};
ghost use Rattle.ir_run_passes.specs.BlocksInside.{ListsBlocks};

use crate::merging::merge_common;
use crate::sweeping::live_ops;
use ir_base_dialects::{CoreError, Dialects, Ptr};
use ir_core_queries::{BasicBlock, Context, Entity, Operation};
use ir_model_passes::merges_are_counted;
use ir_view::walk::inside_preorder;

// The blocks inside a live operation, each before those inside it, and before those that come after it.
fn blocks_inside<D: Dialects>(
    ctx: &Context<D>,
    root: Ptr<Operation<D>>,
) -> Result<Vec<Ptr<BasicBlock<D>>>, CoreError>
    requires { IsLive (forest_of ctx.now) (an_op root.index) }
    ensures listed { IfOk result (λ blocks. ListsBlocks (forest_of ctx.now) (an_op root.index) (map (λ p. p.index) blocks.items)) }
    ensures memory { IfErr result (λ e. e ≡ CoreError.OutOfMemory) }
{
    let mut blocks = Vec::new(ctx.alloc());
    for entity in inside_preorder(ctx, Entity::Op(root)) {
        if let Entity::Block(block) = entity {
            blocks.push(block)?;
        }
    }
    Ok(blocks)
}

/// Merges the alike operations of each block inside a live operation, as `merge_common` does, and answers how many went in all.
///
/// It goes to each block once, to a block before those inside it and before those that come after it: so what a merging makes alike in a later block is merged too. Blocks that aren't in order stay as they are. pliron has no such call.
///
/// # Errors
/// `OutOfMemory` where a list or a table had to grow and couldn't. Then the blocks up to one were merged, and that one in part: the forest is well formed, and what is left sees the same values.
pub fn merge_common_inside<D: Dialects>(
    root: Ptr<Operation<D>>,
    ctx: &mut Context<D>,
) -> Result<usize, CoreError>
    requires { IsLive (forest_of ctx.old) (an_op root.index) }
    ensures merged { IfOk result (MergesInside (behaviour_of D.Dialects D.TypeKey.eq) (same_pairs D.Attr.eq) (forest_of ctx.old) (an_op root.index) (forest_of ctx.new)) }
    ensures broken_off { OnErr result (MergesInsideBrokenOff (behaviour_of D.Dialects D.TypeKey.eq) (same_pairs D.Attr.eq) (forest_of ctx.old) (an_op root.index) (forest_of ctx.new)) }
    ensures memory { IfErr result (λ e. e ≡ CoreError.OutOfMemory) }
    ensures rest { SameButForest (bare ctx.old) (bare ctx.new) }
    ensures live { IsLive (forest_of ctx.new) (an_op root.index) }
{
    merges_are_counted::<D::TypeKey, D::TypeBody, D::Attr, D::Saved, D::Aux, D::Loc>();
    ctx.recall_well_formed();
    let before = live_ops(ctx);
    let blocks = blocks_inside(ctx, root)?;
    for block in &blocks {
        merge_common(*block, ctx)?;
    }
    Ok(before - live_ops(ctx))
}
