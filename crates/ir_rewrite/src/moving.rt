//! Operations that move from one place in the lists of blocks to another.

ghost use Rattle.std.specs.Prelude.{◌≡◌, ◌↔◌, IsTrue};
ghost use Rattle.ir_model.specs.Changes.{in_blocks, put_after, put_before, without};
ghost use Rattle.ir_model.specs.ContextIds.{same_id};
ghost use Rattle.ir_core_context.specs.Calls.{KeepsAll, SameButForest};
ghost use Rattle.ir_core_context.specs.State.{bare, forest_of};
ghost use Rattle.ir_rewrite.specs.Points.{MayMoveBeside};

use crate::checks::check_move;
use ir_base_dialects::{Dialects, Ptr};
use ir_checked_core::Call;
use ir_core_queries::{Context, Operation, OperationList};

/// Whether the operation may be moved beside the mark: both stand in blocks, they are two, and the mark's block isn't inside the operation.
pub fn may_move_beside<D: Dialects>(
    ctx: &Context<D>,
    op: Ptr<Operation<D>>,
    mark: Ptr<Operation<D>>,
) -> bool
    ensures { IsTrue result ↔ MayMoveBeside (forest_of ctx.now) op.index mark.index }
{
    check_move(ctx, op, mark, Call::OperationInsertBefore).is_ok()
}

/// Takes the operation out of its list, and puts it in right before the mark. It stands for MLIR's `moveBefore`.
pub fn move_before<D: Dialects>(
    op: Ptr<Operation<D>>,
    ctx: &mut Context<D>,
    mark: Ptr<Operation<D>>,
)
    requires { MayMoveBeside (forest_of ctx.old) op.index mark.index }
    ensures forest { forest_of ctx.new ≡ in_blocks (in_blocks (forest_of ctx.old) (without same_id op.index)) (put_before same_id op.index mark.index) }
    ensures rest { SameButForest (bare ctx.old) (bare ctx.new) }
    ensures keeps { KeepsAll ctx.old ctx.new }
{
    ctx.recall_well_formed();
    op.unlink(ctx);
    op.insert_before(ctx, mark);
}

/// Takes the operation out of its list, and puts it in right after the mark. It stands for MLIR's `moveAfter`.
pub fn move_after<D: Dialects>(op: Ptr<Operation<D>>, ctx: &mut Context<D>, mark: Ptr<Operation<D>>)
    requires { MayMoveBeside (forest_of ctx.old) op.index mark.index }
    ensures forest { forest_of ctx.new ≡ in_blocks (in_blocks (forest_of ctx.old) (without same_id op.index)) (put_after same_id op.index mark.index) }
    ensures rest { SameButForest (bare ctx.old) (bare ctx.new) }
    ensures keeps { KeepsAll ctx.old ctx.new }
{
    ctx.recall_well_formed();
    op.unlink(ctx);
    op.insert_after(ctx, mark);
}
