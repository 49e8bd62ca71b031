//! The sweep of an operation: dead operations go from all blocks inside it, with all that stands inside them.
//!
//! Each block of which something can go is swept, in the order of a walk from the last of what stands inside to the first, inner before outer. So what names is met before what it names where definitions stand before their uses, in the blocks of a region as in one block. A block stays while it is swept, and so does all that comes behind it in the walk: what goes stands inside its operations, which the walk has passed. At its end the walk begins again, until nothing can go on a whole way.

ghost use Rattle.std.specs.Prelude.{◌≡◌};
ghost use Rattle.ir_model.specs.Arenas.{arena_len};
ghost use Rattle.ir_model.specs.Forest.{an_op};
ghost use Rattle.ir_model.specs.Nesting.{IsLive};
ghost use Rattle.ir_model_passes.specs.SweepInside.{NoneIsClosedInside, SweepsInside};
ghost use Rattle.ir_core_queries.specs.State.{bare, forest_of};
ghost use Rattle.ir_core_queries.specs.Calls.{SameButForest};
ghost use Rattle.ir_core_records.specs.DialectAnswers.{behaviour_of};

use crate::dead::sweep;
use crate::walking::{to_sweep, to_sweep_after};
use ir_base_dialects::{Dialects, Ptr};
use ir_core_queries::{Context, Operation};
use ir_model_passes::{steps_sweep_inside, sweep_inside_is_one};

/// How many operations are live.
pub(crate) fn live_ops<D: Dialects>(ctx: &Context<D>) -> usize
    ensures { result ≡ arena_len ctx.now.records.ops }
{
    ctx.records().ops.len()
}

/// Removes the dead operations anywhere inside a live operation, with all that stands inside them, and answers how many operations are gone, those inside dead ones among them.
///
/// An operation is dead where it stands in a block inside the root, its kind implements `PURE_OPERATION`, and each operation that names something defined inside it is inside it too, or inside a dead one. The root stays. Pure operations that use each other in a ring stay. It takes no memory. pliron has no such call.
///
/// It goes through all that stands inside once more than it finds something, and it finds all on one way where each operation stands before those that use what it gives: so in blocks whose uses are dominated by their definitions, with each block behind those that dominate it. Each step of a chain against that order that crosses from block to block can cost a way more.
pub fn sweep_inside<D: Dialects>(root: Ptr<Operation<D>>, ctx: &mut Context<D>) -> usize
    requires { IsLive (forest_of ctx.old) (an_op root.index) }
    ensures swept { SweepsInside (behaviour_of D.Dialects D.TypeKey.eq) (forest_of ctx.old) (an_op root.index) (forest_of ctx.new) result }
    ensures none_can_go { NoneIsClosedInside (behaviour_of D.Dialects D.TypeKey.eq) (an_op root.index) (forest_of ctx.new) }
    ensures rest { SameButForest (bare ctx.old) (bare ctx.new) }
    ensures live { IsLive (forest_of ctx.new) (an_op root.index) }
{
    steps_sweep_inside::<D::TypeKey, D::TypeBody, D::Attr, D::Saved, D::Aux, D::Loc>();
    sweep_inside_is_one::<D::TypeKey, D::TypeBody, D::Attr, D::Saved, D::Aux, D::Loc>();
    ctx.recall_well_formed();
    let before = live_ops(ctx);
    let mut next = to_sweep(ctx, root);
    while let Some(block) = next {
        ctx.recall_well_formed();
        sweep(block, ctx);
        next = to_sweep_after(ctx, root, block);
    }
    before - live_ops(ctx)
}
