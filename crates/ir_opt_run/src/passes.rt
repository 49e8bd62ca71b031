//! Passes over all that was read.
ghost use Rattle.std.specs.Prelude.{ℕ, OnOk};
ghost use Rattle.ir_model.specs.Forest.{an_op};
ghost use Rattle.ir_model.specs.Nesting.{IsLive};
ghost use Rattle.ir_run_unreached.specs.Inside.{NamesStayInsideEach, RemovesUnreachedInside};
ghost use Rattle.ir_core_queries.specs.State.{bare, forest_of};
ghost use Rattle.ir_core_queries.specs.Calls.{SameButForest};
ghost use Rattle.ir_opt_run.specs.GenericBehaviour.{generic_behaviour, generic_same};
ghost use Rattle.ir_opt_run.specs.Passes.{PassLeads};

use crate::fault::Fault;
use crate::options::Pass;
use crate::reading::Op;
use generic_dialect::Generic;
use ir_core_queries::{Context, OperationPtr};
use ir_run_passes::{merge_common_inside, sweep_inside};
use ir_run_unreached::{can_remove_unreached_inside, remove_unreached_inside};

// Removes unreached blocks from each region inside a live operation.
fn remove_unreached(ctx: &mut Context<Generic>, root: Op) -> Result<(), Fault>
    requires { IsLive (forest_of ctx.old) (an_op root.index) }
    ensures names { OnOk result (NamesStayInsideEach (an_op root.index) (forest_of ctx.old)) }
    ensures removes { OnOk result ((count : ℕ) × RemovesUnreachedInside (an_op root.index) (forest_of ctx.old) (forest_of ctx.new) count) }
    ensures rest { OnOk result (SameButForest (bare ctx.old) (bare ctx.new)) }
    ensures live { OnOk result (IsLive (forest_of ctx.new) (an_op root.index)) }
{
    let can = can_remove_unreached_inside(root, ctx)?;
    if !can {
        return Err(Fault::NamedOutside);
    }
    remove_unreached_inside(root, ctx)?;
    if root.is_live(ctx) {
        Ok(())
    } else {
        Err(Fault::Different)
    }
}

// How many operations are live.
fn live_ops(ctx: &Context<Generic>) -> usize {
    ctx.records().ops.len()
}

// Runs a pass over all that stands inside a live operation.
fn make_pass(ctx: &mut Context<Generic>, root: Op, pass: Pass) -> Result<(), Fault>
    requires { IsLive (forest_of ctx.old) (an_op root.index) }
    ensures leads { OnOk result (PassLeads generic_behaviour generic_same root.index pass (forest_of ctx.old) (forest_of ctx.new)) }
    ensures rest { OnOk result (SameButForest (bare ctx.old) (bare ctx.new)) }
    ensures live { OnOk result (IsLive (forest_of ctx.new) (an_op root.index)) }
{
    match pass {
        Pass::Sweep => {
            sweep_inside(root, ctx);
            Ok(())
        }
        Pass::Cse => {
            merge_common_inside(root, ctx)?;
            Ok(())
        }
        Pass::UnreachableBlocks => remove_unreached(ctx, root),
    }
}

/// Runs a pass over all that stands inside a live operation, and answers how many operations are gone.
///
/// # Errors
/// Want of memory; and `NamedOutside` of unreached blocks that can't be removed.
pub(crate) fn run_pass(ctx: &mut Context<Generic>, root: Op, pass: Pass) -> Result<usize, Fault>
    requires { IsLive (forest_of ctx.old) (an_op root.index) }
    ensures leads { OnOk result (PassLeads generic_behaviour generic_same root.index pass (forest_of ctx.old) (forest_of ctx.new)) }
    ensures rest { OnOk result (SameButForest (bare ctx.old) (bare ctx.new)) }
    ensures live { OnOk result (IsLive (forest_of ctx.new) (an_op root.index)) }
{
    let before = live_ops(ctx);
    make_pass(ctx, root, pass)?;
    Ok(before.saturating_sub(live_ops(ctx)))
}
