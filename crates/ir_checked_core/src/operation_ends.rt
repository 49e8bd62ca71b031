//! Operations whose uses are dropped, and operations that are erased with all that stands inside them.

ghost use Rattle.std.specs.Prelude.{OnErr, OnOk, length, slice_get, ◌<◌, ◌≡◌};
ghost use Rattle.ir_checked_core.specs.Answers.{Answers, own_value, unless};
ghost use Rattle.ir_core_context.specs.Calls.{KeepsAll, SameButForest};
ghost use Rattle.ir_core_context.specs.Definitions.{ClosedAt};
ghost use Rattle.ir_core_context.specs.Removals.{RemovesEachOnce};
ghost use Rattle.ir_core_context.specs.State.{bare, forest_of};
ghost use Rattle.ir_model.specs.Changes.{DropsUses, Removes};
ghost use Rattle.ir_model.specs.Edits.{The};
ghost use Rattle.ir_model.specs.Forest.{a_region, an_op};
ghost use Rattle.ir_model.specs.Nesting.{IsClosed, IsLive, regions_of};

use crate::asked::is_closed_region;
use crate::error::{Call, CheckedErr, Condition, fault};
use ir_base_dialects::{Dialects, Ptr};
use ir_core_queries::{
    Context, DropUses, Entity, Erase, EraseRegion, Operation, OperationPtr, can_erase,
};

/// Takes the operands and successors of all operations inside the operation out, also its own.
///
/// # Errors
/// `Unmet` where the operation isn't live.
pub fn drop_all_uses<D: Dialects>(
    op: Ptr<Operation<D>>,
    ctx: &mut Context<D>,
) -> Result<(), CheckedErr>
    ensures conditions { Answers Call.OperationDropAllUses result (unless (IsLive (forest_of ctx.old) (an_op op.index)) Condition.DeadOperation own_value) }
    ensures forest { OnOk result (DropsUses (forest_of ctx.old) (an_op op.index) (forest_of ctx.new)) }
    ensures rest { OnOk result (SameButForest (bare ctx.old) (bare ctx.new)) }
    ensures keeps { OnOk result (KeepsAll ctx.old ctx.new) }
    ensures err { OnErr result (ctx.new ≡ ctx.old) }
{
    if !op.is_live(ctx) {
        return Err(fault!(OperationDropAllUses, DeadOperation));
    }
    op.drop_all_uses(ctx);
    Ok(())
}

/// Erases the operation with all that stands inside it, each entity once.
///
/// # Errors
/// `Unmet` where the operation isn't live, or something outside names what is defined inside.
pub fn erase<D: Dialects>(op: Ptr<Operation<D>>, ctx: &mut Context<D>) -> Result<(), CheckedErr>
    ensures conditions { Answers Call.OperationErase result (unless (IsLive (forest_of ctx.old) (an_op op.index)) Condition.DeadOperation (unless (IsClosed (forest_of ctx.old) (an_op op.index)) Condition.NotClosed own_value)) }
    ensures forest { OnOk result (Removes (forest_of ctx.old) (an_op op.index) (forest_of ctx.new)) }
    ensures once { OnOk result (RemovesEachOnce ctx.old ctx.new (an_op op.index)) }
    ensures rest { OnOk result (SameButForest (bare ctx.old) (bare ctx.new)) }
    ensures err { OnErr result (ctx.new ≡ ctx.old) }
{
    if !op.is_live(ctx) {
        return Err(fault!(OperationErase, DeadOperation));
    }
    if !can_erase(ctx, Entity::Op(op)) {
        return Err(fault!(OperationErase, NotClosed));
    }
    op.erase(ctx);
    Ok(())
}

/// Erases the region of the operation at the index with all that stands inside it, each entity once; those behind it move up.
///
/// # Errors
/// `Unmet` where the operation isn't live, the index is out of range, or something outside names what is defined inside.
pub fn erase_region<D: Dialects>(
    op: Ptr<Operation<D>>,
    ctx: &mut Context<D>,
    index: usize,
) -> Result<(), CheckedErr>
    ensures conditions { Answers Call.OperationEraseRegion result (unless (IsLive (forest_of ctx.old) (an_op op.index)) Condition.DeadOperation (unless (index < length (regions_of (forest_of ctx.old) op.index)) Condition.OutOfRange (unless (ClosedAt (forest_of ctx.old) op.index index) Condition.NotClosed own_value))) }
    ensures forest { OnOk result (The (slice_get (regions_of (forest_of ctx.old) op.index) index) (λ g. Removes (forest_of ctx.old) (a_region g) (forest_of ctx.new))) }
    ensures once { OnOk result (The (slice_get (regions_of (forest_of ctx.old) op.index) index) (λ g. RemovesEachOnce ctx.old ctx.new (a_region g))) }
    ensures rest { OnOk result (SameButForest (bare ctx.old) (bare ctx.new)) }
    ensures err { OnErr result (ctx.new ≡ ctx.old) }
{
    if !op.is_live(ctx) {
        return Err(fault!(OperationEraseRegion, DeadOperation));
    }
    if op.deref(ctx).num_regions() <= index {
        return Err(fault!(OperationEraseRegion, OutOfRange));
    }
    if !is_closed_region(ctx, op, index) {
        return Err(fault!(OperationEraseRegion, NotClosed));
    }
    op.erase_region(ctx, index);
    Ok(())
}
