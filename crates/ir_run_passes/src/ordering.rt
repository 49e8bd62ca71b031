//! Whether a block is in order: no operation stands before one of the block whose result it names.
//!
//! Operations that were made one after the other are in slots that rise. Where they stand so in the block, no table is needed.

ghost use Rattle.std.specs.Prelude.{◌≡◌, ◌↔◌, IsTrue, IfErr, IfOk};
ghost use Rattle.ir_model.specs.Forest.{a_block, a_value, an_op};
ghost use Rattle.ir_model.specs.Nesting.{In, IsLive, IsLiveNamed, ops_of};
ghost use Rattle.ir_model_passes.specs.InOrder.{InOrder};
ghost use Rattle.ir_core_queries.specs.State.{forest_of};
ghost use Rattle.ir_core_records.specs.Meaning.{value_of};
ghost use Rattle.ir_run_passes.specs.Ordering.{IsUnmet, NamesUnmet, IsFromAbove, NamesAbove, RisesInOrder};

use indexmap::IndexSet;
use ir_base_dialects::{ArenaIndex, CoreError, Dialects, Ptr};
use ir_core_queries::{
    BasicBlock, BlockPlace, Context, Operation, OperationPlace, OperationPtr, Value,
};

// Whether both indices are one.
fn is_same_index(one: ArenaIndex, other: ArenaIndex) -> bool
    ensures { IsTrue result ↔ (one ≡ other) }
{
    one == other
}

// Whether a live operation stands in the block.
fn stands_in<D: Dialects>(
    ctx: &Context<D>,
    op: Ptr<Operation<D>>,
    block: Ptr<BasicBlock<D>>,
) -> bool
    requires { IsLive (forest_of ctx.now) (an_op op.index) }
    ensures { IsTrue result ↔ In op.index (ops_of (forest_of ctx.now) block.index) }
{
    ctx.recall_well_formed();
    match op.get_parent_block(ctx) {
        Some(parent) => is_same_index(parent.index, block.index),
        None => false,
    }
}

// Whether an operation gives the live value that stands in the block and is not among those that were met.
fn is_unmet<D: Dialects>(
    ctx: &Context<D>,
    block: Ptr<BasicBlock<D>>,
    met: &IndexSet<ArenaIndex>,
    value: Value<D>,
) -> bool
    requires { IsLiveNamed (forest_of ctx.now) (a_value (value_of value.index)) }
    ensures { IsTrue result ↔ IsUnmet (forest_of ctx.now) block.index met.now.keys (value_of value.index) }
{
    let Some(definer) = value.defining_op() else {
        return false;
    };
    if met.contains(&definer.index) {
        return false;
    }
    stands_in(ctx, definer, block)
}

// Whether a live operation names a result of one that stands in the block and is not among those that were met.
fn names_unmet<D: Dialects>(
    ctx: &Context<D>,
    block: Ptr<BasicBlock<D>>,
    met: &IndexSet<ArenaIndex>,
    user: Ptr<Operation<D>>,
) -> bool
    requires { IsLive (forest_of ctx.now) (an_op user.index) }
    ensures { IsTrue result ↔ NamesUnmet (forest_of ctx.now) block.index met.now.keys user.index }
{
    let operation = user.deref(ctx);
    for index in 0..operation.get_num_operands() {
        if is_unmet(ctx, block, met, operation.get_operand(index)) {
            return true;
        }
    }
    false
}

// Whether a live block is in order, by a table of the operations that were met.
//
// It meets the operations from the front to the back, and looks up each operation that gives an operand among those that it met.
fn is_in_order_by_table<D: Dialects>(
    ctx: &Context<D>,
    block: Ptr<BasicBlock<D>>,
) -> Result<bool, CoreError>
    requires { IsLive (forest_of ctx.now) (a_block block.index) }
    ensures order { IfOk result (λ answer. IsTrue answer ↔ InOrder (forest_of ctx.now) block.index) }
    ensures memory { IfErr result (λ e. e ≡ CoreError.OutOfMemory) }
{
    ctx.recall_well_formed();
    let mut met = IndexSet::new(ctx.alloc());
    for op in block.iter(ctx) {
        met.insert(op.index)?;
        if names_unmet(ctx, block, &met, op) {
            return Ok(false);
        }
    }
    Ok(true)
}

// Whether an operation of the block that is in a slot above this one gives the live value.
fn is_from_above<D: Dialects>(
    ctx: &Context<D>,
    block: Ptr<BasicBlock<D>>,
    slot: u32,
    value: Value<D>,
) -> bool
    requires { IsLiveNamed (forest_of ctx.now) (a_value (value_of value.index)) }
    ensures { IsTrue result ↔ IsFromAbove (forest_of ctx.now) block.index slot (value_of value.index) }
{
    let Some(definer) = value.defining_op() else {
        return false;
    };
    if definer.index.slot <= slot {
        return false;
    }
    stands_in(ctx, definer, block)
}

// Whether a live operation names a result of one of the block that is in a slot above its own.
fn names_above<D: Dialects>(
    ctx: &Context<D>,
    block: Ptr<BasicBlock<D>>,
    user: Ptr<Operation<D>>,
) -> bool
    requires { IsLive (forest_of ctx.now) (an_op user.index) }
    ensures { IsTrue result ↔ NamesAbove (forest_of ctx.now) block.index user.index }
{
    let operation = user.deref(ctx);
    for index in 0..operation.get_num_operands() {
        if is_from_above(ctx, block, user.index.slot, operation.get_operand(index)) {
            return true;
        }
    }
    false
}

// Whether each operation of a live block is in a slot above that of the one before it, and names no result of one of the block that is in a slot above its own. Such a block is in order.
fn rises_in_order<D: Dialects>(ctx: &Context<D>, block: Ptr<BasicBlock<D>>) -> bool
    requires { IsLive (forest_of ctx.now) (a_block block.index) }
    ensures { IsTrue result ↔ RisesInOrder (forest_of ctx.now) block.index }
{
    ctx.recall_well_formed();
    let mut slot = 0;
    for op in block.iter(ctx) {
        if op.index.slot <= slot {
            return false;
        }
        if names_above(ctx, block, op) {
            return false;
        }
        slot = op.index.slot;
    }
    true
}

/// Whether a live block is in order.
///
/// Where the slots of its operations rise it goes through them once, without memory. Elsewhere it looks up each operation, and each that gives an operand, in a table of those that it met.
pub(crate) fn is_in_order<D: Dialects>(
    ctx: &Context<D>,
    block: Ptr<BasicBlock<D>>,
) -> Result<bool, CoreError>
    requires { IsLive (forest_of ctx.now) (a_block block.index) }
    ensures order { IfOk result (λ answer. IsTrue answer ↔ InOrder (forest_of ctx.now) block.index) }
    ensures memory { IfErr result (λ e. e ≡ CoreError.OutOfMemory) }
{
    if rises_in_order(ctx, block) {
        return Ok(true);
    }
    is_in_order_by_table(ctx, block)
}
