//! The values and blocks of a region, named before anything in it is put.

ghost use Rattle.ir_model.specs.Forest.{a_block, a_region};
ghost use Rattle.ir_model.specs.Nesting.{IsLive};
ghost use Rattle.ir_core_queries.specs.State.{forest_of};

use crate::draft::Draft;
use ir_base_dialects::{Dialects, Ptr};
use ir_core_queries::{
    BasicBlock, BlockPlace, BlockPtr, Context, Operation, OperationPtr, Region, RegionPlace,
};
use ir_text_pieces::NameSort;
use ir_view_parts::{BlockParts, OperationParts};

// Names several results of an operation: one number for all of them.
fn name_several<D: Dialects>(draft: &mut Draft, op: &Operation<D>) {
    let number = draft.take_number();
    for (index, value) in op.results().enumerate() {
        draft.name_result(value.index.number, number, index);
    }
}

/// Names the results of an operation.
pub(crate) fn name_results<D: Dialects>(draft: &mut Draft, op: &Operation<D>) {
    match op.get_num_results() {
        0 => {}
        1 => draft.name_value(op.get_result(0).index.number, NameSort::Plain),
        _ => name_several(draft, op),
    }
}

// Names the arguments of a block.
fn name_arguments<D: Dialects>(draft: &mut Draft, block: &BasicBlock<D>, sort: NameSort) {
    for value in block.arguments() {
        draft.name_value(value.index.number, sort);
    }
}

// Names the arguments of a block and the results of its operations.
fn name_block<D: Dialects>(
    ctx: &Context<D>,
    draft: &mut Draft,
    block: Ptr<BasicBlock<D>>,
    sort: NameSort,
)
    requires { IsLive (forest_of ctx.now) (a_block block.index) }
{
    name_arguments(draft, block.deref(ctx), sort);
    for op in block.iter(ctx) {
        name_results(draft, op.deref(ctx));
    }
}

/// Names the blocks of a region and all values that are defined in them. The arguments of the first block are numbered apart.
pub(crate) fn name_region<D: Dialects>(ctx: &Context<D>, draft: &mut Draft, region: Ptr<Region>)
    requires { IsLive (forest_of ctx.now) (a_region region.index) }
{
    let mut sort = NameSort::Argument;
    let mut place = 0usize;
    for block in region.iter(ctx) {
        draft.name_block(block.index().slot, place);
        name_block(ctx, draft, block, sort);
        sort = NameSort::Plain;
        place = place.saturating_add(1);
    }
}
