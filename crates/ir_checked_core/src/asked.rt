//! Tests of conditions for which the crates below have no test of their own.

ghost use Rattle.std.specs.Prelude.{All, IsTrue, length, ◌<◌, ◌↔◌, ◌≡◌};
ghost use Rattle.ir_core_context.specs.Definitions.{ClosedAt, UnusedAt, last_place};
ghost use Rattle.ir_core_context.specs.State.{forest_of, types_of};
ghost use Rattle.ir_core_queries.specs.Entities.{meant};
ghost use Rattle.ir_core_records.specs.Meaning.{use_of, value_of};
ghost use Rattle.ir_core_records.specs.Values.{IsLiveBlockUse, IsLiveUse};
ghost use Rattle.ir_model.specs.Edits.{MayGoBeside, MayJoin};
ghost use Rattle.ir_model.specs.Forest.{a_block, a_value, an_op, of_block, of_op, the_block};
ghost use Rattle.ir_model.specs.Nesting.{IsLinked, IsLive, IsLiveNamed, definitions_of, regions_of};
ghost use Rattle.ir_model.specs.Uses.{IsUse};

use ir_base_dialects::{ArenaIndex, Dialects, Ptr, TypeHandle};
use ir_core_queries::{
    BasicBlock, BlockPlace, BlockPtr, BlockUseQueries, Context, Entity, Operation, OperationPlace,
    OperationPtr, Region, RegionPtr, TypeQueries, Use, UseQueries, Value, ValueIndex, ValueQueries,
    can_erase, is_inside,
};

// Whether each of these types is known.
pub(crate) fn are_known<D: Dialects>(ctx: &Context<D>, types: &[TypeHandle]) -> bool
    ensures { IsTrue result ↔ All (λ t. t.place < length (types_of ctx.now)) types.now }
{
    types.iter().all(|ty| ty.is_known(ctx))
}

// Whether each of these values is live.
pub(crate) fn are_live<D: Dialects>(ctx: &Context<D>, values: &[Value<D>]) -> bool
    ensures { IsTrue result ↔ All (λ v. IsLiveNamed (forest_of ctx.now) (a_value (value_of v.index))) values.now }
{
    values.iter().all(|value| value.is_live(ctx))
}

// Whether each of these blocks is live.
pub(crate) fn are_live_blocks<D: Dialects>(ctx: &Context<D>, blocks: &[Ptr<BasicBlock<D>>]) -> bool
    ensures { IsTrue result ↔ All (λ b. IsLive (forest_of ctx.now) (a_block b.index)) blocks.now }
{
    blocks.iter().all(|block| block.is_live(ctx))
}

// Whether the operation, which stands in no block, may stand beside the live mark.
pub(crate) fn op_may_go_beside<D: Dialects>(
    ctx: &Context<D>,
    op: Ptr<Operation<D>>,
    mark: Ptr<Operation<D>>,
) -> bool
    requires live { IsLive (forest_of ctx.now) (an_op mark.index) }
    requires unlinked { ¬ IsLinked (forest_of ctx.now) (an_op op.index) }
    ensures { IsTrue result ↔ MayGoBeside (forest_of ctx.now) (an_op op.index) (an_op mark.index) }
{
    ctx.recall_well_formed();
    match mark.get_parent_block(ctx) {
        Some(block) => !is_inside(ctx, Entity::Block(block), Entity::Op(op)),
        None => false,
    }
}

// Whether the block, which stands in no region, may stand beside the live mark.
pub(crate) fn block_may_go_beside<D: Dialects>(
    ctx: &Context<D>,
    block: Ptr<BasicBlock<D>>,
    mark: Ptr<BasicBlock<D>>,
) -> bool
    requires live { IsLive (forest_of ctx.now) (a_block mark.index) }
    requires unlinked { ¬ IsLinked (forest_of ctx.now) (a_block block.index) }
    ensures { IsTrue result ↔ MayGoBeside (forest_of ctx.now) (a_block block.index) (a_block mark.index) }
{
    ctx.recall_well_formed();
    match mark.get_parent_region(ctx) {
        Some(region) => !is_inside(ctx, Entity::Region(region), Entity::Block(block)),
        None => false,
    }
}

// Whether the donor's list may be joined to the donee's.
pub(crate) fn may_join<D: Dialects>(ctx: &Context<D>, donee: Entity<D>, donor: Entity<D>) -> bool
    ensures { IsTrue result ↔ MayJoin (forest_of ctx.now) (meant donee) (meant donor) }
{
    ctx.recall_well_formed();
    !is_inside(ctx, donee, donor)
}

// How many results the live operation has.
fn num_results<D: Dialects>(ctx: &Context<D>, op: Ptr<Operation<D>>) -> usize
    requires { IsLive (forest_of ctx.now) (an_op op.index) }
    ensures { result ≡ length (definitions_of (forest_of ctx.now) (of_op op.index)) }
{
    op.deref(ctx).get_num_results()
}

// How many arguments the live block has.
fn num_arguments<D: Dialects>(ctx: &Context<D>, block: Ptr<BasicBlock<D>>) -> usize
    requires { IsLive (forest_of ctx.now) (a_block block.index) }
    ensures { result ≡ length (definitions_of (forest_of ctx.now) (of_block block.index)) }
{
    block.deref(ctx).get_num_arguments()
}

// Whether no operation names the result at the index.
pub(crate) fn is_unused_result<D: Dialects>(
    ctx: &Context<D>,
    op: Ptr<Operation<D>>,
    index: usize,
) -> bool
    requires live { IsLive (forest_of ctx.now) (an_op op.index) }
    requires within { index < length (definitions_of (forest_of ctx.now) (of_op op.index)) }
    ensures { IsTrue result ↔ UnusedAt (forest_of ctx.now) (of_op op.index) index }
{
    !op.deref(ctx).get_result(index).is_used(ctx)
}

// Whether no operation names the argument at the index.
pub(crate) fn is_unused_argument<D: Dialects>(
    ctx: &Context<D>,
    block: Ptr<BasicBlock<D>>,
    index: usize,
) -> bool
    requires live { IsLive (forest_of ctx.now) (a_block block.index) }
    requires within { index < length (definitions_of (forest_of ctx.now) (of_block block.index)) }
    ensures { IsTrue result ↔ UnusedAt (forest_of ctx.now) (of_block block.index) index }
{
    !block.deref(ctx).get_argument(index).is_used(ctx)
}

// Whether no operation names the last result.
pub(crate) fn is_unused_last_result<D: Dialects>(ctx: &Context<D>, op: Ptr<Operation<D>>) -> bool
    requires live { IsLive (forest_of ctx.now) (an_op op.index) }
    requires some { 0 < length (definitions_of (forest_of ctx.now) (of_op op.index)) }
    ensures { IsTrue result ↔ UnusedAt (forest_of ctx.now) (of_op op.index) (last_place (forest_of ctx.now) (of_op op.index)) }
{
    let count = num_results(ctx, op);
    is_unused_result(ctx, op, count - 1)
}

// Whether no operation names the last argument.
pub(crate) fn is_unused_last_argument<D: Dialects>(
    ctx: &Context<D>,
    block: Ptr<BasicBlock<D>>,
) -> bool
    requires live { IsLive (forest_of ctx.now) (a_block block.index) }
    requires some { 0 < length (definitions_of (forest_of ctx.now) (of_block block.index)) }
    ensures { IsTrue result ↔ UnusedAt (forest_of ctx.now) (of_block block.index) (last_place (forest_of ctx.now) (of_block block.index)) }
{
    let count = num_arguments(ctx, block);
    is_unused_argument(ctx, block, count - 1)
}

// Whether nothing outside the region at the index names what is defined inside it.
pub(crate) fn is_closed_region<D: Dialects>(
    ctx: &Context<D>,
    op: Ptr<Operation<D>>,
    index: usize,
) -> bool
    requires live { IsLive (forest_of ctx.now) (an_op op.index) }
    requires within { index < length (regions_of (forest_of ctx.now) op.index) }
    ensures { IsTrue result ↔ ClosedAt (forest_of ctx.now) op.index index }
{
    let region = op.deref(ctx).get_region(index);
    can_erase(ctx, Entity::Region(region))
}

// Whether both indices are one.
fn is_same_value(one: ValueIndex, other: ValueIndex) -> bool
    ensures { IsTrue result ↔ (one ≡ other) }
{
    one == other
}

// Whether both indices are one.
fn is_same_block(one: ArenaIndex, other: ArenaIndex) -> bool
    ensures { IsTrue result ↔ (one ≡ other) }
{
    one == other
}

// Whether the live use is one of the value.
pub(crate) fn is_use_of_value<D: Dialects>(
    ctx: &Context<D>,
    used: Use<Value<D>>,
    value: Value<D>,
) -> bool
    requires { IsLiveUse (forest_of ctx.now) (use_of used.index) }
    ensures { IsTrue result ↔ IsUse (forest_of ctx.now) (a_value (value_of value.index)) (use_of used.index) }
{
    ctx.recall_well_formed();
    is_same_value(used.get_def(ctx).index, value.index)
}

// Whether the live use is one of the block.
pub(crate) fn is_use_of_block<D: Dialects>(
    ctx: &Context<D>,
    used: Use<Ptr<BasicBlock<D>>>,
    block: Ptr<BasicBlock<D>>,
) -> bool
    requires { IsLiveBlockUse (forest_of ctx.now) (use_of used.index) }
    ensures { IsTrue result ↔ IsUse (forest_of ctx.now) (the_block block.index) (use_of used.index) }
{
    ctx.recall_well_formed();
    is_same_block(used.get_def(ctx).index, block.index)
}

// Whether the entity is live.
pub(crate) fn is_live<D: Dialects>(ctx: &Context<D>, entity: Entity<D>) -> bool
    ensures { IsTrue result ↔ IsLive (forest_of ctx.now) (meant entity) }
{
    match entity {
        Entity::Op(op) => op.is_live(ctx),
        Entity::Block(block) => block.is_live(ctx),
        Entity::Region(region) => region.is_live(ctx),
    }
}
