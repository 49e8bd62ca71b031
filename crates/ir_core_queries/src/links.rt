//! The records of live operations, blocks and regions, and what their links and ends say of the forest.

ghost use Rattle.std.specs.Prelude.{◌≡◌};
ghost use Rattle.std.specs.Option.{option_map};
ghost use Rattle.ir_model.specs.Forest.{a_block, a_region, an_op};
ghost use Rattle.ir_model.specs.Nesting.{blocks_of, IsLive, ops_of};
ghost use Rattle.ir_core_records.specs.Tree.{block_ends, block_links, op_links, region_ends};
ghost use Rattle.ir_core_context.specs.State.{forest_of};
ghost use Rattle.ir_core_queries.specs.Neighbours.{EndsTell, LinksTell};

use ir_base_arenas::Link;
use ir_base_dialects::list_laws::links_are_neighbours;
use ir_base_dialects::{Dialects, Ptr};
use ir_core_context::Context;
use ir_core_records::{BasicBlock, Operation, Region};

// The handle of what a link names.
pub(crate) fn handle<T>(link: Link) -> Option<Ptr<T>>
    ensures { option_map (λ p. p.index) result ≡ link }
{
    match link.get() {
        Some(index) => Some(Ptr::from_index(index)),
        None => None,
    }
}

// The record of a live operation: its links tell where it stands.
pub(crate) fn operation<D: Dialects>(ctx: &Context<D>, op: Ptr<Operation<D>>) -> &Operation<D>
    requires { IsLive (forest_of ctx.now) (an_op op.index) }
    ensures { LinksTell (forest_of ctx.now) an_op a_block op.index (op_links result.now) }
{
    links_are_neighbours::<Operation<D>, BasicBlock<D>>();
    ctx.recall_well_formed();
    ctx.recall_holds_together();
    ctx.records().ops.at(op)
}

// The record of a live block: its links tell where it stands, and its ends what stands in it.
pub(crate) fn block<D: Dialects>(ctx: &Context<D>, block: Ptr<BasicBlock<D>>) -> &BasicBlock<D>
    requires { IsLive (forest_of ctx.now) (a_block block.index) }
    ensures links { LinksTell (forest_of ctx.now) a_block a_region block.index (block_links result.now) }
    ensures ends { EndsTell (forest_of ctx.now) an_op (ops_of (forest_of ctx.now) block.index) (block_ends result.now) }
{
    links_are_neighbours::<BasicBlock<D>, Region>();
    ctx.recall_well_formed();
    ctx.recall_holds_together();
    ctx.records().blocks.at(block)
}

// The record of a live region: its ends tell what stands in it.
pub(crate) fn region<D: Dialects>(ctx: &Context<D>, region: Ptr<Region>) -> &Region
    requires { IsLive (forest_of ctx.now) (a_region region.index) }
    ensures { EndsTell (forest_of ctx.now) a_block (blocks_of (forest_of ctx.now) region.index) (region_ends result.now) }
{
    ctx.recall_well_formed();
    ctx.recall_holds_together();
    ctx.records().regions.at(region)
}
