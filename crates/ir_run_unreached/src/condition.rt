//! Whether unreached blocks can be removed: whether whatever names a definition inside one is inside one.
//!
//! The blocks inside unreached ones are marked first. Then each kept use of what is defined inside is asked once: its user is inside where the block that it stands in is marked.

ghost use Rattle.std.specs.Prelude.{◌≡◌, ◌↔◌, All, IfErr, IfOk, IsTrue, OnOk, map};
ghost use Rattle.ir_model.specs.declared.error.CoreError.TheVariants.{OutOfMemory};
ghost use Rattle.ir_model.specs.declared.ids.ArenaIndex.{ArenaIndex};
ghost use Rattle.ir_model.specs.ContextIds.{context_ids};
ghost use Rattle.ir_model.specs.Forest.{a_block, a_region, a_value, an_op, Entity as PlainEntity};
ghost use Rattle.ir_model.specs.Nesting.{In, Inside, IsLive, IsLiveNamed};
ghost use Rattle.ir_model_passes.specs.Unreached.{NamesStayInside};
ghost use Rattle.ir_core_queries.specs.Entities.{meant};
ghost use Rattle.ir_core_queries.specs.State.{forest_of};
ghost use Rattle.ir_core_records.specs.Meaning.{value_of};
ghost use Rattle.ir_run_unreached.specs.Marks.{Adds};
ghost use Rattle.ir_run_unreached.specs.Kept.{IsInsideOne, KeepsNamed, KeepsOwn, StandsInMarked};

use crate::reached::unreached_blocks;
use ir_base_dialects::{ArenaIndex, CoreError, Dialects, Ptr, UniqueStore};
use ir_core_queries::{
    BasicBlock, BlockPtr, Context, Entity, Operation, OperationPlace, OperationPtr, Region, Value,
    kept_uses,
};
use ir_core_records::{KeptUse, uses};
use ir_view::walk::inside;

// Marks an entity that is a block.
fn mark_block<D: Dialects>(
    entity: Entity<D>,
    marked: &mut UniqueStore<ArenaIndex>,
) -> Result<(), CoreError>
    ensures marks { OnOk result (Adds (λ c. a_block c ≡ meant entity) marked.old marked.new) }
    ensures memory { IfErr result (λ e. e ≡ OutOfMemory) }
{
    match entity {
        Entity::Block(block) => {
            marked.get_or_create_unique(block.index)?;
            Ok(())
        }
        Entity::Op(_) => Ok(()),
        Entity::Region(_) => Ok(()),
    }
}

// Marks the blocks inside a live block, itself among them.
fn mark_inside<D: Dialects>(
    ctx: &Context<D>,
    block: Ptr<BasicBlock<D>>,
    marked: &mut UniqueStore<ArenaIndex>,
) -> Result<(), CoreError>
    requires { IsLive (forest_of ctx.now) (a_block block.index) }
    ensures marks { OnOk result (Adds (λ c. Inside (forest_of ctx.now) (a_block block.index) (a_block c)) marked.old marked.new) }
    ensures memory { IfErr result (λ e. e ≡ OutOfMemory) }
{
    for entity in inside(ctx, Entity::Block(block)) {
        mark_block(entity, marked)?;
    }
    Ok(())
}

// The blocks inside these live blocks, themselves among them, each once.
fn all_blocks_inside<D: Dialects>(
    ctx: &Context<D>,
    blocks: &[Ptr<BasicBlock<D>>],
) -> Result<UniqueStore<ArenaIndex>, CoreError>
    requires { All (λ p. IsLive (forest_of ctx.now) (a_block p.index)) blocks.now }
    ensures marks { IfOk result (λ marked. (c : ArenaIndex) → In c marked ↔ IsInsideOne (forest_of ctx.now) (map (λ p. p.index) blocks.now) (a_block c)) }
    ensures memory { IfErr result (λ e. e ≡ OutOfMemory) }
{
    let mut marked = UniqueStore::new(ctx.alloc());
    for block in blocks {
        mark_inside(ctx, *block, &mut marked)?;
    }
    Ok(marked)
}

// Whether a live operation stands in a marked block.
fn stands_in_marked<D: Dialects>(
    ctx: &Context<D>,
    marked: &UniqueStore<ArenaIndex>,
    op: Ptr<Operation<D>>,
) -> bool
    requires { IsLive (forest_of ctx.now) (an_op op.index) }
    ensures { IsTrue result ↔ StandsInMarked (forest_of ctx.now) marked.now op.index }
{
    ctx.recall_well_formed();
    match op.get_parent_block(ctx) {
        Some(block) => marked.get(&block.index).is_some(),
        None => false,
    }
}

// Whether the users of these uses, all of them live, stand in marked blocks.
fn are_users_marked<D: Dialects>(
    ctx: &Context<D>,
    marked: &UniqueStore<ArenaIndex>,
    uses: &[KeptUse],
) -> bool
    requires { All (λ u. IsLive (forest_of ctx.now) (an_op u.user)) uses.now }
    ensures { IsTrue result ↔ All (λ u. StandsInMarked (forest_of ctx.now) marked.now u.user) uses.now }
{
    for used in uses {
        if !stands_in_marked(ctx, marked, Ptr::from_index(used.user())) {
            return false;
        }
    }
    true
}

// Whether whatever names a live value stands in marked blocks.
fn keeps_value<D: Dialects>(
    ctx: &Context<D>,
    marked: &UniqueStore<ArenaIndex>,
    value: Value<D>,
) -> bool
    requires { IsLiveNamed (forest_of ctx.now) (a_value (value_of value.index)) }
    ensures { IsTrue result ↔ KeepsNamed (forest_of ctx.now) marked.now (a_value (value_of value.index)) }
{
    ctx.recall_uses_exact();
    are_users_marked(ctx, marked, uses(ctx.records(), value.index).as_slice())
}

// Whether whatever names a result of a live operation stands in marked blocks.
fn keeps_results<D: Dialects>(
    ctx: &Context<D>,
    marked: &UniqueStore<ArenaIndex>,
    op: Ptr<Operation<D>>,
) -> bool
    requires { IsLive (forest_of ctx.now) (an_op op.index) }
    ensures { IsTrue result ↔ KeepsOwn (forest_of ctx.now) marked.now (an_op op.index) }
{
    ctx.recall_well_formed();
    let operation = op.deref(ctx);
    for place in 0..operation.get_num_results() {
        if !keeps_value(ctx, marked, operation.get_result(place)) {
            return false;
        }
    }
    true
}

// Whether whatever names a live block or an argument of it stands in marked blocks.
fn keeps_block<D: Dialects>(
    ctx: &Context<D>,
    marked: &UniqueStore<ArenaIndex>,
    block: Ptr<BasicBlock<D>>,
) -> bool
    requires { IsLive (forest_of ctx.now) (a_block block.index) }
    ensures { IsTrue result ↔ KeepsOwn (forest_of ctx.now) marked.now (a_block block.index) }
{
    ctx.recall_well_formed();
    if !are_users_marked(ctx, marked, kept_uses(ctx, block)) {
        return false;
    }
    let of = block.deref(ctx);
    for place in 0..of.get_num_arguments() {
        if !keeps_value(ctx, marked, of.get_argument(place)) {
            return false;
        }
    }
    true
}

// Whether whatever names what a live entity itself defines stands in marked blocks.
fn keeps_names<D: Dialects>(
    ctx: &Context<D>,
    marked: &UniqueStore<ArenaIndex>,
    entity: Entity<D>,
) -> bool
    requires { IsLive (forest_of ctx.now) (meant entity) }
    ensures { IsTrue result ↔ KeepsOwn (forest_of ctx.now) marked.now (meant entity) }
{
    match entity {
        Entity::Op(op) => keeps_results(ctx, marked, op),
        Entity::Block(block) => keeps_block(ctx, marked, block),
        Entity::Region(_) => true,
    }
}

// Whether whatever names what is defined inside a live block stands in marked blocks.
fn keeps_all_inside<D: Dialects>(
    ctx: &Context<D>,
    marked: &UniqueStore<ArenaIndex>,
    block: Ptr<BasicBlock<D>>,
) -> bool
    requires { IsLive (forest_of ctx.now) (a_block block.index) }
    ensures { IsTrue result ↔ ((x : PlainEntity context_ids) → Inside (forest_of ctx.now) (a_block block.index) x → KeepsOwn (forest_of ctx.now) marked.now x) }
{
    ctx.recall_well_formed();
    for entity in inside(ctx, Entity::Block(block)) {
        if !keeps_names(ctx, marked, entity) {
            return false;
        }
    }
    true
}

// Whether whatever names what is defined inside these live blocks stands in marked blocks.
fn keeps_each<D: Dialects>(
    ctx: &Context<D>,
    marked: &UniqueStore<ArenaIndex>,
    blocks: &[Ptr<BasicBlock<D>>],
) -> bool
    requires { All (λ p. IsLive (forest_of ctx.now) (a_block p.index)) blocks.now }
    ensures { IsTrue result ↔ ((b : ArenaIndex) → In b (map (λ p. p.index) blocks.now) → (x : PlainEntity context_ids) → Inside (forest_of ctx.now) (a_block b) x → KeepsOwn (forest_of ctx.now) marked.now x) }
{
    for block in blocks {
        if !keeps_all_inside(ctx, marked, *block) {
            return false;
        }
    }
    true
}

/// Whether the unreached blocks of a live region can be removed: whether whatever names a definition inside one is inside one. It tests what `remove_unreached` asks for.
///
/// It looks at each block, operation and successor of the region once, and then at what is inside unreached blocks twice and at each use of it once.
///
/// # Errors
/// `OutOfMemory`. It takes memory for a mark of each block of the region and of each block inside unreached ones.
pub fn can_remove_unreached<D: Dialects>(
    region: Ptr<Region>,
    ctx: &Context<D>,
) -> Result<bool, CoreError>
    requires { IsLive (forest_of ctx.now) (a_region region.index) }
    ensures exact { IfOk result (λ can. IsTrue can ↔ NamesStayInside (forest_of ctx.now) region.index) }
    ensures memory { IfErr result (λ e. e ≡ OutOfMemory) }
{
    ctx.recall_well_formed();
    let blocks = unreached_blocks(ctx, region)?;
    let listed = blocks.as_slice();
    let marked = all_blocks_inside(ctx, listed)?;
    Ok(keeps_each(ctx, &marked, listed))
}
