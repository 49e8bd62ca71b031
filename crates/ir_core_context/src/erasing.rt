//! How operations, blocks and regions go with all that stands inside them, and how what is inside them comes to use nothing.
//!
//! None of it takes memory or recurses, however deep the nesting.

ghost use Rattle.std.specs.Prelude.{◌≡◌, ◌+◌, ℕ, slice_get};
ghost use Rattle.ir_model.specs.Changes.{DropsUses, Removes};
ghost use Rattle.ir_model.specs.Edits.{The};
ghost use Rattle.ir_model.specs.Forest.{a_region, an_op};
ghost use Rattle.ir_model.specs.Nesting.{IsClosed, IsLive, regions_of};
ghost use Rattle.ir_core_records.specs.Meaning.{entity_of};
ghost use Rattle.ir_core_context.specs.Calls.{KeepsAll, SameButForest};
ghost use Rattle.ir_core_context.specs.State.{bare, forest_of};
ghost use Rattle.ir_core_context.specs.Definitions.{ClosedAt};
ghost use Rattle.ir_core_context.specs.Removals.{RemovesEachOnce};

use crate::context::Context;
use ir_base_dialects::{Dialects, Ptr};
use ir_core_erasing::{drop_all_uses, erase};
use ir_core_records::{BasicBlock, EntityIndex, Operation, Region};

/// How what stands inside a live operation, block or region comes to use nothing.
pub trait DropUses<D: Dialects> {
    ghost use Rattle.ir_model.specs.ContextIds.{context_ids};
    ghost use Rattle.ir_model.specs.Forest.{Entity};

    ghost entity_at: { Self → Entity context_ids };

    /// Takes the operands and successors of all operations inside out, also its own. It stands for pliron's `drop_all_uses`.
    fn drop_all_uses(self, ctx: &mut Context<D>)
        requires { IsLive (forest_of ctx.old) (entity_at self) }
        ensures forest { DropsUses (forest_of ctx.old) (entity_at self) (forest_of ctx.new) }
        ensures rest { SameButForest (bare ctx.old) (bare ctx.new) }
        ensures keeps { KeepsAll ctx.old ctx.new };
}

/// How a live operation or block goes.
pub trait Erase<D: Dialects> {
    ghost use Rattle.ir_model.specs.ContextIds.{context_ids};
    ghost use Rattle.ir_model.specs.Forest.{Entity};

    ghost entity_at: { Self → Entity context_ids };

    /// Erases it with all that stands inside it. Nothing outside names a definition of its subtree, which `can_erase` tests. Each entity of the subtree is removed once. It stands for pliron's `erase`.
    fn erase(self, ctx: &mut Context<D>)
        requires live { IsLive (forest_of ctx.old) (entity_at self) }
        requires closed { IsClosed (forest_of ctx.old) (entity_at self) }
        ensures forest { Removes (forest_of ctx.old) (entity_at self) (forest_of ctx.new) }
        ensures once { RemovesEachOnce ctx.old ctx.new (entity_at self) }
        ensures rest { SameButForest (bare ctx.old) (bare ctx.new) };
}

/// How a region of a live operation goes.
pub trait EraseRegion<D: Dialects> {
    ghost use Rattle.ir_model.specs.declared.ids.ArenaIndex.{ArenaIndex};

    ghost index_of: { Self → ArenaIndex };

    /// Erases the region at the index, below their number, with all that stands inside it; those behind it move up. Nothing outside names a definition of its subtree, which `can_erase` tests. Each entity of the subtree is removed once. It stands for pliron's `Operation::erase_region`.
    fn erase_region(self, ctx: &mut Context<D>, index: usize)
        requires live { IsLive (forest_of ctx.old) (an_op (index_of self)) }
        requires closed { ClosedAt (forest_of ctx.old) (index_of self) index }
        ensures forest { The (slice_get (regions_of (forest_of ctx.old) (index_of self)) index) (λ g. Removes (forest_of ctx.old) (a_region g) (forest_of ctx.new)) }
        ensures once { The (slice_get (regions_of (forest_of ctx.old) (index_of self)) index) (λ g. RemovesEachOnce ctx.old ctx.new (a_region g)) }
        ensures rest { SameButForest (bare ctx.old) (bare ctx.new) };
}

// Takes the operands and successors of all operations inside a live entity out.
fn drop_uses_inside<D: Dialects>(ctx: &mut Context<D>, entity: EntityIndex)
    requires { IsLive (forest_of ctx.old) (entity_of entity) }
    ensures forest { DropsUses (forest_of ctx.old) (entity_of entity) (forest_of ctx.new) }
    ensures rest { SameButForest (bare ctx.old) (bare ctx.new) }
    ensures keeps { KeepsAll ctx.old ctx.new }
{
    drop_all_uses(&mut ctx.records, entity);
}

// Erases a live entity, nothing inside which is named from outside.
fn erase_whole<D: Dialects>(ctx: &mut Context<D>, entity: EntityIndex)
    requires live { IsLive (forest_of ctx.old) (entity_of entity) }
    requires closed { IsClosed (forest_of ctx.old) (entity_of entity) }
    ensures forest { Removes (forest_of ctx.old) (entity_of entity) (forest_of ctx.new) }
    ensures once { RemovesEachOnce ctx.old ctx.new (entity_of entity) }
    ensures rest { SameButForest (bare ctx.old) (bare ctx.new) }
{
    erase(&mut ctx.records, entity);
}

impl<D: Dialects> DropUses<D> for Ptr<Operation<D>> {
    ghost use Rattle.ir_model.specs.Forest.{an_op};

    ghost entity_at = { λ p. an_op p.index };

    fn drop_all_uses(self, ctx: &mut Context<D>) {
        drop_uses_inside(ctx, EntityIndex::Op(self.index));
    }
}

impl<D: Dialects> DropUses<D> for Ptr<BasicBlock<D>> {
    ghost use Rattle.ir_model.specs.Forest.{a_block};

    ghost entity_at = { λ p. a_block p.index };

    fn drop_all_uses(self, ctx: &mut Context<D>) {
        drop_uses_inside(ctx, EntityIndex::Block(self.index));
    }
}

impl<D: Dialects> DropUses<D> for Ptr<Region> {
    ghost use Rattle.ir_model.specs.Forest.{a_region};

    ghost entity_at = { λ p. a_region p.index };

    fn drop_all_uses(self, ctx: &mut Context<D>) {
        drop_uses_inside(ctx, EntityIndex::Region(self.index));
    }
}

impl<D: Dialects> Erase<D> for Ptr<Operation<D>> {
    ghost use Rattle.ir_model.specs.Forest.{an_op};

    ghost entity_at = { λ p. an_op p.index };

    fn erase(self, ctx: &mut Context<D>) {
        erase_whole(ctx, EntityIndex::Op(self.index));
    }
}

impl<D: Dialects> Erase<D> for Ptr<BasicBlock<D>> {
    ghost use Rattle.ir_model.specs.Forest.{a_block};

    ghost entity_at = { λ p. a_block p.index };

    fn erase(self, ctx: &mut Context<D>) {
        erase_whole(ctx, EntityIndex::Block(self.index));
    }
}

impl<D: Dialects> EraseRegion<D> for Ptr<Operation<D>> {
    ghost index_of = { λ p. p.index };

    fn erase_region(self, ctx: &mut Context<D>, index: usize) {
        ctx.recall_well_formed();
        let region = ctx.records.ops.at(self).get_region(index);
        erase_whole(ctx, EntityIndex::Region(region.index));
    }
}
