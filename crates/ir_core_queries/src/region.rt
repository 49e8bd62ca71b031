//! Where a region stands, and the list of its blocks.

ghost use Rattle.std.specs.Prelude.{◌≡◌, All, IfSome, position, slice_get, Some};
ghost use Rattle.std.specs.Option.{option_map};
ghost use Rattle.ir_model.specs.Forest.{a_block, a_region};
ghost use Rattle.ir_model.specs.Kinds.{IsDominance};
ghost use Rattle.ir_model.specs.Nesting.{blocks_of, In, IsLive};
ghost use Rattle.ir_model.specs.ContextIds.{same_id};
ghost use Rattle.ir_model.specs.Parent.{first_of, IsIndex, last_of};
ghost use Rattle.ir_core_context.specs.State.{forest_of};
ghost use Rattle.ir_core_queries.specs.Above.{IsAbove};
ghost use Rattle.ir_core_records.specs.DialectAnswers.{behaviour_of, kinds_of};

use crate::links::{handle, region};
use crate::operation::OperationPlace;
use ir_base_dialects::interfaces::REGION_KIND;
use ir_base_dialects::{ArenaIndex, Dialects, Iter, Ptr, linked_list};
use ir_core_context::{Context, OperationPtr, RegionPtr};
use ir_core_records::{BasicBlock, Region};

// Where an item stands first in a list, if it stands there.
fn find_item(items: &[ArenaIndex], item: ArenaIndex) -> Option<usize>
    ensures { result ≡ position (λ x. same_id x item) items.now }
{
    items.iter().position(|x| *x == item)
}

// Where an item of a list stands: at the likely place, or else where it stands first.
fn index_of_item(items: &[ArenaIndex], item: ArenaIndex, likely: usize) -> usize
    requires { In item items.now }
    ensures { slice_get items.now result ≡ Some item }
{
    if likely < items.len() && items[likely] == item {
        return likely;
    }
    match find_item(items, item) {
        Some(index) => index,
        None => unreachable!(),
    }
}

/// Where a region stands, and the list of its blocks. It stands for pliron's calls of `Region`, and of `ContainsLinkedList` on `Ptr<Region>`. The operation that a region belongs to is told by `RegionPtr::get_parent_op`.
pub trait RegionPlace<D: Dialects> {
    ghost use Rattle.ir_model.specs.declared.ids.ArenaIndex.{ArenaIndex};

    ghost index_of: { Self → ArenaIndex };

    /// The block that the operation of the live region stands in, if there is one. It stands for pliron's `Region::get_parent_block`.
    fn get_parent_block(self, ctx: &Context<D>) -> Option<Ptr<BasicBlock<D>>>
        requires { IsLive (forest_of ctx.now) (a_region (index_of self)) }
        ensures above { IsAbove (forest_of ctx.now) 2 (a_region (index_of self)) (option_map (λ p. a_block p.index) result) }
        ensures live { IfSome result (λ p. IsLive (forest_of ctx.now) (a_block p.index)) };

    /// The region that the operation of the live region stands in, if there is one. It stands for pliron's `Region::get_parent_region`.
    fn get_parent_region(self, ctx: &Context<D>) -> Option<Ptr<Region>>
        requires { IsLive (forest_of ctx.now) (a_region (index_of self)) }
        ensures above { IsAbove (forest_of ctx.now) 3 (a_region (index_of self)) (option_map (λ p. a_region p.index) result) }
        ensures live { IfSome result (λ p. IsLive (forest_of ctx.now) (a_region p.index)) };

    /// The entry of the live region: its first block, if it has one. It stands for pliron's `Region::get_entry_block`.
    fn get_entry_block(self, ctx: &Context<D>) -> Option<Ptr<BasicBlock<D>>>
        requires { IsLive (forest_of ctx.now) (a_region (index_of self)) }
        ensures first { option_map (λ p. p.index) result ≡ first_of (blocks_of (forest_of ctx.now) (index_of self)) }
        ensures live { IfSome result (λ p. IsLive (forest_of ctx.now) (a_block p.index)) };

    /// The first block of the live region, if it has one. It stands for pliron's `get_head`.
    fn get_head(self, ctx: &Context<D>) -> Option<Ptr<BasicBlock<D>>>
        requires { IsLive (forest_of ctx.now) (a_region (index_of self)) }
        ensures first { option_map (λ p. p.index) result ≡ first_of (blocks_of (forest_of ctx.now) (index_of self)) }
        ensures live { IfSome result (λ p. IsLive (forest_of ctx.now) (a_block p.index)) };

    /// The last block of the live region, if it has one. It stands for pliron's `get_tail`.
    fn get_tail(self, ctx: &Context<D>) -> Option<Ptr<BasicBlock<D>>>
        requires { IsLive (forest_of ctx.now) (a_region (index_of self)) }
        ensures last { option_map (λ p. p.index) result ≡ last_of (blocks_of (forest_of ctx.now) (index_of self)) }
        ensures live { IfSome result (λ p. IsLive (forest_of ctx.now) (a_block p.index)) };

    /// The blocks of the live region in order, walked from both ends. It stands for pliron's `iter`.
    fn iter(self, ctx: &Context<D>) -> Iter<'_, BasicBlock<D>>
        requires { IsLive (forest_of ctx.now) (a_region (index_of self)) }
        ensures items { result ≡ blocks_of (forest_of ctx.now) (index_of self) }
        ensures live { All (λ b. IsLive (forest_of ctx.now) (a_block b)) result };

    /// Where the live region stands among the regions of its operation, counted from 0. It stands for pliron's `Region::find_index_in_parent`.
    fn find_index_in_parent(self, ctx: &Context<D>) -> usize
        requires { IsLive (forest_of ctx.now) (a_region (index_of self)) }
        ensures { IsIndex (forest_of ctx.now) (a_region (index_of self)) result };

    /// Whether the live region has SSA dominance: yes where the kind of its operation doesn't implement `REGION_KIND`, and else what the dialect answers for that kind and the region's index. It stands for pliron's `Region::has_ssa_dominance`.
    fn has_ssa_dominance(self, ctx: &Context<D>) -> bool
        requires { IsLive (forest_of ctx.now) (a_region (index_of self)) }
        ensures { IsDominance (behaviour_of D.Dialects D.TypeKey.eq) (kinds_of D.Dialects D.Saved.eq) (forest_of ctx.now) (index_of self) result };
}

impl<D: Dialects> RegionPlace<D> for Ptr<Region> {
    ghost index_of = { λ p. p.index };

    fn get_parent_block(self, ctx: &Context<D>) -> Option<Ptr<BasicBlock<D>>> {
        ctx.recall_well_formed();
        self.get_parent_op(ctx).get_parent_block(ctx)
    }

    fn get_parent_region(self, ctx: &Context<D>) -> Option<Ptr<Region>> {
        ctx.recall_well_formed();
        self.get_parent_op(ctx).get_parent_region(ctx)
    }

    fn get_entry_block(self, ctx: &Context<D>) -> Option<Ptr<BasicBlock<D>>> {
        self.get_head(ctx)
    }

    fn get_head(self, ctx: &Context<D>) -> Option<Ptr<BasicBlock<D>>> {
        handle(region(ctx, self).first)
    }

    fn get_tail(self, ctx: &Context<D>) -> Option<Ptr<BasicBlock<D>>> {
        handle(region(ctx, self).last)
    }

    fn iter(self, ctx: &Context<D>) -> Iter<'_, BasicBlock<D>> {
        ctx.recall_well_formed();
        ctx.recall_holds_together();
        let records = ctx.records();
        linked_list::iter(&records.blocks, &records.regions, self)
    }

    fn find_index_in_parent(self, ctx: &Context<D>) -> usize {
        let op = ctx.records().ops.at(self.get_parent_op(ctx));
        let likely = region(ctx, self).place;
        index_of_item(op.regions.as_slice(), self.index(), likely)
    }

    fn has_ssa_dominance(self, ctx: &Context<D>) -> bool {
        ctx.recall_well_formed();
        let kind = self.get_parent_op(ctx).deref(ctx).kind();
        if D::op_impls(kind, REGION_KIND) {
            D::region_ssa_dominance(kind, self.find_index_in_parent(ctx))
        } else {
            true
        }
    }
}
