//! What a context tells of the handle of a region.

ghost use Rattle.std.specs.Prelude.{◌↔◌, Some, IsTrue, IfOk, IsErr};
ghost use Rattle.ir_model.specs.Forest.{a_region, an_op};
ghost use Rattle.ir_model.specs.Nesting.{IsLive};
ghost use Rattle.ir_model.specs.Parent.{IsParent};
ghost use Rattle.ir_core_context.specs.State.{forest_of};

use crate::context::Context;
use crate::error::DanglingPtrDerefError;
use ir_base_dialects::{Dialects, Ptr};
use ir_core_records::{Operation, Region};

/// What can be asked of the handle of a region. It stands for pliron's calls of `Ptr<Region>`.
pub trait RegionPtr<D: Dialects> {
    ghost use Rattle.ir_model.specs.declared.ids.ArenaIndex.{ArenaIndex};
    ghost use Rattle.ir_core_context.specs.Calls.{IsRegion};

    ghost index_of: { Self → ArenaIndex };

    /// Whether the region is live.
    fn is_live(self, ctx: &Context<D>) -> bool
        ensures { IsTrue result ↔ IsLive (forest_of ctx.now) (a_region (index_of self)) };

    /// The region under a live handle. The operation that it belongs to is live.
    fn deref(self, ctx: &Context<D>) -> &Region
        requires { IsLive (forest_of ctx.now) (a_region (index_of self)) }
        ensures { IsRegion (forest_of ctx.now) (index_of self) result.now };

    /// The region under a handle. The operation that it belongs to is live.
    ///
    /// # Errors
    /// `DanglingPtrDerefError` where it isn't live.
    fn try_deref(self, ctx: &Context<D>) -> Result<&Region, DanglingPtrDerefError>
        ensures found { IfOk result (λ region. IsRegion (forest_of ctx.now) (index_of self) region.now) }
        ensures dangling { IsErr result ↔ (IsLive (forest_of ctx.now) (a_region (index_of self)) → ⊥) };

    /// The operation that a live region belongs to. It stands for pliron's `Region::get_parent_op`.
    fn get_parent_op(self, ctx: &Context<D>) -> Ptr<Operation<D>>
        requires { IsLive (forest_of ctx.now) (a_region (index_of self)) }
        ensures parent { IsParent (forest_of ctx.now) (a_region (index_of self)) (Some (an_op result.index)) }
        ensures live { IsLive (forest_of ctx.now) (an_op result.index) };
}

impl<D: Dialects> RegionPtr<D> for Ptr<Region> {
    ghost index_of = { λ p. p.index };

    #[inline(always)]
    fn is_live(self, ctx: &Context<D>) -> bool {
        ctx.records.regions.is_live(self)
    }

    fn deref(self, ctx: &Context<D>) -> &Region {
        ctx.records.regions.at(self)
    }

    fn try_deref(self, ctx: &Context<D>) -> Result<&Region, DanglingPtrDerefError> {
        ctx.records.regions.get(self).ok_or(DanglingPtrDerefError)
    }

    #[inline(always)]
    fn get_parent_op(self, ctx: &Context<D>) -> Ptr<Operation<D>> {
        Ptr::from_index(ctx.records.regions.at(self).parent)
    }
}
