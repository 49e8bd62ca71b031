//! Where a value stands.

ghost use Rattle.std.specs.Prelude.{IfSome};
ghost use Rattle.std.specs.Option.{option_map};
ghost use Rattle.ir_model.specs.Forest.{a_block, a_region, a_value};
ghost use Rattle.ir_model.specs.Nesting.{IsLive, IsLiveNamed};
ghost use Rattle.ir_model.specs.ValueParents.{IsParentBlock, IsParentRegion};
ghost use Rattle.ir_core_records.specs.Meaning.{value_of};
ghost use Rattle.ir_core_context.specs.State.{forest_of};

use crate::block::BlockPlace;
use crate::operation::OperationPlace;
use ir_base_dialects::{Dialects, Ptr};
use ir_core_context::Context;
use ir_core_records::{BasicBlock, DefiningEntity, Region, Value};

/// Where a value stands. It stands for pliron's calls of `Value`.
pub trait ValuePlace<D: Dialects> {
    ghost use Rattle.ir_core_records.specs.declared.record.ValueIndex.{ValueIndex};

    ghost index_of: { Self → ValueIndex };

    /// The block of a live argument, or the block that the operation of a live result stands in, if it stands in one. It stands for pliron's `Value::get_parent_block`.
    fn get_parent_block(self, ctx: &Context<D>) -> Option<Ptr<BasicBlock<D>>>
        requires { IsLiveNamed (forest_of ctx.now) (a_value (value_of (index_of self))) }
        ensures parent { IsParentBlock (forest_of ctx.now) (value_of (index_of self)) (option_map (λ p. p.index) result) }
        ensures live { IfSome result (λ p. IsLive (forest_of ctx.now) (a_block p.index)) };

    /// The region that the block of a live value stands in, if there is one. It stands for pliron's `Value::get_parent_region`.
    fn get_parent_region(self, ctx: &Context<D>) -> Option<Ptr<Region>>
        requires { IsLiveNamed (forest_of ctx.now) (a_value (value_of (index_of self))) }
        ensures parent { IsParentRegion (forest_of ctx.now) (value_of (index_of self)) (option_map (λ p. p.index) result) }
        ensures live { IfSome result (λ p. IsLive (forest_of ctx.now) (a_region p.index)) };
}

impl<D: Dialects> ValuePlace<D> for Value<D> {
    ghost index_of = { λ v. v.index };

    fn get_parent_block(self, ctx: &Context<D>) -> Option<Ptr<BasicBlock<D>>> {
        ctx.recall_well_formed();
        match self.defining_entity() {
            DefiningEntity::Op(op) => op.get_parent_block(ctx),
            DefiningEntity::Block(block) => Some(block),
        }
    }

    fn get_parent_region(self, ctx: &Context<D>) -> Option<Ptr<Region>> {
        ctx.recall_well_formed();
        self.get_parent_block(ctx)?.get_parent_region(ctx)
    }
}
