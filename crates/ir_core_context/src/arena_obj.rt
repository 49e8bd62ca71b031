//! The arenas of a context, and the handles that its records are under.

ghost use Rattle.std.specs.Prelude.{◌≡◌, ◌↔◌, IfSome};
ghost use Rattle.ir_model.specs.Forest.{a_block, a_region, an_op};
ghost use Rattle.ir_model.specs.Nesting.{IsLive};
ghost use Rattle.ir_base_arenas.specs.Arena.{get, IsLiveIn};
ghost use Rattle.ir_core_context.specs.State.{forest_of};

use crate::context::Context;
use ir_base_dialects::{Arena, Dialects, Ptr};
use ir_core_records::{BasicBlock, Operation, Region};

/// What an arena of a context has: operations, blocks and regions. It stands for pliron's `ArenaObj`.
pub trait ArenaObj<D: Dialects> {
    ghost use Rattle.ir_model.specs.declared.ids.ArenaIndex.{ArenaIndex};
    ghost use Rattle.ir_model.specs.ContextIds.{context_ids};
    ghost use Rattle.ir_model.specs.Forest.{Entity, Forest};
    ghost use Rattle.ir_core_records.specs.Meaning.{closed};

    ghost entity_at: { ArenaIndex → Entity context_ids };

    ghost own_index: { Self → ArenaIndex };

    ghost stands: { Forest context_ids (closed D.Attr D.TypeKey D.TypeBody D.Saved D.Aux D.Loc) → ArenaIndex → Self → Type 0 };

    /// The arena that has all objects of this type. What is live is live in it, and each object in it is what `deref` lends.
    fn get_arena(ctx: &Context<D>) -> &Arena<Self>
        ensures live { (i : ArenaIndex) → IsLiveIn result.now i ↔ IsLive (forest_of ctx.now) (entity_at i) }
        ensures objects { (i : ArenaIndex) → IfSome (get result.now i) (λ object. stands (forest_of ctx.now) i object) };

    /// The object's own handle.
    fn get_self_ptr(&self, ctx: &Context<D>) -> Ptr<Self>
        ensures { result.index ≡ own_index self.now };
}

impl<D: Dialects> ArenaObj<D> for Operation<D> {
    ghost use Rattle.ir_core_records.specs.Meaning.{op_index};
    ghost use Rattle.ir_core_context.specs.Calls.{IsOperation};

    ghost entity_at = { an_op };

    ghost own_index = { op_index };

    ghost stands = { IsOperation };

    fn get_arena(ctx: &Context<D>) -> &Arena<Operation<D>> {
        &ctx.records.ops
    }

    fn get_self_ptr(&self, _ctx: &Context<D>) -> Ptr<Operation<D>> {
        Ptr::from_index(self.index)
    }
}

impl<D: Dialects> ArenaObj<D> for BasicBlock<D> {
    ghost use Rattle.ir_core_records.specs.Meaning.{block_index};
    ghost use Rattle.ir_core_context.specs.Calls.{IsBlock};

    ghost entity_at = { a_block };

    ghost own_index = { block_index };

    ghost stands = { IsBlock };

    fn get_arena(ctx: &Context<D>) -> &Arena<BasicBlock<D>> {
        &ctx.records.blocks
    }

    fn get_self_ptr(&self, _ctx: &Context<D>) -> Ptr<BasicBlock<D>> {
        Ptr::from_index(self.index)
    }
}

impl<D: Dialects> ArenaObj<D> for Region {
    ghost use Rattle.ir_core_records.specs.Meaning.{region_index};
    ghost use Rattle.ir_core_context.specs.Calls.{IsRegion};

    ghost entity_at = { a_region };

    ghost own_index = { region_index };

    ghost stands = { IsRegion };

    fn get_arena(ctx: &Context<D>) -> &Arena<Region> {
        &ctx.records.regions
    }

    fn get_self_ptr(&self, _ctx: &Context<D>) -> Ptr<Region> {
        Ptr::from_index(self.index)
    }
}
