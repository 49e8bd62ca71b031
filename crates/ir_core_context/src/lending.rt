//! What callers may write of an operation or a block: its attributes and its location, and the label of a block.
//!
//! A lender takes the context first. What was written last is in the context once the loan is over, and nothing else has changed.

ghost use Rattle.std.specs.Prelude.{◌≡◌, ◌↔◌, Some, IfOk, IsErr};
ghost use Rattle.std.specs.Borrow.{sem};
ghost use Rattle.ir_model.specs.Calls.{attributes_of, label_of, loc_of};
ghost use Rattle.ir_model.specs.Forest.{a_block, an_op, of_block, of_op};
ghost use Rattle.ir_model.specs.Nesting.{IsLive};
ghost use Rattle.ir_core_context.specs.State.{forest_of};
ghost use Rattle.ir_core_context.specs.Lending.{WritesBlock, WritesOp, lends_block, lends_live_block, lends_live_op, lends_op};

use crate::context::Context;
use crate::error::DanglingPtrDerefError;
use ir_base_dialects::{Dialects, Ptr};
use ir_core_records::{BasicBlock, BasicBlockMut, Operation, OperationMut};

/// How the attributes and the location of an operation are written. It stands for pliron's `Ptr<Operation>::deref_mut`.
pub trait OperationPtrMut<D: Dialects> {
    ghost use Rattle.ir_model.specs.declared.ids.ArenaIndex.{ArenaIndex};

    ghost index_of: { Self → ArenaIndex };

    /// What may be written of the operation under a live handle.
    fn deref_mut(ctx: &mut Context<D>, ptr: Self) -> &mut OperationMut<D>
        requires { IsLive (forest_of ctx.old) (an_op (index_of ptr)) }
        ensures* writes_back { sem 𝓛 (lends_op D.row D.Attr.row D.TypeKey.row D.TypeBody.row D.Saved.row D.Aux.row D.Loc.row D.Dialects D.Attr.Hash D.TypeKey.Hash D.TypeBody.Default D.Saved.Hash D.Loc.Default ctx.entry (index_of ptr) result) }
        ensures attributes { attributes_of (forest_of ctx.old) (of_op (index_of ptr)) ≡ Some result.now.attributes }
        ensures loc { loc_of (forest_of ctx.old) (of_op (index_of ptr)) ≡ Some result.now.loc }
        ensures written { WritesOp ctx.old (index_of ptr) };

    /// What may be written of the operation under a handle.
    ///
    /// # Errors
    /// `DanglingPtrDerefError` where it isn't live.
    fn try_deref_mut(
        ctx: &mut Context<D>,
        ptr: Self,
    ) -> Result<&mut OperationMut<D>, DanglingPtrDerefError>
        ensures* writes_back { sem 𝓛 (lends_live_op D.row D.Attr.row D.TypeKey.row D.TypeBody.row D.Saved.row D.Aux.row D.Loc.row D.Dialects D.Attr.Hash D.TypeKey.Hash D.TypeBody.Default D.Saved.Hash D.Loc.Default ctx.entry (index_of ptr) result) }
        ensures attributes { IfOk result (λ rest. attributes_of (forest_of ctx.old) (of_op (index_of ptr)) ≡ Some rest.now.attributes) }
        ensures loc { IfOk result (λ rest. loc_of (forest_of ctx.old) (of_op (index_of ptr)) ≡ Some rest.now.loc) }
        ensures written { WritesOp ctx.old (index_of ptr) }
        ensures dangling { IsErr result ↔ (IsLive (forest_of ctx.old) (an_op (index_of ptr)) → ⊥) };
}

impl<D: Dialects> OperationPtrMut<D> for Ptr<Operation<D>> {
    ghost index_of = { λ p. p.index };

    fn deref_mut(ctx: &mut Context<D>, ptr: Ptr<Operation<D>>) -> &mut OperationMut<D> {
        &mut ctx.records.ops.at_mut(ptr).rest
    }

    fn try_deref_mut(
        ctx: &mut Context<D>,
        ptr: Ptr<Operation<D>>,
    ) -> Result<&mut OperationMut<D>, DanglingPtrDerefError> {
        match ctx.records.ops.get_mut(ptr) {
            Some(op) => Ok(&mut op.rest),
            None => Err(DanglingPtrDerefError),
        }
    }
}

/// How the attributes, the label and the location of a block are written. It stands for pliron's `Ptr<BasicBlock>::deref_mut`.
pub trait BlockPtrMut<D: Dialects> {
    ghost use Rattle.ir_model.specs.declared.ids.ArenaIndex.{ArenaIndex};

    ghost index_of: { Self → ArenaIndex };

    /// What may be written of the block under a live handle.
    fn deref_mut(ctx: &mut Context<D>, ptr: Self) -> &mut BasicBlockMut<D>
        requires { IsLive (forest_of ctx.old) (a_block (index_of ptr)) }
        ensures* writes_back { sem 𝓛 (lends_block D.row D.Attr.row D.TypeKey.row D.TypeBody.row D.Saved.row D.Aux.row D.Loc.row D.Dialects D.Attr.Hash D.TypeKey.Hash D.TypeBody.Default D.Saved.Hash D.Loc.Default ctx.entry (index_of ptr) result) }
        ensures attributes { attributes_of (forest_of ctx.old) (of_block (index_of ptr)) ≡ Some result.now.attributes }
        ensures label { label_of (forest_of ctx.old) (index_of ptr) ≡ Some result.now.label }
        ensures loc { loc_of (forest_of ctx.old) (of_block (index_of ptr)) ≡ Some result.now.loc }
        ensures written { WritesBlock ctx.old (index_of ptr) };

    /// What may be written of the block under a handle.
    ///
    /// # Errors
    /// `DanglingPtrDerefError` where it isn't live.
    fn try_deref_mut(
        ctx: &mut Context<D>,
        ptr: Self,
    ) -> Result<&mut BasicBlockMut<D>, DanglingPtrDerefError>
        ensures* writes_back { sem 𝓛 (lends_live_block D.row D.Attr.row D.TypeKey.row D.TypeBody.row D.Saved.row D.Aux.row D.Loc.row D.Dialects D.Attr.Hash D.TypeKey.Hash D.TypeBody.Default D.Saved.Hash D.Loc.Default ctx.entry (index_of ptr) result) }
        ensures attributes { IfOk result (λ rest. attributes_of (forest_of ctx.old) (of_block (index_of ptr)) ≡ Some rest.now.attributes) }
        ensures label { IfOk result (λ rest. label_of (forest_of ctx.old) (index_of ptr) ≡ Some rest.now.label) }
        ensures loc { IfOk result (λ rest. loc_of (forest_of ctx.old) (of_block (index_of ptr)) ≡ Some rest.now.loc) }
        ensures written { WritesBlock ctx.old (index_of ptr) }
        ensures dangling { IsErr result ↔ (IsLive (forest_of ctx.old) (a_block (index_of ptr)) → ⊥) };
}

impl<D: Dialects> BlockPtrMut<D> for Ptr<BasicBlock<D>> {
    ghost index_of = { λ p. p.index };

    fn deref_mut(ctx: &mut Context<D>, ptr: Ptr<BasicBlock<D>>) -> &mut BasicBlockMut<D> {
        &mut ctx.records.blocks.at_mut(ptr).rest
    }

    fn try_deref_mut(
        ctx: &mut Context<D>,
        ptr: Ptr<BasicBlock<D>>,
    ) -> Result<&mut BasicBlockMut<D>, DanglingPtrDerefError> {
        match ctx.records.blocks.get_mut(ptr) {
            Some(block) => Ok(&mut block.rest),
            None => Err(DanglingPtrDerefError),
        }
    }
}
