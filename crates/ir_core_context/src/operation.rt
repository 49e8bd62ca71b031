//! What a context tells of the handle of an operation.

ghost use Rattle.std.specs.Prelude.{◌↔◌, length, IsTrue, IfOk, IsErr};
ghost use Rattle.ir_model.specs.Forest.{an_op};
ghost use Rattle.ir_model.specs.Nesting.{IsLive};
ghost use Rattle.ir_core_context.specs.State.{forest_of, types_of};

use crate::context::Context;
use crate::error::DanglingPtrDerefError;
use ir_base_dialects::{Dialects, Ptr};
use ir_core_records::Operation;

/// What can be asked of the handle of an operation. It stands for pliron's calls of `Ptr<Operation>`.
pub trait OperationPtr<D: Dialects> {
    ghost use Rattle.ir_model.specs.declared.ids.ArenaIndex.{ArenaIndex};
    ghost use Rattle.ir_core_context.specs.Calls.{IsOperation, LeadsToLive};

    ghost index_of: { Self → ArenaIndex };

    /// Whether the operation is live.
    fn is_live(self, ctx: &Context<D>) -> bool
        ensures { IsTrue result ↔ IsLive (forest_of ctx.now) (an_op (index_of self)) };

    /// The operation under a live handle. What it gives is live, and its types are known.
    fn deref(self, ctx: &Context<D>) -> &Operation<D>
        requires { IsLive (forest_of ctx.now) (an_op (index_of self)) }
        ensures found { IsOperation (forest_of ctx.now) (index_of self) result.now }
        ensures leads { LeadsToLive (forest_of ctx.now) (length (types_of ctx.now)) result.now };

    /// The operation under a handle. What it gives is live, and its types are known.
    ///
    /// # Errors
    /// `DanglingPtrDerefError` where it isn't live.
    fn try_deref(self, ctx: &Context<D>) -> Result<&Operation<D>, DanglingPtrDerefError>
        ensures found { IfOk result (λ op. IsOperation (forest_of ctx.now) (index_of self) op.now) }
        ensures leads { IfOk result (λ op. LeadsToLive (forest_of ctx.now) (length (types_of ctx.now)) op.now) }
        ensures dangling { IsErr result ↔ (IsLive (forest_of ctx.now) (an_op (index_of self)) → ⊥) };
}

impl<D: Dialects> OperationPtr<D> for Ptr<Operation<D>> {
    ghost index_of = { λ p. p.index };

    #[inline(always)]
    fn is_live(self, ctx: &Context<D>) -> bool {
        ctx.records.ops.is_live(self)
    }

    #[inline(always)]
    fn deref(self, ctx: &Context<D>) -> &Operation<D> {
        ctx.recall_well_formed();
        ctx.records.ops.at(self)
    }

    #[inline(always)]
    fn try_deref(self, ctx: &Context<D>) -> Result<&Operation<D>, DanglingPtrDerefError> {
        ctx.recall_well_formed();
        ctx.records.ops.get(self).ok_or(DanglingPtrDerefError)
    }
}
