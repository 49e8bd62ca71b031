//! The uses of the results of an operation.

ghost use Rattle.std.specs.Prelude.{◌≡◌, ◌↔◌, length, IsTrue};
ghost use Rattle.ir_model.specs.Forest.{an_op};
ghost use Rattle.ir_model.specs.Nesting.{IsLive};
ghost use Rattle.ir_core_context.specs.State.{forest_of};
ghost use Rattle.ir_core_queries.specs.Values.{uses_of_results};

use crate::operation_uses::{OperationUses, count_uses, has_any_use};
use ir_base_dialects::{Dialects, Ptr};
use ir_core_context::Context;
use ir_core_records::Operation;

/// What can be asked of an operation about the uses of its results. It stands for pliron's calls of `Operation`.
pub trait ResultUses<D: Dialects> {
    ghost use Rattle.ir_model.specs.declared.ids.ArenaIndex.{ArenaIndex};
    ghost use Rattle.ir_model.specs.ContextIds.{context_ids};
    ghost use Rattle.ir_model.specs.Uses.{Use as PlainUse};
    ghost use Rattle.ir_core_queries.specs.Values.{AreUsesOfResults, IsUseOfResult};

    ghost index_of: { Self → ArenaIndex };

    /// Whether a result of the live operation has a use. It stands for pliron's `Operation::has_use`.
    fn has_use(self, ctx: &Context<D>) -> bool
        requires { IsLive (forest_of ctx.now) (an_op (index_of self)) }
        ensures { IsTrue result ↔ ((u : PlainUse context_ids) × IsUseOfResult (forest_of ctx.now) (index_of self) u) };

    /// How many uses the results of the live operation have together. It stands for pliron's `Operation::num_uses`.
    fn num_uses(self, ctx: &Context<D>) -> usize
        requires { IsLive (forest_of ctx.now) (an_op (index_of self)) }
        ensures count { result ≡ length (uses_of_results ctx.now (index_of self)) }
        ensures exact { AreUsesOfResults (forest_of ctx.now) (index_of self) (uses_of_results ctx.now (index_of self)) };

    /// The uses of all results of the live operation, each once, without taking memory. It stands for pliron's `Operation::uses`.
    ///
    /// Those of an earlier result come first. The order among the uses of one result is open, and the same until the context changes.
    fn uses(self, ctx: &Context<D>) -> OperationUses<'_, D>
        requires { IsLive (forest_of ctx.now) (an_op (index_of self)) }
        ensures kept { result ≡ uses_of_results ctx.now (index_of self) }
        ensures exact { AreUsesOfResults (forest_of ctx.now) (index_of self) (uses_of_results ctx.now (index_of self)) };
}

impl<D: Dialects> ResultUses<D> for Ptr<Operation<D>> {
    ghost index_of = { λ p. p.index };

    fn has_use(self, ctx: &Context<D>) -> bool {
        ctx.recall_well_formed();
        ctx.recall_holds_together();
        ctx.recall_uses_exact();
        has_any_use(ctx.records().ops.at(self).results.as_slice())
    }

    fn num_uses(self, ctx: &Context<D>) -> usize {
        ctx.recall_well_formed();
        ctx.recall_holds_together();
        ctx.recall_uses_exact();
        ctx.recall_live_was_made();
        ctx.recall_use_numbers_fit();
        count_uses(ctx.records().ops.at(self).results.as_slice())
    }

    fn uses(self, ctx: &Context<D>) -> OperationUses<'_, D> {
        ctx.recall_well_formed();
        ctx.recall_holds_together();
        ctx.recall_uses_exact();
        OperationUses::of_results(ctx.records().ops.at(self).results.as_slice())
    }
}
