//! What a driver asks of operations.

ghost use Rattle.std.specs.Prelude.{◌≡◌, [], IfErr};
ghost use Rattle.ir_model.specs.Forest.{an_op};
ghost use Rattle.ir_model.specs.Nesting.{IsLive};
ghost use Rattle.ir_core_context.specs.State.{forest_of};
ghost use Rattle.ir_rewrite.specs.Driving.{OnNo, OnYes};

use crate::point::InsertionPoint;
use crate::rewriter::Rewriter;
use ir_base_dialects::{Dialects, Ptr};
use ir_checked_core::CheckedErr;
use ir_core_queries::{Context, Operation};

/// A pattern, which a driver asks to rewrite what it finds. It stands for pliron's `MatchRewrite` and MLIR's `RewritePattern`.
///
/// Who proves nothing writes the one call. Who proves something says in `declines` what holds where the pattern says no, in `changes` what it makes of a context where it says yes, and in `fails` what it leaves where it answers an error; then the driver's clauses say the same of the whole.
pub trait Pattern<D: Dialects> {
    ghost use Rattle.ir_model.specs.declared.ids.ArenaIndex.{ArenaIndex};
    ghost use Rattle.ir_core_context.specs.State.{ContextState};
    ghost use Rattle.ir_checked_core.specs.declared.error.CheckedErr.{CheckedErr};

    // What holds of the operation in a context in which the pattern says no of it.
    ghost declines: { Self → ContextState D D.Attr D.TypeKey D.TypeBody D.Saved D.Aux D.Loc → ArenaIndex → Type 0 } = { λ _ _ _. Unit {0} };

    // What the pattern makes of the one context, asked of the operation: the other one.
    ghost changes: { Self → ContextState D D.Attr D.TypeKey D.TypeBody D.Saved D.Aux D.Loc → ArenaIndex → ContextState D D.Attr D.TypeKey D.TypeBody D.Saved D.Aux D.Loc → Type 0 } = { λ _ _ _ _. Unit {0} };

    // What the pattern makes of the one context, asked of the operation, where it answers the error: the other one.
    ghost fails: { Self → ContextState D D.Attr D.TypeKey D.TypeBody D.Saved D.Aux D.Loc → ArenaIndex → CheckedErr → ContextState D D.Attr D.TypeKey D.TypeBody D.Saved D.Aux D.Loc → Type 0 } = { λ _ _ _ _ _. Unit {0} };

    /// Rewrites the live operation, or what stands around it, and answers whether it changed something. Where it answers no, the context is as it was. When it is asked, the rewriter's point is right before the operation, and nothing is noted; `Rewriter::go_to` brings a rewriter there.
    ///
    /// It edits by the rewriter's calls, so that the driver learns of it; after other edits it tells the rewriter what it changed, by `modified`.
    ///
    /// # Errors
    /// Any; the driver then ends with it.
    fn rewrite(
        &self,
        ctx: &mut Context<D>,
        rewriter: &mut Rewriter<D>,
        op: &Ptr<Operation<D>>,
    ) -> Result<bool, CheckedErr>
        requires live { IsLive (forest_of ctx.old) (an_op op.now.index) }
        requires at { rewriter.old.inserter.point ≡ InsertionPoint.BeforeOperation op.now }
        requires fresh { rewriter.old.changes.items ≡ [] }
        ensures unchanged { OnNo result (ctx.new ≡ ctx.old) }
        ensures declined { OnNo result (declines self.now ctx.old op.now.index) }
        ensures changed { OnYes result (changes self.now ctx.old op.now.index ctx.new) }
        ensures failed { IfErr result (λ e. fails self.now ctx.old op.now.index e ctx.new) };
}

/// Two patterns as one: where the first says no, the second is asked, with the point right before the operation and nothing noted.
#[derive(Clone, Copy, Drop)]
pub struct Both<A, B>(pub A, pub B);

impl<D: Dialects, A: Pattern<D>, B: Pattern<D>> Pattern<D> for Both<A, B> {
    ghost use Rattle.std.specs.Prelude.{◌⊎◌};

    ghost declines = { λ both s o. A.declines both.0 s o × B.declines both.1 s o };

    ghost changes = { λ both s o t. A.changes both.0 s o t ⊎ (A.declines both.0 s o × B.changes both.1 s o t) };

    ghost fails = { λ both s o e t. A.fails both.0 s o e t ⊎ (A.declines both.0 s o × B.fails both.1 s o e t) };

    fn rewrite(
        &self,
        ctx: &mut Context<D>,
        rewriter: &mut Rewriter<D>,
        op: &Ptr<Operation<D>>,
    ) -> Result<bool, CheckedErr> {
        if self.0.rewrite(ctx, rewriter, op)? {
            return Ok(true);
        }
        rewriter.go_to(*op);
        self.1.rewrite(ctx, rewriter, op)
    }
}
