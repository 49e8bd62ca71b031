//! Patterns asked of operations.

ghost use Rattle.std.specs.Prelude.{◌≡◌, All, IfErr, map};
ghost use Rattle.ir_model.specs.declared.ids.ArenaIndex.{ArenaIndex};
ghost use Rattle.ir_model.specs.Forest.{an_op};
ghost use Rattle.ir_model.specs.Nesting.{In, IsLive};
ghost use Rattle.ir_core_context.specs.State.{forest_of};
ghost use Rattle.ir_rewrite.specs.Driving.{OnNo, OnYes, OneChanges, Stands};

use crate::pattern::Pattern;
use crate::rewriter::Rewriter;
use ir_base_dialects::{Dialects, Ptr};
use ir_checked_core::CheckedErr;
use ir_core_queries::{Context, Entity, Operation, OperationPtr, is_inside};

// Asks the patterns of a live operation, one after the other, until one changes something, and answers whether one did.
fn ask<D: Dialects, P: Pattern<D>>(
    ctx: &mut Context<D>,
    patterns: &[P],
    rewriter: &mut Rewriter<D>,
    op: Ptr<Operation<D>>,
) -> Result<bool, CheckedErr>
    requires { IsLive (forest_of ctx.old) (an_op op.index) }
    ensures unchanged { OnNo result (ctx.new ≡ ctx.old) }
    ensures declined { OnNo result (All (λ p. P.declines p ctx.old op.index) patterns.now) }
    ensures changed { OnYes result ((p : _) × In p patterns.now × P.changes p ctx.old op.index ctx.new) }
    ensures failed { IfErr result (λ e. (p : _) × In p patterns.now × P.fails p ctx.old op.index e ctx.new) }
{
    for pattern in patterns {
        rewriter.go_to(op);
        let changed = pattern.rewrite(ctx, rewriter, &op)?;
        if changed {
            return Ok(true);
        }
    }
    Ok(false)
}

// Asks the patterns of an operation, where it is live and stands inside the root, and answers whether one changed something.
fn ask_inside<D: Dialects, P: Pattern<D>>(
    ctx: &mut Context<D>,
    root: Ptr<Operation<D>>,
    patterns: &[P],
    rewriter: &mut Rewriter<D>,
    op: Ptr<Operation<D>>,
) -> Result<bool, CheckedErr>
    ensures unchanged { OnNo result (ctx.new ≡ ctx.old) }
    ensures declined { OnNo result (Stands (forest_of ctx.old) root.index op.index → All (λ p. P.declines p ctx.old op.index) patterns.now) }
    ensures changed { OnYes result (OneChanges forest_of P.changes root.index patterns.now ctx.old ctx.new) }
    ensures failed { IfErr result (λ e. OneChanges forest_of (λ p s o t. P.fails p s o e t) root.index patterns.now ctx.old ctx.new) }
{
    if !op.is_live(ctx) {
        return Ok(false);
    }
    if !is_inside(ctx, Entity::Op(op), Entity::Op(root)) {
        return Ok(false);
    }
    ask(ctx, patterns, rewriter, op)
}

// Takes operations from the end of the list and asks the patterns of each that is live and stands inside the root, until one changes something, and answers whether one did.
pub(crate) fn ask_each<D: Dialects, P: Pattern<D>>(
    ctx: &mut Context<D>,
    root: Ptr<Operation<D>>,
    patterns: &[P],
    rewriter: &mut Rewriter<D>,
    todo: &mut Vec<Ptr<Operation<D>>>,
) -> Result<bool, CheckedErr>
    ensures unchanged { OnNo result (ctx.new ≡ ctx.old) }
    ensures declined { OnNo result ((o : ArenaIndex) → In o (map (λ p. p.index) todo.old.items) → Stands (forest_of ctx.old) root.index o → All (λ p. P.declines p ctx.old o) patterns.now) }
    ensures changed { OnYes result (OneChanges forest_of P.changes root.index patterns.now ctx.old ctx.new) }
    ensures failed { IfErr result (λ e. OneChanges forest_of (λ p s o t. P.fails p s o e t) root.index patterns.now ctx.old ctx.new) }
{
    while let Some(op) = todo.pop() {
        let changed = ask_inside(ctx, root, patterns, rewriter, op)?;
        if changed {
            return Ok(true);
        }
    }
    Ok(false)
}
