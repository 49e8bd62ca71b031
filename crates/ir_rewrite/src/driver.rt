//! The driver, which applies patterns until none applies.
//!
//! It goes by rounds. A round begins with all operations inside the root. What a change touches is put in front of what is left. A round in which nothing changed is the last: in it each pattern was asked of each operation on one and the same context, and said no.

ghost use Rattle.std.specs.Prelude.{◌≡◌, ◌≢◌, ◌↔◌, ◌⊎◌, ◌<◌, ◌≤◌, ℕ, IfErr, IfOk};
ghost use Rattle.ir_checked_core.specs.Answers.{out_of_memory};
ghost use Rattle.ir_model.specs.Forest.{an_op};
ghost use Rattle.ir_model.specs.Nesting.{IsLive};
ghost use Rattle.ir_core_context.specs.State.{forest_of};
ghost use Rattle.ir_rewrite.specs.Driving.{NoneApplies, OneChanges, Rewrites};

use crate::asking::ask_each;
use crate::listener::{Listener, tell};
use crate::pattern::Pattern;
use crate::point::InsertionPoint;
use crate::rewriter::Rewriter;
use crate::worklist::{all_ops, push_changed};
use ir_base_dialects::{Dialects, Ptr};
use ir_checked_core::CheckedErr;
use ir_core_queries::{Context, Operation, OperationPtr};

/// Why a driver ended.
#[derive(Clone, Copy, Debug, Drop, PartialEq, Eq)]
pub enum End {
    /// No pattern applies to an operation inside the root.
    Done,
    /// As many changes were made as were allowed.
    Limit,
    /// A pattern erased the root.
    RootGone,
}

/// What a driver did.
#[derive(Clone, Copy, Debug, Drop, PartialEq, Eq)]
pub struct Rewritten {
    /// How many times a pattern changed something.
    pub steps: usize,
    /// Why the driver ended.
    pub end: End,
}

/// Asks the patterns of the operations inside the root, itself among them, until none of them changes something, or they have made as many changes as the limit allows. It stands for MLIR's `applyPatternsGreedily` and pliron's `apply_match_rewrite`.
///
/// No pattern is asked of an operation that isn't live or doesn't stand inside the root. In which order operations are asked isn't promised: as it is, a round asks inner ones before outer ones and else those in front first, and after a change those that it touched.
///
/// # Errors
/// What a pattern answers, and `OutOfMemory`. What the patterns changed until then stays, also what the one that failed has changed, and nothing else has changed.
pub fn rewrite<D: Dialects, P: Pattern<D>, L: Listener<D>>(
    ctx: &mut Context<D>,
    root: Ptr<Operation<D>>,
    patterns: &[P],
    limit: usize,
    listener: &mut L,
) -> Result<Rewritten, CheckedErr>
    requires { IsLive (forest_of ctx.old) (an_op root.index) }
    ensures steps { IfOk result (λ r. Rewrites forest_of P.changes root.index patterns.now ctx.old ctx.new r.steps) }
    ensures done { IfOk result (λ r. r.end ≡ End.Done → NoneApplies forest_of P.declines root.index patterns.now ctx.new) }
    ensures limit { IfOk result (λ r. r.end ≡ End.Limit → r.steps ≡ limit) }
    ensures within { IfOk result (λ r. r.steps ≤ limit) }
    ensures err { IfErr result (λ e. (s : _) × (n : ℕ) × Rewrites forest_of P.changes root.index patterns.now ctx.old s n × (n ≤ limit) × (((e ≡ out_of_memory) × (ctx.new ≡ s)) ⊎ OneChanges forest_of (λ p s o t. P.fails p s o e t) root.index patterns.now s ctx.new)) }
    ensures root_gone { IfOk result (λ r. r.end ≡ End.RootGone ↔ (¬ IsLive (forest_of ctx.new) (an_op root.index))) }
{
    let mut rewriter = Rewriter::new(ctx.alloc(), InsertionPoint::BeforeOperation(root));
    let mut steps = 0;
    let mut todo = all_ops(ctx, root)?;
    let mut unchanged = true;
    while steps < limit {
        let changed = ask_each(ctx, root, patterns, &mut rewriter, &mut todo)?;
        if changed {
            steps += 1;
            unchanged = false;
            tell(ctx, listener, rewriter.changes.as_slice());
            if !root.is_live(ctx) {
                return Ok(Rewritten {
                    steps,
                    end: End::RootGone,
                });
            }
            push_changed(&mut todo, rewriter.changes.as_slice())?;
        } else if unchanged {
            return Ok(Rewritten {
                steps,
                end: End::Done,
            });
        } else {
            todo = all_ops(ctx, root)?;
            unchanged = true;
        }
    }
    Ok(Rewritten {
        steps,
        end: End::Limit,
    })
}
