//! What a predicate is asked of the uses of a value or of a block: once for each kept use, in the context as it is, before anything changes.
//!
//! A bound on a closure can't name `Context<D>` or `BasicBlock<D>` among its parameters, since the views of these rest on a bound of `D`. So calls that take a predicate have a type parameter in the place of each, which `Context<D>` or `Ptr<BasicBlock<D>>` alone fills.

ghost use Rattle.std.specs.Prelude.{◌≡◌, IfErr, IfOk};
ghost use Rattle.ir_model.specs.Forest.{an_op};
ghost use Rattle.ir_model.specs.Nesting.{In, IsLinked, ops_of};
ghost use Rattle.ir_core_records.specs.Meaning.{use_of};
ghost use Rattle.ir_core_context.specs.Asked.{AreAnswers, MaySay};
ghost use Rattle.ir_core_context.specs.State.{forest_of};

use crate::context::Context;
use ir_base_dialects::{ArenaIndex, CoreError, Dialects, Ptr};
use ir_core_nesting::parent_of;
use ir_core_records::{BasicBlock, EntityIndex, KeptUse, Use, Value};

/// What stands for a context where a closure is handed one. Callers have no need of it: they write closures over `&Context<D>`.
pub trait Shown<D: Dialects> {
    ghost use Rattle.ir_core_context.specs.State.{ContextState};

    // Whether it is the context that means this.
    ghost shows: { Self → ContextState D D.Attr D.TypeKey D.TypeBody D.Saved D.Aux D.Loc → Type 0 };

    /// The context, as it is shown.
    fn of(ctx: &Context<D>) -> &Self
        ensures { shows result.now ctx.now };
}

impl<D: Dialects> Shown<D> for Context<D> {
    ghost shows = { λ c s. c ≡ s };

    fn of(ctx: &Context<D>) -> &Context<D> {
        ctx
    }
}

/// What stands for the handle of a block where a closure is handed one. Callers have no need of it: they write closures over `Ptr<BasicBlock<D>>`.
pub trait ShownBlock<D: Dialects> {
    ghost use Rattle.ir_model.specs.declared.ids.ArenaIndex.{ArenaIndex};

    ghost index_of: { Self → ArenaIndex };

    /// The block under this index.
    fn at(index: ArenaIndex) -> Self
        ensures { index_of result ≡ index };
}

impl<D: Dialects> ShownBlock<D> for Ptr<BasicBlock<D>> {
    ghost index_of = { λ p. p.index };

    fn at(index: ArenaIndex) -> Ptr<BasicBlock<D>> {
        Ptr::from_index(index)
    }
}

// What the predicate answers for each of these uses, in their order.
pub(crate) fn answers<D: Dialects, C: Shown<D>, P: Fn(&C, Use<Value<D>>) -> bool>(
    ctx: &Context<D>,
    kept: &[KeptUse],
    pred: &P,
) -> Result<Vec<bool>, CoreError>
    requires callable { (context : _) (used : _) → C.shows context.now ctx.now → In used.index kept.now → P.pre pred.now context used }
    ensures answers { IfOk result (λ answers. AreAnswers (MaySay P.Fn (λ c. C.shows c ctx.now) (λ h u. use_of h.index ≡ u) pred.now) kept.now answers.items) }
    ensures memory { IfErr result (λ e. e ≡ CoreError.OutOfMemory) }
{
    let mut answers = Vec::with_capacity(ctx.alloc(), kept.len())?;
    for index in kept {
        let used = Use::from_index(index.used());
        answers.push(pred(C::of(ctx), used))?;
    }
    Ok(answers)
}

// The block that a linked operation stands in.
fn block_of_user<D: Dialects>(ctx: &Context<D>, user: ArenaIndex) -> ArenaIndex
    requires linked { IsLinked (forest_of ctx.now) (an_op user) }
    ensures { In user (ops_of (forest_of ctx.now) result) }
{
    ctx.recall_holds_together();
    ctx.recall_well_formed();
    match parent_of(ctx.records(), EntityIndex::Op(user)) {
        Some(EntityIndex::Block(block)) => block,
        Some(EntityIndex::Op(_)) => unreachable!(),
        Some(EntityIndex::Region(_)) => unreachable!(),
        None => unreachable!(),
    }
}

// What the predicate answers for the block that the user of each of these uses stands in, in their order.
pub(crate) fn answers_for_blocks<D: Dialects, C: Shown<D>, B: ShownBlock<D>, P: Fn(&C, B) -> bool>(
    ctx: &Context<D>,
    kept: &[KeptUse],
    pred: &P,
) -> Result<Vec<bool>, CoreError>
    requires linked { (used : _) → In used kept.now → IsLinked (forest_of ctx.now) (an_op used.user) }
    requires callable { (context : _) (block : _) (used : _) → C.shows context.now ctx.now → In used kept.now → In used.user (ops_of (forest_of ctx.now) (B.index_of block)) → P.pre pred.now context block }
    ensures answers { IfOk result (λ answers. AreAnswers (MaySay P.Fn (λ c. C.shows c ctx.now) (λ b u. In u.user (ops_of (forest_of ctx.now) (B.index_of b))) pred.now) kept.now answers.items) }
    ensures memory { IfErr result (λ e. e ≡ CoreError.OutOfMemory) }
{
    let mut answers = Vec::with_capacity(ctx.alloc(), kept.len())?;
    for index in kept {
        let block = B::at(block_of_user(ctx, index.user()));
        answers.push(pred(C::of(ctx), block))?;
    }
    Ok(answers)
}
