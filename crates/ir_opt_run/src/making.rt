//! What comes of a text, or a fault that is told.
//!
//! What would be printed is read again and compared with what stands in the context. So what a run promises doesn't rest on how things are described.
ghost use Rattle.std.specs.Prelude.{◌∷◌, [], ℕ, List, IfSome};
ghost use Rattle.generic_text.specs.GenericWords.{generic_words};
ghost use Rattle.ir_model.specs.Forest.{an_op};
ghost use Rattle.ir_model.specs.Nesting.{IsLive};
ghost use Rattle.ir_core_queries.specs.State.{forest_of};
ghost use Rattle.ir_opt_run.specs.GenericBehaviour.{AreGenericWords, generic_behaviour, generic_same};
ghost use Rattle.ir_opt_run.specs.Modules.{Says};
ghost use Rattle.ir_opt_run.specs.Runs.{Optimises};

use crate::optimising::work;
use crate::options::Options;
use crate::printing::print_operation;
use crate::reading::Op;
use crate::telling::tell;
use generic_dialect::Generic;
use ir_core_queries::Context;
use std::alloc::Global;
use std::io::Write;

// The text of what stands in a live operation, if that can be told; a fault is told.
fn printed<F: Write>(
    ctx: &Context<Generic>,
    options: &Options,
    root: Op,
    log: &mut F,
) -> Option<Vec<u8>>
    requires { IsLive (forest_of ctx.now) (an_op root.index) }
    ensures said { IfSome result (λ out. Says (forest_of ctx.now) (generic_words ctx.now) options.now.prints_locations out.items (root.index ∷ [])) }
{
    match print_operation(ctx, root, options.prints_locations) {
        Ok(out) => Some(out),
        Err(error) => {
            tell(options, &[], 0, error, log);
            None
        }
    }
}

// Reads a text into a context and runs the passes, if it has no fault; a fault is told.
fn worked<F: Write>(
    ctx: &mut Context<Generic>,
    options: &Options,
    text: &[u8],
    lines: u64,
    log: &mut F,
) -> Option<Op>
    ensures live { IfSome result (λ root. IsLive (forest_of ctx.new) (an_op root.index)) }
    ensures worked { IfSome result (λ root. (out : List ℕ) → Says (forest_of ctx.new) (generic_words ctx.new) options.now.prints_locations out (root.index ∷ []) → Optimises generic_behaviour generic_same AreGenericWords options.now.passes.items options.now.prints_locations text.now out) }
{
    match work(ctx, options, text, log) {
        Ok(root) => Some(root),
        Err(error) => {
            tell(options, text, lines, error, log);
            None
        }
    }
}

// The same of a text that is let go of.
fn worked_whole<F: Write>(
    ctx: &mut Context<Generic>,
    options: &Options,
    text: Vec<u8>,
    log: &mut F,
) -> Option<Op>
    ensures live { IfSome result (λ root. IsLive (forest_of ctx.new) (an_op root.index)) }
    ensures worked { IfSome result (λ root. (out : List ℕ) → Says (forest_of ctx.new) (generic_words ctx.new) options.now.prints_locations out (root.index ∷ []) → Optimises generic_behaviour generic_same AreGenericWords options.now.passes.items options.now.prints_locations text.items out) }
{
    worked(ctx, options, text.as_slice(), 0, log)
}

// What comes of a part in an empty context.
fn part_in<F: Write>(
    ctx: &mut Context<Generic>,
    options: &Options,
    part: &[u8],
    lines: u64,
    log: &mut F,
) -> Option<Vec<u8>>
    ensures made { IfSome result (λ out. Optimises generic_behaviour generic_same AreGenericWords options.now.passes.items options.now.prints_locations part.now out.items) }
{
    let root = worked(ctx, options, part, lines, log)?;
    printed(ctx, options, root, log)
}

/// What comes of a part, if it has no fault; a fault is told, by the lines that stand before the part.
pub(crate) fn part_made<F: Write>(
    alloc: Global,
    options: &Options,
    part: &[u8],
    lines: u64,
    log: &mut F,
) -> Option<Vec<u8>>
    ensures made { IfSome result (λ out. Optimises generic_behaviour generic_same AreGenericWords options.now.passes.items options.now.prints_locations part.now out.items) }
{
    let mut ctx = Context::new(alloc);
    let made = part_in(&mut ctx, options, part, lines, log);
    ir_checked_core::context::end(ctx, made)
}

// What comes of a whole text in an empty context.
fn whole_in<F: Write>(
    ctx: &mut Context<Generic>,
    options: &Options,
    text: Vec<u8>,
    log: &mut F,
) -> Option<Vec<u8>>
    ensures made { IfSome result (λ out. Optimises generic_behaviour generic_same AreGenericWords options.now.passes.items options.now.prints_locations text.items out.items) }
{
    let root = worked_whole(ctx, options, text, log)?;
    printed(ctx, options, root, log)
}

/// What comes of a whole text, if it has no fault; a fault is told. The text is let go of before what comes of it is printed.
pub(crate) fn whole_made<F: Write>(
    alloc: Global,
    options: &Options,
    text: Vec<u8>,
    log: &mut F,
) -> Option<Vec<u8>>
    ensures made { IfSome result (λ out. Optimises generic_behaviour generic_same AreGenericWords options.now.passes.items options.now.prints_locations text.items out.items) }
{
    let mut ctx = Context::new(alloc);
    let made = whole_in(&mut ctx, options, text, log);
    ir_checked_core::context::end(ctx, made)
}
