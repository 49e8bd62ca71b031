//! One text: read into a context, and worked on by passes.
//!
//! What was built of the text is compared with the text. So what a run promises rests on this comparison, and not on how things are built.
ghost use Rattle.std.specs.Prelude.{◌∷◌, [], ℕ, List, IfOk, OnOk};
ghost use Rattle.generic_text.specs.GenericWords.{generic_words};
ghost use Rattle.ir_model.specs.Forest.{an_op};
ghost use Rattle.ir_model.specs.Nesting.{IsLive};
ghost use Rattle.ir_core_queries.specs.State.{bare, forest_of};
ghost use Rattle.ir_core_queries.specs.Calls.{SameButForest};
ghost use Rattle.ir_opt_run.specs.GenericBehaviour.{AreGenericWords, generic_behaviour, generic_same};
ghost use Rattle.ir_opt_run.specs.Modules.{Says};
ghost use Rattle.ir_opt_run.specs.Passes.{PassLeads, PassesLead};
ghost use Rattle.ir_opt_run.specs.Runs.{Optimises};

use crate::fault::Fault;
use crate::options::{Options, Pass};
use crate::passes::run_pass;
use crate::reading::{Module, Op, read_module};
use crate::verifying::verify;
use generic_dialect::Generic;
use ir_core_queries::Context;
use std::io::Write;

// Verifies, where it is asked for.
fn verify_if(ctx: &Context<Generic>, options: &Options, module: &Module) -> Result<(), Fault> {
    if options.verifies_each {
        verify(ctx, module)
    } else {
        Ok(())
    }
}

// Tells what a pass did, where it is asked for.
fn tell_if<F: Write>(options: &Options, pass: Pass, gone: usize, log: &mut F) {
    if options.tells_statistics {
        let name = options.name;
        let word = pass.name();
        // Where it can't be told, nothing else changes.
        let _ = writeln!(log, "{name}: {word}: {gone} operations erased");
    }
}

// Runs a pass, tells what it did, and verifies.
fn run_one<F: Write>(
    ctx: &mut Context<Generic>,
    options: &Options,
    module: &Module,
    pass: Pass,
    log: &mut F,
) -> Result<(), Fault>
    requires { IsLive (forest_of ctx.old) (an_op module.now.root.index) }
    ensures leads { OnOk result (PassLeads generic_behaviour generic_same module.now.root.index pass (forest_of ctx.old) (forest_of ctx.new)) }
    ensures rest { OnOk result (SameButForest (bare ctx.old) (bare ctx.new)) }
    ensures live { OnOk result (IsLive (forest_of ctx.new) (an_op module.now.root.index)) }
{
    let gone = run_pass(ctx, module.root, pass)?;
    tell_if(options, pass, gone, log);
    verify_if(ctx, options, module)
}

// Runs the passes in their order.
fn run_all<F: Write>(
    ctx: &mut Context<Generic>,
    options: &Options,
    module: &Module,
    log: &mut F,
) -> Result<(), Fault>
    requires { IsLive (forest_of ctx.old) (an_op module.now.root.index) }
    ensures lead { OnOk result (PassesLead generic_behaviour generic_same module.now.root.index options.now.passes.items (forest_of ctx.old) (forest_of ctx.new)) }
    ensures rest { OnOk result (SameButForest (bare ctx.old) (bare ctx.new)) }
    ensures live { OnOk result (IsLive (forest_of ctx.new) (an_op module.now.root.index)) }
{
    for pass in options.passes.as_slice() {
        run_one(ctx, options, module, *pass, log)?;
    }
    Ok(())
}

/// Reads a text into a context, runs the passes, and answers the operation around all. What passes did is told on the log, where it is asked for.
///
/// # Errors
/// The first fault in the text, what verification found, want of memory, numbers or slots; and `Different` where what was built isn't what the text says, which would be a fault of this program.
pub(crate) fn work<F: Write>(
    ctx: &mut Context<Generic>,
    options: &Options,
    text: &[u8],
    log: &mut F,
) -> Result<Op, Fault>
    ensures live { IfOk result (λ root. IsLive (forest_of ctx.new) (an_op root.index)) }
    // Whatever text says what stands in that operation then is what a run makes of this text.
    ensures worked { IfOk result (λ root. (out : List ℕ) → Says (forest_of ctx.new) (generic_words ctx.new) options.now.prints_locations out (root.index ∷ []) → Optimises generic_behaviour generic_same AreGenericWords options.now.passes.items options.now.prints_locations text.now out) }
{
    let module = read_module(ctx, text)?;
    ctx.recall_well_formed();
    ctx.recall_saved_apart();
    ctx.recall_types_exact();
    verify_if(ctx, options, &module)?;
    run_all(ctx, options, &module, log)?;
    Ok(module.root)
}
