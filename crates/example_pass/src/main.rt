//! A pass as its author writes it: a function is built, its constants are folded, what is dead is swept, and it is verified and printed before and after. There is no proof file, no contract and no invariant: each call of `ir_checked` tests its conditions, and a walk needs no measure.
#![tactic(auto)]

mod building;
mod folding;

use building::{Context, Op};
use ir_core::prelude::*;
use ir_run::toy::ToyVerifiers;
use ir_text::spelling::spell_to;
use ir_text_describe::{Locations, describe};
use ir_verify::verify::verify_operation;
use std::io::Write;
use toy_text::ToySpelling;

fn show<W: Write>(output: &mut W, ctx: &Context, op: Op) -> anyhow::Result<()> {
    if op.is_live(ctx) {
        verify_operation(op, ctx, &ToyVerifiers)?;
        let text = describe(ctx.alloc(), ctx, op, &ToySpelling, Locations::Left)?;
        spell_to(&text.text, &text.rows, output)?;
    }
    Ok(())
}

fn run<W: Write>(output: &mut W, ctx: &mut Context) -> anyhow::Result<()> {
    let func = building::function(ctx)?;
    show(output, ctx, func)?;
    let (folded, swept) = folding::fold(ctx, func)?;
    writeln!(output, "// folded {folded}, swept {swept}")?;
    show(output, ctx, func)
}

fn main(rt: HostRuntime) -> anyhow::Result<()> {
    let mut ctx = Context::new(rt.alloc());
    let outcome = run(&mut rt.stdout(), &mut ctx);
    Ok(ir_checked::context::end(ctx, outcome)?)
}
