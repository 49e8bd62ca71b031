//! What holds of every context, and of every type of saved values: each law can be called.

use ir_checked_core::context;
use ir_core_context::{Context, Dialects};
use ir_core_uniqued::{SavedValue, equal_keys_for_equal_values, kinds_are_never_equal};
use std::test::Fail;
use toy_dialect::Toy;

// Calls each law of a context.
fn call_laws<D: Dialects>(ctx: &Context<D>) {
    ctx.recall_well_formed();
    ctx.recall_uses_exact();
    ctx.recall_types_exact();
    ctx.recall_aux_was_made();
    ctx.recall_live_was_made();
    ctx.recall_holds_together();
    ctx.recall_use_numbers_fit();
    ctx.recall_saved_apart();
}

// Calls the laws of saved values.
fn call_saved_laws<D: Dialects, T: SavedValue<D>, U: SavedValue<D>>() {
    kinds_are_never_equal::<D, T, U>();
    equal_keys_for_equal_values::<D, T>();
}

#[test]
fn laws_can_be_called(rt: HostRuntime) -> Result<(), Fail> {
    let ctx: Context<Toy> = Context::new(rt.alloc());
    call_laws(&ctx);
    call_saved_laws::<Toy, String, u64>();
    context::end(ctx, ());
    Ok(())
}
