//! Whether a text says what stands in a context.
ghost use Rattle.std.specs.Prelude.{OnOk, map};
ghost use Rattle.generic_text.specs.GenericWords.{block_named, generic_words, value_named};
ghost use Rattle.ir_core_queries.specs.State.{forest_of};
ghost use Rattle.ir_opt_run.specs.Modules.{IsReadAs, Says};

use crate::fault::Fault;
use crate::reading::Op;
use crate::trees::NamedTree;
use generic_dialect::Generic;
use generic_text::check_described;
use ir_core_queries::Context;

/// Sees to it that the tree of a text describes these operations, in their order, with all that is inside them.
///
/// # Errors
/// `Different` where it doesn't, and want of memory.
pub(crate) fn check_said(
    ctx: &Context<Generic>,
    operations: &[Op],
    text: &[u8],
    tree: &NamedTree,
    located: bool,
) -> Result<(), Fault>
    requires { IsReadAs text.now tree.now.rows.items (block_named tree.now.names) (value_named tree.now.names) }
    ensures said { OnOk result (Says (forest_of ctx.now) (generic_words ctx.now) located text.now (map (λ p. p.index) operations.now)) }
{
    let rows = tree.rows.as_slice();
    check_described(ctx, operations, text, rows, &tree.names, located)?;
    Ok(())
}
