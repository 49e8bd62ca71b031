//! A module printed as a text. The text is read again and compared with the module, so that its clause doesn't rest on how a module is described.
ghost use Rattle.std.specs.Prelude.{◌∷◌, [], IfOk, OnOk};
ghost use Rattle.generic_text.specs.GenericWords.{generic_words};
ghost use Rattle.ir_model.specs.Forest.{an_op};
ghost use Rattle.ir_model.specs.Nesting.{IsLive};
ghost use Rattle.ir_core_queries.specs.State.{forest_of};
ghost use Rattle.ir_opt_run.specs.Modules.{Says};

use crate::fault::Fault;
use crate::reading::Op;
use crate::saying::check_said;
use crate::trees::read_tree;
use generic_dialect::Generic;
use generic_text::GenericSpelling;
use ir_core_queries::Context;
use ir_text_describe::{Locations, describe};
use ir_text_spelling::spell;

// Whether locations are printed.
fn locations(located: bool) -> Locations {
    if located {
        Locations::Put
    } else {
        Locations::Left
    }
}

// Sees to it that a text says what stands in the operation.
fn check_printed(ctx: &Context<Generic>, root: Op, located: bool, text: &[u8]) -> Result<(), Fault>
    ensures said { OnOk result (Says (forest_of ctx.now) (generic_words ctx.now) located text.now (root.index ∷ [])) }
{
    let tree = read_tree(ctx.alloc(), text)?;
    check_said(ctx, &[root], text, &tree, located)
}

// The text of a live operation.
fn text_of(ctx: &Context<Generic>, root: Op, located: bool) -> Result<Vec<u8>, Fault>
    requires { IsLive (forest_of ctx.now) (an_op root.index) }
{
    let alloc = ctx.alloc();
    let described = describe(alloc, ctx, root, &GenericSpelling, locations(located))?;
    Ok(spell(alloc, described.text.as_slice(), described.rows.as_slice())?)
}

/// The text of a live operation with all inside it, with locations where these are wanted. It is read again and compared with what stands in the context.
///
/// # Errors
/// Want of memory; a text or a number past 4,294,967,295; and `Different` where the text isn't what stands there, or another fault where it can't be read, which would be faults of this program.
pub fn print_operation(ctx: &Context<Generic>, root: Op, located: bool) -> Result<Vec<u8>, Fault>
    requires { IsLive (forest_of ctx.now) (an_op root.index) }
    ensures said { IfOk result (λ out. Says (forest_of ctx.now) (generic_words ctx.now) located out.items (root.index ∷ [])) }
{
    let text = text_of(ctx, root, located)?;
    check_printed(ctx, root, located, text.as_slice())?;
    Ok(text)
}
