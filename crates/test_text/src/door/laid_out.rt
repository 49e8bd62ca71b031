//! A caller's function over the door, and its contract in the door's words.
ghost use Rattle.std.specs.Prelude.{IfOk};
ghost use Rattle.ir_text.specs.Tree.Trees.{Body, IsWholeText};
ghost use Rattle.ir_text.specs.Reader.Texts.{SpellsTree};
ghost use Rattle.ir_text.specs.Spelling.RoundTrips.{SpellsAgain};

use ir_text::spelling::spell;
use ir_text::tree::{Fault, parse};
use std::alloc::Global;

/// The tree of a text, laid out.
///
/// # Errors
/// Why the text is no tree, or that memory was wanting.
pub fn laid_out(alloc: Global, text: &[u8]) -> Result<Vec<u8>, Fault>
    // The text spells a tree, and what is answered spells it again.
    ensures { IfOk result (λ v. (b : Body) × IsWholeText b × SpellsTree text.now b × SpellsAgain v.items text.now b) }
{
    let tree = parse(alloc, text)?;
    match spell(alloc, text, tree.rows.as_slice()) {
        Ok(out) => Ok(out),
        Err(_) => Err(Fault::OutOfMemory),
    }
}
