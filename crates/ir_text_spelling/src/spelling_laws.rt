//! Laws of trees spelled again.
ghost use Rattle.std.specs.Prelude.{ℕ, List};
ghost use Rattle.ir_text_tree.specs.Trees.{Body, IsWholeText};
ghost use Rattle.ir_text_reader.specs.Texts.{SpellsTree};
ghost use Rattle.ir_text_spelling.specs.TreeTexts.{tree_text};
ghost use Rattle.ir_text_spelling.specs.RoundTrips.{SpellsAgain};

use ir_text_tree::laws::{parsed_is_tree, tree_is_parsed};

/// The text of a tree that was read of a text spells that tree again.
pub fn tree_text_spells_again()
    ensures { (text : List ℕ) (b : Body) → IsWholeText b → SpellsTree text b → SpellsAgain (tree_text text b) text b }
{
    parsed_is_tree();
    tree_is_parsed();
}
