//! Laws of the names of values and blocks.
ghost use Rattle.std.specs.Prelude.{ℕ, ◌↔◌, List};
ghost use Rattle.ir_text_tree.specs.Trees.{Body, tree_rows};
ghost use Rattle.ir_text_names.specs.Blocks.{NamesBlock};
ghost use Rattle.ir_text_names.specs.Values.{NamesValue};
ghost use Rattle.ir_text_meaning.specs.Meanings.{MeansBlock, MeansValue};

/// An operand of the rows names the value that it means in the tree.
pub fn operands_mean_values()
    ensures { (text : List ℕ) (b : Body) (u d : ℕ) → NamesValue text (tree_rows b) u d ↔ MeansValue text b u d }
{}

/// A successor of the rows names the block that it means in the tree.
pub fn successors_mean_blocks()
    ensures { (text : List ℕ) (b : Body) (s l : ℕ) → NamesBlock text (tree_rows b) s l ↔ MeansBlock text b s l }
{}
