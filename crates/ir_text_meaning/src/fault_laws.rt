//! Laws of what is wrong with a tree.
ghost use Rattle.std.specs.Prelude.{ℕ, ◌⊎◌, ◌↔◌, List, length};
ghost use Rattle.ir_text_tree.specs.Trees.{Body, tree_rows};
ghost use Rattle.ir_text_names.specs.declared.fault.Wrong.{Wrong};
ghost use Rattle.ir_text_names.specs.Blocks.{IsBlockWrong};
ghost use Rattle.ir_text_names.specs.Firsts.{HasNone};
ghost use Rattle.ir_text_names.specs.Keys.{IsKeyWrong};
ghost use Rattle.ir_text_names.specs.Resolved.{IsWrong};
ghost use Rattle.ir_text_names.specs.Values.{IsValueWrong};
ghost use Rattle.ir_text_meaning.specs.Faults.{IsNameFault};
ghost use Rattle.ir_text_meaning.specs.WellNamed.{IsFaultAt, IsWellNamed};

/// A name of a block, a key or a value is at fault by the rows exactly where it is in the tree.
pub fn name_faults_meet()
    ensures { (text : List ℕ) (b : Body) (v : Wrong) (i : ℕ) → ((IsBlockWrong text (tree_rows b) v i ⊎ IsKeyWrong text (tree_rows b) v i) ⊎ IsValueWrong text (tree_rows b) v i) ↔ IsNameFault text b v i }
{}

/// A row has a fault exactly if its part has it in the tree.
pub fn faults_meet()
    ensures { (text : List ℕ) (b : Body) (v : Wrong) (i : ℕ) → IsWrong text (tree_rows b) v i ↔ IsFaultAt text b v i }
{}

/// No row has a fault exactly if the tree is well named.
pub fn well_named_trees_have_no_fault()
    ensures { (text : List ℕ) (b : Body) → HasNone (IsWrong text (tree_rows b)) (length (tree_rows b)) ↔ IsWellNamed text b }
{}
