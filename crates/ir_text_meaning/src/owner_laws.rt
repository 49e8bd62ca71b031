//! Laws of what belongs to an operation.
ghost use Rattle.std.specs.Prelude.{◌≡◌, ℕ, ◌+◌, ◌↔◌, List};
ghost use Rattle.ir_text_tree.specs.declared.row.Row.{Row};
ghost use Rattle.ir_text_tree.specs.Trees.{Body, tree_rows};
ghost use Rattle.ir_text_names.specs.Counts.{HasOtherTypes};
ghost use Rattle.ir_text_names.specs.Keys.{IsKeyAgain};
ghost use Rattle.ir_text_names.specs.Types.{operation_of};
ghost use Rattle.ir_text_meaning.specs.Meanings.{MeansKeyAgain};
ghost use Rattle.ir_text_meaning.specs.Owners.{HasOtherTypesAt, IsBehindName};
ghost use Rattle.ir_text_meaning.specs.Parts.{HasOperation, Operation, named_size};
ghost use Rattle.ir_text_meaning.specs.Regions.{IsWithin};

/// The operation of a row is that behind whose name its part of the tree stands.
pub fn operations_own_parts()
    ensures { (b c : Body) (n : ℕ) (o : Operation) (k i : ℕ) (x : Row) → IsWithin c n b 0 → HasOperation c n o k → IsBehindName o k i x → operation_of (tree_rows b) i ≡ k + named_size o.head }
{}

/// A row is a key that is given again exactly if its part is one in the tree.
pub fn keys_are_given_again()
    ensures { (text : List ℕ) (b : Body) (i : ℕ) → IsKeyAgain text (tree_rows b) i ↔ ((j : ℕ) × MeansKeyAgain text b i j) }
{}

/// A row is the name of an operation with other numbers of operands and their types exactly if its part is one in the tree.
pub fn operand_types_are_counted()
    ensures { (b : Body) (i : ℕ) → HasOtherTypes (tree_rows b) i ↔ HasOtherTypesAt b i }
{}
