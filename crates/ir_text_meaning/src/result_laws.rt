//! Laws of results and of how many values they are.
ghost use Rattle.std.specs.Prelude.{◌≡◌, ℕ, ◌+◌, ◌↔◌, List, length};
ghost use Rattle.ir_text_tree.specs.declared.row.Part.TheVariants as parts;
ghost use Rattle.ir_text_tree.specs.Rows.{row};
ghost use Rattle.ir_text_tree.specs.Trees.{Body, ResultName, tree_rows};
ghost use Rattle.ir_text_names.specs.Numbers.{HasOtherResults, IsNoCount, results_before, width};
ghost use Rattle.ir_text_names.specs.Rows.{row_of};
ghost use Rattle.ir_text_meaning.specs.Numbered.{HasOtherResultsAt, IsNoCountAt, IsResultAt, value_count, values_of};
ghost use Rattle.ir_text_names.specs.Types.{IsTypeOther};
ghost use Rattle.ir_text_meaning.specs.ValueTypes.{IsTypeOtherAt};
ghost use Rattle.ir_text_meaning.specs.Parts.{HasOperation, Operation, result_parts};
ghost use Rattle.ir_text_meaning.specs.Regions.{IsWithin};

/// Under a row that names a result stand as many values as the tree says, and in front of it those of the results before it.
pub fn results_follow_values()
    ensures { (text : List ℕ) (b c : Body) (n : ℕ) (o : Operation) (k d : ℕ) (r : ResultName) (p : ℕ) → IsWithin c n b 0 → HasOperation c n o k → IsResultAt text o.head.results k d r p → (row_of (tree_rows b) d ≡ row parts.Result r.name) × (width text (tree_rows b) d ≡ values_of text r.count) × (results_before text (tree_rows b) d ≡ p) }
{}

/// In front of an operation's name stand the values of all its results.
pub fn names_follow_values()
    ensures { (text : List ℕ) (b c : Body) (n : ℕ) (o : Operation) (k : ℕ) → IsWithin c n b 0 → HasOperation c n o k → results_before text (tree_rows b) (k + length (result_parts o.head)) ≡ value_count text o.head.results }
{}

/// A row says how many results there are and is no such number exactly if its part is one in the tree.
pub fn counts_are_numbers()
    ensures { (text : List ℕ) (b : Body) (i : ℕ) → IsNoCount text (tree_rows b) i ↔ IsNoCountAt text b i }
{}

/// A row is the name of an operation with other numbers of results and their types exactly if its part is one in the tree.
pub fn result_types_are_counted()
    ensures { (text : List ℕ) (b : Body) (i : ℕ) → HasOtherResults text (tree_rows b) i ↔ HasOtherResultsAt text b i }
{}

/// An operand of the rows has another type than its value exactly if it has in the tree.
pub fn operand_types_meet()
    ensures { (text : List ℕ) (b : Body) (u : ℕ) → IsTypeOther text (tree_rows b) u ↔ IsTypeOtherAt text b u }
{}
