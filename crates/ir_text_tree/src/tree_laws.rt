//! Laws of parsing.
ghost use Rattle.std.specs.Prelude.{◌≡◌, ℕ, List, Ok};
ghost use Rattle.ir_text_tree.specs.declared.row.Row.{Row};
ghost use Rattle.ir_text_tree.specs.declared.sort.Piece.{Piece};
ghost use Rattle.ir_text_tree.specs.Parsings.{rows_read};
ghost use Rattle.ir_text_tree.specs.Rows.{GoForward, piece_spans, row_spans};
ghost use Rattle.ir_text_tree.specs.Trees.{Body, IsWholeText, Spells, tree_rows};

/// Tokens that spell a tree are read as its rows.
pub fn tree_is_parsed()
    ensures { (end : ℕ) (xs : List Piece) (b : Body) → IsWholeText b → Spells xs b → rows_read end xs ≡ Ok (tree_rows b) }
{}

/// Tokens that are read spell a tree.
pub fn parsed_is_tree()
    ensures { (end : ℕ) (xs : List Piece) (rows : List Row) → rows_read end xs ≡ Ok rows → (b : Body) × IsWholeText b × Spells xs b }
{}

/// Tokens spell no two trees with different rows.
pub fn one_tree_is_spelled()
    ensures { (xs : List Piece) (b c : Body) → IsWholeText b → IsWholeText c → Spells xs b → Spells xs c → tree_rows b ≡ tree_rows c }
{}

/// Where the spans of tokens go forward, so do the spans of their rows.
pub fn rows_go_forward()
    ensures { (end : ℕ) (xs : List Piece) (rows : List Row) → rows_read end xs ≡ Ok rows → GoForward end 0 (piece_spans xs) → GoForward end 0 (row_spans rows) }
{}
