//! Laws of names.
ghost use Rattle.std.specs.Prelude.{◌≡◌, ℕ, ◌<◌, List, length};
ghost use Rattle.ir_text_tree.specs.declared.row.Row.{Row};
ghost use Rattle.ir_text_names.specs.Blocks.{IsBlockAgain, NamesBlock};
ghost use Rattle.ir_text_names.specs.Values.{IsValueAgain, NamesValue};

/// Where no name of a value is defined again, an operand names no two values.
pub fn names_one_value()
    ensures { (text : List ℕ) (rows : List Row) (u d e : ℕ) → ((k : ℕ) → k < length rows → ¬ IsValueAgain text rows k) → NamesValue text rows u d → NamesValue text rows u e → d ≡ e }
{}

/// Where no name of a block is given again, a successor names no two blocks.
pub fn names_one_block()
    ensures { (text : List ℕ) (rows : List Row) (s l m : ℕ) → ((k : ℕ) → k < length rows → ¬ IsBlockAgain text rows k) → NamesBlock text rows s l → NamesBlock text rows s m → l ≡ m }
{}
