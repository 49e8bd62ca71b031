//! Laws of regions.
ghost use Rattle.std.specs.Prelude.{◌≡◌, ℕ, ◌<◌, ◌↔◌, length};
ghost use Rattle.ir_text_tree.specs.declared.row.Row.{Row};
ghost use Rattle.ir_text_tree.specs.Trees.{Body, tree_rows};
ghost use Rattle.ir_text_names.specs.Rows.{row_of, region_of};
ghost use Rattle.ir_text_names.specs.Values.{IsInRegion};
ghost use Rattle.ir_text_meaning.specs.Regions.{IsInRegionAt, IsWithin, StandsIn};

/// Each part that stands in a body of the tree is the row with its number.
pub fn parts_are_rows()
    ensures { (b c : Body) (n i : ℕ) (x : Row) → IsWithin c n b 0 → StandsIn c n i x → row_of (tree_rows b) i ≡ x }
{}

/// The region of a row is that in which its part of the tree stands.
pub fn regions_are_bodies()
    ensures { (b : Body) (i r : ℕ) → i < length (tree_rows b) → ((region_of (tree_rows b) i ≡ r) ↔ IsInRegionAt b i r) }
{}

/// No two bodies of a tree begin with one part.
pub fn one_body_begins()
    ensures { (b c d : Body) (n : ℕ) → IsWithin c n b 0 → IsWithin d n b 0 → c ≡ d }
{}

/// A row is in the region of another exactly if its part's body is the other's, or is within it.
pub fn regions_stand_within()
    ensures { (b c d : Body) (m n i j : ℕ) (x y : Row) → IsWithin c m b 0 → StandsIn c m i x → IsWithin d n b 0 → StandsIn d n j y → (IsInRegion (tree_rows b) j i ↔ IsWithin d n c m) }
{}
