//! Laws of the parts of an operation and of a block's head.
ghost use Rattle.std.specs.Prelude.{◌≡◌, map};
ghost use Rattle.ir_text_tree.specs.Trees.{Head, Label, ResultName, Tail, Use};
ghost use Rattle.ir_text_names.specs.Sorts.{is_operand, is_operand_type};
ghost use Rattle.ir_text_meaning.specs.Listings.{argument_places, is_argument_name, is_key, is_result_name, is_successor, key_places, places_of, type_places};
ghost use Rattle.ir_text_meaning.specs.Parts.{label_parts, operand_parts, result_parts, tail_parts};

/// The parts of each sort are those that the tree lists, in that order.
pub fn parts_are_listed()
    ensures results { (h : Head) → places_of is_result_name (result_parts h) ≡ map (λ (r : ResultName). r.name) h.results }
    ensures operands { (h : Head) → places_of is_operand (operand_parts h) ≡ map (λ (u : Use). u.name) h.operands }
    ensures successors { (h : Head) → places_of is_successor (operand_parts h) ≡ h.successors }
    ensures keys { (t : Tail) → places_of is_key (tail_parts t) ≡ key_places t.attributes }
    ensures operand_types { (t : Tail) → places_of is_operand_type (tail_parts t) ≡ type_places t.operand_types }
    ensures arguments { (l : Label) → places_of is_argument_name (label_parts l) ≡ argument_places l.arguments }
{}
