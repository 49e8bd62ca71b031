//! Laws that hold of names of types and of wrapped operations: each can be called.

use ir_base_dialects::OfType;
use ir_base_dialects::laws::{ids_compare_as_pairs, names_compare_as_texts};
use ir_view_parts::laws::wrapped_operations_compare_by_operation;
use toy_dialect::Toy;

#[test]
fn laws_of_type_names(_rt: HostRuntime) {
    names_compare_as_texts::<OfType>();
    ids_compare_as_pairs::<OfType>();
}

#[test]
fn equal_pairs_of_other_kinds(_rt: HostRuntime) {
    wrapped_operations_compare_by_operation::<Toy>();
}
