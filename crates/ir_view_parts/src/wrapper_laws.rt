//! Laws of wrapped operations. A function here takes and does nothing; its contract is the law.

ghost use Rattle.std.specs.Prelude.{◌≡◌, ◌↔◌, IsTrue};
ghost use Rattle.ir_view_parts.specs.Wrapped.{operation_in};
ghost use Rattle.ir_view_parts.specs.declared.wrappers.OpObj.{OpObj};

use crate::wrappers::OpObj;
use ir_base_dialects::Dialects;
use std::cmp::PartialEq;
use std::hash::Hash;

/// Two wrapped operations are equal exactly where the operation is one, whatever their kinds, and then they hash equally.
pub fn wrapped_operations_compare_by_operation<D: Dialects>()
    ensures equality { (a b : OpObj D D.Attr D.TypeKey D.TypeBody D.Saved D.Aux D.Loc) → IsTrue (⟦<OpObj<D> as PartialEq>⟧.eq a b) ↔ (operation_in a ≡ operation_in b) }
    ensures hash { (a b : OpObj D D.Attr D.TypeKey D.TypeBody D.Saved D.Aux D.Loc) → operation_in a ≡ operation_in b → ⟦<OpObj<D> as Hash>⟧.hash_input a ≡ ⟦<OpObj<D> as Hash>⟧.hash_input b }
{}
