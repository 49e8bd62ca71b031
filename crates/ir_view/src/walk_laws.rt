//! Laws about the definitions that the contracts of walks cite.

ghost use Rattle.ir_core_records.specs.Meaning.{closed};
ghost use Rattle.ir_view.specs.Orders.{OrdersAreOne};

use ir_base_dialects::Dialects;

/// An entity has one post-order and one preorder. So two walks over it on one context give the same.
pub fn orders_are_one<D: Dialects>()
    ensures { OrdersAreOne (closed D.Attr D.TypeKey D.TypeBody D.Saved D.Aux D.Loc) }
{}
