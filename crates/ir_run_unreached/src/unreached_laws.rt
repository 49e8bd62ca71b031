//! What a removal of unreached blocks means.

ghost use Rattle.ir_core_records.specs.Meaning.{closed};
ghost use Rattle.ir_model_passes.specs.PassLaws.{UnreachedRemovalIsOne};
ghost use Rattle.ir_run_unreached.specs.Inside.{InsideRemovalTells};

use ir_base_dialects::Dialects;
use ir_model_passes::unreached_removal_is_one;

/// What `remove_unreached` leaves, whatever pure operations give: no reached block went, and nothing inside one; each operation that stays sees the values that it saw, and no operand moved; no block that is left is unreached; and where what names a definition inside an unreached block is inside one, the forest is well formed. Effects in unreached blocks went.
pub fn unreached_removal_tells<D: Dialects, V>()
    ensures { UnreachedRemovalIsOne (closed D.Attr D.TypeKey D.TypeBody D.Saved D.Aux D.Loc) V }
{
    unreached_removal_is_one::<D::TypeKey, D::TypeBody, D::Attr, D::Saved, D::Aux, D::Loc, V>()
}

/// What `remove_unreached_inside` leaves, whatever pure operations give, also where it was refused for memory: each operation that stays is as it was, so it sees the values that it saw, and no operand moved; and where the condition of the call held, the forest is well formed, and the condition still holds. Effects in unreached blocks went.
pub fn inside_removal_tells<D: Dialects, V>()
    ensures { InsideRemovalTells (closed D.Attr D.TypeKey D.TypeBody D.Saved D.Aux D.Loc) V }
{
    unreached_removal_is_one::<D::TypeKey, D::TypeBody, D::Attr, D::Saved, D::Aux, D::Loc, V>()
}
