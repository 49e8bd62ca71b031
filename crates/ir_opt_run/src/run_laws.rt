//! Why the passes of a run are right together.

ghost use Rattle.ir_core_records.specs.Meaning.{closed};
ghost use Rattle.ir_opt_run.specs.PureNames.{ListedAreRows, PureAreListed};
ghost use Rattle.ir_opt_run.specs.RunLaws.{PassesAreRight, PassesKeep};
ghost use Rattle.ir_opt_run.specs.WrittenAlike.{WrittenAlikeIsOne};

use ir_base_dialects::Dialects;
use ir_model_passes::right_passes_follow;
use ir_run_passes::laws::{merge_common_inside_is_right, sweep_inside_is_right};
use ir_run_unreached::laws::inside_removal_tells;

/// The passes of a run that let effects stay are right together, whatever pure operations give, where they give the same for equal attributes: each operation of what a run leads to sees the values that it saw in what was read.
pub fn passes_are_right<D: Dialects, V>()
    ensures { PassesAreRight (closed D.Attr D.TypeKey D.TypeBody D.Saved D.Aux D.Loc) V }
{
    right_passes_follow::<D::TypeKey, D::TypeBody, D::Attr, D::Saved, D::Aux, D::Loc, V>();
    sweep_inside_is_right::<D, V>();
    merge_common_inside_is_right::<D, V>();
}

/// What all passes of a run keep together, the removal of unreachable blocks among them, in the same sense: what they lead to is well formed, and each operation of it was there and sees the values that it saw. Effects in unreachable blocks go.
pub fn passes_keep<D: Dialects, V>()
    ensures { PassesKeep (closed D.Attr D.TypeKey D.TypeBody D.Saved D.Aux D.Loc) V }
{
    sweep_inside_is_right::<D, V>();
    merge_common_inside_is_right::<D, V>();
    inside_removal_tells::<D, V>();
}

/// In words of the dialect Generic, a kind that is pure has the name of an operation that the table says is pure. So where a run takes an operation out because it is pure, the table says so of its name in the text.
pub fn pure_operations_are_listed()
    ensures { PureAreListed }
{}

/// In words of the dialect Generic, a kind with the name of an operation that the table has is that row of the table, and implements what the table says. So a run takes every operation with that name for what the table says of it.
pub fn listed_names_are_rows()
    ensures { ListedAreRows }
{}

/// In words of the dialect Generic, types that are written alike are one, and so are attributes under one name, and properties. So the operations of a run that are written alike are alike to `--cse`.
pub fn written_alike_is_one()
    ensures { WrittenAlikeIsOne }
{}
