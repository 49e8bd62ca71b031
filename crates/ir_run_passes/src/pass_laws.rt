//! Why the passes are right.

ghost use Rattle.ir_core_records.specs.Meaning.{closed};
ghost use Rattle.ir_model_passes.specs.PassLaws.{SweepInsideIsRight, MergeCommonIsRight, MergeInsideIsRight, BrokenOffKeepsMeaning, InsideBrokenOffKeepsMeaning};

use ir_base_dialects::Dialects;
use ir_model_passes::{merges_are_right, part_keeps_meaning, sweeps_are_right};

/// What `sweep_inside` does is right, whatever pure operations give: each operation that stays sees the values that it saw.
pub fn sweep_inside_is_right<D: Dialects, V>()
    ensures { SweepInsideIsRight (closed D.Attr D.TypeKey D.TypeBody D.Saved D.Aux D.Loc) V }
{
    sweeps_are_right::<D::TypeKey, D::TypeBody, D::Attr, D::Saved, D::Aux, D::Loc, V>()
}

/// What `merge_common` does is right, whatever pure operations give, where they give the same for equal attributes: each operation that stays sees the values that it saw.
pub fn merge_common_is_right<D: Dialects, V>()
    ensures { MergeCommonIsRight (closed D.Attr D.TypeKey D.TypeBody D.Saved D.Aux D.Loc) V }
{
    merges_are_right::<D::TypeKey, D::TypeBody, D::Attr, D::Saved, D::Aux, D::Loc, V>()
}

/// What `merge_common_inside` does is right in the same sense.
pub fn merge_common_inside_is_right<D: Dialects, V>()
    ensures { MergeInsideIsRight (closed D.Attr D.TypeKey D.TypeBody D.Saved D.Aux D.Loc) V }
{
    merges_are_right::<D::TypeKey, D::TypeBody, D::Attr, D::Saved, D::Aux, D::Loc, V>()
}

/// What `merge_common` and `merge_common_inside` leave where memory was refused is well formed, and each operation that stays sees the values that it saw, where pure operations give the same for equal attributes.
pub fn broken_off_keeps_meaning<D: Dialects, V>()
    ensures in_block { BrokenOffKeepsMeaning (closed D.Attr D.TypeKey D.TypeBody D.Saved D.Aux D.Loc) V }
    ensures inside { InsideBrokenOffKeepsMeaning (closed D.Attr D.TypeKey D.TypeBody D.Saved D.Aux D.Loc) V }
{
    part_keeps_meaning::<D::TypeKey, D::TypeBody, D::Attr, D::Saved, D::Aux, D::Loc, V>()
}
