//! What holds of sessions whatever ids and numbers were chosen. Each function takes and does nothing; its contract is the law.

ghost use Rattle.ir_model.specs.Sessions.{TwoRuns};
ghost use Rattle.ir_core_records.specs.DialectAnswers.{behaviour_of};

use ir_base_dialects::Dialects;

/// The law on two runs: two runs of one list of edits from new sessions, refused alike for memory, a counter or slots, give the same answers and the same view, whatever ids and numbers each chose.
pub fn choices_unseen<D: Dialects>()
    ensures { TwoRuns _ (behaviour_of D.Dialects D.TypeKey.eq) }
{
    ir_model::choices_unseen::<D::TypeKey, D::TypeBody, D::Attr, D::Saved, D::Aux, D::Loc>()
}
