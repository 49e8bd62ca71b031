//! The definitions that the contracts of the other crates cite, and the laws that speak of them alone.
//!
//! The definitions stand in `specs/`. Each law is the contract of a public function here that takes and does nothing.
#![tactic(auto)]

ghost use Rattle.ir_model.specs.Forest.{Behaviour};
ghost use Rattle.ir_model.specs.Sessions.{TwoRuns};

mod answer;
mod call_examples;
mod call_laws;
mod definition_laws;
mod edit_rows;
mod erase_examples;
mod error;
mod examples;
mod handle_laws;
mod ids;
mod laws;
mod limit_rows;
mod progress_laws;
mod query_laws;
mod small_sessions;
mod step_laws;
mod store_laws;
mod sweep_laws;
mod verification_laws;

pub use answer::{Answer, Refused};
pub use call_examples::call_rows;
pub use call_laws::{calls_change_one_part, calls_keep_well_formed, sets_of_uses_move};
pub use definition_laws::{
    all_uses_are_redirected, closed_by_definitions, removal_is_one, replaced_takes_uses,
    retargeted_takes_uses, searches_agree, sources_apart, subtree_size_is_one,
    successors_meet_predecessors, unique_names_tell, unlinked_goes_back,
};
pub use edit_rows::{
    condition_rows, definition_rows, list_rows, memory_rows, new_entity_rows, operand_rows,
    removal_rows,
};
pub use erase_examples::erase_rows;
pub use error::CoreError;
pub use examples::worked_rows;
pub use handle_laws::handles_stay_refused;
pub use ids::{ArenaIndex, Limits};
pub use laws::{
    changes_are_settled, edits_can_be_made, gone_for_good, handles_are_exact,
    new_sessions_are_sound, refusals_change_nothing, runs_keep_sound, steps_keep_sound,
    versions_rise,
};
pub use limit_rows::limits_tell;
pub use progress_laws::{closed_can_be_erased, sessions_go_on};
pub use query_laws::{
    dominance_is_told, handles_are_refused, parents_of_values, predecessors_follow_uses,
    values_are_told,
};
pub use small_sessions::{
    hostile_edits_are_refused, identifiers_are_given_by_letters, own_checks_tell,
    uses_move_as_told, views_show_all,
};
pub use step_laws::steps_tell;
pub use store_laws::{
    aux_is_kept, bodies_are_set, dictionaries_keep_order, owners_stay_apart, saved_are_exact,
};
pub use sweep_laws::sweep_is_one;
pub use verification_laws::{faults_are_told, kinds_settle, verification_rows};

/// The law on two runs: whatever ids and numbers each run chose, they give the same answers and the same view.
///
/// Both runs are of one list of edits from new sessions, and were refused alike for memory, counters and slots.
pub fn choices_unseen<Key, Body, Attr, Saved, Aux, Loc>()
    ensures { (behaviour : Behaviour (record { Key = Key; Body = Body; Attr = Attr; Saved = Saved; Aux = Aux; Loc = Loc })) → TwoRuns _ behaviour }
{}
