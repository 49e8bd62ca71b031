//! Laws of names: each can be called.

use ir_text_meaning::{
    counts_are_numbers, faults_meet, keys_are_given_again, name_faults_meet, names_follow_values,
    one_body_begins, operand_types_are_counted, operand_types_meet, operands_mean_values,
    operations_own_parts, parts_are_listed, parts_are_rows, regions_are_bodies,
    regions_stand_within, result_types_are_counted, results_follow_values, successors_mean_blocks,
    well_named_trees_have_no_fault,
};
use ir_text_names::laws::{names_one_block, names_one_value};

#[test]
fn laws_of_one_meaning(_rt: HostRuntime) {
    names_one_block();
    names_one_value();
}

#[test]
fn laws_of_places(_rt: HostRuntime) {
    parts_are_rows();
    parts_are_listed();
    regions_are_bodies();
    one_body_begins();
    regions_stand_within();
    operations_own_parts();
}

#[test]
fn laws_of_meanings(_rt: HostRuntime) {
    operands_mean_values();
    successors_mean_blocks();
    results_follow_values();
    names_follow_values();
}

#[test]
fn laws_of_faults(_rt: HostRuntime) {
    keys_are_given_again();
    operand_types_are_counted();
    result_types_are_counted();
    counts_are_numbers();
    operand_types_meet();
    name_faults_meet();
    faults_meet();
    well_named_trees_have_no_fault();
}
