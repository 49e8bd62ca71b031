//! The laws of sweeps, mergings and removals of unreached blocks, over the dialect Toy.

use ir_run_passes::laws::{
    broken_off_keeps_meaning, merge_common_inside_is_right, merge_common_is_right,
    sweep_inside_is_right,
};
use ir_run_unreached::laws::{inside_removal_tells, unreached_removal_tells};
use toy_dialect::Toy;

#[test]
fn law_of_sweeps(_rt: HostRuntime) {
    sweep_inside_is_right::<Toy, u64>();
}

#[test]
fn laws_of_mergings(_rt: HostRuntime) {
    merge_common_is_right::<Toy, u64>();
    merge_common_inside_is_right::<Toy, u64>();
    broken_off_keeps_meaning::<Toy, u64>();
}

#[test]
fn laws_of_removals(_rt: HostRuntime) {
    unreached_removal_tells::<Toy, u32>();
    inside_removal_tells::<Toy, u32>();
}
