//! Tests of what stands above the context and no text of a program can stand for: calls on what earlier calls gave, laws, the example's dialect, the driver of patterns, scripts whose readers and writers fail, operations that are described and printed, and the work of `ir_opt`.
#![tactic(auto)]

#[cfg(test)]
mod building;
#[cfg(test)]
mod calc_tests;
#[cfg(test)]
mod caller_tests;
#[cfg(test)]
mod contexts;
#[cfg(test)]
mod driver_tests;
#[cfg(test)]
mod law_tests;
#[cfg(test)]
mod naming_tests;
#[cfg(test)]
mod nests;
#[cfg(test)]
mod opt_tests;
#[cfg(test)]
mod part_tests;
#[cfg(test)]
mod pass_law_tests;
#[cfg(test)]
mod script_tests;
#[cfg(test)]
mod view_law_tests;
