//! Tests of what needs no context: ids, identifiers, names, arenas, lists, attributes, stores, verifier lists and the dialect Toy. Callers of arenas and lists among them are proved from the contracts alone.
//!
//! Where memory is refused, a test ends with the text `memory` and the error.
#![tactic(auto)]

#[cfg(test)]
mod arena_tests;
#[cfg(test)]
mod attribute_tests;
#[cfg(test)]
mod expecting;
#[cfg(test)]
mod id_tests;
#[cfg(test)]
mod identifier_tests;
#[cfg(test)]
mod items;
#[cfg(test)]
mod legaliser_tests;
#[cfg(test)]
mod link_tests;
#[cfg(test)]
mod linked_list_tests;
#[cfg(test)]
mod lists;
#[cfg(test)]
mod name_tests;
#[cfg(test)]
mod seq_tests;
#[cfg(test)]
mod store_tests;
#[cfg(test)]
mod storing;
#[cfg(test)]
mod toy_tests;
#[cfg(test)]
mod verifier_list_tests;
