//! Uses of one definition come to name another, under their old numbers.
//!
//! Each call asks for records in which uses and places name each other (`AreLinked`), keeps that, and is one equation on the forest that the records mean (`forest_in`). None of them changes who stands in whom (`KeepsTree`).
#![tactic(auto)]

mod moves;
mod redirect;
mod renames;
mod use_lists;

pub use redirect::{
    replace_all_uses, replace_some_uses, replace_use, retarget_all_preds, retarget_pred,
    retarget_some_preds,
};
