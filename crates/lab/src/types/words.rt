//! Which word is whose.

use crate::types::asking::Asking;
use crate::types::{
    attr_words, aux_words, deep_words, judge_words, name_words, saved_words, small_words,
    type_words, verify_words, wrap_words,
};
use ir_run::toy::ToyVerifiers;
use testkit_lab::{Lab, Mode, TextError};

/// Answers a line: a word of this module, and its fields.
///
/// # Errors
/// `Malformed` where it is none, or can't be done in a session, and `OutOfMemory`.
pub(crate) fn answer(lab: &mut Lab, word: &str, rest: &str) -> Result<(), TextError> {
    if lab.mode == Mode::Session && is_direct(word) {
        return Err(TextError::Malformed);
    }
    match word.split_once('.') {
        Some((group, call)) => answer_call(lab, group, call, rest),
        None => Err(TextError::Malformed),
    }
}

// Answers a call of a group.
fn answer_call(lab: &mut Lab, group: &str, call: &str, rest: &str) -> Result<(), TextError> {
    match group {
        "type" => type_words::answer(lab, call, rest),
        "name" => name_words::answer(lab, call, rest),
        "saved" => saved_words::answer(lab, call, rest),
        "aux" => aux_words::answer(lab, call, rest),
        "attr" => attr_words::answer(lab, call, rest),
        "wrap" => wrap_words::answer(lab, call, rest),
        "verify" | "well" => verify_words::answer(lab, call, rest, &ToyVerifiers),
        "asking" => verify_words::answer(lab, call, rest, &Asking),
        "deep" => deep_words::answer(lab, call, rest),
        "small" => small_words::answer(lab, call, rest),
        "judge" => judge_words::answer(lab, call, rest),
        _ => Err(TextError::Malformed),
    }
}

// Whether the word changes the context of the dialect Toy.
fn is_direct(word: &str) -> bool {
    matches!(
        word,
        "type.set_body"
            | "saved.save"
            | "saved.save_value"
            | "saved.new"
            | "aux.insert_aux"
            | "aux.get_aux_mut"
            | "aux.clear"
            | "aux.remove_aux"
            | "aux.set_aux_name"
            | "attr.set"
            | "attr.get_mut"
            | "attr.remove"
            | "deep.above"
            | "deep.below"
    )
}
