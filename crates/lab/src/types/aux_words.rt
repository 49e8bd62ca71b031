//! Auxiliary data, each a text.
//!
//! - `insert_aux TEXT`: it is stored and entered.
//! - `read a0`: the index, and what is stored under it.
//! - `get_aux_mut a0 TEXT`: another text is written over it; `clear a0`: it is written over by nothing, which asks for no memory; `remove_aux a0`: it is taken out, and told. Where nothing is stored, the answer is `-`.
//! - `set_aux_name NAME a0`, `aux_by_name NAME`: the name leads to the index.

use crate::types::known_names::identifier;
use crate::types::telling::{Maybe, enter, tell_end, tell_refusal, tell_whether};
use ir_base_dialects::Identifier;
use ir_view_parts::Context;
use testkit_lab::{Lab, Reply, TextError, asked, one, take_field};
use toy_dialect::Toy;

/// Answers a word.
pub(crate) fn answer(lab: &mut Lab, call: &str, rest: &str) -> Result<(), TextError> {
    match take_field(rest) {
        Some((field, "")) => answer_of(lab, call, field),
        Some((field, rest)) => answer_of_two(lab, call, field, one(rest)?),
        None => Err(TextError::Malformed),
    }
}

// The words with one field.
fn answer_of(lab: &mut Lab, call: &str, field: &str) -> Result<(), TextError> {
    match call {
        "insert_aux" => insert_aux(lab, field),
        "read" => read(lab, field),
        "clear" => clear(lab, field),
        "remove_aux" => remove_aux(lab, field),
        "aux_by_name" => aux_by_name(lab, field),
        _ => Err(TextError::Malformed),
    }
}

// The words with two fields.
fn answer_of_two(lab: &mut Lab, call: &str, field: &str, other: &str) -> Result<(), TextError> {
    match call {
        "get_aux_mut" => get_aux_mut(lab, field, other),
        "set_aux_name" => set_aux_name(lab, field, other),
        _ => Err(TextError::Malformed),
    }
}

fn insert_aux(lab: &mut Lab, text: &str) -> Result<(), TextError> {
    let data = String::from_str(lab.alloc(), text)?;
    match lab.context.insert_aux(data) {
        Ok(index) => enter(&mut lab.text, "made a", &mut lab.beside.aux, index),
        Err(error) => tell_refusal(&mut lab.text, error),
    }
    Ok(())
}

fn read(lab: &mut Lab, name: &str) -> Result<(), TextError> {
    let index = lab.aux(name)?;
    lab.text.show("index ", index.index);
    let ctx = asked(lab.mode, &lab.session, &lab.context);
    lab.text.show(" data ", Maybe(ctx.get_aux(index)));
    Ok(())
}

fn get_aux_mut(lab: &mut Lab, name: &str, text: &str) -> Result<(), TextError> {
    let index = lab.aux(name)?;
    let data = String::from_str(lab.alloc(), text)?;
    let is_there = match lab.context.get_aux_mut(index) {
        Some(place) => {
            *place = data;
            true
        }
        None => false,
    };
    tell_whether(&mut lab.text, is_there);
    Ok(())
}

fn clear(lab: &mut Lab, name: &str) -> Result<(), TextError> {
    let index = lab.aux(name)?;
    let is_there = match lab.context.get_aux_mut(index) {
        Some(place) => {
            place.clear();
            true
        }
        None => false,
    };
    tell_whether(&mut lab.text, is_there);
    Ok(())
}

fn remove_aux(lab: &mut Lab, name: &str) -> Result<(), TextError> {
    let index = lab.aux(name)?;
    let removed = lab.context.remove_aux(index);
    lab.text.show("", Maybe(removed));
    Ok(())
}

fn set_aux_name(lab: &mut Lab, name: &str, index: &str) -> Result<(), TextError> {
    match (identifier(name), lab.aux(index)) {
        (Ok(name), Ok(index)) => {
            let ended = lab.context.set_aux_name(name, index);
            tell_end(&mut lab.text, ended);
            Ok(())
        }
        _ => Err(TextError::Malformed),
    }
}

fn aux_by_name(lab: &mut Lab, name: &str) -> Result<(), TextError> {
    let name = identifier(name)?;
    tell_place(
        &mut lab.text,
        asked(lab.mode, &lab.session, &lab.context),
        &name,
    );
    Ok(())
}

// Writes the index to which a name leads.
fn tell_place(text: &mut Reply, ctx: &Context<Toy>, name: &Identifier) {
    match ctx.aux_by_name(name) {
        Some(index) => text.show("", index.index),
        None => text.say("-"),
    }
}
