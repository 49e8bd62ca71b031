//! Saved values. A `VALUE` is `text` and a text, or `u64` or `i64` and a number.
//!
//! - `save VALUE`, `new VALUE`: the value is saved, and entered by its key or as saved.
//! - `save_value VALUE`: the same without an entry; the place is answered.
//! - `read s0`: the place of a saved value, whether it is known, whether something is saved at its place, and what it is.

use crate::types::telling::{enter, tell, tell_refusal};
use ir_base_dialects::{CoreError, SavedValue};
use ir_core_uniqued::{Uniqued, UniquedKey, get, save};
use ir_view_parts::Context;
use std::alloc::Global;
use std::fmt::Display;
use testkit_lab::{Lab, Reply, Saved, TextError, asked, one, two};
use toy_dialect::{Toy, ToySaved};

/// Answers a word.
pub(crate) fn answer(lab: &mut Lab, call: &str, rest: &str) -> Result<(), TextError> {
    match call {
        "read" => read(lab, rest),
        "save" | "new" | "save_value" => save_by(lab, call, rest),
        _ => Err(TextError::Malformed),
    }
}

// The value that a text stands for.
fn value_of(alloc: Global, text: &str) -> Result<ToySaved, TextError> {
    let (kind, value) = two(text)?;
    match kind {
        "text" => Ok(ToySaved::Text(String::from_str(alloc, value)?)),
        "u64" => unsigned(value),
        "i64" => signed(value),
        _ => Err(TextError::Malformed),
    }
}

fn unsigned(text: &str) -> Result<ToySaved, TextError> {
    match text.parse() {
        Ok(number) => Ok(ToySaved::U64(number)),
        Err(_) => Err(TextError::Malformed),
    }
}

fn signed(text: &str) -> Result<ToySaved, TextError> {
    match text.parse() {
        Ok(number) => Ok(ToySaved::I64(number)),
        Err(_) => Err(TextError::Malformed),
    }
}

// The words that save a value.
fn save_by(lab: &mut Lab, call: &str, rest: &str) -> Result<(), TextError> {
    let value = value_of(lab.alloc(), rest)?;
    match call {
        "save" => {
            let saved = save_key(&mut lab.context, value);
            tell_saved(&mut lab.text, &mut lab.beside.saved, saved);
        }
        "new" => {
            let saved = save_uniqued(&mut lab.context, value);
            tell_saved(&mut lab.text, &mut lab.beside.saved, saved);
        }
        _ => {
            let place = lab.context.save_value(value);
            tell(&mut lab.text, place);
        }
    }
    Ok(())
}

// Enters what was saved.
fn tell_saved(text: &mut Reply, table: &mut Vec<Saved>, saved: Result<Saved, CoreError>) {
    match saved {
        Ok(saved) => enter(text, "made s", table, saved),
        Err(error) => tell_refusal(text, error),
    }
}

fn save_key(ctx: &mut Context<Toy>, value: ToySaved) -> Result<Saved, CoreError> {
    match value {
        ToySaved::Text(text) => save(ctx, text).map(Saved::Text),
        ToySaved::U64(number) => save(ctx, number).map(Saved::Unsigned),
        ToySaved::I64(number) => save(ctx, number).map(Saved::Signed),
    }
}

fn save_uniqued(ctx: &mut Context<Toy>, value: ToySaved) -> Result<Saved, CoreError> {
    match value {
        ToySaved::Text(text) => Uniqued::new(ctx, text).map(Saved::UniqueText),
        ToySaved::U64(number) => Uniqued::new(ctx, number).map(Saved::UniqueUnsigned),
        ToySaved::I64(number) => Uniqued::new(ctx, number).map(Saved::UniqueSigned),
    }
}

// What was saved, by the only field.
fn saved_of(lab: &Lab, rest: &str) -> Result<Saved, TextError> {
    lab.saved(one(rest)?)
}

fn read(lab: &mut Lab, rest: &str) -> Result<(), TextError> {
    let saved = saved_of(lab, rest)?;
    tell_value(
        &mut lab.text,
        asked(lab.mode, &lab.session, &lab.context),
        saved,
    );
    Ok(())
}

// Writes what is told of what was saved.
fn tell_value(text: &mut Reply, ctx: &Context<Toy>, saved: Saved) {
    match saved {
        Saved::Text(key) => tell_key(text, ctx, key),
        Saved::Unsigned(key) => tell_key(text, ctx, key),
        Saved::Signed(key) => tell_key(text, ctx, key),
        Saved::UniqueText(saved) => tell_uniqued(text, ctx, saved),
        Saved::UniqueUnsigned(saved) => tell_uniqued(text, ctx, saved),
        Saved::UniqueSigned(saved) => tell_uniqued(text, ctx, saved),
    }
}

// Writes what the key of a saved value tells.
fn tell_key<T: SavedValue<Toy> + Display>(
    text: &mut Reply,
    ctx: &Context<Toy>,
    key: UniquedKey<T>,
) {
    text.show("place ", key.index());
    text.show(" known ", key.is_known(ctx));
    text.show(" there ", ctx.saved_at(key.index()).is_some());
    if key.is_known(ctx) {
        text.show(" value ", get(ctx, key));
    }
}

// Writes what a saved value tells.
fn tell_uniqued<T: SavedValue<Toy> + Display>(
    text: &mut Reply,
    ctx: &Context<Toy>,
    saved: Uniqued<T>,
) {
    text.show("place ", saved.key().index());
    text.show(" known ", saved.key().is_known(ctx));
    if saved.key().is_known(ctx) {
        text.show(" value ", saved.get(ctx));
    }
}
