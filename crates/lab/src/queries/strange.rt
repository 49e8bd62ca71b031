//! Handles, values and uses by their indices, so that they may be ones that the context never gave.

use crate::queries::{nesting, values};
use ir_base_dialects::{ArenaIndex, Ptr};
use ir_view_parts::{Definer, Use, UseIndex, Value, ValueIndex};
use testkit_lab::{Lab, Reply, TextError, take_field, three};

// A number of a field.
fn number(field: &str) -> Result<u32, TextError> {
    match field.parse() {
        Ok(number) => Ok(number),
        Err(_) => Err(TextError::Malformed),
    }
}

// A letter, and the slot and the version behind it.
fn strange(rest: &str) -> Result<(&str, ArenaIndex), TextError> {
    match three(rest) {
        Ok((letter, slot, version)) => match (number(slot), number(version)) {
            (Ok(slot), Ok(version)) => Ok((letter, ArenaIndex { slot, version })),
            _ => Err(TextError::Malformed),
        },
        Err(error) => Err(error),
    }
}

// A number in front, and a letter, a slot and a version behind it.
fn numbered(rest: &str) -> Result<(u64, &str, ArenaIndex), TextError> {
    match take_field(rest) {
        Some((field, rest)) => match (number(field), strange(rest)) {
            (Ok(number), Ok((letter, index))) => Ok((u64::from(number), letter, index)),
            _ => Err(TextError::Malformed),
        },
        None => Err(TextError::Malformed),
    }
}

/// `LETTER SLOT VERSION`: what is told of the handle of an operation, a block or a region, by its letter.
pub(crate) fn handle(text: &mut Reply, lab: &Lab, rest: &str) {
    match strange(rest) {
        Ok(("o", index)) => nesting::write_op(text, lab, Ptr::from_index(index)),
        Ok(("b", index)) => nesting::write_block(text, lab, Ptr::from_index(index)),
        Ok(("r", index)) => nesting::write_region(text, lab, Ptr::from_index(index)),
        _ => text.fail(TextError::Malformed),
    }
}

/// `NUMBER LETTER SLOT VERSION`: what is read of the value with this number of the operation or the block, or of the operand or the successor with this number of the operation, as a use.
pub(crate) fn read(text: &mut Reply, lab: &Lab, word: &str, rest: &str) {
    match (word, numbered(rest)) {
        ("value.strange", Ok((number, letter, index))) => {
            let definer = definer(letter, index);
            values::write_value(text, lab, Value::from_index(ValueIndex { definer, number }));
        }
        ("use.strange", Ok((number, _letter, user))) => {
            values::write_value_use(text, lab, Use::from_index(UseIndex { user, number }));
        }
        ("use.strange_successor", Ok((number, _letter, user))) => {
            values::write_block_use(text, lab, Use::from_index(UseIndex { user, number }));
        }
        _ => text.fail(TextError::Malformed),
    }
}

// The operation or the block, by its letter.
fn definer(letter: &str, index: ArenaIndex) -> Definer {
    match letter {
        "o" => Definer::Op(index),
        _ => Definer::Block(index),
    }
}
