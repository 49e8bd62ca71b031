//! What is asked and done of a lab's context as a whole: what room is left, whether anything is there, place for more, and the way back to nothing.

use crate::lab::Lab;
use testkit_edit_texts::TextError;

/// Writes how many numbers and slots are left.
pub(crate) fn room(lab: &mut Lab, rest: &str) -> Result<(), TextError> {
    if !rest.is_empty() {
        return Err(TextError::Malformed);
    }
    let room = lab.ctx().room();
    lab.text.show("values ", room.values);
    lab.text.show(" uses ", room.uses);
    lab.text.show(" ops ", room.ops);
    lab.text.show(" blocks ", room.blocks);
    lab.text.show(" regions ", room.regions);
    Ok(())
}

/// Writes whether there is no operation, block and region.
pub(crate) fn is_empty(lab: &mut Lab, rest: &str) -> Result<(), TextError> {
    if !rest.is_empty() {
        return Err(TextError::Malformed);
    }
    let answer = if lab.ctx().is_ir_empty() { "yes" } else { "no" };
    lab.text.say(answer);
    Ok(())
}

/// Makes place for so many operations in the context.
pub(crate) fn reserve(lab: &mut Lab, rest: &str) -> Result<(), TextError> {
    let Ok(ops) = rest.parse() else {
        return Err(TextError::Malformed);
    };
    let answer = match lab.context.reserve(ops) {
        Ok(()) => "done",
        Err(_) => "refused memory",
    };
    lab.text.say(answer);
    Ok(())
}

/// Takes all operations, blocks and regions out of the context.
pub(crate) fn clear(lab: &mut Lab, rest: &str) -> Result<(), TextError> {
    if !rest.is_empty() {
        return Err(TextError::Malformed);
    }
    lab.context.clear();
    lab.text.say("done");
    Ok(())
}
