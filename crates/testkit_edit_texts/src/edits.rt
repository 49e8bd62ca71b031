//! Edits as lines.

use crate::error::TextError;
use crate::fields::{NO_LETTER, list, number, one, take_field, three, two};
use ir_base_dialects::Identifier;
use ir_run_edits::Edit;
use std::alloc::Global;
use toy_dialect::{Toy, ToyType};

/// The edit of a line.
///
/// # Errors
/// `Malformed` where it has no form of an edit, and `OutOfMemory`.
pub fn parse_edit(alloc: Global, line: &str) -> Result<Edit<Toy>, TextError> {
    match take_field(line) {
        Some((word, rest)) => edit_of(alloc, word, rest),
        None => Err(TextError::Malformed),
    }
}

/// The edit of a word and its fields.
///
/// # Errors
/// `Malformed` where they are none, and `OutOfMemory`.
pub fn edit_of(alloc: Global, word: &str, rest: &str) -> Result<Edit<Toy>, TextError> {
    if word == "new-type" {
        return new_type(alloc, rest);
    }
    if word == "new-op" {
        return new_op(alloc, rest);
    }
    if word == "new-block" {
        return new_block(alloc, rest);
    }
    match change(word, rest) {
        Some(edit) => Ok(edit),
        None => Err(TextError::Malformed),
    }
}

/// The edits of a text's lines, without those that are empty.
///
/// # Errors
/// `Malformed` where a line has no form of an edit, and `OutOfMemory`.
pub fn parse_edits(alloc: Global, text: &str) -> Result<Vec<Edit<Toy>>, TextError> {
    let mut edits = Vec::new(alloc);
    for line in text.split('\n') {
        if !line.is_empty() {
            edits.push(parse_edit(alloc, line)?)?;
        }
    }
    Ok(edits)
}

// An edit that makes nothing of its own, or one thing in something else.
fn change(word: &str, rest: &str) -> Option<Edit<Toy>> {
    if word.starts_with("op-") {
        op_edit(word, rest)
    } else if word.starts_with("block-") {
        block_edit(word, rest)
    } else if word.starts_with("unlink-") {
        unlink_edit(word, rest)
    } else if word.starts_with("drop-") {
        drop_edit(word, rest)
    } else if word.starts_with("erase-") {
        erase_edit(word, rest)
    } else {
        part_edit(word, rest)
    }
}

// An edit of a part of an operation or a block, or one that none of the words above begins.
fn part_edit(word: &str, rest: &str) -> Option<Edit<Toy>> {
    if word.starts_with("remove-") {
        remove_edit(word, rest)
    } else if word.ends_with("-result") {
        result_edit(word, rest)
    } else if word.ends_with("-argument") {
        argument_edit(word, rest)
    } else if word.ends_with("-operand") {
        operand_edit(word, rest)
    } else if word.ends_with("-successor") {
        successor_edit(word, rest)
    } else {
        other_edit(word, rest)
    }
}

// The first field, which must be there.
fn field(text: &str) -> Result<(&str, &str), TextError> {
    take_field(text).ok_or(TextError::Malformed)
}

// The first two fields, which must be there, and the text behind them.
fn two_fields(text: &str) -> Result<(&str, &str, &str), TextError> {
    let (first, rest) = field(text)?;
    let (second, rest) = field(rest)?;
    Ok((first, second, rest))
}

// The identifier of a text.
fn identifier(alloc: Global, text: &str) -> Result<Identifier, TextError> {
    if !Identifier::is_valid(text) {
        return Err(TextError::Malformed);
    }
    match Identifier::from_text(alloc, text) {
        Ok(identifier) => Ok(identifier),
        Err(_) => Err(TextError::OutOfMemory),
    }
}

// The fields of `new-type KEY`.
fn new_type(alloc: Global, text: &str) -> Result<Edit<Toy>, TextError> {
    let (key, _rest) = field(text)?;
    if let Ok(width) = key.parse() {
        return Ok(Edit::NewType(ToyType::Int { width }));
    }
    Ok(Edit::NewType(ToyType::Named(identifier(alloc, key)?)))
}

// The fields of `new-op KIND TYPES VALUES BLOCKS COUNT`.
fn new_op(alloc: Global, text: &str) -> Result<Edit<Toy>, TextError> {
    let (kind, types, rest) = two_fields(text)?;
    let (operands, successors, rest) = two_fields(rest)?;
    let numbers = kind_and_regions(kind, rest)?;
    op_of_lists(alloc, numbers, types, operands, successors)
}

// An edit that makes an operation, of the numbers of its kind and regions and the texts of its lists.
fn op_of_lists(
    alloc: Global,
    numbers: (u32, usize),
    types: &str,
    operands: &str,
    successors: &str,
) -> Result<Edit<Toy>, TextError> {
    let (kind, regions) = numbers;
    Ok(Edit::NewOp {
        kind,
        types: list(alloc, 't', types)?,
        operands: list(alloc, 'v', operands)?,
        successors: list(alloc, 'b', successors)?,
        regions,
    })
}

// The numbers of the fields `KIND` and `COUNT`.
fn kind_and_regions(kind: &str, count: &str) -> Result<(u32, usize), TextError> {
    let Ok(kind) = kind.parse() else {
        return Err(TextError::Malformed);
    };
    match one(NO_LETTER, count) {
        Some(regions) => Ok((kind, regions)),
        None => Err(TextError::Malformed),
    }
}

// The fields of `new-block LABEL TYPES`.
fn new_block(alloc: Global, text: &str) -> Result<Edit<Toy>, TextError> {
    let (label, types, _rest) = two_fields(text)?;
    let types = list(alloc, 't', types)?;
    let label = if label == "-" {
        None
    } else {
        Some(identifier(alloc, label)?)
    };
    Ok(Edit::NewBlock { label, types })
}

// An edit that puts a result in.
fn result_edit(word: &str, rest: &str) -> Option<Edit<Toy>> {
    if word == "push-result" {
        let (op, ty) = two('o', 't', rest)?;
        Some(Edit::PushResult { op, ty })
    } else if word == "insert-result" {
        let (op, at, ty) = three('o', 't', rest)?;
        Some(Edit::InsertResult { op, at, ty })
    } else {
        None
    }
}

// An edit that puts an argument in.
fn argument_edit(word: &str, rest: &str) -> Option<Edit<Toy>> {
    if word == "push-argument" {
        let (block, ty) = two('b', 't', rest)?;
        Some(Edit::PushArgument { block, ty })
    } else if word == "insert-argument" {
        let (block, at, ty) = three('b', 't', rest)?;
        Some(Edit::InsertArgument { block, at, ty })
    } else {
        None
    }
}

// An edit that puts an operand in or replaces one.
fn operand_edit(word: &str, rest: &str) -> Option<Edit<Toy>> {
    if word == "push-operand" {
        let (op, value) = two('o', 'v', rest)?;
        return Some(Edit::PushOperand { op, value });
    }
    let (op, at, value) = three('o', 'v', rest)?;
    if word == "insert-operand" {
        Some(Edit::InsertOperand { op, at, value })
    } else if word == "replace-operand" {
        Some(Edit::ReplaceOperand { op, at, value })
    } else {
        None
    }
}

// An edit that puts a successor in or replaces one.
fn successor_edit(word: &str, rest: &str) -> Option<Edit<Toy>> {
    if word == "push-successor" {
        let (op, block) = two('o', 'b', rest)?;
        return Some(Edit::PushSuccessor { op, block });
    }
    let (op, at, block) = three('o', 'b', rest)?;
    if word == "insert-successor" {
        Some(Edit::InsertSuccessor { op, at, block })
    } else if word == "replace-successor" {
        Some(Edit::ReplaceSuccessor { op, at, block })
    } else {
        None
    }
}

// An edit that takes a result, an argument, an operand or a successor out.
fn remove_edit(word: &str, rest: &str) -> Option<Edit<Toy>> {
    if word == "remove-argument" {
        let (block, at) = two('b', NO_LETTER, rest)?;
        return Some(Edit::RemoveArgument { block, at });
    }
    let (op, at) = two('o', NO_LETTER, rest)?;
    if word == "remove-result" {
        Some(Edit::RemoveResult { op, at })
    } else if word == "remove-operand" {
        Some(Edit::RemoveOperand { op, at })
    } else if word == "remove-successor" {
        Some(Edit::RemoveSuccessor { op, at })
    } else {
        None
    }
}

// An edit that puts an operation into a block.
fn op_edit(word: &str, rest: &str) -> Option<Edit<Toy>> {
    if word == "op-before" || word == "op-after" {
        return op_beside(word, rest);
    }
    let (op, block) = two('o', 'b', rest)?;
    if word == "op-front" {
        Some(Edit::OpFront { op, block })
    } else if word == "op-back" {
        Some(Edit::OpBack { op, block })
    } else {
        None
    }
}

// An edit that puts an operation before another, or after it.
fn op_beside(word: &str, rest: &str) -> Option<Edit<Toy>> {
    let (op, mark) = two('o', 'o', rest)?;
    if word == "op-before" {
        Some(Edit::OpBefore { op, mark })
    } else {
        Some(Edit::OpAfter { op, mark })
    }
}

// An edit that puts a block into a region.
fn block_edit(word: &str, rest: &str) -> Option<Edit<Toy>> {
    if word == "block-before" || word == "block-after" {
        return block_beside(word, rest);
    }
    let (block, region) = two('b', 'r', rest)?;
    if word == "block-front" {
        Some(Edit::BlockFront { block, region })
    } else if word == "block-back" {
        Some(Edit::BlockBack { block, region })
    } else {
        None
    }
}

// An edit that puts a block before another, or after it.
fn block_beside(word: &str, rest: &str) -> Option<Edit<Toy>> {
    let (block, mark) = two('b', 'b', rest)?;
    if word == "block-before" {
        Some(Edit::BlockBefore { block, mark })
    } else {
        Some(Edit::BlockAfter { block, mark })
    }
}

// An edit that takes an operation or a block out of its list.
fn unlink_edit(word: &str, rest: &str) -> Option<Edit<Toy>> {
    if word == "unlink-op" {
        let op = one('o', rest)?;
        Some(Edit::UnlinkOp { op })
    } else if word == "unlink-block" {
        let block = one('b', rest)?;
        Some(Edit::UnlinkBlock { block })
    } else {
        None
    }
}

// An edit that drops the uses inside something.
fn drop_edit(word: &str, rest: &str) -> Option<Edit<Toy>> {
    if word == "drop-op-uses" {
        let op = one('o', rest)?;
        Some(Edit::DropOpUses { op })
    } else if word == "drop-block-uses" {
        let block = one('b', rest)?;
        Some(Edit::DropBlockUses { block })
    } else if word == "drop-region-uses" {
        let region = one('r', rest)?;
        Some(Edit::DropRegionUses { region })
    } else {
        None
    }
}

// An edit that erases something.
fn erase_edit(word: &str, rest: &str) -> Option<Edit<Toy>> {
    if word == "erase-op" {
        let op = one('o', rest)?;
        Some(Edit::EraseOp { op })
    } else if word == "erase-block" {
        let block = one('b', rest)?;
        Some(Edit::EraseBlock { block })
    } else if word == "erase-region" {
        let (op, at) = two('o', NO_LETTER, rest)?;
        Some(Edit::EraseRegion { op, at })
    } else {
        None
    }
}

// An edit of regions, or one of the next two kinds.
fn other_edit(word: &str, rest: &str) -> Option<Edit<Toy>> {
    if word == "add-region" {
        let op = one('o', rest)?;
        Some(Edit::AddRegion { op })
    } else if word == "move-region" {
        let (region, op) = two('r', 'o', rest)?;
        Some(Edit::MoveRegion { region, op })
    } else if word.starts_with("append-") {
        append_edit(word, rest)
    } else {
        redirect_edit(word, rest)
    }
}

// An edit that moves all that stands in one thing to the back of another.
fn append_edit(word: &str, rest: &str) -> Option<Edit<Toy>> {
    if word == "append-ops" {
        let (donee, donor) = two('b', 'b', rest)?;
        Some(Edit::AppendOps { donee, donor })
    } else if word == "append-blocks" {
        let (donee, donor) = two('r', 'r', rest)?;
        Some(Edit::AppendBlocks { donee, donor })
    } else {
        None
    }
}

// An edit that lets all that names one thing name another.
fn redirect_edit(word: &str, rest: &str) -> Option<Edit<Toy>> {
    if word == "replace-all-uses" {
        let (old, new) = two('v', 'v', rest)?;
        Some(Edit::ReplaceAllUses { old, new })
    } else if word == "retarget-all" {
        let (old, new) = two('b', 'b', rest)?;
        Some(Edit::RetargetAll { old, new })
    } else {
        None
    }
}
