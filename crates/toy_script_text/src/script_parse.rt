//! Reading of scripts: from their text to the edits and verifications that they ask for.
//!
//! A script is lines that are ended by LF, which the last may lack; a CR before an LF is dropped. A line that is empty, that has spaces alone, or whose first character is `#` is skipped and counted. Other lines are fields with spaces between them.

ghost use Rattle.std.specs.Prelude.{◌≡◌, ◌<◌, ◌≤◌, IfOk, IfErr, Some};
ghost use Rattle.toy_script_text.specs.Fields.{AreNames};
ghost use Rattle.toy_script_text.specs.Lines.{letter_text};
ghost use Rattle.toy_script_text.specs.Outcomes.{IsOfReading};
ghost use Rattle.toy_script_text.specs.declared.script_parse.LineError.TheVariants.{OutOfMemory};

use crate::script_error::ScriptError;
use crate::script_fields::{
    is_skipped, only_field, parse_kind, parse_name, parse_number, split_field, split_two_fields,
};
use ir_run_edits::Edit;
use std::alloc::{AllocFailed, Global};
use std::fmt;
use std::mem::replace;
use toy_dialect::{Toy, ToyType};

/// What an edit makes, or, where it makes nothing, what it changes, as the letter of its name.
#[derive(Clone, Copy, Debug, Drop, PartialEq, Eq)]
pub enum Letter {
    /// A type.
    Type,
    /// An operation.
    Operation,
    /// A block.
    Block,
    /// A region.
    Region,
    /// A value.
    Value,
}

impl fmt::Display for Letter {
    ghost output = { λ letter. Some (letter_text letter) };

    fn fmt<W: fmt::Write>(&self, f: &mut fmt::Formatter<W>) -> fmt::Result {
        f.write_str(match self {
            Letter::Type => "t",
            Letter::Operation => "o",
            Letter::Block => "b",
            Letter::Region => "r",
            Letter::Value => "v",
        })
    }
}

/// A part of a script: edits, for each of them what it makes or changes, and a verification after them.
#[derive(Drop)]
pub struct Part {
    /// The edits, in the order of their lines.
    pub edits: Vec<Edit<Toy>>,
    /// The letter for each edit.
    pub letters: Vec<Letter>,
    /// The operation that is verified after them; none in the last part.
    pub verified: Option<usize>,
}

// What a line asks for.
#[derive(Drop)]
enum Step {
    Edit(Letter, Edit<Toy>),
    Verify(usize),
}

// Why a line asks for nothing.
#[derive(Drop)]
enum LineError {
    Malformed,
    OutOfMemory,
}

impl From<AllocFailed<usize>> for LineError {
    ghost from_gives = { λ _ e. e ≡ OutOfMemory };

    fn from(_error: AllocFailed<usize>) -> LineError {
        LineError::OutOfMemory
    }
}

/// The parts of a script, of which each but the last ends with a verification.
///
/// # Errors
/// `Malformed` with the first malformed line, and `OutOfMemory` where a growth was refused before one was found.
pub fn parse_script(alloc: Global, text: &str) -> Result<Vec<Part>, ScriptError>
    ensures error { IfErr result IsOfReading }
{
    let mut parts = Vec::new(alloc);
    let mut part = new_part(alloc);
    for (index, line) in text.lines().enumerate() {
        if !is_skipped(line) {
            take_line(alloc, &mut parts, &mut part, index as u64 + 1, line)?;
        }
    }
    parts.push(part)?;
    Ok(parts)
}

// Takes the line with this number into the part.
fn take_line(
    alloc: Global,
    parts: &mut Vec<Part>,
    part: &mut Part,
    number: u64,
    line: &str,
) -> Result<(), ScriptError>
    requires { 1 ≤ number }
    ensures error { IfErr result IsOfReading }
{
    match parse_step(alloc, line) {
        Ok(step) => take_step(alloc, parts, part, step),
        Err(error) => Err(fault_at(number, error)),
    }
}

// Why a script isn't done whose line with this number asks for nothing.
fn fault_at(number: u64, error: LineError) -> ScriptError
    requires { 1 ≤ number }
    ensures of_reading { IsOfReading result }
    ensures memory { error ≡ LineError.OutOfMemory → result ≡ ScriptError.OutOfMemory }
    ensures malformed { error ≡ LineError.Malformed → result ≡ ScriptError.Malformed number }
{
    match error {
        LineError::OutOfMemory => ScriptError::OutOfMemory,
        LineError::Malformed => ScriptError::Malformed { line: number },
    }
}

// Puts an edit behind the others of the part, or ends the part with a verification.
fn take_step(
    alloc: Global,
    parts: &mut Vec<Part>,
    part: &mut Part,
    step: Step,
) -> Result<(), ScriptError>
    ensures memory { IfErr result (λ e. e ≡ ScriptError.OutOfMemory) }
{
    match step {
        Step::Edit(letter, edit) => {
            part.letters.push(letter)?;
            part.edits.push(edit)?;
            Ok(())
        }
        Step::Verify(op) => end_part(alloc, parts, part, op),
    }
}

// Puts the part behind the others, with the operation that is verified after it, and begins a new one.
fn end_part(
    alloc: Global,
    parts: &mut Vec<Part>,
    part: &mut Part,
    op: usize,
) -> Result<(), ScriptError>
    ensures memory { IfErr result (λ e. e ≡ ScriptError.OutOfMemory) }
{
    part.verified = Some(op);
    parts.push(replace(part, new_part(alloc)))?;
    Ok(())
}

// A part with no edits.
fn new_part(alloc: Global) -> Part {
    Part {
        edits: Vec::new(alloc),
        letters: Vec::new(alloc),
        verified: None,
    }
}

// What a line asks for: a verification, or an edit.
fn parse_step(alloc: Global, line: &str) -> Result<Step, LineError> {
    let (first, rest) = split_field(line).ok_or(LineError::Malformed)?;
    if first == "verify" {
        let op = parse_one_name('o', rest).ok_or(LineError::Malformed)?;
        Ok(Step::Verify(op))
    } else {
        let (letter, edit) = parse_line(alloc, first, rest)?;
        Ok(Step::Edit(letter, edit))
    }
}

// The edit that a line with this first field asks for, and what it makes or changes.
fn parse_line(alloc: Global, first: &str, rest: &str) -> Result<(Letter, Edit<Toy>), LineError> {
    if first == "op" {
        Ok((Letter::Operation, parse_op(alloc, rest)?))
    } else if first == "block" {
        Ok((Letter::Block, parse_block(alloc, rest)?))
    } else {
        parse_short_line(first, rest).ok_or(LineError::Malformed)
    }
}

// The same for a line that takes no lists.
fn parse_short_line(first: &str, rest: &str) -> Option<(Letter, Edit<Toy>)> {
    if first == "type" {
        Some((Letter::Type, parse_type(rest)?))
    } else if first == "backb" {
        let (block, region) = parse_two_names('b', 'r', rest)?;
        Some((Letter::Block, Edit::BlockBack { block, region }))
    } else if first == "move" {
        let (region, op) = parse_two_names('r', 'o', rest)?;
        Some((Letter::Region, Edit::MoveRegion { region, op }))
    } else {
        parse_use_change(first, rest)
    }
}

// The same for a line that lets all uses of a value name another, or changes the operation that it names first.
fn parse_use_change(first: &str, rest: &str) -> Option<(Letter, Edit<Toy>)> {
    if first == "rauw" {
        let (old, new) = parse_two_names('v', 'v', rest)?;
        Some((Letter::Value, Edit::ReplaceAllUses { old, new }))
    } else {
        Some((Letter::Operation, parse_op_change(first, rest)?))
    }
}

// The edit of a line that changes the operation that it names first.
fn parse_op_change(first: &str, rest: &str) -> Option<Edit<Toy>> {
    if first == "push" {
        let (op, value) = parse_two_names('o', 'v', rest)?;
        Some(Edit::PushOperand { op, value })
    } else if first == "set" {
        parse_set(rest)
    } else if first == "succ" {
        let (op, block) = parse_two_names('o', 'b', rest)?;
        Some(Edit::PushSuccessor { op, block })
    } else {
        parse_op_place(first, rest)
    }
}

// The edit of a line that puts the operation that it names first into a block, takes it out, or erases it.
fn parse_op_place(first: &str, rest: &str) -> Option<Edit<Toy>> {
    if first == "back" {
        let (op, block) = parse_two_names('o', 'b', rest)?;
        Some(Edit::OpBack { op, block })
    } else if first == "unlink" {
        let op = parse_one_name('o', rest)?;
        Some(Edit::UnlinkOp { op })
    } else if first == "erase" {
        let op = parse_one_name('o', rest)?;
        Some(Edit::EraseOp { op })
    } else {
        None
    }
}

// The fields of `type N`.
fn parse_type(text: &str) -> Option<Edit<Toy>> {
    let width = parse_number(only_field(text)?)?;
    Some(Edit::NewType(ToyType::Int { width }))
}

// The fields of `op K types values blocks N`.
fn parse_op(alloc: Global, text: &str) -> Result<Edit<Toy>, LineError> {
    let (kind, types, rest) = split_two_fields(text).ok_or(LineError::Malformed)?;
    let (values, blocks, rest) = split_two_fields(rest).ok_or(LineError::Malformed)?;
    let (kind, regions) = parse_counts(kind, rest).ok_or(LineError::Malformed)?;
    Ok(Edit::NewOp {
        kind,
        types: parse_names(alloc, 't', types)?,
        operands: parse_names(alloc, 'v', values)?,
        successors: parse_names(alloc, 'b', blocks)?,
        regions,
    })
}

// The kind of an operation, and its count of regions, the only field of the second text.
fn parse_counts(kind: &str, regions: &str) -> Option<(u32, usize)> {
    let kind = parse_kind(kind)?;
    let regions = parse_number(only_field(regions)?)?;
    Some((kind, regions as usize))
}

// The fields of `block types`.
fn parse_block(alloc: Global, text: &str) -> Result<Edit<Toy>, LineError> {
    let types = only_field(text).ok_or(LineError::Malformed)?;
    Ok(Edit::NewBlock {
        label: None,
        types: parse_names(alloc, 't', types)?,
    })
}

// The fields of `set o I v`.
fn parse_set(text: &str) -> Option<Edit<Toy>> {
    let (op, at, rest) = split_two_fields(text)?;
    Some(Edit::ReplaceOperand {
        op: parse_name('o', op)?,
        at: parse_number(at)? as usize,
        value: parse_one_name('v', rest)?,
    })
}

// The only field, a name with this letter.
fn parse_one_name(letter: char, text: &str) -> Option<usize>
    requires { letter < 128 }
{
    parse_name(letter, only_field(text)?)
}

// The only two fields, names with these letters.
fn parse_two_names(letter: char, other_letter: char, text: &str) -> Option<(usize, usize)>
    requires letter { letter < 128 }
    requires other_letter { other_letter < 128 }
{
    let (name, rest) = split_field(text)?;
    let name = parse_name(letter, name)?;
    let other = parse_one_name(other_letter, rest)?;
    Some((name, other))
}

// A list of names with this letter: `-`, or names with single commas between them.
fn parse_names(alloc: Global, letter: char, text: &str) -> Result<Vec<usize>, LineError>
    requires { letter < 128 }
    ensures names { IfOk result (λ numbers. AreNames letter text.now numbers.items) }
{
    let mut numbers = Vec::new(alloc);
    if text == "-" {
        return Ok(numbers);
    }
    for name in text.split(',') {
        let number = parse_name(letter, name).ok_or(LineError::Malformed)?;
        numbers.push(number)?;
    }
    Ok(numbers)
}
