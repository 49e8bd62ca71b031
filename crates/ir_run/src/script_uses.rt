//! The listing at the end of a script: each live value and each live block, with the places that name it.
//!
//! It walks the operands and successors of the live operations once, and no list of uses.

use ir_base_dialects::Ptr;
use ir_run_sessions::{
    BasicBlock, BlockPtr, Operation, OperationPtr, Session, Value, ValueQueries,
};
use std::alloc::{AllocError, Global};
use std::collections::HashMap;
use toy_dialect::Toy;

// A place that names a value or a block: the number of what it names, the number of the operation, and its index there.
type Naming = (usize, usize, usize);

// The number of each value, and that of each block.
type Numbers = (
    HashMap<Value<Toy>, usize>,
    HashMap<Ptr<BasicBlock<Toy>>, usize>,
);

/// The live values by number, and then the live blocks by number, one a line, each with its uses by operation and index.
pub(crate) fn uses_text(alloc: Global, session: &Session<Toy>) -> Result<String, AllocError> {
    let (operands, successors) = namings(alloc, session)?;
    let mut text = String::new(alloc);
    write_values(&mut text, session, operands.as_slice())?;
    write_blocks(&mut text, session, successors.as_slice())?;
    Ok(text)
}

// Writes the lines of the live values, whose uses are the sorted ones.
fn write_values(
    text: &mut String,
    session: &Session<Toy>,
    uses: &[Naming],
) -> Result<(), AllocError> {
    let mut left = uses;
    for number in 0..usize::MAX {
        let Some(value) = session.value(number) else {
            break;
        };
        if value.is_live(session.ctx()) {
            left = write_uses(text, 'v', number, left)?;
        }
    }
    Ok(())
}

// Writes the lines of the live blocks, whose uses are the sorted ones.
fn write_blocks(
    text: &mut String,
    session: &Session<Toy>,
    uses: &[Naming],
) -> Result<(), AllocError> {
    let mut left = uses;
    for number in 0..usize::MAX {
        let Some(block) = session.block(number) else {
            break;
        };
        if block.is_live(session.ctx()) {
            left = write_uses(text, 'b', number, left)?;
        }
    }
    Ok(())
}

// Writes the line of a value or block, whose uses come first among those that are left, and answers the others.
fn write_uses<'a>(
    text: &mut String,
    letter: char,
    number: usize,
    left: &'a [Naming],
) -> Result<&'a [Naming], AllocError> {
    let (uses, left) = left.split_at(left.partition_point(|naming| naming.0 <= number));
    write!(text, "{letter}{number}:")?;
    for (_, op, index) in uses {
        write!(text, " o{op}.{index}")?;
    }
    text.push_str("\n")?;
    Ok(left)
}

// The operands of the live operations, and their successors, each sorted.
fn namings(
    alloc: Global,
    session: &Session<Toy>,
) -> Result<(Vec<Naming>, Vec<Naming>), AllocError> {
    let numbers = (
        value_numbers(alloc, session)?,
        block_numbers(alloc, session)?,
    );
    let mut operands = Vec::new(alloc);
    let mut successors = Vec::new(alloc);
    push_all(&mut operands, &mut successors, session, &numbers)?;
    operands.sort()?;
    successors.sort()?;
    Ok((operands, successors))
}

// Puts the operands and the successors of all live operations behind the others.
fn push_all(
    operands: &mut Vec<Naming>,
    successors: &mut Vec<Naming>,
    session: &Session<Toy>,
    numbers: &Numbers,
) -> Result<(), AllocError> {
    for number in 0..usize::MAX {
        let Some(op) = session.op(number) else {
            break;
        };
        if let Ok(op) = op.try_deref(session.ctx()) {
            push_operands(operands, &numbers.0, number, op)?;
            push_successors(successors, &numbers.1, number, op)?;
        }
    }
    Ok(())
}

// Puts an operation's operands behind the others.
fn push_operands(
    namings: &mut Vec<Naming>,
    values: &HashMap<Value<Toy>, usize>,
    number: usize,
    op: &Operation<Toy>,
) -> Result<(), AllocError> {
    for index in 0..op.get_num_operands() {
        if let Some(value) = values.get(&op.get_operand(index)) {
            namings.push((*value, number, index))?;
        }
    }
    Ok(())
}

// Puts an operation's successors behind the others.
fn push_successors(
    namings: &mut Vec<Naming>,
    blocks: &HashMap<Ptr<BasicBlock<Toy>>, usize>,
    number: usize,
    op: &Operation<Toy>,
) -> Result<(), AllocError> {
    for index in 0..op.get_num_successors() {
        if let Some(block) = blocks.get(&op.get_successor(index)) {
            namings.push((*block, number, index))?;
        }
    }
    Ok(())
}

// The number of each value of the session.
fn value_numbers(
    alloc: Global,
    session: &Session<Toy>,
) -> Result<HashMap<Value<Toy>, usize>, AllocError> {
    let mut numbers = HashMap::new(alloc);
    for number in 0..usize::MAX {
        let Some(value) = session.value(number) else {
            break;
        };
        numbers.insert(value, number)?;
    }
    Ok(numbers)
}

// The number of each block of the session.
fn block_numbers(
    alloc: Global,
    session: &Session<Toy>,
) -> Result<HashMap<Ptr<BasicBlock<Toy>>, usize>, AllocError> {
    let mut numbers = HashMap::new(alloc);
    for number in 0..usize::MAX {
        let Some(block) = session.block(number) else {
            break;
        };
        numbers.insert(block, number)?;
    }
    Ok(numbers)
}
