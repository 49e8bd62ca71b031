//! The parts of operations and blocks, by numbers.

use crate::tables::Tables;
use ir_core_queries::{BasicBlock, Operation};
use std::alloc::{AllocError, Global};
use toy_dialect::Toy;

/// The results of an operation.
pub(crate) fn results(
    alloc: Global,
    tables: &Tables,
    op: &Operation<Toy>,
) -> Result<Vec<usize>, AllocError> {
    let mut numbers = Vec::new(alloc);
    for index in 0..op.get_num_results() {
        numbers.push(tables.value_number(op.get_result(index)))?;
    }
    Ok(numbers)
}

/// The values that the operands of an operation name.
pub(crate) fn operands(
    alloc: Global,
    tables: &Tables,
    op: &Operation<Toy>,
) -> Result<Vec<usize>, AllocError> {
    let mut numbers = Vec::new(alloc);
    for index in 0..op.get_num_operands() {
        numbers.push(tables.value_number(op.get_operand(index)))?;
    }
    Ok(numbers)
}

/// The blocks that the successors of an operation name.
pub(crate) fn successors(
    alloc: Global,
    tables: &Tables,
    op: &Operation<Toy>,
) -> Result<Vec<usize>, AllocError> {
    let mut numbers = Vec::new(alloc);
    for index in 0..op.get_num_successors() {
        numbers.push(tables.block_number(op.get_successor(index)))?;
    }
    Ok(numbers)
}

/// The regions of an operation.
pub(crate) fn regions(
    alloc: Global,
    tables: &Tables,
    op: &Operation<Toy>,
) -> Result<Vec<usize>, AllocError> {
    let mut numbers = Vec::new(alloc);
    for index in 0..op.num_regions() {
        numbers.push(tables.region_number(op.get_region(index)))?;
    }
    Ok(numbers)
}

/// The arguments of a block.
pub(crate) fn arguments(
    alloc: Global,
    tables: &Tables,
    block: &BasicBlock<Toy>,
) -> Result<Vec<usize>, AllocError> {
    let mut numbers = Vec::new(alloc);
    for index in 0..block.get_num_arguments() {
        numbers.push(tables.value_number(block.get_argument(index)))?;
    }
    Ok(numbers)
}
