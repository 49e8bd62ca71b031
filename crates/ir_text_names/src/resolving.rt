//! All names of a tree.
ghost use Rattle.std.specs.Prelude.{length, IfOk};
ghost use Rattle.ir_text_names.specs.Blocks.{AreBlocksNamed};
ghost use Rattle.ir_text_names.specs.Firsts.{IsChecked};
ghost use Rattle.ir_text_names.specs.Resolved.{IsWrong};
ghost use Rattle.ir_text_names.specs.Values.{AreValuesNamed};

use crate::block_names::block_table;
use crate::counting::{part_counts, type_fault};
use crate::dictionary_keys::key_fault;
use crate::fault::Fault;
use crate::firsts::{fault_of, sooner};
use crate::result_numbers::result_fault;
use crate::row_table::RowTable;
use crate::rows::{are_few, operations, regions};
use crate::value_names::value_table;
use crate::value_types::SpareRoom;
use ir_text_tree::Row;
use std::alloc::Global;

/// What the names of a tree mean.
#[derive(Drop)]
pub struct Names {
    /// For each row the row of the block that it names, if it is a successor.
    pub blocks: RowTable,
    /// For each row the row of the definition that it names, if it is an operand.
    pub values: RowTable,
}

/// What the names of a tree of that text mean.
///
/// # Errors
/// `OutOfMemory`, also of more than 4,294,967,294 rows, and else the first fault in the text.
pub fn resolve(alloc: Global, text: &[u8], rows: &[Row]) -> Result<Names, Fault>
    // A successor means the block of its name in its own region.
    ensures blocks { IfOk result (λ n. AreBlocksNamed text.now rows.now (length rows.now) n.blocks) }
    // An operand means the definition of its name in its own region or in one around that.
    ensures values { IfOk result (λ n. AreValuesNamed text.now rows.now (length rows.now) n.values) }
    // All is well, or the first fault is told.
    ensures checked { IsChecked (IsWrong text.now rows.now) rows.now result }
{
    are_few(rows)?;
    let operations = operations(alloc, rows)?;
    let counts = part_counts(alloc, rows, &operations)?;
    let keys = key_fault(alloc, text, rows, &operations, &counts)?;
    let types = type_fault(rows, &counts);
    let results = result_fault(text, rows, &counts);
    let for_values = regions(alloc, rows, Vec::new(alloc))?;
    let values = value_table(alloc, text, rows, operations, counts, for_values)?;
    let SpareRoom { one, other } = values.spare;
    // They are told anew, so that no table of blocks is held beside those of values.
    let for_blocks = regions(alloc, rows, one)?;
    let blocks = block_table(alloc, text, rows, &for_blocks, other)?;
    let places = sooner(blocks.found, keys);
    let numbers = sooner(types, results);
    let uses = sooner(numbers, values.found);
    let found = sooner(places, uses);
    match fault_of(rows, found) {
        Some(fault) => Err(fault),
        None => Ok(Names {
            blocks: blocks.table,
            values: values.table,
        }),
    }
}
