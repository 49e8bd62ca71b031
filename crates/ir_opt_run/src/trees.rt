//! A text read as a tree, with what its names mean.
ghost use Rattle.std.specs.Prelude.{IfOk};
ghost use Rattle.generic_text.specs.GenericWords.{block_named, value_named};
ghost use Rattle.ir_opt_run.specs.Modules.{IsReadAs};

use crate::fault::Fault;
use ir_text_names::{Names, resolve};
use ir_text_reader::{Row, parse};
use std::alloc::Global;

/// A tree, with what its names mean.
#[derive(Drop)]
pub(crate) struct NamedTree {
    /// Its rows.
    pub(crate) rows: Vec<Row>,
    /// What its names mean.
    pub(crate) names: Names,
}

/// Reads a text as a tree whose names all mean something.
///
/// # Errors
/// The first fault that stops the reading, or else the first of the names; and want of memory.
pub(crate) fn read_tree(alloc: Global, text: &[u8]) -> Result<NamedTree, Fault>
    ensures read { IfOk result (λ t. IsReadAs text.now t.rows.items (block_named t.names) (value_named t.names)) }
{
    let tree = parse(alloc, text)?;
    let names = resolve(alloc, text, tree.rows.as_slice())?;
    Ok(NamedTree {
        rows: tree.rows,
        names,
    })
}
