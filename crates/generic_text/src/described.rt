//! Whether a tree describes operations of a context.
ghost use Rattle.std.specs.Prelude.{map, OnOk};
ghost use Rattle.ir_core_queries.specs.State.{forest_of};
ghost use Rattle.ir_text_described.specs.Described.{IsDescribedBy};
ghost use Rattle.ir_text_described.specs.Written.{AreWritten};
ghost use Rattle.generic_text.specs.Checks.{setting_of};
ghost use Rattle.generic_text.specs.GenericWords.{generic_words, named_tree};

use crate::check::Check;
use crate::described_error::DescribedErr;
use crate::noting::note_all;
use crate::pushing::push_all;
use crate::table::Table;
use crate::walk::read_all;
use generic_dialect::Generic;
use ir_base_dialects::Ptr;
use ir_core_queries::{Context, Operation};
use ir_text_described::Item;
use ir_text_names::{Names, Row};

// What the rows define, as the operations say it in their order.
fn note(
    ctx: &Context<Generic>,
    operations: &[Ptr<Operation<Generic>>],
    text: &[u8],
    rows: &[Row],
    names: &Names,
) -> Result<Table, DescribedErr> {
    let alloc = ctx.alloc();
    let mut table = Table::new(alloc, rows.len())?;
    let mut items = Vec::new(alloc);
    push_all(&mut items, operations)?;
    let check = Check {
        ctx,
        text,
        rows,
        names,
        table: &Table::new(alloc, 0)?,
        located: false,
    };
    note_all(&check, &mut table, &mut items)?;
    Ok(table)
}

// Whether the operations are written as the rows, which define what the table says.
fn compare(check: &Check, operations: &[Ptr<Operation<Generic>>]) -> Result<(), DescribedErr>
    ensures { OnOk result (AreWritten (setting_of check.now) (map (λ p. Item.Op p.index) operations.now) 0) }
{
    let mut items = Vec::new(check.ctx.alloc());
    push_all(&mut items, operations)?;
    read_all(check, &mut items)
}

/// Whether a tree describes these operations, in their order and with all that is inside them. `located` says whether it has the locations.
///
/// # Errors
/// `Differs` where the tree doesn't describe them, and `OutOfMemory`.
pub fn check_described(
    ctx: &Context<Generic>,
    operations: &[Ptr<Operation<Generic>>],
    text: &[u8],
    rows: &[Row],
    names: &Names,
    located: bool,
) -> Result<(), DescribedErr>
    ensures described { OnOk result (IsDescribedBy (forest_of ctx.now) (generic_words ctx.now) located (named_tree text.now rows.now names.now) (map (λ p. p.index) operations.now)) }
{
    let table = note(ctx, operations, text, rows, names)?;
    let check = Check {
        ctx,
        text,
        rows,
        names,
        table: &table,
        located,
    };
    compare(&check, operations)
}
