//! Tables with a row, or none, for each row of a tree.
ghost use Rattle.std.specs.Prelude.{◌≡◌, ◌<◌, ◌++◌, ◌∷◌, [], List, Option, ℕ, length, replicate, Some, None, IfOk, OnOk, IfSome, slice_index_or, slice_set};
ghost use Rattle.ir_text_names.specs.Entries.{all_entries, entry};

use std::alloc::{AllocError, Global};
use std::marker::Model;

/// For each row of a tree another row, or none, in four bytes. A contract sees it as the list of these.
#[derive(Drop)]
pub struct RowTable {
    // For each row 0, or 1 more than the other row.
    entries: Vec<u32>,
}

impl Model for RowTable {
    ghost use Rattle.std.specs.Prelude.{List, Option, ℕ};
    ghost use Rattle.ir_text_names.specs.Entries.{all_entries};

    ghost Value = { List (Option ℕ) };

    ghost view = { λ t. all_entries t.entries.items };
}

/// The number that stands for a row, or for none.
pub(crate) fn number_for(row: Option<usize>) -> u32
    requires { IfSome row (λ r. r < 4294967295) }
    ensures { entry result ≡ row }
{
    match row {
        None => 0,
        Some(row) => (row + 1) as u32,
    }
}

/// The row that a number stands for, if it stands for one.
pub(crate) fn entry(number: u32) -> Option<usize>
    ensures { result ≡ entry number }
{
    if number == 0 {
        None
    } else {
        Some(number as usize - 1)
    }
}

impl RowTable {
    /// How many rows have a place in it.
    pub fn len(&self) -> usize
        ensures { result ≡ length self.now }
    {
        self.entries.len()
    }

    /// What stands there for that row; none past the end.
    pub fn get(&self, row: usize) -> Option<usize>
        ensures { result ≡ slice_index_or self.now row None }
    {
        match self.entries.get(row) {
            Some(number) => entry(*number),
            None => None,
        }
    }

    /// An empty table with room for so many rows, in that of another table.
    pub(crate) fn in_room(room: Vec<u32>, rows: usize) -> Result<RowTable, AllocError>
        ensures { IfOk result (λ t. t ≡ []) }
    {
        let mut entries = room;
        entries.clear();
        entries.reserve(rows)?;
        Ok(RowTable { entries })
    }

    /// A table with none for each of so many rows.
    pub(crate) fn of_none(alloc: Global, rows: usize) -> Result<RowTable, AllocError>
        ensures { IfOk result (λ t. t ≡ replicate rows None) }
    {
        let entries = vec![in alloc; 0u32; rows]?;
        Ok(RowTable { entries })
    }

    /// The table of the rows that these numbers stand for, where 0 stands for none.
    pub(crate) fn of_numbers(entries: Vec<u32>) -> RowTable
        ensures { result ≡ all_entries entries.items }
    {
        RowTable { entries }
    }

    /// The numbers that stand for what it has.
    pub(crate) fn into_numbers(self) -> Vec<u32>
        ensures { all_entries result.items ≡ self }
    {
        self.entries
    }

    /// One row more.
    pub(crate) fn push(&mut self, row: Option<usize>) -> Result<(), AllocError>
        requires { IfSome row (λ r. r < 4294967295) }
        ensures { OnOk result (self.new ≡ self.old ++ row ∷ []) }
    {
        self.entries.push(number_for(row))?;
        Ok(())
    }

    /// What shall stand there for that row.
    pub(crate) fn set(&mut self, at: usize, row: Option<usize>)
        requires within { at < length self.old }
        requires fits { IfSome row (λ r. r < 4294967295) }
        ensures { self.new ≡ slice_set self.old at row }
    {
        self.entries[at] = number_for(row);
    }
}
