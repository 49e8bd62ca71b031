//! Which types can stand behind an arrow in no parentheses: those that are a name, or a name and one group in angle brackets.
ghost use Rattle.std.specs.Prelude.{◌≡◌, ◌⊎◌, ◌≤◌, ◌^◌, length, IfErr};

use crate::error::DescribeErr;
use ir_text_reader::{Fault, parse};
use ir_text_tree::{Part, Row};
use std::alloc::Global;

// An operation up to its arrow, behind which the type of its one result is wanted.
fn front() -> &'static [u8] {
    "\"\"() : () -> ".as_bytes()
}

// Whether the last of two rows is a type in no parentheses, and all that stands between these places.
fn is_only_type(rows: &[Row], start: usize, end: usize) -> bool {
    match rows {
        [_, row] => {
            row.part == Part::OnlyResultType
                && row.span.start as usize == start
                && row.span.end as usize == end
        }
        _ => false,
    }
}

/// Whether the text of a type can stand behind an arrow in no parentheses: whether it is read there as one type. Of a text that is too long to be tried no is said.
///
/// # Errors
/// `OutOfMemory`, and `TooLong` where the text is longer than 4,294,967,295 bytes.
pub(crate) fn is_bare_type(alloc: Global, text: &[u8]) -> Result<bool, DescribeErr>
    ensures long { IfErr result (λ e. e ≡ DescribeErr.TooLong → 2 ^ 32 ≤ length text.now) }
    ensures error { IfErr result (λ e. (e ≡ DescribeErr.OutOfMemory) ⊎ (e ≡ DescribeErr.TooLong)) }
{
    if text.len() > 4294967295 {
        return Err(DescribeErr::TooLong);
    }
    let front = front();
    let mut trial = Vec::new(alloc);
    trial.extend_from_slice(front)?;
    trial.extend_from_slice(text)?;
    match parse(alloc, &trial) {
        Ok(tree) => Ok(is_only_type(&tree.rows, front.len(), trial.len())),
        Err(Fault::OutOfMemory) => Err(DescribeErr::OutOfMemory),
        Err(_) => Ok(false),
    }
}
