//! The names of an operation's results.
ghost use Rattle.std.specs.Prelude.{◌≡◌, ◌<◌, length, IfOk, IsTrue, Some};
ghost use Rattle.ir_model.specs.Forest.{an_op, of_op};
ghost use Rattle.ir_model.specs.Nesting.{IsLive, definitions_of};
ghost use Rattle.ir_core_queries.specs.State.{forest_of};
ghost use Rattle.ir_text_described.specs.Trees.{behind_result, part_at, width_at};
ghost use Rattle.ir_text_described.specs.Written.{AreResults};
ghost use Rattle.ir_text_names.specs.Numbers.{is_count};
ghost use Rattle.ir_text_tree.specs.declared.row.Part.TheVariants as parts;
ghost use Rattle.generic_text.specs.Checks.{setting_of};

use crate::check::Check;
use crate::described_error::DescribedErr;
use crate::rows::{behind, part_at};
use generic_dialect::Generic;
use ir_base_dialects::{ArenaIndex, Ptr};
use ir_core_queries::{Operation, OperationPtr};
use ir_core_records::Definer;
use ir_text_names::{Amount, Part, width};

// Whether the row is a name of results.
fn is_result(check: &Check, at: usize) -> bool
    ensures part { IsTrue result → part_at (setting_of check.now).tree at ≡ parts.Result }
    ensures within { IsTrue result → at < length check.now.rows.now }
{
    match check.rows.get(at) {
        None => false,
        Some(row) => match row.part {
            Part::Result => true,
            _ => false,
        },
    }
}

// Whether the part says how many values stand under a name.
fn is_count(part: Part) -> bool
    ensures { result ≡ is_count part }
{
    match part {
        Part::Count => true,
        _ => false,
    }
}

/// The row behind a name of results and its number.
pub(crate) fn behind_result(check: &Check, at: usize) -> Result<usize, DescribedErr>
    ensures { IfOk result (λ next. next ≡ behind_result (setting_of check.now).tree at) }
{
    let next = behind(at, 1)?;
    if is_count(part_at(check, next)) {
        behind(at, 2)
    } else {
        Ok(next)
    }
}

/// How many values stand under the name that the row gives.
pub(crate) fn width_at(check: &Check, at: usize) -> Result<usize, DescribedErr>
    requires { at < length check.now.rows.now }
    ensures { IfOk result (λ n. n ≡ width_at (setting_of check.now).tree at) }
{
    match width(check.text, check.rows, at) {
        Amount::Small(number) => Ok(number),
        _ => Err(DescribedErr::Differs { row: at }),
    }
}

// How many results are named so far, and the row behind their names.
#[derive(Clone, Copy)]
struct Named {
    count: usize,
    at: usize,
}

// Reads one more name of results.
fn read_name(
    check: &Check,
    op: ArenaIndex,
    from: usize,
    named: Named,
) -> Result<Named, DescribedErr>
    requires part { part_at (setting_of check.now).tree named.at ≡ parts.Result }
    requires within { named.at < length check.now.rows.now }
    ensures { IfOk result (λ n. AreResults (setting_of check.now) op from named.count named.at → AreResults (setting_of check.now) op from n.count n.at) }
{
    if !check
        .table
        .is_origin(named.at, Definer::Op(op), named.count)
    {
        return Err(DescribedErr::Differs { row: named.at });
    }
    Ok(Named {
        count: behind(named.count, width_at(check, named.at)?)?,
        at: behind_result(check, named.at)?,
    })
}

// The row behind the names, where all results are named.
fn end_results(
    check: &Check,
    op: Ptr<Operation<Generic>>,
    named: Named,
) -> Result<usize, DescribedErr>
    requires { IsLive (forest_of check.now.ctx.now) (an_op op.index) }
    ensures count { IfOk result (λ _. named.count ≡ length (definitions_of (forest_of check.now.ctx.now) (of_op op.index))) }
    ensures at { IfOk result (λ next. next ≡ named.at) }
{
    if op.deref(check.ctx).get_num_results() == named.count {
        Ok(named.at)
    } else {
        Err(DescribedErr::Differs { row: named.at })
    }
}

/// Reads the names of all results of a live operation; the row behind them.
pub(crate) fn read_results(
    check: &Check,
    op: Ptr<Operation<Generic>>,
    from: usize,
) -> Result<usize, DescribedErr>
    requires { IsLive (forest_of check.now.ctx.now) (an_op op.index) }
    ensures { IfOk result (λ next. AreResults (setting_of check.now) op.index from (length (definitions_of (forest_of check.now.ctx.now) (of_op op.index))) next) }
{
    let mut named = Named { count: 0, at: from };
    for _ in 0..u64::MAX {
        if !is_result(check, named.at) {
            return end_results(check, op, named);
        }
        named = read_name(check, op.index(), from, named)?;
    }
    Err(DescribedErr::Differs { row: from })
}
