//! Operations from behind their regions on.
ghost use Rattle.std.specs.Prelude.{◌≡◌, ◌<◌, length, IfOk, OnOk, true};
ghost use Rattle.ir_model.specs.Forest.{an_op, of_op};
ghost use Rattle.ir_model.specs.Nesting.{IsLive, definitions_of, operands_of};
ghost use Rattle.ir_core_queries.specs.State.{forest_of};
ghost use Rattle.ir_text_described.specs.Trees.{part_at};
ghost use Rattle.ir_text_described.specs.Written.{IsOperandType, IsResultType, IsTail, Leads, is_result_type};
ghost use Rattle.generic_text.specs.Checks.{setting_of};

use crate::check::Check;
use crate::described_error::DescribedErr;
use crate::entries::read_entries;
use crate::rows::{behind, expect_if, expect_part, expect_text, part_at};
use crate::texts::{location_of, type_text};
use generic_dialect::Generic;
use ir_base_dialects::Ptr;
use ir_core_queries::{Operation, OperationPtr, ValueQueries};
use ir_text_names::Part;

// Reads the type of the operand at that place; the row behind it.
fn read_operand_type(
    check: &Check,
    op: Ptr<Operation<Generic>>,
    index: usize,
    at: usize,
) -> Result<usize, DescribedErr>
    requires live { IsLive (forest_of check.now.ctx.now) (an_op op.index) }
    requires within { index < length (operands_of (forest_of check.now.ctx.now) op.index) }
    ensures { IfOk result (λ next. IsOperandType (setting_of check.now) op.index index at next) }
{
    expect_part(check, Part::OperandType, at)?;
    let value = op.deref(check.ctx).get_operand(index);
    expect_text(check, type_text(check, value.get_type(check.ctx)), at)?;
    behind(at, 1)
}

// Reads the types of the operands of a live operation; the row behind them.
fn read_operand_types(
    check: &Check,
    op: Ptr<Operation<Generic>>,
    from: usize,
) -> Result<usize, DescribedErr>
    requires { IsLive (forest_of check.now.ctx.now) (an_op op.index) }
    ensures { IfOk result (λ next. Leads (IsOperandType (setting_of check.now) op.index) from (length (operands_of (forest_of check.now.ctx.now) op.index)) next) }
{
    let mut at = from;
    for index in 0..op.deref(check.ctx).get_num_operands() {
        at = read_operand_type(check, op, index, at)?;
    }
    Ok(at)
}

// Whether the part is the type of a result.
fn is_result_type(part: Part) -> bool
    ensures { result ≡ is_result_type part }
{
    match part {
        Part::ResultType | Part::OnlyResultType => true,
        _ => false,
    }
}

// The row is the type of a result.
fn expect_result_type(check: &Check, at: usize) -> Result<(), DescribedErr>
    ensures { OnOk result (is_result_type (part_at (setting_of check.now).tree at) ≡ true) }
{
    if is_result_type(part_at(check, at)) {
        Ok(())
    } else {
        Err(DescribedErr::Differs { row: at })
    }
}

// Reads the type of the result at that place; the row behind it.
fn read_result_type(
    check: &Check,
    op: Ptr<Operation<Generic>>,
    index: usize,
    at: usize,
) -> Result<usize, DescribedErr>
    requires live { IsLive (forest_of check.now.ctx.now) (an_op op.index) }
    requires within { index < length (definitions_of (forest_of check.now.ctx.now) (of_op op.index)) }
    ensures { IfOk result (λ next. IsResultType (setting_of check.now) op.index index at next) }
{
    expect_result_type(check, at)?;
    let ty = op.deref(check.ctx).get_type(index);
    expect_text(check, type_text(check, ty), at)?;
    behind(at, 1)
}

// Reads the types of the results of a live operation; the row behind them.
fn read_result_types(
    check: &Check,
    op: Ptr<Operation<Generic>>,
    from: usize,
) -> Result<usize, DescribedErr>
    requires { IsLive (forest_of check.now.ctx.now) (an_op op.index) }
    ensures { IfOk result (λ next. Leads (IsResultType (setting_of check.now) op.index) from (length (definitions_of (forest_of check.now.ctx.now) (of_op op.index))) next) }
{
    let mut at = from;
    for index in 0..op.deref(check.ctx).get_num_results() {
        at = read_result_type(check, op, index, at)?;
    }
    Ok(at)
}

/// Reads a live operation from behind its regions on; the row behind.
pub(crate) fn read_tail(
    check: &Check,
    op: Ptr<Operation<Generic>>,
    at: usize,
) -> Result<usize, DescribedErr>
    requires { IsLive (forest_of check.now.ctx.now) (an_op op.index) }
    ensures { IfOk result (λ next. IsTail (setting_of check.now) op.index at next) }
{
    let entries_end = read_entries(check, op, at)?;
    let operand_types_end = read_operand_types(check, op, entries_end)?;
    let result_types_end = read_result_types(check, op, operand_types_end)?;
    expect_if(
        check,
        Part::Location,
        location_of(check, op),
        result_types_end,
    )
}
