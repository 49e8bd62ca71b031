//! Operations up to their regions.
ghost use Rattle.std.specs.Prelude.{IfOk};
ghost use Rattle.ir_model.specs.Forest.{an_op};
ghost use Rattle.ir_model.specs.Nesting.{IsLive};
ghost use Rattle.ir_core_queries.specs.State.{forest_of};
ghost use Rattle.ir_text_described.specs.Written.{IsHead};
ghost use Rattle.generic_text.specs.Checks.{setting_of};

use crate::check::Check;
use crate::described_error::DescribedErr;
use crate::operands::{read_operands, read_successors};
use crate::results::read_results;
use crate::rows::{behind, expect_bytes, expect_if, expect_part};
use crate::texts::{name_of, properties_of};
use generic_dialect::Generic;
use ir_base_dialects::Ptr;
use ir_core_queries::Operation;
use ir_text_names::Part;

/// Reads a live operation up to its regions; the row behind.
pub(crate) fn read_head(
    check: &Check,
    op: Ptr<Operation<Generic>>,
    at: usize,
) -> Result<usize, DescribedErr>
    requires { IsLive (forest_of check.now.ctx.now) (an_op op.index) }
    ensures { IfOk result (λ next. IsHead (setting_of check.now) op.index at next) }
{
    let name = read_results(check, op, at)?;
    expect_part(check, Part::Name, name)?;
    expect_bytes(check, name_of(check, op), name)?;
    let first = behind(name, 1)?;
    let operands_end = read_operands(check, op, first)?;
    let successors_end = read_successors(check, op, operands_end)?;
    expect_if(
        check,
        Part::Properties,
        properties_of(check, op),
        successors_end,
    )
}
