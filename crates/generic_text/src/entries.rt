//! The attributes of an operation.
ghost use Rattle.std.specs.Prelude.{◌≡◌, length, IfOk, Some};
ghost use Rattle.ir_model.specs.Forest.{an_op};
ghost use Rattle.ir_model.specs.Nesting.{IsLive};
ghost use Rattle.ir_core_queries.specs.State.{bare, forest_of};
ghost use Rattle.ir_text_described.specs.Written.{IsEntry, Leads, StandsAs, attributes_of};
ghost use Rattle.generic_dialect.specs.Keys.{the_key};
ghost use Rattle.generic_text.specs.Checks.{setting_of};
ghost use Rattle.generic_text.specs.GenericWords.{entry_of, value_of};

use crate::check::Check;
use crate::described_error::DescribedErr;
use crate::rows::{behind, expect_bytes, expect_if, expect_part};
use crate::texts::value_of;
use generic_dialect::{Generic, GenericAttr, KeptAttr, key_bytes};
use ir_base_dialects::{Identifier, Ptr};
use ir_core_queries::{Operation, OperationPtr};
use ir_text_names::Part;

// Reads the key and the value of an attribute; the row behind them.
fn read_pair(check: &Check, key: &[u8], attr: GenericAttr, at: usize) -> Result<usize, DescribedErr>
    ensures { IfOk result (λ next. StandsAs (setting_of check.now) (Some (key.now, value_of (bare check.now.ctx.now).beside.saved attr)) at next) }
{
    expect_part(check, Part::Key, at)?;
    expect_bytes(check, key, at)?;
    let next = behind(at, 1)?;
    expect_if(check, Part::Value, value_of(check, attr), next)
}

// Reads an attribute under an identifier that begins with `__`; the row behind it.
fn read_marked(
    check: &Check,
    name: &Identifier,
    attr: GenericAttr,
    at: usize,
) -> Result<usize, DescribedErr>
    ensures { IfOk result (λ next. StandsAs (setting_of check.now) (entry_of (bare check.now.ctx.now).beside.saved (the_key name.now) attr) at next) }
{
    match key_bytes(check.ctx.alloc(), name) {
        Err(_) => Err(DescribedErr::OutOfMemory),
        Ok(None) => Ok(at),
        Ok(Some(key)) => read_pair(check, key.as_slice(), attr, at),
    }
}

// Reads an attribute; the row behind it.
fn read_entry(
    check: &Check,
    name: &Identifier,
    attr: &KeptAttr,
    at: usize,
) -> Result<usize, DescribedErr>
    ensures { IfOk result (λ next. StandsAs (setting_of check.now) ((setting_of check.now).words.entry name.now attr.now) at next) }
{
    match name.as_str().as_bytes() {
        [b'_', b'_', ..] => read_marked(check, name, attr.0, at),
        key => read_pair(check, key, attr.0, at),
    }
}

/// Reads the attributes of a live operation; the row behind them.
pub(crate) fn read_entries(
    check: &Check,
    op: Ptr<Operation<Generic>>,
    from: usize,
) -> Result<usize, DescribedErr>
    requires { IsLive (forest_of check.now.ctx.now) (an_op op.index) }
    ensures { IfOk result (λ next. Leads (IsEntry (setting_of check.now) op.index) from (length (attributes_of (forest_of check.now.ctx.now) op.index)) next) }
{
    let mut at = from;
    for (name, attr) in op.deref(check.ctx).attributes().iter() {
        at = read_entry(check, name, attr, at)?;
    }
    Ok(at)
}
