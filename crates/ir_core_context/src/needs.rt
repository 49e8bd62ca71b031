//! How many new ids and numbers a call needs, and whether they are left.

ghost use Rattle.std.specs.Prelude.{◌≡◌, ◌⊎◌, ◌↔◌, Err, IfErr, OnOk};
ghost use Rattle.ir_model.specs.Sessions.{LacksNumbers};
ghost use Rattle.ir_core_context.specs.State.{bare};
ghost use Rattle.ir_model.specs.Edits.{no_needs, one_number, one_use};
ghost use Rattle.ir_core_context.specs.Calls.{HasAll, counts_of, LacksOnlySlots};

use crate::context::Context;
use ir_base_dialects::{CoreError, Dialects};

/// How many new ids and numbers a call needs. Operands and successors make up the uses.
#[derive(Clone, Copy, Debug, Drop, PartialEq, Eq)]
pub struct Needs {
    /// Operations.
    pub ops: usize,
    /// Blocks.
    pub blocks: usize,
    /// Regions.
    pub regions: usize,
    /// Results and arguments.
    pub values: usize,
    /// Operands.
    pub operands: usize,
    /// Successors.
    pub successors: usize,
}

impl Needs {
    /// Nothing.
    pub fn none() -> Needs
        ensures { counts_of result ≡ no_needs }
    {
        Needs {
            ops: 0,
            blocks: 0,
            regions: 0,
            values: 0,
            operands: 0,
            successors: 0,
        }
    }
}

impl<D: Dialects> Context<D> {
    /// Whether so many ids and numbers are left. It tells what `room` tells.
    ///
    /// # Errors
    /// `CounterSpent` where too few numbers are left, else `SlotsSpent` where too few slots are.
    pub fn covers(&self, needs: Needs) -> Result<(), CoreError>
        ensures enough { OnOk result (HasAll self.now (counts_of needs)) }
        ensures counter { (result ≡ Err CoreError.CounterSpent) ↔ LacksNumbers (bare self.now) (counts_of needs) }
        ensures slots { (result ≡ Err CoreError.SlotsSpent) ↔ LacksOnlySlots (bare self.now) (counts_of needs) }
        ensures only { IfErr result (λ e. (e ≡ CoreError.CounterSpent) ⊎ (e ≡ CoreError.SlotsSpent)) }
    {
        let room = self.room();
        let operands = needs.operands as u64;
        if room.values < needs.values as u64
            || room.uses < operands
            || room.uses - operands < needs.successors as u64
        {
            return Err(CoreError::CounterSpent);
        }
        if (room.ops as usize) < needs.ops
            || (room.blocks as usize) < needs.blocks
            || (room.regions as usize) < needs.regions
        {
            return Err(CoreError::SlotsSpent);
        }
        Ok(())
    }
}

/// Whether the number of one more result or argument is left.
///
/// # Errors
/// `CounterSpent` where none is.
pub(crate) fn has_value_number<D: Dialects>(ctx: &Context<D>) -> Result<(), CoreError>
    ensures enough { OnOk result (HasAll ctx.now one_number) }
    ensures counter { (result ≡ Err CoreError.CounterSpent) ↔ LacksNumbers (bare ctx.now) one_number }
    ensures only { IfErr result (λ e. e ≡ CoreError.CounterSpent) }
{
    let _room = ctx.room();
    ctx.covers(Needs {
        values: 1,
        ..Needs::none()
    })
}

/// Whether the number of one more use is left.
///
/// # Errors
/// `CounterSpent` where none is.
pub(crate) fn has_use_number<D: Dialects>(ctx: &Context<D>) -> Result<(), CoreError>
    ensures enough { OnOk result (HasAll ctx.now one_use) }
    ensures counter { (result ≡ Err CoreError.CounterSpent) ↔ LacksNumbers (bare ctx.now) one_use }
    ensures only { IfErr result (λ e. e ≡ CoreError.CounterSpent) }
{
    let _room = ctx.room();
    ctx.covers(Needs {
        operands: 1,
        ..Needs::none()
    })
}
