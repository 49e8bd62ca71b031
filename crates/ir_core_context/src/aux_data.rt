//! Auxiliary data of a context, under indices, with names that lead to these.
//!
//! No call changes the forest, the types or the saved data.

ghost use Rattle.std.specs.Prelude.{◌≡◌, ◌⊎◌, ◌↔◌, None, Err, IfOk, IfErr, OnOk, OnErr, IsSome};
ghost use Rattle.std.specs.Option.{option_copied, option_copied_mut, option_map};
ghost use Rattle.std.specs.Borrow.{sem};
ghost use Rattle.ir_model.specs.AuxData.{AuxIsSound, InsertsAux, LacksAuxSlot, aux_by_name};
ghost use Rattle.ir_model.specs.Stores.{with_aux_name, without_aux};
ghost use Rattle.ir_core_data.specs.Side.{NoFreedSlot};
ghost use Rattle.ir_core_context.specs.AuxLending.{WritesAux, lends_aux};
ghost use Rattle.ir_core_context.specs.Calls.{SameButSide};
ghost use Rattle.ir_core_context.specs.State.{bare};

use crate::context::Context;
use ir_base_dialects::{CoreError, Dialects, Identifier};
use ir_core_data::AuxDataIndex;

impl<D: Dialects> Context<D> {
    /// Stores auxiliary data under a new index, and answers the index.
    ///
    /// # Errors
    /// `SlotsSpent` where there is no slot for it, and else `OutOfMemory`, which comes only where no freed slot is left. Then nothing has changed.
    pub fn insert_aux(&mut self, value: D::Aux) -> Result<AuxDataIndex, CoreError>
        ensures inserted { IfOk result (λ i. InsertsAux self.old.limits (bare self.old).beside value i.index (bare self.new).beside) }
        ensures rest { SameButSide (bare self.old) (bare self.new) }
        ensures spent { (result ≡ Err CoreError.SlotsSpent) ↔ LacksAuxSlot self.old.limits (bare self.old).beside }
        ensures memory { IfErr result (λ e. (e ≡ CoreError.SlotsSpent) ⊎ (e ≡ CoreError.OutOfMemory)) }
        ensures grown { (result ≡ Err CoreError.OutOfMemory) → NoFreedSlot self.old.limits (bare self.old).beside }
        ensures err { OnErr result (self.new ≡ self.old) }
    {
        self.side.insert_aux(value)
    }

    /// The auxiliary data under an index, where there is still some.
    pub fn get_aux(&self, index: AuxDataIndex) -> Option<&D::Aux>
        ensures { option_copied result ≡ (bare self.now).beside.aux index.index }
    {
        self.side.get_aux(index)
    }

    /// The auxiliary data under an index, where there is still some, for writing.
    pub fn get_aux_mut(&mut self, index: AuxDataIndex) -> Option<&mut D::Aux>
        ensures* writes_back { sem 𝓛 (lends_aux D.row D.Attr.row D.TypeKey.row D.TypeBody.row D.Saved.row D.Aux.row D.Loc.row D.Dialects D.Attr.Hash D.TypeKey.Hash D.TypeBody.Default D.Saved.Hash D.Loc.Default self.entry index.index result) }
        ensures value { option_copied_mut result ≡ (bare self.old).beside.aux index.index }
        ensures written { IsSome result → WritesAux self.old index.index }
    {
        self.side.get_aux_mut(index)
    }

    /// Takes the auxiliary data under an index out, where there is still some. Names that lead to the index still do.
    pub fn remove_aux(&mut self, index: AuxDataIndex) -> Option<D::Aux>
        ensures value { result ≡ (bare self.old).beside.aux index.index }
        ensures removed { (bare self.new).beside ≡ without_aux (bare self.old).beside index.index }
        ensures rest { SameButSide (bare self.old) (bare self.new) }
    {
        self.side.remove_aux(index)
    }

    /// Makes the name lead to the index, also where it led elsewhere. `OutOfMemory` comes only for a name that led nowhere, and changes nothing.
    pub fn set_aux_name(&mut self, name: Identifier, index: AuxDataIndex) -> Result<(), CoreError>
        ensures named { OnOk result ((bare self.new).beside ≡ with_aux_name (bare self.old).beside name index.index) }
        ensures rest { SameButSide (bare self.old) (bare self.new) }
        ensures memory { IfErr result (λ e. e ≡ CoreError.OutOfMemory) }
        ensures err { OnErr result (self.new ≡ self.old) }
        ensures only_new { OnErr result (aux_by_name (bare self.old).beside name ≡ None) }
    {
        self.side.set_aux_name(name, index)
    }

    /// The index that the name leads to, also where its data is gone.
    pub fn aux_by_name(&self, name: &Identifier) -> Option<AuxDataIndex>
        ensures { option_map (λ found. found.index) result ≡ aux_by_name (bare self.now).beside name.now }
    {
        self.side.aux_by_name(name)
    }

    /// What holds of every context: an index under which there is data was handed out.
    pub fn recall_aux_was_made(&self)
        ensures { AuxIsSound (bare self.now).beside }
    {
        let _aux_room = self.side.room();
    }
}
