//! Saved data and auxiliary data, with the names of the latter.

ghost use Rattle.std.specs.Prelude.{◌≡◌, ◌⊎◌, ◌<◌, ◌≤◌, ◌↔◌, None, Some, Err, IfOk, IfErr, OnOk, OnErr, IsSome, length, slice_get};
ghost use Rattle.std.specs.Option.{option_copied, option_copied_mut, option_map};
ghost use Rattle.std.specs.Borrow.{sem};
ghost use Rattle.ir_model.specs.declared.ids.Limits.{Limits};
ghost use Rattle.ir_model.specs.AuxData.{InsertsAux, LacksAuxSlot, aux_by_name, write_aux};
ghost use Rattle.ir_model.specs.Saved.{IsSavedAt, saved_place, with_saved};
ghost use Rattle.ir_model.specs.Stores.{with_aux_name, without_aux};
ghost use Rattle.ir_base_arenas.specs.Arena.{IsWhole, room};
ghost use Rattle.ir_core_records.specs.DialectAnswers.{kinds_of};

use crate::aux_arena::AuxArena;
use crate::aux_index::AuxDataIndex;
use crate::aux_names::AuxNames;
use ir_base_dialects::{Dialects, Identifier, Ptr, UniqueStore};
use ir_model::CoreError;
use std::alloc::Global;

/// What a context keeps beside the forest and the types.
#[derive(Drop)]
pub struct SideData<D: Dialects> {
    /// The saved data.
    pub saved: UniqueStore<D::Saved>,
    /// The auxiliary data.
    pub aux: AuxArena<D::Aux>,
    /// The names of auxiliary data.
    pub names: AuxNames,
}

impl<D: Dialects> SideData<D> {
    ghost use Rattle.ir_core_data.specs.Side.{Keeps, NoFreedSlot, beside_in, nothing, with_written};
    ghost use Rattle.ir_core_data.specs.SideLends.{side_lends_aux};

    /// No data and no names, with at most this many slots for auxiliary data, none of which has a version past `last_version`. It allocates nothing.
    pub fn new(alloc: Global, slots: u32, last_version: u32) -> Self
        requires slots { slots < 4294967295 }
        requires versions { 1 ≤ last_version }
        ensures { result ≡ nothing slots last_version }
    {
        SideData {
            saved: UniqueStore::new(alloc),
            aux: AuxArena::new(alloc, slots, last_version),
            names: AuxNames::new(alloc),
        }
    }

    /// The place of the saved value that is equal to this one; where there is none, this one is saved last.
    ///
    /// The value that came first stays, and the other is dropped. `OutOfMemory` comes only for a value that isn't saved yet, and changes nothing.
    pub fn save(&mut self, value: D::Saved) -> Result<usize, CoreError>
        ensures place { IfOk result (λ place. place ≡ saved_place (kinds_of D.Dialects D.Saved.eq) (beside_in self.old) value) }
        ensures saved { OnOk result (beside_in self.new ≡ with_saved (kinds_of D.Dialects D.Saved.eq) (beside_in self.old) value) }
        ensures aux { self.new.aux ≡ self.old.aux }
        ensures memory { IfErr result (λ e. e ≡ CoreError.OutOfMemory) }
        ensures err { OnErr result (self.new ≡ self.old) }
        ensures only_new { OnErr result (saved_place (kinds_of D.Dialects D.Saved.eq) (beside_in self.old) value ≡ length (beside_in self.old).saved) }
    {
        self.saved.get_or_create_unique(value)
    }

    /// The saved value at a place.
    pub fn saved_at(&self, place: usize) -> Option<&D::Saved>
        ensures { option_copied result ≡ slice_get (beside_in self.now).saved place }
    {
        self.saved.get_index(place)
    }

    /// Stores auxiliary data under a new index, and answers the index.
    ///
    /// # Errors
    /// `SlotsSpent` where there is no slot for it, and else `OutOfMemory`, which comes only where no freed slot is left. Then nothing has changed.
    pub fn insert_aux(&mut self, value: D::Aux) -> Result<AuxDataIndex, CoreError>
        ensures inserted { IfOk result (λ i. (limits : Limits) → Keeps limits self.old.aux → InsertsAux limits (beside_in self.old) value i.index (beside_in self.new)) }
        ensures keeps { (limits : Limits) → Keeps limits self.old.aux → Keeps limits self.new.aux }
        ensures spent { (limits : Limits) → Keeps limits self.old.aux → (result ≡ Err CoreError.SlotsSpent) ↔ LacksAuxSlot limits (beside_in self.old) }
        ensures memory { IfErr result (λ e. (e ≡ CoreError.SlotsSpent) ⊎ (e ≡ CoreError.OutOfMemory)) }
        ensures grown { (limits : Limits) → Keeps limits self.old.aux → (result ≡ Err CoreError.OutOfMemory) → NoFreedSlot limits (beside_in self.old) }
        ensures err { OnErr result (self.new ≡ self.old) }
    {
        let ptr = self.aux.insert(value)?;
        Ok(AuxDataIndex { index: ptr.index })
    }

    /// The data under an index.
    pub fn get_aux(&self, index: AuxDataIndex) -> Option<&D::Aux>
        ensures { option_copied result ≡ (beside_in self.now).aux index.index }
    {
        self.aux.get(Ptr::from_index(index.index))
    }

    /// The data under an index, for writing.
    pub fn get_aux_mut(&mut self, index: AuxDataIndex) -> Option<&mut D::Aux>
        ensures* writes_back { sem 𝓛 (side_lends_aux D.row D.Attr.row D.TypeKey.row D.TypeBody.row D.Saved.row D.Aux.row D.Loc.row D.Saved.Hash self.entry index.index result) }
        ensures value { option_copied_mut result ≡ (beside_in self.old).aux index.index }
        ensures written { IsSome result → (value : D.Aux) → beside_in (with_written self.old index.index value) ≡ write_aux (beside_in self.old) index.index value }
    {
        self.aux.get_mut(Ptr::from_index(index.index))
    }

    /// Takes the data under an index out. The names stay, and it takes no memory.
    pub fn remove_aux(&mut self, index: AuxDataIndex) -> Option<D::Aux>
        ensures value { result ≡ (beside_in self.old).aux index.index }
        ensures removed { beside_in self.new ≡ without_aux (beside_in self.old) index.index }
        ensures keeps { (limits : Limits) → Keeps limits self.old.aux → Keeps limits self.new.aux }
    {
        self.aux.remove(Ptr::from_index(index.index))
    }

    /// Makes the name lead to the index, also where it led elsewhere. `OutOfMemory` comes only for a name that led nowhere, and changes nothing.
    pub fn set_aux_name(&mut self, name: Identifier, index: AuxDataIndex) -> Result<(), CoreError>
        ensures named { OnOk result (beside_in self.new ≡ with_aux_name (beside_in self.old) name index.index) }
        ensures aux { self.new.aux ≡ self.old.aux }
        ensures memory { IfErr result (λ e. e ≡ CoreError.OutOfMemory) }
        ensures err { OnErr result (self.new ≡ self.old) }
        ensures only_new { OnErr result (aux_by_name (beside_in self.old) name ≡ None) }
    {
        self.names.set(name, index)
    }

    /// The index that the name leads to, also where its data is gone.
    pub fn aux_by_name(&self, name: &Identifier) -> Option<AuxDataIndex>
        ensures { option_map (λ found. found.index) result ≡ aux_by_name (beside_in self.now) name.now }
    {
        self.names.get(name)
    }

    /// How many more entries of auxiliary data there can be at once.
    pub fn room(&self) -> u32
        ensures value { result ≡ room self.now.aux }
        ensures whole { IsWhole self.now.aux }
    {
        self.aux.room()
    }
}
