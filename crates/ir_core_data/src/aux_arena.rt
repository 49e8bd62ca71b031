//! The arena of auxiliary data.
//!
//! A dialect's type of auxiliary data has no bound, and what an `Arena` removes has to be one that can be taken out of its place. So each record lies in an `Option`, which is `None` only in a slot that has no record.

ghost use Rattle.std.specs.Prelude.{◌≡◌, ◌⊎◌, ◌+◌, ◌<◌, ◌≤◌, ◌↔◌, IfOk, IfErr, IfNone, OnErr, OnSome, OnOk, None, Err, option_copied};
ghost use Rattle.std.specs.Option.{option_copied_mut};
ghost use Rattle.std.specs.Borrow.{sem};
ghost use Rattle.ir_base_arenas.specs.Arena.{empty, get, IsWhole, cut, miss, room, unused, Inserts};

use ir_base_arenas::{Arena, CoreError, Ptr};
use std::alloc::Global;
use std::marker::Model;

/// Records of any type under ids that are never given out twice. Contracts see an `Arena` of the records themselves. It stands for `aux_data` of pliron's `Context`.
#[derive(Drop)]
pub struct AuxArena<A> {
    items: Arena<Option<A>>,
}

impl<A> Model for AuxArena<A> {
    ghost use Rattle.std.specs.Prelude.{◌≡◌};
    ghost use Rattle.ir_base_arenas.specs.Arena.{Arena as Records, arena_code};
    ghost use Rattle.ir_core_data.specs.WrappedArena.{opened, wrapped};

    ghost Value = { Records A };

    ghost coded = { arena_code A.code };

    ghost view = { λ a. opened a.items };

    ghost invariant = { λ a. a.items ≡ wrapped (opened a.items) };
}

impl<A> AuxArena<A> {
    ghost use Rattle.ir_core_data.specs.AuxArenaLends.{aux_lends_get};

    /// An empty arena of at most this many slots, in which no id has a version past `last_version`. It allocates nothing.
    pub fn new(alloc: Global, slots: u32, last_version: u32) -> Self
        requires slots { slots < 4294967295 }
        requires versions { 1 ≤ last_version }
        ensures { result ≡ empty slots last_version }
    {
        AuxArena {
            items: Arena::new(alloc, slots, last_version),
        }
    }

    /// How many more records the arena can hold at once: the slots that were never handed out, and those that can be handed out again.
    pub fn room(&self) -> u32
        ensures value { result ≡ room self.now }
        ensures whole { IsWhole self.now }
    {
        self.items.room()
    }

    /// The record under `ptr`, if it is live.
    pub fn get(&self, ptr: Ptr<A>) -> Option<&A>
        ensures { option_copied result ≡ get self.now ptr.index }
    {
        self.items.get(Ptr::from_index(ptr.index))?.as_ref()
    }

    /// The record under `ptr` for writing, if it is live.
    pub fn get_mut(&mut self, ptr: Ptr<A>) -> Option<&mut A>
        ensures* writes_back { sem 𝓛 (aux_lends_get A.row self.entry ptr.index result) }
        ensures value { option_copied_mut result ≡ get self.old ptr.index }
    {
        self.items.get_mut(Ptr::from_index(ptr.index))?.as_mut()
    }

    /// Stores `value` under a new handle, and answers the handle.
    ///
    /// # Errors
    /// `SlotsSpent` where the arena has no room, and else `OutOfMemory` where no freed slot was left, and the arena had to grow and couldn't. Then nothing has changed.
    pub fn insert(&mut self, value: A) -> Result<Ptr<A>, CoreError>
    where
        A: Drop,
        ensures inserted { IfOk result (λ ptr. Inserts (λ stored. stored ≡ value) self.old self.new ptr.index) }
        ensures err { OnErr result (self.new ≡ self.old) }
        ensures room { OnOk result (room self.new + 1 ≡ room self.old) }
        ensures spent { (result ≡ Err CoreError.SlotsSpent) ↔ (room self.old ≡ 0) }
        ensures memory { IfErr result (λ e. (e ≡ CoreError.SlotsSpent) ⊎ (e ≡ CoreError.OutOfMemory)) }
        ensures grown { (result ≡ Err CoreError.OutOfMemory) → (room self.old ≡ unused self.old) }
        ensures whole { IsWhole self.old }
    {
        let ptr = self.items.insert_with(|_ptr: Ptr<Option<A>>| Some(value))?;
        Ok(Ptr::from_index(ptr.index))
    }

    /// Takes the record under `ptr` out, if it is live, with the memory that it owns. It takes no memory. Each call counts as a removal.
    pub fn remove(&mut self, ptr: Ptr<A>) -> Option<A>
        ensures value { result ≡ get self.old ptr.index }
        ensures cut { OnSome result (self.new ≡ cut self.old ptr.index) }
        ensures gone { get self.new ptr.index ≡ None }
        ensures absent { IfNone result (self.new ≡ miss self.old) }
    {
        self.items.remove(Ptr::from_index(ptr.index)).flatten()
    }
}
