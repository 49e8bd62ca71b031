//! Arenas: storage for records under ids that are never given out twice.
//!
//! A slot keeps the version that it handed out last. A slot whose record was removed is handed out again under the version two above, the slot freed last first, unless that is past the last version: then the slot stays empty for good. Free slots are chained through themselves, so that a removal takes no memory, and an insertion takes memory only where no free slot is left.

ghost use Rattle.std.specs.Prelude.{◌≡◌, ◌⊎◌, ◌+◌, ◌<◌, ◌≤◌, ◌==◌, ◌↔◌, length, IsTrue, IfOk, IfErr, IfNone, OnErr, OnSome, OnOk, Some, None, Err, option_copied, nat_le, vec_capacity, vec_len};
ghost use Rattle.std.specs.Option.{option_copied_mut};
ghost use Rattle.std.specs.Borrow.{sem};
ghost use Rattle.ir_model.specs.declared.ids.ArenaIndex.{ArenaIndex as Index};
ghost use Rattle.ir_model.specs.Slots.{item_under};
ghost use Rattle.ir_base_arenas.specs.declared.ptr.Ptr.{Ptr as Handle};
ghost use Rattle.ir_base_arenas.specs.Arena.{empty, get, IsLiveIn, IsWhole, IsNew, cleared, cut, is_passed, miss, room, unused, arena_len, Inserts};
ghost use Rattle.ir_base_arenas.specs.ArenaSound.{emptied_at};

use crate::take_out::TakeOut;
use crate::tally::Tally;
use crate::{ArenaIndex, CoreError, Ptr};
use std::alloc::{AllocError, Global};
use std::marker::Model;
use std::mem::size_of;

// What `next` is in a slot with a record: no slot has this number.
const FULL: u32 = 4294967295;

/// A slot: the version that was handed out last, and its record, or what was left of the last one.
#[derive(Drop)]
pub struct Slot<T> {
    version: u32,
    // `FULL` in a slot with a record, and else the number of the free slot after this one, or 0.
    next: u32,
    item: T,
}

// A slot takes 8 bytes more than its record.
const _: () = prove!(size_of::<Slot<[u64; 4]>>() == size_of::<[u64; 4]>() + 8);

const _: () = prove!(size_of::<Slot<[u32; 3]>>() == size_of::<[u32; 3]>() + 8);

impl<T> Slot<T> {
    ghost use Rattle.ir_base_arenas.specs.ArenaSound.{slot_shown, held};

    // The record under a version.
    fn item(&self, under: u32) -> Option<&T>
        ensures { option_copied result ≡ item_under (slot_shown (held self.now)) under }
    {
        if self.version == under && self.next == FULL {
            return Some(&self.item);
        }
        None
    }
}

// From so many slots on an arena grows by a fourth.
const MANY: usize = 1 << 16;

// Makes place for one more slot, if there is none: for as many as there are, or for a fourth of them where they are many. The system moves large blocks without copying them.
#[inline(always)]
fn reserve<T>(slots: &mut Vec<Slot<T>>) -> Result<(), AllocError>
    ensures items { slots.new.items ≡ slots.old.items }
    ensures ok { OnOk result (vec_len slots.new < vec_capacity slots.new) }
{
    let count = slots.len();
    if count < slots.capacity() {
        Ok(())
    } else if count < MANY {
        slots.reserve(1)
    } else {
        slots.reserve_exact(count / 4)
    }
}

/// Records under ids that are never given out twice. It stands for the `Arena` of pliron's `context`.
///
/// Slots count from 1. The first id of a slot has version 1, and each later one a version two above.
#[derive(Drop)]
pub struct Arena<T> {
    slots: Vec<Slot<T>>,
    // The number of the slot that is handed out again next, or 0.
    first_free: u32,
    // How many slots can be handed out again.
    free: u32,
    // How many slots have a record.
    len: u32,
    limit: u32,
    last_version: u32,
    removals: Tally,
}

impl<T> Model for Arena<T> {
    ghost use Rattle.std.specs.Prelude.{map};
    ghost use Rattle.ir_base_arenas.specs.Arena.{Arena as Records, arena_code};

    ghost Value = { Records T };

    ghost coded = { arena_code T.code };

    ghost use Rattle.ir_base_arenas.specs.ArenaSound.{slot_shown, held, IsLaid};

    ghost view = { λ a. record { slots = map slot_shown (map held a.slots.items); limit = a.limit; last_version = a.last_version; removals = a.removals.count } };

    ghost invariant = { λ a. IsLaid (map held a.slots.items) a.first_free a.free a.len a.limit a.last_version };
}

// Whether a slot with this version may be handed out again.
fn has_next(version: u32, last_version: u32) -> bool
    ensures { result ≡ nat_le (version + 2) last_version }
{
    last_version >= 2 && version <= last_version - 2
}

impl<T> Arena<T> {
    ghost use Rattle.ir_base_arenas.specs.ArenaLends.{lends_get, lends_record};

    /// An empty arena of at most this many slots, in which no id has a version past `last_version`. It allocates nothing.
    pub fn new(alloc: Global, slots: u32, last_version: u32) -> Self
        requires slots { slots < 4294967295 }
        requires versions { 1 ≤ last_version }
        ensures { result ≡ empty slots last_version }
    {
        Arena {
            slots: Vec::new(alloc),
            first_free: 0,
            free: 0,
            len: 0,
            limit: slots,
            last_version,
            removals: Tally::new(),
        }
    }

    /// How many records are live.
    pub fn len(&self) -> usize
        ensures { result ≡ arena_len self.now }
    {
        self.len as usize
    }

    /// Whether no record is live.
    pub fn is_empty(&self) -> bool
        ensures { result ≡ (arena_len self.now == 0) }
    {
        self.len == 0
    }

    /// How many more records the arena can hold at once: the slots that were never handed out, and those that can be handed out again.
    pub fn room(&self) -> u32
        ensures value { result ≡ room self.now }
        ensures whole { IsWhole self.now }
    {
        self.limit - self.slots.len() as u32 + self.free
    }

    /// The record under `ptr`, if it is live.
    pub fn get(&self, ptr: Ptr<T>) -> Option<&T>
        ensures { option_copied result ≡ get self.now ptr.index }
    {
        let id = ptr.index;
        let place = (id.slot as usize).checked_sub(1)?;
        match self.slots.get(place) {
            Some(slot) => slot.item(id.version),
            None => None,
        }
    }

    /// Whether a record stands under `ptr`.
    pub fn is_live(&self, ptr: Ptr<T>) -> bool
        ensures { IsTrue result ↔ IsLiveIn self.now ptr.index }
    {
        self.get(ptr).is_some()
    }

    /// The record under `ptr` for writing, if it is live.
    pub fn get_mut(&mut self, ptr: Ptr<T>) -> Option<&mut T>
        ensures* writes_back { sem 𝓛 (lends_get T.row self.entry ptr.index result) }
        ensures value { option_copied_mut result ≡ get self.old ptr.index }
    {
        if !self.is_live(ptr) {
            return None;
        }
        Some(self.at_mut(ptr))
    }

    /// The record under a live `ptr`.
    pub fn at(&self, ptr: Ptr<T>) -> &T
        requires { IsLiveIn self.now ptr.index }
        ensures { get self.now ptr.index ≡ Some result.now }
    {
        let place = ptr.index.slot as usize - 1;
        &self.slots[place].item
    }

    /// The record under a live `ptr`, for writing.
    pub fn at_mut(&mut self, ptr: Ptr<T>) -> &mut T
        requires { IsLiveIn self.old ptr.index }
        ensures* writes_back { sem 𝓛 (lends_record T.row self.entry ptr.index result) }
        ensures value { get self.old ptr.index ≡ Some result.now }
    {
        let place = ptr.index.slot as usize - 1;
        &mut self.slots[place].item
    }

    /// Makes place for so many more records, where there is less. Slots that can be handed out again count as place.
    ///
    /// # Errors
    /// Where the arena had to grow and couldn't. The records are the same in either case.
    pub fn reserve(&mut self, additional: usize) -> Result<(), AllocError>
        ensures { self.new ≡ self.old }
    {
        let more = additional.saturating_sub(self.free as usize);
        self.slots.reserve(more)
    }

    /// Stores what `make` answers for a new handle, and answers the handle. `make` is called only where no refusal comes: a caller promises that it can be called with a new handle, and where the arena has no room, none is new.
    ///
    /// # Errors
    /// `SlotsSpent` where the arena has no room, and else `OutOfMemory` where no freed slot was left, and the arena had to grow and couldn't. Then nothing has changed.
    pub fn insert_with<F: FnOnce(Ptr<T>) -> T + Drop>(
        &mut self,
        make: F,
    ) -> Result<Ptr<T>, CoreError>
    where
        T: Drop,
        requires { (ptr : Handle T) → IsNew self.old ptr.index → F.pre make ptr }
        ensures inserted { IfOk result (λ ptr. Inserts (F.post make ptr) self.old self.new ptr.index) }
        ensures err { OnErr result (self.new ≡ self.old) }
        ensures room { OnOk result (room self.new + 1 ≡ room self.old) }
        ensures spent { (result ≡ Err CoreError.SlotsSpent) ↔ (room self.old ≡ 0) }
        ensures memory { IfErr result (λ e. (e ≡ CoreError.SlotsSpent) ⊎ (e ≡ CoreError.OutOfMemory)) }
        ensures grown { (result ≡ Err CoreError.OutOfMemory) → (room self.old ≡ unused self.old) }
        ensures whole { IsWhole self.old }
    {
        if self.first_free > 0 {
            let place = self.first_free as usize - 1;
            let slot = &self.slots[place];
            let version = slot.version + 2;
            let next = slot.next;
            let ptr = Ptr::from_index(ArenaIndex {
                slot: self.first_free,
                version,
            });
            let item = make(ptr);
            let slot = &mut self.slots[place];
            slot.version = version;
            slot.next = FULL;
            slot.item = item;
            self.first_free = next;
            self.free -= 1;
            self.len += 1;
            return Ok(ptr);
        }
        let at = self.slots.len();
        if at == self.limit as usize {
            return Err(CoreError::SlotsSpent);
        }
        if reserve(&mut self.slots).is_err() {
            return Err(CoreError::OutOfMemory);
        }
        let ptr = Ptr::from_index(ArenaIndex {
            slot: at as u32 + 1,
            version: 1,
        });
        let item = make(ptr);
        self.slots.push_reserved(Slot {
            version: 1,
            next: FULL,
            item,
        });
        self.len += 1;
        Ok(ptr)
    }

    // Frees the slot of a live record, which is left where it lies until the slot is handed out again.
    fn vacate(&mut self, ptr: Ptr<T>)
        requires { IsLiveIn self.old ptr.index }
        ensures { self.new ≡ cut self.old ptr.index }
    {
        self.removals = self.removals.next();
        let id = ptr.index;
        let place = id.slot as usize - 1;
        self.slots[place].next = self.first_free;
        self.len -= 1;
        if has_next(id.version, self.last_version) {
            self.first_free = id.slot;
            self.free += 1;
        }
    }

    /// Takes the record under `ptr` out, if it is live, with the memory that it owns. It takes no memory. Each call counts as a removal.
    #[inline(always)]
    pub fn remove(&mut self, ptr: Ptr<T>) -> Option<T>
    where
        T: TakeOut,
        ensures value { result ≡ get self.old ptr.index }
        ensures cut { OnSome result (self.new ≡ cut self.old ptr.index) }
        ensures gone { get self.new ptr.index ≡ None }
        ensures absent { IfNone result (self.new ≡ miss self.old) }
    {
        if !self.is_live(ptr) {
            self.removals = self.removals.next();
            return None;
        }
        let item = self.at_mut(ptr).take_out();
        self.vacate(ptr);
        Some(item)
    }

    // Takes the record in the slot at a place out, if it has one.
    fn empty_slot(&mut self, place: usize)
    where
        T: TakeOut + Drop,
        requires { place < length self.old.slots }
        ensures { self.new ≡ emptied_at self.old place }
    {
        let version = self.slots[place].version;
        let slot = place as u32 + 1;
        let ptr = Ptr::from_index(ArenaIndex { slot, version });
        if self.is_live(ptr) {
            self.remove(ptr);
        }
    }

    /// Takes all records out, with the memory that they own, and keeps the slots: they are handed out again, the first of them first. It takes no memory. Each record counts as a removal.
    pub fn clear(&mut self)
    where
        T: TakeOut + Drop,
        ensures cleared { self.new ≡ cleared self.old }
        ensures gone { (id : Index) → get self.new id ≡ None }
        ensures passed { (id : Index) → is_passed self.new id ≡ is_passed self.old id }
    {
        let count = self.slots.len();
        for done in 0..count {
            self.empty_slot(count - 1 - done);
        }
    }
}
