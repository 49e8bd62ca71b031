//! What the tests of arenas and lists store by.

ghost use Rattle.std.specs.Prelude.{◌≡◌, ◌+◌, ◌↔◌, ◌⊎◌, IfOk, IfErr, OnErr, OnOk, Some, Err};
ghost use Rattle.ir_base_arenas.specs.Arena.{get, fill, room, unused, IsNew};

use ir_base_arenas::{Arena, ArenaIndex, CoreError, Ptr};

/// Stores a record that was made before.
pub(crate) fn store<R: Drop>(arena: &mut Arena<R>, value: R) -> Result<Ptr<R>, CoreError>
    ensures made { IfOk result (λ ptr. get arena.new ptr.index ≡ Some value) }
    ensures filled { IfOk result (λ ptr. arena.new ≡ fill arena.old ptr.index value) }
    ensures new_id { IfOk result (λ ptr. IsNew arena.old ptr.index) }
    ensures err { OnErr result (arena.new ≡ arena.old) }
    ensures room { OnOk result (room arena.new + 1 ≡ room arena.old) }
    ensures spent { (result ≡ Err CoreError.SlotsSpent) ↔ (room arena.old ≡ 0) }
    ensures memory { IfErr result (λ e. (e ≡ CoreError.SlotsSpent) ⊎ (e ≡ CoreError.OutOfMemory)) }
    ensures grown { (result ≡ Err CoreError.OutOfMemory) → (room arena.old ≡ unused arena.old) }
{
    arena.insert_with(move |_: Ptr<R>| value)
}

/// The handle of the first record in a slot.
pub(crate) fn in_slot<R>(slot: u32) -> Ptr<R> {
    Ptr::from_index(ArenaIndex { slot, version: 1 })
}
