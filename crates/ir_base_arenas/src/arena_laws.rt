//! What callers of `Arena` may rely on, as contracts of functions that do nothing: which ids were handed out, what stands under each after a change, and how much room is left.

ghost use Rattle.std.specs.Prelude.{◌≡◌, ◌≢◌, ◌↔◌, ◌⊎◌, ◌+◌, ◌-◌, ◌<◌, ◌≤◌, ℕ, IsTrue, Some, None, false};
ghost use Rattle.ir_model.specs.declared.ids.ArenaIndex.{ArenaIndex};
ghost use Rattle.ir_model.specs.declared.ids.Limits.{Limits};
ghost use Rattle.ir_model.specs.Sessions.{Number, IsNewId, HasRoom, LacksRoom, TakesSlot};
ghost use Rattle.ir_base_arenas.specs.Arena.{Arena as Records, get, fill, cleared, cut, miss, empty, room, arena_len, is_passed, IsLiveIn, IsNew, IsWhole};

/// A new id was never handed out, nothing stands under it, and where there is one, there is room. It is one that may be handed out next.
pub fn new_ids_are_new<T>()
    ensures absent { (a : Records T) (id : ArenaIndex) → IsNew a id → get a id ≡ None }
    ensures unpassed { (a : Records T) (id : ArenaIndex) → IsNew a id → is_passed a id ≡ false }
    ensures room { (a : Records T) (id : ArenaIndex) → IsWhole a → IsNew a id → 1 ≤ room a }
    ensures next { (limits : Limits) (a : Records T) (id : ArenaIndex)
        → limits.slots ≡ a.limit → limits.last_version ≡ a.last_version
        → IsNew a id → IsNewId limits (is_passed a) (IsLiveIn a) id }
{}

/// An insertion hands out its id, and no other change hands out any. What was handed out stays so, and what is live was handed out.
pub fn passed_ids_stay<T>()
    ensures empty { (limit last : ℕ) (q : ArenaIndex) → is_passed {T = T} (empty limit last) q ≡ false }
    ensures inserted { (a : Records T) (id q : ArenaIndex) (v : T) → IsNew a id
        → IsTrue (is_passed (fill a id v) q) ↔ (IsTrue (is_passed a q) ⊎ (q ≡ id)) }
    ensures written { (a : Records T) (id q : ArenaIndex) (v : T) → IsLiveIn a id
        → is_passed (fill a id v) q ≡ is_passed a q }
    ensures removed { (a : Records T) (id q : ArenaIndex) → IsLiveIn a id
        → is_passed (cut a id) q ≡ is_passed a q }
    ensures missed { (a : Records T) (q : ArenaIndex) → is_passed (miss a) q ≡ is_passed a q }
    ensures cleared { (a : Records T) (q : ArenaIndex) → is_passed (cleared a) q ≡ is_passed a q }
    ensures live { (a : Records T) (id : ArenaIndex) → IsWhole a → IsLiveIn a id → IsTrue (is_passed a id) }
{}

/// What was handed out and is gone stays gone.
pub fn gone_ids_stay_gone<T>()
    ensures inserted { (a : Records T) (id q : ArenaIndex) (v : T) → IsNew a id
        → IsTrue (is_passed a q) → get a q ≡ None → get (fill a id v) q ≡ None }
    ensures written { (a : Records T) (id q : ArenaIndex) (v : T) → IsLiveIn a id
        → get a q ≡ None → get (fill a id v) q ≡ None }
    ensures removed { (a : Records T) (id q : ArenaIndex) → IsLiveIn a id
        → get a q ≡ None → get (cut a id) q ≡ None }
    ensures missed { (a : Records T) (q : ArenaIndex) → get a q ≡ None → get (miss a) q ≡ None }
{}

/// What is stored or written under an id stands there, and what is taken out is gone.
pub fn changes_are_read<T>()
    ensures empty { (limit last : ℕ) (q : ArenaIndex) → get {T = T} (empty limit last) q ≡ None }
    ensures inserted { (a : Records T) (id : ArenaIndex) (v : T) → IsNew a id → get (fill a id v) id ≡ Some v }
    ensures written { (a : Records T) (id : ArenaIndex) (v : T) → IsLiveIn a id → get (fill a id v) id ≡ Some v }
    ensures removed { (a : Records T) (id : ArenaIndex) → IsLiveIn a id → get (cut a id) id ≡ None }
    ensures cleared { (a : Records T) (q : ArenaIndex) → get (cleared a) q ≡ None }
{}

/// Each change leaves what stands under every other id.
pub fn other_ids_stay<T>()
    ensures inserted { (a : Records T) (id q : ArenaIndex) (v : T) → IsNew a id → q ≢ id → get (fill a id v) q ≡ get a q }
    ensures written { (a : Records T) (id q : ArenaIndex) (v : T) → IsLiveIn a id → q ≢ id → get (fill a id v) q ≡ get a q }
    ensures removed { (a : Records T) (id q : ArenaIndex) → IsLiveIn a id → q ≢ id → get (cut a id) q ≡ get a q }
    ensures missed { (a : Records T) (q : ArenaIndex) → get (miss a) q ≡ get a q }
{}

/// A live id has a slot, which counts from 1, and each slot has one live id at most.
pub fn live_ids_have_slots<T>()
    ensures numbered { (a : Records T) (id : ArenaIndex) → IsLiveIn a id → 1 ≤ id.slot }
    ensures one { (a : Records T) (p q : ArenaIndex) → IsLiveIn a p → IsLiveIn a q → p.slot ≡ q.slot → p ≡ q }
{}

/// How many records are live after each change.
pub fn lengths_follow<T>()
    ensures inserted { (a : Records T) (id : ArenaIndex) (v : T) → IsNew a id → arena_len (fill a id v) ≡ arena_len a + 1 }
    ensures written { (a : Records T) (id : ArenaIndex) (v : T) → IsLiveIn a id → arena_len (fill a id v) ≡ arena_len a }
    ensures removed { (a : Records T) (id : ArenaIndex) → IsLiveIn a id → arena_len (cut a id) + 1 ≡ arena_len a }
    ensures none { (a : Records T) → (arena_len a ≡ 0) ↔ ((id : ArenaIndex) → get a id ≡ None) }
{}

/// The room after a write, and after a removal: one more, but for a slot that was at its last version.
pub fn rooms_follow<T>()
    ensures written { (a : Records T) (id : ArenaIndex) (v : T) → IsLiveIn a id → room (fill a id v) ≡ room a }
    ensures removed { (a : Records T) (id : ArenaIndex) → IsWhole a → IsLiveIn a id
        → id.version + 2 ≤ a.last_version → room (cut a id) ≡ room a + 1 }
    ensures retired { (a : Records T) (id : ArenaIndex) → IsWhole a → IsLiveIn a id
        → a.last_version < id.version + 2 → room (cut a id) ≡ room a }
{}

/// The room says exactly how many more records there can be: as many ids are live or were the last of their slot as the limit is above it.
pub fn rooms_are_exact<T>()
    ensures counted { (limits : Limits) (a : Records T) → limits.last_version ≡ a.last_version → IsWhole a
        → Number (TakesSlot limits (is_passed a) (IsLiveIn a)) (a.limit - room a) }
    ensures enough { (limits : Limits) (a : Records T) (n : ℕ)
        → limits.slots ≡ a.limit → limits.last_version ≡ a.last_version → IsWhole a
        → n ≤ room a → HasRoom limits.slots (TakesSlot limits (is_passed a) (IsLiveIn a)) n }
    ensures few { (limits : Limits) (a : Records T) (n : ℕ)
        → limits.slots ≡ a.limit → limits.last_version ≡ a.last_version → IsWhole a
        → room a < n → LacksRoom limits.slots (TakesSlot limits (is_passed a) (IsLiveIn a)) n }
{}

/// Each change leaves the slots within the limit, and their versions in range.
pub fn arenas_stay_whole<T>()
    ensures empty { (limit last : ℕ) → IsWhole {T = T} (empty limit last) }
    ensures inserted { (a : Records T) (id : ArenaIndex) (v : T) → IsWhole a → IsNew a id → IsWhole (fill a id v) }
    ensures written { (a : Records T) (id : ArenaIndex) (v : T) → IsWhole a → IsLiveIn a id → IsWhole (fill a id v) }
    ensures removed { (a : Records T) (id : ArenaIndex) → IsWhole a → IsLiveIn a id → IsWhole (cut a id) }
    ensures missed { (a : Records T) → IsWhole a → IsWhole (miss a) }
{}
