//! The context: the operations, regions and types of one compilation, what is saved and kept beside them, and the numbers and slots that it has left.
//!
//! It means a plain forest, found by `forest_of`, which is well formed at every time. What was handed out is never handed out again.

ghost use Rattle.std.specs.Prelude.{◌≡◌, ℕ, ◌⊎◌, ◌+◌, ◌-◌, ◌<◌, ◌≤◌, ◌^◌, ◌↔◌, [], length, position, Some, None, IsTrue, IfOk, IfErr, OnOk, OnErr, IsSome, IfSome};
ghost use Rattle.std.specs.Option.{option_copied, option_map};
ghost use Rattle.std.specs.Map.{keys_of};
ghost use Rattle.ir_model.specs.ContextIds.{context_ids};
ghost use Rattle.ir_model.specs.Forest.{a_value, the_block};
ghost use Rattle.ir_model.specs.declared.ids.ArenaIndex.{ArenaIndex};
ghost use Rattle.ir_model.specs.Nesting.{IsLiveNamed, WellFormed};
ghost use Rattle.ir_model.specs.Uses.{AreUses};
ghost use Rattle.ir_model.specs.Edits.{type_place, with_type};
ghost use Rattle.ir_model.specs.Sessions.{IsNewSession, Number, Session};
ghost use Rattle.ir_base_arenas.specs.Arena.{room};
ghost use Rattle.ir_core_records.specs.declared.record.ValueIndex.{ValueIndex as PlainIndex};
ghost use Rattle.ir_core_records.specs.Meaning.{value_of};
ghost use Rattle.ir_core_context.specs.State.{bare, block_uses_of, forest_of, types_of, uses_of};
ghost use Rattle.ir_core_context.specs.Sound.{AreLimits};
ghost use Rattle.ir_core_context.specs.Creation.{HoldTogether};
ghost use Rattle.ir_core_context.specs.Calls.{IsRoom, LiveWasMade, NoEntity, SameButForest, SameButTypes, TypesAreExact, nothing_beside};
ghost use Rattle.ir_core_context.specs.Removals.{ClearsEachOnce};
ghost use Rattle.ir_core_records.specs.DialectAnswers.{behaviour_of};

use ir_base_dialects::{Arena, CoreError, Dialects, Limits, Room, TypeHandle, TypeStore};
use ir_core_data::SideData;
use ir_core_records::Records;
use std::alloc::Global;
use std::marker::Model;

/// The operations, regions and types of one compilation. It stands for pliron's `Context`.
#[derive(Drop)]
pub struct Context<D: Dialects> {
    pub(crate) records: Records<D>,
    pub(crate) types: TypeStore<D::TypeKey, D::TypeBody>,
    pub(crate) next_value: u64,
    pub(crate) next_use: u64,
    pub(crate) side: SideData<D>,
    pub(crate) limits: Limits,
    pub(crate) alloc: Global,
}

impl<D: Dialects> Model for Context<D> {
    ghost use Rattle.ir_core_context.specs.State.{ContextState};
    ghost use Rattle.ir_core_context.specs.Sound.{IsSound};

    ghost Value = { ContextState D D.Attr D.TypeKey D.TypeBody D.Saved D.Aux D.Loc };

    ghost view = { λ c. record { records = c.records; types = c.types; next_value = c.next_value; next_use = c.next_use; side = c.side; limits = c.limits } };

    ghost invariant = { λ c. IsSound (record { records = c.records; types = c.types; next_value = c.next_value; next_use = c.next_use; side = c.side; limits = c.limits }) };
}

impl<D: Dialects> Context<D> {
    /// An empty context with the default limits. It allocates nothing.
    pub fn new(alloc: Global) -> Self
        ensures new { IsNewSession (bare result) }
        ensures beside { (bare result).beside ≡ nothing_beside }
        ensures limits { result.limits ≡ record { values = 18446744073709551615; uses = 18446744073709551615; slots = 4294967294; last_version = 4294967295 } }
    {
        Context::with_limits(alloc, Limits::default())
    }

    /// An empty context with these limits, none of which passes its default. It allocates nothing.
    pub fn with_limits(alloc: Global, limits: Limits) -> Self
        requires slots { limits.slots < 4294967295 }
        requires versions { 1 ≤ limits.last_version }
        ensures new { IsNewSession (bare result) }
        ensures beside { (bare result).beside ≡ nothing_beside }
        ensures limits { result.limits ≡ limits }
    {
        Context {
            records: Records {
                ops: Arena::new(alloc, limits.slots, limits.last_version),
                blocks: Arena::new(alloc, limits.slots, limits.last_version),
                regions: Arena::new(alloc, limits.slots, limits.last_version),
            },
            types: TypeStore::new(alloc),
            next_value: 0,
            next_use: 0,
            side: SideData::new(alloc, limits.slots, limits.last_version),
            limits,
            alloc,
        }
    }

    /// The allocator that the context was made with.
    pub fn alloc(&self) -> Global {
        self.alloc
    }

    /// How many numbers and slots are left.
    pub fn room(&self) -> Room
        ensures exact { IsRoom (bare self.now) result }
        ensures ops { result.ops ≡ room self.now.records.ops }
        ensures blocks { result.blocks ≡ room self.now.records.blocks }
        ensures regions { result.regions ≡ room self.now.records.regions }
    {
        Room {
            values: self.limits.values - self.next_value,
            uses: self.limits.uses - self.next_use,
            ops: self.records.ops.room(),
            blocks: self.records.blocks.room(),
            regions: self.records.regions.room(),
            aux: self.side.room(),
        }
    }

    /// Whether the context has no operation, block or region.
    pub fn is_ir_empty(&self) -> bool
        ensures { IsTrue result ↔ NoEntity (forest_of self.now) }
    {
        if self.records.ops.len() > 0 || self.records.blocks.len() > 0 {
            return false;
        }
        self.records.regions.is_empty()
    }

    /// Makes place for so many more operations, where there is less. Their records then take no memory; what they own still may.
    ///
    /// # Errors
    /// `OutOfMemory` where there is no memory for them. The context is the same in either case.
    pub fn reserve(&mut self, ops: usize) -> Result<(), CoreError>
        ensures same { self.new ≡ self.old }
        ensures memory { IfErr result (λ e. e ≡ CoreError.OutOfMemory) }
    {
        self.records.ops.reserve(ops)?;
        Ok(())
    }

    /// Takes all operations, blocks and regions out, with the memory that they own, and keeps their slots for what is made next. It takes no memory.
    ///
    /// Handles of what has gone stay refused. Types, saved and auxiliary data stay.
    pub fn clear(&mut self)
        ensures empty { NoEntity (forest_of self.new) }
        ensures once { ClearsEachOnce self.old self.new }
        ensures rest { SameButForest (bare self.old) (bare self.new) }
    {
        self.records.ops.clear();
        self.records.blocks.clear();
        self.records.regions.clear();
    }

    /// The type with this key; where there is none it is stored last, with the default body.
    ///
    /// The key that was stored first stays, and the argument is dropped. `OutOfMemory` comes only for a key that isn't stored yet, and changes nothing.
    pub fn instantiate_key(&mut self, key: D::TypeKey) -> Result<TypeHandle, CoreError>
        ensures place { IfOk result (λ t. t.place ≡ type_place (behaviour_of D.Dialects D.TypeKey.eq) (types_of self.old) key) }
        ensures known { IfOk result (λ t. t.place < length (types_of self.new)) }
        ensures types { OnOk result (types_of self.new ≡ with_type (behaviour_of D.Dialects D.TypeKey.eq) (types_of self.old) key) }
        ensures rest { SameButTypes (bare self.old) (bare self.new) }
        ensures memory { IfErr result (λ e. e ≡ CoreError.OutOfMemory) }
        ensures err { OnErr result (self.new ≡ self.old) }
        ensures only_new { OnErr result (type_place (behaviour_of D.Dialects D.TypeKey.eq) (types_of self.old) key ≡ length (types_of self.old)) }
    {
        let place = self.types.get_or_insert(key)?;
        Ok(TypeHandle::at(place))
    }

    /// The type at a place of the list of types.
    pub fn type_at(&self, place: usize) -> Option<TypeHandle>
        ensures some { IsSome result ↔ (place < length (types_of self.now)) }
        ensures value { IfSome result (λ t. t.place ≡ place) }
    {
        if place < self.types.len() {
            Some(TypeHandle::at(place))
        } else {
            None
        }
    }

    /// The type with this key, where it is stored. It stands for pliron's `Type::get_self_handle` of a type object.
    pub fn find_type(&self, key: &D::TypeKey) -> Option<TypeHandle>
        ensures found { option_map (λ t. t.place) result ≡ position (λ t. D.TypeKey.eq t.key key.now) (types_of self.now) }
        ensures known { IfSome result (λ t. t.place < length (types_of self.now)) }
    {
        match self.types.get(key) {
            Some(place) => Some(TypeHandle::at(place)),
            None => None,
        }
    }

    /// What holds of every context: it means a well formed forest.
    pub fn recall_well_formed(&self)
        ensures { WellFormed (forest_of self.now) (length (types_of self.now)) }
    {
        let _value = self.next_value;
    }

    /// What holds of every context: what is live was handed out.
    pub fn recall_live_was_made(&self)
        ensures { LiveWasMade (bare self.now) }
    {
        let _op_room = self.records.ops.room();
        let _block_room = self.records.blocks.room();
        let _region_room = self.records.regions.room();
    }

    /// What holds of every context: the kept uses of each live value and of each live block are exactly the places that name it.
    pub fn recall_uses_exact(&self)
        ensures values { (v : PlainIndex) → IsLiveNamed (forest_of self.now) (a_value (value_of v)) → AreUses (forest_of self.now) (a_value (value_of v)) (uses_of self.now v) }
        ensures blocks { (b : ArenaIndex) → IsLiveNamed (forest_of self.now) (the_block b) → AreUses (forest_of self.now) (the_block b) (block_uses_of self.now b) }
    {
        let _value = self.next_value;
    }

    /// The records, for the crates that read them.
    pub fn records(&self) -> &Records<D>
        ensures { result.now ≡ self.now.records }
    {
        &self.records
    }

    /// What holds of every context: uses and places name each other, links are those of lists, and records know their places.
    pub fn recall_holds_together(&self)
        ensures { HoldTogether self.now.records }
    {
        let _value = self.next_value;
    }

    /// What holds of every context: so many use numbers were handed out, fewer than 2^64.
    pub fn recall_use_numbers_fit(&self)
        ensures { (gone : ℕ) × Number (λ n. IsTrue ((bare self.now).passed.uses n)) gone × (gone < 2 ^ 64) }
    {
        let _value = self.next_use;
    }

    // What holds of every context: no more numbers were handed out than there are.
    pub(crate) fn recall_keeps_to_limits(&self)
        ensures values { self.now.next_value ≤ self.now.limits.values }
        ensures uses { self.now.next_use ≤ self.now.limits.uses }
    {
        let _value = self.next_value;
    }

    /// What holds of every context: types are equal exactly where their keys are.
    pub fn recall_types_exact(&self)
        ensures { TypesAreExact (behaviour_of D.Dialects D.TypeKey.eq) (types_of self.now) }
    {
        let _len = self.types.len();
    }
}
