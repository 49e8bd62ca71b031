//! Operations, blocks and regions as entries of the tables: each is found by its number in the table of its kind.

ghost use Rattle.std.specs.Prelude.{MatchOption};
ghost use Rattle.ir_model.specs.declared.ids.ArenaIndex.{ArenaIndex};
ghost use Rattle.ir_core_queries.specs.State.{forest_of};
ghost use Rattle.ir_core_queries.specs.Entities.{meant};
ghost use Rattle.ir_run_sessions.specs.Named.{NamesLive};
ghost use Rattle.ir_run_sessions.specs.SessionTables.{entries_of};

use crate::lookups::{Entry, live_entry};
use crate::session_tables::Tables;
use ir_base_dialects::{Dialects, Ptr};
use ir_core_queries::{BasicBlock, Context, Entity, Operation, Region};

/// An entry that is an operation, a block or a region.
pub(crate) trait EntityEntry<D: Dialects>: Entry<D> {
    ghost use Rattle.std.specs.Prelude.{◌≡◌, ◌↔◌, List, map};
    ghost use Rattle.ir_model.specs.declared.ids.ArenaIndex.{ArenaIndex};
    ghost use Rattle.ir_model.specs.ContextIds.{context_ids};
    ghost use Rattle.ir_model.specs.Edits.{Tables as PlainTables};
    ghost use Rattle.ir_model.specs.Forest.{Entity as PlainEntity, Forest};
    ghost use Rattle.ir_model.specs.Nesting.{IsLive};
    ghost use Rattle.ir_core_records.specs.Meaning.{closed};

    ghost index_of: { Self → ArenaIndex };

    ghost entity_at: { ArenaIndex → PlainEntity context_ids };

    ghost column: { PlainTables context_ids → List ArenaIndex };

    /// The table of its kind.
    fn table(tables: &Tables<D>) -> &[Self]
        ensures { map index_of result.now ≡ column (entries_of tables.now) };

    /// Itself as an entity.
    fn entity(self) -> Entity<D>
        ensures { meant result ≡ entity_at (index_of self) };

    ghost lives: { (f : Forest context_ids (closed D.Attr D.TypeKey D.TypeBody D.Saved D.Aux D.Loc)) (x : Self) → Self.IsLiveIn f x ↔ IsLive f (entity_at (index_of x)) };
}

impl<D: Dialects> EntityEntry<D> for Ptr<Operation<D>> {
    ghost use Rattle.ir_model.specs.Forest.{an_op};

    ghost index_of = { λ p. p.index };

    ghost entity_at = { an_op };

    ghost column = { λ t. t.ops };

    fn table(tables: &Tables<D>) -> &[Self] {
        &tables.ops
    }

    fn entity(self) -> Entity<D> {
        Entity::Op(self)
    }

    ghost lives = { λ f x. (λ l. l, λ l. l) };
}

impl<D: Dialects> EntityEntry<D> for Ptr<BasicBlock<D>> {
    ghost use Rattle.ir_model.specs.Forest.{a_block};

    ghost index_of = { λ p. p.index };

    ghost entity_at = { a_block };

    ghost column = { λ t. t.blocks };

    fn table(tables: &Tables<D>) -> &[Self] {
        &tables.blocks
    }

    fn entity(self) -> Entity<D> {
        Entity::Block(self)
    }

    ghost lives = { λ f x. (λ l. l, λ l. l) };
}

impl<D: Dialects> EntityEntry<D> for Ptr<Region> {
    ghost use Rattle.ir_model.specs.Forest.{a_region};

    ghost index_of = { λ p. p.index };

    ghost entity_at = { a_region };

    ghost column = { λ t. t.regions };

    fn table(tables: &Tables<D>) -> &[Self] {
        &tables.regions
    }

    fn entity(self) -> Entity<D> {
        Entity::Region(self)
    }

    ghost lives = { λ f x. (λ l. l, λ l. l) };
}

/// The live entity with this number; none where no live one has it.
pub(crate) fn find<D: Dialects, E: EntityEntry<D>>(
    ctx: &Context<D>,
    tables: &Tables<D>,
    number: usize,
) -> Option<E>
    ensures { MatchOption result ((id : ArenaIndex) → NamesLive (forest_of ctx.now) E.entity_at (E.column (entries_of tables.now)) number id → ⊥) (λ entry. NamesLive (forest_of ctx.now) E.entity_at (E.column (entries_of tables.now)) number (E.index_of entry)) }
{
    live_entry(ctx, E::table(tables), number)
}
