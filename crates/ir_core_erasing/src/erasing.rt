//! How an entity goes with all that stands inside it: its uses are dropped first, and then it is taken away from the innermost on.

ghost use Rattle.std.specs.Prelude.{◌≡◌, ◌+◌, ℕ};
ghost use Rattle.ir_model.specs.Changes.{Removes};
ghost use Rattle.ir_model.specs.Nesting.{IsClosed, IsLive, WellFormed};
ghost use Rattle.ir_model.specs.Subtree.{IsSubtreeSize};
ghost use Rattle.ir_core_records.specs.Chains.{chains_of, AreLinked};
ghost use Rattle.ir_core_records.specs.Meaning.{entity_of, forest_in};
ghost use Rattle.ir_core_records.specs.Nested.{AreNested};
ghost use Rattle.ir_core_records.specs.Table.{KnowOwn};
ghost use Rattle.ir_core_records.specs.Tree.{tree_of};
ghost use Rattle.ir_core_erasing.specs.Dropping.{Bare, Unnamed};
ghost use Rattle.ir_core_erasing.specs.Erasing.{removals, HandsOutNone};

use crate::dropping::drop_all_uses;
use crate::leaves::remove_leaf;
use crate::walk::deepest;
use ir_base_dialects::Dialects;
use ir_core_nesting::{are_one, parent_of};
use ir_core_records::{EntityIndex, Records};

// Removes an entity and all that stands inside it, where nothing inside uses or is used: the deepest, and then on at what it stood in.
fn tear_down<D: Dialects>(records: &mut Records<D>, root: EntityIndex)
    requires nested { AreNested (tree_of records.old) }
    requires formed { (keys : ℕ) × WellFormed (forest_in records.old) keys }
    requires linked { AreLinked (chains_of records.old) }
    requires live { IsLive (forest_in records.old) (entity_of root) }
    requires bare { Bare (forest_in records.old) (entity_of root) }
    requires unnamed { Unnamed (forest_in records.old) (entity_of root) }
    ensures removed { Removes (forest_in records.old) (entity_of root) (forest_in records.new) }
    ensures once { (n : ℕ) × IsSubtreeSize (forest_in records.old) (entity_of root) n × (removals records.new ≡ removals records.old + n) }
    ensures nested { AreNested (tree_of records.new) }
    ensures chains { chains_of records.new ≡ chains_of records.old }
    ensures own { KnowOwn records.old → KnowOwn records.new }
    ensures ids { HandsOutNone records.old records.new }
{
    let mut current = Some(root);
    while let Some(entity) = current {
        let leaf = deepest(records, entity);
        current = if are_one(leaf, root) {
            None
        } else {
            parent_of(records, leaf)
        };
        remove_leaf(records, leaf);
    }
}

/// Erases a live entity that can be erased, with all that stands inside it. Each of these is removed from its arena once. It takes no memory, however deep the nesting. It stands for pliron's `erase`.
pub fn erase<D: Dialects>(records: &mut Records<D>, entity: EntityIndex)
    requires nested { AreNested (tree_of records.old) }
    requires formed { (keys : ℕ) × WellFormed (forest_in records.old) keys }
    requires linked { AreLinked (chains_of records.old) }
    requires live { IsLive (forest_in records.old) (entity_of entity) }
    requires closed { IsClosed (forest_in records.old) (entity_of entity) }
    ensures removed { Removes (forest_in records.old) (entity_of entity) (forest_in records.new) }
    ensures once { (n : ℕ) × IsSubtreeSize (forest_in records.old) (entity_of entity) n × (removals records.new ≡ removals records.old + n) }
    ensures nested { AreNested (tree_of records.new) }
    ensures linked { AreLinked (chains_of records.new) }
    ensures own { KnowOwn records.old → KnowOwn records.new }
    ensures ids { HandsOutNone records.old records.new }
{
    drop_all_uses(records, entity);
    tear_down(records, entity);
}
