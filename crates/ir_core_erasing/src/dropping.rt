//! Operands and successors of all operations inside an entity, dropped. Nothing is removed, and the tree stays as it is.

ghost use Rattle.std.specs.Prelude.{◌≡◌};
ghost use Rattle.ir_model.specs.Changes.{DropsUses};
ghost use Rattle.ir_model.specs.Nesting.{IsLive, Nested};
ghost use Rattle.ir_core_records.specs.Chains.{chains_of, AreLinked};
ghost use Rattle.ir_core_records.specs.Frames.{KeepsTree};
ghost use Rattle.ir_core_records.specs.Meaning.{entity_of, forest_in};
ghost use Rattle.ir_core_records.specs.Nested.{AreNested};
ghost use Rattle.ir_core_records.specs.Tree.{tree_of};
ghost use Rattle.ir_core_erasing.specs.Dropping.{without_uses};

use crate::walk::{deepest, next_inside, recall_subtrees_listed};
use ir_base_dialects::Dialects;
use ir_core_chains::{unlink_operands, unlink_successors};
use ir_core_records::{EntityIndex, Records};

// Drops the uses of one entity: those of an operation, and none of a block or a region.
#[inline(always)]
fn drop_uses<D: Dialects>(records: &mut Records<D>, entity: EntityIndex)
    requires linked { AreLinked (chains_of records.old) }
    requires live { IsLive (forest_in records.old) (entity_of entity) }
    ensures linked { AreLinked (chains_of records.new) }
    ensures keeps { KeepsTree records.old records.new }
    ensures forest { forest_in records.new ≡ without_uses (forest_in records.old) (entity_of entity) }
{
    if let EntityIndex::Op(op) = entity {
        unlink_operands(records, op);
        unlink_successors(records, op);
    }
}

/// Takes the operands and successors of all operations inside a live entity out, also its own. It takes no memory. It stands for pliron's `drop_all_uses`.
#[inline(always)]
pub fn drop_all_uses<D: Dialects>(records: &mut Records<D>, entity: EntityIndex)
    requires nested { AreNested (tree_of records.old) }
    requires formed { Nested (forest_in records.old) }
    requires linked { AreLinked (chains_of records.old) }
    requires live { IsLive (forest_in records.old) (entity_of entity) }
    ensures forest { DropsUses (forest_in records.old) (entity_of entity) (forest_in records.new) }
    ensures linked { AreLinked (chains_of records.new) }
    ensures keeps { KeepsTree records.old records.new }
{
    recall_subtrees_listed::<D>();
    let mut current = Some(deepest(records, entity));
    while let Some(here) = current {
        drop_uses(records, here);
        current = next_inside(records, entity, here);
    }
}
