//! What operations, blocks and regions stand in, however deep.

ghost use Rattle.std.specs.Prelude.{◌≡◌, ◌↔◌, IsTrue, option_map};
ghost use Rattle.ir_model.specs.ContextIds.{context_ids};
ghost use Rattle.ir_model.specs.Forest.{same_entity};
ghost use Rattle.ir_model.specs.Nesting.{Inside, Nested};
ghost use Rattle.ir_model.specs.Parent.{IsParent};
ghost use Rattle.ir_core_records.specs.Meaning.{entity_of, forest_in};
ghost use Rattle.ir_core_records.specs.Nested.{AreNested};
ghost use Rattle.ir_core_records.specs.Tree.{tree_of};
ghost use Rattle.ir_core_nesting.specs.Climbs.{kept_parent, DepthsFit, DepthsFollow};

use ir_base_dialects::linked_list::LinkedList;
use ir_base_dialects::list_laws::lists_hold_nodes;
use ir_base_dialects::{Dialects, Ptr};
use ir_core_records::{BasicBlock, EntityIndex, Operation, Records, Region};

// What an entity stands in, as its record says.
#[inline(always)]
fn parent_in_record<D: Dialects>(records: &Records<D>, entity: EntityIndex) -> Option<EntityIndex>
    ensures { option_map entity_of result ≡ kept_parent (tree_of records.now) (entity_of entity) }
{
    match entity {
        EntityIndex::Op(op) => {
            let block = records.ops.get(Ptr::from_index(op))?.get_container().get()?;
            Some(EntityIndex::Block(block))
        }
        EntityIndex::Block(block) => {
            let region = records
                .blocks
                .get(Ptr::from_index(block))?
                .get_container()
                .get()?;
            Some(EntityIndex::Region(region))
        }
        EntityIndex::Region(region) => {
            let op = records.regions.get(Ptr::from_index(region))?.parent;
            Some(EntityIndex::Op(op))
        }
    }
}

/// Whether the entities are one.
#[inline(always)]
pub fn are_one(a: EntityIndex, b: EntityIndex) -> bool
    ensures { result ≡ same_entity context_ids (entity_of a) (entity_of b) }
{
    match (a, b) {
        (EntityIndex::Op(a), EntityIndex::Op(b)) => a == b,
        (EntityIndex::Block(a), EntityIndex::Block(b)) => a == b,
        (EntityIndex::Region(a), EntityIndex::Region(b)) => a == b,
        _ => false,
    }
}

/// What an entity stands in: an operation in a block, a block in a region, a region in an operation. It is `None` where the entity stands in no list, or isn't live. It stands for pliron's `get_parent_block`, `get_parent_region` and `get_parent_op`.
#[inline(always)]
pub fn parent_of<D: Dialects>(records: &Records<D>, entity: EntityIndex) -> Option<EntityIndex>
    requires nested { AreNested (tree_of records.now) }
    requires formed { Nested (forest_in records.now) }
    ensures { IsParent (forest_in records.now) (entity_of entity) (option_map entity_of result) }
{
    lists_hold_nodes::<Operation<D>, BasicBlock<D>>();
    lists_hold_nodes::<BasicBlock<D>, Region>();
    parent_in_record(records, entity)
}

/// Whether `inner` is `outer` or stands inside it, however deep. It climbs from `inner`, a step a level.
#[inline(always)]
pub fn is_inside<D: Dialects>(records: &Records<D>, outer: EntityIndex, inner: EntityIndex) -> bool
    requires nested { AreNested (tree_of records.now) }
    requires formed { Nested (forest_in records.now) }
    ensures { IsTrue result ↔ Inside (forest_in records.now) (entity_of outer) (entity_of inner) }
{
    lists_hold_nodes::<Operation<D>, BasicBlock<D>>();
    lists_hold_nodes::<BasicBlock<D>, Region>();
    let mut current = Some(inner);
    while let Some(entity) = current {
        if are_one(entity, outer) {
            return true;
        }
        current = parent_in_record(records, entity);
    }
    false
}

/// What stands in an entity is one level deeper than that, and nothing is deeper than there are slots. So a walk up or down ends.
pub fn recall_depths_follow<D: Dialects>()
    ensures below { DepthsFollow D D.Attr D.TypeKey D.TypeBody D.Saved D.Aux D.Loc }
    ensures fits { DepthsFit D D.Attr D.TypeKey D.TypeBody D.Saved D.Aux D.Loc }
{
    lists_hold_nodes::<Operation<D>, BasicBlock<D>>();
    lists_hold_nodes::<BasicBlock<D>, Region>();
}
