//! A walk over all that stands inside an entity, by links: from the last child to the first, all inside each before the child itself, and the entity last. It removes nothing, and a caller may change what the lists don't tell.
//!
//! `let mut current = Some(deepest(records, root));` begins it, and `next_inside` goes on until there is nothing more. A region's neighbour is looked for in the list of its operation, first where it stands if the regions were made one after the other; all other steps follow one link.

ghost use Rattle.std.specs.Prelude.{◌≡◌, ◌++◌, ◌∷◌, [], List, Some, None};
ghost use Rattle.std.specs.Option.{option_map};
ghost use Rattle.ir_model.specs.ContextIds.{context_ids};
ghost use Rattle.ir_model.specs.Forest.{Entity};
ghost use Rattle.ir_model.specs.Ids.{Distinct};
ghost use Rattle.ir_model.specs.Nesting.{Inside, Nested, children};
ghost use Rattle.ir_model.specs.Parent.{first_of};
ghost use Rattle.ir_core_records.specs.Meaning.{entity_of, forest_in};
ghost use Rattle.ir_core_records.specs.Nested.{AreNested};
ghost use Rattle.ir_core_records.specs.Tree.{tree_of};
ghost use Rattle.ir_core_erasing.specs.Walks.{before_from, kept_last, kept_previous, subtree, SubtreesListed};

use ir_base_dialects::list_laws::links_are_neighbours;
use ir_base_dialects::{ArenaIndex, Dialects, Ptr};
use ir_core_nesting::{are_one, parent_of, recall_depths_follow};
use ir_core_records::{BasicBlock, EntityIndex, Operation, Records, Region};

// The last of what stands in an entity, as the records say.
#[inline(always)]
fn last_in_record<D: Dialects>(records: &Records<D>, entity: EntityIndex) -> Option<EntityIndex>
    ensures { option_map entity_of result ≡ kept_last (tree_of records.now) (entity_of entity) }
{
    match entity {
        EntityIndex::Op(op) => {
            let regions = &records.ops.get(Ptr::from_index(op))?.regions;
            let last = *regions.as_slice().last()?;
            Some(EntityIndex::Region(last))
        }
        EntityIndex::Block(block) => {
            let last = records
                .blocks
                .get(Ptr::from_index(block))?
                .ops_list
                .last
                .get()?;
            Some(EntityIndex::Op(last))
        }
        EntityIndex::Region(region) => {
            let last = records.regions.get(Ptr::from_index(region))?.last.get()?;
            Some(EntityIndex::Block(last))
        }
    }
}

// The item before the first place of an item in a list.
#[inline(always)]
fn first_before(items: &[ArenaIndex], item: ArenaIndex) -> Option<ArenaIndex>
    ensures { result ≡ before_from None item items.now }
{
    let mut previous = None;
    for here in items {
        if *here == item {
            return previous;
        }
        previous = Some(*here);
    }
    None
}

// Where an item of a list would stand if the slots were spread evenly from the first item's to the last item's, as they are where regions were made one after the other.
#[inline(always)]
fn evenly_spread(items: &[ArenaIndex], item: ArenaIndex) -> usize {
    let (Some(first), Some(last)) = (items.first(), items.last()) else {
        return 0;
    };
    let whole = u64::from(last.slot.abs_diff(first.slot).max(1));
    let part = u64::from(item.slot.abs_diff(first.slot));
    let steps = items.len().saturating_sub(1) as u64;
    (part.saturating_mul(steps) / whole) as usize
}

// Where an item of a list is looked for first: where it stood when it came there, if it still does.
#[inline(always)]
fn likely_place(items: &[ArenaIndex], item: ArenaIndex, came_to: usize) -> usize {
    match items.get(came_to) {
        Some(here) if *here == item => came_to,
        _ => evenly_spread(items, item),
    }
}

// The item before an item in a list that has none twice. The likely place is tried first, and the answer doesn't depend on it.
#[inline(always)]
fn item_before(items: &[ArenaIndex], item: ArenaIndex, came_to: usize) -> Option<ArenaIndex>
    requires { Distinct items.now }
    ensures { result ≡ before_from None item items.now }
{
    let place = likely_place(items, item, came_to);
    if 0 < place && place < items.len() && items[place] == item {
        return Some(items[place - 1]);
    }
    first_before(items, item)
}

// The one before an entity in its list, as the records say.
#[inline(always)]
fn previous_in_record<D: Dialects>(records: &Records<D>, entity: EntityIndex) -> Option<EntityIndex>
    requires { Nested (forest_in records.now) }
    ensures { option_map entity_of result ≡ kept_previous (tree_of records.now) (entity_of entity) }
{
    match entity {
        EntityIndex::Op(op) => {
            let previous = records.ops.get(Ptr::from_index(op))?.prev.get()?;
            Some(EntityIndex::Op(previous))
        }
        EntityIndex::Block(block) => {
            let previous = records.blocks.get(Ptr::from_index(block))?.prev.get()?;
            Some(EntityIndex::Block(previous))
        }
        EntityIndex::Region(region) => {
            let record = records.regions.get(Ptr::from_index(region))?;
            let regions = &records.ops.get(Ptr::from_index(record.parent))?.regions;
            let previous = item_before(regions.as_slice(), region, record.place)?;
            Some(EntityIndex::Region(previous))
        }
    }
}

/// The entity that last children lead to, in which nothing stands. A walk over all inside `start` begins there.
#[inline(always)]
pub fn deepest<D: Dialects>(records: &Records<D>, start: EntityIndex) -> EntityIndex
    requires nested { AreNested (tree_of records.now) }
    requires formed { Nested (forest_in records.now) }
    ensures inside { Inside (forest_in records.now) (entity_of start) (entity_of result) }
    ensures leaf { children (forest_in records.now) (entity_of result) ≡ [] }
    ensures first { first_of (subtree records.now (entity_of start)) ≡ Some (entity_of result) }
{
    recall_depths_follow::<D>();
    let mut current = start;
    while let Some(child) = last_in_record(records, current) {
        current = child;
    }
    current
}

/// What comes after an entity in the walk over all inside the root: the deepest of the one before it in its list, or else what it stands in. After the root comes nothing.
#[inline(always)]
pub fn next_inside<D: Dialects>(
    records: &Records<D>,
    root: EntityIndex,
    here: EntityIndex,
) -> Option<EntityIndex>
    requires nested { AreNested (tree_of records.now) }
    requires formed { Nested (forest_in records.now) }
    ensures { (before behind : List (Entity context_ids)) → subtree records.now (entity_of root) ≡ before ++ entity_of here ∷ behind
        → option_map entity_of result ≡ first_of behind }
{
    recall_depths_follow::<D>();
    links_are_neighbours::<Operation<D>, BasicBlock<D>>();
    links_are_neighbours::<BasicBlock<D>, Region>();
    if are_one(here, root) {
        return None;
    }
    match previous_in_record(records, here) {
        Some(sibling) => Some(deepest(records, sibling)),
        None => parent_of(records, here),
    }
}

/// The listing of an entity has exactly what is inside it, each once.
pub fn recall_subtrees_listed<D: Dialects>()
    ensures { SubtreesListed D D.Attr D.TypeKey D.TypeBody D.Saved D.Aux D.Loc }
{
    recall_depths_follow::<D>();
}
