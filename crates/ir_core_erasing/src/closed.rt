//! Whether an entity can be erased: whether nothing outside names what is defined inside.
//!
//! Each kept use is asked once. A user that stands where the definition stands is inside, as one step tells. From any other it takes a climb, which ends at the root, or at a place inside it near the definition, which in most code is the region that the definition stands in.

ghost use Rattle.std.specs.Prelude.{◌≡◌, ◌↔◌, ℕ, All, IsTrue, Some};
ghost use Rattle.ir_model.specs.Forest.{an_op};
ghost use Rattle.ir_model.specs.Nesting.{Inside, IsClosed, IsLive, Nested, WellFormed};
ghost use Rattle.ir_model.specs.Parent.{IsParent};
ghost use Rattle.ir_core_records.specs.Chains.{chains_of, AreLinked};
ghost use Rattle.ir_core_records.specs.Meaning.{entity_of, forest_in};
ghost use Rattle.ir_core_records.specs.Nested.{AreNested};
ghost use Rattle.ir_core_records.specs.Tree.{tree_of};
ghost use Rattle.ir_core_erasing.specs.Closed.{EntityClosed};

use crate::walk::{deepest, next_inside, recall_subtrees_listed};
use ir_base_dialects::{Dialects, Ptr};
use ir_core_nesting::{are_one, parent_of, recall_depths_follow};
use ir_core_records::{Definition, EntityIndex, KeptUse, Records};

// What an entity stands in, but no further out than the root.
#[inline(always)]
fn up_within<D: Dialects>(records: &Records<D>, root: EntityIndex, here: EntityIndex) -> EntityIndex
    requires nested { AreNested (tree_of records.now) }
    requires formed { Nested (forest_in records.now) }
    requires inside { Inside (forest_in records.now) (entity_of root) (entity_of here) }
    ensures { Inside (forest_in records.now) (entity_of root) (entity_of result) }
{
    if are_one(here, root) {
        return here;
    }
    match parent_of(records, here) {
        Some(parent) => parent,
        None => here,
    }
}

// Whether an entity is inside the root. The climb ends at `home` too, which is inside.
#[inline(always)]
fn climbs_into<D: Dialects>(
    records: &Records<D>,
    root: EntityIndex,
    home: EntityIndex,
    inner: EntityIndex,
) -> bool
    requires nested { AreNested (tree_of records.now) }
    requires formed { Nested (forest_in records.now) }
    requires home { Inside (forest_in records.now) (entity_of root) (entity_of home) }
    ensures { IsTrue result ↔ Inside (forest_in records.now) (entity_of root) (entity_of inner) }
{
    recall_depths_follow::<D>();
    let mut current = Some(inner);
    while let Some(entity) = current {
        if are_one(entity, root) {
            return true;
        }
        if are_one(entity, home) {
            return true;
        }
        current = parent_of(records, entity);
    }
    false
}

// Whether an entity stands in another.
#[inline(always)]
fn stands_in<D: Dialects>(records: &Records<D>, inner: EntityIndex, outer: EntityIndex) -> bool
    requires nested { AreNested (tree_of records.now) }
    requires formed { Nested (forest_in records.now) }
    ensures { IsTrue result → IsParent (forest_in records.now) (entity_of inner) (Some (entity_of outer)) }
{
    match parent_of(records, inner) {
        Some(parent) => are_one(parent, outer),
        None => false,
    }
}

// Whether a user is inside the root. Where it stands in `near`, which is inside, one step tells.
#[inline(always)]
fn is_user_inside<D: Dialects>(
    records: &Records<D>,
    root: EntityIndex,
    near: EntityIndex,
    user: EntityIndex,
) -> bool
    requires nested { AreNested (tree_of records.now) }
    requires formed { Nested (forest_in records.now) }
    requires near { Inside (forest_in records.now) (entity_of root) (entity_of near) }
    ensures { IsTrue result ↔ Inside (forest_in records.now) (entity_of root) (entity_of user) }
{
    if stands_in(records, user, near) {
        return true;
    }
    climbs_into(records, root, up_within(records, root, near), user)
}

// Whether the users of what `here` defines are all inside the root.
#[inline(always)]
fn are_users_inside<D: Dialects>(
    records: &Records<D>,
    root: EntityIndex,
    here: EntityIndex,
    uses: &[KeptUse],
) -> bool
    requires nested { AreNested (tree_of records.now) }
    requires formed { Nested (forest_in records.now) }
    requires here { Inside (forest_in records.now) (entity_of root) (entity_of here) }
    ensures { IsTrue result ↔ All (λ u. Inside (forest_in records.now) (entity_of root) (an_op u.user)) uses.now }
{
    if uses.is_empty() {
        return true;
    }
    let near = up_within(records, root, here);
    for used in uses {
        if !is_user_inside(records, root, near, EntityIndex::Op(used.user())) {
            return false;
        }
    }
    true
}

// Whether the users of these definitions of `here` are all inside the root.
#[inline(always)]
fn are_all_users_inside<D: Dialects>(
    records: &Records<D>,
    root: EntityIndex,
    here: EntityIndex,
    definitions: &[Definition],
) -> bool
    requires nested { AreNested (tree_of records.now) }
    requires formed { Nested (forest_in records.now) }
    requires here { Inside (forest_in records.now) (entity_of root) (entity_of here) }
    ensures { IsTrue result ↔ All (λ r. All (λ u. Inside (forest_in records.now) (entity_of root) (an_op u.user)) r.uses) definitions.now }
{
    for definition in definitions {
        if !are_users_inside(records, root, here, definition.uses.as_slice()) {
            return false;
        }
    }
    true
}

// Whether the users of what the entity itself defines are all inside the root.
#[inline(always)]
fn keeps_its_users<D: Dialects>(records: &Records<D>, root: EntityIndex, here: EntityIndex) -> bool
    requires nested { AreNested (tree_of records.now) }
    requires formed { (keys : ℕ) × WellFormed (forest_in records.now) keys }
    requires linked { AreLinked (chains_of records.now) }
    requires live { IsLive (forest_in records.now) (entity_of here) }
    requires inside { Inside (forest_in records.now) (entity_of root) (entity_of here) }
    ensures { IsTrue result ↔ EntityClosed (forest_in records.now) (entity_of root) (entity_of here) }
{
    match here {
        EntityIndex::Op(op) => {
            let results = records.ops.at(Ptr::from_index(op)).results.as_slice();
            are_all_users_inside(records, root, here, results)
        }
        EntityIndex::Block(block) => {
            let block = records.blocks.at(Ptr::from_index(block));
            if !are_users_inside(records, root, here, block.uses.as_slice()) {
                return false;
            }
            are_all_users_inside(records, root, here, block.arguments.as_slice())
        }
        EntityIndex::Region(_) => true,
    }
}

/// Whether a live entity can be erased: whether each operand or successor that names a definition of its subtree belongs to an operation of the subtree. It takes no memory. It is the test that pliron's `erase` makes, asked of all definitions inside and not of the operation's own results alone.
#[inline(always)]
pub fn can_erase<D: Dialects>(records: &Records<D>, entity: EntityIndex) -> bool
    requires nested { AreNested (tree_of records.now) }
    requires formed { (keys : ℕ) × WellFormed (forest_in records.now) keys }
    requires linked { AreLinked (chains_of records.now) }
    requires live { IsLive (forest_in records.now) (entity_of entity) }
    ensures { IsTrue result ↔ IsClosed (forest_in records.now) (entity_of entity) }
{
    recall_subtrees_listed::<D>();
    let mut current = Some(deepest(records, entity));
    while let Some(here) = current {
        if !keeps_its_users(records, entity, here) {
            return false;
        }
        current = next_inside(records, entity, here);
    }
    true
}
