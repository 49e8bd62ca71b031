//! How a region goes from one operation to another.

ghost use Rattle.std.specs.Prelude.{◌≡◌, ◌++◌, ◌∷◌, [], OnOk, OnErr, is_ok, if◌then◌else◌};
ghost use Rattle.std.specs.List.{list_any};
ghost use Rattle.ir_model.specs.ContextIds.{same_id};
ghost use Rattle.ir_model.specs.Ids.{Distinct};
ghost use Rattle.ir_model.specs.Nesting.{In, Nested, regions_of};
ghost use Rattle.ir_model.specs.Changes.{move_region as moved, without};
ghost use Rattle.ir_base_arenas.specs.Arena.{get, IsLiveIn};
ghost use Rattle.ir_core_records.specs.Lists.{edited, in_record};
ghost use Rattle.ir_core_records.specs.Meaning.{forest_in};
ghost use Rattle.ir_core_records.specs.Nested.{AreNested};
ghost use Rattle.ir_core_records.specs.Tree.{tree_of, op_regions};
ghost use Rattle.ir_core_nesting.specs.Edits.{KeepsChains};

use crate::creation::push_region;
use ir_base_dialects::list_laws::lists_are_one;
use ir_base_dialects::{Arena, ArenaIndex, Dialects, Ptr, Seq};
use ir_core_records::{BasicBlock, Operation, Records, Region};
use std::alloc::AllocError;

// Takes an item out of a list in which it stands once at most, looking from the back.
fn drop_item(items: &mut Seq<ArenaIndex>, item: ArenaIndex)
    requires { Distinct items.old }
    ensures { items.new ≡ without same_id item items.old }
{
    let mut at = items.len();
    while at > 0 {
        at -= 1;
        if *items.at(at) == item {
            items.remove(at);
            return;
        }
    }
}

// Takes a region out of the list of a live operation.
pub(crate) fn drop_region<D: Dialects>(
    ops: &mut Arena<Operation<D>>,
    op: ArenaIndex,
    region: ArenaIndex,
)
    requires live { IsLiveIn ops.old op }
    requires once { Distinct (in_record op_regions [] (get ops.old op)) }
    ensures { ops.new ≡ edited (λ x. record x { regions = without same_id region x.regions }) ops.old op }
{
    drop_item(&mut ops.at_mut(Ptr::from_index(op)).regions, region);
}

/// Moves a live region to the back of the regions of a live operation. A region that stands there already stays where it is. It stands for pliron's `Region::move_to_op`.
///
/// # Errors
/// Where the list of the operation had to grow and couldn't. Then the forest is as it was.
pub fn move_region<D: Dialects>(
    records: &mut Records<D>,
    region: ArenaIndex,
    op: ArenaIndex,
) -> Result<(), AllocError>
    requires nested { AreNested (tree_of records.old) }
    requires formed { Nested (forest_in records.old) }
    requires region_live { IsLiveIn records.old.regions region }
    requires op_live { IsLiveIn records.old.ops op }
    ensures forest { OnOk result (forest_in records.new
        ≡ (if list_any (λ g. same_id g region) (regions_of (forest_in records.old) op) then forest_in records.old else moved (forest_in records.old) region op)) }
    ensures same { OnErr result (forest_in records.new ≡ forest_in records.old) }
    ensures refused { OnErr result (¬ In region (regions_of (forest_in records.old) op)) }
    ensures nested { AreNested (tree_of records.new) }
    ensures keeps { KeepsChains records.old records.new }
{
    lists_are_one::<Operation<D>, BasicBlock<D>>();
    lists_are_one::<BasicBlock<D>, Region>();
    let from = records.regions.at(Ptr::from_index(region)).parent;
    if from == op {
        return Ok(());
    }
    let place = records.ops.at(Ptr::from_index(op)).regions.len();
    push_region(&mut records.ops, op, region)?;
    drop_region(&mut records.ops, from, region);
    let record = records.regions.at_mut(Ptr::from_index(region));
    record.parent = op;
    record.place = place;
    Ok(())
}
