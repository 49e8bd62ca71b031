//! `ir_core::region`.

use ir_base::context::Ptr;
use ir_base::prelude::*;
use ir_core::prelude::*;
use ir_core::region::Region;

/// How a region is changed, and what it is asked.
pub fn regions<D: Dialects>() {
    let _ = <Ptr<Region> as RegionMoves<D>>::move_to_op;
    let _ = <Ptr<Region> as DropUses<D>>::drop_all_uses;
    let _ = <Ptr<Region> as RegionPtr<D>>::get_parent_op;
    let _ = <Ptr<Region> as RegionPlace<D>>::get_parent_region;
    let _ = <Ptr<Region> as RegionPlace<D>>::get_parent_block;
    let _ = <Ptr<Region> as RegionPlace<D>>::get_entry_block;
    let _ = <Ptr<Region> as RegionPlace<D>>::find_index_in_parent;
    let _ = <Ptr<Region> as RegionPlace<D>>::has_ssa_dominance;
}
