//! `ir_view::walk`.

use ir_base::prelude::*;
use ir_view::walk::{
    EntitiesInside, OpsInside, all_inside, blocks_of, inside, inside_preorder, is_live, ops_inside,
    ops_inside_preorder, ops_of,
};

/// Walks over all that stands inside an entity.
pub fn walks<'a, D: Dialects>() {
    let _ = inside::<D>;
    let _ = inside_preorder::<D>;
    let _ = ops_inside::<D>;
    let _ = ops_inside_preorder::<D>;
    let _ = <EntitiesInside<'a, D> as Iterator>::next;
    let _ = <EntitiesInside<'a, D> as Clone>::clone;
    let _ = <OpsInside<'a, D> as Iterator>::next;
}

/// Lists that a pass may keep while it edits.
pub fn lists<D: Dialects>() {
    let _ = is_live::<D>;
    let _ = ops_of::<D>;
    let _ = blocks_of::<D>;
    let _ = all_inside::<D>;
}
