//! Handles, regions, what stands in what, and the context as a whole.

use crate::queries::walks;
use ir_base_dialects::{Ptr, TypeHandle};
use ir_checked_core::entity as entities;
use ir_view_parts::{
    ArenaObj, BasicBlock, BlockPtr, Context, Entity, Operation, OperationPtr, Region, RegionPlace,
    RegionPtr, TypeQueries, is_inside,
};
use testkit_lab::{Item, Lab, Named, Reply, TextError, name_of, tell_condition, tell_refused};
use toy_dialect::Toy;

/// The words with an operation, a block or a region alone that are the same for all of them. `nest.can_erase`: whether it can be erased.
pub(crate) fn ask(text: &mut Reply, lab: &Lab, word: &str, entity: Entity<Toy>) {
    match word {
        "nest.can_erase" => match entities::can_erase(lab.ctx(), entity) {
            Ok(answer) => text.show("", answer),
            Err(error) => tell_refused(text, error),
        },
        "nest.walk" => walks::read(text, lab, entity),
        "nest.counted" => walks::counted(text, lab, entity),
        _ => text.fail(TextError::Malformed),
    }
}

/// `REGION`: its operation and its index there, what it stands in, its entry block, and whether definitions dominate uses there.
pub(crate) fn region(text: &mut Reply, lab: &Lab, region: Ptr<Region>) {
    let ctx = lab.ctx();
    if region.is_live(ctx) {
        text.show("op ", region.get_parent_op(ctx).name(lab));
        text.show(" block ", name_of(lab, region.get_parent_block(ctx)));
        let outer = RegionPlace::<Toy>::get_parent_region(region, ctx);
        text.show(" region ", name_of(lab, outer));
        text.show(" index ", region.find_index_in_parent(ctx));
        text.show(" entry ", name_of(lab, region.get_entry_block(ctx)));
        text.show(" ssa_dominance ", region.has_ssa_dominance(ctx));
    } else {
        tell_condition(text);
    }
}

/// `ENTITY OTHER`: whether the one is the other or stands in it.
pub(crate) fn inside(text: &mut Reply, lab: &Lab, item: Item, other: Item) {
    match (entity_of(item), entity_of(other)) {
        (Some(inner), Some(outer)) => text.show("", is_inside(lab.ctx(), inner, outer)),
        _ => text.fail(TextError::Malformed),
    }
}

// The operation, the block or the region that an item is.
fn entity_of(item: Item) -> Option<Entity<Toy>> {
    match item {
        Item::Op(op) => Some(Entity::Op(op)),
        Item::Block(block) => Some(Entity::Block(block)),
        Item::Region(region) => Some(Entity::Region(region)),
        _ => None,
    }
}

/// `OP`: whether its handle is live and its arena has it, its slot and version, and the handle that its record knows.
pub(crate) fn write_op(text: &mut Reply, lab: &Lab, op: Ptr<Operation<Toy>>) {
    let ctx = lab.ctx();
    text.show("index ", op.index());
    text.show(" live ", op.is_live(ctx));
    text.show(" stored ", Operation::get_arena(ctx).is_live(op));
    match op.try_deref(ctx) {
        Ok(record) => text.show(" self ", record.get_self_ptr(ctx).name(lab)),
        Err(fault) => text.show(" ", fault),
    }
}

/// `BLOCK`: the same of a block.
pub(crate) fn write_block(text: &mut Reply, lab: &Lab, block: Ptr<BasicBlock<Toy>>) {
    let ctx = lab.ctx();
    text.show("index ", block.index());
    text.show(" live ", block.is_live(ctx));
    text.show(" stored ", BasicBlock::get_arena(ctx).is_live(block));
    match block.try_deref(ctx) {
        Ok(record) => text.show(" self ", record.get_self_ptr(ctx).name(lab)),
        Err(fault) => text.show(" ", fault),
    }
}

/// `REGION`: the same of a region.
pub(crate) fn write_region(text: &mut Reply, lab: &Lab, region: Ptr<Region>) {
    let ctx = lab.ctx();
    text.show("index ", region.index());
    text.show(" live ", region.is_live(ctx));
    text.show(" stored ", Region::get_arena(ctx).is_live(region));
    match RegionPtr::<Toy>::try_deref(region, ctx) {
        Ok(record) => text.show(" self ", record.get_self_ptr(ctx).name(lab)),
        Err(fault) => text.show(" ", fault),
    }
}

/// `PLACE`: the type at this place of the store, and whether the handle of the place is known.
pub(crate) fn type_at(text: &mut Reply, lab: &Lab, place: usize) {
    let ctx = lab.ctx();
    text.show("type ", name_of(lab, ctx.type_at(place)));
    text.show(" known ", TypeHandle::at(place).is_known(ctx));
}

/// Without fields: whether nothing is in the context, and how much room is left.
pub(crate) fn context(text: &mut Reply, lab: &Lab, rest: &str) {
    match rest {
        "" => write_room(text, lab.ctx()),
        _ => text.fail(TextError::Malformed),
    }
}

fn write_room(text: &mut Reply, ctx: &Context<Toy>) {
    text.show("empty ", ctx.is_ir_empty());
    let room = ctx.room();
    text.show(" values ", room.values);
    text.show(" uses ", room.uses);
    text.show(" ops ", room.ops);
    text.show(" blocks ", room.blocks);
    text.show(" regions ", room.regions);
    text.show(" aux ", room.aux);
}
