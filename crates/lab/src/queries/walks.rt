//! Walks over all that stands inside an entity, and the lists that may be kept.

use ir_base_dialects::Ptr;
use ir_checked_core::CheckedErr;
use ir_view::walk::{
    all_inside, blocks_of, inside, inside_preorder, is_live, ops_inside, ops_inside_preorder,
    ops_of,
};
use ir_view_parts::{BasicBlock, BlockPtr, Entity, Region, RegionPtr};
use testkit_lab::{Lab, Name, Named, Reply, TextError, tell_condition, tell_refused};
use toy_dialect::Toy;

/// `ENTITY`: all that stands inside it, in post-order and in preorder, and the operations of these.
pub(crate) fn read(text: &mut Reply, lab: &Lab, root: Entity<Toy>) {
    write_inside(text, lab, root);
    write_preorder(text, lab, root);
    write_ops(text, lab, root);
}

// Writes the walk over entities in post-order.
fn write_inside(text: &mut Reply, lab: &Lab, root: Entity<Toy>) {
    let ctx = lab.ctx();
    if is_live(ctx, root) {
        text.say("inside");
        // A copy of a walk takes no memory.
        let walk = inside(ctx, root);
        match walk.clone() {
            Ok(copy) => {
                for found in copy {
                    text.show(" ", entity_name(lab, found));
                }
            }
            Err(_) => text.fail(TextError::OutOfMemory),
        }
    } else {
        tell_condition(text);
    }
}

// Writes the other one; nothing where the entity isn't live.
fn write_preorder(text: &mut Reply, lab: &Lab, root: Entity<Toy>) {
    let ctx = lab.ctx();
    if is_live(ctx, root) {
        text.say(" preorder");
        for found in inside_preorder(ctx, root) {
            text.show(" ", entity_name(lab, found));
        }
    }
}

// Writes the two walks over operations; nothing where the entity isn't live.
fn write_ops(text: &mut Reply, lab: &Lab, root: Entity<Toy>) {
    let ctx = lab.ctx();
    if is_live(ctx, root) {
        text.say(" ops");
        for op in ops_inside(ctx, root) {
            text.show(" ", op.name(lab));
        }
        text.say(" ops_preorder");
        for op in ops_inside_preorder(ctx, root) {
            text.show(" ", op.name(lab));
        }
    }
}

fn entity_name(lab: &Lab, entity: Entity<Toy>) -> Name {
    match entity {
        Entity::Op(op) => op.name(lab),
        Entity::Block(block) => block.name(lab),
        Entity::Region(region) => region.name(lab),
    }
}

/// `ENTITY`: how many stand inside it, by each of the two walks, how many operations, and the first and the last of the two walks.
pub(crate) fn counted(text: &mut Reply, lab: &Lab, root: Entity<Toy>) {
    let ctx = lab.ctx();
    if is_live(ctx, root) {
        let mut entities = 0u64;
        for _found in inside(ctx, root) {
            entities = entities.saturating_add(1);
        }
        let mut in_preorder = 0u64;
        for _found in inside_preorder(ctx, root) {
            in_preorder = in_preorder.saturating_add(1);
        }
        let mut ops = 0u64;
        for _op in ops_inside(ctx, root) {
            ops = ops.saturating_add(1);
        }
        text.show("inside ", entities);
        text.show(" preorder ", in_preorder);
        text.show(" ops ", ops);
    } else {
        tell_condition(text);
    }
}

/// `BLOCK`: the list of its operations, and all that stands inside it as a list.
pub(crate) fn listed_in_block(text: &mut Reply, lab: &Lab, block: Ptr<BasicBlock<Toy>>) {
    let ctx = lab.ctx();
    if block.is_live(ctx) {
        match ops_of(ctx, block) {
            Ok(ops) => {
                write_list(text, lab, "ops_of", ops);
                listed(text, lab, Entity::Block(block));
            }
            Err(error) => tell_refused(text, CheckedErr::Core(error)),
        }
    } else {
        tell_condition(text);
    }
}

/// `REGION`: the list of its blocks, and all that stands inside it as a list.
pub(crate) fn listed_in_region(text: &mut Reply, lab: &Lab, region: Ptr<Region>) {
    let ctx = lab.ctx();
    if RegionPtr::<Toy>::is_live(region, ctx) {
        match blocks_of(ctx, region) {
            Ok(blocks) => {
                write_list(text, lab, "blocks_of", blocks);
                listed(text, lab, Entity::Region(region));
            }
            Err(error) => tell_refused(text, CheckedErr::Core(error)),
        }
    } else {
        tell_condition(text);
    }
}

// Writes the names of a list, and a blank.
fn write_list<T: Named>(text: &mut Reply, lab: &Lab, head: &str, list: Vec<T>) {
    text.say(head);
    for &item in &list {
        text.show(" ", item.name(lab));
    }
    text.say(" ");
}

/// `OP`: all that stands inside it as a list.
pub(crate) fn listed(text: &mut Reply, lab: &Lab, root: Entity<Toy>) {
    let ctx = lab.ctx();
    if is_live(ctx, root) {
        match all_inside(ctx, root) {
            Ok(found) => write_found(text, lab, found),
            Err(error) => tell_refused(text, CheckedErr::Core(error)),
        }
    } else {
        tell_condition(text);
    }
}

fn write_found(text: &mut Reply, lab: &Lab, found: Vec<Entity<Toy>>) {
    text.say("all_inside");
    for &entity in &found {
        text.show(" ", entity_name(lab, entity));
    }
}
