//! What is read of values and of uses.

use ir_base_dialects::Ptr;
use ir_checked_core::value;
use ir_view_parts::{
    BasicBlock, BlockUseQueries, DefiningEntity, Use, UseQueries, Value, ValuePlace, ValueQueries,
};
use testkit_lab::{Lab, Line, Name, Named, Reply, name_of};
use toy_dialect::Toy;

/// `VALUE`: whether it is live, its index by both calls, its type, how it is used, its location and what it stands in.
pub(crate) fn write_value(text: &mut Reply, lab: &Lab, value: Value<Toy>) {
    let ctx = lab.ctx();
    text.show("live ", value.is_live(ctx));
    match value.try_find_index(ctx) {
        Ok(index) => {
            text.show(" index ", index);
            write_type(text, lab, value);
            write_place(text, lab, value);
        }
        Err(fault) => text.show(" ", fault),
    }
}

// Writes the place by the other call, the type, and the count of uses.
fn write_type(text: &mut Reply, lab: &Lab, value: Value<Toy>) {
    let ctx = lab.ctx();
    if value.is_live(ctx) {
        text.show(" found ", value.find_index(ctx));
        text.show(" type ", value.get_type(ctx).name(lab));
        let count = value::num_uses(value, ctx).unwrap_or(usize::MAX);
        text.show(" num_uses ", count);
        text.show(" is_used ", value.is_used(ctx));
    }
}

fn write_place(text: &mut Reply, lab: &Lab, value: Value<Toy>) {
    let ctx = lab.ctx();
    if value.is_live(ctx) {
        text.show(" loc ", Line(*value.loc(ctx)));
        text.show(" block ", name_of(lab, value.get_parent_block(ctx)));
        text.show(" region ", name_of(lab, value.get_parent_region(ctx)));
    }
}

/// `VALUE`: what defines it, also where it isn't live.
pub(crate) fn definer(text: &mut Reply, lab: &Lab, value: Value<Toy>) {
    text.show("entity ", entity_name(lab, value.defining_entity()));
    text.show(" op ", name_of(lab, value.defining_op()));
    text.show(" block ", name_of(lab, value.defining_block()));
}

fn entity_name(lab: &Lab, entity: DefiningEntity<Toy>) -> Name {
    match entity {
        DefiningEntity::Op(op) => op.name(lab),
        DefiningEntity::Block(block) => block.name(lab),
    }
}

/// `USE` of a value: its user, its index there by both calls, the value that it names and the type of this.
pub(crate) fn write_value_use(text: &mut Reply, lab: &Lab, used: Use<Value<Toy>>) {
    text.show("user ", used.user_op().name(lab));
    let ctx = lab.ctx();
    match used.try_find_index(ctx) {
        Ok(index) => {
            text.show(" index ", index);
            text.show(" found ", used.find_index(ctx));
            text.show(" def ", used.get_def(ctx).name(lab));
            text.show(" type ", used.get_type(ctx).name(lab));
        }
        Err(fault) => text.show(" ", fault),
    }
}

/// `USE` of a block: its user, its index there by both calls, and the block that it names.
pub(crate) fn write_block_use(text: &mut Reply, lab: &Lab, used: Use<Ptr<BasicBlock<Toy>>>) {
    text.show("user ", used.user_op().name(lab));
    let ctx = lab.ctx();
    match used.try_find_index(ctx) {
        Ok(index) => {
            text.show(" index ", index);
            text.show(" found ", used.find_index(ctx));
            text.show(" def ", used.get_def(ctx).name(lab));
        }
        Err(fault) => text.show(" ", fault),
    }
}
