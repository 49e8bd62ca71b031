//! The words of calls that ask, by what their fields name.

use crate::checked::block_asks::{ask_block, ask_block_at, ask_of_blocks};
use crate::checked::op_asks::{ask_op, ask_op_at};
use crate::checked::small_types::{ask_kept, ask_place};
use crate::checked::told::{Told, tell, tell_error};
use crate::checked::walked;
use ir_base_dialects::{Limits, Ptr, TypeHandle};
use ir_checked::{passes, region as region_views, types as type_views, value as value_views, walk};
use ir_checked_core::{
    CheckedErr, context, entity as entities, operand_use, region as regions, successor_use, types,
    uniqued, uniqued_any, value as values,
};
use ir_run::toy::ToyVerifiers;
use ir_view_parts::{BasicBlock, Context, Entity, Region, Use, Value};
use std::fmt::Display;
use testkit_lab::{Item, Items, Lab, Line, Reply, Saved, TextError};
use toy_dialect::{Toy, ToyType};

/// Writes the answer behind the text.
pub(crate) fn ask(text: &mut Reply, lab: &Lab, call: &str, items: Items) {
    match items {
        Items::None => ask_kept(text, lab, call),
        Items::One(item) => ask_one(text, lab, call, item),
        Items::Two(Item::Op(op), Item::Number(index)) => ask_op_at(text, lab, call, op, index),
        Items::Two(Item::Block(block), Item::Number(index)) => {
            ask_block_at(text, lab, call, block, index)
        }
        Items::Two(Item::Block(block), Item::Block(other)) => {
            ask_of_blocks(text, lab, call, block, other)
        }
        Items::Two(Item::Number(slots), Item::Number(last_version)) => {
            ask_with_limits(text, lab, call, slots, last_version)
        }
        Items::Two(Item::Saved(saved), Item::Elsewhere) => {
            ask_saved(text, lab.session.ctx(), call, saved)
        }
        _ => text.fail(TextError::Malformed),
    }
}

// The calls with one argument.
fn ask_one(text: &mut Reply, lab: &Lab, call: &str, item: Item) {
    match item {
        Item::Op(op) => ask_op(text, lab, call, op),
        Item::Block(block) => ask_block(text, lab, call, block),
        Item::Region(region) => ask_region(text, lab, call, region),
        Item::Value(value) => ask_value(text, lab, call, value),
        Item::ValueUse(used) => ask_value_use(text, lab, call, used),
        Item::BlockUse(used) => ask_block_use(text, lab, call, used),
        Item::Type(ty) => ask_type(text, lab, call, ty),
        Item::Number(place) => ask_place(text, lab, call, TypeHandle::at(place)),
        Item::Saved(saved) => ask_saved(text, &lab.context, call, saved),
        Item::Nothing | Item::Elsewhere => text.fail(TextError::Malformed),
    }
}

/// The calls that ask of what an entity is or has inside.
pub(crate) fn ask_entity(text: &mut Reply, lab: &Lab, call: &str, entity: Entity<Toy>) {
    match call {
        "entity::can_erase" => tell(text, lab, entities::can_erase(lab.ctx(), entity)),
        "walk::inside" => walked::inside(text, lab, entity),
        "walk::inside_preorder" => walked::inside_preorder(text, lab, entity),
        "walk::ops_inside" => walked::ops_inside(text, lab, entity),
        "walk::ops_inside_preorder" => walked::ops_inside_preorder(text, lab, entity),
        "walk::all_inside" => tell(text, lab, walk::all_inside(lab.ctx(), entity)),
        _ => text.fail(TextError::Malformed),
    }
}

// The calls that ask of a region.
fn ask_region(text: &mut Reply, lab: &Lab, call: &str, region: Ptr<Region>) {
    let ctx = lab.ctx();
    match call {
        // `done` where there is such a region.
        "region::deref" => match regions::deref::<Toy>(region, ctx) {
            Ok(_record) => ().write(text, lab),
            Err(error) => tell_error(text, error),
        },
        "region::get_parent_op" => tell(text, lab, regions::get_parent_op(region, ctx)),
        "region::get_parent_block" => tell(text, lab, regions::get_parent_block(region, ctx)),
        "region::get_parent_region" => tell(text, lab, regions::get_parent_region(region, ctx)),
        "region::get_entry_block" => tell(text, lab, regions::get_entry_block(region, ctx)),
        "region::get_head" => tell(text, lab, regions::get_head(region, ctx)),
        "region::get_tail" => tell(text, lab, regions::get_tail(region, ctx)),
        "region::iter" => walked::blocks(text, lab, region),
        "region::find_index_in_parent" => {
            tell(text, lab, regions::find_index_in_parent(region, ctx))
        }
        "region::has_ssa_dominance" => tell(text, lab, regions::has_ssa_dominance(region, ctx)),
        "region::verify" => tell(text, lab, region_views::verify(region, ctx, &ToyVerifiers)),
        "walk::blocks_of" => tell(text, lab, walk::blocks_of(ctx, region)),
        "passes::can_remove_unreached" => {
            tell(text, lab, passes::can_remove_unreached(region, ctx))
        }
        _ => ask_entity(text, lab, call, Entity::Region(region)),
    }
}

// The calls that ask of a value.
fn ask_value(text: &mut Reply, lab: &Lab, call: &str, value: Value<Toy>) {
    let ctx = lab.ctx();
    match call {
        "value::find_index" => tell(text, lab, values::find_index(value, ctx)),
        "value::num_uses" => tell(text, lab, values::num_uses(value, ctx)),
        "value::is_used" => tell(text, lab, values::is_used(value, ctx)),
        "value::uses" => tell(text, lab, values::uses(value, ctx)),
        "value::get_type" => tell(text, lab, values::get_type(value, ctx)),
        // `loc` and the line.
        "value::loc" => match values::loc(value, ctx) {
            Ok(loc) => text.show("loc ", Line(*loc)),
            Err(error) => tell_error(text, error),
        },
        "value::get_parent_block" => tell(text, lab, values::get_parent_block(value, ctx)),
        "value::get_parent_region" => tell(text, lab, values::get_parent_region(value, ctx)),
        "value::given_name" => tell(text, lab, values::given_name(value, ctx)),
        "value::id" => tell(text, lab, values::id(value, ctx)),
        "value::unique_name" => tell(text, lab, values::unique_name(value, ctx)),
        "value::verify" => tell(text, lab, value_views::verify(value, ctx, &ToyVerifiers)),
        _ => text.fail(TextError::Malformed),
    }
}

// The calls that ask of a value's use.
fn ask_value_use(text: &mut Reply, lab: &Lab, call: &str, used: Use<Value<Toy>>) {
    let ctx = lab.ctx();
    match call {
        "operand_use::find_index" => tell(text, lab, operand_use::find_index(used, ctx)),
        "operand_use::get_def" => tell(text, lab, operand_use::get_def(used, ctx)),
        "operand_use::get_type" => tell(text, lab, operand_use::get_type(used, ctx)),
        _ => text.fail(TextError::Malformed),
    }
}

// The calls that ask of a block's use.
fn ask_block_use(text: &mut Reply, lab: &Lab, call: &str, used: Use<Ptr<BasicBlock<Toy>>>) {
    let ctx = lab.ctx();
    match call {
        "successor_use::find_index" => tell(text, lab, successor_use::find_index(used, ctx)),
        "successor_use::get_def" => tell(text, lab, successor_use::get_def(used, ctx)),
        _ => text.fail(TextError::Malformed),
    }
}

/// The calls that ask of a type.
pub(crate) fn ask_type(text: &mut Reply, lab: &Lab, call: &str, ty: TypeHandle) {
    let ctx = lab.ctx();
    match call {
        // `i` and the width of the type, or its name.
        "types::deref" => match types::deref::<Toy>(ty, ctx) {
            Ok(ToyType::Int { width }) => text.show("i", width),
            Ok(ToyType::Named(name)) => text.show("", name),
            Err(error) => tell_error(text, error),
        },
        "types::body" => match types::body::<Toy>(ty, ctx) {
            Ok(body) => body.write(text, lab),
            Err(error) => tell_error(text, error),
        },
        "types::get_type" => tell(text, lab, type_views::get_type(ty, ctx)),
        "types::verify" => tell(text, lab, type_views::verify(ty, ctx, &ToyVerifiers)),
        _ => text.fail(TextError::Malformed),
    }
}

// The calls that ask of a saved text or number without sign.
fn ask_saved(text: &mut Reply, ctx: &Context<Toy>, call: &str, saved: Saved) {
    match (call, saved) {
        ("uniqued_any::get", Saved::Text(key)) => tell_saved(text, uniqued_any::get(ctx, key)),
        ("uniqued_any::get", Saved::Unsigned(key)) => tell_saved(text, uniqued_any::get(ctx, key)),
        ("uniqued::get", Saved::UniqueText(saved)) => tell_saved(text, uniqued::get(saved, ctx)),
        ("uniqued::get", Saved::UniqueUnsigned(saved)) => tell_saved(
            text,
            uniqued::get(saved, ctx),
        ),
        _ => text.fail(TextError::Malformed),
    }
}

// Writes a saved value.
fn tell_saved<T: Display>(text: &mut Reply, saved: Result<&T, CheckedErr>) {
    match saved {
        Ok(value) => text.show("", value),
        Err(error) => tell_error(text, error),
    }
}

// `context::with_limits SLOTS VERSION`: an empty context with these limits.
fn ask_with_limits(text: &mut Reply, lab: &Lab, call: &str, slots: usize, last_version: usize) {
    match (call, u32::try_from(slots), u32::try_from(last_version)) {
        ("context::with_limits", Ok(slots), Ok(last_version)) => {
            tell(text, lab, made_with(lab, slots, last_version))
        }
        _ => text.fail(TextError::Malformed),
    }
}

// Whether a context is made with these limits.
fn made_with(lab: &Lab, slots: u32, last_version: u32) -> Result<(), CheckedErr> {
    let limits = Limits {
        slots,
        last_version,
        ..Limits::default()
    };
    match context::with_limits::<Toy>(lab.alloc(), limits) {
        Ok(made) => context::end(made, Ok(())),
        Err(error) => Err(error),
    }
}
