//! Names of values and blocks.
//!
//! - `given_name v0|b0`, `id v0|b0`, `unique_name v0|b0`: of a value or of a block, by its handle.
//! - `record_given_name b0`, `record_id b0`, `record_unique_name b0`: of a block, by its record.

ghost use Rattle.ir_view_parts.specs.State.{forest_of};

use crate::types::telling::{Maybe, tell};
use ir_base_dialects::{CoreError, Dialects, Identifier, Ptr};
use ir_core_queries::Named;
use ir_view_parts::{BasicBlock, BlockPtr, Context, Value, ValueQueries};
use testkit_lab::{Item, Items, Lab, Reply, TextError, asked, items_of, tell_condition};
use toy_dialect::Toy;

/// Answers a word.
pub(crate) fn answer(lab: &mut Lab, call: &str, rest: &str) -> Result<(), TextError> {
    let items = items_of(lab, rest)?;
    let ctx = asked(lab.mode, &lab.session, &lab.context);
    match items {
        Items::One(Item::Value(value)) => of_value(&mut lab.text, ctx, call, value),
        Items::One(Item::Block(block)) => of_block(&mut lab.text, ctx, call, block),
        _ => lab.text.fail(TextError::Malformed),
    }
    Ok(())
}

// Which name is asked.
#[derive(Clone, Copy, Drop)]
enum Naming {
    Given,
    Id,
    Unique,
}

// A name of what is live.
fn named<D: Dialects, T: Named<D>>(
    ctx: &Context<D>,
    item: &T,
    naming: Naming,
) -> Result<Maybe<Identifier>, CoreError>
    requires { T.IsThere (forest_of ctx.now) item.now }
{
    match naming {
        Naming::Given => Ok(Maybe(item.given_name(ctx)?)),
        Naming::Id => Ok(Maybe(Some(item.id(ctx)?))),
        Naming::Unique => Ok(Maybe(Some(item.unique_name(ctx)?))),
    }
}

// Of a value.
fn of_value(text: &mut Reply, ctx: &Context<Toy>, call: &str, value: Value<Toy>) {
    match call {
        "given_name" => tell_name(text, value_name(ctx, value, Naming::Given)),
        "id" => tell_name(text, value_name(ctx, value, Naming::Id)),
        "unique_name" => tell_name(text, value_name(ctx, value, Naming::Unique)),
        _ => text.fail(TextError::Malformed),
    }
}

// Of a block, by its handle or by its record.
fn of_block(text: &mut Reply, ctx: &Context<Toy>, call: &str, block: Ptr<BasicBlock<Toy>>) {
    match call {
        "given_name" => tell_name(text, block_name(ctx, block, Naming::Given)),
        "id" => tell_name(text, block_name(ctx, block, Naming::Id)),
        "unique_name" => tell_name(text, block_name(ctx, block, Naming::Unique)),
        "record_given_name" => tell_name(text, record_name(ctx, block, Naming::Given)),
        "record_id" => tell_name(text, record_name(ctx, block, Naming::Id)),
        "record_unique_name" => tell_name(text, record_name(ctx, block, Naming::Unique)),
        _ => text.fail(TextError::Malformed),
    }
}

// A name, or none of what isn't live.
type Told = Option<Result<Maybe<Identifier>, CoreError>>;

fn tell_name(text: &mut Reply, told: Told) {
    match told {
        Some(told) => tell(text, told),
        None => tell_condition(text),
    }
}

fn value_name(ctx: &Context<Toy>, value: Value<Toy>, naming: Naming) -> Told {
    if !value.is_live(ctx) {
        return None;
    }
    Some(named(ctx, &value, naming))
}

fn block_name(ctx: &Context<Toy>, block: Ptr<BasicBlock<Toy>>, naming: Naming) -> Told {
    if !block.is_live(ctx) {
        return None;
    }
    Some(named(ctx, &block, naming))
}

fn record_name(ctx: &Context<Toy>, block: Ptr<BasicBlock<Toy>>, naming: Naming) -> Told {
    if !block.is_live(ctx) {
        return None;
    }
    Some(named(ctx, block.deref(ctx), naming))
}
