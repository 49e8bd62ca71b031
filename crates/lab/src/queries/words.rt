//! The words that ask, by what their fields name.

use crate::queries::{blocks, lists, nesting, ops, parts, strange, taking, uses, values, walks};
use ir_base_dialects::Ptr;
use ir_view_parts::{Entity, Region, Value};
use std::mem::replace;
use testkit_lab::{Item, Items, Lab, Reply, TextError, items_of};
use toy_dialect::Toy;

/// Answers a line: a word of this module, and its fields.
///
/// # Errors
/// None: the end of the lab's text tells whether there is an answer.
pub(crate) fn answer(lab: &mut Lab, word: &str, rest: &str) -> Result<(), TextError> {
    match word {
        "use.operands" | "use.successors" => taking::take(lab, word, rest),
        _ => read(lab, word, rest),
    }
    Ok(())
}

// Answers a line that leaves the lab as it is.
fn read(lab: &mut Lab, word: &str, rest: &str) {
    let nothing = Reply::new(lab.alloc());
    let mut text = replace(&mut lab.text, nothing);
    ask(&mut text, lab, word, rest);
    lab.text = text;
}

// Writes the answer behind the text. The fields of the first words don't all name items.
fn ask(text: &mut Reply, lab: &Lab, word: &str, rest: &str) {
    match word {
        "op.parts" | "block.parts" => parts::read(text, lab, word, rest),
        "value.strange" | "use.strange" | "use.strange_successor" => {
            strange::read(text, lab, word, rest)
        }
        "nest.strange" => strange::handle(text, lab, rest),
        "nest.context" => nesting::context(text, lab, rest),
        _ => match items_of(lab, rest) {
            Ok(items) => ask_items(text, lab, word, items),
            Err(error) => text.fail(error),
        },
    }
}

fn ask_items(text: &mut Reply, lab: &Lab, word: &str, items: Items) {
    match items {
        Items::One(item) => ask_one(text, lab, word, item),
        Items::Two(item, other) => ask_two(text, lab, word, item, other),
        Items::None | Items::Three(_, _, _) => text.fail(TextError::Malformed),
    }
}

fn ask_one(text: &mut Reply, lab: &Lab, word: &str, item: Item) {
    match (word, item) {
        (_, Item::Op(op)) => ops::ask(text, lab, word, op),
        (_, Item::Block(block)) => blocks::ask(text, lab, word, block),
        (_, Item::Region(region)) => ask_region(text, lab, word, region),
        (_, Item::Value(value)) => ask_value(text, lab, word, value),
        ("use.read", Item::ValueUse(used)) => values::write_value_use(text, lab, used),
        ("use.read_successor", Item::BlockUse(used)) => values::write_block_use(text, lab, used),
        ("nest.type_at", Item::Number(place)) => nesting::type_at(text, lab, place),
        _ => text.fail(TextError::Malformed),
    }
}

fn ask_two(text: &mut Reply, lab: &Lab, word: &str, item: Item, other: Item) {
    match (word, item, other) {
        ("op.at", Item::Op(op), Item::Number(index)) => ops::at(text, lab, op, index),
        ("block.at", Item::Block(block), Item::Number(index)) => {
            blocks::at(text, lab, block, index)
        }
        ("block.edge", Item::Block(block), Item::Block(other)) => {
            blocks::edge(text, lab, block, other)
        }
        ("nest.is_inside", _, _) => nesting::inside(text, lab, item, other),
        _ => text.fail(TextError::Malformed),
    }
}

// The words with a region alone.
fn ask_region(text: &mut Reply, lab: &Lab, word: &str, region: Ptr<Region>) {
    match word {
        "region.read" => nesting::region(text, lab, region),
        "list.read" => lists::of_region(text, lab, region),
        "nest.handle" => nesting::write_region(text, lab, region),
        "nest.listed" => walks::listed_in_region(text, lab, region),
        _ => nesting::ask(text, lab, word, Entity::Region(region)),
    }
}

// The words with a value alone.
fn ask_value(text: &mut Reply, lab: &Lab, word: &str, value: Value<Toy>) {
    match word {
        "value.read" => values::write_value(text, lab, value),
        "value.definer" => values::definer(text, lab, value),
        "value.uses" => uses::of_value(text, lab, value),
        _ => text.fail(TextError::Malformed),
    }
}
