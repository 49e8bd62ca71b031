//! Direct calls by which uses come to name something else: one use, or those that a predicate chooses.

use crate::fields::{count, three};
use crate::lab::Lab;
use crate::telling::tell_done;
use ir_base_dialects::Ptr;
use ir_checked_core::{CheckedErr, basic_block, operand_use, successor_use, value};
use ir_view_parts::{
    BasicBlock, BlockPtr, BlockUses, Context, Use, UseQueries, Value, ValueQueries,
};
use testkit_edit_texts::{TextError, take_field};
use toy_dialect::Toy;

// Lets the operand of a use name the other value, in the place of the one that it names.
fn replace_use(
    ctx: &mut Context<Toy>,
    used: Use<Value<Toy>>,
    other: Value<Toy>,
) -> Result<(), CheckedErr> {
    let named = operand_use::get_def(used, ctx)?;
    value::replace_use_with(named, ctx, used, other)
}

// Lets the successor of a use name the other block, in the place of the one that it names.
fn retarget_use(
    ctx: &mut Context<Toy>,
    used: Use<Ptr<BasicBlock<Toy>>>,
    other: Ptr<BasicBlock<Toy>>,
) -> Result<(), CheckedErr> {
    let named = successor_use::get_def(used, ctx)?;
    basic_block::retarget_pred_to(named, ctx, used, other)
}

/// The operand comes to name the value.
pub(crate) fn replace_use_with(lab: &mut Lab, used: Use<Value<Toy>>, value: Value<Toy>) {
    let answer = replace_use(&mut lab.context, used, value);
    tell_done(&mut lab.text, answer);
}

/// The successor comes to name the block.
pub(crate) fn retarget_pred_to(
    lab: &mut Lab,
    used: Use<Ptr<BasicBlock<Toy>>>,
    block: Ptr<BasicBlock<Toy>>,
) {
    let answer = retarget_use(&mut lab.context, used, block);
    tell_done(&mut lab.text, answer);
}

// Which uses of a value come to name another one.
#[derive(Clone, Copy, Drop)]
struct Chosen {
    value: Value<Toy>,
    // All, where the value has so many uses in the context that is handed in.
    count: usize,
    // That of a first operand in any case.
    first: bool,
}

// Whether a use is one of these, as the context that is handed in shows it.
fn is_chosen(shown: &Context<Toy>, chosen: Chosen, used: Use<Value<Toy>>) -> bool {
    let value = chosen.value;
    value.is_live(shown) && value.num_uses(shown) == chosen.count
        || chosen.first && used.try_find_index(shown) == Ok(0)
}

/// `VALUE OTHER counted COUNT`: the uses of the one value come to name the other where it has so many in the context that the predicate is handed. With `counted-or-first` in place of `counted` that of a first operand does so in any case.
pub(crate) fn replace_some_uses_with(lab: &mut Lab, rest: &str) -> Result<(), TextError> {
    let (value, rest) = take_field(rest).ok_or(TextError::Malformed)?;
    let (other, word, number) = three(rest)?;
    let (value, other) = (lab.value(value)?, lab.value(other)?);
    let chosen = Chosen {
        value,
        count: count(number)?,
        first: is_or_first(word)?,
    };
    let answer = replace_chosen(&mut lab.context, chosen, other);
    tell_done(&mut lab.text, answer);
    Ok(())
}

// Whether a predicate's word chooses that of a first operand too.
fn is_or_first(word: &str) -> Result<bool, TextError> {
    match word {
        "counted" => Ok(false),
        "counted-or-first" => Ok(true),
        _ => Err(TextError::Malformed),
    }
}

fn replace_chosen(
    ctx: &mut Context<Toy>,
    chosen: Chosen,
    other: Value<Toy>,
) -> Result<(), CheckedErr> {
    value::replace_some_uses_with(
        chosen.value,
        ctx,
        |shown: &Context<Toy>, used: Use<Value<Toy>>| is_chosen(shown, chosen, used),
        other,
    )
}

// Whether a block is the one that is meant or, where none is, whether something names it, as the context that is handed in shows it.
fn is_meant(
    shown: &Context<Toy>,
    meant: Option<Ptr<BasicBlock<Toy>>>,
    block: Ptr<BasicBlock<Toy>>,
) -> bool {
    match meant {
        Some(one) => block == one,
        None => block.is_live(shown) && block.has_pred(shown),
    }
}

/// `BLOCK OTHER PRED`: the successors that name the one block come to name the other where they are of operations in the block PRED. With `named` in its place, where they are of operations in a block that something names in the context that the predicate is handed.
pub(crate) fn retarget_some_preds_to(lab: &mut Lab, rest: &str) -> Result<(), TextError> {
    let (block, other, pred) = three(rest)?;
    let (block, other) = (lab.block(block)?, lab.block(other)?);
    let meant = meant_by(lab, pred)?;
    let answer = retarget_meant(&mut lab.context, block, meant, other);
    tell_done(&mut lab.text, answer);
    Ok(())
}

// The block that a predicate's word means.
fn meant_by(lab: &Lab, word: &str) -> Result<Option<Ptr<BasicBlock<Toy>>>, TextError> {
    if word == "named" {
        return Ok(None);
    }
    Ok(Some(lab.block(word)?))
}

fn retarget_meant(
    ctx: &mut Context<Toy>,
    block: Ptr<BasicBlock<Toy>>,
    meant: Option<Ptr<BasicBlock<Toy>>>,
    other: Ptr<BasicBlock<Toy>>,
) -> Result<(), CheckedErr> {
    basic_block::retarget_some_preds_to(
        block,
        ctx,
        |shown: &Context<Toy>, pred: Ptr<BasicBlock<Toy>>| is_meant(shown, meant, pred),
        other,
    )
}
