//! How the parts of operations and blocks are written.
ghost use Rattle.std.specs.Prelude.{◌≡◌, ◌<◌, length, Some};
ghost use Rattle.std.specs.Option.{option_copied};
ghost use Rattle.ir_model.specs.Forest.{a_block, an_op};
ghost use Rattle.ir_model.specs.Nesting.{IsLive};
ghost use Rattle.ir_core_queries.specs.State.{bare, forest_of, types_of};
ghost use Rattle.generic_dialect.specs.Kinds.{kind_of};
ghost use Rattle.generic_text.specs.GenericTexts.{known, place_of, text_at};
ghost use Rattle.generic_text.specs.Checks.{setting_of};
ghost use Rattle.generic_text.specs.GenericWords.{told_open_name, unlisted, value_of};
ghost use Rattle.ir_text_described.specs.Written.{argument_location_of, location_of, name_of, properties_of};

use crate::check::Check;
use crate::generic_spelling::place_of;
use generic_dialect::{
    Generic, GenericAttr, GenericLoc, GenericType, Kind, TextId, kind_name, properties_key,
    table_kind,
};
use ir_base_dialects::{Ptr, TypeHandle};
use ir_core_queries::{BasicBlock, BlockPtr, Operation, OperationPtr, TypeQueries};
use ir_text_describe::Located;

// A saved text; nothing where there is none.
fn saved<'a>(check: &Check<'a>, id: TextId) -> &'a [u8]
    ensures { result.now ≡ text_at (bare check.now.ctx.now).beside.saved id.0 }
{
    match check.ctx.saved_at(id.index()) {
        None => &check.text[..0],
        Some(text) => text.0.as_slice(),
    }
}

// A saved text, if there is one.
fn known<'a>(check: &Check<'a>, id: Option<TextId>) -> Option<&'a [u8]>
    ensures { option_copied result ≡ known (bare check.now.ctx.now).beside.saved id }
{
    match id {
        None => None,
        Some(id) => Some(saved(check, id)),
    }
}

// A name that the table hasn't; nothing in the place of one that it has.
fn unlisted<'a>(check: &Check<'a>, name: &'a [u8]) -> &'a [u8]
    ensures { result.now ≡ unlisted name.now }
{
    if table_kind(name).is_some() {
        &check.text[..0]
    } else {
        name
    }
}

// The name of an open kind; nothing where the table has an operation of that name.
fn open_name<'a>(check: &Check<'a>, kind: Kind) -> &'a [u8]
    ensures { result.now ≡ told_open_name (bare check.now.ctx.now).beside.saved kind }
{
    match kind {
        Kind::Listed { .. } => &check.text[..0],
        Kind::Open { name, .. } => unlisted(check, saved(check, name)),
    }
}

/// The name of a live operation.
pub(crate) fn name_of<'a>(check: &Check<'a>, op: Ptr<Operation<Generic>>) -> &'a [u8]
    requires { IsLive (forest_of check.now.ctx.now) (an_op op.index) }
    ensures { name_of (setting_of check.now) op.index ≡ Some result.now }
{
    let kind = op.deref(check.ctx).kind();
    match kind_name(kind) {
        Some(name) => name,
        None => open_name(check, Kind::of(kind)),
    }
}

/// The properties of a live operation, if it has any.
pub(crate) fn properties_of<'a>(check: &Check<'a>, op: Ptr<Operation<Generic>>) -> Option<&'a [u8]>
    requires { IsLive (forest_of check.now.ctx.now) (an_op op.index) }
    ensures { option_copied result ≡ properties_of (setting_of check.now) op.index }
{
    let attributes = op.deref(check.ctx).attributes();
    match attributes.get::<GenericAttr>(&properties_key()) {
        None => None,
        Some(GenericAttr::Unit) => None,
        Some(GenericAttr::Text(id)) => Some(saved(check, *id)),
    }
}

/// What is written behind the key of an attribute.
pub(crate) fn value_of<'a>(check: &Check<'a>, attr: GenericAttr) -> Option<&'a [u8]>
    ensures { option_copied result ≡ value_of (bare check.now.ctx.now).beside.saved attr }
{
    match attr {
        GenericAttr::Unit => None,
        GenericAttr::Text(id) => Some(saved(check, id)),
    }
}

/// The text of a known type.
pub(crate) fn type_text<'a>(check: &Check<'a>, ty: TypeHandle) -> &'a [u8]
    requires { ty.place < length (types_of check.now.ctx.now) }
    ensures { result.now ≡ (setting_of check.now).words.type_text ty.place }
{
    let GenericType(id) = ty.deref(check.ctx);
    saved(check, *id)
}

// A location, if it is known.
fn location<'a>(check: &Check<'a>, loc: &GenericLoc, of: Located) -> Option<&'a [u8]>
    ensures { option_copied result ≡ known (bare check.now.ctx.now).beside.saved (place_of loc.now of) }
{
    known(check, place_of(loc, of))
}

/// The location of a live operation, if it is known and is to be told.
pub(crate) fn location_of<'a>(check: &Check<'a>, op: Ptr<Operation<Generic>>) -> Option<&'a [u8]>
    requires { IsLive (forest_of check.now.ctx.now) (an_op op.index) }
    ensures { option_copied result ≡ location_of (setting_of check.now) op.index }
{
    if check.located {
        location(check, op.deref(check.ctx).loc(), Located::Operation)
    } else {
        None
    }
}

/// The location of the argument at that place of a live block, if it is known and is to be told.
pub(crate) fn argument_location_of<'a>(
    check: &Check<'a>,
    block: Ptr<BasicBlock<Generic>>,
    index: usize,
) -> Option<&'a [u8]>
    requires { IsLive (forest_of check.now.ctx.now) (a_block block.index) }
    ensures { option_copied result ≡ argument_location_of (setting_of check.now) block.index index }
{
    if check.located {
        location(
            check,
            block.deref(check.ctx).loc(),
            Located::Argument(index),
        )
    } else {
        None
    }
}
