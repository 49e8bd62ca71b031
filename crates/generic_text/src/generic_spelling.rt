//! The parts of the dialect Generic as texts.
ghost use Rattle.std.specs.Prelude.{◌≡◌, ◌++◌, ℕ, List, [], OnOk, IfOk, codes, drop, is_some, unwrap_or, option_and_then, slice_get, Some};
ghost use Rattle.std.specs.Option.{option_copied, option_map};
ghost use Rattle.ir_model.specs.Stores.{attribute_at};
ghost use Rattle.ir_core_queries.specs.State.{bare, types_of};
ghost use Rattle.generic_dialect.specs.Keys.{the_key};
ghost use Rattle.generic_dialect.specs.Kinds.{kind_of, listed_name};
ghost use Rattle.generic_text.specs.GenericTexts.{attribute_of, joined, known, name_of, open_name, place_of, properties_of, text_at, type_text};

use generic_dialect::{
    Generic, GenericAttr, GenericLoc, GenericType, KeptAttr, Kind, TextId, key_bytes, kind_name,
    properties_key,
};
use ir_base_dialects::attribute::AttributeDict;
use ir_base_dialects::{Identifier, TypeHandle};
use ir_core_queries::{Context, TypeQueries};
use ir_text_describe::{AttributeForm, Located, Spelling};
use std::alloc::{AllocError, Global};

// Writes a saved text; nothing where there is none.
fn write_text(ctx: &Context<Generic>, id: TextId, out: &mut Vec<u8>) -> Result<(), AllocError>
    ensures { OnOk result (out.new.items ≡ out.old.items ++ text_at (bare ctx.now).beside.saved id.0) }
{
    match ctx.saved_at(id.index()) {
        None => Ok(()),
        Some(text) => {
            out.extend_from_slice(text.0.as_slice())?;
            Ok(())
        }
    }
}

// Writes the name of an operation that isn't in the table; nothing of one that is.
fn write_open(ctx: &Context<Generic>, kind: Kind, out: &mut Vec<u8>) -> Result<(), AllocError>
    ensures { OnOk result (out.new.items ≡ out.old.items ++ open_name (bare ctx.now).beside.saved kind) }
{
    match kind {
        Kind::Listed { .. } => Ok(()),
        Kind::Open { name, .. } => write_text(ctx, name, out),
    }
}

// Writes the value of an attribute, unless it is unit.
fn write_value(
    ctx: &Context<Generic>,
    attr: GenericAttr,
    out: &mut Vec<u8>,
) -> Result<AttributeForm, AllocError>
    ensures form { (key : List ℕ) → IfOk result (λ form. form ≡ (attribute_of (bare ctx.now).beside.saved (Some key) attr).form) }
    ensures value { (key : List ℕ) → OnOk result (out.new.items ≡ out.old.items ++ (attribute_of (bare ctx.now).beside.saved (Some key) attr).value) }
{
    match attr {
        GenericAttr::Unit => Ok(AttributeForm::Unit),
        GenericAttr::Text(id) => {
            write_text(ctx, id, out)?;
            Ok(AttributeForm::Valued)
        }
    }
}

// Writes a saved text, if there is one.
fn write_known(
    ctx: &Context<Generic>,
    id: Option<TextId>,
    out: &mut Vec<u8>,
) -> Result<bool, AllocError>
    ensures some { IfOk result (λ some. some ≡ is_some (known (bare ctx.now).beside.saved id)) }
    ensures text { OnOk result (out.new.items ≡ out.old.items ++ unwrap_or (known (bare ctx.now).beside.saved id) []) }
{
    match id {
        None => Ok(false),
        Some(id) => {
            write_text(ctx, id, out)?;
            Ok(true)
        }
    }
}

// The location of the argument at this index, if it has one.
fn argument_place(ids: &[Option<TextId>], index: usize) -> Option<TextId>
    ensures { result ≡ joined (slice_get ids.now index) }
{
    match ids.get(index) {
        None => None,
        Some(id) => *id,
    }
}

/// The saved text that a location is, of an operation or of an argument, if it is one.
pub fn place_of(loc: &GenericLoc, of: Located) -> Option<TextId>
    ensures { result ≡ place_of loc.now of }
{
    match loc {
        GenericLoc::Unknown => None,
        GenericLoc::Text(id) => match of {
            Located::Operation => Some(*id),
            Located::Argument(_) => None,
        },
        GenericLoc::Arguments(ids) => match of {
            Located::Operation => None,
            Located::Argument(index) => argument_place(ids.as_slice(), index),
        },
    }
}

/// The texts of the dialect Generic.
#[derive(Clone, Copy, Debug, Default, Drop, PartialEq, Eq)]
pub struct GenericSpelling;

impl Spelling<Generic> for GenericSpelling {
    ghost operation_name = { λ _ s kind. name_of (bare s).beside.saved (listed_name (kind_of kind)) (kind_of kind) };

    ghost type_text = { λ _ s place. type_text (bare s).beside.saved (option_map (λ t. t.key) (slice_get (types_of s) place)) };

    ghost attribute_text = { λ _ s name attr. attribute_of (bare s).beside.saved (the_key name) attr.0 };

    ghost properties_text = { λ _ s attributes. properties_of (bare s).beside.saved (option_and_then (λ a. Some a.0) (attribute_at attributes (codes "__properties"))) };

    ghost location_text = { λ _ s loc of. known (bare s).beside.saved (place_of loc of) };

    fn write_operation_name(
        &self,
        ctx: &Context<Generic>,
        kind: u32,
        out: &mut Vec<u8>,
    ) -> Result<(), AllocError> {
        match kind_name(kind) {
            Some(name) => {
                out.extend_from_slice(name)?;
                Ok(())
            }
            None => write_open(ctx, Kind::of(kind), out),
        }
    }

    fn write_type(
        &self,
        ctx: &Context<Generic>,
        ty: TypeHandle,
        out: &mut Vec<u8>,
    ) -> Result<(), AllocError> {
        let GenericType(id) = ty.deref(ctx);
        write_text(ctx, *id, out)
    }

    fn write_attribute(
        &self,
        ctx: &Context<Generic>,
        key: &Identifier,
        attr: &KeptAttr,
        key_out: &mut Vec<u8>,
        value_out: &mut Vec<u8>,
    ) -> Result<AttributeForm, AllocError> {
        match key_bytes(ctx.alloc(), key) {
            Ok(None) => Ok(AttributeForm::Property),
            Ok(Some(bytes)) => {
                key_out.extend_from_slice(bytes.as_slice())?;
                write_value(ctx, attr.0, value_out)
            }
            Err(_) => Err(AllocError),
        }
    }

    fn write_properties(
        &self,
        ctx: &Context<Generic>,
        attributes: &AttributeDict<Generic>,
        out: &mut Vec<u8>,
    ) -> Result<bool, AllocError> {
        match attributes.get::<GenericAttr>(&properties_key()) {
            None => Ok(false),
            Some(GenericAttr::Unit) => Ok(false),
            Some(GenericAttr::Text(id)) => write_known(ctx, Some(*id), out),
        }
    }

    fn write_location(
        &self,
        ctx: &Context<Generic>,
        loc: &GenericLoc,
        of: Located,
        out: &mut Vec<u8>,
    ) -> Result<bool, AllocError> {
        write_known(ctx, place_of(loc, of), out)
    }
}
