//! The texts of Toy's operations, types, attributes and locations.
ghost use Rattle.std.specs.Prelude.{◌≡◌, ◌++◌, None, OnOk, codes, slice_get};
ghost use Rattle.std.specs.Option.{option_map};
ghost use Rattle.ir_core_queries.specs.State.{types_of};
ghost use Rattle.ir_text_describe.specs.declared.spelling.AttributeForm.TheVariants.{Valued};
ghost use Rattle.ir_text_pieces.specs.Quotes.{quoted};
ghost use Rattle.toy_dialect.specs.Toy.{op_name};
ghost use Rattle.toy_text.specs.ToyTexts.{attribute_text, key_text, location_text, type_text, typed_text};

use ir_base_dialects::attribute::AttributeDict;
use ir_base_dialects::{Dialects, Identifier, TypeHandle};
use ir_core_queries::{Context, TypeQueries};
use ir_text_describe::{AttributeForm, Located, Spelling};
use ir_text_pieces::write_quoted;
use itoa::Buffer;
use std::alloc::AllocError;
use std::convert::AsStr;
use toy_dialect::{Toy, ToyAttr, ToyLoc, ToyType};

// Writes a type.
fn write_key(key: &ToyType, out: &mut Vec<u8>) -> Result<(), AllocError>
    ensures { OnOk result (out.new.items ≡ out.old.items ++ key_text key.now) }
{
    match key {
        ToyType::Int { width } => {
            out.extend_from_slice(b"i")?;
            out.extend_from_slice(Buffer::new().format(*width).as_bytes())?;
        }
        ToyType::Named(name) => {
            out.extend_from_slice(b"!toy.")?;
            out.extend_from_slice(name.as_str().as_bytes())?;
        }
    }
    Ok(())
}

// Writes a colon and a type, where it is known.
fn write_typed(ctx: &Context<Toy>, ty: TypeHandle, out: &mut Vec<u8>) -> Result<(), AllocError>
    ensures { OnOk result (out.new.items ≡ out.old.items ++ typed_text (option_map (λ t. t.key) (slice_get (types_of ctx.now) ty.place))) }
{
    if ty.is_known(ctx) {
        out.extend_from_slice(b" : ")?;
        write_key(ty.deref(ctx), out)?;
    }
    Ok(())
}

// Writes a text that is to be outlined.
fn write_outlined(text: &[u8], out: &mut Vec<u8>) -> Result<(), AllocError>
    ensures { OnOk result (out.new.items ≡ out.old.items ++ (codes "#toy.outlined<" ++ (quoted text.now ++ codes ">"))) }
{
    out.extend_from_slice(b"#toy.outlined<")?;
    write_quoted(out, text)?;
    out.extend_from_slice(b">")?;
    Ok(())
}

// Writes the value of an attribute.
fn write_value(ctx: &Context<Toy>, attr: &ToyAttr, out: &mut Vec<u8>) -> Result<(), AllocError>
    ensures { OnOk result (out.new.items ≡ out.old.items ++ attribute_text (λ place. option_map (λ t. t.key) (slice_get (types_of ctx.now) place)) attr.now) }
{
    match attr {
        ToyAttr::Int(int) => {
            out.extend_from_slice(Buffer::new().format(int.value).as_bytes())?;
            write_typed(ctx, int.ty, out)?;
        }
        ToyAttr::Text(text) => write_quoted(out, text.0.as_str().as_bytes())?,
        ToyAttr::Outlined(text) => write_outlined(text.0.as_str().as_bytes(), out)?,
    }
    Ok(())
}

/// How the dialect Toy is spelled: an operation by its id, a type as `i32` or `!toy.name`, a location as the line of a script.
#[derive(Clone, Copy, Debug, Default, Drop, PartialEq, Eq)]
pub struct ToySpelling;

impl Spelling<Toy> for ToySpelling {
    ghost operation_name = { λ _ s kind. codes "toy." ++ op_name kind };

    ghost type_text = { λ _ s place. type_text (option_map (λ t. t.key) (slice_get (types_of s) place)) };

    ghost attribute_text = { λ _ s key attr. record { form = Valued; key = key; value = attribute_text (λ place. option_map (λ t. t.key) (slice_get (types_of s) place)) attr } };

    ghost properties_text = { λ _ s attributes. None };

    ghost location_text = { λ _ s loc of. location_text loc of };

    fn write_operation_name(
        &self,
        ctx: &Context<Toy>,
        kind: u32,
        out: &mut Vec<u8>,
    ) -> Result<(), AllocError> {
        let Ok(id) = Toy::op_id(ctx.alloc(), kind) else {
            return Err(AllocError);
        };
        out.extend_from_slice(id.dialect.as_str().as_bytes())?;
        out.extend_from_slice(b".")?;
        out.extend_from_slice(id.name.as_str().as_bytes())?;
        Ok(())
    }

    fn write_type(
        &self,
        ctx: &Context<Toy>,
        ty: TypeHandle,
        out: &mut Vec<u8>,
    ) -> Result<(), AllocError> {
        write_key(ty.deref(ctx), out)
    }

    fn write_attribute(
        &self,
        ctx: &Context<Toy>,
        key: &Identifier,
        attr: &ToyAttr,
        key_out: &mut Vec<u8>,
        value_out: &mut Vec<u8>,
    ) -> Result<AttributeForm, AllocError> {
        key_out.extend_from_slice(key.as_str().as_bytes())?;
        write_value(ctx, attr, value_out)?;
        Ok(AttributeForm::Valued)
    }

    fn write_properties(
        &self,
        _ctx: &Context<Toy>,
        _attributes: &AttributeDict<Toy>,
        _out: &mut Vec<u8>,
    ) -> Result<bool, AllocError> {
        Ok(false)
    }

    fn write_location(
        &self,
        _ctx: &Context<Toy>,
        loc: &ToyLoc,
        of: Located,
        out: &mut Vec<u8>,
    ) -> Result<bool, AllocError> {
        match loc {
            ToyLoc::Unknown => Ok(false),
            ToyLoc::Line(line) => match of {
                Located::Argument(_) => Ok(false),
                Located::Operation => {
                    out.extend_from_slice(b"\"script\":")?;
                    out.extend_from_slice(Buffer::new().format(*line).as_bytes())?;
                    out.extend_from_slice(b":1")?;
                    Ok(true)
                }
            },
        }
    }
}
