//! What a dialect says of its operations, types, attributes and locations.
ghost use Rattle.std.specs.Prelude.{◌≡◌, ◌<◌, ◌++◌, [], length, is_some, unwrap_or, IfOk, OnOk};
ghost use Rattle.ir_core_queries.specs.State.{types_of};

use ir_base_dialects::attribute::AttributeDict;
use ir_base_dialects::{Dialects, Identifier, TypeHandle};
use ir_core_queries::Context;
use std::alloc::AllocError;

/// As what an attribute is written.
#[derive(Clone, Copy, Debug, Drop, PartialEq, Eq)]
pub enum AttributeForm {
    /// Its key alone.
    Unit,
    /// Its key and a value.
    Valued,
    /// Not among the attributes: it belongs to the properties of its operation.
    Property,
}

/// Of what the location is asked.
#[derive(Clone, Copy, Debug, Drop, PartialEq, Eq)]
pub enum Located {
    /// Of the operation that has it.
    Operation,
    /// Of the argument at this index of the block that has it.
    Argument(usize),
}

/// How the parts of a dialect are spelled in MLIR's generic textual form. A crate of its own implements it on a type of its own, as `ToySpelling`, since the trait names contexts, and dialects stand below these.
///
/// Each call writes behind what is there, and answers `AllocError` where a growth was refused. What it writes is the same each time until the context changes.
pub trait Spelling<D: Dialects> {
    ghost use Rattle.std.specs.Prelude.{ℕ, List, Option};
    ghost use Rattle.ir_core_queries.specs.State.{ContextState};
    ghost use Rattle.ir_text_describe.specs.Spellings.{AttributeText};
    ghost use Rattle.ir_text_describe.specs.declared.spelling.Located.{Located as PlainLocated};

    // The name of operations of a kind.
    ghost operation_name: { Self → ContextState D D.Attr D.TypeKey D.TypeBody D.Saved D.Aux D.Loc → ℕ → List ℕ };

    // The text of the type at a place.
    ghost type_text: { Self → ContextState D D.Attr D.TypeKey D.TypeBody D.Saved D.Aux D.Loc → ℕ → List ℕ };

    // The form, key and value of an attribute.
    ghost attribute_text: { Self → ContextState D D.Attr D.TypeKey D.TypeBody D.Saved D.Aux D.Loc → List ℕ → D.Attr → AttributeText };

    // The properties of an operation with these attributes, with their brackets.
    ghost properties_text: { Self → ContextState D D.Attr D.TypeKey D.TypeBody D.Saved D.Aux D.Loc → List (List ℕ × D.Attr) → Option (List ℕ) };

    // A location, where it is known.
    ghost location_text: { Self → ContextState D D.Attr D.TypeKey D.TypeBody D.Saved D.Aux D.Loc → D.Loc → PlainLocated → Option (List ℕ) };

    /// Writes the name of operations of this kind, without quotes: any bytes.
    fn write_operation_name(
        &self,
        ctx: &Context<D>,
        kind: u32,
        out: &mut Vec<u8>,
    ) -> Result<(), AllocError>
        ensures { OnOk result (out.new.items ≡ out.old.items ++ operation_name self.now ctx.now kind) };

    /// Writes a known type.
    fn write_type(
        &self,
        ctx: &Context<D>,
        ty: TypeHandle,
        out: &mut Vec<u8>,
    ) -> Result<(), AllocError>
        requires { ty.place < length (types_of ctx.now) }
        ensures { OnOk result (out.new.items ≡ out.old.items ++ type_text self.now ctx.now ty.place) };

    /// Writes the key of an attribute without quotes, any bytes, and its value; nothing where it isn't among the attributes, and no value where the key stands alone.
    fn write_attribute(
        &self,
        ctx: &Context<D>,
        key: &Identifier,
        attr: &D::Attr,
        key_out: &mut Vec<u8>,
        value_out: &mut Vec<u8>,
    ) -> Result<AttributeForm, AllocError>
        ensures form { IfOk result (λ form. form ≡ (attribute_text self.now ctx.now key.now attr.now).form) }
        ensures key { OnOk result (key_out.new.items ≡ key_out.old.items ++ (attribute_text self.now ctx.now key.now attr.now).key) }
        ensures value { OnOk result (value_out.new.items ≡ value_out.old.items ++ (attribute_text self.now ctx.now key.now attr.now).value) };

    /// Writes the properties of an operation with these attributes, with their brackets `<` and `>`, and answers whether it has any; nothing where it has none.
    fn write_properties(
        &self,
        ctx: &Context<D>,
        attributes: &AttributeDict<D>,
        out: &mut Vec<u8>,
    ) -> Result<bool, AllocError>
        ensures some { IfOk result (λ some. some ≡ is_some (properties_text self.now ctx.now attributes.now)) }
        ensures text { OnOk result (out.new.items ≡ out.old.items ++ unwrap_or (properties_text self.now ctx.now attributes.now) []) };

    /// Writes a location, without `loc` and its parentheses, and answers whether it is known; nothing where it isn't.
    fn write_location(
        &self,
        ctx: &Context<D>,
        loc: &D::Loc,
        of: Located,
        out: &mut Vec<u8>,
    ) -> Result<bool, AllocError>
        ensures some { IfOk result (λ some. some ≡ is_some (location_text self.now ctx.now loc.now of)) }
        ensures text { OnOk result (out.new.items ≡ out.old.items ++ unwrap_or (location_text self.now ctx.now loc.now of) []) };
}
