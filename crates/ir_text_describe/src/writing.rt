//! Single parts of an operation and of a block's head, written and put: those that a dialect spells.

ghost use Rattle.std.specs.Prelude.{◌<◌, ◌≤◌, length};
ghost use Rattle.ir_core_queries.specs.State.{types_of};

use crate::spelling::{AttributeForm, Located, Spelling};
use ir_base_dialects::{Dialects, Identifier, TypeHandle};
use ir_core_queries::{Context, Operation};
use ir_text_pieces::{DescribeErr, Part, Span, TreeWriter, TypePiece};

/// What is described: a context over a dialect, how this is spelled, and whether locations are put.
#[derive(Drop)]
pub(crate) struct Source<'a, D: Dialects, S: Spelling<D>> {
    pub ctx: &'a Context<D>,
    pub spelling: &'a S,
    pub located: bool,
}

// The piece that the name of operations of a kind is.
fn name_piece<D: Dialects, S: Spelling<D>>(
    from: &Source<'_, D, S>,
    to: &mut TreeWriter,
    kind: u32,
) -> Result<Span, DescribeErr> {
    if let Some(piece) = to.operation_name(kind) {
        return Ok(piece);
    }
    let mut name = Vec::new(from.ctx.alloc());
    from.spelling
        .write_operation_name(from.ctx, kind, &mut name)?;
    to.write_operation_name(kind, name.as_slice())
}

// The piece that a type is.
fn type_piece<D: Dialects, S: Spelling<D>>(
    from: &Source<'_, D, S>,
    to: &mut TreeWriter,
    ty: TypeHandle,
) -> Result<TypePiece, DescribeErr>
    requires { ty.place < length (types_of from.now.ctx.now) }
{
    if let Some(piece) = to.type_piece(ty.index()) {
        return Ok(piece);
    }
    let mut text = Vec::new(from.ctx.alloc());
    from.spelling.write_type(from.ctx, ty, &mut text)?;
    to.write_type(ty.index(), text.as_slice())
}

/// Puts the name of operations of a kind.
pub(crate) fn write_name<D: Dialects, S: Spelling<D>>(
    from: &Source<'_, D, S>,
    to: &mut TreeWriter,
    kind: u32,
) -> Result<(), DescribeErr> {
    let piece = name_piece(from, to, kind)?;
    to.description.put(Part::Name, piece)
}

/// Puts a known type as this part.
pub(crate) fn write_type<D: Dialects, S: Spelling<D>>(
    from: &Source<'_, D, S>,
    to: &mut TreeWriter,
    ty: TypeHandle,
    part: Part,
) -> Result<(), DescribeErr>
    requires { ty.place < length (types_of from.now.ctx.now) }
{
    let piece = type_piece(from, to, ty)?;
    to.description.put(part, piece.span)
}

/// Puts the known type of the only result of an operation.
pub(crate) fn write_only_result_type<D: Dialects, S: Spelling<D>>(
    from: &Source<'_, D, S>,
    to: &mut TreeWriter,
    ty: TypeHandle,
) -> Result<(), DescribeErr>
    requires { ty.place < length (types_of from.now.ctx.now) }
{
    let piece = type_piece(from, to, ty)?;
    to.put_only_result_type(piece)
}

// Puts what was written from there on as this part.
fn put_from(to: &mut TreeWriter, start: usize, part: Part) -> Result<(), DescribeErr>
    requires { start ≤ length to.old.description.text.items }
{
    let piece = to.description.piece_from(start)?;
    to.description.put(part, piece)
}

/// Puts the properties of an operation, if it has any.
pub(crate) fn write_properties<D: Dialects, S: Spelling<D>>(
    from: &Source<'_, D, S>,
    to: &mut TreeWriter,
    op: &Operation<D>,
) -> Result<(), DescribeErr> {
    let start = to.description.text.len();
    let has_any = from
        .spelling
        .write_properties(from.ctx, op.attributes(), &mut to.description.text)?;
    if has_any {
        put_from(to, start, Part::Properties)
    } else {
        Ok(())
    }
}

/// Puts a location, if it is known.
pub(crate) fn write_location<D: Dialects, S: Spelling<D>>(
    from: &Source<'_, D, S>,
    to: &mut TreeWriter,
    loc: &D::Loc,
    of: Located,
    part: Part,
) -> Result<(), DescribeErr> {
    let start = to.description.text.len();
    let is_known = from
        .spelling
        .write_location(from.ctx, loc, of, &mut to.description.text)?;
    if is_known {
        put_from(to, start, part)
    } else {
        Ok(())
    }
}

// Puts an attribute of this form, whose value was written from there on.
fn put_attribute_from(
    to: &mut TreeWriter,
    start: usize,
    key: &[u8],
    form: AttributeForm,
) -> Result<(), DescribeErr>
    requires { start ≤ length to.old.description.text.items }
{
    let value = to.description.piece_from(start)?;
    match form {
        AttributeForm::Property => Ok(()),
        AttributeForm::Unit => to.put_key(key),
        AttributeForm::Valued => {
            to.put_key(key)?;
            to.description.put(Part::Value, value)
        }
    }
}

/// Puts an attribute, with the room that its key takes while it is written.
pub(crate) fn write_attribute<D: Dialects, S: Spelling<D>>(
    from: &Source<'_, D, S>,
    to: &mut TreeWriter,
    name: &Identifier,
    attr: &D::Attr,
    key: &mut Vec<u8>,
) -> Result<(), DescribeErr> {
    key.clear();
    let start = to.description.text.len();
    let form = from
        .spelling
        .write_attribute(from.ctx, name, attr, key, &mut to.description.text)?;
    put_attribute_from(to, start, key.as_slice(), form)
}
