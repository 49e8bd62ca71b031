//! The checks that are handed in, run on operations, attributes and types.

ghost use Rattle.std.specs.Prelude.{◌<◌, length, map};
ghost use Rattle.ir_model.specs.Faults.{the_attribute, the_type, the_typed};
ghost use Rattle.ir_model.specs.Forest.{an_op};
ghost use Rattle.ir_model.specs.Nesting.{In, IsLive};
ghost use Rattle.ir_core_records.specs.declared.record.Definition.{Definition as PlainDefinition};
ghost use Rattle.ir_core_records.specs.Meaning.{definition_of};
ghost use Rattle.ir_view_parts.specs.State.{forest_of, types_of};
ghost use Rattle.ir_verify.specs.Verified.{ChecksOnAttributes, ChecksOnOp, ChecksOnTypes, FindsIn};

use crate::error::VerifyErr;
use crate::verifiers::Verifiers;
use ir_base_dialects::attribute::AttributeDict;
use ir_base_dialects::{Dialects, Ptr, TypeHandle};
use ir_core_records::Definition;
use ir_view_parts::{Context, Operation, OperationKind, TypeQueries};

// The checks of a type: those of the numbers that are listed for its kind, and its own.
pub(crate) fn check_type<D: Dialects, V: Verifiers<D>>(
    key: &D::TypeKey,
    ctx: &Context<D>,
    verifiers: &V,
) -> Result<(), VerifyErr>
    ensures { FindsIn D.Dialects D.TypeKey.eq D.Saved.eq (V.handed_in verifiers.now) ctx.now (the_type key.now) result }
{
    for number in verifiers.type_verifiers(D::type_kind(key)) {
        verifiers.check_type_interface(*number, key, ctx)?;
    }
    Ok(verifiers.check_type(key, ctx)?)
}

// The own check of a type, which is all that is run for the handle of a type of one kind.
pub(crate) fn check_own_type<D: Dialects, V: Verifiers<D>>(
    key: &D::TypeKey,
    ctx: &Context<D>,
    verifiers: &V,
) -> Result<(), VerifyErr>
    ensures { FindsIn D.Dialects D.TypeKey.eq D.Saved.eq (V.handed_in verifiers.now) ctx.now (the_typed key.now) result }
{
    Ok(verifiers.check_type(key, ctx)?)
}

// The checks of an attribute: those of the numbers that are listed for its kind, and its own.
pub(crate) fn check_attribute<D: Dialects, V: Verifiers<D>>(
    attr: &D::Attr,
    ctx: &Context<D>,
    verifiers: &V,
) -> Result<(), VerifyErr>
    ensures { FindsIn D.Dialects D.TypeKey.eq D.Saved.eq (V.handed_in verifiers.now) ctx.now (the_attribute attr.now) result }
{
    for number in verifiers.attr_verifiers(D::attr_kind(attr)) {
        verifiers.check_attr_interface(*number, attr, ctx)?;
    }
    Ok(verifiers.check_attr(attr, ctx)?)
}

// The checks of a live operation: those of the numbers that are listed for its kind, and its own.
pub(crate) fn check_operation<D: Dialects, V: Verifiers<D>>(
    op: Ptr<Operation<D>>,
    ctx: &Context<D>,
    verifiers: &V,
) -> Result<(), VerifyErr>
    requires { IsLive (forest_of ctx.now) (an_op op.index) }
    ensures { ChecksOnOp D.Dialects D.TypeKey.eq D.Saved.eq (V.handed_in verifiers.now) ctx.now op.index result }
{
    let object = op.get_op_dyn(ctx);
    for number in verifiers.op_verifiers(object.kind()) {
        verifiers.check_op_interface(*number, &object, ctx)?;
    }
    Ok(verifiers.check_op(&object, ctx)?)
}

// The checks of all attributes of a dictionary.
pub(crate) fn check_attributes<D: Dialects, V: Verifiers<D>>(
    attributes: &AttributeDict<D>,
    ctx: &Context<D>,
    verifiers: &V,
) -> Result<(), VerifyErr>
    ensures { ChecksOnAttributes D.Dialects D.TypeKey.eq D.Saved.eq (V.handed_in verifiers.now) ctx.now attributes.now result }
{
    for (_, attr) in attributes.iter() {
        check_attribute(attr, ctx, verifiers)?;
    }
    Ok(())
}

// The checks of the types of results or arguments, which are known.
pub(crate) fn check_types<D: Dialects, V: Verifiers<D>>(
    definitions: &[Definition],
    ctx: &Context<D>,
    verifiers: &V,
) -> Result<(), VerifyErr>
    requires { (d : PlainDefinition) → In d definitions.now → d.ty < length (types_of ctx.now) }
    ensures { ChecksOnTypes D.Dialects D.TypeKey.eq D.Saved.eq (V.handed_in verifiers.now) ctx.now (map definition_of definitions.now) result }
{
    for definition in definitions {
        check_type(TypeHandle::at(definition.ty).deref(ctx), ctx, verifiers)?;
    }
    Ok(())
}
