//! What verification finds at each root of the forest over the small dialect in which each sort of check is run somewhere.

use crate::types::small_handles::typed_at;
use crate::types::verify_words::{op_with_kind_found, type_by_call_found};
use ir_base_dialects::TypeHandle;
use ir_checked::{
    basic_block, operation, region, type_interface_handle, typed_handle, types, value, verify,
};
use ir_verify::verify::{Verifiers, VerifyErr};
use ir_view_parts::{Context, Value};
use testkit_lab::{
    ListedType, MarkedForest, MarkedTypes, SizedInterface, Small, argument_of, result_of,
};

/// What is verified of the forest that `make_marked` makes.
#[derive(Clone, Copy, Drop)]
pub(crate) enum JudgedRoot {
    /// The module, by its handle.
    Module,
    /// The module, by `verify_operation`.
    ModuleByCall,
    /// The module with its kind, by `verify_op`.
    ModuleWithKind,
    /// Its region.
    Region,
    /// The block.
    Block,
    /// The operation in the block.
    Inner,
    /// The operation that stands alone.
    Alone,
    /// The result of the listed type.
    ListedResult,
    /// The result of the sized type.
    SizedResult,
    /// The argument.
    Argument,
    /// The listed type, by its handle.
    Listed,
    /// The sized type, by its handle.
    Sized,
    /// The bare type, by its handle.
    Bare,
    /// The listed type, by `verify_type`.
    ListedByCall,
    /// The sized type, by `verify_type`.
    SizedByCall,
    /// The listed type, by a handle that says of what kind it is.
    ListedTyped,
    /// The sized type, by a handle that says that it implements the dialect's own interface.
    SizedInterface,
}

// What is found at the listed type, by a handle that says of what kind it is.
fn listed_found<V: Verifiers<Small>>(
    ctx: &Context<Small>,
    ty: TypeHandle,
    verifiers: &V,
) -> Option<Result<(), VerifyErr>> {
    let listed = typed_at::<ListedType>(ctx, ty)?;
    typed_handle::verify(listed, ctx, verifiers).ok()
}

// What is found at the sized type, by a handle that says that it implements the dialect's own interface.
fn sized_found<V: Verifiers<Small>>(
    ctx: &Context<Small>,
    ty: TypeHandle,
    verifiers: &V,
) -> Option<Result<(), VerifyErr>> {
    let sized = type_interface_handle::from_handle::<Small, SizedInterface>(ty, ctx);
    type_interface_handle::verify(sized.ok()?.ok()?, ctx, verifiers).ok()
}

// What is found at the value, where there is one.
fn value_found<V: Verifiers<Small>>(
    ctx: &Context<Small>,
    value: Option<Value<Small>>,
    verifiers: &V,
) -> Option<Result<(), VerifyErr>> {
    value::verify(value?, ctx, verifiers).ok()
}

/// What is found at the root; none where it isn't there.
pub(crate) fn judged_found<V: Verifiers<Small>>(
    ctx: &Context<Small>,
    forest: &MarkedForest,
    root: JudgedRoot,
    verifiers: &V,
) -> Option<Result<(), VerifyErr>> {
    match root {
        JudgedRoot::Module => operation::verify(forest.module, ctx, verifiers).ok(),
        JudgedRoot::ModuleByCall => verify::verify_operation(forest.module, ctx, verifiers).ok(),
        JudgedRoot::ModuleWithKind => op_with_kind_found(ctx, forest.module, verifiers),
        JudgedRoot::Region => region::verify(forest.region, ctx, verifiers).ok(),
        JudgedRoot::Block => basic_block::verify(forest.block, ctx, verifiers).ok(),
        JudgedRoot::Inner => operation::verify(forest.inner, ctx, verifiers).ok(),
        JudgedRoot::Alone => operation::verify(forest.alone, ctx, verifiers).ok(),
        _ => judged_value(ctx, forest, root, verifiers),
    }
}

// What is found at the root, where it is a value or a type.
fn judged_value<V: Verifiers<Small>>(
    ctx: &Context<Small>,
    forest: &MarkedForest,
    root: JudgedRoot,
    verifiers: &V,
) -> Option<Result<(), VerifyErr>> {
    match root {
        JudgedRoot::ListedResult => value_found(ctx, result_of(ctx, forest.inner, 0), verifiers),
        JudgedRoot::SizedResult => value_found(ctx, result_of(ctx, forest.inner, 1), verifiers),
        JudgedRoot::Argument => value_found(ctx, argument_of(ctx, forest.block), verifiers),
        _ => judged_type(ctx, &forest.types, root, verifiers),
    }
}

// What is found at the root, where it is a type, and else none.
fn judged_type<V: Verifiers<Small>>(
    ctx: &Context<Small>,
    marked: &MarkedTypes,
    root: JudgedRoot,
    verifiers: &V,
) -> Option<Result<(), VerifyErr>> {
    match root {
        JudgedRoot::Listed => types::verify(marked.listed, ctx, verifiers).ok(),
        JudgedRoot::Sized => types::verify(marked.sized, ctx, verifiers).ok(),
        JudgedRoot::Bare => types::verify(marked.bare, ctx, verifiers).ok(),
        JudgedRoot::ListedByCall => type_by_call_found(ctx, marked.listed, verifiers),
        JudgedRoot::SizedByCall => type_by_call_found(ctx, marked.sized, verifiers),
        JudgedRoot::ListedTyped => listed_found(ctx, marked.listed, verifiers),
        JudgedRoot::SizedInterface => sized_found(ctx, marked.sized, verifiers),
        _ => None,
    }
}
