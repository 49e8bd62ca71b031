//! A forest over the small dialect in which each sort of check is run somewhere: with types of each kind, and with attributes. Each function here tests the condition of its call.

use crate::small_attributes::{MarkedAttr, PlainAttr};
use crate::small_dialect::{Small, SmallType};
use crate::small_error::LabErr;
use crate::small_types::{ListedType, SizedType};
use ir_base_dialects::attribute::Attribute;
use ir_base_dialects::{CoreError, Identifier, Ptr, TypeHandle};
use ir_view_parts::{
    BasicBlock, BlockList, BlockPlace, BlockPtr, BlockPtrMut, Context, Entity, NewBlock,
    NewOperation, Operation, OperationList, OperationPlace, OperationPtr, OperationPtrMut, Region,
    RegionPtr, ResultEdits, TypeQueries, Value, is_inside,
};

/// The types of the forest.
#[derive(Clone, Copy, Drop)]
pub struct MarkedTypes {
    /// The listed type 1.
    pub listed: TypeHandle,
    /// The sized type 2.
    pub sized: TypeHandle,
    /// The bare type 3.
    pub bare: TypeHandle,
}

/// The forest: a module, marked with 1, whose region holds a block, plain with 2, which has an argument of the bare type 3 and an operation with results of the listed type 1 and of the sized type 2; and an operation that stands alone, marked with 3.
#[derive(Clone, Copy, Drop)]
pub struct MarkedForest {
    /// The module, of kind 5.
    pub module: Ptr<Operation<Small>>,
    /// Its region.
    pub region: Ptr<Region>,
    /// The block.
    pub block: Ptr<BasicBlock<Small>>,
    /// The operation in the block, of kind 4.
    pub inner: Ptr<Operation<Small>>,
    /// The operation that stands alone, of kind 4.
    pub alone: Ptr<Operation<Small>>,
    /// The types.
    pub types: MarkedTypes,
}

// Makes the types.
fn make_types(ctx: &mut Context<Small>) -> Result<MarkedTypes, CoreError> {
    let listed = ctx.instantiate_key(SmallType::Listed(ListedType { number: 1 }))?;
    let sized = ctx.instantiate_key(SmallType::Sized(SizedType { number: 2 }))?;
    let bare = ctx.instantiate_key(SmallType::Bare(3))?;
    Ok(MarkedTypes {
        listed,
        sized,
        bare,
    })
}

// A new operation of the kind with so many regions.
fn new_op(
    ctx: &mut Context<Small>,
    kind: u32,
    regions: usize,
) -> Result<Ptr<Operation<Small>>, LabErr> {
    Ok(Operation::new(ctx, kind, &[], &[], &[], regions)?)
}

// A new block with an argument of the type.
fn new_block(ctx: &mut Context<Small>, ty: TypeHandle) -> Result<Ptr<BasicBlock<Small>>, LabErr> {
    if !ty.is_known(ctx) {
        return Err(LabErr::NoRoot);
    }
    Ok(BasicBlock::new(ctx, None, &[ty])?)
}

// Gives the operation another result, of the type.
fn push_result(
    ctx: &mut Context<Small>,
    op: Ptr<Operation<Small>>,
    ty: TypeHandle,
) -> Result<(), LabErr> {
    if !op.is_live(ctx) || !ty.is_known(ctx) {
        return Err(LabErr::NoRoot);
    }
    op.push_result(ctx, ty)?;
    Ok(())
}

// The first region of the operation.
fn first_region(ctx: &Context<Small>, op: Ptr<Operation<Small>>) -> Result<Ptr<Region>, LabErr> {
    let Ok(record) = op.try_deref(ctx) else {
        return Err(LabErr::NoRoot);
    };
    if record.num_regions() == 0 {
        return Err(LabErr::NoRoot);
    }
    Ok(record.get_region(0))
}

// Puts the block at the back of the region.
fn put_block(
    ctx: &mut Context<Small>,
    block: Ptr<BasicBlock<Small>>,
    region: Ptr<Region>,
) -> Result<(), LabErr> {
    if !block.is_live(ctx) || !region.is_live(ctx) {
        return Err(LabErr::NoRoot);
    }
    if block.is_linked(ctx) || is_inside(ctx, Entity::Region(region), Entity::Block(block)) {
        return Err(LabErr::Refused);
    }
    block.insert_at_back(region, ctx);
    Ok(())
}

// Puts the operation at the back of the block.
fn put_op(
    ctx: &mut Context<Small>,
    op: Ptr<Operation<Small>>,
    block: Ptr<BasicBlock<Small>>,
) -> Result<(), LabErr> {
    if !op.is_live(ctx) || !block.is_live(ctx) {
        return Err(LabErr::NoRoot);
    }
    if op.is_linked(ctx) || is_inside(ctx, Entity::Block(block), Entity::Op(op)) {
        return Err(LabErr::Refused);
    }
    op.insert_at_back(block, ctx);
    Ok(())
}

// Gives the operation an attribute.
fn mark_op<T: Attribute<Small> + Drop>(
    ctx: &mut Context<Small>,
    op: Ptr<Operation<Small>>,
    value: T,
) -> Result<(), LabErr> {
    if !op.is_live(ctx) {
        return Err(LabErr::NoRoot);
    }
    let record = Ptr::<Operation<Small>>::deref_mut(ctx, op);
    record.attributes.set(Identifier::new("a"), value)?;
    Ok(())
}

// Gives the block an attribute.
fn mark_block<T: Attribute<Small> + Drop>(
    ctx: &mut Context<Small>,
    block: Ptr<BasicBlock<Small>>,
    value: T,
) -> Result<(), LabErr> {
    if !block.is_live(ctx) {
        return Err(LabErr::NoRoot);
    }
    let record = Ptr::<BasicBlock<Small>>::deref_mut(ctx, block);
    record.attributes.set(Identifier::new("b"), value)?;
    Ok(())
}

// A new operation with results of the types, at the back of the block.
fn add_inner(
    ctx: &mut Context<Small>,
    block: Ptr<BasicBlock<Small>>,
    types: MarkedTypes,
) -> Result<Ptr<Operation<Small>>, LabErr> {
    let inner = new_op(ctx, 4, 0)?;
    push_result(ctx, inner, types.listed)?;
    push_result(ctx, inner, types.sized)?;
    put_op(ctx, inner, block)?;
    Ok(inner)
}

// A new block with an argument of the type, at the back of the region.
fn add_block(
    ctx: &mut Context<Small>,
    region: Ptr<Region>,
    ty: TypeHandle,
) -> Result<Ptr<BasicBlock<Small>>, LabErr> {
    let block = new_block(ctx, ty)?;
    put_block(ctx, block, region)?;
    Ok(block)
}

// Makes the forest without attributes.
fn make_plain(ctx: &mut Context<Small>) -> Result<MarkedForest, LabErr> {
    let types = make_types(ctx)?;
    let module = new_op(ctx, 5, 1)?;
    let region = first_region(ctx, module)?;
    let block = add_block(ctx, region, types.bare)?;
    let inner = add_inner(ctx, block, types)?;
    let alone = new_op(ctx, 4, 0)?;
    Ok(MarkedForest {
        module,
        region,
        block,
        inner,
        alone,
        types,
    })
}

/// Makes the forest.
///
/// # Errors
/// Where the core lacks something.
pub fn make_marked(ctx: &mut Context<Small>) -> Result<MarkedForest, LabErr> {
    let forest = make_plain(ctx)?;
    mark_op(ctx, forest.module, MarkedAttr { number: 1 })?;
    mark_block(ctx, forest.block, PlainAttr { number: 2 })?;
    mark_op(ctx, forest.alone, MarkedAttr { number: 3 })?;
    Ok(forest)
}

/// The result of the operation at the index, where there is one.
pub fn result_of(
    ctx: &Context<Small>,
    op: Ptr<Operation<Small>>,
    index: usize,
) -> Option<Value<Small>> {
    let Ok(record) = op.try_deref(ctx) else {
        return None;
    };
    if index < record.get_num_results() {
        Some(record.get_result(index))
    } else {
        None
    }
}

/// The first argument of the block, where there is one.
pub fn argument_of(ctx: &Context<Small>, block: Ptr<BasicBlock<Small>>) -> Option<Value<Small>> {
    let Ok(record) = block.try_deref(ctx) else {
        return None;
    };
    if record.get_num_arguments() == 0 {
        None
    } else {
        Some(record.get_argument(0))
    }
}
