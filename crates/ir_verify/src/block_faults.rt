//! The faults of one block, whatever stands in it.

ghost use Rattle.std.specs.Prelude.{◌≡◌, ◌↔◌, IsTrue, IfOk, IfErr};
ghost use Rattle.ir_model.specs.Faults.{IsEntry, IsNamed, IsNamedAside, LacksTerminator};
ghost use Rattle.ir_model.specs.Forest.{a_block, an_op, the_block};
ghost use Rattle.ir_model.specs.Names.{IsBlockName};
ghost use Rattle.ir_model.specs.Nesting.{In, IsLive, names_of};
ghost use Rattle.ir_view_parts.specs.State.{forest_of, types_of};
ghost use Rattle.ir_verify.specs.Parts.{FaultAtBlock, IsAside, Tells};
ghost use Rattle.ir_core_records.specs.DialectAnswers.{behaviour_of};

use crate::error::{BasicBlockVerifyErr, DefUseVerifyErr, VerifyErr};
use ir_base_dialects::interfaces::NO_TERMINATOR;
use ir_base_dialects::{Dialects, Identifier, Ptr};
use ir_core_queries::Named;
use ir_core_records::block_uses;
use ir_view_parts::{
    BasicBlock, BlockIndex, BlockPlace, BlockSuccessors, BlockUses, Context, Operation,
    OperationPlace, OperationPtr, RegionPlace, RegionPtr,
};

// The unique name of a live block.
pub(crate) fn name_of<D: Dialects>(
    block: Ptr<BasicBlock<D>>,
    ctx: &Context<D>,
) -> Result<Identifier, VerifyErr>
    requires { IsLive (forest_of ctx.now) (a_block block.index) }
    ensures name { IfOk result (IsBlockName (forest_of ctx.now) block.index) }
    ensures memory { IfErr result (λ e. e ≡ VerifyErr.OutOfMemory) }
{
    match block.unique_name(ctx) {
        Ok(name) => Ok(name),
        Err(_) => Err(VerifyErr::OutOfMemory),
    }
}

// Whether the parent operation of a live block asks for terminators, and the block has none.
fn lacks_terminator<D: Dialects>(block: Ptr<BasicBlock<D>>, ctx: &Context<D>) -> bool
    requires { IsLive (forest_of ctx.now) (a_block block.index) }
    ensures { IsTrue result ↔ LacksTerminator (behaviour_of D.Dialects D.TypeKey.eq) (forest_of ctx.now) (types_of ctx.now) block.index }
{
    ctx.recall_well_formed();
    let Some(region) = block.get_parent_region(ctx) else {
        return false;
    };
    let parent = region.get_parent_op(ctx);
    match block.get_terminator(ctx) {
        Some(_) => false,
        None => !D::op_impls(parent.deref(ctx).kind(), NO_TERMINATOR),
    }
}

// Whether a live block is the first of a region.
fn is_entry<D: Dialects>(block: Ptr<BasicBlock<D>>, ctx: &Context<D>) -> bool
    requires { IsLive (forest_of ctx.now) (a_block block.index) }
    ensures { IsTrue result ↔ IsEntry (behaviour_of D.Dialects D.TypeKey.eq) (forest_of ctx.now) (types_of ctx.now) block.index }
{
    ctx.recall_well_formed();
    let Some(region) = block.get_parent_region(ctx) else {
        return false;
    };
    match region.get_head(ctx) {
        Some(first) => first == block,
        None => false,
    }
}

// Whether a live block is the first of a region, and an operation names it, inside the region or not.
fn is_entered<D: Dialects>(block: Ptr<BasicBlock<D>>, ctx: &Context<D>) -> bool
    requires { IsLive (forest_of ctx.now) (a_block block.index) }
    ensures { IsTrue result ↔ (IsEntry (behaviour_of D.Dialects D.TypeKey.eq) (forest_of ctx.now) (types_of ctx.now) block.index × IsNamed (behaviour_of D.Dialects D.TypeKey.eq) (forest_of ctx.now) (types_of ctx.now) block.index) }
{
    is_entry(block, ctx) && block.has_pred(ctx)
}

// Whether a live operation that names a block is unlinked, or the terminator of its block doesn't name it. Where the operation is that terminator, its successors aren't searched.
fn is_aside<D: Dialects>(op: Ptr<Operation<D>>, block: Ptr<BasicBlock<D>>, ctx: &Context<D>) -> bool
    requires live { IsLive (forest_of ctx.now) (an_op op.index) }
    requires names { In (the_block block.index) (names_of (forest_of ctx.now) op.index) }
    ensures { IsTrue result ↔ IsAside (behaviour_of D.Dialects D.TypeKey.eq) (forest_of ctx.now) (types_of ctx.now) op.index block.index }
{
    ctx.recall_well_formed();
    let Some(parent) = op.get_parent_block(ctx) else {
        return true;
    };
    match parent.get_terminator(ctx) {
        Some(terminator) => {
            if terminator == op {
                return false;
            }
            !parent.is_succ(ctx, block)
        }
        None => true,
    }
}

// Whether some operation names a live block, and is unlinked or isn't followed by the terminator of its block.
fn is_named_aside<D: Dialects>(block: Ptr<BasicBlock<D>>, ctx: &Context<D>) -> bool
    requires { IsLive (forest_of ctx.now) (a_block block.index) }
    ensures { IsTrue result ↔ IsNamedAside (behaviour_of D.Dialects D.TypeKey.eq) (forest_of ctx.now) (types_of ctx.now) block.index }
{
    ctx.recall_well_formed();
    ctx.recall_uses_exact();
    let uses = block_uses(ctx.records(), BlockIndex { index: block.index });
    for index in uses.as_slice() {
        if is_aside(Ptr::from_index(index.user()), block, ctx) {
            return true;
        }
    }
    false
}

// The faults of a live block itself.
pub(crate) fn verify_block<D: Dialects>(
    block: Ptr<BasicBlock<D>>,
    ctx: &Context<D>,
) -> Result<(), VerifyErr>
    requires { IsLive (forest_of ctx.now) (a_block block.index) }
    ensures { Tells (FaultAtBlock (behaviour_of D.Dialects D.TypeKey.eq) (forest_of ctx.now) (types_of ctx.now) block.index) result }
{
    if !block.is_linked(ctx) {
        let name = name_of(block, ctx)?;
        return Err(VerifyErr::BasicBlockVerifyErr(BasicBlockVerifyErr::NoParent(name)));
    }
    if lacks_terminator(block, ctx) {
        let name = name_of(block, ctx)?;
        return Err(VerifyErr::BasicBlockVerifyErr(BasicBlockVerifyErr::MissingTerminator(name)));
    }
    if is_entered(block, ctx) {
        let name = name_of(block, ctx)?;
        return Err(VerifyErr::BasicBlockVerifyErr(BasicBlockVerifyErr::EntryHasPred(name)));
    }
    if is_named_aside(block, ctx) {
        return Err(VerifyErr::DefUseVerifyErr(DefUseVerifyErr::OperandNotUseOfDef));
    }
    Ok(())
}
