//! Verification of all that is inside an entity, in one walk by links.

ghost use Rattle.ir_model.specs.Faults.{the_entity};
ghost use Rattle.ir_model.specs.Forest.{a_block, an_op};
ghost use Rattle.ir_model.specs.Nesting.{IsLive};
ghost use Rattle.ir_core_records.specs.Meaning.{entity_of};
ghost use Rattle.ir_view_parts.specs.State.{forest_of};
ghost use Rattle.ir_verify.specs.Verified.{FindsAlone, FindsIn};

use crate::block_faults::verify_block;
use crate::checks::{check_attributes, check_operation, check_types};
use crate::error::VerifyErr;
use crate::operation_faults::verify_place;
use crate::verifiers::Verifiers;
use ir_base_dialects::{Dialects, Ptr};
use ir_core_erasing::{deepest, next_inside, recall_subtrees_listed};
use ir_core_records::EntityIndex;
use ir_view_parts::{BasicBlock, Context, Operation};

// A live operation alone, without what is inside it.
fn verify_operation_alone<D: Dialects, V: Verifiers<D>>(
    op: Ptr<Operation<D>>,
    ctx: &Context<D>,
    verifiers: &V,
) -> Result<(), VerifyErr>
    requires { IsLive (forest_of ctx.now) (an_op op.index) }
    ensures { FindsAlone D.Dialects D.TypeKey.eq D.Saved.eq (V.handed_in verifiers.now) ctx.now (an_op op.index) result }
{
    ctx.recall_well_formed();
    verify_place(op, ctx)?;
    check_operation(op, ctx, verifiers)?;
    let operation = ctx.records().ops.at(op);
    check_attributes(operation.attributes(), ctx, verifiers)?;
    check_types(operation.results.as_slice(), ctx, verifiers)
}

// A live block alone, without what is inside it.
fn verify_block_alone<D: Dialects, V: Verifiers<D>>(
    block: Ptr<BasicBlock<D>>,
    ctx: &Context<D>,
    verifiers: &V,
) -> Result<(), VerifyErr>
    requires { IsLive (forest_of ctx.now) (a_block block.index) }
    ensures { FindsAlone D.Dialects D.TypeKey.eq D.Saved.eq (V.handed_in verifiers.now) ctx.now (a_block block.index) result }
{
    ctx.recall_well_formed();
    verify_block(block, ctx)?;
    let record = ctx.records().blocks.at(block);
    check_attributes(record.attributes(), ctx, verifiers)?;
    check_types(record.arguments.as_slice(), ctx, verifiers)
}

// A live entity alone, without what is inside it.
fn verify_alone<D: Dialects, V: Verifiers<D>>(
    entity: EntityIndex,
    ctx: &Context<D>,
    verifiers: &V,
) -> Result<(), VerifyErr>
    requires { IsLive (forest_of ctx.now) (entity_of entity) }
    ensures { FindsAlone D.Dialects D.TypeKey.eq D.Saved.eq (V.handed_in verifiers.now) ctx.now (entity_of entity) result }
{
    match entity {
        EntityIndex::Op(op) => {
            let op = Ptr::from_index(op);
            verify_operation_alone(op, ctx, verifiers)
        }
        EntityIndex::Block(block) => {
            let block = Ptr::from_index(block);
            verify_block_alone(block, ctx, verifiers)
        }
        EntityIndex::Region(_) => Ok(()),
    }
}

// A live entity and all that is inside it.
pub(crate) fn verify_inside<D: Dialects, V: Verifiers<D>>(
    root: EntityIndex,
    ctx: &Context<D>,
    verifiers: &V,
) -> Result<(), VerifyErr>
    requires { IsLive (forest_of ctx.now) (entity_of root) }
    ensures { FindsIn D.Dialects D.TypeKey.eq D.Saved.eq (V.handed_in verifiers.now) ctx.now (the_entity (entity_of root)) result }
{
    ctx.recall_well_formed();
    ctx.recall_holds_together();
    recall_subtrees_listed::<D>();
    let records = ctx.records();
    let mut current = Some(deepest(records, root));
    while let Some(here) = current {
        verify_alone(here, ctx, verifiers)?;
        current = next_inside(records, root, here);
    }
    Ok(())
}
