//! How an edit is carried out on a context and the tables of what was made in it: by the step that is there for it.

ghost use Rattle.ir_model.specs.Sessions.{Step};
ghost use Rattle.ir_model.specs.Soundness.{Sound};
ghost use Rattle.ir_run_sessions.specs.SessionTables.{session_in};
ghost use Rattle.ir_run_sessions.specs.SessionEdits.{edit_of};
ghost use Rattle.ir_core_records.specs.DialectAnswers.{behaviour_of};

use crate::session_tables::Tables;
use crate::steps::{self, OpParts};
use crate::{definition_steps, erase_steps, list_steps, redirect_steps, use_steps};
use ir_base_dialects::{Answer, Dialects};
use ir_core_queries::Context;
use ir_run_edits::Edit;

/// Carries the edit out, and answers how.
pub(crate) fn step<D: Dialects>(
    ctx: &mut Context<D>,
    tables: &mut Tables<D>,
    edit: Edit<D>,
) -> Answer
    requires { Sound (session_in ctx.old tables.old) }
    ensures { Step (behaviour_of D.Dialects D.TypeKey.eq) (session_in ctx.old tables.old) (edit_of edit) result (session_in ctx.new tables.new) }
{
    match edit {
        Edit::NewType(key) => steps::new_type(ctx, tables, key),
        Edit::NewOp {
            kind,
            types,
            operands,
            successors,
            regions,
        } => {
            let parts = OpParts {
                kind,
                types: &types,
                operands: &operands,
                successors: &successors,
                regions,
            };
            steps::new_op(ctx, tables, &parts)
        }
        Edit::NewBlock { label, types } => { steps::new_block(ctx, tables, label, &types) }
        Edit::AddRegion { op } => steps::add_region(ctx, tables, op),
        Edit::PushResult { op, ty } => { definition_steps::push_result(ctx, tables, op, ty) }
        Edit::InsertResult { op, at, ty } => {
            definition_steps::insert_result(ctx, tables, op, at, ty)
        }
        Edit::RemoveResult { op, at } => { definition_steps::remove_result(ctx, tables, op, at) }
        Edit::PushArgument { block, ty } => {
            definition_steps::push_argument(ctx, tables, block, ty)
        }
        Edit::InsertArgument { block, at, ty } => {
            definition_steps::insert_argument(ctx, tables, block, at, ty)
        }
        Edit::RemoveArgument { block, at } => {
            definition_steps::remove_argument(ctx, tables, block, at)
        }
        Edit::PushOperand { op, value } => { use_steps::push_operand(ctx, tables, op, value) }
        Edit::InsertOperand { op, at, value } => {
            use_steps::insert_operand(ctx, tables, op, at, value)
        }
        Edit::RemoveOperand { op, at } => { use_steps::remove_operand(ctx, tables, op, at) }
        Edit::ReplaceOperand { op, at, value } => {
            use_steps::replace_operand(ctx, tables, op, at, value)
        }
        Edit::PushSuccessor { op, block } => { use_steps::push_successor(ctx, tables, op, block) }
        Edit::InsertSuccessor { op, at, block } => {
            use_steps::insert_successor(ctx, tables, op, at, block)
        }
        Edit::RemoveSuccessor { op, at } => { use_steps::remove_successor(ctx, tables, op, at) }
        Edit::ReplaceSuccessor { op, at, block } => {
            use_steps::replace_successor(ctx, tables, op, at, block)
        }
        Edit::ReplaceAllUses { old, new } => {
            redirect_steps::replace_all_uses(ctx, tables, old, new)
        }
        Edit::RetargetAll { old, new } => { redirect_steps::retarget_all(ctx, tables, old, new) }
        Edit::OpFront { op, block } => { list_steps::op_front(ctx, tables, op, block) }
        Edit::OpBack { op, block } => { list_steps::op_back(ctx, tables, op, block) }
        Edit::OpBefore { op, mark } => { list_steps::op_before(ctx, tables, op, mark) }
        Edit::OpAfter { op, mark } => { list_steps::op_after(ctx, tables, op, mark) }
        Edit::UnlinkOp { op } => list_steps::unlink_op(ctx, tables, op),
        Edit::BlockFront { block, region } => {
            list_steps::block_front(ctx, tables, block, region)
        }
        Edit::BlockBack { block, region } => { list_steps::block_back(ctx, tables, block, region) }
        Edit::BlockBefore { block, mark } => { list_steps::block_before(ctx, tables, block, mark) }
        Edit::BlockAfter { block, mark } => { list_steps::block_after(ctx, tables, block, mark) }
        Edit::UnlinkBlock { block } => { list_steps::unlink_block(ctx, tables, block) }
        Edit::AppendOps { donee, donor } => { list_steps::append_ops(ctx, tables, donee, donor) }
        Edit::AppendBlocks { donee, donor } => {
            list_steps::append_blocks(ctx, tables, donee, donor)
        }
        Edit::MoveRegion { region, op } => { list_steps::move_region(ctx, tables, region, op) }
        Edit::DropOpUses { op } => { erase_steps::drop_op_uses(ctx, tables, op) }
        Edit::DropBlockUses { block } => { erase_steps::drop_block_uses(ctx, tables, block) }
        Edit::DropRegionUses { region } => { erase_steps::drop_region_uses(ctx, tables, region) }
        Edit::EraseOp { op } => { erase_steps::erase_op(ctx, tables, op) }
        Edit::EraseBlock { block } => { erase_steps::erase_block(ctx, tables, block) }
        Edit::EraseRegion { op, at } => { erase_steps::erase_region(ctx, tables, op, at) }
    }
}
