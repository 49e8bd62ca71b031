//! The parts of an operation and of a block's head, as rows.

ghost use Rattle.std.specs.Prelude.{◌<◌, length};
ghost use Rattle.ir_model.specs.Forest.{a_block, an_op};
ghost use Rattle.ir_model.specs.Nesting.{IsLive};
ghost use Rattle.ir_core_queries.specs.State.{forest_of, types_of};

use crate::draft::Draft;
use crate::spelling::{Located, Spelling};
use crate::writing::{
    Source, write_attribute, write_location, write_name, write_only_result_type, write_properties,
    write_type,
};
use ir_base_dialects::{Dialects, Ptr, TypeHandle};
use ir_core_queries::{
    BasicBlock, BlockPlace, BlockPtr, BlockUses, Operation, OperationPtr, ValueQueries,
};
use ir_text_pieces::Part;
use ir_view_parts::{BlockParts, OperationParts};

// Puts the name of operations of a kind.
fn put_name<D: Dialects, S: Spelling<D>>(from: &Source<'_, D, S>, draft: &mut Draft, kind: u32) {
    if !draft.is_refused() {
        let outcome = write_name(from, &mut draft.writer, kind);
        draft.keep(outcome);
    }
}

// Puts the properties of an operation, if it has any.
fn put_properties<D: Dialects, S: Spelling<D>>(
    from: &Source<'_, D, S>,
    draft: &mut Draft,
    op: &Operation<D>,
) {
    if !draft.is_refused() {
        let outcome = write_properties(from, &mut draft.writer, op);
        draft.keep(outcome);
    }
}

/// Puts an operation up to its regions.
pub(crate) fn put_head<D: Dialects, S: Spelling<D>>(
    from: &Source<'_, D, S>,
    draft: &mut Draft,
    op: Ptr<Operation<D>>,
)
    requires { IsLive (forest_of from.now.ctx.now) (an_op op.index) }
{
    let op = op.deref(from.ctx);
    let count = op.get_num_results();
    if count > 0 {
        draft.put_results(op.get_result(0).index.number, count);
    }
    put_name(from, draft, op.kind());
    for value in op.operands() {
        draft.put_operand(value.index.number);
    }
    for block in op.successors() {
        draft.put_successor(block.index().slot);
    }
    put_properties(from, draft, op);
}

// Puts the attributes of an operation.
fn put_attributes<D: Dialects, S: Spelling<D>>(
    from: &Source<'_, D, S>,
    draft: &mut Draft,
    op: &Operation<D>,
) {
    let mut key = Vec::new(from.ctx.alloc());
    for (name, attr) in op.attributes().iter() {
        if !draft.is_refused() {
            let outcome = write_attribute(from, &mut draft.writer, name, attr, &mut key);
            draft.keep(outcome);
        }
    }
}

// Puts a known type as this part.
fn put_type<D: Dialects, S: Spelling<D>>(
    from: &Source<'_, D, S>,
    draft: &mut Draft,
    ty: TypeHandle,
    part: Part,
)
    requires { ty.place < length (types_of from.now.ctx.now) }
{
    if !draft.is_refused() {
        let outcome = write_type(from, &mut draft.writer, ty, part);
        draft.keep(outcome);
    }
}

// Puts the known type of the only result of an operation.
fn put_only_result_type<D: Dialects, S: Spelling<D>>(
    from: &Source<'_, D, S>,
    draft: &mut Draft,
    ty: TypeHandle,
)
    requires { ty.place < length (types_of from.now.ctx.now) }
{
    if !draft.is_refused() {
        let outcome = write_only_result_type(from, &mut draft.writer, ty);
        draft.keep(outcome);
    }
}

// Puts the types of the results of an operation.
fn put_result_types<D: Dialects, S: Spelling<D>>(
    from: &Source<'_, D, S>,
    draft: &mut Draft,
    op: Ptr<Operation<D>>,
)
    requires { IsLive (forest_of from.now.ctx.now) (an_op op.index) }
{
    let op = op.deref(from.ctx);
    if op.get_num_results() == 1 {
        put_only_result_type(from, draft, op.get_type(0));
    } else {
        for ty in op.result_types() {
            put_type(from, draft, ty, Part::ResultType);
        }
    }
}

// Puts a location, if it is known.
fn put_location<D: Dialects, S: Spelling<D>>(
    from: &Source<'_, D, S>,
    draft: &mut Draft,
    loc: &D::Loc,
    of: Located,
    part: Part,
) {
    if !draft.is_refused() {
        let outcome = write_location(from, &mut draft.writer, loc, of, part);
        draft.keep(outcome);
    }
}

/// Puts an operation from behind its regions on, with its location if that is wanted.
pub(crate) fn put_tail<D: Dialects, S: Spelling<D>>(
    from: &Source<'_, D, S>,
    draft: &mut Draft,
    op: Ptr<Operation<D>>,
)
    requires { IsLive (forest_of from.now.ctx.now) (an_op op.index) }
{
    let record = op.deref(from.ctx);
    put_attributes(from, draft, record);
    for ty in record.operand_types(from.ctx) {
        put_type(from, draft, ty, Part::OperandType);
    }
    put_result_types(from, draft, op);
    if from.located {
        put_location(
            from,
            draft,
            record.loc(),
            Located::Operation,
            Part::Location,
        );
    }
}

// Whether a block has a head: each but the first of its region; and that where it has arguments, is empty or is named.
fn has_head<D: Dialects, S: Spelling<D>>(from: &Source<'_, D, S>, block: Ptr<BasicBlock<D>>) -> bool
    requires { IsLive (forest_of from.now.ctx.now) (a_block block.index) }
{
    if block.get_prev(from.ctx).is_some() || block.get_head(from.ctx).is_none() {
        return true;
    }
    block.deref(from.ctx).get_num_arguments() > 0 || block.has_pred(from.ctx)
}

// Puts the arguments of a block, with their locations if these are wanted.
fn put_arguments<D: Dialects, S: Spelling<D>>(
    from: &Source<'_, D, S>,
    draft: &mut Draft,
    block: Ptr<BasicBlock<D>>,
)
    requires { IsLive (forest_of from.now.ctx.now) (a_block block.index) }
{
    let record = block.deref(from.ctx);
    let mut index = 0usize;
    for value in record.arguments() {
        draft.put_argument(value.index.number);
        put_type(from, draft, value.get_type(from.ctx), Part::ArgumentType);
        if from.located {
            let of = Located::Argument(index);
            put_location(from, draft, record.loc(), of, Part::ArgumentLocation);
        }
        index = index.saturating_add(1);
    }
}

/// Puts the head of a block, if it has one, with the locations of its arguments if these are wanted.
pub(crate) fn put_block_head<D: Dialects, S: Spelling<D>>(
    from: &Source<'_, D, S>,
    draft: &mut Draft,
    block: Ptr<BasicBlock<D>>,
)
    requires { IsLive (forest_of from.now.ctx.now) (a_block block.index) }
{
    if has_head(from, block) {
        draft.put_label(block.index().slot);
        put_arguments(from, draft, block);
    }
}
