//! Which operations are alike: plain ones of one kind, with equal attributes, the same operands and the same types of results.

ghost use Rattle.std.specs.Prelude.{◌≡◌, ◌↔◌, fold, map, IsTrue};
ghost use Rattle.ir_model_passes.specs.Meaning.{IsPlain, named_values, result_types};
ghost use Rattle.ir_model_passes.specs.Merging.{Alike};
ghost use Rattle.ir_base_dialects.specs.Attributes.{dict_input, same_pairs};
ghost use Rattle.ir_core_queries.specs.State.{forest_of};
ghost use Rattle.ir_core_records.specs.DialectAnswers.{behaviour_of};
ghost use Rattle.ir_core_records.specs.Meaning.{op_record, value_of};
ghost use Rattle.ir_run_passes.specs.AlikeHash.{alike_hash as alike_hash_of, fed_number};
ghost use Rattle.ir_run_passes.specs.KeptOps.{IsPlainOp};

use ir_base_dialects::interfaces::PURE_OPERATION;
use ir_base_dialects::{Dialects, Ptr, TypeHandle};
use ir_core_queries::{Context, Operation, OperationPtr, ValueIndex};
use std::hash::{FoldHasher, Hash, Hasher};

/// Whether the operation is plain: its kind is pure, and it has neither regions nor successors.
pub(crate) fn is_plain<D: Dialects>(operation: &Operation<D>) -> bool
    ensures { IsTrue result ↔ IsPlain (behaviour_of D.Dialects D.TypeKey.eq) (op_record operation.now) }
{
    if operation.num_regions() != 0 {
        return false;
    }
    if operation.get_num_successors() != 0 {
        return false;
    }
    D::op_impls(operation.kind(), PURE_OPERATION)
}

// Feeds the numbers of the values that the operation names, in order.
fn hash_operands<D: Dialects>(state: &mut FoldHasher, operation: &Operation<D>)
    ensures { state.new ≡ fold fed_number state.old (map (λ v. v.number) (named_values (op_record operation.now))) }
{
    for index in 0..operation.get_num_operands() {
        state.write_u64(operation.get_operand(index).index.number);
    }
}

// Feeds the types of the operation's results, in order.
fn hash_types<D: Dialects>(state: &mut FoldHasher, operation: &Operation<D>)
    ensures { state.new ≡ fold fed_number state.old (result_types (op_record operation.now)) }
{
    for index in 0..operation.get_num_results() {
        state.write_usize(operation.get_type(index).place);
    }
}

/// A hash of all in which alike operations agree.
pub(crate) fn alike_hash<D: Dialects>(operation: &Operation<D>) -> u64
    ensures { result ≡ alike_hash_of (dict_input D.Attr.hash_input) (op_record operation.now) }
{
    let mut state = FoldHasher::default();
    state.write_u32(operation.kind());
    hash_operands(&mut state, operation);
    hash_types(&mut state, operation);
    operation.attributes().hash(&mut state);
    state.finish()
}

// Whether both values are one.
fn is_same_value(one: ValueIndex, other: ValueIndex) -> bool
    ensures { IsTrue result ↔ (value_of one ≡ value_of other) }
{
    one == other
}

// Whether both types are one.
fn is_same_type(one: TypeHandle, other: TypeHandle) -> bool
    ensures { IsTrue result ↔ (one.place ≡ other.place) }
{
    one == other
}

// Whether both operations name the same values, place by place.
fn same_operands<D: Dialects>(one: &Operation<D>, other: &Operation<D>) -> bool
    ensures { IsTrue result ↔ (named_values (op_record one.now) ≡ named_values (op_record other.now)) }
{
    let count = one.get_num_operands();
    if count != other.get_num_operands() {
        return false;
    }
    for index in 0..count {
        if !is_same_value(one.get_operand(index).index, other.get_operand(index).index) {
            return false;
        }
    }
    true
}

// Whether the results of both operations have the same types, place by place.
fn same_types<D: Dialects>(one: &Operation<D>, other: &Operation<D>) -> bool
    ensures { IsTrue result ↔ (result_types (op_record one.now) ≡ result_types (op_record other.now)) }
{
    let count = one.get_num_results();
    if count != other.get_num_results() {
        return false;
    }
    for index in 0..count {
        if !is_same_type(one.get_type(index), other.get_type(index)) {
            return false;
        }
    }
    true
}

/// Whether two plain operations are alike.
pub(crate) fn are_alike<D: Dialects>(
    ctx: &Context<D>,
    one: Ptr<Operation<D>>,
    other: Ptr<Operation<D>>,
) -> bool
    requires one { IsPlainOp (behaviour_of D.Dialects D.TypeKey.eq) (forest_of ctx.now) one.index }
    requires other { IsPlainOp (behaviour_of D.Dialects D.TypeKey.eq) (forest_of ctx.now) other.index }
    ensures { IsTrue result ↔ Alike (behaviour_of D.Dialects D.TypeKey.eq) (same_pairs D.Attr.eq) (forest_of ctx.now) one.index other.index }
{
    let one = one.deref(ctx);
    let other = other.deref(ctx);
    if one.kind() != other.kind() {
        return false;
    }
    if !same_operands(one, other) {
        return false;
    }
    if !same_types(one, other) {
        return false;
    }
    *one.attributes() == *other.attributes()
}
