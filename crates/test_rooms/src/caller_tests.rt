//! Calls on what earlier calls gave, none of which is asked first whether it is live.

ghost use Rattle.std.specs.Prelude.{◌≡◌, length};
ghost use Rattle.ir_model.specs.Forest.{a_block, a_region, an_op};
ghost use Rattle.ir_model.specs.Nesting.{IsLive};
ghost use Rattle.ir_view_parts.specs.Calls.{IsOperation, LeadsToLive};
ghost use Rattle.ir_view_parts.specs.State.{forest_of, types_of};

use crate::contexts::expect_same;
use example::chain;
use ir_base_dialects::{CoreError, Dialects, Limits, Ptr};
use ir_checked_core::{basic_block, context, operation, value};
use ir_view_parts::{
    ArenaObj, BasicBlock, BlockPtr, Context, NewOperation, Operation, OperationPtr, Region,
    RegionPtr, ResultUses, TypeQueries, UseQueries, ValueQueries,
};
use std::panic::Expect;
use std::process::Abort;
use toy_dialect::{Toy, ToyType};

// From a live operation to a result, and whether it is used.
fn walk_to_result<D: Dialects>(ctx: &Context<D>, op: &Operation<D>, index: usize)
    requires { LeadsToLive (forest_of ctx.now) (length (types_of ctx.now)) op.now }
{
    if index < op.get_num_results() {
        let _used = op.get_result(index).is_used(ctx);
    }
}

// From a live operation to the type of a result, and its key.
fn walk_to_type<D: Dialects>(ctx: &Context<D>, op: &Operation<D>, index: usize)
    requires { LeadsToLive (forest_of ctx.now) (length (types_of ctx.now)) op.now }
{
    if index < op.get_num_results() {
        let _key = op.get_type(index).deref(ctx);
    }
}

// From a live operation to a region, and back.
fn walk_to_region<D: Dialects>(ctx: &Context<D>, op: &Operation<D>, index: usize)
    requires { LeadsToLive (forest_of ctx.now) (length (types_of ctx.now)) op.now }
{
    if index < op.num_regions() {
        let _op = op.get_region(index).get_parent_op(ctx).deref(ctx);
    }
}

// From a live operation to what an operand names: to the key of its type, and to the operation that defines it.
fn walk_to_named<D: Dialects>(ctx: &Context<D>, op: &Operation<D>, index: usize)
    requires { LeadsToLive (forest_of ctx.now) (length (types_of ctx.now)) op.now }
{
    if index < op.get_num_operands() {
        let value = op.get_operand(index);
        let _key = value.get_type(ctx).deref(ctx);
        if let Some(maker) = value.defining_op() {
            let _kind = maker.deref(ctx).kind();
        }
    }
}

// From a live operation to an operand, and back.
fn walk_to_user<D: Dialects>(ctx: &Context<D>, op: &Operation<D>, index: usize)
    requires { LeadsToLive (forest_of ctx.now) (length (types_of ctx.now)) op.now }
{
    if index < op.get_num_operands() {
        let _kind = op.get_operand_as_use(index).user_op().deref(ctx).kind();
    }
}

// From a live operation to an operand, and to what it names. Answers how often that is used.
fn walk_to_uses<D: Dialects>(ctx: &Context<D>, op: &Operation<D>, index: usize) -> usize
    requires { LeadsToLive (forest_of ctx.now) (length (types_of ctx.now)) op.now }
{
    if index < op.get_num_operands() {
        return op.get_operand_as_use(index).get_def(ctx).num_uses(ctx);
    }
    0
}

// Walks from a live operation to all that it leads to. Answers how often its first operand is used.
fn walk<D: Dialects>(ctx: &Context<D>, op: &Operation<D>) -> usize
    requires { LeadsToLive (forest_of ctx.now) (length (types_of ctx.now)) op.now }
{
    walk_to_result(ctx, op, 0);
    walk_to_type(ctx, op, 0);
    walk_to_region(ctx, op, 0);
    walk_to_region(ctx, op, 1);
    walk_to_named(ctx, op, 0);
    walk_to_user(ctx, op, 0);
    walk_to_uses(ctx, op, 0)
}

// From the handle of a live operation to its record, and back.
fn back_to_op<D: Dialects>(ctx: &Context<D>, op: Ptr<Operation<D>>) -> Ptr<Operation<D>>
    requires { IsLive (forest_of ctx.now) (an_op op.index) }
    ensures { result.index ≡ op.index }
{
    op.deref(ctx).get_self_ptr(ctx)
}

// From the handle of a live block to its record, and back.
fn back_to_block<D: Dialects>(ctx: &Context<D>, block: Ptr<BasicBlock<D>>) -> Ptr<BasicBlock<D>>
    requires { IsLive (forest_of ctx.now) (a_block block.index) }
    ensures { result.index ≡ block.index }
{
    block.deref(ctx).get_self_ptr(ctx)
}

// From the handle of a live region to its record, and back.
fn back_to_region<D: Dialects>(ctx: &Context<D>, region: Ptr<Region>) -> Ptr<Region>
    requires { IsLive (forest_of ctx.now) (a_region region.index) }
    ensures { result.index ≡ region.index }
{
    region.deref(ctx).get_self_ptr(ctx)
}

// A live operation, out of the arena that has it.
fn out_of_arena<D: Dialects>(ctx: &Context<D>, op: Ptr<Operation<D>>) -> &Operation<D>
    requires { IsLive (forest_of ctx.now) (an_op op.index) }
    ensures { IsOperation (forest_of ctx.now) op.index result.now }
{
    Operation::get_arena(ctx).at(op)
}

// Makes a block and an operation with two regions, and goes from each handle to its record and back.
fn make_and_go_back(rt: &impl Abort, ctx: &mut Context<Toy>) {
    let block = basic_block::new(ctx, None, &[]).expect(rt, "the block");
    let op = operation::new(ctx, 5, &[], &[], &[], 2).expect(rt, "the operation");
    let second = operation::get_region(op, ctx, 1).expect(rt, "its second region");
    assert!(rt; op.is_live(ctx) && block.is_live(ctx) && second.is_live(ctx));
    let kind = out_of_arena(ctx, op).kind();
    let back = (
        back_to_op(ctx, op),
        back_to_block(ctx, block),
        back_to_region(ctx, second),
    );
    expect_same(rt, (kind, back), (5, (op, block, second)), "what they are");
}

#[test]
fn records_know_their_handles(rt: HostRuntime) {
    let mut ctx: Context<Toy> = Context::new(rt.alloc());
    make_and_go_back(&rt, &mut ctx);
    context::end(ctx, ());
}

// Makes an operation that uses a value twice, and walks from there.
fn make_and_walk<D: Dialects>(rt: &impl Abort, ctx: &mut Context<D>, key: D::TypeKey) {
    let ty = ctx.instantiate_key(key).expect(rt, "the type");
    let maker = operation::new(ctx, 0, &[ty], &[], &[], 0).expect(rt, "the first");
    let value = operation::get_result(maker, ctx, 0).expect(rt, "its result");
    let user = operation::new(ctx, 5, &[ty], &[value, value], &[], 2).expect(rt, "the second");
    let record = user.try_deref(ctx).expect(rt, "its record");
    expect_same(rt, walk(ctx, record), 2, "how often its operand is used");
}

#[test]
fn what_live_operations_give_is_live(rt: HostRuntime) {
    let mut ctx: Context<Toy> = Context::new(rt.alloc());
    make_and_walk(&rt, &mut ctx, ToyType::Int { width: 32 });
    context::end(ctx, ());
}

// Makes an operation, which is live then, and asks it. One dialect is all that this caller has.
fn make_and_ask(rt: &impl Abort, ctx: &mut Context<Toy>) {
    let made: Result<Ptr<Operation<Toy>>, CoreError> = Operation::new(ctx, 5, &[], &[], &[], 1);
    let op = made.expect(rt, "the operation");
    expect_same(rt, op.has_use(ctx), false, "a use");
    expect_same(
        rt,
        op.deref(ctx).num_regions(),
        1,
        "how many regions it has",
    );
    expect_same(rt, op.is_live(ctx), true, "the operation");
}

#[test]
fn calls_over_one_dialect(rt: HostRuntime) {
    let mut ctx: Context<Toy> = Context::new(rt.alloc());
    make_and_ask(&rt, &mut ctx);
    context::end(ctx, ());
}

// A chain of ten operations names each of its values but the last.
fn tell_chain<D: Dialects>(rt: &impl Abort, ctx: &mut Context<D>, key: D::TypeKey) {
    let last = chain(ctx, key, 10).expect(rt, "the chain");
    expect_same(rt, value::num_uses(last, ctx), Ok(0), "its last value");
    expect_same(rt, ctx.room().uses, u64::MAX - 10, "the room");
}

#[test]
fn the_last_of_a_chain_has_no_use(rt: HostRuntime) {
    let mut ctx: Context<Toy> = Context::new(rt.alloc());
    tell_chain(&rt, &mut ctx, ToyType::Int { width: 32 });
    context::end(ctx, ());
}

// A test of the limits that `with_limits` lets through.
#[test]
fn limits_are_tested(rt: HostRuntime) {
    let limits = Limits {
        slots: 0,
        ..Limits::default()
    };
    let ctx: Context<Toy> = context::with_limits(rt.alloc(), limits).expect(&rt, "the limits");
    expect_same(&rt, ctx.room().ops, 0, "the room");
    context::end(ctx, ());
}
