//! What a driver leaves of small forests, and why it ends.

use crate::nests::{Block, Checked, Op, has_ops, is_refused, nest, new_op, put};
use ir_checked_core::context::end;
use ir_checked_core::prelude::{Context, Value};
use ir_checked_core::{Call, Condition, basic_block, operation};
use ir_core_queries::OperationPtr;
use ir_rewrite::{Both, DummyListener, End, Listener, Pattern, Rewriter, rewrite};
use std::process::Abort;
use toy_dialect::Toy;

const SOURCE: u32 = 0;

const COPY: u32 = 1;

const EATER: u32 = 2;

const FAULT: u32 = 3;

const USE: u32 = 4;

fn kind(ctx: &Context<Toy>, op: Op) -> Option<u32> {
    Some(operation::deref(op, ctx).ok()?.kind())
}

// What a copy copies, where that is of a source.
fn source(ctx: &Context<Toy>, op: Op) -> Option<Value<Toy>> {
    if kind(ctx, op)? != COPY {
        return None;
    }
    let value = operation::get_operand(op, ctx, 0).ok()?;
    (kind(ctx, value.defining_op()?)? == SOURCE).then_some(value)
}

// Lets what names a copy of a source name the source.
#[derive(Drop)]
struct Forward;

impl Pattern<Toy> for Forward {
    fn rewrite(
        &self,
        ctx: &mut Context<Toy>,
        rewriter: &mut Rewriter<Toy>,
        op: &Op,
    ) -> Checked<bool> {
        let Some(value) = source(ctx, *op) else {
            return Ok(false);
        };
        rewriter.replace_op(*op, ctx, &[value, value])?;
        Ok(true)
    }
}

// The operation behind an eater.
fn eaten(ctx: &Context<Toy>, op: Op) -> Option<Op> {
    if kind(ctx, op)? != EATER {
        return None;
    }
    operation::get_next(op, ctx).ok()?
}

// Lets an eater erase the operation behind it, and answers an error for a fault, and for what is gone.
#[derive(Drop)]
struct Eat;

impl Pattern<Toy> for Eat {
    fn rewrite(
        &self,
        ctx: &mut Context<Toy>,
        rewriter: &mut Rewriter<Toy>,
        op: &Op,
    ) -> Checked<bool> {
        if operation::deref(*op, ctx)?.kind() == FAULT {
            operation::get_operand(*op, ctx, 0)?;
        }
        let Some(next) = eaten(ctx, *op) else {
            return Ok(false);
        };
        match rewriter.erase_op(next, ctx) {
            Ok(()) => Ok(true),
            Err(_) => Ok(false),
        }
    }
}

// Erases the operation itself, unless it is a use inside something.
#[derive(Drop)]
struct Vanish;

impl Pattern<Toy> for Vanish {
    fn rewrite(
        &self,
        ctx: &mut Context<Toy>,
        rewriter: &mut Rewriter<Toy>,
        op: &Op,
    ) -> Checked<bool> {
        match rewriter.erase_op(*op, ctx) {
            Ok(()) => Ok(true),
            Err(_) => Ok(false),
        }
    }
}

// How many operations were told to have gone.
#[derive(Drop)]
struct Gone(usize);

impl Listener<Toy> for Gone {
    fn inserted(&mut self, _ctx: &Context<Toy>, _op: &Op) {}

    fn modified(&mut self, _ctx: &Context<Toy>, _op: &Op) {}

    fn erased(&mut self, _ctx: &Context<Toy>, _op: &Op) {
        self.0 = self.0.saturating_add(1);
    }
}

// What was told: a letter for each change, and the operation.
#[derive(Drop)]
struct Told {
    letters: String,
    ops: Vec<Op>,
}

impl Told {
    // Writes one change more; what memory lacks for is left out.
    fn write(&mut self, letter: &str, op: Op) {
        let _ = self.letters.push_str(letter);
        let _ = self.ops.push(op);
    }
}

impl Listener<Toy> for Told {
    fn inserted(&mut self, _ctx: &Context<Toy>, op: &Op) {
        self.write("i", *op);
    }

    fn modified(&mut self, _ctx: &Context<Toy>, op: &Op) {
        self.write("m", *op);
    }

    fn erased(&mut self, _ctx: &Context<Toy>, op: &Op) {
        self.write("e", *op);
    }
}

// Puts a use in before an eater, moves it behind the eater, and erases the eater.
#[derive(Drop)]
struct Turn;

impl Pattern<Toy> for Turn {
    fn rewrite(
        &self,
        ctx: &mut Context<Toy>,
        rewriter: &mut Rewriter<Toy>,
        op: &Op,
    ) -> Checked<bool> {
        if kind(ctx, *op) != Some(EATER) {
            return Ok(false);
        }
        let made = new_op(ctx, USE, &[], 0)?;
        rewriter.insert(made, ctx)?;
        rewriter.move_after(made, ctx, *op)?;
        rewriter.erase_op(*op, ctx)?;
        Ok(true)
    }
}

// A source, three copies one of another, and a use of the last, behind one another in a block; or the copies and the use before what they name.
fn chain(ctx: &mut Context<Toy>, block: Block, backward: bool) -> Checked<[Op; 2]> {
    let source = put(ctx, block, SOURCE, &[])?;
    let mut value = operation::get_result(source, ctx, 0)?;
    for _ in 0..3 {
        let copy = put(ctx, block, COPY, &[value])?;
        if backward {
            ir_rewrite::checked::move_before(copy, ctx, source)?;
        }
        value = operation::get_result(copy, ctx, 1)?;
    }
    let used = put(ctx, block, USE, &[value])?;
    Ok([source, used])
}

fn check_chains(rt: &impl Abort, ctx: &mut Context<Toy>, backward: bool) -> Checked<()> {
    let (root, block) = nest(ctx)?;
    let [source, used] = chain(ctx, block, backward)?;
    let mut gone = Gone(0);
    assert!(rt; root.is_live(ctx));
    let rewritten = rewrite(ctx, root, &[Forward], 100, &mut gone)?;
    assert!(rt; rewritten.end == End::Done, "until none applies");
    assert!(rt; rewritten.steps == 3, "each copy is a step");
    assert!(rt; gone.0 == 3, "the listener is told");
    assert!(rt;
        has_ops(ctx, block, &[source, used])?,
        "the copies are gone"
    );
    let value = operation::get_operand(used, ctx, 0)?;
    assert!(rt;
        value == operation::get_result(source, ctx, 0)?,
        "the source is named"
    );
    Ok(())
}

#[test]
fn copies_are_forwarded(rt: HostRuntime) -> anyhow::Result<()> {
    let mut ctx = Context::new(rt.alloc());
    let outcome = check_chains(&rt, &mut ctx, false);
    end(ctx, outcome)?;
    Ok(())
}

#[test]
fn copies_before_what_they_name_are_forwarded(rt: HostRuntime) -> anyhow::Result<()> {
    let mut ctx = Context::new(rt.alloc());
    let outcome = check_chains(&rt, &mut ctx, true);
    end(ctx, outcome)?;
    Ok(())
}

// Lets a driver apply patterns inside a live root, in at most so many steps, and asserts how it ends.
fn expect_end<P: Pattern<Toy>>(
    rt: &impl Abort,
    ctx: &mut Context<Toy>,
    root: Op,
    patterns: &[P],
    limit: usize,
    wanted: (End, usize),
) -> Checked<()> {
    assert!(rt; root.is_live(ctx));
    let rewritten = rewrite(ctx, root, patterns, limit, &mut DummyListener)?;
    assert!(rt; (rewritten.end, rewritten.steps) == wanted);
    Ok(())
}

fn check_ends(rt: &impl Abort, ctx: &mut Context<Toy>) -> Checked<()> {
    let (root, block) = nest(ctx)?;
    chain(ctx, block, false)?;
    // no step is allowed, then two are, and then one is left
    expect_end(rt, ctx, root, &[Forward], 0, (End::Limit, 0))?;
    expect_end(rt, ctx, root, &[Forward], 2, (End::Limit, 2))?;
    expect_end(rt, ctx, root, &[Forward], 2, (End::Done, 1))?;
    check_gone(rt, ctx, root)
}

// The root goes, and each step is told.
fn check_gone(rt: &impl Abort, ctx: &mut Context<Toy>, root: Op) -> Checked<()> {
    let mut gone = Gone(0);
    assert!(rt; root.is_live(ctx));
    let all = rewrite(ctx, root, &[Vanish], 100, &mut gone)?;
    assert!(rt; all.end == End::RootGone && !root.is_live(ctx));
    assert!(rt; all.steps == gone.0, "each step was told");
    Ok(())
}

#[test]
fn drivers_end(rt: HostRuntime) -> anyhow::Result<()> {
    let mut ctx = Context::new(rt.alloc());
    let outcome = check_ends(&rt, &mut ctx);
    end(ctx, outcome)?;
    Ok(())
}

fn check_asked(rt: &impl Abort, ctx: &mut Context<Toy>) -> Checked<()> {
    let (root, block) = nest(ctx)?;
    let eater = put(ctx, block, EATER, &[])?;
    put(ctx, block, USE, &[])?;
    put(ctx, block, USE, &[])?;
    let source = put(ctx, block, SOURCE, &[])?;
    let value = operation::get_result(source, ctx, 0)?;
    let used = put(ctx, block, USE, &[value])?;
    // what is gone isn't asked, and what is named stays
    expect_end(rt, ctx, root, &[Eat], 100, (End::Done, 2))?;
    assert!(rt; has_ops(ctx, block, &[eater, source, used])?);
    check_both(rt, ctx, root, block, value)
}

// Of two patterns either is asked, and an error is told.
fn check_both(
    rt: &impl Abort,
    ctx: &mut Context<Toy>,
    root: Op,
    block: Block,
    value: Value<Toy>,
) -> Checked<()> {
    put(ctx, block, COPY, &[value])?;
    expect_end(rt, ctx, root, &[Both(Forward, Eat)], 100, (End::Done, 1))?;
    put(ctx, block, FAULT, &[])?;
    assert!(rt; root.is_live(ctx));
    let fault = rewrite(ctx, root, &[Both(Forward, Eat)], 100, &mut DummyListener);
    assert!(rt; is_refused(&fault, Call::OperationGetOperand, Condition::OutOfRange));
    Ok(())
}

#[test]
fn only_what_stands_inside_is_asked(rt: HostRuntime) -> anyhow::Result<()> {
    let mut ctx = Context::new(rt.alloc());
    let outcome = check_asked(&rt, &mut ctx);
    end(ctx, outcome)?;
    Ok(())
}

// What is told where two eaters are turned: of each operation that was made twice, and of the eater that it took the place of.
fn turned(ctx: &Context<Toy>, block: Block, eaters: [Op; 2]) -> Checked<Vec<Op>> {
    let mut expected = Vec::new(ctx.alloc());
    let mut turn = 0;
    for made in basic_block::iter(block, ctx)? {
        expected.push(made)?;
        expected.push(made)?;
        if turn < 2 {
            expected.push(eaters[turn])?;
            turn += 1;
        }
    }
    Ok(expected)
}

// Each change is told by its kind, and by its operation, the front one first.
fn check_told(rt: &impl Abort, ctx: &mut Context<Toy>) -> Checked<()> {
    let (root, block) = nest(ctx)?;
    let first = put(ctx, block, EATER, &[])?;
    let second = put(ctx, block, EATER, &[])?;
    let mut told = Told {
        letters: String::new(ctx.alloc()),
        ops: Vec::new(ctx.alloc()),
    };
    assert!(rt; root.is_live(ctx));
    let rewritten = rewrite(ctx, root, &[Turn], 100, &mut told)?;
    assert!(rt; rewritten.steps == 2, "each eater is a step");
    let expected = turned(ctx, block, [first, second])?;
    assert!(rt; told.letters.as_str() == "imeime");
    assert!(rt; told.ops.as_slice() == expected.as_slice());
    Ok(())
}

#[test]
fn listeners_are_told_each_change(rt: HostRuntime) -> anyhow::Result<()> {
    let mut ctx = Context::new(rt.alloc());
    let outcome = check_told(&rt, &mut ctx);
    end(ctx, outcome)?;
    Ok(())
}
