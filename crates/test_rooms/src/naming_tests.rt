// The names of values and blocks.
use crate::building::{
    ADD, BRANCH, CONSTANT, Ctx, FUNC, MODULE, Op, RETURN, USE, argument, printed, put, put_block,
    result, root,
};
use ir_checked_core::{context, operation};
use ir_text_describe::Locations;
use std::test::Fail;

// A function of two blocks, the second with an argument.
fn function(ctx: &mut Ctx) -> Result<Vec<u8>, Fail> {
    let func = root(ctx, FUNC, 1)?;
    let entry = put_block(ctx, func, 0, 2)?;
    let exit = put_block(ctx, func, 0, 1)?;
    let (a, b) = (argument(ctx, entry, 0)?, argument(ctx, entry, 1)?);
    let sum = put(ctx, entry, ADD, 1, &[a, b], 0)?;
    let sum = result(ctx, sum, 0)?;
    let branch = put(ctx, entry, BRANCH, 0, &[sum], 0)?;
    operation::push_successor(branch, ctx, exit)?;
    operation::push_successor(branch, ctx, entry)?;
    let c = argument(ctx, exit, 0)?;
    let twice = put(ctx, exit, ADD, 1, &[c, c], 0)?;
    let twice = result(ctx, twice, 0)?;
    put(ctx, exit, RETURN, 0, &[twice, a], 0)?;
    printed(ctx, func, Locations::Left)
}

#[test]
fn blocks_of_a_function(rt: HostRuntime) -> Result<(), Fail> {
    let mut ctx = Ctx::new(rt.alloc());
    let outcome = function(&mut ctx);
    let text = context::end(ctx, outcome)?;
    let wanted = b"\"toy.func\"() ({
^bb0(%arg0: i32, %arg1: i32):
  %0 = \"toy.add\"(%arg0, %arg1) : (i32, i32) -> i32
  \"toy.branch\"(%0)[^bb1, ^bb0] : (i32) -> ()
^bb1(%1: i32):
  %2 = \"toy.add\"(%1, %1) : (i32, i32) -> i32
  \"toy.return\"(%2, %arg0) : (i32, i32) -> ()
}) : () -> ()
";
    assert!(rt; text.as_slice() == wanted.as_slice());
    Ok(())
}

// An operation with two regions inside one that also defines values behind it; beside it another with a region.
fn siblings(ctx: &mut Ctx) -> Result<Vec<u8>, Fail> {
    let module = root(ctx, MODULE, 1)?;
    let body = put_block(ctx, module, 0, 1)?;
    let first = put(ctx, body, FUNC, 1, &[], 2)?;
    for region in 0..2 {
        let block = put_block(ctx, first, region, 1)?;
        let value = argument(ctx, block, 0)?;
        let inner = put(ctx, block, ADD, 1, &[value, value], 0)?;
        let inner = result(ctx, inner, 0)?;
        put(ctx, block, RETURN, 0, &[inner], 0)?;
    }
    let second = put(ctx, body, FUNC, 1, &[], 1)?;
    let block = put_block(ctx, second, 0, 1)?;
    let (a, b) = (result(ctx, first, 0)?, argument(ctx, block, 0)?);
    put(ctx, block, ADD, 1, &[a, b], 0)?;
    put(ctx, body, CONSTANT, 1, &[], 0)?;
    printed(ctx, module, Locations::Left)
}

#[test]
fn regions_beside_one_another(rt: HostRuntime) -> Result<(), Fail> {
    let mut ctx = Ctx::new(rt.alloc());
    let outcome = siblings(&mut ctx);
    let text = context::end(ctx, outcome)?;
    let wanted = b"\"toy.module\"() ({
^bb0(%arg0: i32):
  %0 = \"toy.func\"() ({
  ^bb0(%arg1: i32):
    %3 = \"toy.add\"(%arg1, %arg1) : (i32, i32) -> i32
    \"toy.return\"(%3) : (i32) -> ()
  }, {
  ^bb0(%arg1: i32):
    %3 = \"toy.add\"(%arg1, %arg1) : (i32, i32) -> i32
    \"toy.return\"(%3) : (i32) -> ()
  }) : () -> i32
  %1 = \"toy.func\"() ({
  ^bb0(%arg1: i32):
    %3 = \"toy.add\"(%0, %arg1) : (i32, i32) -> i32
  }) : () -> i32
  %2 = \"toy.constant\"() : () -> i32
}) : () -> ()
";
    assert!(rt; text.as_slice() == wanted.as_slice());
    Ok(())
}

// Several results, an operation that uses its own, and one that uses what is defined behind it.
fn graph(ctx: &mut Ctx) -> Result<Vec<u8>, Fail> {
    let module = root(ctx, MODULE, 1)?;
    let body = put_block(ctx, module, 0, 0)?;
    let user = put(ctx, body, USE, 0, &[], 0)?;
    let pair = put(ctx, body, FUNC, 2, &[], 0)?;
    let one = put(ctx, body, CONSTANT, 1, &[], 0)?;
    let (a, b, c) = (
        result(ctx, pair, 0)?,
        result(ctx, pair, 1)?,
        result(ctx, one, 0)?,
    );
    operation::push_operand(user, ctx, c)?;
    operation::push_operand(user, ctx, b)?;
    operation::push_operand(pair, ctx, a)?;
    put(ctx, body, RETURN, 0, &[a, b, c], 0)?;
    printed(ctx, module, Locations::Left)
}

#[test]
fn several_results(rt: HostRuntime) -> Result<(), Fail> {
    let mut ctx = Ctx::new(rt.alloc());
    let outcome = graph(&mut ctx);
    let text = context::end(ctx, outcome)?;
    let wanted = b"\"toy.module\"() ({
  \"toy.use\"(%1, %0#1) : (i32, i32) -> ()
  %0:2 = \"toy.func\"(%0#0) : (i32) -> (i32, i32)
  %1 = \"toy.constant\"() : () -> i32
  \"toy.return\"(%0#0, %0#1, %1) : (i32, i32, i32) -> ()
}) : () -> ()
";
    assert!(rt; text.as_slice() == wanted.as_slice());
    Ok(())
}

// An operation that names what is defined around it, and what is defined inside a region that isn't open.
fn outside(ctx: &mut Ctx) -> Result<Vec<u8>, Fail> {
    let module = root(ctx, MODULE, 1)?;
    let body = put_block(ctx, module, 0, 1)?;
    let value = argument(ctx, body, 0)?;
    let func = put(ctx, body, FUNC, 1, &[value], 2)?;
    let block = put_block(ctx, func, 0, 0)?;
    let inner = put(ctx, block, CONSTANT, 1, &[], 0)?;
    let inner = result(ctx, inner, 0)?;
    put(ctx, block, USE, 0, &[inner], 0)?;
    let branch = put(ctx, block, BRANCH, 0, &[value], 0)?;
    operation::push_successor(branch, ctx, body)?;
    let other = put_block(ctx, func, 1, 0)?;
    put(ctx, other, USE, 0, &[inner, value], 0)?;
    put(ctx, other, USE, 0, &[inner], 0)?;
    printed(ctx, func, Locations::Left)
}

#[test]
fn what_is_defined_elsewhere(rt: HostRuntime) -> Result<(), Fail> {
    let mut ctx = Ctx::new(rt.alloc());
    let outcome = outside(&mut ctx);
    let text = context::end(ctx, outcome)?;
    let wanted = b"%0 = \"toy.func\"(%outside0) ({
  %1 = \"toy.constant\"() : () -> i32
  \"toy.use\"(%1) : (i32) -> ()
  \"toy.branch\"(%outside0)[^outside0] : (i32) -> ()
}, {
  \"toy.use\"(%outside1, %outside0) : (i32, i32) -> ()
  \"toy.use\"(%outside1) : (i32) -> ()
}) : (i32) -> i32
";
    assert!(rt; text.as_slice() == wanted.as_slice());
    Ok(())
}

// A module in a block of the operation's region.
fn deeper(ctx: &mut Ctx, around: Op) -> Result<Op, Fail> {
    let block = put_block(ctx, around, 0, 1)?;
    put(ctx, block, MODULE, 0, &[], 1)
}

// A module in a module, so many deep, with a constant in the innermost.
fn nest(ctx: &mut Ctx, depth: usize) -> Result<Vec<u8>, Fail> {
    let module = root(ctx, MODULE, 1)?;
    let mut inner = module;
    for _ in 0..depth {
        inner = deeper(ctx, inner)?;
    }
    let block = put_block(ctx, inner, 0, 0)?;
    put(ctx, block, CONSTANT, 1, &[], 0)?;
    printed(ctx, module, Locations::Left)
}

#[test]
fn a_deep_nest(rt: HostRuntime) -> Result<(), Fail> {
    let mut ctx = Ctx::new(rt.alloc());
    let outcome = nest(&mut ctx, 2);
    let text = context::end(ctx, outcome)?;
    let wanted = b"\"toy.module\"() ({
^bb0(%arg0: i32):
  \"toy.module\"() ({
  ^bb0(%arg1: i32):
    \"toy.module\"() ({
      %0 = \"toy.constant\"() : () -> i32
    }) : () -> ()
  }) : () -> ()
}) : () -> ()
";
    assert!(rt; text.as_slice() == wanted.as_slice());
    let mut ctx = Ctx::new(rt.alloc());
    let outcome = nest(&mut ctx, 500);
    let text = context::end(ctx, outcome)?;
    let lines = text
        .as_slice()
        .iter()
        .filter(|byte| **byte == b'\n')
        .count();
    assert!(rt; lines == 3 * 500 + 3);
    Ok(())
}
