// Heads of blocks, attributes, types and locations.
use crate::building::{
    CONSTANT, Ctx, FUNC, MODULE, USE, int, printed, put, put_block, result, root,
};
use ir_checked_core::prelude::Identifier;
use ir_checked_core::{basic_block, context, operation};
use ir_text_describe::Locations;
use std::test::Fail;
use toy_dialect::{ToyInt, ToyLoc, ToyOutlined, ToyText, ToyType};

// A region without blocks, one whose block is empty, and one whose second block is.
fn empty_blocks(ctx: &mut Ctx) -> Result<Vec<u8>, Fail> {
    let module = root(ctx, MODULE, 3)?;
    put_block(ctx, module, 1, 0)?;
    let block = put_block(ctx, module, 2, 0)?;
    put(ctx, block, CONSTANT, 0, &[], 0)?;
    put_block(ctx, module, 2, 0)?;
    printed(ctx, module, Locations::Left)
}

#[test]
fn heads_of_blocks(rt: HostRuntime) -> Result<(), Fail> {
    let mut ctx = Ctx::new(rt.alloc());
    let outcome = empty_blocks(&mut ctx);
    let text = context::end(ctx, outcome)?;
    let wanted = b"\"toy.module\"() ({
}, {
^bb0:
}, {
  \"toy.constant\"() : () -> ()
^bb1:
}) : () -> ()
";
    assert!(rt; text.as_slice() == wanted.as_slice());
    Ok(())
}

// A use with all of Toy's attributes.
fn with_attributes(ctx: &mut Ctx) -> Result<Vec<u8>, Fail> {
    let ty = int(ctx, 8)?;
    let op = root(ctx, USE, 0)?;
    let quoted = String::from_str(ctx.alloc(), "a \"b\"\\\n")?;
    let outlined = String::from_str(ctx.alloc(), "c")?;
    let attributes = &mut operation::deref_mut(ctx, op)?.attributes;
    attributes.set(Identifier::new("number"), ToyInt { value: -5, ty })?;
    attributes.set(Identifier::new("_2"), ToyText(quoted))?;
    attributes.set(Identifier::new("far"), ToyOutlined(outlined))?;
    printed(ctx, op, Locations::Left)
}

#[test]
fn attributes_in_their_order(rt: HostRuntime) -> Result<(), Fail> {
    let mut ctx = Ctx::new(rt.alloc());
    let outcome = with_attributes(&mut ctx);
    let text = context::end(ctx, outcome)?;
    let wanted =
        b"\"toy.use\"() {number = -5 : i8, _2 = \"a \\22b\\22\\\\\\0A\", far = #toy.outlined<\"c\">} : () -> ()
";
    assert!(rt; text.as_slice() == wanted.as_slice());
    Ok(())
}

// An operation of an unknown kind with a location and results of several types, in a block with one.
fn located(ctx: &mut Ctx, locations: Locations) -> Result<Vec<u8>, Fail> {
    let named = ctx.instantiate_key(ToyType::Named(Identifier::new("pair")))?;
    let module = root(ctx, MODULE, 1)?;
    let block = put_block(ctx, module, 0, 1)?;
    basic_block::deref_mut(ctx, block)?.set_loc(ToyLoc::Line(3));
    let op = put(ctx, block, 99, 1, &[], 0)?;
    operation::push_result(op, ctx, named)?;
    operation::deref_mut(ctx, op)?.set_loc(ToyLoc::Line(4));
    let values = [result(ctx, op, 0)?, result(ctx, op, 1)?];
    put(ctx, block, FUNC, 1, &values, 0)?;
    printed(ctx, module, locations)
}

#[test]
fn locations(rt: HostRuntime) -> Result<(), Fail> {
    let mut ctx = Ctx::new(rt.alloc());
    let outcome = located(&mut ctx, Locations::Put);
    let text = context::end(ctx, outcome)?;
    let wanted = b"\"toy.module\"() ({
^bb0(%arg0: i32):
  %0:2 = \"toy.unknown\"() : () -> (i32, !toy.pair) loc(\"script\":4:1)
  %1 = \"toy.func\"(%0#0, %0#1) : (i32, !toy.pair) -> i32
}) : () -> ()
";
    assert!(rt; text.as_slice() == wanted.as_slice());
    let mut ctx = Ctx::new(rt.alloc());
    let outcome = located(&mut ctx, Locations::Left);
    let text = context::end(ctx, outcome)?;
    let wanted = b"\"toy.module\"() ({
^bb0(%arg0: i32):
  %0:2 = \"toy.unknown\"() : () -> (i32, !toy.pair)
  %1 = \"toy.func\"(%0#0, %0#1) : (i32, !toy.pair) -> i32
}) : () -> ()
";
    assert!(rt; text.as_slice() == wanted.as_slice());
    Ok(())
}
