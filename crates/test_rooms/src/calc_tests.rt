//! The example's dialect: what it makes, how it is named, what is read back, and what its checks find.

use example::{
    Calc, CalcChecks, CalcType, Constant, Less, Literal, NO_BITS, Number, Remark, SIDES,
    SizedInterface, Truth,
};
use ir_base_dialects::attribute::AttributeDict;
use ir_base_dialects::interfaces::PureOpInterface;
use ir_base_dialects::{Dialects, Identifier, Ptr};
use ir_checked_core::{context, operation};
use ir_core_queries::{Named, TypeQueries};
use ir_verify::verify::{VerifierErr, VerifyErr, verify_operation, verify_type};
use ir_view::types::{IrType, TypeInterfaceHandle, TypedHandle};
use ir_view_parts::{
    Context, Op, Operation, OperationKind, OperationPtr, Value, ValueQueries, op_impls_static,
};
use std::alloc::Global;
use std::fmt::{Debug, Display};
use std::process::Abort;

// What the call answered. Where it was refused the test ends, also for want of memory.
fn done<T, E: Debug>(rt: &impl Abort, answer: Result<T, E>) -> T {
    answer.expect(rt, "the call was refused")
}

// Asserts that an id prints as this text.
fn expect_id<T: Display + Drop>(rt: &impl Abort, alloc: Global, id: T, text: &str) {
    let printed = done(rt, format!(in alloc; "{id}"));
    assert!(rt; printed.as_str() == text);
}

// The ids of the dialect's operations.
fn operation_ids(rt: &impl Abort, alloc: Global) {
    let constant = <Constant as Op<Calc>>::get_opid_static(alloc);
    expect_id(rt, alloc, done(rt, constant), "calc.constant");
    let less = <Less as Op<Calc>>::get_opid_static(alloc);
    expect_id(rt, alloc, done(rt, less), "calc.less");
}

// The ids of its types.
fn type_ids(rt: &impl Abort, alloc: Global) {
    let number = Number { bits: 8 }.get_type_id(alloc);
    expect_id(rt, alloc, done(rt, number), "calc.number");
    expect_id(rt, alloc, done(rt, Truth.get_type_id(alloc)), "calc.truth");
}

#[test]
fn names_of_kinds(rt: HostRuntime) {
    let alloc = rt.alloc();
    operation_ids(&rt, alloc);
    type_ids(&rt, alloc);
    expect_id(
        &rt,
        alloc,
        done(&rt, Calc::attr_id(alloc, 0)),
        "calc.literal",
    );
    expect_id(
        &rt,
        alloc,
        done(&rt, Calc::attr_id(alloc, 1)),
        "calc.remark",
    );
    assert!(rt; op_impls_static::<Less, PureOpInterface, Calc>());
}

// Asserts that a live operation is a comparison.
fn expect_less(rt: &impl Abort, ctx: &Context<Calc>, op: Ptr<Operation<Calc>>) {
    assert!(rt; op.is_live(ctx));
    assert!(rt; op.is_op::<Less>(ctx));
}

// Asserts the sides of a live comparison.
fn expect_sides(rt: &impl Abort, ctx: &Context<Calc>, less: &Less, left: u64, right: u64) {
    assert!(rt; less.op.is_live(ctx));
    assert!(rt; less.sides(ctx) == Some((left, right)));
}

// Asserts the unique name of a live value.
fn expect_name<D: Dialects>(rt: &impl Abort, ctx: &Context<D>, value: Value<D>, name: &str) {
    assert!(rt; value.is_live(ctx));
    let given = done(rt, value.unique_name(ctx));
    assert!(rt; given.as_str() == name);
}

// The answer of a live comparison.
fn answer(rt: &impl Abort, ctx: &Context<Calc>, less: &Less) -> Value<Calc> {
    assert!(rt; less.op.is_live(ctx));
    less.answer(ctx).expect(rt, "a comparison has an answer")
}

// A comparison that was made is read back, and its answer has a name.
fn comparison(rt: &impl Abort, ctx: &mut Context<Calc>) {
    let less = done(rt, Less::compare(ctx, 16, 3, 5));
    expect_less(rt, ctx, less.op);
    expect_sides(rt, ctx, &less, 3, 5);
    expect_name(rt, ctx, answer(rt, ctx, &less), "smaller_v2");
}

#[test]
fn comparison_made_named_and_read_back(rt: HostRuntime) {
    let mut ctx: Context<Calc> = Context::new(rt.alloc());
    comparison(&rt, &mut ctx);
    context::end(ctx, ());
}

// The number at the key `value`, where there is a literal.
fn number_in(dict: &AttributeDict<Calc>) -> Option<u64> {
    match dict.get::<Literal>(&Identifier::new("value")) {
        Some(literal) => Some(literal.value),
        None => None,
    }
}

// Whether there is a remark with this text at the key.
fn has_remark(dict: &AttributeDict<Calc>, key: &Identifier, text: &str) -> bool {
    match dict.get::<Remark>(key) {
        Some(remark) => remark.text.as_str() == text,
        None => false,
    }
}

// Asserts the attributes of a dictionary: a literal and a remark.
fn expect_attributes(rt: &impl Abort, dict: &AttributeDict<Calc>) {
    assert!(rt; number_in(dict) == Some(8));
    assert!(rt; has_remark(dict, &Identifier::new("note"), "by hand"));
    assert!(rt; !has_remark(dict, &Identifier::new("value"), "by hand"));
}

#[test]
fn attributes_written_read_and_copied(rt: HostRuntime) {
    let mut dict: AttributeDict<Calc> = AttributeDict::new(rt.alloc());
    let text = done(&rt, format!(in rt.alloc(); "by hand"));
    done(
        &rt,
        dict.set(Identifier::new("value"), Literal { value: 7 }),
    );
    done(&rt, dict.set(Identifier::new("note"), Remark { text }));
    if let Some(literal) = dict.get_mut::<Literal>(&Identifier::new("value")) {
        literal.value = 8;
    }
    expect_attributes(&rt, &dict);
    let copy = done(&rt, dict.clone());
    expect_attributes(&rt, &copy);
}

// Numbers are sized, and no truth is a number.
fn types_of_one_kind(rt: &impl Abort, ctx: &mut Context<Calc>) {
    let number = done(rt, Number { bits: 8 }.instantiate(ctx));
    assert!(rt; number.is_known(ctx));
    assert!(rt; number.deref(ctx).bits == 8);
    let sized: TypeInterfaceHandle<SizedInterface, Calc> = TypeInterfaceHandle::from(number);
    assert!(rt; sized.is_known(ctx));
    let truth = done(rt, Truth.instantiate(ctx)).to_handle();
    assert!(rt; truth.is_known(ctx));
    assert!(rt; TypedHandle::<Number, Calc>::from_handle(truth, ctx).is_err());
}

#[test]
fn typed_handles(rt: HostRuntime) {
    let mut ctx: Context<Calc> = Context::new(rt.alloc());
    types_of_one_kind(&rt, &mut ctx);
    context::end(ctx, ());
}

// What the checks find at a live operation.
fn found(rt: &impl Abort, ctx: &Context<Calc>, op: Ptr<Operation<Calc>>) -> Result<(), VerifyErr> {
    assert!(rt; op.is_live(ctx));
    verify_operation(op, ctx, &CalcChecks)
}

// A fault with this code.
fn fault(code: u32) -> Result<(), VerifyErr> {
    Err(VerifyErr::VerifierErr(VerifierErr { code }))
}

// Asserts what verification found.
fn expect_found(rt: &impl Abort, told: Result<(), VerifyErr>, wanted: Result<(), VerifyErr>) {
    assert!(rt; told == wanted);
}

// A comparison is right, and one without sides is found.
fn check_comparisons(rt: &impl Abort, ctx: &mut Context<Calc>) {
    let less = done(rt, Less::compare(ctx, 16, 3, 5));
    expect_found(rt, found(rt, ctx, less.op), Ok(()));
    let bare = done(rt, operation::new(ctx, Less::KIND, &[], &[], &[], 0));
    expect_found(rt, found(rt, ctx, bare), fault(SIDES));
}

// A type without bits is found.
fn check_types(rt: &impl Abort, ctx: &Context<Calc>) {
    let empty = CalcType::Number(Number { bits: 0 });
    expect_found(rt, verify_type(&empty, ctx, &CalcChecks), fault(NO_BITS));
}

#[test]
fn checks_of_the_dialect(rt: HostRuntime) {
    let mut ctx: Context<Calc> = Context::new(rt.alloc());
    check_comparisons(&rt, &mut ctx);
    check_types(&rt, &ctx);
    context::end(ctx, ());
}
