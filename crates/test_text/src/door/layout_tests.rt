// A text read, resolved and laid out, and the place of a fault in it.
use crate::door::laid_out::laid_out;
use ir_text::names::resolve;
use ir_text::place::line_and_column;
use ir_text::tree::{Fault, Part, Wanted, parse};
use std::test::Fail;

const TEXT: &[u8] = b"%0=\"a\"()({^bb0(%x:i1):\"b\"(%x):(i1)->()}):()->i32 \"c\"(%0):(i32)->()";

#[test]
fn a_text_laid_out(rt: HostRuntime) -> Result<(), Fail> {
    let out = laid_out(rt.alloc(), TEXT)?;
    let wanted =
        b"%0 = \"a\"() ({\n^bb0(%x: i1):\n  \"b\"(%x) : (i1) -> ()\n}) : () -> i32\n\"c\"(%0) : (i32) -> ()\n".as_slice();
    assert!(rt; out.as_slice() == wanted);
    Ok(())
}

#[test]
fn names_of_a_text(rt: HostRuntime) -> Result<(), Fail> {
    let tree = parse(rt.alloc(), TEXT)?;
    let names = resolve(rt.alloc(), TEXT, tree.rows.as_slice())?;
    let first = tree.rows.first().map(|row| row.part);
    assert!(rt; first == Some(Part::Result));
    // rows: %0 "a" { ^bb0 %x i1 "b" %x i1 } i32 "c" %0 i32
    assert!(rt; names.values.get(7) == Some(4));
    assert!(rt; names.values.get(12) == Some(0));
    Ok(())
}

#[test]
fn place_of_a_fault(rt: HostRuntime) -> Result<(), Fail> {
    let text = b"\"a\"() : () -> ()\n  \"b\"() : ()".as_slice();
    let told = laid_out(rt.alloc(), text).err();
    let wanted = Wanted::Arrow;
    assert!(rt; told == Some(Fault::Expected { wanted, at: 29 }));
    assert!(rt; line_and_column(text, 29) == (2, 13));
    Ok(())
}
