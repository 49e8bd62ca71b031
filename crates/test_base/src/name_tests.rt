//! Each call on names and ids with ample memory.

use crate::expecting::{expect_same, is_copied, prints, text};
use crate::identifier_tests::identifier;
use ir_base_dialects::{DialectName, Id, Identifier, Name, OfAttr, OfDialect, OfOp, OfType, ident};
use std::alloc::Global;
use std::convert::{AsRef, AsStr};
use std::process::Abort;

// Whether a name is this text, by each way to read it.
fn reads<Of>(rt: &impl Abort, alloc: Global, name: &Name<Of>, letters: &str) -> bool {
    name.as_str() == letters
        && name.as_ref().as_str() == letters
        && prints(rt, alloc, name, letters)
        && is_copied(rt, name)
}

// Whether a name becomes an identifier with this text.
fn becomes<Of>(name: Name<Of>, letters: &str) -> bool {
    Identifier::from(name).as_str() == letters
}

// The name that a text is converted to.
fn converted<Of>(rt: &impl Abort, alloc: Global, letters: &str) -> Name<Of> {
    text(rt, alloc, letters).try_into().expect(rt, "a name")
}

// Asserts that the name of a text is this text, by each way to read it, and is the name that the text is converted to.
fn expect_name<Of>(rt: &impl Abort, alloc: Global, letters: &str) {
    let name = Name::<Of>::try_new(alloc, letters).expect(rt, "memory");
    let same = converted::<Of>(rt, alloc, letters) == name;
    let is_read = reads(rt, alloc, &name, letters);
    assert!(rt; becomes(name, letters) && is_read && same, "{letters}");
}

#[test]
fn names(rt: HostRuntime) {
    let alloc = rt.alloc();
    expect_name::<OfDialect>(&rt, alloc, "toy");
    expect_name::<OfType>(&rt, alloc, "int");
    expect_name::<OfAttr>(&rt, alloc, "flag");
    expect_name::<OfOp>(&rt, alloc, "add");
}

// Asserts that the id of this name in the dialect `toy` prints as this text, and that a copy is equal to it.
fn expect_id<Of>(rt: &impl Abort, alloc: Global, name: &str, printed: &str) {
    let id = Id::<Of> {
        dialect: DialectName::from(ident!("toy")),
        name: Name::from(identifier(rt, alloc, name)),
    };
    let same = is_copied(rt, &id);
    let is_printed = prints(rt, alloc, &id, printed);
    expect_same(rt, (same, is_printed), (true, true));
}

#[test]
fn ids(rt: HostRuntime) {
    let alloc = rt.alloc();
    expect_id::<OfType>(&rt, alloc, "int", "toy.int");
    expect_id::<OfAttr>(&rt, alloc, "flag", "toy.flag");
    expect_id::<OfOp>(&rt, alloc, "add", "toy.add");
}
