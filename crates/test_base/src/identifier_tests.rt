//! Worked identifiers, and each call with ample memory.

use crate::expecting::{expect_same, is_copied, prints, shows, text};
use ir_base_dialects::{DialectName, IdentErr, Identifier, MalformedIdentifierErr, ident};
use std::alloc::Global;
use std::collections::HashMap;
use std::process::Abort;

/// The identifier of a text that owns its letters.
pub(crate) fn identifier(rt: &impl Abort, alloc: Global, letters: &str) -> Identifier {
    Identifier::from_text(alloc, letters).expect(rt, "memory")
}

// Whether what is stored under a borrowed identifier is found by this one, and both are equal.
fn is_foo(rt: &impl Abort, alloc: Global, owned: &Identifier) -> bool {
    let mut map = HashMap::new(alloc);
    let stored: Result<_, _> = map.insert(ident!("foo"), 1);
    stored.expect(rt, "memory");
    map.get(owned) == Some(&1)
}

// Whether the two joined are this text.
fn joins(
    rt: &impl Abort,
    alloc: Global,
    first: &Identifier,
    second: &Identifier,
    joined: &str,
) -> bool {
    first.join(alloc, second).expect(rt, "memory").as_str() == joined
}

#[test]
fn identifier_equality(rt: HostRuntime) {
    let owned = identifier(&rt, rt.alloc(), "foo");
    let found = is_foo(&rt, rt.alloc(), &owned);
    expect_same(&rt, (owned == ident!("foo"), found), (true, true));
}

// Whether the one comes before the other.
fn is_before(one: Identifier, other: Identifier) -> bool {
    one < other && other > one
}

#[test]
fn identifier_order(rt: HostRuntime) {
    let letters = is_before(ident!("a"), ident!("z"));
    let lengths = is_before(ident!("a"), ident!("aa"));
    assert!(rt; letters && lengths && !Identifier::is_valid("1b"));
}

#[test]
fn identifier_join(rt: HostRuntime) {
    assert!(rt; joins(&rt, rt.alloc(), &ident!("a"), &ident!("_1"), "a_1"));
}

// Whether an identifier is this text, by each way to read it.
fn reads(rt: &impl Abort, alloc: Global, identifier: &Identifier, letters: &str) -> bool {
    identifier.as_str() == letters
        && prints(rt, alloc, identifier, letters)
        && shows(rt, alloc, identifier, letters)
        && is_copied(rt, identifier)
}

// Whether an identifier becomes this text.
fn becomes(rt: &impl Abort, alloc: Global, identifier: Identifier, letters: &str) -> bool {
    identifier.into_text(alloc).expect(rt, "memory").as_str() == letters
}

// Asserts that an identifier is this text, by each way to read it.
fn expect_text(rt: &impl Abort, alloc: Global, identifier: Identifier, letters: &str) {
    let is_read = reads(rt, alloc, &identifier, letters);
    assert!(rt;
        becomes(rt, alloc, identifier, letters) && is_read,
        "{letters}"
    );
}

// The identifier that a text is converted to.
fn converted(rt: &impl Abort, alloc: Global, letters: &str) -> Identifier {
    text(rt, alloc, letters)
        .try_into()
        .expect(rt, "an identifier")
}

#[test]
fn identifiers_are_read(rt: HostRuntime) {
    let alloc = rt.alloc();
    expect_text(&rt, alloc, identifier(&rt, alloc, "op_1"), "op_1");
    expect_text(&rt, alloc, ident!("op_1"), "op_1");
    expect_text(&rt, alloc, converted(&rt, alloc, "op_1"), "op_1");
}

// Whether a malformed text is handed back. A call that wants memory ends the test.
fn hands_back(rt: &impl Abort, error: &IdentErr, letters: &str) -> bool {
    match error {
        IdentErr::MalformedIdentifierErr(malformed) => malformed.0.as_str() == letters,
        IdentErr::OutOfMemory => panic!(rt; "memory: OutOfMemory"),
    }
}

// Whether a malformed text that has to be copied is handed back, for an identifier and for a name.
fn is_copied_back(rt: &impl Abort, alloc: Global, letters: &str) -> bool {
    let no_identifier = Identifier::from_text(alloc, letters).expect_err(rt, "malformed");
    let no_name = DialectName::try_new(alloc, letters).expect_err(rt, "malformed");
    hands_back(rt, &no_identifier, letters) && hands_back(rt, &no_name, letters)
}

// Refuses a call that answers want of memory for each malformed text.
#[test]
fn malformed_names(rt: HostRuntime) {
    for letters in ["", "1b", "a.b", "é"] {
        assert!(rt; is_copied_back(&rt, rt.alloc(), letters), "{letters}");
    }
}

// Whether a text is malformed, and then handed back.
fn is_handed_back(rt: &impl Abort, alloc: Global, letters: &str) -> bool {
    match Identifier::try_new(text(rt, alloc, letters)) {
        Ok(_) => false,
        Err(malformed) => malformed.0.as_str() == letters,
    }
}

#[test]
fn malformed_texts(rt: HostRuntime) {
    for (letters, malformed) in [
        ("", true),
        ("hi12.", true),
        ("12ab", true),
        (".a12ab", true),
        ("é", true),
        ("hi12", false),
        ("A12ab", false),
    ] {
        assert!(rt;
            is_handed_back(&rt, rt.alloc(), letters) == malformed,
            "{letters}"
        );
    }
}

#[test]
fn fault_texts(rt: HostRuntime) {
    let alloc = rt.alloc();
    let malformed = MalformedIdentifierErr(text(&rt, alloc, "1b"));
    let alone = prints(&rt, alloc, &malformed, "Malformed identifier 1b");
    let error = IdentErr::from(malformed);
    let as_error = prints(&rt, alloc, &error, "Malformed identifier 1b");
    let memory = prints(&rt, alloc, &IdentErr::OutOfMemory, "out of memory");
    expect_same(&rt, [alone, as_error, memory], [true; 3]);
}
