//! Worked names of sources, and each call of a legaliser with ample memory.

use crate::expecting::expect_same;
use crate::identifier_tests::identifier;
use ir_base_dialects::{CoreError, Identifier, Legaliser, ident};
use std::alloc::Global;
use std::process::Abort;

// Whether the name was given to this source, or to none.
fn is_from(
    rt: &impl Abort,
    legaliser: &Legaliser,
    name: &Identifier,
    source: Option<&str>,
) -> bool {
    let found = legaliser.source_name(name).expect(rt, "memory");
    match (&found, source) {
        (Some(text), Some(letters)) => text.as_str() == letters,
        (None, None) => true,
        _ => false,
    }
}

// Whether the source is given the name, which then gives the source back.
fn is_named(rt: &impl Abort, legaliser: &mut Legaliser, source: &str, name: &str) -> bool {
    let given = legaliser.legalise(source).expect(rt, "memory");
    given.as_str() == name && is_from(rt, legaliser, &given, Some(source))
}

// Asserts that each source is given its name, which then gives the source back.
fn expect_named(rt: &impl Abort, legaliser: &mut Legaliser, pairs: &[(&str, &str)]) {
    for (source, name) in pairs {
        assert!(rt; is_named(rt, legaliser, source, name), "{source}");
    }
}

#[test]
fn legalise_clashes(rt: HostRuntime) {
    let mut legaliser = Legaliser::new(rt.alloc());
    let pairs = [
        ("hello_", "hello_"),
        ("hello.", "hello__0"),
        ("hello__0", "hello__0_1"),
        ("", "_"),
        ("_", "__2"),
        ("hello.", "hello__0"),
    ];
    expect_named(&rt, &mut legaliser, &pairs);
}

#[test]
fn legalise_first_letters(rt: HostRuntime) {
    let mut legaliser = Legaliser::new(rt.alloc());
    let pairs = [("_", "_"), ("", "__0"), ("1x", "_x"), ("aé€😀1", "a___1")];
    expect_named(&rt, &mut legaliser, &pairs);
}

#[test]
fn legalise_one_accented_letter(rt: HostRuntime) {
    let mut legaliser = Legaliser::new(rt.alloc());
    expect_named(&rt, &mut legaliser, &[("é", "_")]);
}

// Whether no number is left for a name of the source.
fn is_spent(rt: &impl Abort, legaliser: &mut Legaliser, source: &str) -> bool {
    match legaliser.legalise(source) {
        Ok(_) => false,
        Err(CoreError::OutOfMemory) => panic!(rt; "memory: OutOfMemory"),
        Err(error) => error == CoreError::CounterSpent,
    }
}

#[test]
fn legalise_counter_spent(rt: HostRuntime) {
    let mut legaliser = Legaliser::with_counter(rt.alloc(), usize::MAX - 1);
    let pairs = [("b.", "b_"), ("b_", "b__18446744073709551614")];
    expect_named(&rt, &mut legaliser, &pairs);
    let spent = is_spent(&rt, &mut legaliser, "b!");
    expect_named(&rt, &mut legaliser, &[("b.", "b_")]);
    expect_same(&rt, spent, true);
}

// Whether an identifier followed by itself is this text.
fn is_doubled(rt: &impl Abort, alloc: Global, name: &Identifier, doubled: &str) -> bool {
    let copy = name.clone().expect(rt, "memory");
    let joined = name.join(alloc, &copy).expect(rt, "memory");
    let same = joined == identifier(rt, alloc, doubled);
    joined.into_text(alloc).expect(rt, "memory").as_str() == doubled && same
}

// Whether the name of a source followed by itself is this text, and no source has this name.
fn is_doubled_name(
    rt: &impl Abort,
    alloc: Global,
    legaliser: &mut Legaliser,
    source: &str,
    doubled: &str,
) -> bool {
    let name = legaliser.legalise(source).expect(rt, "memory");
    is_doubled(rt, alloc, &name, doubled) && is_from(rt, legaliser, &name, Some(source))
}

// Refuses calls that answer want of memory although it is there.
#[test]
fn marked_always_memory(rt: HostRuntime) {
    let mut legaliser = Legaliser::new(rt.alloc());
    let doubled = is_doubled_name(&rt, rt.alloc(), &mut legaliser, "a.", "a_a_");
    expect_same(&rt, doubled, true);
}

// Refuses a search for a source that answers want of memory for an unknown name.
#[test]
fn unknown_names(rt: HostRuntime) {
    let mut legaliser = Legaliser::new(rt.alloc());
    let first = is_from(&rt, &legaliser, &ident!("a"), None);
    expect_named(&rt, &mut legaliser, &[("b.", "b_")]);
    let second = is_from(&rt, &legaliser, &ident!("a"), None);
    expect_same(&rt, (first, second), (true, true));
}

// A text of so many times `a`, and then this one.
fn long_text(rt: &impl Abort, alloc: Global, count: usize, last: &str) -> String {
    let mut long = String::new(alloc);
    for _ in 0..count {
        long.push('a').expect(rt, "memory");
    }
    long.push_str(last).expect(rt, "memory");
    long
}

// Whether a name followed by itself starts with it.
fn starts_doubled(rt: &impl Abort, alloc: Global, letters: &str) -> bool {
    let name = identifier(rt, alloc, letters);
    let joined = name.join(alloc, &name).expect(rt, "memory");
    joined.as_str().starts_with(letters) && joined.as_str().len() == 2 * letters.len()
}

// Asserts that a source of so many letters and a dot is given its name, which is followed by itself.
fn expect_long(rt: &impl Abort, alloc: Global, legaliser: &mut Legaliser, count: usize) {
    let source = long_text(rt, alloc, count, ".");
    let name = long_text(rt, alloc, count, "_");
    expect_named(rt, legaliser, &[(source.as_str(), name.as_str())]);
    let doubled = starts_doubled(rt, alloc, name.as_str());
    expect_same(rt, doubled, true);
}

// Refuses calls that answer want of memory for a long source.
#[test]
fn long_sources(rt: HostRuntime) {
    let mut legaliser = Legaliser::new(rt.alloc());
    for count in [64, 300, 5000] {
        expect_long(&rt, rt.alloc(), &mut legaliser, count);
    }
}

// A text with a number in it.
fn numbered(rt: &impl Abort, alloc: Global, number: usize, last: &str) -> String {
    format!(in alloc; "a{number}{last}").expect(rt, "memory")
}

// Asserts that the first source of a pair that clashes is named without a number, and the second with this one.
fn expect_clash(rt: &impl Abort, alloc: Global, legaliser: &mut Legaliser, number: usize) {
    let source = numbered(rt, alloc, number, ".");
    let clash = numbered(rt, alloc, number, "!");
    let name = numbered(rt, alloc, number, "_");
    let second = format!(in alloc; "{name}_{number}").expect(rt, "memory");
    let pairs = [
        (source.as_str(), name.as_str()),
        (clash.as_str(), second.as_str()),
    ];
    expect_named(rt, legaliser, &pairs);
}

// Refuses calls that answer want of memory once there were many clashes.
#[test]
fn many_clashes(rt: HostRuntime) {
    let mut legaliser = Legaliser::new(rt.alloc());
    for number in 0..300usize {
        expect_clash(&rt, rt.alloc(), &mut legaliser, number);
    }
}

// Whether the name has no source, and is given to this one by the next call, where the first call for it was refused for memory.
fn is_named_again(
    rt: &impl Abort,
    alloc: Global,
    legaliser: &mut Legaliser,
    source: &str,
    name: &str,
) -> bool {
    let had_none = is_from(rt, legaliser, &identifier(rt, alloc, name), None);
    is_named(rt, legaliser, source, name) && had_none
}

// Asserts that the source is given the name, at once or once it was refused for memory, which ends the test.
fn expect_named_at_last(
    rt: &impl Abort,
    alloc: Global,
    legaliser: &mut Legaliser,
    source: &str,
    name: &str,
) {
    let answer = legaliser.legalise(source);
    if answer.is_err() {
        let again = is_named_again(rt, alloc, legaliser, source, name);
        expect_same(rt, again, true);
    }
    let given = answer.expect(rt, "memory");
    expect_same(rt, given.as_str(), name);
}

#[test]
fn refused_legalise_changes_nothing(rt: HostRuntime) {
    let mut legaliser = Legaliser::new(rt.alloc());
    for (source, name) in [("a.", "a_"), ("a!", "a__0"), ("a?", "a__1")] {
        expect_named_at_last(&rt, rt.alloc(), &mut legaliser, source, name);
    }
}
