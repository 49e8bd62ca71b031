// Each fault with its line and column, and texts that are cut off.
use crate::tokens::rendering::outcome;
use ir_text_tokens::Fault;
use std::alloc::Global;
use std::process::Abort;
use std::test::Fail;

// Texts with their first fault, its line and its column.
const FAULTS: &[(&[u8], (&str, u64, u64))] = &[
    (b"a;", ("character", 1, 2)),
    (b"\xc3\xa9", ("character", 1, 1)),
    (b"a\n b\n  ~", ("character", 3, 3)),
    (b"/ /", ("character", 1, 1)),
    (b"a /", ("character", 1, 3)),
    (b"%", ("character", 1, 1)),
    (b"% 0", ("character", 1, 1)),
    (b"a\n^", ("character", 2, 1)),
    (b"%\"a\"", ("character", 1, 1)),
    (b">", ("character", 1, 1)),
    (b"\\", ("character", 1, 1)),
    (b"a =>", ("character", 1, 4)),
    (b"\"a", ("string", 1, 3)),
    (b"\"a\nb\"", ("string", 1, 3)),
    (b"x\n\"a\\\"", ("string", 2, 5)),
    (b"\"\\", ("string", 1, 3)),
    (b"\"\\4", ("string", 1, 4)),
    (b"\"\\x\"", ("escape", 1, 3)),
    (b"\"\\4g\"", ("escape", 1, 4)),
    (b"\"\\gg\"", ("escape", 1, 3)),
    (b"\"\\\n\"", ("escape", 1, 3)),
    (b"\"ok\"\n\"\\q\"", ("escape", 2, 3)),
    (b"<", ("group", 1, 2)),
    (b"<a>\n<b", ("group", 2, 3)),
    (b"<\"", ("string", 1, 3)),
    (b"<\"a\n\">", ("string", 1, 4)),
    (b"<\"\\z\">", ("escape", 1, 4)),
    (b"<(]>", ("bracket", 1, 3)),
    (b"<[)>", ("bracket", 1, 3)),
    (b"<{>", ("bracket", 1, 3)),
    (b"<)", ("bracket", 1, 2)),
    (b"<a\n(b<c)>", ("bracket", 2, 5)),
    (b"<a -> b", ("group", 1, 8)),
    (b"<a >= b", ("group", 1, 8)),
    (b"<{[(<>)]}", ("group", 1, 10)),
];

// A text, and the lengths at which its front part has a fault, with that fault.
const WHOLE: &[u8] = b"%0 = \"a.b\\0A\"(%x#1) {k = !t<(i32) -> \"]\">}\n  : (i32) -> i64 // end";

const CUTS: &[(usize, (&str, u64, u64))] = &[
    (1, ("character", 1, 1)),
    (6, ("string", 1, 7)),
    (7, ("string", 1, 8)),
    (8, ("string", 1, 9)),
    (9, ("string", 1, 10)),
    (10, ("string", 1, 11)),
    (11, ("string", 1, 12)),
    (12, ("string", 1, 13)),
    (15, ("character", 1, 15)),
    (28, ("group", 1, 29)),
    (29, ("group", 1, 30)),
    (30, ("group", 1, 31)),
    (31, ("group", 1, 32)),
    (32, ("group", 1, 33)),
    (33, ("group", 1, 34)),
    (34, ("group", 1, 35)),
    (35, ("group", 1, 36)),
    (36, ("group", 1, 37)),
    (37, ("group", 1, 38)),
    (38, ("string", 1, 39)),
    (39, ("string", 1, 40)),
    (40, ("group", 1, 41)),
    (61, ("character", 2, 18)),
];

#[test]
fn faults_of_texts(rt: HostRuntime) -> Result<(), Fail> {
    for (text, wanted) in FAULTS {
        assert!(rt; outcome(rt.alloc(), *text) == *wanted);
    }
    Ok(())
}

// What the front part of this length gives: `ok`, or the fault.
fn wanted_at(length: usize) -> (&'static str, u64, u64) {
    for (cut, fault) in CUTS {
        if *cut == length {
            return *fault;
        }
    }
    ("ok", 0, 0)
}

#[test]
fn faults_of_cut_texts(rt: HostRuntime) -> Result<(), Fail> {
    for length in 0..=WHOLE.len() {
        assert!(rt; outcome(rt.alloc(), &WHOLE[..length]) == wanted_at(length));
    }
    Ok(())
}

// Asserts that a fault prints as this text.
fn expect_printed(rt: &impl Abort, alloc: Global, fault: Fault, text: &str) -> Result<(), Fail> {
    assert!(rt; format!(in alloc; "{fault}")?.as_str() == text);
    Ok(())
}

#[test]
fn fault_texts(rt: HostRuntime) -> Result<(), Fail> {
    for (fault, text) in [
        (Fault::OutOfMemory, "out of memory"),
        (Fault::TooLong, "the text has more than 4294967295 bytes"),
        (
            Fault::Character { at: 7 },
            "this character can't stand here",
        ),
        (
            Fault::Escape { at: 7 },
            "no escape: wanted a backslash, a quote, n, t or two hexadecimal digits",
        ),
        (Fault::OpenString { at: 7 }, "the string isn't closed"),
        (Fault::OpenGroup { at: 7 }, "the group isn't closed"),
        (
            Fault::Bracket { at: 7 },
            "this bracket doesn't close the last one that was opened",
        ),
    ] {
        expect_printed(&rt, rt.alloc(), fault, text)?;
    }
    Ok(())
}
